#![tactic(auto)]
//! Tests of boards and of tiles that are claimed at them: a board that two threads share, tiles that two threads serve, and memory
//! that is refused at any allocation of a board's start or of a step.

#[cfg(test)]
mod board_tests;
#[cfg(test)]
mod tiles_tests;
