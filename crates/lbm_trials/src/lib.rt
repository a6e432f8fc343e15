#![tactic(auto)]
//! Tests of the whole program and of its patterns with what a table of trials can't hand in: a gate, files that never fail, memory that
//! is refused at any allocation, a pattern that is none of the project's, cases that are mirrored and shifted, and a bound on
//! what is told.
//!
//! They stand here and not beside what they test, since a crate with tests is proved once more for them. lbm_parts_trials has the tests
//! of what is below the patterns, and lbm_tiles_trials those of boards and tiles.

#[cfg(test)]
mod gate_tests;
#[cfg(test)]
mod momentum_tests;
#[cfg(test)]
mod pattern_tests;
#[cfg(test)]
mod runs;
#[cfg(test)]
mod symmetry_tests;
#[cfg(test)]
mod tests;
#[cfg(test)]
mod watch;
