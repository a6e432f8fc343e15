#![tactic(auto)]
//! Tests of the parts below the patterns: cells of each velocity set, eight cells in step, each mix of fluid and walls in such cells, each
//! damage of a checkpoint, writing in pieces, and the real folder.

#[cfg(test)]
mod checkpoint_tests;
#[cfg(test)]
mod lane_tests;
#[cfg(test)]
mod rule_tests;
#[cfg(test)]
mod set_tests;
#[cfg(test)]
mod store_tests;
