//! The plain definition as a lattice: a list of populations that each step replaces by the next one.
//!
//! It is the least pattern, with no array, slab or board. `run_pattern` runs it as any other, and the tests compare the others
//! with it.
#![tactic(auto)]

mod plain;

pub use plain::{Plain, first_of};
