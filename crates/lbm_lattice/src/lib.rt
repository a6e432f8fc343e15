//! Patterns: how a lattice is kept, and how it is moved on from step to step.
//!
//! `Pattern` is what a run needs. `ArrayLattice` is a lattice in padded arrays, with all that the patterns share; what is a
//! pattern's own is a `Propagation`. Those that write the slots that they read share `sweep_in_place`. Where pieces of work
//! are dealt out by a board, `Serving` is what each of its turns does.
#![tactic(auto)]

mod array_lattice;
mod idle;
mod in_place;
mod pattern;
mod propagation;
mod reading;
mod serving;

pub use array_lattice::ArrayLattice;
pub use idle::{NoPass, NoServing};
pub use in_place::{BASE, OWN, TURNED, Way, sweep_and_turn, sweep_in_place};
pub use pattern::Pattern;
pub use propagation::Propagation;
pub use serving::{Servers, Serves, Serving};
