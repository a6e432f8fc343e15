//! The rule of one cell: density and momentum, limits, collision, bounce-back and the first populations.
//!
//! The populations of a cell are whole numbers in lattice units, one for each direction of a velocity set.
//! Every sum and every product of a collision is made by a function of `arithmetic`, and stays below 2^62.
#![tactic(auto)]

mod arithmetic;
pub mod collision;
pub mod constants;
pub mod equilibrium;
pub mod force;
pub mod moments;
pub mod populations;
pub mod rates;
pub mod reflection;

pub use collision::collide;
pub use constants::{
    GREATEST_DENSITY, GREATEST_FORCE, GREATEST_POPULATION, GREATEST_RATE, LEAST_DENSITY, MAX_Q,
    UNIT,
};
pub use equilibrium::first_pops;
pub use force::Force;
pub use moments::{in_limits, moment};
pub use populations::{Moment, Pops};
pub use rates::Rates;
pub use reflection::bounce;
