//! The pattern that works in place, in one lattice.
//!
//! At even times each cell takes its populations from its own slots and puts what it sends into the slots of the opposite
//! directions; at odd times it takes them from the slots behind it and puts what it sends into those ahead (Bailey, Myre,
//! Walsh, Lilja and Saar, "Accelerating lattice Boltzmann fluid flow simulations using graphics processors", 2009). Either
//! way it writes the slots that it has read, and no others, so one lattice is enough.
#![tactic(auto)]

mod aa;

pub use aa::{Aa, AaSteps};
