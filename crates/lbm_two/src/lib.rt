//! The pattern with two lattices: each step reads one and writes the other (Krüger et al., *The Lattice Boltzmann
//! Method*, the chapter on implementation).
#![tactic(auto)]

mod behind;
mod two;

pub use behind::Behind;
pub use two::{Two, TwoLattices};
