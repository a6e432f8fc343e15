//! The pattern that exchanges, in one lattice.
//!
//! Each cell puts what it sends into its own slots of the opposite directions. Then what stands at a cell in the array of
//! one direction of each pair of opposites is exchanged with what stands ahead of the cell in the array of the other one
//! (Mattila, Hyväluoma, Rossi, Aspnäs and Westerholm, "An efficient swap algorithm for the lattice Boltzmann method",
//! 2007). Either pass writes the slots that it has read, and no others, so one lattice is enough.
#![tactic(auto)]

mod exchange;
mod padding;
mod passes;
mod swap;

pub use exchange::Exchange;
pub use swap::{Swap, SwapPasses};
