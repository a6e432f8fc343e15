//! More velocity sets in space, and how far the momentum of a cell may drift in a collision.
#![tactic(auto)]

pub mod laws;
pub mod sets;

pub use sets::{D3Q15, D3Q27};
