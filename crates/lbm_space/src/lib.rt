//! Velocity sets and the torus of cells.
#![tactic(auto)]

pub mod constants;
pub mod cutting;
pub mod laws;
pub mod memory;
pub mod padded;
pub mod set;
pub mod space;

pub use constants::{GREATEST_SIDE, MOST_PLACES};
pub use cutting::{CutEnd, Cutting};
pub use memory::Memory;
pub use set::{D2Q9, D3Q19, VelocitySet};
pub use space::Space;
