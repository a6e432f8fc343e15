//! The compressed grid, which works in place, in one lattice that moves as a whole.
//!
//! Arrays have as much margin as the farthest neighbour is away. At even times the sweep rises and each cell writes that
//! much lower than it stands, where nothing is that a later cell reads; at odd times the sweep falls and each cell writes
//! as much higher (Pohl, Kowarschik, Wilke, Iglberger and Rüde, "Optimization and profiling of the cache performance of
//! parallel lattice Boltzmann codes", 2003). Slabs work beside each other: what another slab may write over is saved first.
#![tactic(auto)]

mod grid;
mod near;
mod reading;
mod strips;
mod way;

pub use grid::{Grid, GridSweeps};
pub use near::Near;
pub use way::{Falling, Rising, Way};
