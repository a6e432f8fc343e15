#![tactic(auto)]
//! Reads the geometry of a flow from a voxel file: a legacy VTK file with the dataset STRUCTURED_POINTS and integers in
//! ASCII.

mod fault;
mod head;
pub mod laws;
mod lines;
mod read;
mod text;
mod values;

pub use fault::{VoxelEnd, VoxelFault};
pub use read::read_voxels;
