//! Rows of cells asked for by direction, and the walk over the cells of a slab.
//!
//! A kernel takes the populations of up to eight neighbouring cells from whatever holds them, a row for each direction,
//! and puts there what the cells send. `Rows` is what it asks of the holder, and `Block` is the holder that stands by
//! itself. `Turns` says, for a kernel that puts a pair of opposite directions at a time, which pairs it has put. A `Walk`
//! is a holder that goes along the places of a slab, and `collide_slab` takes a kernel over all of its cells.
#![tactic(auto)]

pub mod apart;
pub mod block;
pub mod kernel;
pub mod row;
pub mod rows;
pub mod slab;
pub mod walk;

pub use apart::collide_apart;
pub use block::Block;
pub use kernel::Kernel;
pub use row::collide_row;
pub use rows::Rows;
pub use slab::collide_slab;
pub use walk::Walk;
