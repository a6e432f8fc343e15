//! The sweep of a lattice's cells over lent ranges, which the patterns share.
//!
//! The cells of a slab take their populations from a source, pass the rule of the cells, and put what they send into the
//! slab's ranges, row by row straight from where the rows stand; slabs run beside each other. A pattern says from where
//! populations are taken, into which arrays they are put, and how the ranges are moved.
#![tactic(auto)]

mod cell_row;
mod in_place;
mod lanes;
mod lattice;
pub mod laws;
mod padding;
mod rows;
mod slab;
mod slots;
mod source;
mod step;
mod tables;
mod taking;

pub use in_place::InPlace;
pub use lanes::{eight_at, lanes_at};
pub use lattice::{least_out_of_limits, place_state, population_at, read_state};
pub use padding::{load_all_pads, store_all_pads};
pub use rows::collide_taking;
pub use slab::Collision;
pub use slots::{Slots, first_slots};
pub use source::{SlabCall, Source};
pub use step::collide;
pub use tables::{Directions, opposite_directions, same_directions};
pub use taking::Taking;
