//! Lattices in kept rows, of which a step lends tiles to the workers that claim them at a shared board.
//!
//! Each direction has a kept row of slots for each row of cells, and the layout is that of the pattern that works in
//! place. A tile is some neighbouring rows of cells, with the kept rows that their cells touch in a step.
#![tactic(auto)]

mod dealing;
mod division;
mod kept_row;
mod lending;
mod reading;
mod returning;
mod row;
mod rows;
mod slots;
mod standing;
mod step;
mod tile;
mod tile_block;
mod tile_row;
mod tiles;
mod ways;
mod worker;

pub use dealing::{Division, deal};
pub use division::tile_rows;
pub use kept_row::KeptRow;
pub use standing::make_rows;
pub use tile::Tile;
pub use tiles::Tiles;
pub use worker::{TileSteps, serve};
