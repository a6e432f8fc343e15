#![tactic(auto)]
//! The rule of the cells of a case, as a kernel over rows by direction.
//!
//! `CellRule` takes rows of up to eight cells. Those that are fluid collide in step, by the kernel of `lbm_lanes`, and
//! those that are solid turn their populations back; rows of solid cells alone do nothing else. Where a cell of the rows
//! is a moving wall, its gain is added afterwards. Rows without a moving wall pay a test for it.

mod gains;
mod masks;
mod rule;

pub use rule::CellRule;
