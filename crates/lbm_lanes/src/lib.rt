#![tactic(auto)]
//! The rule of a cell, applied to eight cells at once.
//!
//! Masks of eight bits say which lanes are fluid cells and which are solid cells. `collide_rows` takes the rows of the
//! cells from whatever holds them and puts what the cells send; it is proved to make of each lane what `lbm_cell` makes
//! of its cell. `collide_rows_within` puts nothing where a fluid cell is out of limits, and `check_rows` puts nothing at all.
//! `collide_block` is the first over a `Block`, and `bounce_rows` is for rows of solid cells.
//!
//! `Rule` has the rates and the force of a case, prepared once.
//!
//! `moments` sums densities and momenta and finds the lanes out of limits. `fluid` makes of the lanes that collide
//! natural numbers in step. `kernel` goes over the pairs of opposite directions by nines of written directions, so that
//! the tables of the velocity set fold; `pairs` and `pair` relax and push a pair. `pair` takes no division by a density
//! or by the rates: quotients are guessed by reciprocals and set right, and are proved exact. The formula that it
//! follows is proved to be the relaxation of `lbm_cell`. Where all eight lanes collide, no lane is asked; and where the
//! rates are one, a population comes to its equilibrium at once, by a shorter formula.

mod bounce;
pub mod collision;
mod fluid;
pub mod kernel;
mod moments;
mod pair;
mod pairs;
mod quotient;
mod reciprocal;
pub mod rule;
mod signed;
mod vectors;

pub use bounce::bounce_rows;
pub use collision::collide_block;
pub use kernel::{check_rows, collide_rows, collide_rows_within};
pub use lbm_walk::Block;
pub use rule::Rule;
