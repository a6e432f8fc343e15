//! One region of padded arrays, and its ranges lent to many workers at once.
//!
//! A lattice keeps the populations of each direction in an array of its own. A step of a lattice loads the pads of the
//! arrays that it reads across the sides, lends each slab of a cutting one range of every array, moved as the step needs
//! it (`shifts`), and runs its work on all loans at once (`fork`); then it stores the pads that it has written.
#![tactic(auto)]

mod crew;
mod either;
mod halves;
pub mod laws;
mod loan;
mod pads;
mod region;
mod slabs;
mod steps;
mod work;

pub use crew::{Forks, Hands, Inputs, Lending, Pass, Viewed, fork_by};
pub use either::{Either, ForFirst, ForSecond};
pub use loan::Loan;
pub use region::Region;
pub use slabs::{Shifts, fork};
pub use steps::{Step, falling_strip, place_behind, rising_strip, shifts};
pub use work::PieceWork;
