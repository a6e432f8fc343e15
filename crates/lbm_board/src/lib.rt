//! A board deals out pieces of work to several callers, each piece once, and keeps the least of their reports.
//!
//! `Board::start` gives a `Turn` for each caller. A caller claims a number with its piece, works on it, and finishes it
//! with a report; a look reads the least report so far. `Board::close` takes the turns back and hands out the pieces.
//! The calls in between take no lock, no memory and no runtime value, and wait for nobody: each makes one atomic step at most.
#![tactic(auto)]

mod board;
mod claims;
mod closing;
mod comparing;
mod holding;
mod joining;
mod new_turns;
mod record;
mod reserve;
mod reserved_list;
mod rule;
mod seats;
mod start;
mod step_kinds;
mod steps;
mod turn;
mod turn_room;

pub use board::{Board, Closed};
pub use record::{Entry, Record};
pub use turn::Turn;
