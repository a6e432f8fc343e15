//! A passive tracer that a flow carries along.
//!
//! Each cell has an amount for each direction of the tracer's set, whole numbers of which none is ever lost. In a step the amounts of
//! a fluid cell relax toward those that the flow would carry along, a wall turns its amounts back, and each amount goes to the
//! neighbour in its direction. `Tracer` has them in one region, and `run_tracer` steps a flow and its tracer.
#![tactic(auto)]

mod collision;
pub mod constants;
mod flow_row;
pub mod laws;
mod quotient;
mod run;
mod set;
mod slots;
mod step;
mod trace;
mod tracer;

pub use constants::GREATEST_AMOUNT;
pub use run::{TraceEnd, run_tracer};
pub use set::TracerSet;
pub use trace::write_trace;
pub use tracer::Tracer;
