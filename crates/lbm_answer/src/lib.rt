#![tactic(auto)]
//! What a request comes to, and all that a call does for it but the run of its lattice: reading its files, where its run
//! begins, what is written and reported of its last state, and what is told of its answer. No pattern is known here.

mod answer;
mod beginning;
mod check;
mod files;
mod generated;
mod job;
pub mod laws;
mod left;
mod lines;
mod measures;
mod refusals;
mod report;
mod save;
mod state;
mod sums;
mod telling;
mod tracer;

pub use answer::{End, File};
pub use beginning::{Beginning, begin};
pub use check::decide_check;
pub use files::{read_case_file, read_voxel_file};
pub use generated::gen_case;
pub use job::{Job, cutting_of};
pub use left::{Left, conclude};
pub use measures::moments;
pub use report::{CheckReport, Report, RunReport, TracerReport};
pub use save::save_all;
pub use state::state_of;
pub use sums::mass;
pub use telling::tell;
pub use tracer::{Traced, place_tracer, save_traced};
