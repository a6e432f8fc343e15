#![tactic(auto)]
//! The program: from the words of the command line to its answer.

mod finish;
mod in_memory;
mod job;
mod pattern;
mod run;
mod top;
mod tracer_finish;
mod tracer_job;

pub use in_memory::run_in_memory;
pub use lbm_answer::{
    CheckReport, End, File, Report, RunReport, TracerReport, gen_case, laws, mass, moments,
    state_of,
};
pub use run::{RunEnd, run_pattern};
pub use top::run_words;
