//! Reads what the words of the command line ask for.
#![tactic(auto)]

mod commands;
mod end;
mod names;
mod numbers;
mod rate;
mod read;
mod request;
mod values;

pub use end::WordsEnd;
pub use read::request_of;
pub use request::{Check, Choice, Demo, PatternKind, Request, Run, Tracer, Voxels};
