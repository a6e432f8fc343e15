//! Reads case files.
#![tactic(auto)]

mod cells;
mod document;
mod drawing;
mod fault;
mod key;
pub mod laws;
mod numbers;
mod read;
mod rows;
mod settings;

pub use fault::{CaseEnd, CaseFault, KeyName};
pub use key::Key;
pub use read::read_case;
