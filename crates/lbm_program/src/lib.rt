#![tactic(auto)]
//! What programs have in common: the words of the command line, and the exit status of an answer.

mod status;
mod words;

pub use status::status_of;
pub use words::words_of;
