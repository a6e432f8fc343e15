//! No orientation is preferred: a case that is shifted, mirrored or turned runs as the case does.
#![tactic(auto)]

pub mod laws;
