#![tactic(auto)]
//! Checkpoints: the step and the state of a flow as bytes, under the digest of their case.
//!
//! A checkpoint is written in version 2, and read in versions 1 and 2. Numbers are big-endian.
//!
//! | Version 2 | Version 1 | |
//! |---|---|---|
//! | 8 bytes | 8 bytes | `LBMCKPT2`, `LBMCKPT1` |
//! | 32 bytes | 32 bytes | the SHA-256 of the case |
//! | 8 bytes | 8 bytes | the step |
//! | 16 bytes | 4 bytes | the sides and the number of directions; the number of cells |
//! | 4 bytes each | 4 bytes each | the populations, in order of cell and then direction |
//! | 32 bytes | 32 bytes | the SHA-256 of all bytes before |

mod fault;
pub mod laws;
mod populations;
mod read;
mod version;
mod write;

pub use fault::{CkptEnd, CkptFault};
pub use read::read_checkpoint;
pub use write::{checkpoint_size, write_checkpoint};
