//! Why a trial ends before its last line.

use lbm_space::Memory;
use std::alloc::{AllocError, AllocFailed};

/// Why a trial ends before its last line.
#[derive(Drop)]
pub enum Stop {
    /// The line does not hold.
    Differs,
    /// The line says nothing that the table's language knows, or speaks of a file that is not there.
    Unread,
    /// Memory ran out.
    Memory,
}

impl From<AllocError> for Stop {
    fn from(_: AllocError) -> Stop {
        Stop::Memory
    }
}

impl<T: Drop> From<AllocFailed<T>> for Stop {
    fn from(_: AllocFailed<T>) -> Stop {
        Stop::Memory
    }
}

impl From<Memory> for Stop {
    fn from(_: Memory) -> Stop {
        Stop::Memory
    }
}
