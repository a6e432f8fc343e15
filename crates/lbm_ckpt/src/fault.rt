//! Why a checkpoint is refused.

ghost use Rattle.std.specs.Prelude.{◌≡◌};
ghost use Rattle.lbm_ckpt.specs.declared.fault.CkptEnd.TheVariants.{Fault, Memory};

use std::alloc::{AllocError, AllocFailed};

/// What is wrong with a checkpoint: the first in this order.
#[derive(Clone, Copy, Debug, PartialEq, Eq)]
pub enum CkptFault {
    /// It has fewer bytes than the shortest of its version.
    Short,
    /// It does not begin as a checkpoint does.
    Magic,
    /// It is of another case.
    OtherCase,
    /// It is of another number of cells or directions or of other sides, or its length is not exact.
    Size,
    /// Its step is above 1,000,000.
    Step,
    /// Its last 32 bytes are not the digest of all bytes before.
    Digest,
    /// A population is above 268,435,456 in size.
    Wide,
}

/// Why no checkpoint was read.
#[derive(Clone, Copy, Debug, PartialEq, Eq)]
pub enum CkptEnd {
    /// The bytes are refused.
    Fault(CkptFault),
    /// Memory ran out.
    Memory,
}

impl From<CkptFault> for CkptEnd {
    ghost from_gives = { λ fault end. end ≡ Fault fault };

    fn from(fault: CkptFault) -> CkptEnd {
        CkptEnd::Fault(fault)
    }
}

impl From<AllocError> for CkptEnd {
    ghost from_gives = { λ _ end. end ≡ Memory };

    fn from(_error: AllocError) -> CkptEnd {
        CkptEnd::Memory
    }
}

impl<T: Drop> From<AllocFailed<T>> for CkptEnd {
    ghost from_gives = { λ _ end. end ≡ Memory };

    fn from(_error: AllocFailed<T>) -> CkptEnd {
        CkptEnd::Memory
    }
}
