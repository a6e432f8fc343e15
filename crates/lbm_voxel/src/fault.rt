//! Why a voxel file is refused.

ghost use Rattle.std.specs.Prelude.{◌≡◌};
ghost use Rattle.lbm_voxel.specs.declared.fault.VoxelEnd.TheVariants.{Fault, Memory};

use std::alloc::{AllocError, AllocFailed};

/// What is wrong with a voxel file: the first in this order.
#[derive(Clone, Copy, Debug, PartialEq, Eq)]
pub enum VoxelFault {
    /// This one of the first three lines, from 1, is missing or wrong.
    Head(u32),
    /// No head goes on with this word after the lines, from 0, or it is missing.
    Word(u32),
    /// The lattice has too many cells, a side of 0 or one that is too long, or more than one layer in a plane.
    Sides,
    /// The number of values that is told is not that of the cells.
    Count,
    /// This value, from 0, is missing or not allowed.
    Value(u32),
}

/// Why no case was read.
#[derive(Clone, Copy, Debug, PartialEq, Eq)]
pub enum VoxelEnd {
    /// The file is refused.
    Fault(VoxelFault),
    /// Memory ran out.
    Memory,
}

impl From<VoxelFault> for VoxelEnd {
    ghost from_gives = { λ fault end. end ≡ Fault fault };

    fn from(fault: VoxelFault) -> VoxelEnd {
        VoxelEnd::Fault(fault)
    }
}

impl From<AllocError> for VoxelEnd {
    ghost from_gives = { λ _ end. end ≡ Memory };

    fn from(_error: AllocError) -> VoxelEnd {
        VoxelEnd::Memory
    }
}

impl<T: Drop> From<AllocFailed<T>> for VoxelEnd {
    ghost from_gives = { λ _ end. end ≡ Memory };

    fn from(_error: AllocFailed<T>) -> VoxelEnd {
        VoxelEnd::Memory
    }
}
