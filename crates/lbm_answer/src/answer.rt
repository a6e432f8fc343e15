// What a call answers.
ghost use Rattle.std.specs.Prelude.{◌≡◌};
ghost use Rattle.lbm_answer.specs.declared.answer.End.TheVariants.{Memory};
ghost use Rattle.lbm_answer.specs.Lines.{status_of};
ghost use Rattle.lbm_answer.specs.Causes.{case_end, checkpoint_end, cut_end, voxel_end, words_end};

use lbm_case::{CaseEnd, CaseFault};
use lbm_ckpt::{CkptEnd, CkptFault};
use lbm_space::{CutEnd, Memory};
use lbm_voxel::{VoxelEnd, VoxelFault};
use lbm_words::WordsEnd;
use std::alloc::AllocError;

/// A file that the words name.
#[derive(Clone, Copy, Debug, PartialEq, Eq)]
pub enum File {
    /// The file with the case.
    CaseFile,
    /// The voxel file that the case takes its geometry from.
    Voxel,
    /// The checkpoint that a run begins with.
    Checkpoint,
    /// The file that densities and momenta are written to.
    Out,
    /// The file that the last state is saved in.
    Save,
    /// The file that the amounts of a tracer are written to.
    Trace,
}

/// What a call answers.
#[derive(Debug, Drop, PartialEq, Eq)]
pub enum End {
    /// All was done.
    Done,
    /// The words ask for nothing.
    Usage,
    /// The case file is refused.
    Case(CaseFault),
    /// This file is longer than it may be.
    TooLong(File),
    /// The voxel file is refused.
    Voxel(VoxelFault),
    /// This entry of `--cut`, counted from 0, is the first that is not above the one before it, or is no row.
    Cut(u32),
    /// A tracer cannot begin here: it is no cell, or a solid one.
    Spot(u32),
    /// The checkpoint is refused.
    Checkpoint(CkptFault),
    /// The step of the checkpoint, `at`, is past the last step, `to`.
    Past { at: u64, to: u64 },
    /// This is the first step of the run with a cell out of limits, and the least such cell.
    Range { step: u64, cell: u32 },
    /// This is the first step of the run at which the tracer has a cell out of limits, and the least such cell.
    TracerRange { step: u64, cell: u32 },
    /// The store could not read or write this file.
    StoreFault(File),
    /// The sink did not take the report.
    SinkFault,
    /// Memory ran out.
    Memory,
}

impl From<AllocError> for End {
    ghost from_gives = { λ _ e. e ≡ Memory };

    fn from(_: AllocError) -> Self {
        End::Memory
    }
}

impl From<Memory> for End {
    ghost from_gives = { λ _ e. e ≡ Memory };

    fn from(_: Memory) -> Self {
        End::Memory
    }
}

impl From<CaseEnd> for End {
    ghost from_gives = { λ why e. e ≡ case_end why };

    fn from(why: CaseEnd) -> Self {
        match why {
            CaseEnd::Fault(fault) => End::Case(fault),
            CaseEnd::Memory => End::Memory,
        }
    }
}

impl From<VoxelEnd> for End {
    ghost from_gives = { λ why e. e ≡ voxel_end why };

    fn from(why: VoxelEnd) -> Self {
        match why {
            VoxelEnd::Fault(fault) => End::Voxel(fault),
            VoxelEnd::Memory => End::Memory,
        }
    }
}

impl From<CutEnd> for End {
    ghost from_gives = { λ why e. e ≡ cut_end why };

    fn from(why: CutEnd) -> Self {
        match why {
            CutEnd::BadCut(k) => End::Cut(k),
            CutEnd::Memory => End::Memory,
        }
    }
}

impl From<CkptEnd> for End {
    ghost from_gives = { λ why e. e ≡ checkpoint_end why };

    fn from(why: CkptEnd) -> Self {
        match why {
            CkptEnd::Fault(fault) => End::Checkpoint(fault),
            CkptEnd::Memory => End::Memory,
        }
    }
}

impl From<WordsEnd> for End {
    ghost from_gives = { λ why e. e ≡ words_end why };

    fn from(why: WordsEnd) -> Self {
        match why {
            WordsEnd::Usage => End::Usage,
            WordsEnd::Memory => End::Memory,
        }
    }
}

impl End {
    /// The status with which the program ends.
    pub fn status(&self) -> u8
        ensures { result ≡ status_of self.now }
    {
        match self {
            End::Done => 0,
            End::Usage => 2,
            End::Case(_) | End::TooLong(_) | End::Voxel(_) | End::Cut(_) | End::Spot(_) => 3,
            End::Checkpoint(_) | End::Past { .. } => 4,
            End::Range { .. } | End::TracerRange { .. } => 5,
            End::StoreFault(_) | End::SinkFault => 6,
            End::Memory => 7,
        }
    }
}
