//! What is known of every voxel file, and files that were worked by hand.
//!
//! The functions do nothing: their contracts are the theorems.

ghost use Rattle.lbm_voxel.specs.Laws.{MakesCases};
ghost use Rattle.lbm_voxel.specs.Worked.{TwoCells, Refused};

/// What a voxel file makes of an accepted case is an accepted case.
pub fn case_law()
    ensures { MakesCases }
{}

/// What the definitions give for a file of two cells, for the same in another spelling, and for files that are refused.
pub fn worked_files()
    ensures accepted { TwoCells }
    ensures refused { Refused }
{}
