//! Laws of every tracer, and tracers that were worked by hand.
//!
//! The functions do nothing: their contracts are the theorems.

ghost use Rattle.lbm_tracer.specs.Worked.{TwoCells, FastCell, WalledCell, CellInSpace};
ghost use Rattle.lbm_tracer.specs.Laws.{TotalAtFirst, TotalOfStep, TotalOfRun};

/// Nothing of a tracer is lost: its first state has the whole amount with which it begins, and neither a step nor a run changes the
/// sum of all amounts, walls included.
pub fn total_law()
    ensures first { TotalAtFirst }
    ensures step { TotalOfStep }
    ensures run { TotalOfRun }
{}

/// What the definitions give for small cases that were worked by hand.
pub fn worked_tracers()
    ensures two { TwoCells }
    ensures fast { FastCell }
    ensures walled { WalledCell }
    ensures in_space { CellInSpace }
{}
