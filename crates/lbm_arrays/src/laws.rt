//! Steps that were worked by hand.
//!
//! The function does nothing: its contract is the theorem.

ghost use Rattle.lbm_arrays.specs.Worked.{StepsOfPlane};

/// What the definitions give for the steps of a plane of 5 by 7 cells: by how much each step moves each range, and what
/// slabs of one row save.
pub fn worked_steps()
    ensures { StepsOfPlane }
{}
