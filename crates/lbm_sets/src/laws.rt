//! A law of every velocity set.
//!
//! The function does nothing: its contract is the theorem.

ghost use Rattle.lbm_sets.specs.Drift.{DriftOfCollision};

/// How far rounding may move the momentum of a cell in limits. A collision adds `DEN / 3` times the force to the
/// momentum, and on each axis less than the number of directions that lead forward along it, in size.
pub fn drift_law()
    ensures { DriftOfCollision }
{}
