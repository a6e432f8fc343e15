//! The theorem of the patterns' steps.
//!
//! The function does nothing: its contract is the theorem.

ghost use Rattle.lbm_sweep.specs.Steps.{SweepIsStep};

/// A sweep that takes a state from the slots, and sends on what its cells make of it, is a step of the flow.
pub fn step_law()
    ensures step { SweepIsStep }
{}
