// A run of a pattern.
ghost use Rattle.std.specs.Prelude.{◌≡◌, ◌≤◌, IsNone};
ghost use Rattle.lbm_model.specs.Limits.{most_steps};
ghost use Rattle.lbm_flow.specs.Causes.{run_end};
ghost use Rattle.lbm_flow.specs.Running.{RunGives, ended};

use crate::End;
use lbm_lattice::Pattern;
use lbm_model::{Gate, StepEnd};
use std::marker::Sync;
use std::thread::Threads;

/// Why a run has ended before its last step.
#[derive(Clone, Copy, Debug, PartialEq, Eq)]
pub enum RunEnd {
    /// This is the least step whose state has a cell out of limits, and the least such cell.
    Range { step: u64, cell: u32 },
    /// A step wanted memory.
    Memory,
}

impl RunEnd {
    // How a step at this time ends the run.
    fn at(step: u64, end: StepEnd) -> RunEnd
        ensures { result ≡ ended step end }
    {
        match end {
            StepEnd::Range(cell) => RunEnd::Range { step, cell },
            StepEnd::Memory => RunEnd::Memory,
        }
    }
}

impl From<RunEnd> for End {
    ghost from_gives = { λ why e. e ≡ run_end why };

    fn from(why: RunEnd) -> Self {
        match why {
            RunEnd::Range { step, cell } => End::Range { step, cell },
            RunEnd::Memory => End::Memory,
        }
    }
}

/// Steps a pattern until its time is `steps`, which is at most 1,000,000, and tests the state that it then stands for. The
/// pattern is not spent, and its time is at most `steps`. The gate is entered once before each piece of a step.
///
/// `Range` names the least step, and in it the least cell, that is out of limits. Where that step is below `steps`, the
/// pattern is spent; otherwise it stands for the state that is out of limits. `Memory` comes only from a pattern whose
/// steps want memory (`WANTS_MEMORY`).
pub fn run_pattern<R: Threads + Sync, G: Gate, P: Pattern<G>>(
    rt: &R,
    pattern: &mut P,
    steps: u64,
    gate: &G,
) -> Result<(), RunEnd>
    requires unspent { IsNone (P.standing pattern.old).spent }
    requires ahead { (P.standing pattern.old).time ≤ steps }
    requires few { steps ≤ most_steps }
    ensures { RunGives P.WANTS_MEMORY (P.standing pattern.old) (P.standing pattern.new) steps result }
{
    for step in pattern.time()..steps {
        if let Err(end) = pattern.step(rt, gate) {
            return Err(RunEnd::at(step, end));
        }
    }
    match pattern.check() {
        Some(cell) => Err(RunEnd::Range { step: steps, cell }),
        None => Ok(()),
    }
}
