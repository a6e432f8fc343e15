//! A run of a flow with its tracer.

ghost use Rattle.std.specs.Prelude.{◌≡◌, ◌≤◌, IsNone, false, true};
ghost use Rattle.lbm_model.specs.Limits.{most_steps};
ghost use Rattle.lbm_tracer.specs.Carried.{carried};
ghost use Rattle.lbm_tracer.specs.Running.{IsLastTest, TracerGives, ended_by};

use crate::Tracer;
use lbm_lattice::Pattern;
use lbm_model::{Gate, Lattice, StepEnd};
use std::alloc::Allocator;
use std::marker::Sync;
use std::thread::Threads;

/// Why a run has ended before its last step.
#[derive(Clone, Copy, Debug, PartialEq, Eq)]
pub enum TraceEnd {
    /// This is the least step at which the flow has a cell out of limits, and the least such cell.
    Range { step: u64, cell: u32 },
    /// This is the least step at which the tracer has a cell out of limits, and the least such cell.
    TracerRange { step: u64, cell: u32 },
    /// A step of the flow wanted memory.
    Memory,
}

impl TraceEnd {
    // How a step of the flow at this time ends the run.
    fn at(step: u64, end: StepEnd) -> TraceEnd
        ensures { result ≡ ended_by step end }
    {
        match end {
            StepEnd::Range(cell) => TraceEnd::Range { step, cell },
            StepEnd::Memory => TraceEnd::Memory,
        }
    }
}

/// Steps a flow and its tracer until their time is `steps`, which is at most 1,000,000, and tests the states that they then stand
/// for. Both are of one space and at one time, which is at most `steps`, and neither is spent. The tracer steps by the flow's
/// state before the flow's step. The gate is entered once before each piece of a step of the flow.
///
/// The two ranges name the least step, and in it the least cell, that is out of limits, the flow being tested first; the tracer is
/// then spent. Where the flow is out of limits, the pattern is as after such a run without a tracer: spent where the step is
/// below `steps`. Where the tracer is, the pattern stands for the flow's state at that step. `Memory` comes only from a
/// pattern whose steps want memory (`WANTS_MEMORY`), and the tracer is then spent too.
pub fn run_tracer<R: Threads + Sync, G: Gate, P: Pattern<G>, A: Allocator>(
    rt: &R,
    pattern: &mut P,
    tracer: &mut Tracer<A>,
    steps: u64,
    gate: &G,
) -> Result<(), TraceEnd>
    requires unspent { IsNone (P.standing pattern.old).spent }
    requires tracer_unspent { tracer.old.spent ≡ false }
    requires space { (P.standing pattern.old).case.torus ≡ tracer.old.torus }
    requires time { (P.standing pattern.old).time ≡ tracer.old.time }
    requires ahead { (P.standing pattern.old).time ≤ steps }
    requires few { steps ≤ most_steps }
    ensures { TracerGives P.WANTS_MEMORY (P.standing pattern.old) (P.standing pattern.new) (carried tracer.old) (carried tracer.new) steps result }
{
    for step in pattern.time()..steps {
        if let Some(cell) = tracer.follow(pattern) {
            tracer.spend();
            return Err(TraceEnd::TracerRange { step, cell });
        }
        if let Err(end) = pattern.step(rt, gate) {
            tracer.spend();
            return Err(TraceEnd::at(step, end));
        }
    }
    last_test(pattern, tracer, steps)
}

// Whether the states at the last step are in limits. If not, the tracer is spent.
fn last_test<P: Lattice, A: Allocator>(
    pattern: &P,
    tracer: &mut Tracer<A>,
    step: u64,
) -> Result<(), TraceEnd>
    requires unspent { IsNone (P.standing pattern.now).spent }
    requires tracer_unspent { tracer.old.spent ≡ false }
    requires space { (P.standing pattern.now).case.torus ≡ tracer.old.torus }
    ensures { IsLastTest (P.standing pattern.now) (carried tracer.old) (carried tracer.new) step result }
{
    if let Some(cell) = pattern.check() {
        tracer.spend();
        return Err(TraceEnd::Range { step, cell });
    }
    if let Some(cell) = tracer.check(pattern.case()) {
        tracer.spend();
        return Err(TraceEnd::TracerRange { step, cell });
    }
    Ok(())
}
