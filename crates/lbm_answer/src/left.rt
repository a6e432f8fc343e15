// What the last state of a run leaves.
ghost use Rattle.std.specs.Prelude.{IfOk};
ghost use Rattle.lbm_model.specs.Flow.{IsStateOf};
ghost use Rattle.lbm_answer.specs.Jobs.{LeavesOf};

use crate::RunReport;
use crate::measures::moments;
use crate::sums::{mass, total_momentum};
use lbm_cell::Moment;
use lbm_model::{Case, State};
use lbm_space::{Memory, Space};
use std::alloc::Global;
use std::marker::Sync;
use std::thread::Threads;

/// What the last state of a run leaves to be written and reported.
#[derive(Drop)]
pub struct Left {
    /// The box of cells.
    pub space: Space,
    /// The last state.
    pub state: State,
    /// The density and momentum of each cell in order; a solid cell's are zeros.
    pub moments: Vec<Moment>,
    /// What is told of the run.
    pub report: RunReport,
}

/// What a state of a case leaves that a run has reached after `step` steps.
pub fn conclude<R: Threads + Sync>(
    rt: &R,
    alloc: Global,
    case: &Case,
    step: u64,
    state: State,
) -> Result<Left, Memory>
    requires state { IsStateOf case.now state }
    ensures { IfOk result (LeavesOf case.now step state) }
{
    let space = *case.space();
    let moments = moments(rt, alloc, case, &state)?;
    let report = RunReport {
        step,
        mass: mass(&state),
        momentum: total_momentum(&moments),
    };
    Ok(Left {
        space,
        state,
        moments,
        report,
    })
}
