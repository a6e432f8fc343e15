// What a run does, from its case to its report.
ghost use Rattle.std.specs.Prelude.{◌≤◌};
ghost use Rattle.lbm_model.specs.Limits.{most_steps};
ghost use Rattle.lbm_words.specs.Request.{IsChoice, choice_view};
ghost use Rattle.lbm_answer.specs.Answer.{DecidesFor, asked_of_job};
ghost use Rattle.lbm_answer.specs.Jobs.{job_view};

use crate::finish::{Course, finish};
use crate::{End, Report};
use lbm_answer::{Job, begin, cutting_of, save_all};
use lbm_model::{Case, Gate};
use lbm_rows::{Division, tile_rows};
use lbm_store::Store;
use std::alloc::{Allocator, Global};
use std::marker::Sync;
use std::thread::Threads;

/// Runs a case, writes the files that are asked for, and reports.
pub(crate) fn do_job<T: Store, A: Allocator + Copy, G: Gate, R: Threads + Sync>(
    rt: &R,
    alloc: Global,
    heap: A,
    case: Case,
    job: &Job<'_, '_>,
    store: &mut T,
    gate: &G,
) -> Result<Report, End>
    requires few { job.now.steps ≤ most_steps }
    requires choice { IsChoice (choice_view job.now.choice) }
    ensures { DecidesFor (asked_of_job (job_view case job.now)) (T.state store.old) (T.state store.new) result }
{
    let cut = cutting_of(alloc, case.space(), &job.choice)?;
    let begin = begin(alloc, store, job, &case)?;
    let division = Division {
        per_tile: tile_rows(case.space(), job.choice.tile),
        workers: job.choice.workers,
    };
    let course = Course {
        case,
        begin,
        cut,
        division,
        steps: job.steps,
    };
    let left = finish(rt, alloc, heap, course, job.choice.pattern, gate)?;
    save_all(store, job, &left)?;
    Ok(Report::Run(left.report))
}
