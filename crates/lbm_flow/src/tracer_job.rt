// What a run with a tracer does, from its case to its report.
ghost use Rattle.lbm_words.specs.Request.{IsTracer, tracer_view};
ghost use Rattle.lbm_answer.specs.Answer.{DecidesFor, asked_of_tracer};

use crate::tracer_finish::finish_with_tracer;
use crate::{End, Report};
use lbm_answer::{cutting_of, place_tracer, save_traced};
use lbm_model::{Case, Gate};
use lbm_store::Store;
use lbm_words::Tracer;
use std::alloc::{Allocator, Global};
use std::marker::Sync;
use std::thread::Threads;

/// Runs a case with a tracer in its flow, writes the file of the flow and that of the tracer, and reports.
pub(crate) fn do_tracer_job<T: Store, A: Allocator + Copy, G: Gate, R: Threads + Sync>(
    rt: &R,
    alloc: Global,
    heap: A,
    case: Case,
    request: &Tracer<'_>,
    store: &mut T,
    gate: &G,
) -> Result<Report, End>
    requires { IsTracer (tracer_view request.now) }
    ensures { DecidesFor (asked_of_tracer (tracer_view request.now) case) (T.state store.old) (T.state store.new) result }
{
    let cut = cutting_of(alloc, case.space(), &request.choice)?;
    place_tracer(&case, request.cell)?;
    let left = finish_with_tracer(rt, alloc, heap, case, cut, request, gate)?;
    save_traced(store, request.out, request.format, request.trace, &left)?;
    Ok(Report::Tracer(left.report()))
}
