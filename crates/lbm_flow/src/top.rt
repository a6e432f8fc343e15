// The top call.
ghost use Rattle.std.specs.Prelude.{◌≡◌, map, string_bytes};
ghost use Rattle.lbm_words.specs.Request.{IsRun, IsDemo, IsVoxels, IsTracer, run, demo, voxels, tracer, run_view, demo_view, voxels_view, tracer_view};
ghost use Rattle.lbm_words.specs.Words.{request_of};
ghost use Rattle.lbm_answer.specs.Answer.{Answers, Decides, DecidesFor, asked_of};
ghost use Rattle.lbm_answer.specs.Complete.{IsComplete};

use crate::job::do_job;
use crate::tracer_job::do_tracer_job;
use crate::{End, Report, gen_case};
use lbm_answer::{Job, decide_check, read_case_file, read_voxel_file, tell};
use lbm_case::read_case;
use lbm_model::Gate;
use lbm_store::{Sink, Store};
use lbm_words::{Demo, Request, Run, Tracer, Voxels, request_of};
use std::alloc::{Allocator, Global};
use std::marker::Sync;
use std::thread::Threads;

/// Does what the words after the program's name ask for, and answers: `run CASE STEPS OUT` runs the case of a file over
/// so many steps, writes densities and momenta as a legacy VTK file, and tells the sink a line; `check CASE` tells one of
/// the case; `demo N STEPS OUT` runs a generated case; `voxels FILE CASE STEPS OUT` runs the case of a file in the geometry
/// of a voxel file; `tracer CASE STEPS OUT TRACE AMOUNT CELL` lets the flow carry a tracer, and writes its amounts as well. The
/// memory of the lattice and of the tracer is that of `heap`. The gate is entered once before each piece of a step.
///
/// The contract says which answer comes, what it leaves in the store, and what the sink has got. It speaks of the plain
/// two-lattice definition alone, whatever pattern, workers and cutting the words ask for.
pub fn run_words<T: Store, K: Sink, A: Allocator + Copy, G: Gate, R: Threads + Sync>(
    rt: &R,
    alloc: Global,
    heap: A,
    words: &[String],
    store: &mut T,
    out: &mut K,
    gate: &G,
) -> End
    // The answer is that of the plain definition over the files, or a fault that was counted, or want of memory. The mass of
    // a finished run is the mass that it began with, and what the walls give in each step.
    ensures answer { Answers (map string_bytes words.now) (T.state store.old) (T.state store.new) (K.state out.old) (K.state out.new) result }
    // Where no fault was counted, it is that of the definition or want of memory.
    ensures complete { IsComplete (map string_bytes words.now) (T.state store.old) (T.state store.new) (K.state out.old) (K.state out.new) result }
    ensures rest { (K.state out.new).rest ≡ (K.state out.old).rest }
{
    let decision = decide(rt, alloc, heap, words, store, gate);
    tell(out, decision)
}

// Does what the words ask for, up to the line that is told. It touches the store alone.
fn decide<T: Store, A: Allocator + Copy, G: Gate, R: Threads + Sync>(
    rt: &R,
    alloc: Global,
    heap: A,
    words: &[String],
    store: &mut T,
    gate: &G,
) -> Result<Report, End>
    ensures { Decides (request_of (map string_bytes words.now)) (T.state store.old) (T.state store.new) result }
{
    match request_of(alloc, words)? {
        Request::Run(run) => decide_run(rt, alloc, heap, run, store, gate),
        Request::Check(check) => decide_check(alloc, check, store),
        Request::Demo(demo) => decide_demo(rt, alloc, heap, demo, store, gate),
        Request::Voxels(voxels) => decide_voxels(rt, alloc, heap, voxels, store, gate),
        Request::Tracer(tracer) => decide_tracer(rt, alloc, heap, &tracer, store, gate),
    }
}

fn decide_run<T: Store, A: Allocator + Copy, G: Gate, R: Threads + Sync>(
    rt: &R,
    alloc: Global,
    heap: A,
    request: Run<'_>,
    store: &mut T,
    gate: &G,
) -> Result<Report, End>
    requires { IsRun (run_view request) }
    ensures { DecidesFor (asked_of (run (run_view request.entry))) (T.state store.old) (T.state store.new) result }
{
    let Run {
        case,
        steps,
        out,
        choice,
        resume,
        save,
        format,
    } = request;
    let (bytes, case) = read_case_file(alloc, store, case)?;
    let job = Job {
        bytes: &bytes,
        voxels: None,
        steps,
        out,
        choice,
        resume,
        save,
        format,
    };
    do_job(rt, alloc, heap, case, &job, store, gate)
}

fn decide_demo<T: Store, A: Allocator + Copy, G: Gate, R: Threads + Sync>(
    rt: &R,
    alloc: Global,
    heap: A,
    request: Demo<'_>,
    store: &mut T,
    gate: &G,
) -> Result<Report, End>
    requires { IsDemo (demo_view request) }
    ensures { DecidesFor (asked_of (demo (demo_view request.entry))) (T.state store.old) (T.state store.new) result }
{
    let Demo {
        n,
        steps,
        out,
        choice,
        save,
        format,
    } = request;
    let bytes = gen_case(alloc, n)?;
    let case = read_case(alloc, &bytes)?;
    let job = Job {
        bytes: &bytes,
        voxels: None,
        steps,
        out,
        choice,
        resume: None,
        save,
        format,
    };
    do_job(rt, alloc, heap, case, &job, store, gate)
}

fn decide_voxels<T: Store, A: Allocator + Copy, G: Gate, R: Threads + Sync>(
    rt: &R,
    alloc: Global,
    heap: A,
    request: Voxels<'_>,
    store: &mut T,
    gate: &G,
) -> Result<Report, End>
    requires { IsVoxels (voxels_view request) }
    ensures { DecidesFor (asked_of (voxels (voxels_view request.entry))) (T.state store.old) (T.state store.new) result }
{
    let Voxels { file, run } = request;
    let (bytes, plain) = read_case_file(alloc, store, run.case)?;
    let (voxels, case) = read_voxel_file(alloc, store, file, &plain)?;
    let job = Job {
        bytes: &bytes,
        voxels: Some(&voxels),
        steps: run.steps,
        out: run.out,
        choice: run.choice,
        resume: run.resume,
        save: run.save,
        format: run.format,
    };
    do_job(rt, alloc, heap, case, &job, store, gate)
}

fn decide_tracer<T: Store, A: Allocator + Copy, G: Gate, R: Threads + Sync>(
    rt: &R,
    alloc: Global,
    heap: A,
    request: &Tracer<'_>,
    store: &mut T,
    gate: &G,
) -> Result<Report, End>
    requires { IsTracer (tracer_view request.now) }
    ensures { DecidesFor (asked_of (tracer (tracer_view request.now))) (T.state store.old) (T.state store.new) result }
{
    let (_, case) = read_case_file(alloc, store, request.case)?;
    do_tracer_job(rt, alloc, heap, case, request, store, gate)
}
