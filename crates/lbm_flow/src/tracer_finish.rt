// The run of a case by a pattern with a tracer in its flow, and what the last states leave.
ghost use Rattle.std.specs.Prelude.{◌≡◌, ◌<◌, true, false, IfOk};
ghost use Rattle.lbm_space.specs.Torus.{cells, rows as row_count};
ghost use Rattle.lbm_space.specs.Cuttings.{rows_of};
ghost use Rattle.lbm_model.specs.Flow.{first, IsStateOf};
ghost use Rattle.lbm_model.specs.Small.{IsNarrow};
ghost use Rattle.lbm_rows.specs.Tiles.{IsDivision};
ghost use Rattle.lbm_tracer.specs.Carried.{carried};
ghost use Rattle.lbm_words.specs.Request.{IsTracer, tracer_view};
ghost use Rattle.lbm_answer.specs.Outcome.{is_spot};
ghost use Rattle.lbm_answer.specs.Reports.{printed_amount, printed_amounts};
ghost use Rattle.lbm_answer.specs.Tracers.{FinishesTraced, flow_at_first, tracer_at_first};
ghost use Rattle.lbm_flow.specs.Carrying.{IsOutset, IsLeftOf, ReachesBoth};

use crate::End;
use crate::pattern::at_pattern;
use lbm_aa::AaSteps;
use lbm_answer::{Traced, conclude, state_of};
use lbm_grid::GridSweeps;
use lbm_lattice::{ArrayLattice, Pattern, Propagation};
use lbm_model::{Case, Gate, State, at_set, first_state};
use lbm_rows::{Division, Tiles, tile_rows};
use lbm_space::{Cutting, Memory, VelocitySet};
use lbm_swap::SwapPasses;
use lbm_tracer::{Tracer, run_tracer};
use lbm_two::TwoLattices;
use lbm_words::{PatternKind, Tracer as TracerRun};
use std::alloc::{Allocator, Global};
use std::marker::Sync;
use std::thread::Threads;

/// Where the flow begins: a case at its first state, over the slabs of a cutting, or over tiles.
#[derive(Drop)]
struct Outset {
    case: Case,
    first: State,
    cut: Cutting,
    division: Division,
}

/// The last states of a flow and of its tracer, as far as they are written and reported.
#[derive(Drop)]
struct LastStates {
    state: State,
    amounts: Vec<i64>,
    total: i64,
}

/// Runs a case with a tracer in its flow, by the pattern that is asked for.
pub(crate) fn finish_with_tracer<A: Allocator + Copy, G: Gate, R: Threads + Sync>(
    rt: &R,
    alloc: Global,
    heap: A,
    case: Case,
    cut: Cutting,
    request: &TracerRun<'_>,
    gate: &G,
) -> Result<Traced, End>
    requires request { IsTracer (tracer_view request.now) }
    requires placed { is_spot case request.now.cell ≡ true }
    requires cutting { rows_of cut ≡ row_count case.torus }
    ensures { FinishesTraced (tracer_view request.now) case result }
{
    at_set!(
        case.set(),
        carry::<A, G, R>(rt, alloc, heap, case, cut, request, gate)
    )
}

// The same in a velocity set.
fn carry<V: VelocitySet + Sync, A: Allocator + Copy, G: Gate, R: Threads + Sync>(
    rt: &R,
    alloc: Global,
    heap: A,
    case: Case,
    cut: Cutting,
    request: &TracerRun<'_>,
    gate: &G,
) -> Result<Traced, End>
    requires set { case.stencil ≡ V.stencil }
    requires request { IsTracer (tracer_view request.now) }
    requires placed { is_spot case request.now.cell ≡ true }
    requires cutting { rows_of cut ≡ row_count case.torus }
    ensures { FinishesTraced (tracer_view request.now) case result }
{
    let tracer = start_tracer(alloc, heap, &case, request)?;
    let outset = Outset {
        first: first_state::<V>(alloc, &case)?,
        division: Division {
            per_tile: tile_rows(case.space(), request.choice.tile),
            workers: request.choice.workers,
        },
        case,
        cut,
    };
    carry_by::<V, A, G, R>(rt, alloc, heap, outset, tracer, request, gate)
}

// The tracer at first. It is advanced by one thread, so its cutting has one slab.
fn start_tracer<A: Allocator + Copy>(
    alloc: Global,
    heap: A,
    case: &Case,
    request: &TracerRun<'_>,
) -> Result<Tracer<A>, Memory>
    requires request { IsTracer (tracer_view request.now) }
    requires placed { is_spot case.now request.now.cell ≡ true }
    ensures { IfOk result (λ t. carried t ≡ tracer_at_first (tracer_view request.now) case.now) }
{
    let whole = Cutting::even(alloc, case.space(), 1)?;
    Tracer::start(
        alloc,
        heap,
        case,
        request.rates,
        request.amount,
        request.cell,
        whole,
    )
}

// The run by the pattern that is asked for.
fn carry_by<V: VelocitySet + Sync, A: Allocator + Copy, G: Gate, R: Threads + Sync>(
    rt: &R,
    alloc: Global,
    heap: A,
    outset: Outset,
    tracer: Tracer<A>,
    request: &TracerRun<'_>,
    gate: &G,
) -> Result<Traced, End>
    requires request { IsTracer (tracer_view request.now) }
    requires outset { IsOutset V.stencil outset }
    requires tracer { carried tracer ≡ tracer_at_first (tracer_view request.now) outset.case }
    ensures { FinishesTraced (tracer_view request.now) outset.case result }
{
    at_pattern!(
        request.choice.pattern,
        V,
        A,
        carry_in::<G, R>(rt, alloc, heap, outset, tracer, request, gate),
        carry_in_tiles::<V, A, G, R>(rt, alloc, outset, tracer, request, gate)
    )
}

// The same by one of the patterns over arrays.
fn carry_in<V: VelocitySet, A: Allocator + Copy, P: Propagation<V, A>, G: Gate, R: Threads + Sync>(
    rt: &R,
    alloc: Global,
    heap: A,
    outset: Outset,
    tracer: Tracer<A>,
    request: &TracerRun<'_>,
    gate: &G,
) -> Result<Traced, End>
where
    P::Work: Sync,
    requires request { IsTracer (tracer_view request.now) }
    requires outset { IsOutset V.stencil outset }
    requires tracer { carried tracer ≡ tracer_at_first (tracer_view request.now) outset.case }
    ensures { FinishesTraced (tracer_view request.now) outset.case result }
{
    let Outset {
        case,
        first,
        cut,
        division: _,
    } = outset;
    let mut lattice = ArrayLattice::<V, A, P>::start(heap, case, &first, 0, cut)?;
    let last = last_states(rt, alloc, &mut lattice, tracer, request, gate)?;
    // All of the lattice but its case is given back before the moments are made.
    let case = lattice.into_case();
    leave(rt, alloc, &case, request.steps, last)
}

// The same by tiles, whose rows stand on the heap of what allocates.
fn carry_in_tiles<V: VelocitySet + Sync, A: Allocator + Copy, G: Gate, R: Threads + Sync>(
    rt: &R,
    alloc: Global,
    outset: Outset,
    tracer: Tracer<A>,
    request: &TracerRun<'_>,
    gate: &G,
) -> Result<Traced, End>
    requires request { IsTracer (tracer_view request.now) }
    requires outset { IsOutset V.stencil outset }
    requires tracer { carried tracer ≡ tracer_at_first (tracer_view request.now) outset.case }
    ensures { FinishesTraced (tracer_view request.now) outset.case result }
{
    let Outset {
        case,
        first,
        cut: _,
        division,
    } = outset;
    let Division { per_tile, workers } = division;
    let mut lattice = Tiles::<V>::start(alloc, case, &first, 0, per_tile, workers)?;
    let last = last_states(rt, alloc, &mut lattice, tracer, request, gate)?;
    let case = lattice.into_case();
    leave(rt, alloc, &case, request.steps, last)
}

// The states at the last step, to which a lattice and a tracer step that stand for the first ones. The tracer is given back.
fn last_states<G: Gate, P: Pattern<G>, A: Allocator, R: Threads + Sync>(
    rt: &R,
    alloc: Global,
    lattice: &mut P,
    tracer: Tracer<A>,
    request: &TracerRun<'_>,
    gate: &G,
) -> Result<LastStates, End>
    requires request { IsTracer (tracer_view request.now) }
    requires flow { P.standing lattice.old ≡ flow_at_first (P.standing lattice.old).case }
    requires tracer { carried tracer ≡ tracer_at_first (tracer_view request.now) (P.standing lattice.old).case }
    ensures reaches { ReachesBoth (tracer_view request.now) (P.standing lattice.old).case result }
    ensures case { IfOk result (λ _. (P.standing lattice.new).case ≡ (P.standing lattice.old).case) }
{
    let mut tracer = tracer;
    run_tracer(rt, lattice, &mut tracer, u64::from(request.steps), gate)?;
    Ok(LastStates {
        state: state_of::<P>(alloc, lattice)?,
        amounts: amounts_of(alloc, lattice.case(), &tracer)?,
        total: tracer.total(),
    })
}

// The amount of each cell in order, and 0 for a solid one.
fn amounts_of<A: Allocator>(
    alloc: Global,
    case: &Case,
    tracer: &Tracer<A>,
) -> Result<Vec<i64>, Memory>
    requires not_spent { tracer.now.spent ≡ false }
    requires space { case.now.torus ≡ tracer.now.torus }
    ensures { IfOk result (λ amounts. amounts.items ≡ printed_amounts case.now (carried tracer.now).state) }
{
    let cells = case.space().cells();
    let mut amounts = Vec::with_capacity(alloc, cells as usize)?;
    for cell in 0..cells {
        amounts.push(amount_of(case, tracer, cell))?;
    }
    Ok(amounts)
}

// The amount of a cell, and 0 for a solid one.
fn amount_of<A: Allocator>(case: &Case, tracer: &Tracer<A>, cell: u32) -> i64
    requires not_spent { tracer.now.spent ≡ false }
    requires space { case.now.torus ≡ tracer.now.torus }
    requires cell { cell < cells case.now.torus }
    ensures { result ≡ printed_amount case.now (carried tracer.now).state cell }
{
    if case.is_solid(cell) {
        0
    } else {
        tracer.amount(cell)
    }
}

// What the last states of a case leave.
fn leave<R: Threads + Sync>(
    rt: &R,
    alloc: Global,
    case: &Case,
    steps: u32,
    last: LastStates,
) -> Result<Traced, End>
    requires state { IsStateOf case.now last.state }
    ensures { IsLeftOf case.now steps last result }
{
    let LastStates {
        state,
        amounts,
        total,
    } = last;
    let flow = conclude(rt, alloc, case, u64::from(steps), state)?;
    Ok(Traced {
        flow,
        amounts,
        total,
    })
}
