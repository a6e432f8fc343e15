// The run of a case by a pattern, and what its last state leaves.
ghost use Rattle.std.specs.Prelude.{◌≡◌, ◌≤◌, None, IfOk};
ghost use Rattle.lbm_space.specs.Torus.{rows as row_count};
ghost use Rattle.lbm_space.specs.Cuttings.{rows_of};
ghost use Rattle.lbm_model.specs.Limits.{most_steps};
ghost use Rattle.lbm_rows.specs.Tiles.{IsDivision};
ghost use Rattle.lbm_answer.specs.Jobs.{CanBegin, Finishes, beginning_view};
ghost use Rattle.lbm_flow.specs.Running.{beginning_of, Reaches};

use crate::End;
use crate::pattern::at_pattern;
use crate::run::run_pattern;
use lbm_aa::AaSteps;
use lbm_answer::{Beginning, Left, conclude, state_of};
use lbm_grid::GridSweeps;
use lbm_lattice::{ArrayLattice, Pattern, Propagation};
use lbm_model::{Case, Gate, State, at_set};
use lbm_rows::{Division, Tiles};
use lbm_space::{Cutting, VelocitySet};
use lbm_swap::SwapPasses;
use lbm_two::TwoLattices;
use lbm_words::PatternKind;
use std::alloc::{Allocator, Global};
use std::marker::Sync;
use std::thread::Threads;

/// What is run: a case from where it begins to the last step, over the slabs of a cutting, or over tiles.
#[derive(Drop)]
pub(crate) struct Course {
    pub(crate) case: Case,
    pub(crate) begin: Beginning,
    pub(crate) cut: Cutting,
    pub(crate) division: Division,
    pub(crate) steps: u32,
}

/// Runs a case by the pattern that is asked for.
pub(crate) fn finish<A: Allocator + Copy, G: Gate, R: Threads + Sync>(
    rt: &R,
    alloc: Global,
    heap: A,
    course: Course,
    pattern: PatternKind,
    gate: &G,
) -> Result<Left, End>
    requires few { course.steps ≤ most_steps }
    requires begin { CanBegin course.case course.steps (beginning_view course.begin) }
    requires cutting { rows_of course.cut ≡ row_count course.case.torus }
    requires division { IsDivision (row_count course.case.torus) course.division.per_tile course.division.workers }
    ensures { Finishes course.case course.steps (beginning_view course.begin) result }
{
    at_set!(
        course.case.set(),
        finish_by::<A, G, R>(rt, alloc, heap, course, pattern, gate)
    )
}

// The same in a velocity set.
fn finish_by<V: VelocitySet + Sync, A: Allocator + Copy, G: Gate, R: Threads + Sync>(
    rt: &R,
    alloc: Global,
    heap: A,
    course: Course,
    pattern: PatternKind,
    gate: &G,
) -> Result<Left, End>
    requires set { course.case.stencil ≡ V.stencil }
    requires few { course.steps ≤ most_steps }
    requires begin { CanBegin course.case course.steps (beginning_view course.begin) }
    requires cutting { rows_of course.cut ≡ row_count course.case.torus }
    requires division { IsDivision (row_count course.case.torus) course.division.per_tile course.division.workers }
    ensures { Finishes course.case course.steps (beginning_view course.begin) result }
{
    at_pattern!(
        pattern,
        V,
        A,
        finish_in::<G, R>(rt, alloc, heap, course, gate),
        finish_in_tiles::<V, G, R>(rt, alloc, course, gate)
    )
}

// The same by one of the patterns over arrays.
fn finish_in<V: VelocitySet, A: Allocator + Copy, P: Propagation<V, A>, G: Gate, R: Threads + Sync>(
    rt: &R,
    alloc: Global,
    heap: A,
    course: Course,
    gate: &G,
) -> Result<Left, End>
where
    P::Work: Sync,
    requires set { course.case.stencil ≡ V.stencil }
    requires few { course.steps ≤ most_steps }
    requires begin { CanBegin course.case course.steps (beginning_view course.begin) }
    requires cutting { rows_of course.cut ≡ row_count course.case.torus }
    ensures { Finishes course.case course.steps (beginning_view course.begin) result }
{
    let Course {
        case,
        begin,
        cut,
        division: _,
        steps,
    } = course;
    let Beginning { state, time } = begin;
    let mut lattice = ArrayLattice::<V, A, P>::start(heap, case, &state, time, cut)?;
    let last = last_state(rt, alloc, &mut lattice, steps, gate)?;
    // All of the lattice but its case is given back before the moments are made.
    let case = lattice.into_case();
    Ok(conclude(rt, alloc, &case, u64::from(steps), last)?)
}

// The same by tiles, whose rows stand on the heap of what allocates.
fn finish_in_tiles<V: VelocitySet + Sync, G: Gate, R: Threads + Sync>(
    rt: &R,
    alloc: Global,
    course: Course,
    gate: &G,
) -> Result<Left, End>
    requires set { course.case.stencil ≡ V.stencil }
    requires few { course.steps ≤ most_steps }
    requires begin { CanBegin course.case course.steps (beginning_view course.begin) }
    requires division { IsDivision (row_count course.case.torus) course.division.per_tile course.division.workers }
    ensures { Finishes course.case course.steps (beginning_view course.begin) result }
{
    let Course {
        case,
        begin,
        cut: _,
        division,
        steps,
    } = course;
    let Beginning { state, time } = begin;
    let Division { per_tile, workers } = division;
    let mut lattice = Tiles::<V>::start(alloc, case, &state, time, per_tile, workers)?;
    let last = last_state(rt, alloc, &mut lattice, steps, gate)?;
    let case = lattice.into_case();
    Ok(conclude(rt, alloc, &case, u64::from(steps), last)?)
}

// The state at the last step, to which a lattice steps that stands for where a run begins.
fn last_state<G: Gate, P: Pattern<G>, R: Threads + Sync>(
    rt: &R,
    alloc: Global,
    lattice: &mut P,
    steps: u32,
    gate: &G,
) -> Result<State, End>
    requires few { steps ≤ most_steps }
    requires unspent { (P.standing lattice.old).spent ≡ None }
    requires begin { CanBegin (P.standing lattice.old).case steps (beginning_of (P.standing lattice.old)) }
    ensures reaches { Reaches (P.standing lattice.old).case steps (beginning_of (P.standing lattice.old)) result }
    ensures case { IfOk result (λ _. (P.standing lattice.new).case ≡ (P.standing lattice.old).case) }
{
    run_pattern(rt, lattice, u64::from(steps), gate)?;
    Ok(state_of::<P>(alloc, lattice)?)
}
