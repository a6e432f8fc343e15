// The moments that are printed, and their sums.
ghost use Rattle.std.specs.Prelude.{◌≡◌, ◌+◌, ◌<◌, ◌≤◌, ◌*◌, ◌^◌, ℕ, ℤ, IfOk, length, pos, FitsSigned, All, unsigned_abs, ◌∷◌, []};
ghost use Rattle.std.specs.Int.{w32};
ghost use Rattle.lbm_space.specs.Torus.{cells};
ghost use Rattle.lbm_cell.specs.Moments.{populations};
ghost use Rattle.lbm_model.specs.State.{mass, population, flow_state};
ghost use Rattle.lbm_model.specs.Flow.{IsStateOf};
ghost use Rattle.lbm_answer.specs.Reports.{printed_moment, printed_moments, IsSmallMoment};

use lbm_cell::{Moment, Pops, moment};
use lbm_model::{Case, State, at_set};
use lbm_space::{Memory, VelocitySet};
use rayon::prelude::*;
use std::alloc::{AllocError, Global};
use std::marker::Sync;
use std::thread::Threads;

/// One moment per cell in order, in lattice units; a solid cell's are zeros. The state is one of the case. The cells are
/// divided among as many threads as there are processors.
pub fn moments<R: Threads + Sync>(
    rt: &R,
    alloc: Global,
    case: &Case,
    state: &State,
) -> Result<Vec<Moment>, Memory>
    requires { IsStateOf case.now state.now }
    ensures moments { IfOk result (λ moments. moments.items ≡ printed_moments case.now state.now) }
    ensures small { IfOk result (λ moments. All IsSmallMoment moments.items) }
{
    Ok(moments_at(rt, alloc, case, state)?)
}

fn moments_at<R: Threads + Sync>(
    rt: &R,
    alloc: Global,
    case: &Case,
    state: &State,
) -> Result<Vec<Moment>, AllocError>
    requires { IsStateOf case.now state.now }
    ensures moments { IfOk result (λ moments. moments.items ≡ printed_moments case.now state.now) }
    ensures small { IfOk result (λ moments. All IsSmallMoment moments.items) }
{
    at_set!(case.set(), moments_by::<R>(rt, alloc, case, state.pops()))
}

fn moments_by<V: VelocitySet + Sync, R: Threads + Sync>(
    rt: &R,
    alloc: Global,
    case: &Case,
    pops: &[i32],
) -> Result<Vec<Moment>, AllocError>
    requires set { case.now.stencil ≡ V.stencil }
    requires state { IsStateOf case.now (flow_state V.stencil.directions pops.now) }
    ensures moments { IfOk result (λ moments. moments.items ≡ printed_moments case.now (flow_state V.stencil.directions pops.now)) }
    ensures small { IfOk result (λ moments. All IsSmallMoment moments.items) }
{
    (0..case.space().cells())
        .into_par_iter()
        .map(
            |cell: u32| -> Moment
                requires set { case.now.stencil ≡ V.stencil }
                requires state { IsStateOf case.now (flow_state V.stencil.directions pops.now) }
                requires cell { cell < cells case.now.torus }
                ensures value { result ≡ printed_moment case.entry.now (flow_state V.stencil.directions pops.entry.now) cell }
                ensures small { IsSmallMoment result }
            { printed_moment::<V>(case, pops, cell) },
        )
        .collect(rt, alloc)
}

fn printed_moment<V: VelocitySet>(case: &Case, pops: &[i32], cell: u32) -> Moment
    requires set { case.now.stencil ≡ V.stencil }
    requires state { IsStateOf case.now (flow_state V.stencil.directions pops.now) }
    requires cell { cell < cells case.now.torus }
    ensures value { result ≡ printed_moment case.now (flow_state V.stencil.directions pops.now) cell }
    ensures small { IsSmallMoment result }
{
    if case.is_solid(cell) {
        return Moment {
            rho: 0,
            jx: 0,
            jy: 0,
            jz: 0,
        };
    }
    moment::<V>(&populations_of::<V>(pops, cell))
}

/// The populations of a cell.
pub(crate) fn populations_of<V: VelocitySet>(pops: &[i32], cell: u32) -> Pops
    requires { (cell + 1) * V.stencil.directions ≤ length pops.now }
    ensures known { (i : ℕ) → i < V.stencil.directions → populations result.f i ≡ population (flow_state V.stencil.directions pops.now) cell i }
    ensures zeros { (i : ℕ) → V.stencil.directions ≤ i → populations result.f i ≡ pos 0 }
    ensures fits { (i : ℕ) → FitsSigned w32 (populations result.f i) }
{
    let first = cell as usize * V::Q;
    let mut f = Pops::zero();
    for i in 0..V::Q {
        f.f[i] = i64::from(pops[first + i]);
    }
    f
}
