//! States that stand in kept rows.

ghost use Rattle.std.specs.Prelude.{◌≡◌, ◌+◌, ◌*◌, ◌/◌, ◌<◌, ◌≤◌, ℕ, IfOk, pos, length, slice_index_or};
ghost use Rattle.lbm_space.specs.Torus.{cells, rows as row_count, x_of};
ghost use Rattle.lbm_cell.specs.Moments.{populations};
ghost use Rattle.lbm_model.specs.State.{population};
ghost use Rattle.lbm_model.specs.Case.{IsCase};
ghost use Rattle.lbm_model.specs.Flow.{IsStateOf, out_of_limits};
ghost use Rattle.lbm_model.specs.Layout.{array_of, stands_at, aa_layout};
ghost use Rattle.lbm_model.specs.Small.{IsSmall};
ghost use Rattle.lbm_rows.specs.Kept.{AreKept, placed, population_kept, state_kept};

use crate::KeptRow;
use crate::kept_row::{row_number, slot_in};
use lbm_cell::Pops;
use lbm_model::cell::sound;
use lbm_model::{Case, State};
use lbm_space::{Memory, VelocitySet};
use std::alloc::Global;

// The array in which population `dir` of the cell stands at time `t`, and the cell at whose place. In the slot of that cell in
// that array stands, the other way round, what the same gives of the two.
fn place_of<V: VelocitySet>(case: &Case, t: u64, cell: u32, dir: usize) -> (usize, u32)
    requires set { case.now.stencil ≡ V.stencil }
    requires valid { IsCase case.now }
    requires cell { cell < cells case.now.torus }
    requires direction { dir < V.stencil.directions }
    ensures array { result.0 ≡ array_of case.now.stencil (aa_layout t) dir }
    ensures place { result.1 ≡ stands_at case.now (aa_layout t) cell dir }
    ensures known { (result.0 < V.stencil.directions) × (result.1 < cells case.now.torus) }
{
    if t % 2 == 0 {
        return (dir, cell);
    }
    (V::opp(dir), case.space().back::<V>(cell, dir))
}

// The number that is to stand in the slot of a cell in array k, where a state stands at time `t`.
fn number_at<V: VelocitySet>(case: &Case, state: &State, t: u64, k: usize, cell: u32) -> i64
    requires set { case.now.stencil ≡ V.stencil }
    requires valid { IsCase case.now }
    requires state { IsStateOf case.now state.now }
    requires array { k < V.stencil.directions }
    requires cell { cell < cells case.now.torus }
    ensures { result ≡ placed case.now t state.now k cell }
{
    let (i, at) = place_of::<V>(case, t, cell, k);
    let first = at as usize * V::Q;
    i64::from(state.pops()[first + i])
}

// A kept row of array k, in which a state stands at time `t`.
fn make_row<V: VelocitySet>(
    alloc: Global,
    case: &Case,
    state: &State,
    t: u64,
    k: usize,
    row: u32,
) -> Result<KeptRow, Memory>
    requires set { case.now.stencil ≡ V.stencil }
    requires valid { IsCase case.now }
    requires state { IsStateOf case.now state.now }
    requires array { k < V.stencil.directions }
    requires row { row < row_count case.now.torus }
    ensures long { IfOk result (λ r. length r ≡ case.now.torus.nx + 2) }
    ensures slots { IfOk result (λ r. (x : ℕ) → x < case.now.torus.nx → slice_index_or r (1 + x) (pos 0) ≡ placed case.now t state.now k (row * case.now.torus.nx + x)) }
{
    let width = case.space().sides()[0];
    let mut slots = Vec::with_capacity(alloc, width as usize + 2)?;
    slots.push_reserved(0);
    for x in 0..width {
        slots.push_reserved(number_at::<V>(case, state, t, k, row * width + x));
    }
    slots.push_reserved(0);
    Ok(KeptRow::new(slots))
}

/// The kept rows in which a state stands at time `t`, array after array: eight bytes a slot. Want of memory is the only
/// refusal.
pub fn make_rows<V: VelocitySet>(
    alloc: Global,
    case: &Case,
    state: &State,
    t: u64,
) -> Result<Vec<KeptRow>, Memory>
    requires set { case.now.stencil ≡ V.stencil }
    requires valid { IsCase case.now }
    requires state { IsStateOf case.now state.now }
    ensures sized { IfOk result (λ kept. AreKept case.now kept.items) }
    ensures placed { IfOk result (λ kept. state_kept case.now t kept.items ≡ state.now) }
{
    let rows = case.space().rows() as usize;
    let all = V::Q * rows;
    let mut kept = Vec::with_capacity(alloc, all)?;
    for j in 0..all {
        kept.push_reserved(make_row::<V>(alloc, case, state, t, j / rows, (j % rows) as u32)?);
    }
    Ok(kept)
}

/// Population `dir` of the cell, at time `t`.
pub(crate) fn population_at<V: VelocitySet>(
    kept: &[KeptRow],
    case: &Case,
    t: u64,
    cell: u32,
    dir: usize,
) -> i64
    requires set { case.now.stencil ≡ V.stencil }
    requires valid { IsCase case.now }
    requires kept { AreKept case.now kept.now }
    requires cell { cell < cells case.now.torus }
    requires direction { dir < V.stencil.directions }
    ensures { result ≡ population_kept case.now t kept.now cell dir }
{
    let (k, at) = place_of::<V>(case, t, cell, dir);
    let space = case.space();
    let width = space.sides()[0];
    let row = row_number(space, k, at / width);
    slot_in(kept, row, (1 + at % width) as usize)
}

// The populations of a cell.
fn populations_at<V: VelocitySet>(kept: &[KeptRow], case: &Case, t: u64, cell: u32) -> Pops
    requires set { case.now.stencil ≡ V.stencil }
    requires valid { IsCase case.now }
    requires kept { AreKept case.now kept.now }
    requires cell { cell < cells case.now.torus }
    ensures { (i : ℕ) → i < V.stencil.directions → populations result.f i ≡ population_kept case.now t kept.now cell i }
{
    let mut f = Pops::zero();
    for i in 0..V::Q {
        f.f[i] = population_at::<V>(kept, case, t, cell, i);
    }
    f
}

/// The least cell out of limits of the state that stands in kept rows at time `t`.
pub(crate) fn least_out_of_limits<V: VelocitySet>(
    kept: &[KeptRow],
    case: &Case,
    t: u64,
) -> Option<u32>
    requires set { case.now.stencil ≡ V.stencil }
    requires kept { AreKept case.now kept.now }
    requires small { IsSmall case.now (state_kept case.now t kept.now) }
    ensures { result ≡ out_of_limits case.now (state_kept case.now t kept.now) }
{
    for cell in 0..case.space().cells() {
        if !sound::<V>(case, cell, &populations_at::<V>(kept, case, t, cell)) {
            return Some(cell);
        }
    }
    None
}
