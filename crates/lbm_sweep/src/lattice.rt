//! States that stand in the slots of a region.

ghost use Rattle.std.specs.Prelude.{◌≡◌, ◌≢◌, ℕ, ◌+◌, ◌*◌, ◌<◌, take, IfOk, OnOk};
ghost use Rattle.lbm_space.specs.Torus.{cells};
ghost use Rattle.lbm_cell.specs.Moments.{populations};
ghost use Rattle.lbm_model.specs.State.{population};
ghost use Rattle.lbm_model.specs.Flow.{IsStateOf, is_sound, out_of_limits};
ghost use Rattle.lbm_model.specs.Layout.{population_in, state_in};
ghost use Rattle.lbm_model.specs.Small.{IsSmall};
ghost use Rattle.lbm_walk.specs.First.{IsFirst};
ghost use Rattle.lbm_sweep.specs.CellRows.{cell_at, IsRow, ArePlaced};
ghost use Rattle.lbm_sweep.specs.Lattices.{IsLaidOut};

use crate::cell_row::CellRow;
use lbm_arrays::Region;
use lbm_cell::Pops;
use lbm_model::cell::sound;
use lbm_model::{Case, Layout, State};
use lbm_space::{Memory, VelocitySet};
use std::alloc::{AllocError, Allocator, Global};

/// Puts the populations of a state in their slots.
pub fn place_state<V: VelocitySet, A: Allocator>(
    region: &mut Region<A>,
    case: &Case,
    layout: Layout,
    state: &State,
)
    requires set { case.now.stencil ≡ V.stencil }
    requires laid { IsLaidOut case.now layout region.old }
    requires state { IsStateOf case.now state.now }
    ensures placed { state_in case.now layout region.new.slots ≡ state.now }
    ensures same { region.new ≡ record region.old { slots = region.new.slots } }
{
    let _ = region.slots(); // Its type keeps the margin in range.
    for number in 0..case.space().rows() {
        let row = CellRow::of::<V>(case, layout, number);
        place_row::<V, A>(region, &row, state);
    }
}

// Puts the populations of a row in their slots, where those of the rows before it stand in theirs.
fn place_row<V: VelocitySet, A: Allocator>(region: &mut Region<A>, row: &CellRow<'_>, state: &State)
    requires row { IsRow V.stencil row.now }
    requires laid { IsLaidOut row.now.case.now row.now.layout region.old }
    requires state { IsStateOf row.now.case.now state.now }
    requires before { ArePlaced row.now.case.now row.now.layout state.now (cell_at row.now 0) region.old.slots }
    ensures placed { ArePlaced row.now.case.now row.now.layout state.now (cell_at row.now row.now.width) region.new.slots }
    ensures same { region.new ≡ record region.old { slots = region.new.slots } }
{
    for x in 0..row.width {
        place_cell::<V, A>(region, row, state, x);
    }
}

// Puts the populations of the cell at x of a row in their slots.
fn place_cell<V: VelocitySet, A: Allocator>(
    region: &mut Region<A>,
    row: &CellRow<'_>,
    state: &State,
    x: u32,
)
    requires row { IsRow V.stencil row.now }
    requires laid { IsLaidOut row.now.case.now row.now.layout region.old }
    requires state { IsStateOf row.now.case.now state.now }
    requires x { x < row.now.width }
    ensures placed { (i : ℕ) → i < V.stencil.directions → population_in row.now.case.now row.now.layout region.new.slots (cell_at row.now x) i ≡ population state.now (cell_at row.now x) i }
    ensures others { (y i : ℕ) → y < cells row.now.case.now.torus → i < V.stencil.directions → y ≢ cell_at row.now x → population_in row.now.case.now row.now.layout region.new.slots y i ≡ population_in row.now.case.now row.now.layout region.old.slots y i }
    ensures same { region.new ≡ record region.old { slots = region.new.slots } }
{
    let _ = region.slots(); // Its type keeps the margin in range.
    let first = row.cell::<V>(x) as usize * V::Q;
    for i in 0..V::Q {
        let (array, at) = row.slot::<V>(x, i);
        region.put(array, at, i64::from(state.pops()[first + i]));
    }
}

/// Population `dir` of the cell.
pub fn population_at<V: VelocitySet, A: Allocator>(
    region: &Region<A>,
    case: &Case,
    layout: Layout,
    cell: u32,
    dir: u32,
) -> i64
    requires set { case.now.stencil ≡ V.stencil }
    requires laid { IsLaidOut case.now layout region.now }
    requires cell { cell < cells case.now.torus }
    requires direction { dir < V.stencil.directions }
    ensures slot { result ≡ population_in case.now layout region.now.slots cell dir }
{
    let _ = region.slots(); // Its type keeps the margin in range.
    let (array, at) = layout.slot::<V>(case, cell, dir);
    region.get(array, at)
}

// Population `dir` of the cell at x of a row.
#[inline(always)]
fn population_in_row<V: VelocitySet, A: Allocator>(
    region: &Region<A>,
    row: &CellRow<'_>,
    x: u32,
    dir: usize,
) -> i64
    requires row { IsRow V.stencil row.now }
    requires laid { IsLaidOut row.now.case.now row.now.layout region.now }
    requires x { x < row.now.width }
    requires direction { dir < V.stencil.directions }
    ensures slot { result ≡ population_in row.now.case.now row.now.layout region.now.slots (cell_at row.now x) dir }
{
    let _ = region.slots(); // Its type keeps the margin in range.
    let (array, at) = row.slot::<V>(x, dir);
    region.get(array, at)
}

/// The least cell out of limits of the state that stands in the slots.
pub fn least_out_of_limits<V: VelocitySet, A: Allocator>(
    region: &Region<A>,
    case: &Case,
    layout: Layout,
) -> Option<u32>
    requires set { case.now.stencil ≡ V.stencil }
    requires laid { IsLaidOut case.now layout region.now }
    requires small { IsSmall case.now (state_in case.now layout region.now.slots) }
    ensures { result ≡ out_of_limits case.now (state_in case.now layout region.now.slots) }
{
    let _ = region.slots(); // Its type keeps the margin in range.
    for number in 0..case.space().rows() {
        let row = CellRow::of::<V>(case, layout, number);
        let answer = least_in_row::<V, A>(region, &row);
        if answer.is_some() {
            return answer;
        }
    }
    None
}

// The least cell out of limits of a row.
fn least_in_row<V: VelocitySet, A: Allocator>(region: &Region<A>, row: &CellRow<'_>) -> Option<u32>
    requires row { IsRow V.stencil row.now }
    requires laid { IsLaidOut row.now.case.now row.now.layout region.now }
    requires small { IsSmall row.now.case.now (state_in row.now.case.now row.now.layout region.now.slots) }
    ensures { IsFirst (λ y. is_sound row.now.case.now y (population (state_in row.now.case.now row.now.layout region.now.slots) y)) (cell_at row.now 0) (cell_at row.now row.now.width) result }
{
    for x in 0..row.width {
        let cell = row.cell::<V>(x);
        let f = populations_at::<V, A>(region, row, x);
        if !sound::<V>(row.case, cell, &f) {
            return Some(cell);
        }
    }
    None
}

// The populations of the cell at x of a row.
fn populations_at<V: VelocitySet, A: Allocator>(
    region: &Region<A>,
    row: &CellRow<'_>,
    x: u32,
) -> Pops
    requires row { IsRow V.stencil row.now }
    requires laid { IsLaidOut row.now.case.now row.now.layout region.now }
    requires x { x < row.now.width }
    ensures { (i : ℕ) → i < V.stencil.directions → populations result.f i ≡ population_in row.now.case.now row.now.layout region.now.slots (cell_at row.now x) i }
{
    let mut f = Pops::zero();
    for i in 0..V::Q {
        f.f[i] = population_in_row::<V, A>(region, row, x, i);
    }
    f
}

/// The state that stands in the slots. Want of memory is the only refusal.
pub fn read_state<V: VelocitySet, A: Allocator>(
    alloc: Global,
    region: &Region<A>,
    case: &Case,
    layout: Layout,
) -> Result<State, Memory>
    requires set { case.now.stencil ≡ V.stencil }
    requires laid { IsLaidOut case.now layout region.now }
    requires small { IsSmall case.now (state_in case.now layout region.now.slots) }
    ensures { IfOk result (λ state. state ≡ state_in case.now layout region.now.slots) }
{
    let _ = region.slots(); // Its type keeps the margin in range.
    let count = case.space().cells() as usize * V::Q;
    let mut pops = Vec::with_capacity(alloc, count)?;
    for number in 0..case.space().rows() {
        let row = CellRow::of::<V>(case, layout, number);
        read_row::<V, A>(&mut pops, region, &row)?;
    }
    Ok(State::new(V::Q as u32, pops))
}

// Adds the populations of a row to those of the rows before it.
fn read_row<V: VelocitySet, A: Allocator>(
    pops: &mut Vec<i32>,
    region: &Region<A>,
    row: &CellRow<'_>,
) -> Result<(), AllocError>
    requires row { IsRow V.stencil row.now }
    requires laid { IsLaidOut row.now.case.now row.now.layout region.now }
    requires small { IsSmall row.now.case.now (state_in row.now.case.now row.now.layout region.now.slots) }
    requires before { pops.old.items ≡ take (cell_at row.now 0 * V.stencil.directions) (state_in row.now.case.now row.now.layout region.now.slots).numbers }
    ensures { OnOk result (pops.new.items ≡ take (cell_at row.now row.now.width * V.stencil.directions) (state_in row.now.case.now row.now.layout region.now.slots).numbers) }
{
    for x in 0..row.width {
        read_cell::<V, A>(pops, region, row, x)?;
    }
    Ok(())
}

// Adds the populations of the cell at x of a row to those of the cells before it.
fn read_cell<V: VelocitySet, A: Allocator>(
    pops: &mut Vec<i32>,
    region: &Region<A>,
    row: &CellRow<'_>,
    x: u32,
) -> Result<(), AllocError>
    requires row { IsRow V.stencil row.now }
    requires laid { IsLaidOut row.now.case.now row.now.layout region.now }
    requires small { IsSmall row.now.case.now (state_in row.now.case.now row.now.layout region.now.slots) }
    requires x { x < row.now.width }
    requires before { pops.old.items ≡ take (cell_at row.now x * V.stencil.directions) (state_in row.now.case.now row.now.layout region.now.slots).numbers }
    ensures { OnOk result (pops.new.items ≡ take (cell_at row.now (x + 1) * V.stencil.directions) (state_in row.now.case.now row.now.layout region.now.slots).numbers) }
{
    for i in 0..V::Q {
        pops.push(population_in_row::<V, A>(region, row, x, i) as i32)?;
    }
    Ok(())
}
