//! A state that is read from kept rows, row by row.

ghost use Rattle.std.specs.Prelude.{◌≡◌, ◌+◌, ◌*◌, ◌<◌, ◌≤◌, ℕ, IfOk, OnOk, length, pos, slice_index, slice_index_or, take};
ghost use Rattle.lbm_space.specs.Torus.{rows as row_count};
ghost use Rattle.lbm_model.specs.Case.{IsCase};
ghost use Rattle.lbm_model.specs.Layout.{array_of, aa_layout};
ghost use Rattle.lbm_model.specs.Small.{IsSmall};
ghost use Rattle.lbm_rows.specs.Kept.{AreKept, population_kept, state_kept};
ghost use Rattle.lbm_rows.specs.Lending.{lent_number};
ghost use Rattle.lbm_rows.specs.CellRows.{cell_at, IsRow};
ghost use Rattle.lbm_rows.specs.TileRows.{around, AreWays};

use crate::KeptRow;
use crate::kept_row::slot_in;
use crate::lending::lent_number;
use crate::ways::Ways;
use lbm_cell::MAX_Q;
use lbm_model::{Case, State};
use lbm_space::{Memory, VelocitySet};
use lbm_sweep::Slots;
use std::alloc::{AllocError, Global};

/// A row of cells at a time. The populations of each direction stand in a kept row, of which `numbers` has the number and
/// `starts` the slot for the first cell.
#[derive(Drop)]
pub struct CellRow<'a> {
    case: &'a Case,
    time: u64,
    number: u32,
    width: u32,
    numbers: Slots,
    starts: Slots,
}

impl<'a> CellRow<'a> {
    // A row by its number. The ways are those of a tile of one row in a step from the time.
    fn of<V: VelocitySet>(case: &'a Case, time: u64, ways: &Ways, number: u32) -> CellRow<'a>
        requires set { case.now.stencil ≡ V.stencil }
        requires valid { IsCase case.now }
        requires ways { AreWays V.stencil time 1 ways.now }
        requires known { number < row_count case.now.torus }
        ensures row { IsRow V.stencil result }
        ensures case { result.case.now ≡ case.now }
        ensures time { result.time ≡ time }
        ensures number { result.number ≡ number }
    {
        CellRow {
            case,
            time,
            number,
            width: case.space().sides()[0],
            numbers: numbers_of::<V>(case, time, ways, number),
            starts: ways.from,
        }
    }

    // Population `dir` of the cell at x.
    #[inline(always)]
    fn population<V: VelocitySet>(&self, kept: &[KeptRow], x: u32, dir: usize) -> i64
        requires row { IsRow V.stencil self.now }
        requires kept { AreKept self.now.case.now kept.now }
        requires x { x < self.now.width }
        requires direction { dir < V.stencil.directions }
        ensures { result ≡ population_kept self.now.case.now self.now.time kept.now (cell_at self.now x) dir }
    {
        let slot = slot_of(self.width as usize, self.starts[dir], x as usize);
        slot_in(kept, self.numbers[dir], slot)
    }
}

// For each direction the number of the kept row in which the populations of a row of cells stand.
fn numbers_of<V: VelocitySet>(case: &Case, time: u64, ways: &Ways, row: u32) -> Slots
    requires set { case.now.stencil ≡ V.stencil }
    requires valid { IsCase case.now }
    requires ways { AreWays V.stencil time 1 ways.now }
    requires row { row < row_count case.now.torus }
    ensures { (i : ℕ) → i < V.stencil.directions → slice_index result i ≡ lent_number case.now time (array_of V.stencil (aa_layout time) i) row }
{
    let mut numbers = [0; MAX_Q];
    for i in 0..V::Q {
        numbers[i] = lent_number::<V>(case, time, ways.takes[i], row);
    }
    numbers
}

// The slot of the cell at x in a kept row, which is a ring, where the first cell's slot is number `start`.
#[inline(always)]
fn slot_of(width: usize, start: usize, x: usize) -> usize
    requires start { start ≤ 2 }
    requires x { x < width }
    requires few { width ≤ 4096 }
    ensures { result ≡ around width start x }
{
    let slot = start + x;
    if slot == 0 {
        return width;
    }
    if slot > width { 1 } else { slot }
}

/// The state that stands in kept rows at time `t`. Want of memory is the only refusal.
pub(crate) fn read_state<V: VelocitySet>(
    alloc: Global,
    kept: &[KeptRow],
    case: &Case,
    t: u64,
) -> Result<State, Memory>
    requires set { case.now.stencil ≡ V.stencil }
    requires valid { IsCase case.now }
    requires kept { AreKept case.now kept.now }
    requires small { IsSmall case.now (state_kept case.now t kept.now) }
    ensures { IfOk result (λ state. state ≡ state_kept case.now t kept.now) }
{
    let count = case.space().cells() as usize * V::Q;
    let mut pops = Vec::with_capacity(alloc, count)?;
    let ways = Ways::at::<V>(t, 1);
    for number in 0..case.space().rows() {
        let row = CellRow::of::<V>(case, t, &ways, number);
        read_row::<V>(&mut pops, kept, &row)?;
    }
    Ok(State::new(V::Q as u32, pops))
}

// Adds the populations of a row to those of the rows before it.
fn read_row<V: VelocitySet>(
    pops: &mut Vec<i32>,
    kept: &[KeptRow],
    row: &CellRow<'_>,
) -> Result<(), AllocError>
    requires row { IsRow V.stencil row.now }
    requires kept { AreKept row.now.case.now kept.now }
    requires small { IsSmall row.now.case.now (state_kept row.now.case.now row.now.time kept.now) }
    requires before { pops.old.items ≡ take (cell_at row.now 0 * V.stencil.directions) (state_kept row.now.case.now row.now.time kept.now).numbers }
    ensures { OnOk result (pops.new.items ≡ take (cell_at row.now row.now.width * V.stencil.directions) (state_kept row.now.case.now row.now.time kept.now).numbers) }
{
    for x in 0..row.width {
        read_cell::<V>(pops, kept, row, x)?;
    }
    Ok(())
}

// Adds the populations of the cell at x of a row to those of the cells before it.
fn read_cell<V: VelocitySet>(
    pops: &mut Vec<i32>,
    kept: &[KeptRow],
    row: &CellRow<'_>,
    x: u32,
) -> Result<(), AllocError>
    requires row { IsRow V.stencil row.now }
    requires kept { AreKept row.now.case.now kept.now }
    requires small { IsSmall row.now.case.now (state_kept row.now.case.now row.now.time kept.now) }
    requires x { x < row.now.width }
    requires before { pops.old.items ≡ take (cell_at row.now x * V.stencil.directions) (state_kept row.now.case.now row.now.time kept.now).numbers }
    ensures { OnOk result (pops.new.items ≡ take (cell_at row.now (x + 1) * V.stencil.directions) (state_kept row.now.case.now row.now.time kept.now).numbers) }
{
    for i in 0..V::Q {
        pops.push(row.population::<V>(kept, x, i) as i32)?;
    }
    Ok(())
}

/// Population `dir` of each cell of a row, of the state that stands in kept rows at time `t`.
pub(crate) fn read_direction<V: VelocitySet>(
    kept: &[KeptRow],
    case: &Case,
    t: u64,
    row: u32,
    dir: usize,
    pops: &mut [i64],
)
    requires set { case.now.stencil ≡ V.stencil }
    requires valid { IsCase case.now }
    requires kept { AreKept case.now kept.now }
    requires row { row < row_count case.now.torus }
    requires direction { dir < V.stencil.directions }
    requires room { length pops.old ≡ case.now.torus.nx }
    ensures room { length pops.new ≡ case.now.torus.nx }
    ensures value { (x : ℕ) → x < case.now.torus.nx → slice_index_or pops.new x (pos 0) ≡ population_kept case.now t kept.now (row * case.now.torus.nx + x) dir }
{
    let cells = CellRow::of::<V>(case, t, &Ways::at::<V>(t, 1), row);
    for x in 0..cells.width {
        pops[x as usize] = cells.population::<V>(kept, x, dir);
    }
}
