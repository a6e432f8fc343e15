//! The amounts of a tracer in the slots of a region, laid out as those of the pattern `aa`.

ghost use Rattle.std.specs.Prelude.{◌≡◌, ◌≢◌, ◌<◌, ◌≤◌, ◌+◌, ◌%◌, ℕ, pos, IsTrue, length, slice_index_or};
ghost use Rattle.lbm_space.specs.Torus.{cells, padded, rows};
ghost use Rattle.lbm_cell.specs.Moments.{populations};
ghost use Rattle.lbm_model.specs.Layout.{aa_layout, array_of, place_of};
ghost use Rattle.lbm_tracer.specs.Tracing.{set_in, tracer_source};
ghost use Rattle.lbm_tracer.specs.Carried.{IsTracerRegion, amount_in, places_of};
ghost use Rattle.lbm_tracer.specs.Rows.{cell_at, IsAlong, IsTracerRow, HoldsNothing};

use crate::TracerSet;
use crate::collision::Amounts;
use crate::constants::MAX_DIRECTIONS;
use lbm_arrays::Region;
use lbm_lattice::{BASE, OWN};
use lbm_space::{D2Q9, D3Q19, Space};
use std::alloc::Allocator;

// The cell from which direction `k` leads to a cell.
fn source(space: &Space, cell: u32, k: usize) -> u32
    requires cell { cell < cells space.now }
    requires direction { k < (set_in space.now).directions }
    ensures value { result ≡ tracer_source space.now cell k }
    ensures known { result < cells space.now }
{
    match TracerSet::of(space) {
        TracerSet::D2Q5 => space.back::<D2Q9>(cell, k),
        TracerSet::D3Q7 => space.back::<D3Q19>(cell, k),
    }
}

// The array of direction `k` at a time, and where its amounts stand along a row: from the second number on round after each other,
// the first of them so many places farther as the third number says.
fn round(space: &Space, time: u64, row: u32, k: usize) -> (u32, u32, u32)
    requires row { row < rows space.now }
    requires direction { k < (set_in space.now).directions }
    ensures { IsAlong space.now time row k result.0 result.1 result.2 }
{
    if time % 2 == 0 {
        (k as u32, BASE + space.row_start(row) + 1, 0)
    } else {
        let width = space.sides()[0];
        let behind = source(space, row * width, k);
        let array = TracerSet::of(space).opposite(k) as u32;
        (
            array,
            BASE + space.row_start(behind / width) + 1,
            behind % width,
        )
    }
}

/// A row of cells, and the arrays and places in which their amounts stand at a time.
#[derive(Clone, Copy)]
pub(crate) struct TracerRow {
    pub(crate) space: Space,
    pub(crate) set: TracerSet,
    pub(crate) time: u64,
    pub(crate) number: u32,
    pub(crate) width: u32,
    arrays: [u32; MAX_DIRECTIONS],
    firsts: [u32; MAX_DIRECTIONS],
    aheads: [u32; MAX_DIRECTIONS],
}

impl TracerRow {
    /// A row by its number.
    pub(crate) fn of(space: &Space, time: u64, number: u32) -> TracerRow
        requires { number < rows space.now }
        ensures row { IsTracerRow result }
        ensures space { result.space ≡ space.now }
        ensures time { result.time ≡ time }
        ensures number { result.number ≡ number }
    {
        let set = TracerSet::of(space);
        let mut arrays = [0; MAX_DIRECTIONS];
        let mut firsts = [0; MAX_DIRECTIONS];
        let mut aheads = [0; MAX_DIRECTIONS];
        for k in 0..set.q() {
            let (array, first, ahead) = round(space, time, number, k);
            arrays[k] = array;
            firsts[k] = first;
            aheads[k] = ahead;
        }
        TracerRow {
            space: *space,
            set,
            time,
            number,
            width: space.sides()[0],
            arrays,
            firsts,
            aheads,
        }
    }

    /// The number of the cell at x.
    #[inline(always)]
    pub(crate) fn cell(&self, x: u32) -> u32
        requires row { IsTracerRow self.now }
        requires x { x < self.now.width }
        ensures cell { result ≡ cell_at self.now x }
        ensures known { result < cells self.now.space }
    {
        self.number * self.width + x
    }

    // The array in which amount `k` of the cell at x stands, and its slot there.
    #[inline(always)]
    fn slot(&self, x: u32, k: usize) -> (u32, u32)
        requires row { IsTracerRow self.now }
        requires x { x < self.now.width }
        requires direction { k < (set_in self.now.space).directions }
        ensures array { result.0 ≡ array_of (set_in self.now.space) (aa_layout self.now.time) k }
        ensures place { result.1 ≡ place_of (places_of self.now.space) (aa_layout self.now.time) (cell_at self.now x) k }
        ensures known { result.0 < (set_in self.now.space).directions }
        ensures inside { result.1 < 2 + padded self.now.space }
    {
        let place = self.firsts[k] + turned(x, self.aheads[k], self.width);
        (self.arrays[k], place)
    }
}

// The place that lies `ahead` places behind place x, where the last of `width` places is followed by the first.
#[inline(always)]
fn turned(x: u32, ahead: u32, width: u32) -> u32
    requires x { x < width }
    requires ahead { ahead < width }
    requires few { width ≤ 4096 }
    ensures value { result ≡ (x + ahead) % width }
    ensures known { result < width }
{
    let place = x + ahead;
    if place < width { place } else { place - width }
}

/// The amounts of the cell at x of a row.
#[inline(always)]
pub(crate) fn amounts_in_row<A: Allocator>(
    region: &Region<A>,
    row: &TracerRow,
    set: TracerSet,
    x: u32,
) -> Amounts
    requires row { IsTracerRow row.now }
    requires set { set ≡ row.now.set }
    requires laid { IsTracerRegion row.now.space region.now }
    requires x { x < row.now.width }
    ensures { (k : ℕ) → k < (set_in row.now.space).directions → populations result k ≡ amount_in row.now.space row.now.time region.now.slots (cell_at row.now x) k }
{
    let _ = region.slots(); // Its type keeps the number of slots.
    let mut amounts = [0; MAX_DIRECTIONS];
    for k in 0..set.q() {
        let (array, at) = row.slot(x, k);
        amounts[k] = region.get(array, at);
    }
    amounts
}

/// Puts the amounts of the cell at x of a row in their slots.
#[inline(always)]
pub(crate) fn put_in_row<A: Allocator>(
    region: &mut Region<A>,
    row: &TracerRow,
    set: TracerSet,
    x: u32,
    amounts: &Amounts,
)
    requires row { IsTracerRow row.now }
    requires set { set ≡ row.now.set }
    requires laid { IsTracerRegion row.now.space region.old }
    requires x { x < row.now.width }
    ensures here { (k : ℕ) → k < (set_in row.now.space).directions → amount_in row.now.space row.now.time region.new.slots (cell_at row.now x) k ≡ populations amounts.now k }
    ensures others { (y k : ℕ) → y < cells row.now.space → k < (set_in row.now.space).directions → y ≢ cell_at row.now x → amount_in row.now.space row.now.time region.new.slots y k ≡ amount_in row.now.space row.now.time region.old.slots y k }
    ensures same { region.new ≡ record region.old { slots = region.new.slots } }
{
    let _ = region.slots(); // Its type keeps the number of slots.
    for k in 0..set.q() {
        let (array, at) = row.slot(x, k);
        region.put(array, at, amounts[k]);
    }
}

// Whether each number of a run is 0. All are read, wherever the first other one stands: so the compiler takes several at once.
fn are_zeros(run: &[i64]) -> bool
    ensures { IsTrue result → (x : ℕ) → x < length run.now → slice_index_or run.now x (pos 0) ≡ pos 0 }
{
    let mut any = 0u64;
    for x in 0..run.len() {
        any |= run[x].cast_unsigned();
    }
    any == 0
}

// Whether a row holds nothing for direction `k`. Its amounts stand round after each other, and so in one run.
fn is_without<A: Allocator>(region: &Region<A>, row: &TracerRow, k: usize) -> bool
    requires row { IsTracerRow row.now }
    requires laid { IsTracerRegion row.now.space region.now }
    requires direction { k < (set_in row.now.space).directions }
    ensures { IsTrue result → (x : ℕ) → x < row.now.width → amount_in row.now.space row.now.time region.now.slots (cell_at row.now x) k ≡ pos 0 }
{
    let slots = region.slots();
    let size = OWN.margin as usize + row.space.padded() as usize;
    let first = row.arrays[k] as usize * size + row.firsts[k] as usize;
    are_zeros(&slots[first..first + row.width as usize])
}

/// Whether a row holds nothing: each amount of its cells is 0.
pub(crate) fn is_row_empty<A: Allocator>(region: &Region<A>, row: &TracerRow) -> bool
    requires row { IsTracerRow row.now }
    requires laid { IsTracerRegion row.now.space region.now }
    ensures { IsTrue result → HoldsNothing row.now region.now.slots }
{
    for k in 0..row.set.q() {
        if !is_without(region, row, k) {
            return false;
        }
    }
    true
}

/// The amounts of a cell at a time.
pub fn amounts_at<A: Allocator>(region: &Region<A>, space: &Space, time: u64, cell: u32) -> Amounts
    requires laid { IsTracerRegion space.now region.now }
    requires cell { cell < cells space.now }
    ensures { (k : ℕ) → k < (set_in space.now).directions → populations result k ≡ amount_in space.now time region.now.slots cell k }
{
    let width = space.sides()[0];
    let row = TracerRow::of(space, time, cell / width);
    amounts_in_row(region, &row, row.set, cell % width)
}

/// Puts the amounts of a cell at a time in their slots.
pub fn put_amounts<A: Allocator>(
    region: &mut Region<A>,
    space: &Space,
    time: u64,
    cell: u32,
    amounts: &Amounts,
)
    requires laid { IsTracerRegion space.now region.old }
    requires cell { cell < cells space.now }
    ensures here { (k : ℕ) → k < (set_in space.now).directions → amount_in space.now time region.new.slots cell k ≡ populations amounts.now k }
    ensures others { (y k : ℕ) → y < cells space.now → k < (set_in space.now).directions → y ≢ cell → amount_in space.now time region.new.slots y k ≡ amount_in space.now time region.old.slots y k }
    ensures same { region.new ≡ record region.old { slots = region.new.slots } }
{
    let width = space.sides()[0];
    let row = TracerRow::of(space, time, cell / width);
    put_in_row(region, &row, row.set, cell % width, amounts);
}
