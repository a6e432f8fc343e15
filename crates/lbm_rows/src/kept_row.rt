//! A kept row.

ghost use Rattle.std.specs.Prelude.{◌≡◌, ℕ, ◌+◌, ◌*◌, ◌<◌, ◌≤◌, [], length, pos, take, slice_index_or};
ghost use Rattle.lbm_space.specs.Limits.{most_directions};
ghost use Rattle.lbm_space.specs.Torus.{rows as row_count};
ghost use Rattle.lbm_cell.specs.Rows.{entry};
ghost use Rattle.lbm_arrays.specs.Ranges.{over, with_run};
ghost use Rattle.lbm_rows.specs.TileRows.{with_pads, without_pads};

use crate::slots;
use lbm_space::Space;
use lbm_sweep::{eight_at, lanes_at};
use std::marker::Model;

/// The slots of one direction for a row of cells. Contracts see it as their list.
#[derive(Drop)]
pub struct KeptRow {
    slots: Vec<i64>,
}

impl Model for KeptRow {
    ghost use Rattle.std.specs.Prelude.{List, ℤ};

    ghost Value = { List ℤ };

    ghost view = { λ r. r.slots.items };
}

impl KeptRow {
    /// The row of these slots.
    pub fn new(slots: Vec<i64>) -> KeptRow
        ensures { result ≡ slots.items }
    {
        KeptRow { slots }
    }

    /// Its slots.
    pub fn slots(&self) -> &[i64]
        ensures { result.now ≡ self.now }
    {
        self.slots.as_slice()
    }

    /// The eight slots from slot `first` on.
    #[inline]
    pub(crate) fn load_block(&self, first: usize) -> [i64; 8]
        requires { first + 8 ≤ length self.now }
        ensures { (j : ℕ) → j < 8 → slice_index_or result j (pos 0) ≡ slice_index_or self.now (first + j) (pos 0) }
    {
        eight_at(self.slots.as_slice(), first)
    }

    /// Writes eight lanes to the slots from slot `first` on.
    #[inline]
    pub(crate) fn store_block(&mut self, first: usize, v: [i64; 8])
        requires { first + 8 ≤ length self.old }
        ensures { self.new ≡ over self.old first (take 8 v) }
    {
        slots::store_block(self.slots.as_mut_slice(), first, v);
    }

    /// The `n` slots, at most 8, from slot `first` on. The other lanes are 0.
    #[inline]
    pub(crate) fn load(&self, first: usize, n: u32) -> [i64; 8]
        requires few { n ≤ 8 }
        requires inside { first + n ≤ length self.now }
        ensures slots { (j : ℕ) → j < n → slice_index_or result j (pos 0) ≡ slice_index_or self.now (first + j) (pos 0) }
        ensures past { (j : ℕ) → n ≤ j → slice_index_or result j (pos 0) ≡ pos 0 }
    {
        lanes_at(self.slots.as_slice(), first, n)
    }

    /// Writes the first `n` lanes, 1 to 8, to the slots from slot `first` on.
    #[inline]
    pub(crate) fn store(&mut self, first: usize, n: u32, v: [i64; 8])
        requires some { 1 ≤ n }
        requires few { n ≤ 8 }
        requires inside { first + n ≤ length self.old }
        ensures { self.new ≡ over self.old first (take n v) }
    {
        slots::store(self.slots.as_mut_slice(), first, n, v);
    }

    /// Sets the two pads, for a row of `width` cells.
    pub(crate) fn load_pads(&mut self, width: usize)
        requires some { 1 ≤ width }
        requires long { length self.old ≡ width + 2 }
        ensures { self.new ≡ with_pads width self.old }
    {
        slots::load_pads(self.slots.as_mut_slice(), width);
    }

    /// Puts what stands in a pad where it belongs, for a row of `width` cells of which the first one has slot `start`: 0, 1
    /// or 2.
    pub(crate) fn store_pads(&mut self, width: usize, start: usize)
        requires some { 1 ≤ width }
        requires long { length self.old ≡ width + 2 }
        requires start { start ≤ 2 }
        ensures { self.new ≡ without_pads width start self.old }
    {
        slots::store_pads(self.slots.as_mut_slice(), width, start);
    }
}

/// The eight slots from slot `first` of a row on.
#[inline]
pub(crate) fn load_block_from(kept: &[KeptRow], row: usize, first: usize) -> [i64; 8]
    requires row { row < length kept.now }
    requires inside { first + 8 ≤ length (slice_index_or kept.now row []) }
    ensures { (j : ℕ) → j < 8 → slice_index_or result j (pos 0) ≡ entry kept.now row (first + j) }
{
    kept[row].load_block(first)
}

/// Writes eight lanes to the slots from slot `first` of a row on.
#[inline]
pub(crate) fn store_block_in(kept: &mut [KeptRow], row: usize, first: usize, v: [i64; 8])
    requires row { row < length kept.old }
    requires inside { first + 8 ≤ length (slice_index_or kept.old row []) }
    ensures { kept.new ≡ with_run kept.old row first (take 8 v) }
{
    let row = &mut kept[row];
    row.store_block(first, v);
}

/// The `n` slots, at most 8, from slot `first` of a row on. The other lanes are 0.
#[inline]
pub(crate) fn load_from(kept: &[KeptRow], row: usize, first: usize, n: u32) -> [i64; 8]
    requires row { row < length kept.now }
    requires few { n ≤ 8 }
    requires inside { first + n ≤ length (slice_index_or kept.now row []) }
    ensures slots { (j : ℕ) → j < n → slice_index_or result j (pos 0) ≡ entry kept.now row (first + j) }
    ensures past { (j : ℕ) → n ≤ j → slice_index_or result j (pos 0) ≡ pos 0 }
{
    kept[row].load(first, n)
}

/// Writes the first `n` lanes, 1 to 8, to the slots from slot `first` of a row on.
#[inline]
pub(crate) fn store_in(kept: &mut [KeptRow], row: usize, first: usize, n: u32, v: [i64; 8])
    requires row { row < length kept.old }
    requires some { 1 ≤ n }
    requires few { n ≤ 8 }
    requires inside { first + n ≤ length (slice_index_or kept.old row []) }
    ensures { kept.new ≡ with_run kept.old row first (take n v) }
{
    let row = &mut kept[row];
    row.store(first, n, v);
}

/// A slot of a row.
pub(crate) fn slot_in(kept: &[KeptRow], row: usize, slot: usize) -> i64
    requires row { row < length kept.now }
    requires inside { slot < length (slice_index_or kept.now row []) }
    ensures { result ≡ entry kept.now row slot }
{
    kept[row].slots()[slot]
}

/// The number of the kept row of array k for a row of cells, among all of them.
pub(crate) fn row_number(space: &Space, k: usize, row: u32) -> usize
    requires array { k < most_directions }
    requires row { row < row_count space.now }
    ensures { result ≡ k * row_count space.now + row }
{
    k * space.rows() as usize + row as usize
}
