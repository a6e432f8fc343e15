//! What one slab is lent.

ghost use Rattle.std.specs.Prelude.{◌≡◌, ℕ, ◌+◌, ◌<◌, ◌≤◌, false, IsTrue, List, [], length, slice_index, slice_index_or, pos, take};
ghost use Rattle.lbm_arrays.specs.Ranges.{over};

use lbm_patch::Patch;
use std::marker::Model;

/// One range of each array of a region, lent to the worker of a slab of rows.
pub struct Loan<'a> {
    pub(crate) patch: Patch<i64>,
    // where the range of each array begins for the first slab
    pub(crate) firsts: &'a [usize],
    // how far behind that this slab's ranges begin and end
    pub(crate) lo: usize,
    pub(crate) hi: usize,
    pub(crate) rows: (u32, u32),
}

impl<'a> Model for Loan<'a> {
    ghost use Rattle.std.specs.Prelude.{◌≡◌, ◌≤◌, ◌^◌, ◌<◌};
    ghost use Rattle.lbm_arrays.specs.Lent.{Lent};

    ghost Value = { Lent };

    ghost use Rattle.lbm_patch.specs.Masks.{mask};
    ghost use Rattle.lbm_arrays.specs.Ranges.{ranges, IsApart};

    ghost view = { λ l. record { rows = l.rows; place = record { start = l.patch.ptr; count = l.patch.len; firsts = l.firsts.now; lo = l.lo; hi = l.hi }; ranges = ranges l.firsts.now l.lo l.hi l.patch.items } };

    ghost invariant = { λ l. (l.patch.mine ≡ mask l.firsts.now l.lo l.hi l.patch.len) × (l.lo ≤ l.hi) × IsApart l.firsts.now l.hi l.patch.len };
}

impl Loan<'_> {
    ghost use Rattle.lbm_arrays.specs.Lent.{first_slot, IsRun};
    ghost use Rattle.lbm_arrays.specs.Ranges.{with_run};

    /// The first row of the slab, and the row past its end.
    pub fn rows(&self) -> (u32, u32)
        ensures { result ≡ self.now.rows }
    {
        self.rows
    }

    /// The slot at which the range of array `dir` begins.
    #[inline(always)]
    pub fn first_slot(&self, dir: u32) -> usize
        requires { dir < length self.now.ranges }
        ensures { result ≡ first_slot self.now.place dir }
    {
        self.firsts[dir as usize] + self.lo
    }

    /// The eight slots from place `at` of the range that begins at slot `first`.
    #[inline(always)]
    pub fn load_block(&self, first: usize, at: u32) -> [i64; 8]
        requires { (k : ℕ) × IsRun self.now first k at 8 }
        ensures { (k j : ℕ) → IsRun self.now first k at 8 → j < 8 → slice_index_or result j (pos 0) ≡ slice_index_or (slice_index_or self.now.ranges k []) (at + j) (pos 0) }
    {
        read_block(&self.patch, first + at as usize)
    }

    /// Writes eight lanes to the range that begins at slot `first`, from place `at` on.
    #[inline(always)]
    pub fn store_block(&mut self, first: usize, at: u32, v: [i64; 8])
        requires { (k : ℕ) × IsRun self.old first k at 8 }
        ensures ranges { (k : ℕ) → IsRun self.old first k at 8 → self.new.ranges ≡ with_run self.old.ranges k at (take 8 v) }
        ensures rows { self.new.rows ≡ self.old.rows }
        ensures place { self.new.place ≡ self.old.place }
    {
        write_block(&mut self.patch, first + at as usize, v);
    }

    /// The `n` slots, 1 to 8, from place `at` of the range that begins at slot `first`. The other lanes are 0.
    #[inline(always)]
    pub fn load_at(&self, first: usize, at: u32, n: u32) -> [i64; 8]
        requires some { 1 ≤ n }
        requires few { n ≤ 8 }
        requires run { (k : ℕ) × IsRun self.now first k at n }
        ensures slots { (k j : ℕ) → IsRun self.now first k at n → j < n → slice_index_or result j (pos 0) ≡ slice_index_or (slice_index_or self.now.ranges k []) (at + j) (pos 0) }
        ensures others { (j : ℕ) → n ≤ j → slice_index_or result j (pos 0) ≡ pos 0 }
    {
        if n == 8 {
            return self.load_block(first, at);
        }
        read_run(&self.patch, first + at as usize, n as usize)
    }

    /// Writes the first `n` lanes, 1 to 8, to the range that begins at slot `first`, from place `at` on.
    #[inline(always)]
    pub fn store_at(&mut self, first: usize, at: u32, n: u32, v: [i64; 8])
        requires some { 1 ≤ n }
        requires few { n ≤ 8 }
        requires run { (k : ℕ) × IsRun self.old first k at n }
        ensures ranges { (k : ℕ) → IsRun self.old first k at n → self.new.ranges ≡ with_run self.old.ranges k at (take n v) }
        ensures rows { self.new.rows ≡ self.old.rows }
        ensures place { self.new.place ≡ self.old.place }
    {
        if n == 8 {
            self.store_block(first, at, v);
        } else {
            write_run(&mut self.patch, first + at as usize, n as usize, v);
        }
    }

    /// The `n` slots, 1 to 8, from place `at` of the range of array `dir`. The other lanes are 0.
    pub fn load8(&self, dir: u32, at: u32, n: u32) -> [i64; 8]
        requires dir { dir < length self.now.ranges }
        requires at { at + n ≤ length (slice_index_or self.now.ranges dir []) }
        requires some { 1 ≤ n }
        requires few { n ≤ 8 }
        ensures slots { (j : ℕ) → j < n → slice_index_or result j (pos 0) ≡ slice_index_or (slice_index_or self.now.ranges dir []) (at + j) (pos 0) }
        ensures others { (j : ℕ) → n ≤ j → slice_index_or result j (pos 0) ≡ pos 0 }
    {
        self.load_at(self.first_slot(dir), at, n)
    }

    /// Writes the first `n` lanes, 1 to 8, to the range of array `dir`, from place `at` on.
    pub fn store8(&mut self, dir: u32, at: u32, n: u32, v: [i64; 8])
        requires dir { dir < length self.old.ranges }
        requires at { at + n ≤ length (slice_index_or self.old.ranges dir []) }
        requires some { 1 ≤ n }
        requires few { n ≤ 8 }
        ensures ranges { self.new.ranges ≡ with_run self.old.ranges dir at (take n v) }
        ensures rows { self.new.rows ≡ self.old.rows }
        ensures place { self.new.place ≡ self.old.place }
    {
        let first = self.first_slot(dir);
        self.store_at(first, at, n, v);
    }
}

// The eight slots from `first` on.
#[inline(always)]
fn read_block(patch: &Patch<i64>, first: usize) -> [i64; 8]
    requires { (j : ℕ) → j < 8 → (first + j < patch.now.len) × IsTrue (slice_index_or patch.now.mine (first + j) false) }
    ensures { (j : ℕ) → j < 8 → slice_index_or result j (pos 0) ≡ slice_index_or patch.now.items (first + j) (pos 0) }
{
    [
        *patch.get(first),
        *patch.get(first + 1),
        *patch.get(first + 2),
        *patch.get(first + 3),
        *patch.get(first + 4),
        *patch.get(first + 5),
        *patch.get(first + 6),
        *patch.get(first + 7),
    ]
}

// The n slots from `first` on, and zeros.
fn read_run(patch: &Patch<i64>, first: usize, n: usize) -> [i64; 8]
    requires few { n ≤ 8 }
    requires known { (j : ℕ) → j < n → (first + j < patch.now.len) × IsTrue (slice_index_or patch.now.mine (first + j) false) }
    ensures slots { (j : ℕ) → j < n → slice_index_or result j (pos 0) ≡ slice_index_or patch.now.items (first + j) (pos 0) }
    ensures others { (j : ℕ) → n ≤ j → slice_index_or result j (pos 0) ≡ pos 0 }
{
    let mut lanes = [0; 8];
    for j in 0..n {
        lanes[j] = *patch.get(first + j);
    }
    lanes
}

// Writes the eight slots from `first` on.
#[inline(always)]
fn write_block(patch: &mut Patch<i64>, first: usize, v: [i64; 8])
    requires { (j : ℕ) → j < 8 → (first + j < patch.old.len) × IsTrue (slice_index_or patch.old.mine (first + j) false) }
    ensures items { patch.new.items ≡ over patch.old.items first (take 8 v) }
    ensures mine { patch.new.mine ≡ patch.old.mine }
    ensures places { (patch.new.ptr ≡ patch.old.ptr) × (patch.new.len ≡ patch.old.len) }
{
    patch.put_four(first, v[0], v[1], v[2], v[3]);
    patch.put_four(first + 4, v[4], v[5], v[6], v[7]);
}

// Writes the n slots from `first` on.
fn write_run(patch: &mut Patch<i64>, first: usize, n: usize, v: [i64; 8])
    requires some { 1 ≤ n }
    requires few { n ≤ 8 }
    requires known { (j : ℕ) → j < n → (first + j < patch.old.len) × IsTrue (slice_index_or patch.old.mine (first + j) false) }
    ensures items { patch.new.items ≡ over patch.old.items first (take n v) }
    ensures mine { patch.new.mine ≡ patch.old.mine }
    ensures places { (patch.new.ptr ≡ patch.old.ptr) × (patch.new.len ≡ patch.old.len) }
{
    for j in 0..n {
        patch.put(first + j, v[j]);
    }
}
