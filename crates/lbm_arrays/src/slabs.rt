//! The fork over the slabs of a region.

ghost use Rattle.std.specs.Prelude.{◌≡◌, ℕ, ◌+◌, ◌-◌, ◌*◌, ◌<◌, ◌≤◌, ◌^◌, length, slice_index, pos, ℤ, ◌+ℤ◌, ◌≤ℤ◌, unsigned_abs, slice_index_or};
ghost use Rattle.arrayvec.specs.ArrayVec.{array_vec_len};
ghost use Rattle.lbm_space.specs.Limits.{most_directions};
ghost use Rattle.lbm_space.specs.Sum.{list_below};
ghost use Rattle.lbm_space.specs.Torus.{IsSpace, padded, rows as row_count};
ghost use Rattle.lbm_space.specs.Cuttings.{slabs_of, rows_of};
ghost use Rattle.lbm_arrays.specs.Arrays.{held, array_size};
ghost use Rattle.lbm_arrays.specs.LentRanges.{range_start, lent, slab_rows, AreInside, AreLent, IsLent, IsForked};

use crate::halves::{Plan, fork_slice};
use crate::{Lending, PieceWork};
use arrayvec::ArrayVec;
use lbm_cell::MAX_Q;
use lbm_model::Gate;
use lbm_space::{Cutting, Space};
use std::thread::Threads;

/// For each array of a region, how far the ranges that are lent of it are moved, counted from its first slot.
pub type Shifts = ArrayVec<i64, MAX_Q>;

// The slot at which the range of each array begins for the first row.
fn firsts_of(space: &Space, margin: u32, shifts: &Shifts) -> ArrayVec<usize, MAX_Q>
    requires margin { margin ≤ padded space.now }
    requires inside { AreInside space.now margin shifts.now.items }
    ensures valid { IsSpace space.now }
    ensures few { length shifts.now.items ≤ most_directions }
    ensures begins { result.items ≡ list_below (length shifts.now.items) (λ k. range_start space.now margin shifts.now.items k 0) }
{
    let size = margin as usize + space.padded() as usize;
    let start = space.row_start(0);
    let mut firsts: ArrayVec<usize, MAX_Q> = ArrayVec::new();
    for (k, shift) in shifts.as_slice().iter().enumerate() {
        firsts.push(k * size + moved(start, *shift));
    }
    firsts
}

// A place, moved by a shift.
fn moved(place: u32, shift: i64) -> usize
    requires low { pos 0 ≤ℤ (pos place +ℤ shift) }
    requires high { (pos place +ℤ shift) ≤ℤ pos (2 ^ 33) }
    ensures { result ≡ unsigned_abs (pos place +ℤ shift) }
{
    (i64::from(place) + shift) as usize
}

/// Lends each slab of the cutting its rows of every array, moved by the array's shift, calls the gate, and runs the work
/// once on each slab's loan: by halves, in threads of their own while there are few slabs.
///
/// The answer is the least answer of the pieces. Only slots in the slabs' ranges change.
pub fn fork<R: Threads + Sync, W: PieceWork, G: Gate>(
    rt: &R,
    slots: &mut [i64],
    lending: &Lending,
    cut: &Cutting,
    gate: &G,
    work: &W,
) -> Option<u32>
    requires margin { lending.now.margin ≤ padded lending.now.space }
    requires sized { length slots.old ≡ array_vec_len lending.now.shifts * array_size lending.now.space lending.now.margin }
    requires inside { AreInside lending.now.space lending.now.margin lending.now.shifts.items }
    requires cutting { rows_of cut.now ≡ row_count lending.now.space }
    requires ready { (k : ℕ) → k < slabs_of cut.now → W.ready work.now k (slab_rows cut.now k) (lent lending.now.space lending.now.margin lending.now.shifts.items (slab_rows cut.now k) slots.old) }
    ensures did { IsForked (W.does work.now) lending.now.space lending.now.margin lending.now.shifts.items cut.now slots.old slots.new result }
    ensures others { (s : ℕ) → ((k : ℕ) → k < length lending.now.shifts.items → IsLent lending.now.space lending.now.margin lending.now.shifts.items k 0 (row_count lending.now.space) s → ⊥) → held slots.new s ≡ held slots.old s }
    ensures ranges { AreLent lending.now.space lending.now.margin lending.now.shifts.items cut.now }
{
    let _slabs = cut.slabs();
    let plan = Plan {
        space: lending.space,
        firsts: firsts_of(&lending.space, lending.margin, &lending.shifts),
    };
    fork_slice(rt, slots, &plan, cut, gate, work)
}
