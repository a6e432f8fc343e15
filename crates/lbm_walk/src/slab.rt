//! The walk of a kernel over the rows of a slab.

ghost use Rattle.std.specs.Prelude.{◌≡◌, ◌+◌, ◌-◌, ◌*◌, ◌<◌, ◌≤◌, ℕ, ℤ};
ghost use Rattle.lbm_space.specs.Torus.{IsSpace, cells, rows as row_count};
ghost use Rattle.lbm_space.specs.Padded.{row_start};
ghost use Rattle.lbm_walk.specs.First.{IsFirst};
ghost use Rattle.lbm_walk.specs.Places.{InRows, IsRow, local};
ghost use Rattle.lbm_walk.specs.Walked.{IsWalked};

use crate::row::{collide_row, first_in_row, next_from};
use crate::{Kernel, Walk};
use lbm_space::{Space, VelocitySet};

/// The cells of all rows of a slab, in the order of the walk. What a walk takes and puts is said of places in the slab's
/// ranges. The answer is the first cell out of limits.
#[inline(always)]
pub fn collide_slab<V: VelocitySet, K: Kernel<V>, W: Walk<V>>(
    kernel: &K,
    walk: &mut W,
    space: &Space,
    rows: (u32, u32),
) -> Option<u32>
    requires space { IsSpace space.now }
    requires cells { K.cells kernel.now ≡ cells space.now }
    requires some { rows.0 < rows.1 }
    requires inside { rows.1 ≤ row_count space.now }
    requires places { W.places walk.old ≡ row_start space.now rows.1 - row_start space.now rows.0 }
    requires small { (i x : ℕ) → i < V.stencil.directions → InRows space.now rows x → K.small kernel.now x (W.before walk.old i (local space.now rows x)) }
    ensures done { (f : ℕ → ℕ → ℤ) → ((i x : ℕ) → i < V.stencil.directions → InRows space.now rows x → W.before walk.old i (local space.now rows x) ≡ f x i) → IsWalked (K.sound kernel.now) (K.post kernel.now) V.stencil.directions (local space.now rows) (rows.0 * space.now.nx) (rows.1 * space.now.nx) f (W.after walk.new) result }
    ensures others { (k p : ℕ) → ((x : ℕ) → InRows space.now rows x → local space.now rows x ≡ p → ⊥) → W.holds walk.new k p ≡ W.holds walk.old k p }
    ensures same { W.same walk.old walk.new }
{
    let count = rows.1 - rows.0;
    for done in 0..count {
        let number = rows.0 + next_from::<V, W>(count, done, 1);
        let row = slab_row(space, rows, number);
        if let Some(cell) = collide_row(kernel, walk, row.cell, row.at, row.width) {
            if W::rises() {
                return Some(cell);
            }
            return first_in_rows(kernel, walk, space, (rows.0, number)).or(Some(cell));
        }
    }
    None
}

// The first cell of these rows that is out of limits. Nothing is put.
#[cold]
fn first_in_rows<V: VelocitySet, K: Kernel<V>, W: Walk<V>>(
    kernel: &K,
    walk: &mut W,
    space: &Space,
    rows: (u32, u32),
) -> Option<u32>
    requires space { IsSpace space.now }
    requires cells { K.cells kernel.now ≡ cells space.now }
    requires order { rows.0 ≤ rows.1 }
    requires inside { rows.1 ≤ row_count space.now }
    requires places { row_start space.now rows.1 - row_start space.now rows.0 ≤ W.places walk.old }
    requires small { (i x : ℕ) → i < V.stencil.directions → InRows space.now rows x → K.small kernel.now x (W.before walk.old i (local space.now rows x)) }
    ensures first { (f : ℕ → ℕ → ℤ) → ((i x : ℕ) → i < V.stencil.directions → InRows space.now rows x → W.before walk.old i (local space.now rows x) ≡ f x i) → IsFirst (λ x. K.sound kernel.now x (f x)) (rows.0 * space.now.nx) (rows.1 * space.now.nx) result }
    ensures holds { (k p : ℕ) → W.holds walk.new k p ≡ W.holds walk.old k p }
    ensures same { W.same walk.old walk.new }
{
    for number in rows.0..rows.1 {
        let row = slab_row(space, rows, number);
        if let Some(cell) = first_in_row(kernel, walk, row.cell, row.at, row.width) {
            return Some(cell);
        }
    }
    None
}

// The cells of a row of a slab: the first of them, its place in the slab's ranges, and how many they are.
#[derive(Drop)]
struct SlabRow {
    cell: u32,
    at: u32,
    width: u32,
}

// The cells of the row of this number.
fn slab_row(space: &Space, rows: (u32, u32), number: u32) -> SlabRow
    requires low { rows.0 ≤ number }
    requires high { number < rows.1 }
    requires inside { rows.1 ≤ row_count space.now }
    ensures { IsRow space.now rows number result.cell result.at result.width }
{
    let width = space.sides()[0];
    SlabRow {
        cell: number * width,
        at: space.row_start(number) + 1 - space.row_start(rows.0),
        width,
    }
}
