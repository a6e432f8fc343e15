//! The collision of the cells of a row of a tile.

ghost use Rattle.std.specs.Prelude.{◌≡◌, ℕ, ℤ, ◌+◌, ◌<◌, ◌≤◌, ◌^◌, [], None, slice_index, slice_index_or};
ghost use Rattle.lbm_cell.specs.Rows.{entry};
ghost use Rattle.lbm_walk.specs.First.{IsFirst};
ghost use Rattle.lbm_rows.specs.TileRows.{takes, puts, around, with_pads, without_pads, HasRow, IsAlike, IsExchange};

use crate::KeptRow;
use crate::tile_row::TileRow;
use crate::ways::Ways;
use lbm_space::VelocitySet;
use lbm_walk::{Kernel, collide_row};
use std::marker::PhantomData;

/// The `width` cells from `cell` on, which are a row of the tile that has these kept rows, collide. The answer is the first
/// of them that is out of limits.
pub(crate) fn collide_in_row<V: VelocitySet, K: Kernel<V>>(
    kernel: &K,
    kept: &mut [KeptRow],
    ways: &Ways,
    row: usize,
    cell: u32,
    width: u32,
) -> Option<u32>
    requires some { 1 ≤ width }
    requires known { cell + width ≤ K.cells kernel.now }
    requires fits { cell + width < 2 ^ 32 }
    requires few { width + 2 < 2 ^ 32 }
    requires row { HasRow V.stencil ways.now row width kept.old }
    requires exchange { IsExchange V.stencil ways.now }
    requires small { (i x : ℕ) → i < V.stencil.directions → x < width → K.small kernel.now (cell + x) (entry kept.old (takes ways.now row i) (around width (slice_index ways.now.from i) x)) }
    ensures first { (f : ℕ → ℕ → ℤ) → ((i x : ℕ) → i < V.stencil.directions → x < width → entry kept.old (takes ways.now row i) (around width (slice_index ways.now.from i) x) ≡ f (cell + x) i) → IsFirst (λ x. K.sound kernel.now x (f x)) cell (cell + width) result }
    ensures sent { (f : ℕ → ℕ → ℤ) → ((i x : ℕ) → i < V.stencil.directions → x < width → entry kept.old (takes ways.now row i) (around width (slice_index ways.now.from i) x) ≡ f (cell + x) i) → result ≡ None → (i x : ℕ) → i < V.stencil.directions → x < width → entry kept.new (puts ways.now row i) (around width (slice_index ways.now.to i) x) ≡ K.post kernel.now (cell + x) (f (cell + x)) i }
    ensures alike { IsAlike V.stencil ways.now row kept.old kept.new }
{
    load_pads::<V>(kept, ways, row, width);
    let answer = walk_row(kernel, kept, ways, row, cell, width);
    if answer.is_none() {
        store_pads::<V>(kept, ways, row, width);
    }
    answer
}

// The same, where the pads are set: the cells then have their slots side by side.
fn walk_row<V: VelocitySet, K: Kernel<V>>(
    kernel: &K,
    kept: &mut [KeptRow],
    ways: &Ways,
    row: usize,
    cell: u32,
    width: u32,
) -> Option<u32>
    requires some { 1 ≤ width }
    requires known { cell + width ≤ K.cells kernel.now }
    requires fits { cell + width < 2 ^ 32 }
    requires few { width + 2 < 2 ^ 32 }
    requires row { HasRow V.stencil ways.now row width kept.old }
    requires exchange { IsExchange V.stencil ways.now }
    requires small { (i x : ℕ) → i < V.stencil.directions → x < width → K.small kernel.now (cell + x) (entry kept.old (takes ways.now row i) (slice_index ways.now.from i + x)) }
    ensures first { (f : ℕ → ℕ → ℤ) → ((i x : ℕ) → i < V.stencil.directions → x < width → entry kept.old (takes ways.now row i) (slice_index ways.now.from i + x) ≡ f (cell + x) i) → IsFirst (λ x. K.sound kernel.now x (f x)) cell (cell + width) result }
    ensures sent { (f : ℕ → ℕ → ℤ) → ((i x : ℕ) → i < V.stencil.directions → x < width → entry kept.old (takes ways.now row i) (slice_index ways.now.from i + x) ≡ f (cell + x) i) → result ≡ None → (i x : ℕ) → i < V.stencil.directions → x < width → entry kept.new (puts ways.now row i) (slice_index ways.now.to i + x) ≡ K.post kernel.now (cell + x) (f (cell + x)) i }
    ensures alike { IsAlike V.stencil ways.now row kept.old kept.new }
{
    let mut walk = TileRow::<V> {
        set: PhantomData,
        kept,
        ways,
        row,
        width,
        at: 1,
        n: 1,
    };
    collide_row::<V, K, TileRow<'_, '_, V>>(kernel, &mut walk, cell, 1, width)
}

// Sets the pads of the kept rows of a row.
fn load_pads<V: VelocitySet>(kept: &mut [KeptRow], ways: &Ways, row: usize, width: u32)
    requires some { 1 ≤ width }
    requires row { HasRow V.stencil ways.now row width kept.old }
    requires exchange { IsExchange V.stencil ways.now }
    ensures loaded { (i : ℕ) → i < V.stencil.directions → slice_index_or kept.new (takes ways.now row i) [] ≡ with_pads width (slice_index_or kept.old (takes ways.now row i) []) }
    ensures alike { IsAlike V.stencil ways.now row kept.old kept.new }
{
    for i in 0..V::Q {
        let kept_row = &mut kept[ways.takes[i] + row];
        kept_row.load_pads(width as usize);
    }
}

// Puts what stands in the pads of the kept rows of a row where it belongs.
fn store_pads<V: VelocitySet>(kept: &mut [KeptRow], ways: &Ways, row: usize, width: u32)
    requires some { 1 ≤ width }
    requires row { HasRow V.stencil ways.now row width kept.old }
    requires exchange { IsExchange V.stencil ways.now }
    ensures stored { (i : ℕ) → i < V.stencil.directions → slice_index_or kept.new (takes ways.now row i) [] ≡ without_pads width (slice_index ways.now.from i) (slice_index_or kept.old (takes ways.now row i) []) }
    ensures alike { IsAlike V.stencil ways.now row kept.old kept.new }
{
    for i in 0..V::Q {
        let kept_row = &mut kept[ways.takes[i] + row];
        kept_row.store_pads(width as usize, ways.from[i]);
    }
}
