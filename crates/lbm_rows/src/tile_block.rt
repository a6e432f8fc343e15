//! Eight neighbouring cells of a row of a tile.

ghost use Rattle.std.specs.Prelude.{◌≡◌, ◌+◌, ◌<◌, ◌≤◌, ℕ, ℤ, None, Some, slice_index, refl};
ghost use Rattle.std.proofs.Common.{◌∙◌};
ghost use Rattle.lbm_rows.specs.declared.ways.Ways.{Ways as WaysOf};
ghost use Rattle.lbm_walk.specs.First.{IsFirst};
ghost use Rattle.lbm_walk.specs.Walked.{AreTaken};
ghost use Rattle.lbm_rows.specs.TileRows.{takes, puts, stands, AreCells, HasRow, IsExchange, IsSameBut};
ghost use Rattle.lbm_rows.specs.Laws.{same_but, same_run_on};

use crate::KeptRow;
use crate::kept_row::{load_block_from, store_block_in};
use crate::ways::Ways;
use lbm_space::VelocitySet;
use lbm_walk::{Kernel, Rows};
use std::marker::PhantomData;

// Eight cells of a row of a tile, from place `at` on. As they are eight, what they take and put has no test.
#[derive(Drop)]
struct TileBlock<'k, 'w, V: VelocitySet> {
    set: PhantomData<V>,
    kept: &'k mut [KeptRow],
    ways: &'w Ways,
    row: usize,
    width: u32,
    at: u32,
    ghost cells: { AreCells width at 8 },
    ghost has_row: { HasRow V.stencil ways.now row width kept.now },
    ghost exchange: { IsExchange V.stencil ways.now },
}

impl<V: VelocitySet> Rows<V> for TileBlock<'_, '_, V> {
    ghost count = { λ w. 8 };

    ghost there = { λ w i j. stands w.kept.now (takes w.ways.now w.row i) (slice_index w.ways.now.from i) (w.at + j) };

    ghost sent = { λ w i j. stands w.kept.now (puts w.ways.now w.row i) (slice_index w.ways.now.to i) (w.at + j) };

    ghost kept = { λ a b. (b.kept.ghost_name ≡ a.kept.ghost_name) × (b.ways.now ≡ a.ways.now) × (b.row ≡ a.row) × (b.at ≡ a.at) × IsSameBut V.stencil a.ways.now a.row a.at (a.at + 8) a.kept.now b.kept.now };

    #[inline(always)]
    fn count(&self) -> u32 {
        8
    }

    #[inline(always)]
    fn take(&self, dir: usize) -> [i64; 8] {
        let first = self.ways.from[dir] + (self.at - 1) as usize;
        load_block_from(self.kept, self.ways.takes[dir] + self.row, first)
    }

    #[inline(always)]
    fn sent(&self, dir: usize) -> [i64; 8] {
        let first = self.ways.to[dir] + (self.at - 1) as usize;
        load_block_from(self.kept, self.ways.puts[dir] + self.row, first)
    }

    #[inline(always)]
    fn put(&mut self, dir: usize, lanes: [i64; 8]) {
        let row = self.ways.puts[dir] + self.row;
        let first = self.ways.to[dir] + (self.at - 1) as usize;
        store_block_in(self.kept, row, first, lanes);
    }

    ghost kept_same = { λ r. (refl, refl, refl, refl, same_but V.stencil r.ways.now r.row r.at (r.at + 8) r.kept.now) };

    ghost kept_on = { λ a b c x y. (y.0 ∙ x.0, y.1 ∙ x.1, y.2 ∙ x.2, y.3 ∙ x.3, same_run_on V.stencil a.ways.now b.ways.now a.row b.row a.at 8 b.at 8 a.kept.now b.kept.now c.kept.now x.1 x.2 x.3 refl x.4 y.4) };
}

/// What a kernel makes of the eight cells from place `at` of a row on.
#[inline(always)]
pub(crate) fn collide_block<V: VelocitySet, K: Kernel<V>>(
    kernel: &K,
    cell: u32,
    kept: &mut [KeptRow],
    ways: &Ways,
    row: usize,
    width: u32,
    at: u32,
) -> Option<u32>
    requires cells { AreCells width at 8 }
    requires row { HasRow V.stencil ways.now row width kept.old }
    requires exchange { IsExchange V.stencil ways.now }
    requires known { cell + 8 ≤ K.cells kernel.now }
    requires small { (i j : ℕ) → i < V.stencil.directions → j < 8 → K.small kernel.now (cell + j) (stands kept.old (takes ways.now row i) (slice_index ways.now.from i) (at + j)) }
    ensures first { (f : ℕ → ℕ → ℤ) → AreTaken V.stencil.directions 8 f (λ i j. stands kept.old (takes ways.now row i) (slice_index ways.now.from i) (at + j)) → IsFirst (λ j. K.sound kernel.now (cell + j) (f j)) 0 8 result }
    ensures post { (f : ℕ → ℕ → ℤ) → AreTaken V.stencil.directions 8 f (λ i j. stands kept.old (takes ways.now row i) (slice_index ways.now.from i) (at + j)) → result ≡ None → (i j : ℕ) → i < V.stencil.directions → j < 8 → stands kept.new (puts ways.now row i) (slice_index ways.now.to i) (at + j) ≡ K.post kernel.now (cell + j) (f j) i }
    ensures stopped { (k : ℕ) → result ≡ Some k → kept.new ≡ kept.old }
    ensures but { IsSameBut V.stencil ways.now row at (at + 8) kept.old kept.new }
{
    let mut rows = TileBlock::<V> {
        set: PhantomData,
        kept,
        ways,
        row,
        width,
        at,
    };
    kernel.collide(cell, &mut rows)
}
