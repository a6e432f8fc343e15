//! The walk over a row of a tile.

ghost use Rattle.std.specs.Prelude.{◌≡◌, ◌+◌, ◌<◌, ◌≤◌, ℕ, ℤ, None, Some, pos, true, refl, slice_index};
ghost use Rattle.std.proofs.Common.{◌∙◌};
ghost use Rattle.lbm_walk.specs.First.{IsFirst};
ghost use Rattle.lbm_walk.specs.Walked.{AreTaken};
ghost use Rattle.lbm_rows.specs.declared.ways.Ways.{Ways as WaysOf};
ghost use Rattle.lbm_rows.specs.TileRows.{takes, puts, stands, AreCells, HasRow, IsAlike, IsExchange, IsSameBut};
ghost use Rattle.lbm_rows.specs.Laws.{same_but, same_run_on, alike_self, alike_on, before_kept, after_kept};

use crate::KeptRow;
use crate::kept_row::{load_from, store_in};
use crate::tile_block::collide_block;
use crate::ways::Ways;
use lbm_space::VelocitySet;
use lbm_walk::{Kernel, Rows, Walk, collide_apart};
use std::marker::PhantomData;

/// The cells of a row of a tile. They take and put by the ways; the first cell of the row is at place 1.
#[derive(Drop)]
pub(crate) struct TileRow<'k, 'w, V: VelocitySet> {
    pub set: PhantomData<V>,
    pub kept: &'k mut [KeptRow],
    pub ways: &'w Ways,
    pub row: usize,
    pub width: u32,
    pub at: u32,
    pub n: u32,
    ghost cells: { AreCells width at n },
    ghost has_row: { HasRow V.stencil ways.now row width kept.now },
    ghost exchange: { IsExchange V.stencil ways.now },
}

impl<V: VelocitySet> Rows<V> for TileRow<'_, '_, V> {
    ghost count = { λ w. w.n };

    ghost there = { λ w i j. stands w.kept.now (takes w.ways.now w.row i) (slice_index w.ways.now.from i) (w.at + j) };

    ghost sent = { λ w i j. stands w.kept.now (puts w.ways.now w.row i) (slice_index w.ways.now.to i) (w.at + j) };

    ghost kept = { λ a b. (b.kept.ghost_name ≡ a.kept.ghost_name) × (b.ways.now ≡ a.ways.now) × (b.row ≡ a.row) × (b.width ≡ a.width) × (b.at ≡ a.at) × (b.n ≡ a.n) × IsSameBut V.stencil a.ways.now a.row a.at (a.at + a.n) a.kept.now b.kept.now };

    #[inline(always)]
    fn count(&self) -> u32 {
        self.n
    }

    #[inline(always)]
    fn take(&self, dir: usize) -> [i64; 8] {
        let first = self.ways.from[dir] + (self.at - 1) as usize;
        load_from(self.kept, self.ways.takes[dir] + self.row, first, self.n)
    }

    #[inline(always)]
    fn sent(&self, dir: usize) -> [i64; 8] {
        let first = self.ways.to[dir] + (self.at - 1) as usize;
        load_from(self.kept, self.ways.puts[dir] + self.row, first, self.n)
    }

    #[inline(always)]
    fn put(&mut self, dir: usize, lanes: [i64; 8]) {
        let row = self.ways.puts[dir] + self.row;
        let first = self.ways.to[dir] + (self.at - 1) as usize;
        store_in(self.kept, row, first, self.n, lanes);
    }

    ghost kept_same = { λ r. (refl, refl, refl, refl, refl, refl, same_but V.stencil r.ways.now r.row r.at (r.at + r.n) r.kept.now) };

    ghost kept_on = { λ a b c x y. (y.0 ∙ x.0, y.1 ∙ x.1, y.2 ∙ x.2, y.3 ∙ x.3, y.4 ∙ x.4, y.5 ∙ x.5, same_run_on V.stencil a.ways.now b.ways.now a.row b.row a.at a.n b.at b.n a.kept.now b.kept.now c.kept.now x.1 x.2 x.4 x.5 x.6 y.6) };
}

impl<V: VelocitySet> Walk<V> for TileRow<'_, '_, V> {
    ghost RISES = { true };

    ghost places = { λ w. w.width + 2 };

    ghost place = { λ w. w.at };

    ghost before = { λ w i p. stands w.kept.now (takes w.ways.now w.row i) (slice_index w.ways.now.from i) p };

    ghost after = { λ w i p. stands w.kept.now (puts w.ways.now w.row i) (slice_index w.ways.now.to i) p };

    // Of the other rows `same` tells.
    ghost holds = { λ w k p. pos 0 };

    ghost same = { λ a b. (b.kept.ghost_name ≡ a.kept.ghost_name) × (b.ways.now ≡ a.ways.now) × (b.row ≡ a.row) × (b.width ≡ a.width) × IsAlike V.stencil a.ways.now a.row a.kept.now b.kept.now };

    #[inline(always)]
    fn rises() -> bool
        ensures { result ≡ true }
    {
        true
    }

    #[inline(always)]
    fn seek(&mut self, at: u32, n: u32) {
        self.at = at;
        self.n = n;
    }

    #[inline(always)]
    fn collide_by<K: Kernel<V>>(&mut self, kernel: &K, cell: u32) -> Option<u32> {
        if self.n == 8 {
            return collide_block(
                kernel, cell, self.kept, self.ways, self.row, self.width, self.at,
            );
        }
        collide_apart(kernel, cell, self)
    }

    ghost there_is = { λ w i j. refl };

    ghost sent_is = { λ w i j. refl };

    ghost kept_before = { λ a b k i p known past. before_kept V.stencil a.ways.now b.ways.now a.row b.row a.at (a.at + a.n) a.kept.now b.kept.now k.1 k.2 k.6 i p known past };

    ghost kept_after = { λ a b k i p known off. after_kept V.stencil a.ways.now b.ways.now a.row b.row a.at (a.at + a.n) a.kept.now b.kept.now k.1 k.2 a.exchange k.6 i p known off };

    ghost kept_holds = { λ a b k d p off. refl };

    ghost kept_place = { λ a b k. k.4 };

    ghost kept_places = { λ a b k j. k.3 j + 2 };

    ghost kept_is_same = { λ a b k. (k.0, k.1, k.2, k.3, k.6.alike) };

    ghost same_as_self = { λ a. (refl, refl, refl, refl, alike_self V.stencil a.ways.now a.row a.kept.now) };

    ghost same_on = { λ a b c x y. (y.0 ∙ x.0, y.1 ∙ x.1, y.2 ∙ x.2, y.3 ∙ x.3, alike_on V.stencil a.ways.now b.ways.now a.row b.row a.kept.now b.kept.now c.kept.now x.1 x.2 x.4 y.4) };
}
