//! A tile.

ghost use Rattle.std.specs.Prelude.{◌≡◌, ℕ, ◌-◌, ◌*◌, ◌+◌, ◌<◌, ◌%◌, ◌≤◌, [], None, vec_len, length, slice_index_or};
ghost use Rattle.lbm_space.specs.Torus.{rows as row_count};
ghost use Rattle.lbm_walk.specs.First.{IsFirst};
ghost use Rattle.lbm_model.specs.Case.{IsCase};
ghost use Rattle.lbm_model.specs.Flow.{is_sound, post};
ghost use Rattle.lbm_rows.specs.Lending.{tile_of, height, entry_number, kept_row, InTile, IsReady, IsSameShape, taken, sent};

use crate::KeptRow;
use crate::lending::put_back;
use crate::rows::collide_rows;
use crate::ways::Ways;
use lbm_model::Case;
use lbm_rule::CellRule;
use lbm_space::VelocitySet;
use std::marker::Model;

/// Some neighbouring rows of cells, with the kept rows that one step lends to them.
#[derive(Drop)]
pub struct Tile {
    first: u32,
    end: u32,
    kept: Vec<KeptRow>,
}

impl Model for Tile {
    ghost use Rattle.std.specs.Prelude.{◌<◌};
    ghost use Rattle.lbm_rows.specs.Lending.{TileModel};

    ghost Value = { TileModel };

    ghost view = { λ t. record { first = t.first; end = t.end; kept = t.kept.items } };

    ghost invariant = { λ t. t.first < t.end };
}

impl Tile {
    /// The rows from `first` up to, not including, `end`. `kept` has, direction after direction, one kept row for each of
    /// them.
    pub fn new(first: u32, end: u32, kept: Vec<KeptRow>) -> Tile
        requires some { first < end }
        requires whole { vec_len kept % (end - first) ≡ 0 }
        ensures { result ≡ record { first = first; end = end; kept = kept.items } }
    {
        Tile { first, end, kept }
    }

    /// The first row, and the row past the end.
    pub fn rows(&self) -> (u32, u32)
        ensures value { result ≡ (self.now.first, self.now.end) }
        ensures some { result.0 < result.1 }
    {
        (self.first, self.end)
    }

    /// The kept row of direction `dir` for row `first + n`.
    pub fn kept(&self, dir: u32, n: u32) -> &[i64]
        requires row { n < height self.now }
        requires entry { dir * height self.now + n < length self.now.kept }
        ensures { result.now ≡ kept_row self.now dir n }
    {
        let number = dir as usize * (self.end - self.first) as usize + n as usize;
        self.kept[number].slots()
    }

    /// All its kept rows, direction after direction.
    pub fn kept_rows(&self) -> &[KeptRow]
        ensures { result.now ≡ self.now.kept }
    {
        self.kept.as_slice()
    }
}

impl Tile {
    /// Puts its kept rows, which a step from time `t` has lent to it, back in their places.
    pub(crate) fn put_back<V: VelocitySet>(&mut self, kept: &mut [KeptRow], case: &Case, t: u64)
        requires set { case.now.stencil ≡ V.stencil }
        requires valid { IsCase case.now }
        requires inside { self.old.end ≤ row_count case.now.torus }
        requires whole { length self.old.kept ≡ V.stencil.directions * height self.old }
        requires count { length kept.old ≡ V.stencil.directions * row_count case.now.torus }
        ensures back { (j : ℕ) → j < length self.old.kept → slice_index_or kept.new (entry_number case.now t (self.old.first, self.old.end) j) [] ≡ slice_index_or self.old.kept j [] }
        ensures others { (m : ℕ) → ((j : ℕ) → j < length self.old.kept → m ≡ entry_number case.now t (self.old.first, self.old.end) j → ⊥) → slice_index_or kept.new m [] ≡ slice_index_or kept.old m [] }
        ensures count { length kept.new ≡ length kept.old }
    {
        let rows = (self.first, self.end);
        put_back::<V>(kept, self.kept.as_mut_slice(), rows, case, t);
    }

    /// All its cells collide in a step from time `t`. The answer is the first of them that is out of limits.
    pub(crate) fn collide<V: VelocitySet>(&mut self, case: &Case, t: u64) -> Option<u32>
        requires set { case.now.stencil ≡ V.stencil }
        requires ready { IsReady case.now t self.old }
        ensures shape { IsSameShape self.old self.new }
        ensures first { IsFirst (λ x. is_sound case.now x (taken case.now t self.old x)) (self.old.first * case.now.torus.nx) (self.old.end * case.now.torus.nx) result }
        ensures sent { result ≡ None → (x i : ℕ) → InTile case.now self.old x → i < case.now.stencil.directions → sent case.now t self.new x i ≡ post case.now x (taken case.now t self.old x) i }
    {
        let width = case.space().sides()[0];
        let rows = (self.first, self.end);
        collide_kept::<V>(self.kept.as_mut_slice(), rows, case, t, width)
    }
}

// The same, by the kept rows of a tile of these rows. A row has `width` cells.
fn collide_kept<V: VelocitySet>(
    kept: &mut [KeptRow],
    rows: (u32, u32),
    case: &Case,
    t: u64,
    width: u32,
) -> Option<u32>
    requires set { case.now.stencil ≡ V.stencil }
    requires valid { IsCase case.now }
    requires width { width ≡ case.now.torus.nx }
    requires ready { IsReady case.now t (tile_of rows kept.old) }
    ensures shape { IsSameShape (tile_of rows kept.old) (tile_of rows kept.new) }
    ensures first { IsFirst (λ x. is_sound case.now x (taken case.now t (tile_of rows kept.old) x)) (rows.0 * case.now.torus.nx) (rows.1 * case.now.torus.nx) result }
    ensures sent { result ≡ None → (x i : ℕ) → InTile case.now (tile_of rows kept.old) x → i < case.now.stencil.directions → sent case.now t (tile_of rows kept.new) x i ≡ post case.now x (taken case.now t (tile_of rows kept.old) x) i }
{
    let ways = Ways::at::<V>(t, rows.1 - rows.0);
    let rule = CellRule::<V>::of(case);
    collide_rows(&rule, kept, &ways, rows, width)
}
