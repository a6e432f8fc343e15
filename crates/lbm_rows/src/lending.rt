//! Which rows a step lends.

ghost use Rattle.std.specs.Prelude.{◌≡◌, ◌<◌, ◌≤◌, ◌*◌, ◌-◌, ℕ, [], length, vec_len, vec_capacity, slice_index_or};
ghost use Rattle.lbm_space.specs.Torus.{rows as row_count};
ghost use Rattle.lbm_model.specs.Case.{IsCase};
ghost use Rattle.lbm_rows.specs.Lending.{lent_row, lent_number, entry_number, IsLent};

use crate::kept_row::row_number;
use crate::{KeptRow, Tile};
use lbm_model::Case;
use lbm_space::VelocitySet;
use std::alloc::Global;
use std::mem;

/// The row of cells whose kept row of array `k` a step from time `t` lends for row `row`: its own at even times, that of the
/// cells to which the array's direction leads at odd ones.
pub(crate) fn lent_row<V: VelocitySet>(case: &Case, t: u64, k: usize, row: u32) -> u32
    requires set { case.now.stencil ≡ V.stencil }
    requires valid { IsCase case.now }
    requires array { k < V.stencil.directions }
    requires row { row < row_count case.now.torus }
    ensures value { result ≡ lent_row case.now t k row }
    ensures known { result < row_count case.now.torus }
{
    if t % 2 == 0 {
        return row;
    }
    let space = case.space();
    let width = space.sides()[0];
    space.back::<V>(row * width, V::opp(k)) / width
}

/// The number of that kept row among all of them.
pub(crate) fn lent_number<V: VelocitySet>(case: &Case, t: u64, k: usize, row: u32) -> usize
    requires set { case.now.stencil ≡ V.stencil }
    requires valid { IsCase case.now }
    requires array { k < V.stencil.directions }
    requires row { row < row_count case.now.torus }
    ensures value { result ≡ lent_number case.now t k row }
    ensures known { result < V.stencil.directions * row_count case.now.torus }
{
    let lent = lent_row::<V>(case, t, k, row);
    row_number(case.space(), k, lent)
}

/// Moves the kept rows that a step from time `t` lends to a tile of these rows out of `kept`, into `room`, which is empty
/// and has room for them.
pub(crate) fn lend_tile<V: VelocitySet>(
    kept: &mut [KeptRow],
    room: Vec<KeptRow>,
    rows: (u32, u32),
    case: &Case,
    t: u64,
    alloc: Global,
) -> Tile
    requires set { case.now.stencil ≡ V.stencil }
    requires valid { IsCase case.now }
    requires some { rows.0 < rows.1 }
    requires inside { rows.1 ≤ row_count case.now.torus }
    requires count { length kept.old ≡ V.stencil.directions * row_count case.now.torus }
    requires empty { vec_len room ≡ 0 }
    requires capacity { V.stencil.directions * (rows.1 - rows.0) ≤ vec_capacity room }
    ensures lent { IsLent case.now t kept.old result }
    ensures rows { (result.first ≡ rows.0) × (result.end ≡ rows.1) }
    ensures others { (m : ℕ) → ((j : ℕ) → j < V.stencil.directions * (rows.1 - rows.0) → m ≡ entry_number case.now t rows j → ⊥) → slice_index_or kept.new m [] ≡ slice_index_or kept.old m [] }
    ensures count { length kept.new ≡ length kept.old }
{
    let mut room = room;
    let height = (rows.1 - rows.0) as usize;
    for j in 0..V::Q * height {
        let row = rows.0 + (j % height) as u32;
        let number = lent_number::<V>(case, t, j / height, row);
        let lent = mem::replace(&mut kept[number], KeptRow::new(Vec::new(alloc)));
        room.push_reserved(lent);
    }
    Tile::new(rows.0, rows.1, room)
}

/// Puts the kept rows of a tile of these rows, which a step from time `t` has lent to it, back in their places.
pub(crate) fn put_back<V: VelocitySet>(
    kept: &mut [KeptRow],
    lent: &mut [KeptRow],
    rows: (u32, u32),
    case: &Case,
    t: u64,
)
    requires set { case.now.stencil ≡ V.stencil }
    requires valid { IsCase case.now }
    requires some { rows.0 < rows.1 }
    requires inside { rows.1 ≤ row_count case.now.torus }
    requires whole { length lent.old ≡ V.stencil.directions * (rows.1 - rows.0) }
    requires count { length kept.old ≡ V.stencil.directions * row_count case.now.torus }
    ensures back { (j : ℕ) → j < length lent.old → slice_index_or kept.new (entry_number case.now t rows j) [] ≡ slice_index_or lent.old j [] }
    ensures others { (m : ℕ) → ((j : ℕ) → j < length lent.old → m ≡ entry_number case.now t rows j → ⊥) → slice_index_or kept.new m [] ≡ slice_index_or kept.old m [] }
    ensures count { length kept.new ≡ length kept.old }
{
    let height = (rows.1 - rows.0) as usize;
    for j in 0..lent.len() {
        let row = rows.0 + (j % height) as u32;
        let number = lent_number::<V>(case, t, j / height, row);
        mem::swap(&mut kept[number], &mut lent[j]);
    }
}
