// The gains of moving walls.

ghost use Rattle.std.specs.Prelude.{◌≡◌, ◌<◌, ◌≤◌, ◌+◌, ℕ, ◌+ℤ◌, true, false, unsigned_abs, slice_index_or};
ghost use Rattle.lbm_space.specs.Torus.{cells};
ghost use Rattle.lbm_cell.specs.Limits.{greatest_population};
ghost use Rattle.lbm_lanes.specs.Lanes.{entry, has};
ghost use Rattle.lbm_model.specs.Case.{is_solid, is_moving, gain};

use lbm_model::{Case, moving_gain};
use lbm_space::VelocitySet;
use lbm_walk::Rows;

// Which of `n` cells from `cell` on move.
fn moving_lanes(case: &Case, cell: u32, n: u32) -> [bool; 8]
    requires few { n ≤ 8 }
    requires cells { cell + n ≤ cells case.now.torus }
    ensures { (j : ℕ) → j < n → slice_index_or result j false ≡ is_moving case.now (cell + j) }
{
    // Its type keeps the number of cells small.
    let _ = case.space().cells();
    let mut moving = [false; 8];
    for j in 0..n {
        moving[j as usize] = case.is_moving(cell + j);
    }
    moving
}

// What a cell sends in a direction, with its gain where it moves.
fn with_gain<V: VelocitySet>(case: &Case, cell: u32, dir: u32, moves: bool, sent: i64) -> i64
    requires set { case.now.stencil ≡ V.stencil }
    requires cell { cell < cells case.now.torus }
    requires direction { dir < V.stencil.directions }
    requires moves { moves ≡ is_moving case.now cell }
    requires small { is_moving case.now cell ≡ true → unsigned_abs sent ≤ greatest_population }
    ensures { result ≡ sent +ℤ gain case.now cell dir }
{
    if moves {
        sent + moving_gain::<V>(case, cell, dir)
    } else {
        sent
    }
}

// What `n` cells, of which the first is `cell`, send in a direction, with their gains.
fn gained<V: VelocitySet>(
    case: &Case,
    cell: u32,
    n: u32,
    dir: u32,
    moving: &[bool; 8],
    sent: [i64; 8],
) -> [i64; 8]
    requires set { case.now.stencil ≡ V.stencil }
    requires few { n ≤ 8 }
    requires cells { cell + n ≤ cells case.now.torus }
    requires direction { dir < V.stencil.directions }
    requires moving { (j : ℕ) → j < n → slice_index_or moving.now j false ≡ is_moving case.now (cell + j) }
    requires small { (j : ℕ) → j < n → is_moving case.now (cell + j) ≡ true → unsigned_abs (entry sent j) ≤ greatest_population }
    ensures { (j : ℕ) → j < n → entry result j ≡ entry sent j +ℤ gain case.now (cell + j) dir }
{
    // Its type keeps the number of cells small.
    let _ = case.space().cells();
    let mut lanes = sent;
    for j in 0..n {
        let k = j as usize;
        lanes[k] = with_gain::<V>(case, cell + j, dir, moving[k], lanes[k]);
    }
    lanes
}

// Adds the gains of the cells, direction by direction.
#[cold]
#[inline(never)]
fn add_each<V: VelocitySet, R: Rows<V>>(case: &Case, cell: u32, rows: &mut R)
    requires set { case.now.stencil ≡ V.stencil }
    requires cells { cell + R.count rows.old ≤ cells case.now.torus }
    requires small { (i j : ℕ) → i < V.stencil.directions → j < R.count rows.old → is_moving case.now (cell + j) ≡ true → unsigned_abs (R.sent rows.old i j) ≤ greatest_population }
    ensures sent { (i j : ℕ) → i < V.stencil.directions → j < R.count rows.old → R.sent rows.new i j ≡ R.sent rows.old i j +ℤ gain case.now (cell + j) i }
    ensures count { R.count rows.new ≡ R.count rows.old }
    ensures kept { R.kept rows.old rows.new }
{
    let n = rows.count();
    let moving = moving_lanes(case, cell, n);
    for i in 0..V::Q {
        let sent = rows.sent(i);
        let lanes = gained::<V>(case, cell, n, i as u32, &moving, sent);
        rows.put(i, lanes);
    }
}

/// Adds to what cells send the gains of those that are moving walls. Those of `solid` are solid.
#[inline(always)]
pub(crate) fn add_gains<V: VelocitySet, R: Rows<V>>(case: &Case, cell: u32, solid: u8, rows: &mut R)
    requires set { case.now.stencil ≡ V.stencil }
    requires cells { cell + R.count rows.old ≤ cells case.now.torus }
    requires solid { (j : ℕ) → j < R.count rows.old → has solid j ≡ is_solid case.now (cell + j) }
    requires small { (i j : ℕ) → i < V.stencil.directions → j < R.count rows.old → is_moving case.now (cell + j) ≡ true → unsigned_abs (R.sent rows.old i j) ≤ greatest_population }
    ensures sent { (i j : ℕ) → i < V.stencil.directions → j < R.count rows.old → R.sent rows.new i j ≡ R.sent rows.old i j +ℤ gain case.now (cell + j) i }
    ensures count { R.count rows.new ≡ R.count rows.old }
    ensures kept { R.kept rows.old rows.new }
{
    // Its type keeps all that moves solid.
    let _ = case.space();
    let n = rows.count();
    if solid == 0 {
        return;
    }
    if !case.any_moving(cell, n) {
        return;
    }
    add_each::<V, R>(case, cell, rows);
}
