//! What moving walls add.

ghost use Rattle.std.specs.Prelude.{◌≡◌, ◌<◌, ◌≤◌, ◌^◌, true, unsigned_abs};
ghost use Rattle.lbm_space.specs.Torus.{cells};
ghost use Rattle.lbm_model.specs.Limits.{gain_bound};
ghost use Rattle.lbm_model.specs.Case.{is_moving, gain, cell_gain, all_gain};

use crate::case::Case;
use lbm_cell::collision::push;
use lbm_space::VelocitySet;

/// What a cell that is a moving wall adds to what it sends in direction `dir`.
pub fn moving_gain<V: VelocitySet>(case: &Case, cell: u32, dir: u32) -> i64
    requires set { case.now.stencil ≡ V.stencil }
    requires cell { cell < cells case.now.torus }
    requires direction { dir < V.stencil.directions }
    requires moves { is_moving case.now cell ≡ true }
    ensures value { result ≡ gain case.now cell dir }
    ensures size { unsigned_abs result < gain_bound }
{
    let dir = dir as usize;
    let target = case.space().back::<V>(cell, V::opp(dir));
    if !case.is_solid(target) {
        push::<V>(&case.wall().parts(), dir)
    } else {
        0
    }
}

/// What the cell adds to what it sends in direction `dir`: a moving wall adds its push toward a fluid cell, which is
/// the weight of the direction times the inner product of its velocity and that of the wall, and nothing toward a
/// solid one. The gain is this project's own.
pub fn gain<V: VelocitySet>(case: &Case, cell: u32, dir: u32) -> i64
    requires set { case.now.stencil ≡ V.stencil }
    requires cell { cell < cells case.now.torus }
    requires direction { dir < V.stencil.directions }
    ensures value { result ≡ gain case.now cell dir }
    ensures size { unsigned_abs result < gain_bound }
{
    if case.is_moving(cell) {
        moving_gain::<V>(case, cell, dir)
    } else {
        0
    }
}

// What the cell adds in all directions, where it is solid.
fn cell_gain<V: VelocitySet>(case: &Case, cell: u32) -> i64
    requires set { case.now.stencil ≡ V.stencil }
    requires cell { cell < cells case.now.torus }
    ensures value { result ≡ cell_gain case.now cell }
    ensures size { unsigned_abs result < 2 ^ 20 }
{
    if !case.is_solid(cell) {
        return 0;
    }
    let mut sum = 0;
    for dir in 0..V::Q {
        sum += gain::<V>(case, cell, dir as u32);
    }
    sum
}

/// What all walls add to the mass of the whole flow in one step.
pub fn all_gain<V: VelocitySet>(case: &Case) -> i64
    requires { case.now.stencil ≡ V.stencil }
    ensures value { result ≡ all_gain case.now }
    ensures size { unsigned_abs result ≤ 2 ^ 42 }
{
    let mut sum = 0;
    for cell in 0..case.space().cells() {
        sum += cell_gain::<V>(case, cell);
    }
    sum
}
