//! Reading a row of a lattice in arrays.

ghost use Rattle.std.specs.Prelude.{◌≡◌, ◌<◌, ◌≤◌, ◌+◌, ◌*◌, ◌^◌, ℕ, length, pos, slice_index_or};
ghost use Rattle.lbm_space.specs.Torus.{rows};
ghost use Rattle.lbm_model.specs.Layout.{population_in};
ghost use Rattle.lbm_sweep.specs.Lattices.{IsLaidOut};

use lbm_arrays::Region;
use lbm_model::{Case, Layout};
use lbm_space::VelocitySet;
use std::alloc::Allocator;

// Copies numbers, from a place in one list on, to those from a place in the other on.
fn copy_run(from: &[i64], first: usize, to: &mut [i64], start: usize, count: usize)
    requires there { first + count ≤ length from.now }
    requires room { start + count ≤ length to.old }
    ensures room { length to.new ≡ length to.old }
    ensures before { (x : ℕ) → x < start → slice_index_or to.new x (pos 0) ≡ slice_index_or to.old x (pos 0) }
    ensures copied { (k : ℕ) → k < count → slice_index_or to.new (start + k) (pos 0) ≡ slice_index_or from.now (first + k) (pos 0) }
{
    for k in 0..count {
        to[start + k] = from[first + k];
    }
}

/// Population `dir` of each cell of a row, of the state that stands in the slots.
pub(crate) fn read_row<V: VelocitySet, A: Allocator>(
    region: &Region<A>,
    case: &Case,
    layout: Layout,
    row: u32,
    dir: u32,
    pops: &mut [i64],
)
    requires set { case.now.stencil ≡ V.stencil }
    requires laid { IsLaidOut case.now layout region.now }
    requires row { row < rows case.now.torus }
    requires direction { dir < V.stencil.directions }
    requires room { length pops.old ≡ case.now.torus.nx }
    ensures room { length pops.new ≡ length pops.old }
    ensures value { (x : ℕ) → x < case.now.torus.nx → slice_index_or pops.new x (pos 0) ≡ population_in case.now layout region.now.slots (row * case.now.torus.nx + x) dir }
{
    let slots = region.slots();
    let size = layout.margin as usize + case.space().padded() as usize;
    let (first, ahead) = layout.row::<V>(case, row, dir);
    let start = layout.array::<V>(dir) as usize * size + first as usize;
    let ahead = ahead as usize;
    let turn = pops.len() - ahead;
    copy_run(slots, start + ahead, pops, 0, turn);
    copy_run(slots, start, pops, turn, ahead);
}
