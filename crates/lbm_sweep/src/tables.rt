//! Tables of directions.

ghost use Rattle.std.specs.Prelude.{◌≡◌, ◌<◌, ℕ, slice_index};
ghost use Rattle.lbm_space.specs.Stencil.{opposite};
ghost use Rattle.lbm_sweep.specs.Blocks.{IsTable};

use arrayvec::ArrayVec;
use lbm_cell::MAX_Q;
use lbm_space::VelocitySet;

/// For each direction of a set the number of an array.
pub type Directions = ArrayVec<usize, MAX_Q>;

/// Each direction itself.
pub fn same_directions<V: VelocitySet>() -> Directions
    ensures table { IsTable V.stencil.directions result.items }
    ensures same { (i : ℕ) → i < V.stencil.directions → slice_index result.items i ≡ i }
{
    let mut table = Directions::new();
    for i in 0..V::Q {
        table.push(i);
    }
    table
}

/// The opposite of each direction.
pub fn opposite_directions<V: VelocitySet>() -> Directions
    ensures table { IsTable V.stencil.directions result.items }
    ensures opposite { (i : ℕ) → i < V.stencil.directions → slice_index result.items i ≡ opposite V.stencil i }
{
    let mut table = Directions::new();
    for i in 0..V::Q {
        table.push(V::opp(i));
    }
    table
}
