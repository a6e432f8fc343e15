//! The collision of all cells of a region.

ghost use Rattle.std.specs.Prelude.{◌≡◌, ◌<◌, ◌≤◌, ℕ, ℤ, slice_index, unsigned_abs};
ghost use Rattle.arrayvec.specs.ArrayVec.{array_vec_len};
ghost use Rattle.lbm_space.specs.Torus.{cells, rows as row_count};
ghost use Rattle.lbm_space.specs.Cuttings.{rows_of};
ghost use Rattle.lbm_model.specs.Flow.{is_sound, post};
ghost use Rattle.lbm_model.specs.Small.{size_limit};
ghost use Rattle.lbm_arrays.specs.Arrays.{held};
ghost use Rattle.lbm_arrays.specs.LentRanges.{AreInside};
ghost use Rattle.lbm_sweep.specs.Sweep.{IsCollided};
ghost use Rattle.lbm_sweep.specs.Slabs.{IsMatched};
ghost use Rattle.lbm_sweep.specs.Regions.{range_slot, HasSlot, InEachSlab};

use crate::{Collision, Source};
use lbm_arrays::{Forks, Inputs, Region, Shifts, fork_by};
use lbm_space::{Cutting, VelocitySet};
use std::alloc::Allocator;

/// Each cell of a region takes its populations, passes the rule, and writes what it sends to its own slots of the lent
/// ranges. The slabs of the cutting work beside each other, each past the gate. The answer is the least cell out of limits;
/// where there is one, nothing is said of what the ranges hold.
pub fn collide<A: Allocator, V: VelocitySet, S: Source<V>, C: Forks<Collision<V, S>>>(
    crew: &C,
    region: &mut Region<A>,
    pass: Collision<V, S>,
    inputs: &Inputs<'_>,
    shifts: Shifts,
    cut: &Cutting,
) -> Option<u32>
    requires able { C.forks crew.now }
    requires set { inputs.now.case.now.stencil ≡ V.stencil }
    requires space { pass.space ≡ region.old.space }
    requires matched { IsMatched pass.space V.stencil.directions (cells inputs.now.case.now.torus) (S.torus pass.source) pass.writes.items }
    requires spared { S.spares pass.source pass.writes.items }
    requires arrays { region.old.count ≡ V.stencil.directions }
    requires count { array_vec_len shifts ≡ region.old.count }
    requires inside { AreInside region.old.space region.old.margin shifts.items }
    requires cutting { rows_of cut.now ≡ row_count region.old.space }
    requires ready { InEachSlab region.old.space region.old.margin shifts.items cut.now region.old.slots (λ rows ranges cell. S.ready pass.source inputs.now.read.now inputs.now.places.now rows ranges) }
    requires small { InEachSlab region.old.space region.old.margin shifts.items cut.now region.old.slots (λ rows ranges cell. (i : ℕ) → i < V.stencil.directions → unsigned_abs (S.before pass.source inputs.now.read.now inputs.now.places.now rows ranges cell i) ≤ size_limit inputs.now.case.now cell) }

    // What the slabs' cells take, whichever slab has them, is what they write the results of.
    ensures collided { (before : ℕ → ℕ → ℤ) → InEachSlab region.old.space region.old.margin shifts.items cut.now region.old.slots (λ rows ranges cell. (i : ℕ) → i < V.stencil.directions → S.before pass.source inputs.now.read.now inputs.now.places.now rows ranges cell i ≡ before cell i) →
        IsCollided (is_sound inputs.now.case.now) (post inputs.now.case.now) V.stencil.directions before (λ cell i. range_slot region.old.space region.old.margin shifts.items (slice_index pass.writes.items i) cell) (HasSlot region.old.space region.old.margin shifts.items V.stencil.directions) 0 (cells region.old.space) (held region.old.slots) (held region.new.slots) result }
    ensures same { region.new ≡ record region.old { slots = region.new.slots } }
{
    let (_slabs, _slots) = (cut.slabs(), region.slots());
    fork_by(crew, region, pass, true, inputs, shifts, cut)
}
