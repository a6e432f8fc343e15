//! Sweeps in place, over the slots of one lattice.

ghost use Rattle.std.specs.Prelude.{◌≡◌, None};
ghost use Rattle.lbm_space.specs.Torus.{cells, rows as row_count};
ghost use Rattle.lbm_space.specs.Cuttings.{rows_of};
ghost use Rattle.lbm_model.specs.Case.{IsCase};
ghost use Rattle.lbm_model.specs.Flow.{is_sound};
ghost use Rattle.lbm_model.specs.Layout.{state_in};
ghost use Rattle.lbm_arrays.specs.Arrays.{held};
ghost use Rattle.lbm_arrays.specs.Steps.{HasRoom};
ghost use Rattle.lbm_walk.specs.First.{IsFirst};
ghost use Rattle.lbm_sweep.specs.Held.{IsExchange};
ghost use Rattle.lbm_sweep.specs.Steps.{IsStep, IsWritten};
ghost use Rattle.lbm_sweep.specs.Lattices.{IsKept, IsLaidOut, AreWithin};
ghost use Rattle.lbm_lattice.specs.InPlace.{own_layout, turned_layout, taken, sent_to};

use lbm_arrays::{Forks, Inputs, Region, Step, shifts};
use lbm_model::{Case, Layout};
use lbm_space::{Cutting, VelocitySet};
use lbm_sweep::{Collision, Directions, InPlace, collide, opposite_directions, same_directions};
use std::alloc::Allocator;
use std::marker::PhantomData;

// The slots of an array beside its padded places: a range that is moved by a diagonal begins a slot before the first
// place or ends a slot past the last one.
const MARGIN: u32 = 2;

/// The slot of padded place 0 of an array that is worked on in place. Such an array has `2 + padded` slots.
pub const BASE: u32 = 1;

/// Each cell has its populations in its own slots.
pub const OWN: Layout = Layout {
    margin: MARGIN,
    base: BASE,
    turned: false,
    behind: false,
};

/// The cells behind have them in their slots of the opposite directions, as they have sent them.
pub const TURNED: Layout = Layout {
    margin: MARGIN,
    base: BASE,
    turned: true,
    behind: true,
};

/// How a sweep goes: how far the ranges of the arrays are moved, and for each direction the array from which a cell takes
/// its population and the one into which it puts what it sends.
#[derive(Drop)]
pub struct Way {
    pub step: Step,
    pub reads: Directions,
    pub writes: Directions,
}

/// All cells collide in place: each puts what it sends where it has taken the opposite direction from. The answer is the least cell out of limits.
pub fn sweep_in_place<V: VelocitySet, A: Allocator, C: Forks<Collision<V, InPlace>>>(
    crew: &C,
    case: &Case,
    region: &mut Region<A>,
    cut: &Cutting,
    way: Way,
) -> Option<u32>
    requires able { C.forks crew.now }
    requires set { case.now.stencil ≡ V.stencil }
    requires valid { IsCase case.now }
    requires laid { IsLaidOut case.now own_layout region.old }
    requires cutting { rows_of cut.now ≡ row_count case.now.torus }
    requires exchange { IsExchange V.stencil way.reads.items way.writes.items }
    requires room { HasRoom case.now.torus V.stencil way.step 2 1 }
    requires small { AreWithin case.now (taken case.now way.step way.reads.items region.old.slots) }
    ensures first { IsFirst (λ x. is_sound case.now x (taken case.now way.step way.reads.items region.old.slots x)) 0 (cells case.now.torus) result }
    ensures written { result ≡ None → IsWritten case.now (taken case.now way.step way.reads.items region.old.slots) (sent_to case.now way.step way.writes.items) (held region.new.slots) }
    ensures same { region.new ≡ record region.old { slots = region.new.slots } }
{
    let (_slots, _slabs) = (region.slots(), cut.slabs());
    let space = *case.space();
    let moved = shifts::<V>(&space, BASE, way.step);
    let source = InPlace {
        space,
        reads: way.reads,
    };
    let pass = Collision::<V, InPlace> {
        set: PhantomData,
        source,
        space,
        writes: way.writes,
    };
    let inputs = Inputs {
        case,
        read: &[],
        places: &[],
    };
    collide(crew, region, pass, &inputs, moved, cut)
}

/// Each cell takes its populations from its own slots and puts what it sends into those of the opposite directions. The
/// answer is the least cell out of limits; where there is none, the next state stands turned.
pub fn sweep_and_turn<V: VelocitySet, A: Allocator, C: Forks<Collision<V, InPlace>>>(
    crew: &C,
    case: &Case,
    region: &mut Region<A>,
    cut: &Cutting,
) -> Option<u32>
    requires able { C.forks crew.now }
    requires kept { IsKept V.stencil own_layout case.now None region.old cut.now }
    ensures step { IsStep case.now (state_in case.now own_layout region.old.slots) turned_layout region.new.slots result }
    ensures same { region.new ≡ record region.old { slots = region.new.slots } }
{
    let (reads, writes) = (same_directions::<V>(), opposite_directions::<V>());
    let way = Way {
        step: Step::InPlace,
        reads,
        writes,
    };
    sweep_in_place::<V, A, C>(crew, case, region, cut, way)
}
