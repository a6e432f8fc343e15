//! Two lattices, and the step from one to the other.

ghost use Rattle.std.specs.Prelude.{◌≡◌};
ghost use Rattle.lbm_space.specs.Torus.{rows as row_count};
ghost use Rattle.lbm_space.specs.Cuttings.{rows_of};
ghost use Rattle.lbm_model.specs.Small.{IsSmall};
ghost use Rattle.lbm_model.specs.Layout.{two_layout, state_in};
ghost use Rattle.lbm_sweep.specs.Lattices.{IsLaidOut};
ghost use Rattle.lbm_sweep.specs.Steps.{IsStep};

use crate::behind::Behind;
use lbm_arrays::{Forks, Inputs, Region, Step, shifts};
use lbm_lattice::{ArrayLattice, Propagation};
use lbm_model::{Case, Layout};
use lbm_space::{Cutting, Memory, VelocitySet};
use lbm_sweep::{Collision, collide, load_all_pads, same_directions};
use std::alloc::Allocator;
use std::marker::PhantomData;
use std::mem;

/// A lattice, and a second one that the next state is written to, by the slabs of a cutting beside each other. Population i of
/// a cell stands in array i of the one that is read next, at the cell behind; arrays have no margins.
pub type Two<V, A> = ArrayLattice<V, A, TwoLattices<A>>;

/// The second lattice.
#[derive(Drop)]
pub struct TwoLattices<A: Allocator> {
    next: Region<A>,
}

// Where the populations stand: each at the cell behind its own.
const LAYOUT: Layout = Layout {
    margin: 0,
    base: 0,
    turned: false,
    behind: true,
};

impl<V: VelocitySet, A: Allocator + Copy> Propagation<V, A> for TwoLattices<A> {
    type Work = Collision<V, Behind<V>>;

    ghost layout = { λ case time. two_layout };

    ghost kept = { λ p case bounds. IsLaidOut case two_layout p.next };

    ghost still_laid = { λ case time region laid. laid };

    fn layout_at(_case: &Case, _time: u64) -> Layout {
        LAYOUT
    }

    fn new(heap: A, case: &Case, _cut: &Cutting) -> Result<TwoLattices<A>, Memory> {
        let next = Region::new(heap, case.space(), V::Q as u32, LAYOUT.margin)?;
        Ok(TwoLattices { next })
    }

    fn advance<C: Forks<Collision<V, Behind<V>>>>(
        &mut self,
        crew: &C,
        case: &Case,
        cut: &Cutting,
        _time: u64,
        region: &mut Region<A>,
    ) -> Option<u32> {
        let answer = write_next::<V, A, C>(crew, case, cut, region, &mut self.next);
        mem::swap(region, &mut self.next);
        answer
    }
}

// The next state of the first lattice, in the second one; or the least cell out of limits.
fn write_next<V: VelocitySet, A: Allocator, C: Forks<Collision<V, Behind<V>>>>(
    crew: &C,
    case: &Case,
    cut: &Cutting,
    now: &mut Region<A>,
    next: &mut Region<A>,
) -> Option<u32>
    requires able { C.forks crew.now }
    requires set { case.now.stencil ≡ V.stencil }
    requires now { IsLaidOut case.now two_layout now.old }
    requires next { IsLaidOut case.now two_layout next.old }
    requires cutting { rows_of cut.now ≡ row_count case.now.torus }
    requires small { IsSmall case.now (state_in case.now two_layout now.old.slots) }
    ensures step { IsStep case.now (state_in case.now two_layout now.old.slots) two_layout next.new.slots result }
    ensures now { now.new ≡ record now.old { slots = now.new.slots } }
    ensures next { next.new ≡ record next.old { slots = next.new.slots } }
{
    load_all_pads::<V, A>(now, LAYOUT.base);
    let space = *case.space();
    let writes = same_directions::<V>();
    let moved = shifts::<V>(&space, LAYOUT.base, Step::InPlace);
    let source = Behind::<V> {
        set: PhantomData,
        space,
    };
    let pass = Collision::<V, Behind<V>> {
        set: PhantomData,
        source,
        space,
        writes,
    };
    let inputs = Inputs {
        case,
        read: now.slots(),
        places: &[],
    };
    collide(crew, next, pass, &inputs, moved, cut)
}
