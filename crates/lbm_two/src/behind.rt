//! Cells that take their populations from the cells behind them, in another lattice.

ghost use Rattle.std.specs.Prelude.{◌≡◌, ℕ, ◌*◌, ◌+◌, ◌-◌, ◌<◌, ◌≤◌, pos, true, length, refl, slice_index, slice_index_or};
ghost use Rattle.std.proofs.Common.{subst};
ghost use Rattle.std.proofs.Props.{props};
ghost use Rattle.lbm_space.specs.Torus.{IsSpace, padded};
ghost use Rattle.lbm_space.specs.Padded.{IsInterior};
ghost use Rattle.lbm_arrays.specs.Arrays.{held};
ghost use Rattle.lbm_sweep.specs.Held.{width};
ghost use Rattle.lbm_two.specs.Behind.{slot_behind, AreBehind, AreThere};

use lbm_arrays::{Loan, place_behind};
use lbm_cell::MAX_Q;
use lbm_space::{Space, VelocitySet};
use lbm_sweep::{SlabCall, Slots, Source, Taking, collide_taking, eight_at, lanes_at};
use lbm_walk::Kernel;
use std::marker::PhantomData;

/// Each cell takes population i from the slot behind it in array i of the lattice that is read, which has no margins and
/// whose pads are loaded.
#[derive(Drop)]
pub struct Behind<V: VelocitySet> {
    pub(crate) set: PhantomData<V>,
    pub(crate) space: Space,
}

impl<V: VelocitySet> Source<V> for Behind<V> {
    ghost torus = { λ w. w.space };

    ghost spares = { λ w writes. Unit {0} };

    ghost ready = { λ w read places rows ranges. IsSpace w.space × (V.stencil.dimension ≡ w.space.dimension) × (length read ≡ V.stencil.directions * padded w.space) };

    ghost before = { λ w read places rows ranges cell i. held read (slot_behind w.space V.stencil cell i) };

    fn collide<K: Kernel<V>>(
        &self,
        kernel: &K,
        call: &SlabCall<'_>,
        loan: &mut Loan<'_>,
    ) -> Option<u32> {
        let rows = loan.rows();
        let starts = slots_behind::<V>(call.space, call.space.row_start(rows.0) + 1);
        let taking = PlacesBehind {
            numbers: call.read,
            starts,
        };
        collide_taking::<V, K, PlacesBehind<'_>>(kernel, &taking, call, loan)
    }
}

// For each direction the slot behind the place `first`, in its array.
fn slots_behind<V: VelocitySet>(space: &Space, first: u32) -> Slots
    requires dimension { V.stencil.dimension ≡ space.now.dimension }
    requires cell { IsInterior space.now first }
    ensures { AreBehind space.now V.stencil first V.stencil.directions result }
{
    let mut slots = [0; MAX_Q];
    let size = space.padded() as usize;
    for i in 0..V::Q {
        slots[i] = i * size + place_behind::<V>(space, i, first) as usize;
    }
    slots
}

// The first cell of a slab, at place 1, takes direction i from slot `starts[i]` of a lattice, and the others from the slots
// that follow.
#[derive(Drop)]
struct PlacesBehind<'f> {
    numbers: &'f [i64],
    starts: Slots,
}

impl<V: VelocitySet> Taking<V> for PlacesBehind<'_> {
    ghost RISES = { true };

    ghost fits = { λ w writes lent. AreThere V.stencil.directions w.starts (width lent.ranges) (length w.numbers.now) };

    ghost fits_once = { λ w writes lent. Prim.hlevel props };

    ghost taken = { λ w lent i p. slice_index_or w.numbers.now (slice_index w.starts i + (p - 1)) (pos 0) };

    #[inline(always)]
    fn rises() -> bool
        ensures { result ≡ true }
    {
        true
    }

    #[inline(always)]
    fn take(&self, _loan: &Loan<'_>, dir: usize, at: u32, n: u32) -> [i64; 8] {
        lanes_at(self.numbers, self.starts[dir] + (at - 1) as usize, n)
    }

    #[inline(always)]
    fn is_clear(&self, _at: u32) -> bool {
        true
    }

    #[inline(always)]
    fn take_clear(&self, _loan: &Loan<'_>, dir: usize, at: u32) -> [i64; 8] {
        eight_at(self.numbers, self.starts[dir] + (at - 1) as usize)
    }

    ghost still_fits = { λ w writes a b from to but fit i p known inner inside. fit i p known inner (subst (λ (len : ℕ). p + 1 < len) but.wide inside) };

    ghost still_pending = { λ w a b at n i p but past. refl };

    ghost still_there = { λ w writes a b dir fit put others i p known ne opposite. refl };
}
