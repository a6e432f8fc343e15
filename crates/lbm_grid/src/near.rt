//! Cells that take their populations from the places behind them, in their slab's ranges or in what it has saved.

ghost use Rattle.std.specs.Prelude.{◌≡◌, ℕ, ◌*◌, ◌+◌, ◌<◌, ◌≤◌, ◌^◌, length, true, pos, slice_index_or};
ghost use Rattle.std.proofs.Common.{◌∙◌, ap, subst, sym};
ghost use Rattle.std.proofs.Props.{props};
ghost use Rattle.lbm_space.specs.Torus.{rows as row_count};
ghost use Rattle.lbm_arrays.specs.Lent.{first_slot, Place};
ghost use Rattle.lbm_sweep.specs.Held.{width, IsWithin};
ghost use Rattle.lbm_sweep.specs.Slabs.{Ranges};
ghost use Rattle.lbm_grid.specs.Near.{is_outside, read_place, reading_at, reading_of, seen, taken_near, AreBetween, AreOwn, AreThere, IsNear, OwnBegin};
ghost use Rattle.lbm_grid.specs.NearLaws.{seen_pending, seen_still};

use crate::reading::{Reading, bounds, is_outside, lanes_near, place_near, reading_for};
use crate::way::Way;
use lbm_arrays::Loan;
use lbm_cell::MAX_Q;
use lbm_space::{Space, VelocitySet};
use lbm_sweep::{SlabCall, Slots, Source, Taking, collide_taking, first_slots};
use lbm_walk::Kernel;
use std::marker::PhantomData;

/// Each cell takes population i from the slot behind it in array i of one lattice, whose pads are loaded, or from where
/// its slab has saved it. What is read is what the slabs have saved; the places say where the room of each begins.
#[derive(Drop)]
pub struct Near<V: VelocitySet, W: Way> {
    pub(crate) set: PhantomData<V>,
    pub(crate) way: PhantomData<W>,
    pub(crate) space: Space,
    pub(crate) width: usize,
}

impl<V: VelocitySet, W: Way> Source<V> for Near<V, W> {
    ghost torus = { λ w. w.space };

    ghost spares = { λ w writes. AreOwn V.stencil.directions writes };

    ghost ready = { λ w read places rows ranges. IsNear w.space V.stencil places w.width (length read) rows ranges };

    ghost before = { λ w read places rows ranges cell i. taken_near w.space V.stencil W.RISES places w.width read rows ranges cell i };

    fn collide<K: Kernel<V>>(
        &self,
        kernel: &K,
        call: &SlabCall<'_>,
        loan: &mut Loan<'_>,
    ) -> Option<u32> {
        let rows = loan.rows();
        let readings = self.readings(call.read, call.places, rows);
        let (least, most) = bounds::<V>(&readings);
        let to = first_slots(loan, call.writes);
        let taking = PlacesNear::<W> {
            way: PhantomData,
            saved: call.read,
            readings,
            least,
            most,
            to,
        };
        collide_taking::<V, K, PlacesNear<'_, W>>(kernel, &taking, call, loan)
    }
}

impl<V: VelocitySet, W: Way> Near<V, W> {
    // How a slab of these rows reads the array of each direction.
    fn readings(&self, saved: &[i64], begins: &[u32], rows: (u32, u32)) -> [Reading; MAX_Q]
        requires near { (ranges : Ranges) × IsNear self.now.space V.stencil begins.now self.now.width (length saved.now) rows ranges }
        ensures { (i : ℕ) → i < V.stencil.directions → reading_at result i ≡ reading_of self.now.space V.stencil W.RISES begins.now self.now.width rows i }
    {
        let _ = saved.len(); // It fits a machine word.
        let none = Reading {
            first: 0,
            past: 0,
            at: 0,
            far: 0,
        };
        let mut readings = [none; MAX_Q];
        for k in 0..V::Q {
            readings[k] = reading_for::<V, W>(&self.space, begins, self.width, rows, k);
        }
        readings
    }
}

// Direction i is taken from the range of array i, at the place behind a cell's own, or from what is saved of it.
#[derive(Drop)]
struct PlacesNear<'s, W: Way> {
    way: PhantomData<W>,
    saved: &'s [i64],
    readings: [Reading; MAX_Q],
    // all strips lie from the place `least` up to, not including, `most`
    least: u32,
    most: u32,
    // the slots at which the ranges begin
    to: Slots,
}

impl<V: VelocitySet, W: Way> Taking<V> for PlacesNear<'_, W> {
    ghost RISES = { W.RISES };

    ghost fits = { λ w writes lent. AreOwn V.stencil.directions writes × OwnBegin V.stencil.directions lent.place w.to × AreThere W.RISES V.stencil.directions (length w.saved.now) (width lent.ranges) w.readings × AreBetween V.stencil.directions w.least w.most w.readings };

    ghost fits_once = { λ w writes lent. Prim.hlevel props };

    ghost taken = { λ w lent i p. seen W.RISES w.saved.now lent.ranges i (reading_at w.readings i) p };

    ghost clear = { λ w at. is_outside w.least w.most at 8 };

    #[inline(always)]
    fn rises() -> bool
        ensures { result ≡ W.RISES }
    {
        W::rises()
    }

    fn take(&self, loan: &Loan<'_>, dir: usize, at: u32, n: u32) -> [i64; 8] {
        lanes_near::<W>(loan, self.saved, self.to[dir], self.readings[dir], at, n)
    }

    #[inline(always)]
    fn is_clear(&self, at: u32) -> bool {
        is_outside(self.least, self.most, at)
    }

    #[inline(always)]
    fn take_clear(&self, loan: &Loan<'_>, dir: usize, at: u32) -> [i64; 8] {
        let place = place_near::<W>(at, self.readings[dir].far);
        loan.load_block(self.to[dir], place)
    }

    ghost still_fits = { λ w writes a b from to but fit. (fit.0, λ i known. fit.1 i known ∙ ap (λ (p : Place). first_slot p i) (sym but.place), subst (λ (len : ℕ). AreThere W.RISES V.stencil.directions (length w.saved.now) len w.readings) (sym but.wide) fit.2, fit.3) };

    ghost still_pending = { λ w a b at n i p but past. seen_pending W.RISES w.saved.now a b i (reading_at w.readings i) at n p but past };

    ghost still_there = { λ w writes a b dir fit put others i p known ne opposite. seen_still W.RISES w.saved.now a.ranges b.ranges i (reading_at w.readings i) p (others i (read_place W.RISES (reading_at w.readings i).far p) (λ same. ne (same ∙ fit.0 dir put))) };
}
