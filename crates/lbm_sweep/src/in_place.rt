//! Cells that take their populations from their own places.

ghost use Rattle.std.specs.Prelude.{◌≡◌, ◌+◌, ◌≤◌, ℕ, true, slice_index};
ghost use Rattle.std.proofs.Common.{◌∙◌, ap, inr, sym};
ghost use Rattle.std.proofs.Props.{props};
ghost use Rattle.lbm_arrays.specs.Lent.{first_slot, Place};
ghost use Rattle.lbm_cell.specs.Rows.{entry};
ghost use Rattle.lbm_walk.specs.Places.{local};
ghost use Rattle.lbm_sweep.specs.Held.{BeginAt, IsExchange};
ghost use Rattle.lbm_sweep.specs.Laws.{put_apart};

use crate::{Directions, SlabCall, Slots, Source, Taking, collide_taking, first_slots};
use lbm_arrays::Loan;
use lbm_space::{Space, VelocitySet};
use lbm_walk::Kernel;

/// Each cell takes population i from the range of array `reads[i]`, at its own place.
#[derive(Drop)]
pub struct InPlace {
    pub space: Space,
    pub reads: Directions,
}

impl<V: VelocitySet> Source<V> for InPlace {
    ghost torus = { λ w. w.space };

    ghost spares = { λ w writes. IsExchange V.stencil w.reads.items writes };

    ghost ready = { λ w read places rows ranges. Unit {0} };

    ghost before = { λ w read places rows ranges cell i. entry ranges (slice_index w.reads.items i) (local w.space rows cell) };

    fn collide<K: Kernel<V>>(
        &self,
        kernel: &K,
        call: &SlabCall<'_>,
        loan: &mut Loan<'_>,
    ) -> Option<u32> {
        let reads = self.reads.as_slice();
        let from = first_slots(loan, reads);
        let taking = OwnPlaces { reads, from };
        collide_taking::<V, K, OwnPlaces<'_>>(kernel, &taking, call, loan)
    }
}

// Direction i is taken from the range of array `reads[i]`, which begins at slot `from[i]`, and put where the opposite
// direction is taken from.
#[derive(Drop)]
struct OwnPlaces<'r> {
    reads: &'r [usize],
    from: Slots,
}

impl<V: VelocitySet> Taking<V> for OwnPlaces<'_> {
    ghost RISES = { true };

    ghost fits = { λ w writes lent. IsExchange V.stencil w.reads.now writes × BeginAt V.stencil.directions lent.place w.reads.now w.from };

    ghost fits_once = { λ w writes a. Prim.hlevel props };

    ghost taken = { λ w lent i p. entry lent.ranges (slice_index w.reads.now i) p };

    #[inline(always)]
    fn rises() -> bool
        ensures { result ≡ true }
    {
        true
    }

    #[inline(always)]
    fn take(&self, loan: &Loan<'_>, dir: usize, at: u32, n: u32) -> [i64; 8] {
        loan.load_at(self.from[dir], at, n)
    }

    #[inline(always)]
    fn is_clear(&self, _at: u32) -> bool {
        true
    }

    #[inline(always)]
    fn take_clear(&self, loan: &Loan<'_>, dir: usize, at: u32) -> [i64; 8] {
        loan.load_block(self.from[dir], at)
    }

    ghost still_fits = { λ w writes a b from to but fit. (fit.0, λ i known. fit.1 i known ∙ ap (λ (p : Place). first_slot p (slice_index w.reads.now i)) (sym but.place)) };

    ghost still_pending = { λ w a b at n i p but past. but.others (slice_index w.reads.now i) p (inr past) };

    ghost still_there = { λ w writes a b dir fit put others i p known ne opposite. others (slice_index w.reads.now i) p (put_apart V.stencil w.reads.now writes V.laws fit.0 i dir known put opposite) };
}
