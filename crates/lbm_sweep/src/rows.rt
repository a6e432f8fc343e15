//! The rows of a slab's cells, which stand in the ranges of its loan.

ghost use Rattle.std.specs.Prelude.{◌≡◌, ◌+◌, ◌*◌, ◌<◌, ◌≤◌, ℕ, ℤ, List, None, Some, true, slice_index, refl};
ghost use Rattle.std.proofs.Common.{◌∙◌, ap};
ghost use Rattle.lbm_space.specs.Limits.{most_directions};
ghost use Rattle.lbm_space.specs.Torus.{IsSpace, cells};
ghost use Rattle.lbm_cell.specs.Rows.{entry};
ghost use Rattle.lbm_walk.specs.First.{IsFirst};
ghost use Rattle.lbm_walk.specs.Places.{local, InRows};
ghost use Rattle.lbm_walk.specs.Walked.{AreTaken};
ghost use Rattle.lbm_sweep.specs.Blocks.{IsTable};
ghost use Rattle.lbm_sweep.specs.Held.{width, BeginAt, IsAlike, IsSameBut, IsWithin};
ghost use Rattle.lbm_sweep.specs.Laws.{alike_but, alike_on, alike_self, same_but, same_run_on};
ghost use Rattle.lbm_sweep.specs.Slabs.{InColumns, IsSlab, Ranges};

use crate::{SlabCall, Slots, Taking, first_slots};
use lbm_arrays::Loan;
use lbm_space::VelocitySet;
use lbm_walk::{Kernel, Rows, Walk, collide_apart, collide_slab};
use std::marker::PhantomData;

/// The cells of all rows of a slab collide: each takes its populations as told and passes the rule, and what it sends in
/// direction i goes to its own place in the range of array `writes[i]`. The answer is the first cell out of limits.
#[inline(always)]
pub fn collide_taking<V: VelocitySet, K: Kernel<V>, T: Taking<V>>(
    kernel: &K,
    taking: &T,
    call: &SlabCall<'_>,
    loan: &mut Loan<'_>,
) -> Option<u32>
    requires space { IsSpace call.now.space.now }
    requires cells { K.cells kernel.now ≡ cells call.now.space.now }
    requires few { V.stencil.directions ≤ most_directions }
    requires table { IsTable V.stencil.directions call.now.writes.now }
    requires slab { IsSlab call.now.space.now V.stencil.directions loan.old.rows loan.old.ranges }
    requires fitting { T.fits taking.now call.now.writes.now loan.old }
    requires small { (i x : ℕ) → i < V.stencil.directions → InRows call.now.space.now loan.old.rows x → K.small kernel.now x (T.taken taking.now loan.old i (local call.now.space.now loan.old.rows x)) }
    ensures done { (before : ℕ × ℕ → Ranges → ℕ → ℕ → ℤ) → ((i x : ℕ) → i < V.stencil.directions → InRows call.now.space.now loan.old.rows x → T.taken taking.now loan.old i (local call.now.space.now loan.old.rows x) ≡ before loan.old.rows loan.old.ranges x i) → InColumns (K.sound kernel.now) (K.post kernel.now) V.stencil.directions before call.now.writes.now call.now.space.now loan.old.rows (loan.old.rows.0 * call.now.space.now.nx) (loan.old.rows.1 * call.now.space.now.nx) loan.old.ranges loan.new.ranges result }
    ensures rows { loan.new.rows ≡ loan.old.rows }
    ensures place { loan.new.place ≡ loan.old.place }
{
    let rows = loan.rows();
    let to = first_slots(loan, call.writes);
    let mut walk = SlabRows::<V, T> {
        set: PhantomData,
        taking,
        loan,
        writes: call.writes,
        to: &to,
        at: 1,
        n: 1,
    };
    collide_slab::<V, K, SlabRows<'_, '_, '_, '_, '_, V, T>>(kernel, &mut walk, call.space, rows)
}

// The rows of cells that take their populations as told and put what they send in direction i into the range of array
// `writes[i]` of a loan, at their own places.
#[derive(Drop)]
struct SlabRows<'t, 'l, 'b, 'w, 'o, V: VelocitySet, T: Taking<V>> {
    set: PhantomData<V>,
    taking: &'t T,
    loan: &'l mut Loan<'b>,
    writes: &'w [usize],
    // the slots at which the ranges of these arrays begin
    to: &'o Slots,
    at: u32,
    n: u32,
    ghost within: { IsWithin V.stencil.directions loan.now.ranges at n },
    ghost table: { IsTable V.stencil.directions writes.now },
    ghost begins: { BeginAt V.stencil.directions loan.now.place writes.now to.now },
    ghost fitting: { T.fits taking.now writes.now loan.now } by { T.fits_once taking.now writes.now loan.now },
}

impl<V: VelocitySet, T: Taking<V>> Rows<V> for SlabRows<'_, '_, '_, '_, '_, V, T> {
    ghost count = { λ w. w.n };

    ghost there = { λ w i j. T.taken w.taking.now w.loan.now i (w.at + j) };

    ghost sent = { λ w i j. entry w.loan.now.ranges (slice_index w.writes.now i) (w.at + j) };

    ghost kept = { λ a b. (b.loan.ghost_name ≡ a.loan.ghost_name) × (b.taking.now ≡ a.taking.now) × (b.writes.now ≡ a.writes.now) × (b.at ≡ a.at) × (b.n ≡ a.n) × IsSameBut a.at (a.at + a.n) a.loan.now b.loan.now };

    #[inline(always)]
    fn count(&self) -> u32 {
        self.n
    }

    #[inline(always)]
    fn take(&self, dir: usize) -> [i64; 8] {
        self.taking.take(self.loan, dir, self.at, self.n)
    }

    #[inline(always)]
    fn sent(&self, dir: usize) -> [i64; 8] {
        self.loan.load_at(self.to[dir], self.at, self.n)
    }

    #[inline(always)]
    fn put(&mut self, dir: usize, lanes: [i64; 8]) {
        self.loan.store_at(self.to[dir], self.at, self.n, lanes);
    }

    ghost kept_same = { λ r. (refl, refl, refl, refl, refl, same_but r.at (r.at + r.n) r.loan.now) };

    ghost kept_on = { λ a b c x y. (y.0 ∙ x.0, y.1 ∙ x.1, y.2 ∙ x.2, y.3 ∙ x.3, y.4 ∙ x.4, same_run_on a.at a.n b.at b.n a.loan.now b.loan.now c.loan.now x.3 x.4 x.5 y.5) };
}

impl<V: VelocitySet, T: Taking<V>> Walk<V> for SlabRows<'_, '_, '_, '_, '_, V, T> {
    ghost RISES = { T.RISES };

    ghost places = { λ w. width w.loan.now.ranges };

    ghost place = { λ w. w.at };

    ghost before = { λ w i p. T.taken w.taking.now w.loan.now i p };

    ghost after = { λ w i p. entry w.loan.now.ranges (slice_index w.writes.now i) p };

    ghost holds = { λ w k p. entry w.loan.now.ranges k p };

    ghost same = { λ a b. (b.loan.ghost_name ≡ a.loan.ghost_name) × (b.taking.now ≡ a.taking.now) × (b.writes.now ≡ a.writes.now) × IsAlike a.loan.now b.loan.now };

    #[inline(always)]
    fn rises() -> bool
        ensures { result ≡ T.RISES }
    {
        T::rises()
    }

    #[inline(always)]
    fn seek(&mut self, at: u32, n: u32) {
        self.at = at;
        self.n = n;
    }

    #[inline(always)]
    fn collide_by<K: Kernel<V>>(&mut self, kernel: &K, cell: u32) -> Option<u32> {
        if self.n == 8 && self.taking.is_clear(self.at) {
            return collide_clear(
                kernel,
                cell,
                self.taking,
                self.loan,
                self.writes,
                self.to,
                self.at,
            );
        }
        collide_apart(kernel, cell, self)
    }

    ghost there_is = { λ w i j. refl };

    ghost sent_is = { λ w i j. refl };

    ghost kept_before = { λ a b k i p known past. ap (λ (t : T). T.taken t b.loan.now i p) k.1 ∙ T.still_pending a.taking.now a.loan.now b.loan.now a.at a.n i p k.5 past };

    ghost kept_after = { λ a b k i p known off. ap (λ (l : List ℕ). entry b.loan.now.ranges (slice_index l i) p) k.2 ∙ k.5.others (slice_index a.writes.now i) p off };

    ghost kept_holds = { λ a b k d p off. k.5.others d p off };

    ghost kept_place = { λ a b k. k.3 };

    ghost kept_places = { λ a b k. k.5.wide };

    ghost kept_is_same = { λ a b k. (k.0, k.1, k.2, alike_but a.at (a.at + a.n) a.loan.now b.loan.now k.5) };

    ghost same_as_self = { λ a. (refl, refl, refl, alike_self a.loan.now) };

    ghost same_on = { λ a b c x y. (y.0 ∙ x.0, y.1 ∙ x.1, y.2 ∙ x.2, alike_on a.loan.now b.loan.now c.loan.now x.3 y.3) };
}

// Eight cells that are clear: what they take and put has no test.
#[derive(Drop)]
struct ClearRows<'t, 'l, 'b, 'w, 'o, V: VelocitySet, T: Taking<V>> {
    set: PhantomData<V>,
    taking: &'t T,
    loan: &'l mut Loan<'b>,
    writes: &'w [usize],
    to: &'o Slots,
    at: u32,
    ghost within: { IsWithin V.stencil.directions loan.now.ranges at 8 },
    ghost table: { IsTable V.stencil.directions writes.now },
    ghost begins: { BeginAt V.stencil.directions loan.now.place writes.now to.now },
    ghost fitting: { T.fits taking.now writes.now loan.now } by { T.fits_once taking.now writes.now loan.now },
    ghost clear: { T.clear taking.now at ≡ true },
}

impl<V: VelocitySet, T: Taking<V>> Rows<V> for ClearRows<'_, '_, '_, '_, '_, V, T> {
    ghost count = { λ w. 8 };

    ghost there = { λ w i j. T.taken w.taking.now w.loan.now i (w.at + j) };

    ghost sent = { λ w i j. entry w.loan.now.ranges (slice_index w.writes.now i) (w.at + j) };

    ghost kept = { λ a b. (b.loan.ghost_name ≡ a.loan.ghost_name) × (b.taking.now ≡ a.taking.now) × (b.writes.now ≡ a.writes.now) × (b.at ≡ a.at) × IsSameBut a.at (a.at + 8) a.loan.now b.loan.now };

    #[inline(always)]
    fn count(&self) -> u32 {
        8
    }

    #[inline(always)]
    fn take(&self, dir: usize) -> [i64; 8] {
        self.taking.take_clear(self.loan, dir, self.at)
    }

    #[inline(always)]
    fn sent(&self, dir: usize) -> [i64; 8] {
        self.loan.load_block(self.to[dir], self.at)
    }

    #[inline(always)]
    fn put(&mut self, dir: usize, lanes: [i64; 8]) {
        self.loan.store_block(self.to[dir], self.at, lanes);
    }

    ghost kept_same = { λ r. (refl, refl, refl, refl, same_but r.at (r.at + 8) r.loan.now) };

    ghost kept_on = { λ a b c x y. (y.0 ∙ x.0, y.1 ∙ x.1, y.2 ∙ x.2, y.3 ∙ x.3, same_run_on a.at 8 b.at 8 a.loan.now b.loan.now c.loan.now x.3 refl x.4 y.4) };
}

// What a kernel makes of the eight cells from place `at` on, which are clear.
#[inline(always)]
fn collide_clear<V: VelocitySet, K: Kernel<V>, T: Taking<V>>(
    kernel: &K,
    cell: u32,
    taking: &T,
    loan: &mut Loan<'_>,
    writes: &[usize],
    to: &Slots,
    at: u32,
) -> Option<u32>
    requires within { IsWithin V.stencil.directions loan.old.ranges at 8 }
    requires table { IsTable V.stencil.directions writes.now }
    requires begins { BeginAt V.stencil.directions loan.old.place writes.now to.now }
    requires fitting { T.fits taking.now writes.now loan.old }
    requires clear { T.clear taking.now at ≡ true }
    requires known { cell + 8 ≤ K.cells kernel.now }
    requires small { (i j : ℕ) → i < V.stencil.directions → j < 8 → K.small kernel.now (cell + j) (T.taken taking.now loan.old i (at + j)) }
    ensures first { (f : ℕ → ℕ → ℤ) → AreTaken V.stencil.directions 8 f (λ i j. T.taken taking.now loan.old i (at + j)) → IsFirst (λ j. K.sound kernel.now (cell + j) (f j)) 0 8 result }
    ensures post { (f : ℕ → ℕ → ℤ) → AreTaken V.stencil.directions 8 f (λ i j. T.taken taking.now loan.old i (at + j)) → result ≡ None → (i j : ℕ) → i < V.stencil.directions → j < 8 → entry loan.new.ranges (slice_index writes.now i) (at + j) ≡ K.post kernel.now (cell + j) (f j) i }
    ensures stopped { (k : ℕ) → result ≡ Some k → loan.new ≡ loan.old }
    ensures but { IsSameBut at (at + 8) loan.old loan.new }
{
    let mut rows = ClearRows::<V, T> {
        set: PhantomData,
        taking,
        loan,
        writes,
        to,
        at,
    };
    kernel.collide(cell, &mut rows)
}
