//! Who works on the slabs. A pattern starts no thread: it hands its passes to a crew.

ghost use Rattle.std.specs.Prelude.{◌≡◌, ℕ, ◌*◌, ◌<◌, ◌≤◌, ℤ, List, Option, length};
ghost use Rattle.arrayvec.specs.ArrayVec.{array_vec_len};
ghost use Rattle.lbm_space.specs.Torus.{padded, rows as row_count};
ghost use Rattle.lbm_space.specs.Cuttings.{slabs_of, rows_of};
ghost use Rattle.lbm_model.specs.Case.{FlowCase};
ghost use Rattle.lbm_arrays.specs.Arrays.{IsRegion, held, array_size};
ghost use Rattle.lbm_arrays.specs.LentRanges.{lent, slab_rows, AreInside, AreLent, IsLent, IsForked};

use crate::{Loan, PieceWork, Region, Shifts};
use lbm_model::Case;
use lbm_space::{Cutting, Space};
use std::alloc::Allocator;
use std::marker::Sync;

/// What every piece of a pass is handed: the case, and the numbers and places that are read.
#[derive(Drop)]
pub struct Inputs<'a> {
    pub case: &'a Case,
    pub read: &'a [i64],
    pub places: &'a [u32],
}

/// What a step does with each slab's loan. It owns what it needs, and so names no lifetime; what is large it is handed as
/// inputs. Whether threads may share it is asked where they do.
pub trait Pass: Drop {
    /// What holds of the case, of what is read, of the piece's number, of its rows and of what its ranges hold before the call.
    ghost ready: { Self → FlowCase → List ℤ → List ℕ → ℕ → ℕ × ℕ → List (List ℤ) → Type 0 };

    /// What holds of these, of the answer, and of what the ranges hold after the call.
    ghost does: { Self → FlowCase → List ℤ → List ℕ → ℕ → ℕ × ℕ → List (List ℤ) → Option ℕ → List (List ℤ) → Type 0 };

    /// Does the work of piece number `piece` on its loan.
    fn run(&self, inputs: &Inputs<'_>, piece: u32, loan: &mut Loan<'_>) -> Option<u32>
        requires { ready self.now inputs.now.case.now inputs.now.read.now inputs.now.places.now piece loan.old.rows loan.old.ranges }
        ensures does { does self.now inputs.now.case.now inputs.now.read.now inputs.now.places.now piece loan.old.rows loan.old.ranges result loan.new.ranges }
        ensures rows { loan.new.rows ≡ loan.old.rows }
        ensures place { loan.new.place ≡ loan.old.place };
}

/// A pass with what its pieces are handed.
#[derive(Drop)]
pub struct Viewed<'a, P> {
    pub pass: &'a P,
    pub inputs: &'a Inputs<'a>,
}

impl<P: Pass + Sync> PieceWork for Viewed<'_, P> {
    ghost ready = { λ w piece rows ranges. P.ready w.pass.now w.inputs.now.case.now w.inputs.now.read.now w.inputs.now.places.now piece rows ranges };

    ghost does = { λ w piece rows old answer new. P.does w.pass.now w.inputs.now.case.now w.inputs.now.read.now w.inputs.now.places.now piece rows old answer new };

    fn run(&self, piece: u32, loan: &mut Loan<'_>) -> Option<u32> {
        self.pass.run(self.inputs, piece, loan)
    }
}

/// Which ranges of some arrays are lent: the arrays' space, how many slots each has beside the padded places, and how far
/// its range is moved.
#[derive(Drop)]
pub struct Lending {
    pub space: Space,
    pub margin: u32,
    pub shifts: Shifts,
}

/// Runs a pass on each slab of some arrays, the slabs beside each other, each past a gate where that is asked.
pub trait Forks<P: Pass> {
    /// That it does so.
    ghost forks: { Self → Type 0 };

    /// The answer is the least answer of the pieces. Only slots in the slabs' ranges change.
    fn fork(
        &self,
        pass: P,
        gated: bool,
        inputs: &Inputs<'_>,
        slots: &mut [i64],
        lending: &Lending,
        cut: &Cutting,
    ) -> Option<u32>
        requires able { forks self.now }
        requires margin { lending.now.margin ≤ padded lending.now.space }
        requires sized { length slots.old ≡ array_vec_len lending.now.shifts * array_size lending.now.space lending.now.margin }
        requires inside { AreInside lending.now.space lending.now.margin lending.now.shifts.items }
        requires cutting { rows_of cut.now ≡ row_count lending.now.space }
        requires ready { (k : ℕ) → k < slabs_of cut.now → P.ready pass inputs.now.case.now inputs.now.read.now inputs.now.places.now k (slab_rows cut.now k) (lent lending.now.space lending.now.margin lending.now.shifts.items (slab_rows cut.now k) slots.old) }
        ensures did { IsForked (P.does pass inputs.now.case.now inputs.now.read.now inputs.now.places.now) lending.now.space lending.now.margin lending.now.shifts.items cut.now slots.old slots.new result }
        ensures others { (s : ℕ) → ((k : ℕ) → k < length lending.now.shifts.items → IsLent lending.now.space lending.now.margin lending.now.shifts.items k 0 (row_count lending.now.space) s → ⊥) → held slots.new s ≡ held slots.old s }
        ensures ranges { AreLent lending.now.space lending.now.margin lending.now.shifts.items cut.now };
}

/// A crew that is a closure.
#[derive(Drop)]
pub struct Hands<F> {
    pub fork: F,
}

impl<P: Pass, F: Fn(P, bool, &Inputs<'_>, &mut [i64], &Lending, &Cutting) -> Option<u32>> Forks<P>
    for Hands<F> {
    ghost forks = { λ h. ((w gated inputs slots lending cut : _) → lending.now.margin ≤ padded lending.now.space → length slots.now ≡ array_vec_len lending.now.shifts * array_size lending.now.space lending.now.margin → AreInside lending.now.space lending.now.margin lending.now.shifts.items → rows_of cut.now ≡ row_count lending.now.space → ((k : ℕ) → k < slabs_of cut.now → P.ready w inputs.now.case.now inputs.now.read.now inputs.now.places.now k (slab_rows cut.now k) (lent lending.now.space lending.now.margin lending.now.shifts.items (slab_rows cut.now k) slots.now)) → F.pre h.fork w gated inputs slots lending cut) × ((w gated inputs slots lending cut answer end : _) → F.post h.fork w gated inputs slots lending cut answer end → IsForked (P.does w inputs.now.case.now inputs.now.read.now inputs.now.places.now) lending.now.space lending.now.margin lending.now.shifts.items cut.now slots.now end.now answer × ((s : ℕ) → ((k : ℕ) → k < length lending.now.shifts.items → IsLent lending.now.space lending.now.margin lending.now.shifts.items k 0 (row_count lending.now.space) s → ⊥) → held end.now s ≡ held slots.now s) × AreLent lending.now.space lending.now.margin lending.now.shifts.items cut.now) };

    fn fork(
        &self,
        pass: P,
        gated: bool,
        inputs: &Inputs<'_>,
        slots: &mut [i64],
        lending: &Lending,
        cut: &Cutting,
    ) -> Option<u32> {
        (self.fork)(pass, gated, inputs, slots, lending, cut)
    }
}

/// Runs a pass on each slab of a region by a crew.
///
/// The answer is the least answer of the pieces. Only slots in the slabs' ranges change.
pub fn fork_by<A: Allocator, P: Pass, C: Forks<P>>(
    crew: &C,
    region: &mut Region<A>,
    pass: P,
    gated: bool,
    inputs: &Inputs<'_>,
    shifts: Shifts,
    cut: &Cutting,
) -> Option<u32>
    requires able { C.forks crew.now }
    requires count { array_vec_len shifts ≡ region.old.count }
    requires inside { AreInside region.old.space region.old.margin shifts.items }
    requires cutting { rows_of cut.now ≡ row_count region.old.space }
    requires ready { (k : ℕ) → k < slabs_of cut.now → P.ready pass inputs.now.case.now inputs.now.read.now inputs.now.places.now k (slab_rows cut.now k) (lent region.old.space region.old.margin shifts.items (slab_rows cut.now k) region.old.slots) }
    ensures did { IsForked (P.does pass inputs.now.case.now inputs.now.read.now inputs.now.places.now) region.old.space region.old.margin shifts.items cut.now region.old.slots region.new.slots result }
    ensures others { (s : ℕ) → ((k : ℕ) → k < length shifts.items → IsLent region.old.space region.old.margin shifts.items k 0 (row_count region.old.space) s → ⊥) → held region.new.slots s ≡ held region.old.slots s }
    ensures same { region.new ≡ record region.old { slots = region.new.slots } }
    ensures valid { IsRegion region.new }
    ensures ranges { AreLent region.old.space region.old.margin shifts.items cut.now }
{
    let lending = Lending {
        space: region.space,
        margin: region.margin,
        shifts,
    };
    let slots = region.slots.as_mut_slice();
    crew.fork(pass, gated, inputs, slots, &lending, cut)
}
