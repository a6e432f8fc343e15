//! The collision of a pair of opposite directions of eight cells.

ghost use Rattle.std.specs.Prelude.{◌≡◌, ◌<◌, ◌≤◌, ◌+◌, ◌*◌, ◌/◌, ◌^◌, ℕ, ℤ, pos, ◌+ℤ◌, ◌-ℤ◌, ◌*ℤ◌, ◌≤ℤ◌, true, if◌then◌else◌, FitsSigned, slice_index, nat_lt, unsigned_abs};
ghost use Rattle.std.specs.Int.{w64};
ghost use Rattle.lbm_space.specs.Stencil.{weight, opposite};
ghost use Rattle.lbm_cell.specs.Collision.{IsForce, IsRates};
ghost use Rattle.lbm_lanes.specs.Cells.{IsReady, is_on, moved, settled};
ghost use Rattle.lbm_lanes.specs.Lanes.{entry};
ghost use Rattle.lbm_lanes.specs.Pairs.{IsDivisor, IsOne};

use crate::fluid::{Flags, Fluid, kept};
use crate::pair::{Pair, relaxed_pair};
use crate::quotient::Divisor;
use crate::signed::{natural, picked, plus, signed};
use lbm_cell::Rates;
use lbm_cell::collision::push;
use lbm_space::VelocitySet;
use std::simd::prelude::*;

/// What a run has for all cells: the rates, the force, and the number by which each direction is divided.
#[derive(Clone, Copy)]
pub(crate) struct Run {
    pub(crate) rates: Rates,
    pub(crate) force: [i64; 3],
    pub(crate) divisor: Divisor,
}

#[inline(always)]
fn unsigned(x: i64) -> u64
    requires { pos 0 ≤ℤ x }
    ensures { x ≡ pos result }
{
    x as u64
}

// The pair of direction `i`.
#[inline(always)]
fn pair_of<V: VelocitySet>(r: Rates, i: usize) -> Pair
    requires known { i < V.stencil.directions }
    ensures weight { weight V.stencil i ≡ pos result.weight }
    ensures denominator { V.stencil.denominator ≡ pos result.denominator }
    ensures p { r.p ≡ pos result.p }
    ensures m { r.m ≡ pos result.m }
    ensures q { r.q ≡ pos result.q }
    ensures light { result.weight ≤ 216 }
    ensures small { result.denominator ≤ 216 }
    ensures p_at_most { result.p ≤ 1024 }
    ensures m_at_most { result.m ≤ 1024 }
    ensures q_at_most { result.q ≤ 1024 }
    ensures rates { IsRates r }
{
    Pair {
        weight: unsigned(V::w(i)),
        denominator: unsigned(V::DEN),
        p: unsigned(r.p()),
        m: unsigned(r.m()),
        q: unsigned(r.q()),
    }
}

// Whether the rates are one.
pub(crate) fn is_one(r: Rates) -> bool
    ensures p { result ≡ true → r.p ≡ pos 1 }
    ensures m { result ≡ true → r.m ≡ pos 1 }
    ensures q { result ≡ true → r.q ≡ pos 1 }
{
    r.p() == 1 && r.m() == 1 && r.q() == 1
}

// The number by which each direction is divided.
pub(crate) fn divisor<V: VelocitySet>(r: Rates) -> Divisor
    ensures prepared { IsDivisor result.d result.shift result.reciprocal }
    ensures value { pos result.d ≡ pos 2 *ℤ (V.stencil.denominator *ℤ r.q) }
{
    Divisor::new(2 * (unsigned(V::DEN) * unsigned(r.q())))
}

// Numbers that are given raised by 2^23, and a push.
#[inline(always)]
fn lowered(raised: u64x8, push: i64) -> [i64; 8]
    requires small { (l : ℕ) → l < 8 → slice_index raised l < 33554432 }
    requires push { unsigned_abs push ≤ 663552 }
    ensures { (l : ℕ) → l < 8 → entry result l ≡ pos (slice_index raised l) -ℤ pos 8388608 +ℤ push }
{
    plus(signed(raised), [push - 8388608; 8])
}

// What lanes become: where they collide the first, where they turn back those of the opposite direction, and else their own.
#[inline(always)]
fn settle<const MIXED: bool>(
    flags: &Flags,
    moved: [i64; 8],
    own: [i64; 8],
    other: [i64; 8],
) -> [i64; 8]
    requires moved { (l : ℕ) → l < 8 → FitsSigned w64 (entry moved l) }
    requires own { (l : ℕ) → l < 8 → FitsSigned w64 (entry own l) }
    requires other { (l : ℕ) → l < 8 → FitsSigned w64 (entry other l) }
    ensures { (l : ℕ) → l < 8 → entry result l ≡ (if is_on MIXED (slice_index flags.now.colliding l) then entry moved l else (if nat_lt 0 (slice_index flags.now.turning l) then entry other l else entry own l)) }
{
    if MIXED {
        let still = picked(flags.turning, other, own);
        picked(flags.colliding, moved, still)
    } else {
        moved
    }
}

// What the populations `f` of direction `i`, and `o` of its opposite, become where lanes collide.
#[inline(always)]
fn moved_pair<V: VelocitySet, const MIXED: bool, const ONE: bool>(
    f: [i64; 8],
    o: [i64; 8],
    fluid: &Fluid,
    run: &Run,
    i: usize,
) -> ([i64; 8], [i64; 8])
    requires moving { 0 < i }
    requires known { i < V.stencil.directions }
    requires force { IsForce run.now.force }
    requires prepared { IsDivisor run.now.divisor.d run.now.divisor.shift run.now.divisor.reciprocal }
    requires divisor { pos run.now.divisor.d ≡ pos 2 *ℤ (V.stencil.denominator *ℤ run.now.rates.q) }
    requires ones { ONE ≡ true → IsOne run.now.rates }
    requires ready { (l : ℕ) → l < 8 → (h : ℕ → ℤ) × IsReady V.stencil (is_on MIXED (slice_index fluid.now.flags.colliding l)) (slice_index fluid.now.cells.rho l) (slice_index fluid.now.cells.reciprocal l) (slice_index fluid.now.cells.base l) (slice_index fluid.now.x l) (slice_index fluid.now.y l) (slice_index fluid.now.z l) h × (h i ≡ entry f l) × (h (opposite V.stencil i) ≡ entry o l) }
    requires small { (l : ℕ) → l < 8 → unsigned_abs (entry f l) ≤ 2147483648 }
    requires small_opposite { (l : ℕ) → l < 8 → unsigned_abs (entry o l) ≤ 2147483648 }
    ensures ahead { (l : ℕ) (h : ℕ → ℤ) → l < 8 → IsReady V.stencil (is_on MIXED (slice_index fluid.now.flags.colliding l)) (slice_index fluid.now.cells.rho l) (slice_index fluid.now.cells.reciprocal l) (slice_index fluid.now.cells.base l) (slice_index fluid.now.x l) (slice_index fluid.now.y l) (slice_index fluid.now.z l) h → h i ≡ entry f l → h (opposite V.stencil i) ≡ entry o l → is_on MIXED (slice_index fluid.now.flags.colliding l) ≡ true → entry result.0 l ≡ moved V.stencil run.now.rates run.now.force h i }
    ensures behind { (l : ℕ) (h : ℕ → ℤ) → l < 8 → IsReady V.stencil (is_on MIXED (slice_index fluid.now.flags.colliding l)) (slice_index fluid.now.cells.rho l) (slice_index fluid.now.cells.reciprocal l) (slice_index fluid.now.cells.base l) (slice_index fluid.now.x l) (slice_index fluid.now.y l) (slice_index fluid.now.z l) h → h i ≡ entry f l → h (opposite V.stencil i) ≡ entry o l → is_on MIXED (slice_index fluid.now.flags.colliding l) ≡ true → entry result.1 l ≡ moved V.stencil run.now.rates run.now.force h (opposite V.stencil i) }
    ensures ahead_size { (l : ℕ) → l < 8 → unsigned_abs (entry result.0 l) ≤ 4294967296 }
    ensures behind_size { (l : ℕ) → l < 8 → unsigned_abs (entry result.1 l) ≤ 4294967296 }
{
    let raised = fluid.along(&V::c(i));
    let held = kept::<MIXED>(fluid.flags.colliding, f, [0; 8]);
    let held_opposite = kept::<MIXED>(fluid.flags.colliding, o, [0; 8]);
    let ahead = natural(held);
    let behind = natural(held_opposite);
    let pair = pair_of::<V>(run.rates, i);
    let (more, less) = relaxed_pair::<ONE>(
        &pair,
        &run.divisor,
        &fluid.cells,
        raised,
        ahead,
        behind,
    );
    let first = lowered(more, push::<V>(&run.force, i));
    let second = lowered(less, push::<V>(&run.force, V::opp(i)));
    (first, second)
}

/// What the populations `f` of direction `i`, and `o` of its opposite, become.
#[inline(always)]
pub(crate) fn settled_pair<V: VelocitySet, const MIXED: bool, const ONE: bool>(
    f: [i64; 8],
    o: [i64; 8],
    fluid: &Fluid,
    run: &Run,
    i: usize,
) -> ([i64; 8], [i64; 8])
    requires moving { 0 < i }
    requires known { i < V.stencil.directions }
    requires force { IsForce run.now.force }
    requires prepared { IsDivisor run.now.divisor.d run.now.divisor.shift run.now.divisor.reciprocal }
    requires divisor { pos run.now.divisor.d ≡ pos 2 *ℤ (V.stencil.denominator *ℤ run.now.rates.q) }
    requires ones { ONE ≡ true → IsOne run.now.rates }
    requires ready { (l : ℕ) → l < 8 → (h : ℕ → ℤ) × IsReady V.stencil (is_on MIXED (slice_index fluid.now.flags.colliding l)) (slice_index fluid.now.cells.rho l) (slice_index fluid.now.cells.reciprocal l) (slice_index fluid.now.cells.base l) (slice_index fluid.now.x l) (slice_index fluid.now.y l) (slice_index fluid.now.z l) h × (h i ≡ entry f l) × (h (opposite V.stencil i) ≡ entry o l) }
    requires small { (l : ℕ) → l < 8 → unsigned_abs (entry f l) ≤ 2147483648 }
    requires small_opposite { (l : ℕ) → l < 8 → unsigned_abs (entry o l) ≤ 2147483648 }
    ensures ahead { (l : ℕ) (h : ℕ → ℤ) → l < 8 → IsReady V.stencil (is_on MIXED (slice_index fluid.now.flags.colliding l)) (slice_index fluid.now.cells.rho l) (slice_index fluid.now.cells.reciprocal l) (slice_index fluid.now.cells.base l) (slice_index fluid.now.x l) (slice_index fluid.now.y l) (slice_index fluid.now.z l) h → h i ≡ entry f l → h (opposite V.stencil i) ≡ entry o l → entry result.0 l ≡ settled V.stencil run.now.rates run.now.force (is_on MIXED (slice_index fluid.now.flags.colliding l)) (nat_lt 0 (slice_index fluid.now.flags.turning l)) h i }
    ensures behind { (l : ℕ) (h : ℕ → ℤ) → l < 8 → IsReady V.stencil (is_on MIXED (slice_index fluid.now.flags.colliding l)) (slice_index fluid.now.cells.rho l) (slice_index fluid.now.cells.reciprocal l) (slice_index fluid.now.cells.base l) (slice_index fluid.now.x l) (slice_index fluid.now.y l) (slice_index fluid.now.z l) h → h i ≡ entry f l → h (opposite V.stencil i) ≡ entry o l → entry result.1 l ≡ settled V.stencil run.now.rates run.now.force (is_on MIXED (slice_index fluid.now.flags.colliding l)) (nat_lt 0 (slice_index fluid.now.flags.turning l)) h (opposite V.stencil i) }
    ensures ahead_size { (l : ℕ) → l < 8 → unsigned_abs (entry result.0 l) ≤ 4294967296 }
    ensures behind_size { (l : ℕ) → l < 8 → unsigned_abs (entry result.1 l) ≤ 4294967296 }
{
    let (first, second) = moved_pair::<V, MIXED, ONE>(f, o, fluid, run, i);
    let ahead = settle::<MIXED>(&fluid.flags, first, f, o);
    let behind = settle::<MIXED>(&fluid.flags, second, o, f);
    (ahead, behind)
}
