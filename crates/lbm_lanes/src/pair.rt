//! A pair of opposite directions of eight cells in step.

ghost use Rattle.std.specs.Prelude.{◌≡◌, ◌<◌, ◌≤◌, ◌^◌, ◌+◌, ◌-◌, ◌*◌, ◌/◌, ℕ, pos, ◌+ℤ◌, ◌-ℤ◌, slice_index, true};
ghost use Rattle.lbm_lanes.specs.Pairs.{above, below, balance, change, IsDivisor, IsLane, IsShared};

use crate::quotient::{Divisor, by_density, by_written, near_by_density, small_by_density};
use crate::vectors::{all, difference, multiple, narrow_multiple, product, sum};
use std::simd::prelude::*;

// The square of a number that is given raised by 2^23.
#[inline(always)]
pub(crate) fn square(raised: u64x8) -> u64x8
    requires { (l : ℕ) → l < 8 → slice_index raised l ≤ 16777216 }
    ensures { (l : ℕ) → l < 8 → slice_index result l + 16777216 * slice_index raised l ≡ slice_index raised l * slice_index raised l + 70368744177664 }
{
    let turned = difference(all(16777216), raised);
    let both = product(raised, turned);
    difference(all(70368744177664), both)
}

// even y / rho, rounded down: a guess of y / rho and what it leaves are multiplied apart.
#[inline(always)]
fn shared(even: u64, y: u64x8, rho: u64x8, reciprocal: u64x8) -> u64x8
    requires few { even ≤ 221184 }
    requires not_thin { (l : ℕ) → l < 8 → 442368 ≤ slice_index rho l }
    requires not_dense { (l : ℕ) → l < 8 → slice_index rho l ≤ 1769472 }
    requires reciprocal { (l : ℕ) → l < 8 → slice_index reciprocal l ≡ 562949953421312 / slice_index rho l }
    requires small { (l : ℕ) → l < 8 → slice_index y l ≤ 92 * (slice_index rho l * slice_index rho l) }
    ensures small { (l : ℕ) → l < 8 → slice_index result l < 2 ^ 46 }
    ensures value { (l : ℕ) → l < 8 → slice_index result l ≡ even * (slice_index y l / slice_index rho l) + even * (slice_index y l - slice_index y l / slice_index rho l * slice_index rho l) / slice_index rho l }
{
    let guess = near_by_density(y, rho, reciprocal);
    let taken = product(guess, rho);
    let rest = difference(y, taken);
    let spread = product(all(even), rest);
    let part = small_by_density(spread, rho, reciprocal);
    let whole = product(all(even), guess);
    sum(whole, part)
}

/// What a pair has for all cells: with the weight w over d, and the rates p / q and m / q, these are p w, p d,
/// 6 m w, m d and 2 d q.
#[derive(Clone, Copy)]
pub(crate) struct Factors {
    pub(crate) even: u64,
    pub(crate) mean: u64,
    pub(crate) speed: u64,
    pub(crate) odd: u64,
    pub(crate) divisor: u64,
}

// What is divided by 2 d q, raised by 2^23 of it, for the direction of the populations `f` and for that of their opposites `o`.
#[inline(always)]
fn dividends(
    factors: &Factors,
    shared: u64x8,
    rho: u64x8,
    raised: u64x8,
    f: u64x8,
    o: u64x8,
) -> (u64x8, u64x8)
    requires few_even { factors.now.even ≤ 221184 }
    requires few_mean { factors.now.mean ≤ 221184 }
    requires few_speed { factors.now.speed ≤ 1327104 }
    requires few_odd { factors.now.odd ≤ 221184 }
    requires few_divisor { factors.now.divisor ≤ 442368 }
    requires shared_small { (l : ℕ) → l < 8 → slice_index shared l < 2 ^ 46 }
    requires not_dense { (l : ℕ) → l < 8 → slice_index rho l ≤ 1769472 }
    requires raised_small { (l : ℕ) → l < 8 → slice_index raised l ≤ 16777216 }
    requires f_small { (l : ℕ) → l < 8 → slice_index f l ≤ 1769472 }
    requires o_small { (l : ℕ) → l < 8 → slice_index o l ≤ 1769472 }
    requires held_small { (l : ℕ) → l < 8 → 9 * factors.now.even * slice_index rho l + factors.now.mean * (slice_index f l + slice_index o l) ≤ factors.now.divisor * 8388608 }
    requires ahead_order { (l : ℕ) → l < 8 → below factors.now.even factors.now.mean factors.now.speed factors.now.odd (slice_index rho l) (slice_index f l) (slice_index o l) ≤ above factors.now.speed factors.now.odd factors.now.divisor (slice_index shared l) (slice_index raised l) (slice_index o l) }
    requires behind_order { (l : ℕ) → l < 8 → below factors.now.even factors.now.mean factors.now.speed factors.now.odd (slice_index rho l) (slice_index o l) (slice_index f l) ≤ above factors.now.speed factors.now.odd factors.now.divisor (slice_index shared l) (16777216 - slice_index raised l) (slice_index f l) }
    ensures ahead { (l : ℕ) → l < 8 → slice_index result.0 l ≡ above factors.now.speed factors.now.odd factors.now.divisor (slice_index shared l) (slice_index raised l) (slice_index o l) - below factors.now.even factors.now.mean factors.now.speed factors.now.odd (slice_index rho l) (slice_index f l) (slice_index o l) }
    ensures behind { (l : ℕ) → l < 8 → slice_index result.1 l ≡ above factors.now.speed factors.now.odd factors.now.divisor (slice_index shared l) (16777216 - slice_index raised l) (slice_index f l) - below factors.now.even factors.now.mean factors.now.speed factors.now.odd (slice_index rho l) (slice_index o l) (slice_index f l) }
{
    let both = sum(f, o);
    let dense = product(all(9 * factors.even), rho);
    let mean = product(all(factors.mean), both);
    let held = sum(dense, mean);
    let lifted = sum(shared, all(factors.divisor * 8388608));
    let middle = difference(lifted, held);
    let along = product(all(factors.speed), raised);
    let other = product(all(factors.odd), o);
    let more = sum(along, other);
    let own = product(all(factors.odd), f);
    let less = sum(all(factors.speed * 8388608), own);
    let ahead = difference(sum(middle, more), less);
    let behind = difference(sum(middle, less), more);
    (ahead, behind)
}

/// What a pair has for all cells: its weight over the denominator, and the rates p / q and m / q.
#[derive(Clone, Copy)]
pub(crate) struct Pair {
    pub(crate) weight: u64,
    pub(crate) denominator: u64,
    pub(crate) p: u64,
    pub(crate) m: u64,
    pub(crate) q: u64,
}

impl Pair {
    #[inline(always)]
    fn factors(&self) -> Factors
        requires light { self.now.weight ≤ 216 }
        requires small { self.now.denominator ≤ 216 }
        requires p_at_most { self.now.p ≤ 1024 }
        requires m_at_most { self.now.m ≤ 1024 }
        requires q_at_most { self.now.q ≤ 1024 }
        ensures even { result.even ≡ self.now.p * self.now.weight }
        ensures mean { result.mean ≡ self.now.p * self.now.denominator }
        ensures speed { result.speed ≡ 6 * self.now.m * self.now.weight }
        ensures odd { result.odd ≡ self.now.m * self.now.denominator }
        ensures divisor { result.divisor ≡ 2 * (self.now.denominator * self.now.q) }
        ensures few_even { result.even ≤ 221184 }
        ensures few_mean { result.mean ≤ 221184 }
        ensures few_speed { result.speed ≤ 1327104 }
        ensures few_odd { result.odd ≤ 221184 }
        ensures few_divisor { result.divisor ≤ 442368 }
    {
        Factors {
            even: self.p * self.weight,
            mean: self.p * self.denominator,
            speed: 6 * self.m * self.weight,
            odd: self.m * self.denominator,
            divisor: 2 * (self.denominator * self.q),
        }
    }
}

/// What eight cells have for all pairs: their densities with the reciprocals, and 11 rho^2 less three times the
/// square of the momentum.
#[derive(Clone, Copy)]
pub(crate) struct Cells {
    pub(crate) rho: u64x8,
    pub(crate) reciprocal: u64x8,
    pub(crate) base: u64x8,
}

// base + 9 u^2, for a momentum u along the velocity that is raised by 2^23.
#[inline(always)]
fn numerator(cells: &Cells, raised: u64x8) -> u64x8
    requires not_dense { (l : ℕ) → l < 8 → slice_index cells.now.rho l ≤ 1769472 }
    requires base { (l : ℕ) → l < 8 → slice_index cells.now.base l ≤ 11 * (slice_index cells.now.rho l * slice_index cells.now.rho l) }
    requires forward { (l : ℕ) → l < 8 → slice_index raised l ≤ 8388608 + 3 * slice_index cells.now.rho l }
    requires backward { (l : ℕ) → l < 8 → 8388608 ≤ slice_index raised l + 3 * slice_index cells.now.rho l }
    ensures small { (l : ℕ) → l < 8 → slice_index result l ≤ 92 * (slice_index cells.now.rho l * slice_index cells.now.rho l) }
    ensures value { (l : ℕ) → l < 8 → (square : ℕ) × (square + 16777216 * slice_index raised l ≡ slice_index raised l * slice_index raised l + 70368744177664) × (slice_index result l ≡ slice_index cells.now.base l + 9 * square) }
{
    let turned = difference(all(16777216), raised);
    let both = product(raised, turned);
    let whole = sum(cells.base, all(633318697598976));
    let nine = multiple(9, both);
    difference(whole, nine)
}

// even (base + 9 u^2) / rho, for a momentum u along the velocity that is raised by 2^23.
#[inline(always)]
fn shared_part(even: u64, cells: &Cells, raised: u64x8) -> u64x8
    requires few { even ≤ 221184 }
    requires not_thin { (l : ℕ) → l < 8 → 442368 ≤ slice_index cells.now.rho l }
    requires not_dense { (l : ℕ) → l < 8 → slice_index cells.now.rho l ≤ 1769472 }
    requires reciprocal { (l : ℕ) → l < 8 → slice_index cells.now.reciprocal l ≡ 562949953421312 / slice_index cells.now.rho l }
    requires base { (l : ℕ) → l < 8 → slice_index cells.now.base l ≤ 11 * (slice_index cells.now.rho l * slice_index cells.now.rho l) }
    requires forward { (l : ℕ) → l < 8 → slice_index raised l ≤ 8388608 + 3 * slice_index cells.now.rho l }
    requires backward { (l : ℕ) → l < 8 → 8388608 ≤ slice_index raised l + 3 * slice_index cells.now.rho l }
    ensures small { (l : ℕ) → l < 8 → slice_index result l < 2 ^ 46 }
    ensures value { (l : ℕ) → l < 8 → (square : ℕ) × (y : ℕ) × IsShared even (slice_index cells.now.rho l) (slice_index cells.now.base l) (slice_index raised l) square y (slice_index result l) }
{
    let y = numerator(cells, raised);
    shared(even, y, cells.rho, cells.reciprocal)
}

/// What relaxation adds to the populations `f` of a direction, and to those `o` of its opposite, both raised by 2^23.
/// The momentum along the velocity of the direction is given raised by as much.
#[inline(always)]
pub(crate) fn changes(
    pair: &Pair,
    divisor: &Divisor,
    cells: &Cells,
    raised: u64x8,
    f: u64x8,
    o: u64x8,
) -> (u64x8, u64x8)
    requires light { pair.now.weight ≤ 216 }
    requires small { pair.now.denominator ≤ 216 }
    requires p_at_most { pair.now.p ≤ 1024 }
    requires m_at_most { pair.now.m ≤ 1024 }
    requires q_at_most { pair.now.q ≤ 1024 }
    requires prepared { IsDivisor divisor.now.d divisor.now.shift divisor.now.reciprocal }
    requires divisor { divisor.now.d ≡ 2 * (pair.now.denominator * pair.now.q) }
    requires reciprocal { (l : ℕ) → l < 8 → slice_index cells.now.reciprocal l ≡ 562949953421312 / slice_index cells.now.rho l }
    requires lanes { (l : ℕ) → l < 8 → (n : ℕ) × (own : ℕ) × IsLane pair.now.weight pair.now.denominator pair.now.p pair.now.m pair.now.q n (slice_index cells.now.rho l) own (slice_index cells.now.base l) (slice_index raised l) (slice_index f l) (slice_index o l) }
    ensures ahead_size { (l : ℕ) → l < 8 → slice_index result.0 l < 16777216 }
    ensures behind_size { (l : ℕ) → l < 8 → slice_index result.1 l < 16777216 }
    ensures ahead { (l own : ℕ) → l < 8 → slice_index cells.now.base l + 3 * own ≡ 11 * (slice_index cells.now.rho l * slice_index cells.now.rho l) → pos (slice_index result.0 l) -ℤ pos 8388608 ≡ change pair.now.weight pair.now.denominator pair.now.p pair.now.m pair.now.q (slice_index cells.now.rho l) own (slice_index raised l) (slice_index f l) (slice_index o l) }
    ensures behind { (l own : ℕ) → l < 8 → slice_index cells.now.base l + 3 * own ≡ 11 * (slice_index cells.now.rho l * slice_index cells.now.rho l) → pos (slice_index result.1 l) -ℤ pos 8388608 ≡ change pair.now.weight pair.now.denominator pair.now.p pair.now.m pair.now.q (slice_index cells.now.rho l) own (16777216 - slice_index raised l) (slice_index o l) (slice_index f l) }
{
    let shared = shared_part(pair.p * pair.weight, cells, raised);
    let scales = pair.factors();
    let (more, less) = dividends(&scales, shared, cells.rho, raised, f, o);
    let ahead = divisor.quotient(more);
    let behind = divisor.quotient(less);
    (ahead, behind)
}

// The populations `f` of a direction, and `o` of its opposite, after they have relaxed, both raised by 2^23.
#[inline(always)]
fn changed_pair(
    pair: &Pair,
    divisor: &Divisor,
    cells: &Cells,
    raised: u64x8,
    f: u64x8,
    o: u64x8,
) -> (u64x8, u64x8)
    requires light { pair.now.weight ≤ 216 }
    requires small { pair.now.denominator ≤ 216 }
    requires p_at_most { pair.now.p ≤ 1024 }
    requires m_at_most { pair.now.m ≤ 1024 }
    requires q_at_most { pair.now.q ≤ 1024 }
    requires prepared { IsDivisor divisor.now.d divisor.now.shift divisor.now.reciprocal }
    requires divisor { divisor.now.d ≡ 2 * (pair.now.denominator * pair.now.q) }
    requires reciprocal { (l : ℕ) → l < 8 → slice_index cells.now.reciprocal l ≡ 562949953421312 / slice_index cells.now.rho l }
    requires lanes { (l : ℕ) → l < 8 → (n : ℕ) × (own : ℕ) × IsLane pair.now.weight pair.now.denominator pair.now.p pair.now.m pair.now.q n (slice_index cells.now.rho l) own (slice_index cells.now.base l) (slice_index raised l) (slice_index f l) (slice_index o l) }
    ensures ahead_size { (l : ℕ) → l < 8 → slice_index result.0 l < 33554432 }
    ensures behind_size { (l : ℕ) → l < 8 → slice_index result.1 l < 33554432 }
    ensures ahead { (l own : ℕ) → l < 8 → slice_index cells.now.base l + 3 * own ≡ 11 * (slice_index cells.now.rho l * slice_index cells.now.rho l) → pos (slice_index result.0 l) -ℤ pos 8388608 ≡ pos (slice_index f l) +ℤ change pair.now.weight pair.now.denominator pair.now.p pair.now.m pair.now.q (slice_index cells.now.rho l) own (slice_index raised l) (slice_index f l) (slice_index o l) }
    ensures behind { (l own : ℕ) → l < 8 → slice_index cells.now.base l + 3 * own ≡ 11 * (slice_index cells.now.rho l * slice_index cells.now.rho l) → pos (slice_index result.1 l) -ℤ pos 8388608 ≡ pos (slice_index o l) +ℤ change pair.now.weight pair.now.denominator pair.now.p pair.now.m pair.now.q (slice_index cells.now.rho l) own (16777216 - slice_index raised l) (slice_index o l) (slice_index f l) }
{
    let (more, less) = changes(pair, divisor, cells, raised, f, o);
    let ahead = sum(f, more);
    let behind = sum(o, less);
    (ahead, behind)
}

impl Pair {
    // Whether the pair comes to its equilibrium at once, by rates of one, and its numbers are as small as `equilibria` asks.
    #[inline(always)]
    fn is_at_once<const ONE: bool>(&self) -> bool
        ensures one { result ≡ true → ONE ≡ true }
        ensures light { result ≡ true → self.now.weight ≤ 4 }
        ensures least { result ≡ true → 17 ≤ self.now.denominator }
        ensures most { result ≡ true → self.now.denominator ≤ 40 }
    {
        ONE && self.weight <= 4 && self.denominator >= 17 && self.denominator <= 40
    }
}

// What is divided by 2 d in equilibrium, raised by 2^23 of it, for both directions of a pair.
#[inline(always)]
fn balances(
    weight: u64,
    denominator: u64,
    shared: u64x8,
    rho: u64x8,
    raised: u64x8,
) -> (u64x8, u64x8)
    requires light { weight ≤ 4 }
    requires least { 17 ≤ denominator }
    requires most { denominator ≤ 40 }
    requires shared_small { (l : ℕ) → l < 8 → slice_index shared l < 2 ^ 46 }
    requires not_dense { (l : ℕ) → l < 8 → slice_index rho l ≤ 1769472 }
    requires raised_small { (l : ℕ) → l < 8 → slice_index raised l ≤ 16777216 }
    ensures ahead { (l : ℕ) → l < 8 → slice_index result.0 l ≡ balance weight denominator (slice_index rho l) (slice_index raised l) (slice_index shared l) }
    ensures behind { (l : ℕ) → l < 8 → slice_index result.1 l ≡ balance weight denominator (slice_index rho l) (16777216 - slice_index raised l) (slice_index shared l) }
{
    let held = multiple(9 * weight, rho);
    let lifted = sum(shared, all((2 * denominator - 6 * weight) * 8388608));
    let middle = difference(lifted, held);
    let along = narrow_multiple(6 * weight, raised);
    let ahead = sum(middle, along);
    let whole = sum(middle, all(weight * 100663296));
    let behind = difference(whole, along);
    (ahead, behind)
}

// The populations of a direction and of its opposite in equilibrium, raised by 2^23: rates of one take any there.
#[inline(always)]
fn equilibria(pair: &Pair, cells: &Cells, raised: u64x8) -> (u64x8, u64x8)
    requires light { pair.now.weight ≤ 4 }
    requires least { 17 ≤ pair.now.denominator }
    requires most { pair.now.denominator ≤ 40 }
    requires reciprocal { (l : ℕ) → l < 8 → slice_index cells.now.reciprocal l ≡ 562949953421312 / slice_index cells.now.rho l }
    requires lanes { (l : ℕ) → l < 8 → (n : ℕ) × (own : ℕ) × (f : ℕ) × (o : ℕ) × IsLane pair.now.weight pair.now.denominator 1 1 1 n (slice_index cells.now.rho l) own (slice_index cells.now.base l) (slice_index raised l) f o }
    ensures ahead_size { (l : ℕ) → l < 8 → slice_index result.0 l < 33554432 }
    ensures behind_size { (l : ℕ) → l < 8 → slice_index result.1 l < 33554432 }
    ensures ahead { (l n own f o : ℕ) → l < 8 → IsLane pair.now.weight pair.now.denominator 1 1 1 n (slice_index cells.now.rho l) own (slice_index cells.now.base l) (slice_index raised l) f o → pos (slice_index result.0 l) -ℤ pos 8388608 ≡ pos f +ℤ change pair.now.weight pair.now.denominator 1 1 1 (slice_index cells.now.rho l) own (slice_index raised l) f o }
    ensures behind { (l n own f o : ℕ) → l < 8 → IsLane pair.now.weight pair.now.denominator 1 1 1 n (slice_index cells.now.rho l) own (slice_index cells.now.base l) (slice_index raised l) f o → pos (slice_index result.1 l) -ℤ pos 8388608 ≡ pos o +ℤ change pair.now.weight pair.now.denominator 1 1 1 (slice_index cells.now.rho l) own (16777216 - slice_index raised l) o f }
{
    let y = numerator(cells, raised);
    let weighed = multiple(pair.weight, y);
    let shared = by_density(weighed, cells.rho, cells.reciprocal);
    let (more, less) = balances(pair.weight, pair.denominator, shared, cells.rho, raised);
    let ahead = by_written(more, 2 * pair.denominator);
    let behind = by_written(less, 2 * pair.denominator);
    (ahead, behind)
}

/// The populations `f` of a direction, and `o` of its opposite, after they have relaxed, both raised by 2^23. Where
/// rates are known to be ONE, nearly all pairs take a shorter way.
#[inline(always)]
pub(crate) fn relaxed_pair<const ONE: bool>(
    pair: &Pair,
    divisor: &Divisor,
    cells: &Cells,
    raised: u64x8,
    f: u64x8,
    o: u64x8,
) -> (u64x8, u64x8)
    requires light { pair.now.weight ≤ 216 }
    requires small { pair.now.denominator ≤ 216 }
    requires p_at_most { pair.now.p ≤ 1024 }
    requires m_at_most { pair.now.m ≤ 1024 }
    requires q_at_most { pair.now.q ≤ 1024 }
    requires prepared { IsDivisor divisor.now.d divisor.now.shift divisor.now.reciprocal }
    requires divisor { divisor.now.d ≡ 2 * (pair.now.denominator * pair.now.q) }
    requires ones { ONE ≡ true → (pair.now.p ≡ 1) × (pair.now.m ≡ 1) × (pair.now.q ≡ 1) }
    requires reciprocal { (l : ℕ) → l < 8 → slice_index cells.now.reciprocal l ≡ 562949953421312 / slice_index cells.now.rho l }
    requires lanes { (l : ℕ) → l < 8 → (n : ℕ) × (own : ℕ) × IsLane pair.now.weight pair.now.denominator pair.now.p pair.now.m pair.now.q n (slice_index cells.now.rho l) own (slice_index cells.now.base l) (slice_index raised l) (slice_index f l) (slice_index o l) }
    ensures ahead_size { (l : ℕ) → l < 8 → slice_index result.0 l < 33554432 }
    ensures behind_size { (l : ℕ) → l < 8 → slice_index result.1 l < 33554432 }
    ensures ahead { (l own : ℕ) → l < 8 → slice_index cells.now.base l + 3 * own ≡ 11 * (slice_index cells.now.rho l * slice_index cells.now.rho l) → pos (slice_index result.0 l) -ℤ pos 8388608 ≡ pos (slice_index f l) +ℤ change pair.now.weight pair.now.denominator pair.now.p pair.now.m pair.now.q (slice_index cells.now.rho l) own (slice_index raised l) (slice_index f l) (slice_index o l) }
    ensures behind { (l own : ℕ) → l < 8 → slice_index cells.now.base l + 3 * own ≡ 11 * (slice_index cells.now.rho l * slice_index cells.now.rho l) → pos (slice_index result.1 l) -ℤ pos 8388608 ≡ pos (slice_index o l) +ℤ change pair.now.weight pair.now.denominator pair.now.p pair.now.m pair.now.q (slice_index cells.now.rho l) own (16777216 - slice_index raised l) (slice_index o l) (slice_index f l) }
{
    if pair.is_at_once::<ONE>() {
        return equilibria(pair, cells, raised);
    }
    changed_pair(pair, divisor, cells, raised, f, o)
}
