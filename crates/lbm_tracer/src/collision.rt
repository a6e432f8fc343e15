//! What the amounts of a tracer do at one cell.
//!
//! No sum and no product reaches 2^62 in size.

ghost use Rattle.std.specs.Prelude.{◌≡◌, ◌<◌, ◌≤◌, ◌^◌, ℕ, ℤ, pos, ◌+ℤ◌, ◌-ℤ◌, ◌*ℤ◌, ◌≤ℤ◌, unsigned_abs, IsTrue};
ghost use Rattle.lbm_space.specs.Stencil.{dot, part, velocity};
ghost use Rattle.lbm_cell.specs.Moments.{populations, density};
ghost use Rattle.lbm_cell.specs.Collision.{floor_div, reflection, with_rest};
ghost use Rattle.lbm_tracer.specs.Limits.{greatest_amount, amount_bound, cell_bound};
ghost use Rattle.lbm_tracer.specs.Sets.{stencil_of, inverse_sound_squared};
ghost use Rattle.lbm_tracer.specs.Collision.{IsFlowMoment, momentum_of, relaxation_of, tracer_collision, in_tracer_limits, first_amount};

use crate::TracerSet;
use crate::constants::{GREATEST_AMOUNT, MAX_DIRECTIONS};
use crate::quotient::{inverse, quotient};
use lbm_cell::{Moment, Rates};

/// The amounts of a cell, one for each direction of a set, and zeros past them.
pub type Amounts = [i64; MAX_DIRECTIONS];

// The inner product of a velocity and the momentum of the flow.
#[inline(always)]
fn along(c: [i64; 3], flow: &Moment) -> i64
    requires unit { (a : ℕ) → a < 3 → unsigned_abs (part c a) ≤ 1 }
    requires flow { IsFlowMoment flow.now }
    ensures value { result ≡ dot c (momentum_of flow.now) }
    ensures size { unsigned_abs result ≤ 5308416 }
{
    c[0] * flow.jx + c[1] * flow.jy + c[2] * flow.jz
}

// weight total carried - scale amount
#[inline(always)]
fn below_equilibrium(weight: i64, total: i64, carried: i64, scale: i64, amount: i64) -> i64
    requires weight_small { unsigned_abs weight ≤ 2 }
    requires total_small { unsigned_abs total ≤ greatest_amount }
    requires carried_small { unsigned_abs carried ≤ 23003136 }
    requires scale_small { unsigned_abs scale ≤ 14155776 }
    requires amount_small { unsigned_abs amount ≤ greatest_amount }
    ensures value { result ≡ weight *ℤ (total *ℤ carried) -ℤ scale *ℤ amount }
    ensures size { unsigned_abs result ≤ 1009371525808128 }
{
    weight * (total * carried) - scale * amount
}

// What the flow makes of the share of direction `k`: its density, and what it carries along.
#[inline(always)]
fn carried(set: TracerSet, flow: &Moment, k: usize) -> i64
    requires known { k < (stencil_of set).directions }
    requires flow { IsFlowMoment flow.now }
    ensures value { result ≡ flow.now.rho +ℤ inverse_sound_squared (stencil_of set) *ℤ dot (velocity (stencil_of set) k) (momentum_of flow.now) }
    ensures size { unsigned_abs result ≤ 23003136 }
{
    flow.rho + set.inverse_sound_squared() * along(set.velocity(k), flow)
}

// The density of the flow, times the denominator.
#[inline(always)]
fn scale_of(set: TracerSet, flow: &Moment) -> i64
    requires { IsFlowMoment flow.now }
    ensures value { result ≡ (stencil_of set).denominator *ℤ flow.now.rho }
    ensures least { pos 2654208 ≤ℤ result }
    ensures most { result ≤ℤ pos 14155776 }
{
    set.denominator() * flow.rho
}

// What `quotient` asks of the denominator times the density and the q of the rates.
#[inline(always)]
fn inverse_of(set: TracerSet, rates: Rates, flow: &Moment) -> f64
    requires { IsFlowMoment flow.now }
{
    inverse(scale_of(set, flow) * rates.q())
}

// What relaxation adds to an amount that is `below` its equilibrium, times `scale`; `inverse` is that of `scale` times the q of the rates.
#[inline(always)]
fn relaxation(rates: Rates, below: i64, scale: i64, inverse: f64) -> i64
    requires below { unsigned_abs below ≤ 1009371525808128 }
    requires least { pos 2654208 ≤ℤ scale }
    requires most { scale ≤ℤ pos 14155776 }
    ensures value { result ≡ floor_div (rates.p *ℤ below) (scale *ℤ rates.q) }
    ensures size { unsigned_abs result ≤ 2 ^ 30 }
{
    quotient(rates.p() * below, scale * rates.q(), inverse)
}

// Amount `k` after it has relaxed toward its equilibrium, where `total` is the amount of the cell.
#[inline(always)]
fn relaxed(
    set: TracerSet,
    rates: Rates,
    flow: &Moment,
    total: i64,
    amount: i64,
    k: usize,
    inverse: f64,
) -> i64
    requires known { k < (stencil_of set).directions }
    requires flow { IsFlowMoment flow.now }
    requires total { unsigned_abs total ≤ greatest_amount }
    requires amount { unsigned_abs amount ≤ greatest_amount }
    ensures value { result ≡ amount +ℤ relaxation_of (stencil_of set) rates flow.now.rho (momentum_of flow.now) total amount k }
    ensures size { unsigned_abs result ≤ 2 ^ 31 }
{
    let carried = carried(set, flow, k);
    let scale = scale_of(set, flow);
    let below = below_equilibrium(set.weight(k), total, carried, scale, amount);
    amount + relaxation(rates, below, scale, inverse)
}

/// The amounts of all directions together.
#[inline(always)]
pub fn sum_of(set: TracerSet, amounts: &Amounts) -> i64
    requires { (k : ℕ) → k < (stencil_of set).directions → unsigned_abs (populations amounts.now k) ≤ amount_bound }
    ensures value { result ≡ density (stencil_of set) (populations amounts.now) }
    ensures size { unsigned_abs result ≤ cell_bound }
{
    let mut sum = 0;
    for k in 0..set.q() {
        sum += amounts[k];
    }
    sum
}

/// Whether a fluid cell is in limits: no amount is negative, and they make at most 16,777,216 together.
#[inline(always)]
pub fn in_limits(set: TracerSet, amounts: &Amounts) -> bool
    requires { (k : ℕ) → k < (stencil_of set).directions → unsigned_abs (populations amounts.now k) ≤ amount_bound }
    ensures { result ≡ in_tracer_limits (stencil_of set) (populations amounts.now) }
{
    for k in 0..set.q() {
        if amounts[k] < 0 {
            return false;
        }
    }
    sum_of(set, amounts) <= GREATEST_AMOUNT
}

/// Whether a cell holds nothing: each amount is 0.
#[inline(always)]
pub fn is_empty(set: TracerSet, amounts: &Amounts) -> bool
    ensures { IsTrue result → (k : ℕ) → k < (stencil_of set).directions → populations amounts.now k ≡ pos 0 }
{
    for k in 0..set.q() {
        if amounts[k] != 0 {
            return false;
        }
    }
    true
}

// The moving amounts as they are, and at rest what is left of `total`.
#[inline(always)]
fn with_rest(set: TracerSet, moving: Amounts, total: i64) -> Amounts
    requires total { unsigned_abs total ≤ greatest_amount }
    requires moving { (k : ℕ) → 0 < k → k < (stencil_of set).directions → unsigned_abs (populations moving k) ≤ 2 ^ 31 }
    ensures value { (k : ℕ) → k < (stencil_of set).directions → populations result k ≡ with_rest (stencil_of set) total (populations moving) k }
    ensures size { (k : ℕ) → k < (stencil_of set).directions → unsigned_abs (populations result k) ≤ amount_bound }
{
    let mut gone = 0;
    for k in 1..set.q() {
        gone += moving[k];
    }
    let mut all = moving;
    all[0] = total - gone;
    all
}

/// The amounts of a fluid cell in limits after a collision: each moving amount relaxes toward its share of the cell's amount
/// that the flow carries along, what relaxation adds being rounded down, and the rest amount takes what is left, so the
/// cell's amount stays (Krüger et al., the chapter on advection and diffusion; the rounding is this project's own).
#[inline(always)]
pub fn collide(set: TracerSet, rates: Rates, flow: &Moment, amounts: &Amounts) -> Amounts
    requires flow { IsFlowMoment flow.now }
    requires limits { IsTrue (in_tracer_limits (stencil_of set) (populations amounts.now)) }
    requires small { (k : ℕ) → k < (stencil_of set).directions → unsigned_abs (populations amounts.now k) ≤ amount_bound }
    ensures value { (k : ℕ) → k < (stencil_of set).directions → populations result k ≡ tracer_collision (stencil_of set) rates flow.now.rho (momentum_of flow.now) (populations amounts.now) k }
    ensures size { (k : ℕ) → k < (stencil_of set).directions → unsigned_abs (populations result k) ≤ amount_bound }
{
    let total = sum_of(set, amounts);
    let inverse = inverse_of(set, rates, flow);
    let mut moving = [0; MAX_DIRECTIONS];
    for k in 1..set.q() {
        moving[k] = relaxed(set, rates, flow, total, amounts[k], k, inverse);
    }
    with_rest(set, moving, total)
}

/// Full-way bounce-back: each amount of the opposite direction.
#[inline(always)]
pub fn turn_back(set: TracerSet, amounts: &Amounts) -> Amounts
    ensures { (k : ℕ) → k < (stencil_of set).directions → populations result k ≡ reflection (stencil_of set) (populations amounts.now) k }
{
    let mut turned = [0; MAX_DIRECTIONS];
    for k in 0..set.q() {
        turned[k] = amounts[set.opposite(k)];
    }
    turned
}

/// The amounts of the cell in which a tracer begins: an amount's share of each moving direction, rounded down, and at rest what
/// is left.
pub fn first_amounts(set: TracerSet, amount: u32) -> Amounts
    requires { amount ≤ greatest_amount }
    ensures value { (k : ℕ) → k < (stencil_of set).directions → populations result k ≡ first_amount (stencil_of set) (pos amount) k }
    ensures size { (k : ℕ) → k < (stencil_of set).directions → unsigned_abs (populations result k) ≤ amount_bound }
{
    let total = i64::from(amount);
    let mut moving = [0; MAX_DIRECTIONS];
    for k in 1..set.q() {
        moving[k] = (set.weight(k) * total).div_euclid(set.denominator());
    }
    with_rest(set, moving, total)
}
