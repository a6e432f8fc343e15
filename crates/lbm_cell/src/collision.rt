//! The collision of a fluid cell.

ghost use Rattle.std.specs.Prelude.{◌≡◌, ◌<◌, ◌≤◌, ◌^◌, ◌*◌, ℕ, ℤ, pos, ◌+ℤ◌, ◌-ℤ◌, ◌*ℤ◌, ◌≤ℤ◌, unsigned_abs, IsTrue};
ghost use Rattle.lbm_space.specs.Limits.{greatest_denominator};
ghost use Rattle.lbm_cell.specs.Limits.{greatest_density, greatest_population};
ghost use Rattle.lbm_cell.specs.Moments.{populations, density, momentum, in_limits};
ghost use Rattle.lbm_cell.specs.Collision.{IsRates, IsForce, departure, relaxation, push, collision, floor_div};

use crate::arithmetic::{difference, dot, product, quotient, sum};
use crate::constants::MAX_Q;
use crate::equilibrium::equilibrium_numerator;
use crate::force::Force;
use crate::moments::moment;
use crate::populations::Pops;
use crate::rates::Rates;
use lbm_space::VelocitySet;

// weight numerator - 2 scale population
#[inline]
fn below_equilibrium(weight: i64, numerator: i64, scale: i64, population: i64) -> i64
    requires weight_small { unsigned_abs weight ≤ greatest_denominator }
    requires numerator_small { unsigned_abs numerator < 2 ^ 53 }
    requires scale_small { unsigned_abs scale ≤ 382205952 }
    requires population_small { unsigned_abs population ≤ greatest_density }
    ensures { result ≡ weight *ℤ numerator -ℤ pos 2 *ℤ (scale *ℤ population) }
{
    difference(
        product(weight, numerator),
        product(2, product(scale, population)),
    )
}

// How far population `i` is below its equilibrium, times 2 den rho. `scale` is den rho.
#[inline]
fn departure<V: VelocitySet>(f: &Pops, rho: i64, j: &[i64; 3], scale: i64, i: usize) -> i64
    requires limits { IsTrue (in_limits V.stencil (populations f.now.f)) }
    requires density { rho ≡ density V.stencil (populations f.now.f) }
    requires momentum { j.now ≡ momentum V.stencil (populations f.now.f) }
    requires scale { scale ≡ V.stencil.denominator *ℤ rho }
    requires known { i < V.stencil.directions }
    ensures { result ≡ departure V.stencil (populations f.now.f) i }
{
    let numerator = equilibrium_numerator(rho, j, &V::c(i));
    below_equilibrium(V::w(i), numerator, scale, f.f[i])
}

// The departures of the moving populations.
#[inline]
fn departures<V: VelocitySet>(f: &Pops, rho: i64, j: &[i64; 3], scale: i64) -> [i64; MAX_Q]
    requires limits { IsTrue (in_limits V.stencil (populations f.now.f)) }
    requires density { rho ≡ density V.stencil (populations f.now.f) }
    requires momentum { j.now ≡ momentum V.stencil (populations f.now.f) }
    requires scale { scale ≡ V.stencil.denominator *ℤ rho }
    ensures { (i : ℕ) → 0 < i → i < V.stencil.directions → populations result i ≡ departure V.stencil (populations f.now.f) i }
{
    let mut all = [0; MAX_Q];
    for i in 1..V::Q {
        all[i] = departure::<V>(f, rho, j, scale, i);
    }
    all
}

// What relaxation adds, by the departures `a` of a direction and `b` of its opposite: their symmetric part
// relaxes by p / q, and their antisymmetric part by m / q.
#[inline]
fn relaxation(rates: Rates, a: i64, b: i64, divisor: i64) -> i64
    requires a_small { unsigned_abs a ≤ 2028908190892032 }
    requires b_small { unsigned_abs b ≤ 2028908190892032 }
    requires divides { pos 1 ≤ℤ divisor }
    ensures { result ≡ floor_div (rates.p *ℤ (a +ℤ b) +ℤ rates.m *ℤ (a -ℤ b)) divisor }
{
    let symmetric = product(rates.p(), sum(a, b));
    let antisymmetric = product(rates.m(), difference(a, b));
    quotient(sum(symmetric, antisymmetric), divisor)
}

/// What a force adds to population `i`, and a moving wall to what it sends in direction `i`: the weight of the
/// direction, times the inner product of its velocity and the force.
#[inline]
pub fn push<V: VelocitySet>(force: &[i64; 3], i: usize) -> i64
    requires allowed { IsForce force.now }
    requires known { i < V.stencil.directions }
    ensures { result ≡ push V.stencil force.now i }
{
    product(V::w(i), dot(&V::c(i), force))
}

// Population `i` after it has relaxed and been pushed.
#[inline]
fn moved<V: VelocitySet>(
    f: &Pops,
    rates: Rates,
    force: &[i64; 3],
    departures: &[i64; MAX_Q],
    divisor: i64,
    i: usize,
) -> i64
    requires limits { IsTrue (in_limits V.stencil (populations f.now.f)) }
    requires allowed_rates { IsRates rates }
    requires allowed_force { IsForce force.now }
    requires departures { (k : ℕ) → 0 < k → k < V.stencil.directions → populations departures.now k ≡ departure V.stencil (populations f.now.f) k }
    requires divisor { divisor ≡ pos 4 *ℤ (V.stencil.denominator *ℤ density V.stencil (populations f.now.f) *ℤ rates.q) }
    requires moving { 0 < i }
    requires known { i < V.stencil.directions }
    ensures { let f = populations f.now.f in result ≡ f i +ℤ relaxation V.stencil rates f i +ℤ push V.stencil force.now i }
{
    let change = relaxation(rates, departures[i], departures[V::opp(i)], divisor);
    let push = push::<V>(force, i);
    sum(sum(f.f[i], change), push)
}

/// The collision of a fluid cell in limits: two relaxation times and a force (Krüger et al., the chapters on
/// the method, on analysis of the method and on forces). Each moving population relaxes toward the second-order
/// equilibrium, what relaxation adds being rounded down, and takes its share of the force. The rest population
/// takes what is left, so the density stays.
pub fn collide<V: VelocitySet>(f: &Pops, r: Rates, g: Force) -> Pops
    requires { IsTrue (in_limits V.stencil (populations f.now.f)) }
    ensures post { (i : ℕ) → i < V.stencil.directions → populations result.f i ≡ collision V.stencil r g (populations f.now.f) i }
    ensures zeros { (i : ℕ) → V.stencil.directions ≤ i → populations result.f i ≡ pos 0 }
    ensures density { density V.stencil (populations result.f) ≡ density V.stencil (populations f.now.f) }
    ensures small { (i : ℕ) → unsigned_abs (populations result.f i) < greatest_population }
{
    let m = moment::<V>(f);
    let scale = product(V::DEN, m.rho);
    let departures = departures::<V>(f, m.rho, &[m.jx, m.jy, m.jz], scale);
    let divisor = product(4, product(scale, r.q()));
    let force = g.parts();
    let mut moving = Pops::zero();
    for i in 1..V::Q {
        moving.f[i] = moved::<V>(f, r, &force, &departures, divisor, i);
    }
    moving.with_rest::<V>(m.rho)
}
