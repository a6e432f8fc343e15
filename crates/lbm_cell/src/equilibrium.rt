//! The second-order equilibrium, and the first populations of a fluid cell.

ghost use Rattle.std.specs.Prelude.{◌≡◌, ◌<◌, ◌≤◌, ◌^◌, ℕ, ℤ, pos, ◌+ℤ◌, ◌-ℤ◌, ◌*ℤ◌, ◌≤ℤ◌, unsigned_abs};
ghost use Rattle.lbm_space.specs.Stencil.{part};
ghost use Rattle.lbm_cell.specs.Limits.{least_density, greatest_first_density, greatest_first_momentum, greatest_population};
ghost use Rattle.lbm_cell.specs.Moments.{populations, density};
ghost use Rattle.lbm_cell.specs.Collision.{equilibrium_numerator, equilibrium, first_population};

use crate::arithmetic::{difference, dot, product, quotient, sum};
use crate::populations::Pops;
use lbm_space::VelocitySet;

// 2 square + 6 cross + 9 turn - 3 own
#[inline]
fn combined(square: i64, cross: i64, turn: i64, own: i64) -> i64
    requires square_small { unsigned_abs square < 2 ^ 48 }
    requires cross_small { unsigned_abs cross < 2 ^ 48 }
    requires turn_small { unsigned_abs turn < 2 ^ 48 }
    requires own_small { unsigned_abs own < 2 ^ 48 }
    ensures value { result ≡ pos 2 *ℤ square +ℤ pos 6 *ℤ cross +ℤ pos 9 *ℤ turn -ℤ pos 3 *ℤ own }
    ensures size { unsigned_abs result < 2 ^ 53 }
{
    let squares = product(2, square);
    let crosses = product(6, cross);
    let turns = product(9, turn);
    let owns = product(3, own);
    difference(sum(sum(squares, crosses), turns), owns)
}

// The equilibrium of velocity `c` at density `rho` and momentum `j`, but for its weight and denominator.
#[inline]
pub(crate) fn equilibrium_numerator(rho: i64, j: &[i64; 3], c: &[i64; 3]) -> i64
    requires density { unsigned_abs rho ≤ greatest_first_density }
    requires momentum { (a : ℕ) → a < 3 → unsigned_abs (part j.now a) ≤ greatest_first_density }
    requires velocity { (a : ℕ) → a < 3 → unsigned_abs (part c.now a) ≤ 1 }
    ensures value { result ≡ equilibrium_numerator rho j.now c.now }
    ensures size { unsigned_abs result < 2 ^ 53 }
{
    let u = dot(c, j);
    let own = dot(j, j);
    combined(product(rho, rho), product(rho, u), product(u, u), own)
}

// The equilibrium of direction `i`, rounded down.
#[inline]
fn equilibrium<V: VelocitySet>(rho: i64, j: &[i64; 3], divisor: i64, i: usize) -> i64
    requires density { unsigned_abs rho ≤ greatest_first_density }
    requires momentum { (a : ℕ) → a < 3 → unsigned_abs (part j.now a) ≤ greatest_first_density }
    requires divisor { divisor ≡ pos 2 *ℤ (V.stencil.denominator *ℤ rho) }
    requires divides { pos 1 ≤ℤ divisor }
    requires known { i < V.stencil.directions }
    ensures { result ≡ equilibrium V.stencil rho j.now i }
{
    let numerator = equilibrium_numerator(rho, j, &V::c(i));
    quotient(product(V::w(i), numerator), divisor)
}

/// The first populations of a fluid cell of density `rho` and momentum `j`: the second-order equilibrium
/// (Krüger et al., the chapter on the method), each rounded down, and at rest what is left of the density.
pub fn first_pops<V: VelocitySet>(rho: i64, j: [i64; 3]) -> Pops
    requires density_above { pos 1 ≤ℤ rho }
    requires density_at_most { rho ≤ℤ pos greatest_first_density }
    requires momentum { (a : ℕ) → a < 3 → unsigned_abs (part j a) ≤ greatest_first_momentum }
    requires flat { (a : ℕ) → a < 3 → V.stencil.dimension ≤ a → part j a ≡ pos 0 }
    ensures first { (i : ℕ) → i < V.stencil.directions → populations result.f i ≡ first_population V.stencil rho j i }
    ensures zeros { (i : ℕ) → V.stencil.directions ≤ i → populations result.f i ≡ pos 0 }
    ensures density { density V.stencil (populations result.f) ≡ rho }
    ensures small { pos least_density ≤ℤ rho → (i : ℕ) → unsigned_abs (populations result.f i) < greatest_population }
{
    let divisor = product(2, product(V::DEN, rho));
    let mut moving = Pops::zero();
    for i in 1..V::Q {
        moving.f[i] = equilibrium::<V>(rho, &j, divisor, i);
    }
    moving.with_rest::<V>(rho)
}
