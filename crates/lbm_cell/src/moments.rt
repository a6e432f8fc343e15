//! Density and momentum of a cell.

ghost use Rattle.std.specs.Prelude.{◌≡◌, ℕ, ◌+◌, ◌<◌, ◌≤◌, ◌^◌, ℤ, ◌+ℤ◌, ◌*ℤ◌, FitsSigned, unsigned_abs};
ghost use Rattle.std.specs.Int.{w32};
ghost use Rattle.lbm_space.specs.Stencil.{velocity};
ghost use Rattle.lbm_cell.specs.Moments.{populations, density, momentum_part, in_limits};

use crate::arithmetic::{product, sum};
use crate::constants::{GREATEST_DENSITY, LEAST_DENSITY};
use crate::populations::{Moment, Pops};
use lbm_space::VelocitySet;

/// The density of a cell, the sum of its populations, and the momentum, the sum of its populations,
/// each times its velocity.
pub fn moment<V: VelocitySet>(f: &Pops) -> Moment
    requires { (i : ℕ) → i < V.stencil.directions → FitsSigned w32 (populations f.now.f i) }
    ensures density { result.rho ≡ density V.stencil (populations f.now.f) }
    ensures momentum_x { result.jx ≡ momentum_part V.stencil (populations f.now.f) 0 }
    ensures momentum_y { result.jy ≡ momentum_part V.stencil (populations f.now.f) 1 }
    ensures momentum_z { result.jz ≡ momentum_part V.stencil (populations f.now.f) 2 }
{
    Moment {
        rho: density::<V>(f),
        jx: momentum_part::<V>(f, 0),
        jy: momentum_part::<V>(f, 1),
        jz: momentum_part::<V>(f, 2),
    }
}

#[inline]
fn density<V: VelocitySet>(f: &Pops) -> i64
    requires { (i : ℕ) → i < V.stencil.directions → FitsSigned w32 (populations f.now.f i) }
    ensures { result ≡ density V.stencil (populations f.now.f) }
{
    let mut total = 0;
    for i in 0..V::Q {
        total = sum(total, f.f[i]);
    }
    total
}

#[inline]
fn momentum_part<V: VelocitySet>(f: &Pops, axis: usize) -> i64
    requires fits { (i : ℕ) → i < V.stencil.directions → FitsSigned w32 (populations f.now.f i) }
    requires axis { axis < 3 }
    ensures { result ≡ momentum_part V.stencil (populations f.now.f) axis }
{
    let mut total = 0;
    for i in 0..V::Q {
        total = add_scaled(total, V::c(i)[axis], f.f[i]);
    }
    total
}

// `total + c x`, for a part c of a velocity.
#[inline]
fn add_scaled(total: i64, c: i64, x: i64) -> i64
    requires unit { unsigned_abs c ≤ 1 }
    requires room { unsigned_abs total + unsigned_abs x < 2 ^ 62 }
    ensures { result ≡ total +ℤ (c *ℤ x) }
{
    sum(total, product(c, x))
}

/// Whether a fluid cell is in limits: no population is negative, and the density is from half the unit
/// to twice the unit, both included.
pub fn in_limits<V: VelocitySet>(f: &Pops) -> bool
    requires { (i : ℕ) → i < V.stencil.directions → FitsSigned w32 (populations f.now.f i) }
    ensures { result ≡ in_limits V.stencil (populations f.now.f) }
{
    for i in 0..V::Q {
        if f.f[i] < 0 {
            return false;
        }
    }
    let rho = density::<V>(f);
    LEAST_DENSITY <= rho && rho <= GREATEST_DENSITY
}
