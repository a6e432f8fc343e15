//! What a cell holds.

ghost use Rattle.std.specs.Prelude.{◌≡◌, ℕ, ◌<◌, ◌≤◌, pos, ◌≤ℤ◌, unsigned_abs};
ghost use Rattle.lbm_cell.specs.Limits.{greatest_first_density};
ghost use Rattle.lbm_cell.specs.Collision.{with_rest};

use crate::arithmetic::{difference, sum};
use crate::constants::MAX_Q;
use lbm_space::VelocitySet;

/// The populations of a cell, one for each direction of its set, and zeros past them.
#[derive(Clone, Copy, Debug, PartialEq, Eq)]
pub struct Pops {
    pub f: [i64; MAX_Q],
}

impl Pops {
    ghost use Rattle.lbm_cell.specs.Moments.{populations};

    /// Zeros.
    pub fn zero() -> Pops
        ensures { (i : ℕ) → populations result.f i ≡ pos 0 }
    {
        Pops { f: [0; MAX_Q] }
    }

    // The moving populations as they are, and at rest what is left of the density.
    #[inline]
    pub(crate) fn with_rest<V: VelocitySet>(self, rho: i64) -> Pops
        requires density { unsigned_abs rho ≤ greatest_first_density }
        requires moving { (i : ℕ) → 0 < i → i < V.stencil.directions → unsigned_abs (populations self.f i) ≤ 782757789696 }
        requires zeros { (i : ℕ) → V.stencil.directions ≤ i → populations self.f i ≡ pos 0 }
        ensures values { (i : ℕ) → i < V.stencil.directions → populations result.f i ≡ with_rest V.stencil rho (populations self.f) i }
        ensures zeros { (i : ℕ) → V.stencil.directions ≤ i → populations result.f i ≡ pos 0 }
    {
        let mut moving = 0;
        for i in 1..V::Q {
            moving = sum(moving, self.f[i]);
        }
        let rest = difference(rho, moving);
        let mut whole = self;
        whole.f[0] = rest;
        whole
    }
}

/// Density and momentum of a cell, in lattice units.
#[derive(Clone, Copy, Debug, PartialEq, Eq)]
pub struct Moment {
    pub rho: i64,
    pub jx: i64,
    pub jy: i64,
    pub jz: i64,
}
