//! Density and momentum of the cells, and which are in limits.

ghost use Rattle.std.specs.Prelude.{◌≡◌, ◌<◌, ◌≤◌, ◌+◌, ◌*◌, ◌^◌, ℕ, ℤ, pos, ◌+ℤ◌, ◌*ℤ◌, unsigned_abs, int_le, ◌&&◌, not, FitsSigned};
ghost use Rattle.std.specs.Int.{w32, w64};
ghost use Rattle.lbm_space.specs.Limits.{most_directions};
ghost use Rattle.lbm_lanes.specs.Lanes.{entry, has, held};
ghost use Rattle.lbm_lanes.specs.Sums.{IsSummed};

use crate::signed::{minus, negative, plus, signs};
use lbm_space::VelocitySet;
use lbm_walk::Rows;

/// Sums over the directions so far, lane by lane: of the populations, and of the populations each times a part of its
/// velocity. A lane of `signs` is negative where one of its populations is.
#[derive(Clone, Copy)]
pub(crate) struct Sums {
    pub(crate) rho: [i64; 8],
    pub(crate) x: [i64; 8],
    pub(crate) y: [i64; 8],
    pub(crate) z: [i64; 8],
    pub(crate) signs: [i64; 8],
}

// The totals with c times the populations of one more direction.
#[inline(always)]
fn with(totals: [i64; 8], c: i64, f: [i64; 8]) -> [i64; 8]
    requires unit { unsigned_abs c ≤ 1 }
    requires totals { (l : ℕ) → l < 8 → unsigned_abs (entry totals l) < 2 ^ 61 }
    requires populations { (l : ℕ) → l < 8 → unsigned_abs (entry f l) < 2 ^ 61 }
    ensures { (l : ℕ) → l < 8 → entry result l ≡ entry totals l +ℤ c *ℤ entry f l }
{
    if c == 1 {
        return plus(totals, f);
    }
    if c == -1 {
        return minus(totals, f);
    }
    totals
}

// The sums with direction `i`.
#[inline(always)]
fn add<V: VelocitySet, R: Rows<V>>(rows: &R, sums: Sums, i: usize) -> Sums
    requires few { i < most_directions }
    requires fits { (k j : ℕ) → k < V.stencil.directions → j < 8 → FitsSigned w32 (held (R.count rows.now) (R.there rows.now) j k) }
    requires sums { (l : ℕ) → l < 8 → IsSummed V.stencil i (held (R.count rows.now) (R.there rows.now) l) (entry sums.rho l) (entry sums.x l) (entry sums.y l) (entry sums.z l) (entry sums.signs l) }
    ensures { (l : ℕ) → l < 8 → IsSummed V.stencil (i + 1) (held (R.count rows.now) (R.there rows.now) l) (entry result.rho l) (entry result.x l) (entry result.y l) (entry result.z l) (entry result.signs l) }
{
    if i >= V::Q {
        return sums;
    }
    let f = rows.take(i);
    let c = V::c(i);
    Sums {
        rho: plus(sums.rho, f),
        x: with(sums.x, c[0], f),
        y: with(sums.y, c[1], f),
        z: with(sums.z, c[2], f),
        signs: signs(sums.signs, f),
    }
}

// The sums with nine directions more.
#[inline(always)]
fn add_nine<V: VelocitySet, R: Rows<V>, const I0: usize>(rows: &R, sums: Sums) -> Sums
    requires few { I0 + 9 ≤ most_directions }
    requires fits { (k j : ℕ) → k < V.stencil.directions → j < 8 → FitsSigned w32 (held (R.count rows.now) (R.there rows.now) j k) }
    requires sums { (l : ℕ) → l < 8 → IsSummed V.stencil I0 (held (R.count rows.now) (R.there rows.now) l) (entry sums.rho l) (entry sums.x l) (entry sums.y l) (entry sums.z l) (entry sums.signs l) }
    ensures { (l : ℕ) → l < 8 → IsSummed V.stencil (I0 + 9) (held (R.count rows.now) (R.there rows.now) l) (entry result.rho l) (entry result.x l) (entry result.y l) (entry result.z l) (entry result.signs l) }
{
    let sums = add::<V, R>(rows, sums, I0);
    let sums = add::<V, R>(rows, sums, I0 + 1);
    let sums = add::<V, R>(rows, sums, I0 + 2);
    let sums = add::<V, R>(rows, sums, I0 + 3);
    let sums = add::<V, R>(rows, sums, I0 + 4);
    let sums = add::<V, R>(rows, sums, I0 + 5);
    let sums = add::<V, R>(rows, sums, I0 + 6);
    let sums = add::<V, R>(rows, sums, I0 + 7);
    add::<V, R>(rows, sums, I0 + 8)
}

impl Sums {
    // No direction yet.
    #[inline(always)]
    fn none<V: VelocitySet>() -> Sums
        ensures { (l : ℕ) (h : ℕ → ℤ) → l < 8 → IsSummed V.stencil 0 h (entry result.rho l) (entry result.x l) (entry result.y l) (entry result.z l) (entry result.signs l) }
    {
        Sums {
            rho: [0; 8],
            x: [0; 8],
            y: [0; 8],
            z: [0; 8],
            signs: [0; 8],
        }
    }

    /// The sums over all directions.
    #[inline(always)]
    pub(crate) fn of<V: VelocitySet, R: Rows<V>>(rows: &R) -> Sums
        requires fits { (k j : ℕ) → k < V.stencil.directions → j < 8 → FitsSigned w32 (held (R.count rows.now) (R.there rows.now) j k) }
        ensures { (l : ℕ) → l < 8 → IsSummed V.stencil most_directions (held (R.count rows.now) (R.there rows.now) l) (entry result.rho l) (entry result.x l) (entry result.y l) (entry result.z l) (entry result.signs l) }
    {
        let sums = add_nine::<V, R, 0>(rows, Sums::none::<V>());
        let sums = add_nine::<V, R, 9>(rows, sums);
        add_nine::<V, R, 18>(rows, sums)
    }

    /// The lanes with a population below 0, or whose density is too low or too high.
    #[inline(always)]
    pub(crate) fn out_of_limits(&self) -> u8
        requires rho { (l : ℕ) → l < 8 → unsigned_abs (entry self.now.rho l) < 2 ^ 60 }
        requires signs { (l : ℕ) → l < 8 → FitsSigned w64 (entry self.now.signs l) }
        ensures { (l : ℕ) → l < 8 → has result l ≡ not (int_le (pos 0) (entry self.now.signs l) && int_le (pos 442368) (entry self.now.rho l) && int_le (entry self.now.rho l) (pos 1769472)) }
    {
        let thin = minus(self.rho, [442368; 8]);
        let dense = minus([1769472; 8], self.rho);
        negative(signs(signs(self.signs, thin), dense))
    }
}
