//! The cells of a block that collide, as natural numbers in step.

ghost use Rattle.std.specs.Prelude.{◌≡◌, ◌<◌, ◌≤◌, ◌+◌, ◌*◌, ◌/◌, ◌^◌, ℕ, ℤ, pos, ◌+ℤ◌, ◌-ℤ◌, ◌*ℤ◌, ◌≤ℤ◌, Bool, true, if◌then◌else◌, slice_index, unsigned_abs, nat_lt, FitsSigned};
ghost use Rattle.std.specs.Int.{w64};
ghost use Rattle.lbm_space.specs.Stencil.{part, dot};
ghost use Rattle.lbm_lanes.specs.Cells.{IsSound, IsWithin, is_on, lowered, own_square};
ghost use Rattle.lbm_lanes.specs.Lanes.{entry, has};

use crate::moments::Sums;
use crate::pair::{Cells, square};
use crate::reciprocal::reciprocals;
use crate::signed::{natural, picked, plus};
use crate::vectors::{all, difference, multiple, product, sum};
use std::simd::prelude::*;

/// Which lanes collide and which turn back, a flag above 0 each. Where a block is MIXED the flags are asked, and where
/// it is not all lanes collide.
#[derive(Clone, Copy)]
pub(crate) struct Flags {
    pub(crate) colliding: u64x8,
    pub(crate) turning: u64x8,
}

/// Of each lane that collides its density with the reciprocal, its momentum raised by 2^23, and 11 rho^2 less three
/// times the square of the momentum. The other lanes have the numbers of a fluid at rest.
#[derive(Clone, Copy)]
pub(crate) struct Fluid {
    pub(crate) flags: Flags,
    pub(crate) cells: Cells,
    pub(crate) x: u64x8,
    pub(crate) y: u64x8,
    pub(crate) z: u64x8,
}

// A flag for each lane of a mask.
#[inline]
pub(crate) fn flagged(mask: u8) -> u64x8
    ensures { (l : ℕ) → l < 8 → nat_lt 0 (slice_index result l) ≡ has mask l }
{
    let mut lanes = [0; 8];
    for l in 0..8 {
        lanes[l] = ((mask >> l as u32) % 2) as u64;
    }
    u64x8::from_array(lanes)
}

// The first where lanes are flagged, or all of it where the block is not mixed.
#[inline(always)]
pub(crate) fn kept<const MIXED: bool>(flags: u64x8, first: [i64; 8], rest: [i64; 8]) -> [i64; 8]
    requires first { (l : ℕ) → l < 8 → FitsSigned w64 (entry first l) }
    requires rest { (l : ℕ) → l < 8 → FitsSigned w64 (entry rest l) }
    ensures { (l : ℕ) → l < 8 → entry result l ≡ (if is_on MIXED (slice_index flags l) then entry first l else entry rest l) }
{
    if MIXED {
        picked(flags, first, rest)
    } else {
        first
    }
}

// Parts of momenta, raised by 2^23.
#[inline(always)]
fn raised(x: [i64; 8]) -> u64x8
    requires { (l : ℕ) → l < 8 → unsigned_abs (entry x l) ≤ 1769472 }
    ensures { (l : ℕ) → l < 8 → pos (slice_index result l) -ℤ pos 8388608 ≡ entry x l }
{
    natural(plus(x, [8388608; 8]))
}

// 11 rho^2 less three times the square of the momentum.
#[inline(always)]
fn base(rho: u64x8, x: u64x8, y: u64x8, z: u64x8) -> u64x8
    requires not_dense { (l : ℕ) → l < 8 → slice_index rho l ≤ 1769472 }
    requires x_small { (l : ℕ) → l < 8 → unsigned_abs (pos (slice_index x l) -ℤ pos 8388608) ≤ slice_index rho l }
    requires y_small { (l : ℕ) → l < 8 → unsigned_abs (pos (slice_index y l) -ℤ pos 8388608) ≤ slice_index rho l }
    requires z_small { (l : ℕ) → l < 8 → unsigned_abs (pos (slice_index z l) -ℤ pos 8388608) ≤ slice_index rho l }
    ensures { (l : ℕ) → l < 8 → slice_index result l + 3 * own_square (slice_index x l) (slice_index y l) (slice_index z l) ≡ 11 * (slice_index rho l * slice_index rho l) }
{
    let own = sum(sum(square(x), square(y)), square(z));
    difference(multiple(11, product(rho, rho)), multiple(3, own))
}

impl Fluid {
    /// What lanes have of these sums, which are of cells in limits where lanes collide.
    #[inline(always)]
    pub(crate) fn of<const MIXED: bool>(sums: &Sums, flags: Flags) -> Fluid
        requires sums { (l : ℕ) → l < 8 → IsWithin (is_on MIXED (slice_index flags.colliding l)) (entry sums.now.rho l) (entry sums.now.x l) (entry sums.now.y l) (entry sums.now.z l) }
        ensures colliding { result.flags.colliding ≡ flags.colliding }
        ensures turning { result.flags.turning ≡ flags.turning }
        ensures sound { (l : ℕ) → l < 8 → IsSound (slice_index result.cells.rho l) (slice_index result.cells.reciprocal l) (slice_index result.cells.base l) (slice_index result.x l) (slice_index result.y l) (slice_index result.z l) }
        ensures rho { (l : ℕ) → l < 8 → is_on MIXED (slice_index flags.colliding l) ≡ true → entry sums.now.rho l ≡ pos (slice_index result.cells.rho l) }
        ensures x_is { (l : ℕ) → l < 8 → is_on MIXED (slice_index flags.colliding l) ≡ true → entry sums.now.x l ≡ pos (slice_index result.x l) -ℤ pos 8388608 }
        ensures y_is { (l : ℕ) → l < 8 → is_on MIXED (slice_index flags.colliding l) ≡ true → entry sums.now.y l ≡ pos (slice_index result.y l) -ℤ pos 8388608 }
        ensures z_is { (l : ℕ) → l < 8 → is_on MIXED (slice_index flags.colliding l) ≡ true → entry sums.now.z l ≡ pos (slice_index result.z l) -ℤ pos 8388608 }
    {
        let density = kept::<MIXED>(flags.colliding, sums.rho, [884736; 8]);
        let first = kept::<MIXED>(flags.colliding, sums.x, [0; 8]);
        let second = kept::<MIXED>(flags.colliding, sums.y, [0; 8]);
        let third = kept::<MIXED>(flags.colliding, sums.z, [0; 8]);
        let rho = natural(density);
        let x = raised(first);
        let y = raised(second);
        let z = raised(third);
        let cells = Cells {
            rho,
            reciprocal: reciprocals(rho),
            base: base(rho, x, y, z),
        };
        Fluid {
            flags,
            cells,
            x,
            y,
            z,
        }
    }

    /// The momentum along a velocity, raised by 2^23.
    #[inline(always)]
    pub(crate) fn along(&self, c: &[i64; 3]) -> u64x8
        requires units { (a : ℕ) → a < 3 → unsigned_abs (part c.now a) ≤ 1 }
        requires sound { (l : ℕ) → l < 8 → IsSound (slice_index self.now.cells.rho l) (slice_index self.now.cells.reciprocal l) (slice_index self.now.cells.base l) (slice_index self.now.x l) (slice_index self.now.y l) (slice_index self.now.z l) }
        ensures { (l : ℕ) → l < 8 → dot c.now (lowered (slice_index self.now.x l) (slice_index self.now.y l) (slice_index self.now.z l)) ≡ pos (slice_index result l) -ℤ pos 8388608 }
    {
        let x = stepped(all(8388608), c[0], self.x);
        let y = stepped(x, c[1], self.y);
        stepped(y, c[2], self.z)
    }
}

// A momentum along a velocity, with the share c j of one more axis. All are raised by 2^23.
#[inline(always)]
fn stepped(along: u64x8, c: i64, j: u64x8) -> u64x8
    requires unit { unsigned_abs c ≤ 1 }
    requires not_low { (l : ℕ) → l < 8 → 4849664 ≤ slice_index along l }
    requires not_high { (l : ℕ) → l < 8 → slice_index along l ≤ 11927552 }
    requires small { (l : ℕ) → l < 8 → unsigned_abs (pos (slice_index j l) -ℤ pos 8388608) ≤ 1769472 }
    ensures { (l : ℕ) → l < 8 → pos (slice_index result l) ≡ pos (slice_index along l) +ℤ c *ℤ (pos (slice_index j l) -ℤ pos 8388608) }
{
    if c == 1 {
        return difference(sum(along, j), all(8388608));
    }
    if c == -1 {
        return difference(sum(along, all(8388608)), j);
    }
    along
}
