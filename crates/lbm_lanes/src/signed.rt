//! Eight signed numbers in step. No sum and no difference reaches 2^62 in size.

ghost use Rattle.std.specs.Prelude.{◌≡◌, ◌<◌, ◌≤◌, ◌^◌, ◌*◌, ℕ, ℤ, pos, ◌+ℤ◌, ◌-ℤ◌, ◌≤ℤ◌, unsigned_abs, slice_index, int_le, nat_lt, ◌&&◌, not, if◌then◌else◌, FitsSigned};
ghost use Rattle.std.specs.Int.{w64};
ghost use Rattle.lbm_lanes.specs.Lanes.{entry, has};

use std::simd::prelude::*;

#[inline(always)]
pub(crate) fn plus(a: [i64; 8], b: [i64; 8]) -> [i64; 8]
    requires first { (l : ℕ) → l < 8 → unsigned_abs (entry a l) < 2 ^ 61 }
    requires second { (l : ℕ) → l < 8 → unsigned_abs (entry b l) < 2 ^ 61 }
    ensures { (l : ℕ) → l < 8 → entry result l ≡ entry a l +ℤ entry b l }
{
    (i64x8::from_array(a) + i64x8::from_array(b)).to_array()
}

#[inline(always)]
pub(crate) fn minus(a: [i64; 8], b: [i64; 8]) -> [i64; 8]
    requires first { (l : ℕ) → l < 8 → unsigned_abs (entry a l) < 2 ^ 61 }
    requires second { (l : ℕ) → l < 8 → unsigned_abs (entry b l) < 2 ^ 61 }
    ensures { (l : ℕ) → l < 8 → entry result l ≡ entry a l -ℤ entry b l }
{
    (i64x8::from_array(a) - i64x8::from_array(b)).to_array()
}

// Numbers of which each is negative where one of the two is.
#[inline(always)]
pub(crate) fn signs(a: [i64; 8], b: [i64; 8]) -> [i64; 8]
    requires first { (l : ℕ) → l < 8 → FitsSigned w64 (entry a l) }
    requires second { (l : ℕ) → l < 8 → FitsSigned w64 (entry b l) }
    ensures sign { (l : ℕ) → l < 8 → int_le (pos 0) (entry result l) ≡ (int_le (pos 0) (entry a l) && int_le (pos 0) (entry b l)) }
    ensures fits { (l : ℕ) → l < 8 → FitsSigned w64 (entry result l) }
{
    (i64x8::from_array(a) | i64x8::from_array(b)).to_array()
}

// The lanes whose numbers are negative.
#[inline(always)]
pub(crate) fn negative(a: [i64; 8]) -> u8
    requires { (l : ℕ) → l < 8 → FitsSigned w64 (entry a l) }
    ensures { (l : ℕ) → l < 8 → has result l ≡ not (int_le (pos 0) (entry a l)) }
{
    i64x8::from_array(a).simd_lt(i64x8::splat(0)).to_bitmask() as u8
}

// The first where the flags are above 0, and the second elsewhere.
#[inline(always)]
pub(crate) fn picked(flags: u64x8, first: [i64; 8], second: [i64; 8]) -> [i64; 8]
    requires first { (l : ℕ) → l < 8 → FitsSigned w64 (entry first l) }
    requires second { (l : ℕ) → l < 8 → FitsSigned w64 (entry second l) }
    ensures { (l : ℕ) → l < 8 → entry result l ≡ (if nat_lt 0 (slice_index flags l) then entry first l else entry second l) }
{
    let chosen = u64x8::splat(0).simd_lt(flags);
    chosen
        .select(i64x8::from_array(first), i64x8::from_array(second))
        .to_array()
}

// Numbers that are not negative, as natural numbers.
#[inline(always)]
pub(crate) fn natural(a: [i64; 8]) -> u64x8
    requires above { (l : ℕ) → l < 8 → pos 0 ≤ℤ entry a l }
    requires small { (l : ℕ) → l < 8 → unsigned_abs (entry a l) < 2 ^ 62 }
    ensures { (l : ℕ) → l < 8 → entry a l ≡ pos (slice_index result l) }
{
    i64x8::from_array(a).cast::<u64>()
}

// Natural numbers, as signed ones.
#[inline(always)]
pub(crate) fn signed(a: u64x8) -> [i64; 8]
    requires { (l : ℕ) → l < 8 → slice_index a l < 2 ^ 62 }
    ensures { (l : ℕ) → l < 8 → entry result l ≡ pos (slice_index a l) }
{
    a.cast::<i64>().to_array()
}
