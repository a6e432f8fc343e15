//! Eight numbers in step. No sum and no product reaches 2^62.

ghost use Rattle.std.specs.Prelude.{◌≡◌, ◌<◌, ◌≤◌, ◌^◌, ◌*◌, ◌+◌, ◌-◌, ◌/◌, ℕ, length, slice_index};

use std::simd::prelude::*;

#[inline(always)]
pub(crate) fn sum(a: u64x8, b: u64x8) -> u64x8
    requires { (l : ℕ) → l < 8 → slice_index a l + slice_index b l < 2 ^ 62 }
    ensures { (l : ℕ) → l < 8 → slice_index result l ≡ slice_index a l + slice_index b l }
{
    a.strict_add(b)
}

#[inline(always)]
pub(crate) fn difference(a: u64x8, b: u64x8) -> u64x8
    requires { (l : ℕ) → l < 8 → slice_index b l ≤ slice_index a l }
    ensures { (l : ℕ) → l < 8 → slice_index result l ≡ slice_index a l - slice_index b l }
{
    a.strict_sub(b)
}

// The same numbers, which fit 32 bits, so that a product of two takes one instruction.
#[inline(always)]
fn narrow(a: u64x8) -> u64x8
    requires { (l : ℕ) → l < 8 → slice_index a l < 2 ^ 32 }
    ensures value { (l : ℕ) → l < 8 → slice_index result l ≡ slice_index a l }
    ensures eight { length result ≡ 8 }
{
    a.cast::<u32>().cast::<u64>()
}

#[inline(always)]
pub(crate) fn product(a: u64x8, b: u64x8) -> u64x8
    requires first { (l : ℕ) → l < 8 → slice_index a l < 2 ^ 32 }
    requires second { (l : ℕ) → l < 8 → slice_index b l < 2 ^ 32 }
    requires room { (l : ℕ) → l < 8 → slice_index a l * slice_index b l < 2 ^ 62 }
    ensures { (l : ℕ) → l < 8 → slice_index result l ≡ slice_index a l * slice_index b l }
{
    narrow(a).strict_mul(narrow(b))
}

// k a
#[inline(always)]
pub(crate) fn multiple(k: u64, a: u64x8) -> u64x8
    requires { (l : ℕ) → l < 8 → k * slice_index a l < 2 ^ 62 }
    ensures { (l : ℕ) → l < 8 → slice_index result l ≡ k * slice_index a l }
{
    u64x8::splat(k).strict_mul(a)
}

// k a, for numbers that fit 32 bits
#[inline(always)]
pub(crate) fn narrow_multiple(k: u64, a: u64x8) -> u64x8
    requires factor { k < 2 ^ 32 }
    requires numbers { (l : ℕ) → l < 8 → slice_index a l < 2 ^ 32 }
    requires room { (l : ℕ) → l < 8 → k * slice_index a l < 2 ^ 62 }
    ensures { (l : ℕ) → l < 8 → slice_index result l ≡ k * slice_index a l }
{
    product(all(k), a)
}

#[inline(always)]
pub(crate) fn cut(a: u64x8, shift: u32) -> u64x8
    requires { shift < 64 }
    ensures { (l : ℕ) → l < 8 → slice_index result l ≡ slice_index a l / 2 ^ shift }
{
    a >> u64x8::splat(shift as u64)
}

#[inline(always)]
pub(crate) fn all(x: u64) -> u64x8
    ensures { (l : ℕ) → l < 8 → slice_index result l ≡ x }
{
    u64x8::splat(x)
}
