//! Reciprocals of densities, guessed and set right.

ghost use Rattle.std.specs.Prelude.{◌≡◌, ◌<◌, ◌≤◌, ◌+◌, ◌*◌, ◌/◌, ◌^◌, ℕ, ℤ, pos, ◌≤ℤ◌, true, slice_index, slice_index_or};

use crate::quotient::corrected;
use crate::signed::{minus, negative, signed, signs};
use crate::vectors::{all, product, sum};
use std::simd::prelude::*;

// 2^49 / rho or about that, by one division of floating-point numbers. Whatever it is, its caller asks.
#[inline(always)]
fn guessed(rho: u64x8) -> u64x8
    requires { (l : ℕ) → l < 8 → slice_index rho l ≤ 1769472 }
    ensures { (l : ℕ) → l < 8 → slice_index result l < 2 ^ 32 }
{
    let places = f64x8::splat(562949953421312.0) / rho.cast::<i32>().cast::<f64>();
    let whole = (places + f64x8::splat(4503599627370495.25)).to_array();
    let mut bits = [0; 8];
    for l in 0..8 {
        bits[l] = std::num::f64_to_bits_with_nan(whole[l]);
    }
    u64x8::from_array(bits) & u64x8::splat(4294967295)
}

// Whether the products of guesses with the densities are at most 2^49, and less than twice a density below it.
#[inline(always)]
fn near(part: u64x8, rho: u64x8) -> bool
    requires part { (l : ℕ) → l < 8 → slice_index part l < 2 ^ 60 }
    requires rho { (l : ℕ) → l < 8 → slice_index rho l ≤ 1769472 }
    ensures low { (l : ℕ) → result ≡ true → l < 8 → slice_index part l ≤ 562949953421312 }
    ensures high { (l : ℕ) → result ≡ true → l < 8 → 562949953421312 < slice_index part l + 2 * slice_index rho l }
{
    let most = minus([562949953421312; 8], signed(part));
    let least = minus(signed(sum(part, sum(rho, rho))), [562949953421313; 8]);
    negative(signs(most, least)) == 0
}

// 2^49 / rho, by a division for each lane.
#[inline(never)]
#[cold]
fn divided(rho: u64x8) -> u64x8
    requires { (l : ℕ) → l < 8 → 442368 ≤ slice_index rho l }
    ensures { (l : ℕ) → l < 8 → slice_index result l ≡ 562949953421312 / slice_index rho l }
{
    let rhos = rho.to_array();
    let mut lanes = [0; 8];
    for l in 0..8 {
        lanes[l] = 562949953421312 / rhos[l];
    }
    u64x8::from_array(lanes)
}

/// 2^49 / rho
#[inline(always)]
pub(crate) fn reciprocals(rho: u64x8) -> u64x8
    requires not_thin { (l : ℕ) → l < 8 → 442368 ≤ slice_index rho l }
    requires not_dense { (l : ℕ) → l < 8 → slice_index rho l ≤ 1769472 }
    ensures { (l : ℕ) → l < 8 → slice_index result l ≡ 562949953421312 / slice_index rho l }
{
    let guess = guessed(rho);
    let part = product(guess, rho);
    if !near(part, rho) {
        return divided(rho);
    }
    let whole = all(562949953421312);
    corrected(whole, rho, guess)
}
