//! Division without a division: quotients are guessed by reciprocals that were prepared, and set right.

ghost use Rattle.std.specs.Prelude.{◌≡◌, ◌<◌, ◌≤◌, ◌^◌, ◌+◌, ◌*◌, ◌/◌, ℕ, slice_index};
ghost use Rattle.lbm_lanes.specs.Pairs.{IsDivisor};

use crate::vectors::{all, cut, difference, product, sum};
use std::simd::prelude::*;

// n / d, where the guess is the quotient or one below it. With what is left, 2^61 - d reaches 2^61 where the guess is
// one below.
#[inline(always)]
pub(crate) fn corrected(n: u64x8, d: u64x8, guess: u64x8) -> u64x8
    requires low { (l : ℕ) → l < 8 → slice_index guess l * slice_index d l ≤ slice_index n l }
    requires high { (l : ℕ) → l < 8 → slice_index n l < (slice_index guess l + 2) * slice_index d l }
    requires small { (l : ℕ) → l < 8 → slice_index guess l < 2 ^ 32 }
    requires divides { (l : ℕ) → l < 8 → slice_index d l < 2 ^ 32 }
    requires room { (l : ℕ) → l < 8 → slice_index n l < 2 ^ 62 }
    ensures { (l : ℕ) → l < 8 → slice_index result l ≡ slice_index n l / slice_index d l }
{
    let rest = difference(n, product(guess, d));
    let raised = sum(rest, difference(all(2305843009213693952), d));
    sum(guess, cut(raised, 61))
}

// n / rho, or one below it
#[inline(always)]
pub(crate) fn near_by_density(n: u64x8, rho: u64x8, reciprocal: u64x8) -> u64x8
    requires not_thin { (l : ℕ) → l < 8 → 442368 ≤ slice_index rho l }
    requires not_dense { (l : ℕ) → l < 8 → slice_index rho l ≤ 1769472 }
    requires reciprocal { (l : ℕ) → l < 8 → slice_index reciprocal l ≡ 562949953421312 / slice_index rho l }
    requires small { (l : ℕ) → l < 8 → slice_index n l ≤ 92 * (slice_index rho l * slice_index rho l) }
    ensures low { (l : ℕ) → l < 8 → slice_index result l * slice_index rho l ≤ slice_index n l }
    ensures high { (l : ℕ) → l < 8 → slice_index n l < (slice_index result l + 2) * slice_index rho l }
    ensures fits { (l : ℕ) → l < 8 → slice_index result l < 2 ^ 32 }
{
    cut(product(cut(n, 17), reciprocal), 32)
}

// n / rho
#[inline(always)]
pub(crate) fn by_density(n: u64x8, rho: u64x8, reciprocal: u64x8) -> u64x8
    requires not_thin { (l : ℕ) → l < 8 → 442368 ≤ slice_index rho l }
    requires not_dense { (l : ℕ) → l < 8 → slice_index rho l ≤ 1769472 }
    requires reciprocal { (l : ℕ) → l < 8 → slice_index reciprocal l ≡ 562949953421312 / slice_index rho l }
    requires small { (l : ℕ) → l < 8 → slice_index n l ≤ 92 * (slice_index rho l * slice_index rho l) }
    ensures { (l : ℕ) → l < 8 → slice_index result l ≡ slice_index n l / slice_index rho l }
{
    let guess = near_by_density(n, rho, reciprocal);
    corrected(n, rho, guess)
}

// n / rho, for a small quotient
#[inline(always)]
pub(crate) fn small_by_density(n: u64x8, rho: u64x8, reciprocal: u64x8) -> u64x8
    requires not_thin { (l : ℕ) → l < 8 → 442368 ≤ slice_index rho l }
    requires not_dense { (l : ℕ) → l < 8 → slice_index rho l ≤ 1769472 }
    requires reciprocal { (l : ℕ) → l < 8 → slice_index reciprocal l ≡ 562949953421312 / slice_index rho l }
    requires small { (l : ℕ) → l < 8 → slice_index n l ≤ 442368 * slice_index rho l }
    ensures { (l : ℕ) → l < 8 → slice_index result l ≡ slice_index n l / slice_index rho l }
{
    corrected(n, rho, cut(product(cut(n, 8), reciprocal), 41))
}

// n / k, for a small quotient by a number that is written: the reciprocal of k is near enough to need no correction.
#[inline(always)]
pub(crate) fn by_written(n: u64x8, k: u64) -> u64x8
    requires some { 33 ≤ k }
    requires few { k ≤ 86 }
    requires small { (l : ℕ) → l < 8 → slice_index n l < k * 18546688 }
    ensures { (l : ℕ) → l < 8 → slice_index result l ≡ slice_index n l / k }
{
    let reciprocal = 137438953472 / k + 1;
    cut(product(n, all(reciprocal)), 37)
}

/// A number of the run by which each direction is divided.
#[derive(Clone, Copy)]
pub(crate) struct Divisor {
    pub(crate) d: u64,
    pub(crate) shift: u32,
    pub(crate) reciprocal: u64,
}

// How many digits of a dividend are cut off.
#[inline(always)]
fn shift(d: u64) -> u32
    requires some { 2 ≤ d }
    requires small { d ≤ 442368 }
    ensures above { 2 * 2 ^ result ≤ d }
    ensures below { d < 128 * 2 ^ result }
    ensures known { result ≤ 12 }
{
    if d < 128 {
        0
    } else if d < 4096 {
        5
    } else if d < 131072 {
        10
    } else {
        12
    }
}

impl Divisor {
    pub(crate) fn new(d: u64) -> Divisor
        requires some { 2 ≤ d }
        requires small { d ≤ 442368 }
        ensures number { result.d ≡ d }
        ensures prepared { IsDivisor result.d result.shift result.reciprocal }
    {
        let shift = shift(d);
        let reciprocal = (4294967296 << shift) / d;
        Divisor {
            d,
            shift,
            reciprocal,
        }
    }

    // n / d
    #[inline(always)]
    pub(crate) fn quotient(&self, n: u64x8) -> u64x8
        requires prepared { IsDivisor self.now.d self.now.shift self.now.reciprocal }
        requires divides { self.now.d ≤ 442368 }
        requires small { (l : ℕ) → l < 8 → slice_index n l < self.now.d * 16777216 }
        ensures value { (l : ℕ) → l < 8 → slice_index result l ≡ slice_index n l / self.now.d }
        ensures size { (l : ℕ) → l < 8 → slice_index result l < 16777216 }
    {
        let guess = cut(product(cut(n, self.shift), all(self.reciprocal)), 32);
        corrected(n, all(self.d), guess)
    }
}
