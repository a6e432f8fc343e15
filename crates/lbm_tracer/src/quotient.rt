//! Division by a guess that is tested.
//!
//! No proof says anything of the floating-point numbers here: a guess that is wrong costs a division.

ghost use Rattle.std.specs.Prelude.{◌≡◌, ◌<◌, ◌≤◌, ◌^◌, pos, ◌≤ℤ◌, unsigned_abs};
ghost use Rattle.lbm_cell.specs.Collision.{floor_div};

use std::num::{f64_from_bits_with_nan, f64_to_bits_with_nan};

// The exponent of numbers from 2^52 on, below 2^53: their last 52 bits tell how far they lie above it.
const EXPONENT: u64 = 4841369599423283200;

// The last 52 bits.
const FRACTION: u64 = 4503599627370495;

// a as a floating-point number, where it is below 2^51 in size.
#[inline(always)]
fn float_of(a: i64) -> f64 {
    let raised = a.wrapping_add(2251799813685248).cast_unsigned() & FRACTION;
    f64_from_bits_with_nan(raised | EXPONENT) - 6755399441055744.0
}

// x rounded down, where it is below 2^26 in size and less than 1 / 800 below the next whole number it is rounded up.
#[inline(always)]
fn whole(x: f64) -> i64
    ensures { unsigned_abs result ≤ 67108864 }
{
    let bits = f64_to_bits_with_nan(x - 0.49875 + 4503599694479360.0);
    (bits & 134217727) as i64 - 67108864
}

/// 2^11 / d, about.
#[inline(always)]
pub fn inverse(d: i64) -> f64 {
    2048.0 / float_of(d)
}

// a / d rounded down, by a division.
#[inline(never)]
#[cold]
fn divided(a: i64, d: i64) -> i64
    requires small { unsigned_abs a < 2 ^ 62 }
    requires some { pos 1 ≤ℤ d }
    ensures { result ≡ floor_div a d }
{
    a.div_euclid(d)
}

/// a / d rounded down. If `inverse` is not that of d, a division is made.
#[inline(always)]
pub fn quotient(a: i64, d: i64, inverse: f64) -> i64
    requires small { unsigned_abs a < 2 ^ 62 }
    requires some { pos 1 ≤ℤ d }
    requires few { d ≤ℤ pos 34359738368 }
    ensures { result ≡ floor_div a d }
{
    let guess = whole(float_of(a >> 11) * inverse);
    let rest = a - guess * d;
    if 0 <= rest && rest < d {
        return guess;
    }
    divided(a, d)
}
