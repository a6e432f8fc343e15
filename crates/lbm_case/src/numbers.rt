//! The ranges of the numbers of a case file.

ghost use Rattle.std.specs.Prelude.{◌≡◌, ◌<◌, not, nat_le, pos, unsigned_abs, None, OnOk};
ghost use Rattle.std.specs.List.{list_all};
ghost use Rattle.std.specs.Ordering.{int_eq};
ghost use Rattle.lbm_case.specs.Refusals.{refuse};
ghost use Rattle.lbm_case.specs.Views.{settings_view, Gives};
ghost use Rattle.lbm_case.specs.Numbers.{is_plane, is_between, is_rate, is_vector, is_in_range, bad_number};

use crate::fault::{CaseEnd, CaseFault};
use crate::key::Key;
use crate::settings::Settings;
use lbm_cell::{GREATEST_DENSITY, GREATEST_FORCE, GREATEST_RATE, LEAST_DENSITY, UNIT};
use lbm_model::SetKind;
use lbm_space::GREATEST_SIDE;

/// The greatest density that each step of a digit adds.
const GREATEST_DIGIT: i64 = 200_000;

/// Whether the velocity set is one of the plane.
fn is_plane(set: Option<SetKind>) -> bool
    ensures { result ≡ is_plane set }
{
    match set {
        Some(set) => set.dimension() == 2,
        None => false,
    }
}

/// Whether `n` is from `low` to `high`.
fn is_between(low: i64, high: i64, n: i64) -> bool
    ensures { result ≡ is_between low high n }
{
    low <= n && n <= high
}

/// Whether `n / q` is a rate: `n` is from 1 to the greatest, and below twice `q`.
fn is_rate(n: i64, q: i64) -> bool
    ensures { result ≡ is_rate n q }
{
    is_between(1, GREATEST_RATE, n) && i128::from(n) < 2 * i128::from(q)
}

/// Whether `n` is 0.
fn is_zero(n: i64) -> bool
    ensures { result ≡ int_eq n (pos 0) }
{
    n == 0
}

/// Whether each part of `u` has at most this size.
fn is_short(size: u64, u: [i64; 3]) -> bool
    ensures { result ≡ list_all (λ n. nat_le (unsigned_abs n) size) u }
{
    u.iter().all(|n| n.unsigned_abs() <= size)
}

/// Whether each part of `u` has at most this size, and the third one is 0 in the plane.
fn is_vector(plane: bool, size: u64, u: [i64; 3]) -> bool
    ensures { result ≡ is_vector plane size u }
{
    is_short(size, u) && (!plane || is_zero(u[2]))
}

/// Whether the numbers at a key are in their range.
fn is_in_range(settings: &Settings, key: Key) -> bool
    ensures { result ≡ is_in_range (settings_view settings.now) key }
{
    let plane = is_plane(settings.set);
    let [p, q] = settings.rate;
    match key {
        Key::Set | Key::Map => true,
        Key::Omega => is_between(1, GREATEST_RATE, q) && is_rate(p, q),
        Key::Layers => {
            let most = if plane { 1 } else { i64::from(GREATEST_SIDE) };
            is_between(1, most, settings.layers)
        }
        Key::Density => is_between(LEAST_DENSITY, GREATEST_DENSITY, settings.density),
        Key::Digit => is_between(0, GREATEST_DIGIT, settings.digit),
        Key::Momentum => is_vector(plane, UNIT as u64, settings.momentum),
        Key::Force => is_vector(plane, GREATEST_FORCE as u64, settings.force),
        Key::OmegaMinus => is_rate(settings.rate_minus, q),
        Key::Wall => is_vector(plane, GREATEST_FORCE as u64, settings.wall),
    }
}

/// The first key whose numbers are out of their range.
fn bad_number(settings: &Settings) -> Option<Key>
    ensures { result ≡ bad_number (settings_view settings.now) }
{
    Key::all()
        .iter()
        .copied()
        .find(|key| !is_in_range(settings, *key))
}

/// Refuses numbers that are out of their range.
pub(crate) fn check_numbers(settings: &Settings) -> Result<(), CaseEnd>
    ensures checked { Gives (λ u. u) result (refuse CaseFault.BadNumber (bad_number (settings_view settings.now))) }
    ensures ranged { OnOk result (bad_number (settings_view settings.now) ≡ None) }
{
    match bad_number(settings) {
        Some(key) => Err(CaseEnd::Fault(CaseFault::BadNumber(key))),
        None => Ok(()),
    }
}

/// The number of layers.
pub(crate) fn layers(settings: &Settings) -> usize
    requires { bad_number (settings_view settings.now) ≡ None }
    ensures value { result ≡ unsigned_abs settings.now.layers }
    ensures some { 0 < result }
{
    settings.layers.unsigned_abs() as usize
}
