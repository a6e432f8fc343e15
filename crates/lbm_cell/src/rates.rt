//! The rates of relaxation.

ghost use Rattle.std.specs.Prelude.{◌≡◌, SomeIff};
ghost use Rattle.lbm_cell.specs.Collision.{RelaxationRates, IsRates, rates};

use crate::constants::GREATEST_RATE;
use std::marker::Model;

/// Two relaxation times: p / q and m / q.
#[derive(Clone, Copy, Debug, PartialEq, Eq)]
pub struct Rates {
    p: i64,
    m: i64,
    q: i64,
}

impl Model for Rates {
    ghost Value = { RelaxationRates };

    ghost view = { λ s. rates s.p s.m s.q };

    ghost invariant = { λ s. IsRates (rates s.p s.m s.q) };

    ghost inverse = { λ r. record { p = r.p; m = r.m; q = r.q } };
}

impl Rates {
    /// One relaxation time, p / q, or `None` where a number is out of range.
    pub fn new(p: i64, q: i64) -> Option<Rates>
        ensures { SomeIff result (IsRates (rates p p q)) (rates p p q) }
    {
        Rates::trt(p, p, q)
    }

    /// Two relaxation times, or `None` where a number is out of range.
    pub fn trt(p: i64, m: i64, q: i64) -> Option<Rates>
        ensures { SomeIff result (IsRates (rates p m q)) (rates p m q) }
    {
        let range = 1..=GREATEST_RATE;
        if !range.contains(&p) || !range.contains(&m) || !range.contains(&q) {
            return None;
        }
        if p >= 2 * q || m >= 2 * q {
            return None;
        }
        Some(Rates { p, m, q })
    }

    /// The numerator for the even part.
    pub fn p(&self) -> i64
        ensures value { result ≡ self.now.p }
        ensures valid { IsRates self.now }
    {
        self.p
    }

    /// The numerator for the odd part.
    pub fn m(&self) -> i64
        ensures value { result ≡ self.now.m }
        ensures valid { IsRates self.now }
    {
        self.m
    }

    /// The denominator of both.
    pub fn q(&self) -> i64
        ensures value { result ≡ self.now.q }
        ensures valid { IsRates self.now }
    {
        self.q
    }
}
