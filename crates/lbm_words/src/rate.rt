//! The relaxation rate of a tracer.

ghost use Rattle.std.specs.Prelude.{◌≡◌};
ghost use Rattle.lbm_words.specs.Ends.{Gives};
ghost use Rattle.lbm_words.specs.Rate.{rate, rate_of_two, rate_of};

use crate::end::WordsEnd;
use crate::numbers::numbers_between_commas;
use lbm_cell::Rates;
use std::alloc::Global;

/// The rate `p` over `q`, or `None` where a number is out of range.
pub(crate) fn rate(p: u32, q: u32) -> Option<Rates>
    ensures { result ≡ rate p q }
{
    Rates::new(i64::from(p), i64::from(q))
}

/// The rate of two numbers.
fn rate_of_two(numbers: &[u32]) -> Option<Rates>
    ensures { result ≡ rate_of_two numbers.now }
{
    match numbers {
        [p, q] => rate(*p, *q),
        _ => None,
    }
}

/// The rate that a text spells: `p,q`.
#[tactic(auto, unfolding(crate::specs::Rate::rate_of))]
pub(crate) fn rate_of(alloc: Global, text: &str) -> Result<Rates, WordsEnd>
    ensures { Gives (λ rate. rate) result (rate_of text.now) }
{
    let numbers = numbers_between_commas(alloc, text)?;
    rate_of_two(numbers.as_slice()).ok_or(WordsEnd::Usage)
}
