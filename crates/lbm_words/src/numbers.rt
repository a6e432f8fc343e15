//! The numbers of the command line.

ghost use Rattle.std.specs.Prelude.{◌≡◌, map, IfOk};
ghost use Rattle.std.specs.List.{slice_split};
ghost use Rattle.lbm_number.specs.Number.{number_of};
ghost use Rattle.lbm_words.specs.Ends.{Gives};
ghost use Rattle.lbm_words.specs.Numbers.{number_between, numbers_of, each, is_comma};

use crate::end::WordsEnd;
use lbm_number::number_of;
use std::alloc::{AllocError, Global};

const MOST_CUTS: usize = 4095;

/// A number from `low` to `high`.
pub(crate) fn number_between(low: u32, high: u32, text: &str) -> Option<u32>
    ensures { result ≡ number_between low high text.now }
{
    match number_of(text.as_bytes()) {
        Some(n) if low <= n && n <= high => Some(n),
        _ => None,
    }
}

/// The texts between the commas of a text.
fn parts_of<'a>(alloc: Global, text: &'a str) -> Result<Vec<&'a str>, AllocError>
    ensures { IfOk result (λ parts. map (λ part. part.now) parts.items ≡ slice_split is_comma text.now) }
{
    text.split(',').collect(alloc)
}

/// The numbers that the texts spell.
fn each_number(alloc: Global, texts: &[&str]) -> Result<Vec<u32>, WordsEnd>
    ensures { Gives (λ numbers. numbers.items) result (each number_of (map (λ text. text.now) texts.now)) }
{
    let mut numbers = Vec::new(alloc);
    for text in texts {
        let number = number_of(text.as_bytes()).ok_or(WordsEnd::Usage)?;
        numbers.push(number)?;
    }
    Ok(numbers)
}

/// The numbers that a text spells, joined by single commas.
pub(crate) fn numbers_between_commas(alloc: Global, text: &str) -> Result<Vec<u32>, WordsEnd>
    ensures { Gives (λ numbers. numbers.items) result (each number_of (slice_split is_comma text.now)) }
{
    let parts = parts_of(alloc, text)?;
    each_number(alloc, parts.as_slice())
}

/// At most 4095 numbers, joined by single commas.
#[tactic(auto, unfolding(crate::specs::Numbers::numbers_of))]
pub(crate) fn numbers_of(alloc: Global, text: &str) -> Result<Vec<u32>, WordsEnd>
    ensures { Gives (λ numbers. numbers.items) result (numbers_of text.now) }
{
    let numbers = numbers_between_commas(alloc, text)?;
    if numbers.len() > MOST_CUTS {
        return Err(WordsEnd::Usage);
    }
    Ok(numbers)
}
