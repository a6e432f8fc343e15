//! The values that a command finds in its words.

ghost use Rattle.std.specs.Prelude.{◌≡◌, Some, None, codes, option_map};
ghost use Rattle.clap.specs.Words.{first_of};
ghost use Rattle.lbm_words.specs.Ends.{Gives};
ghost use Rattle.lbm_number.specs.Number.{number_of};
ghost use Rattle.lbm_words.specs.Numbers.{number_between, numbers_of};
ghost use Rattle.lbm_words.specs.Names.{pattern_named};
ghost use Rattle.lbm_words.specs.Request.{choice_view};
ghost use Rattle.lbm_words.specs.Words.{rows_in, required, optional, steps_of, format_of, choice_of, is_other, tracer_rate_of};

use crate::end::WordsEnd;
use crate::names::{format_named, pattern_named};
use crate::numbers::{number_between, numbers_of};
use crate::rate::{rate, rate_of};
use crate::request::{Choice, PatternKind};
use clap::ArgMatches;
use lbm_cell::Rates;
use lbm_model::MOST_STEPS;
use lbm_number::number_of;
use lbm_vtk::Format;
use std::alloc::Global;

const MOST_WORKERS: u32 = 64;

const MOST_ROWS: u32 = 4096;

/// The text at an argument.
pub(crate) fn value<'a>(matches: &ArgMatches<'a>, name: &str) -> Option<&'a str>
    ensures { option_map (λ text. text.now) result ≡ first_of name.now (rows_in matches.now) }
{
    matches.get_str(name)
}

/// The text at an argument that has to be there.
pub(crate) fn text_of<'a>(matches: &ArgMatches<'a>, name: &str) -> Result<&'a str, WordsEnd>
    ensures { Gives (λ text. text.now) result (first_of name.now (rows_in matches.now)) }
{
    value(matches, name).ok_or(WordsEnd::Usage)
}

/// The number at an argument that has to be there, from `low` to `high`.
pub(crate) fn required_number(
    matches: &ArgMatches<'_>,
    name: &str,
    low: u32,
    high: u32,
) -> Result<u32, WordsEnd>
    ensures { Gives (λ n. n) result (required (number_between low high) name.now (rows_in matches.now)) }
{
    let text = text_of(matches, name)?;
    number_between(low, high, text).ok_or(WordsEnd::Usage)
}

/// The number at an option, from `low` to `high`, or the default where the option is absent.
fn optional_number(
    matches: &ArgMatches<'_>,
    name: &str,
    low: u32,
    high: u32,
    default: u32,
) -> Result<u32, WordsEnd>
    ensures { Gives (λ n. n) result (optional (number_between low high) default name.now (rows_in matches.now)) }
{
    match value(matches, name) {
        Some(text) => number_between(low, high, text).ok_or(WordsEnd::Usage),
        None => Ok(default),
    }
}

/// The number of steps: at most a million.
pub(crate) fn steps_of(matches: &ArgMatches<'_>) -> Result<u32, WordsEnd>
    ensures { Gives (λ n. n) result (steps_of (rows_in matches.now)) }
{
    required_number(matches, "steps", 0, MOST_STEPS)
}

/// The format of the result, which is text where the option is absent.
pub(crate) fn format_of(matches: &ArgMatches<'_>) -> Result<Format, WordsEnd>
    ensures { Gives (λ format. format) result (format_of (rows_in matches.now)) }
{
    match value(matches, "format") {
        Some(name) => format_named(name).ok_or(WordsEnd::Usage),
        None => Ok(Format::Ascii),
    }
}

/// The pattern, which is the AA pattern where the option is absent.
fn pattern_of(matches: &ArgMatches<'_>) -> Result<PatternKind, WordsEnd>
    ensures { Gives (λ pattern. pattern) result (optional pattern_named PatternKind.Aa (codes "pattern") (rows_in matches.now)) }
{
    match value(matches, "pattern") {
        Some(name) => pattern_named(name).ok_or(WordsEnd::Usage),
        None => Ok(PatternKind::Aa),
    }
}

/// The rows at which the lattice is cut, where they are given.
fn cut_of(alloc: Global, matches: &ArgMatches<'_>) -> Result<Option<Vec<u32>>, WordsEnd>
    ensures { Gives (option_map (λ rows. rows.items)) result (optional (λ text. option_map Some (numbers_of text)) None (codes "cut") (rows_in matches.now)) }
{
    match value(matches, "cut") {
        Some(text) => Ok(Some(numbers_of(alloc, text)?)),
        None => Ok(None),
    }
}

/// How the lattice is worked through.
#[tactic(auto, unfolding(crate::specs::Words::choice_of))]
pub(crate) fn choice_of(alloc: Global, matches: &ArgMatches<'_>) -> Result<Choice, WordsEnd>
    ensures { Gives choice_view result (choice_of (rows_in matches.now)) }
{
    let pattern = pattern_of(matches)?;
    let workers = optional_number(matches, "workers", 1, MOST_WORKERS, 1)?;
    let cut = cut_of(alloc, matches)?;
    let tile = optional_number(matches, "tile", 1, MOST_ROWS, 8)?;
    Ok(Choice {
        pattern,
        workers,
        cut,
        tile,
    })
}

/// The number of the cell in which a tracer begins.
pub(crate) fn cell_of(matches: &ArgMatches<'_>) -> Result<u32, WordsEnd>
    ensures { Gives (λ n. n) result (required number_of (codes "cell") (rows_in matches.now)) }
{
    let text = text_of(matches, "cell")?;
    number_of(text.as_bytes()).ok_or(WordsEnd::Usage)
}

/// The rate of a tracer, which is 1 where the option is absent.
pub(crate) fn tracer_rate_of(alloc: Global, matches: &ArgMatches<'_>) -> Result<Rates, WordsEnd>
    ensures { Gives (λ rate. rate) result (tracer_rate_of (rows_in matches.now)) }
{
    match value(matches, "rate") {
        Some(text) => rate_of(alloc, text),
        None => rate(1, 1).ok_or(WordsEnd::Usage),
    }
}

/// Whether a name that may be absent is another one.
pub(crate) fn is_other(name: &str, other: Option<&str>) -> bool
    ensures { result ≡ is_other name.now (option_map (λ text. text.now) other.entry) }
{
    match other {
        Some(text) => text != name,
        None => true,
    }
}
