//! The rows of a drawing.

ghost use Rattle.std.specs.Prelude.{◌≡◌, ◌<◌, ◌==◌, not, nat_lt, length, position, None, OnOk};
ghost use Rattle.std.specs.Str.{chars};
ghost use Rattle.toml.specs.View.{view};
ghost use Rattle.lbm_model.specs.Refusals.{demand};
ghost use Rattle.lbm_case.specs.Refusals.{refuse};
ghost use Rattle.lbm_case.specs.Views.{text_of, drawing_view, Gives, IsSmall};
ghost use Rattle.lbm_case.specs.Drawing.{is_strange, width, other_row, undivided, ragged, strange_place};

use crate::fault::{CaseEnd, CaseFault};
use toml::Value;

/// The text of a row.
pub(crate) fn text_of(row: &Value) -> &str
    ensures { result.now ≡ text_of (view row.now) }
{
    match row {
        Value::String(text) => text.as_str(),
        _ => "",
    }
}

/// The number of characters in a text.
#[tactic(auto, using(std::proofs::lemmas::Str::chars_from_encodes))]
fn characters(text: &str) -> usize
    ensures { result ≡ length (chars text.now) }
{
    text.chars().count()
}

/// The number of characters in a row.
fn length_of(row: &Value) -> usize
    ensures { result ≡ length (chars (text_of (view row.now))) }
{
    characters(text_of(row))
}

/// The number of characters in the first row, or 0 where there is no row.
pub(crate) fn width(rows: &[Value]) -> usize
    ensures { result ≡ width (drawing_view rows.now) }
{
    match rows {
        [first, ..] => length_of(first),
        [] => 0,
    }
}

/// Whether a row is not so long.
fn is_other(row: &Value, width: usize) -> bool
    ensures { result ≡ not (length (chars (text_of (view row.now))) == width) }
{
    length_of(row) != width
}

/// The first row that is not so long.
fn position_of_other(rows: &[Value], width: usize) -> Option<usize>
    ensures { result ≡ position (λ row. not (length (chars (text_of (view row))) == width)) rows.now }
{
    rows.iter().position(|row| is_other(row, width))
}

/// The first row that is not as long as the first one.
fn other_row(rows: &[Value]) -> Option<usize>
    ensures { result ≡ other_row (drawing_view rows.now) }
{
    position_of_other(rows, width(rows))
}

/// The number of rows, where the layers do not divide it.
fn undivided(layers: usize, rows: &[Value]) -> Option<usize>
    requires { 0 < layers }
    ensures { result ≡ undivided layers (drawing_view rows.now) }
{
    if rows.len() % layers == 0 {
        None
    } else {
        Some(rows.len())
    }
}

/// The first row that is not as long as the first one. Where there is none, the number of rows, if the layers do not
/// divide it.
fn ragged(layers: usize, rows: &[Value]) -> Option<usize>
    requires { 0 < layers }
    ensures { result ≡ ragged layers (drawing_view rows.now) }
{
    other_row(rows).or(undivided(layers, rows))
}

/// Whether a character stands for no cell.
fn is_strange(c: char) -> bool
    ensures { result ≡ is_strange c }
{
    !matches!(c, '.' | '#' | '=' | '0'..='9')
}

/// The first column of a row in which a character stands for no cell.
fn strange_column(text: &str) -> Option<usize>
    ensures { result ≡ position is_strange (chars text.now) }
{
    text.chars().position(|c| is_strange(c))
}

/// The first row with a character that stands for no cell, and its first such column.
fn strange_place(rows: &[Value]) -> Option<(usize, usize)>
    ensures { result ≡ strange_place (drawing_view rows.now) }
{
    for (row, value) in rows.iter().enumerate() {
        if let Some(column) = strange_column(text_of(value)) {
            return Some((row, column));
        }
    }
    None
}

/// Refuses a drawing without a row, or without a character in its first row.
pub(crate) fn check_width(rows: &[Value]) -> Result<(), CaseEnd>
    ensures { Gives (λ u. u) result (demand (nat_lt 0 (width (drawing_view rows.now))) CaseFault.EmptyMap) }
{
    if width(rows) == 0 {
        return Err(CaseEnd::Fault(CaseFault::EmptyMap));
    }
    Ok(())
}

/// Refuses rows that are not equally long, or that the layers do not divide.
pub(crate) fn check_lengths(layers: usize, rows: &[Value]) -> Result<(), CaseEnd>
    requires layers { 0 < layers }
    requires small { IsSmall (drawing_view rows.now) }
    ensures checked { Gives (λ u. u) result (refuse CaseFault.Ragged (ragged layers (drawing_view rows.now))) }
    ensures even { OnOk result (ragged layers (drawing_view rows.now) ≡ None) }
{
    match ragged(layers, rows) {
        Some(row) => Err(CaseEnd::Fault(CaseFault::Ragged(row as u32))),
        None => Ok(()),
    }
}

/// Refuses a character that stands for no cell.
pub(crate) fn check_characters(rows: &[Value]) -> Result<(), CaseEnd>
    requires { IsSmall (drawing_view rows.now) }
    ensures { Gives (λ u. u) result (refuse (λ at. CaseFault.BadChar at.0 at.1) (strange_place (drawing_view rows.now))) }
{
    match strange_place(rows) {
        Some((row, column)) => Err(CaseEnd::Fault(CaseFault::BadChar(row as u32, column as u32))),
        None => Ok(()),
    }
}
