//! What the table of a case file holds at its keys.

ghost use Rattle.std.specs.Prelude.{◌≡◌, map, option_map, is_some, Ok, IfOk};
ghost use Rattle.std.specs.List.{list_all};
ghost use Rattle.toml.specs.Data.{array, as_integer, as_str};
ghost use Rattle.toml.specs.View.{view, items_view, table_view};
ghost use Rattle.lbm_case.specs.Settings.{value_at, set_in, texts_in, integers_in, required, optional, settings_of, zero_vector};
ghost use Rattle.lbm_case.specs.Views.{text_of, texts_view, settings_view, Gives};

use crate::fault::{CaseEnd, CaseFault};
use crate::key::Key;
use lbm_cell::UNIT;
use lbm_model::SetKind;
use toml::{Table, Value};

/// What a case file holds at its keys: each value is of its kind, and its numbers are not tested yet.
#[derive(Clone, Copy)]
pub(crate) struct Settings<'a> {
    /// The velocity set, where the file names one that is known.
    pub(crate) set: Option<SetKind>,
    /// The rate p / q, as p and q.
    pub(crate) rate: [i64; 2],
    /// The rows of the drawing, each of them a text.
    pub(crate) rows: &'a [Value],
    /// The number of layers of the drawing.
    pub(crate) layers: i64,
    /// The first density of a plain fluid cell.
    pub(crate) density: i64,
    /// What each step of a digit adds to it.
    pub(crate) digit: i64,
    /// The first momentum of each fluid cell.
    pub(crate) momentum: [i64; 3],
    /// The force on the fluid.
    pub(crate) force: [i64; 3],
    /// The numerator of the second rate, over q.
    pub(crate) rate_minus: i64,
    /// The velocity of the moving walls.
    pub(crate) wall: [i64; 3],
}

/// What stands at a key.
fn value_at(table: &Table, key: Key) -> Option<&Value>
    ensures { option_map (λ value. view value.now) result ≡ value_at key (table_view table.now) }
{
    table.get(key.name())
}

/// The refusal of a value of another kind.
fn wrong_kind(key: Key) -> CaseEnd
    ensures { result ≡ CaseEnd.Fault (CaseFault.WrongKind key) }
{
    CaseEnd::Fault(CaseFault::WrongKind(key))
}

/// The velocity set that a text names, or `None` where the value is no text.
fn set_in(value: &Value) -> Option<Option<SetKind>>
    ensures { result ≡ set_in (view value.now) }
{
    match value {
        Value::String(name) => Some(SetKind::named(name.as_str())),
        _ => None,
    }
}

/// Exactly `N` integers.
fn integers<const N: usize>(items: &[Value]) -> Option<[i64; N]>
    ensures { result ≡ integers_in N (array (items_view items.now)) }
{
    if items.len() != N {
        return None;
    }
    let mut numbers = [0; N];
    for (i, item) in items.iter().enumerate() {
        numbers[i] = item.as_integer()?;
    }
    Some(numbers)
}

/// An array of exactly `N` integers.
fn integers_in<const N: usize>(value: &Value) -> Option<[i64; N]>
    ensures { result ≡ integers_in N (view value.now) }
{
    match value {
        Value::Array(items) => integers(items.as_slice()),
        _ => None,
    }
}

/// Whether each of the values is a text.
fn are_texts(values: &[Value]) -> bool
    ensures { result ≡ list_all (λ value. is_some (as_str (view value))) values.now }
{
    values.iter().all(|value| value.is_str())
}

/// The values, if each of them is a text.
fn texts(values: &[Value]) -> Option<&[Value]>
    ensures { option_map (λ rows. texts_view rows.now) result ≡ texts_in (array (items_view values.now)) }
{
    if are_texts(values) {
        Some(values)
    } else {
        None
    }
}

/// The items of an array of texts.
fn texts_in(value: &Value) -> Option<&[Value]>
    ensures { option_map (λ rows. texts_view rows.now) result ≡ texts_in (view value.now) }
{
    match value {
        Value::Array(items) => texts(items.as_slice()),
        _ => None,
    }
}

/// The velocity set of the file.
fn set_at(table: &Table) -> Result<Option<SetKind>, CaseEnd>
    ensures { Gives (λ set. set) result (required set_in Key.Set (table_view table.now)) }
{
    value_at(table, Key::Set)
        .and_then(set_in)
        .ok_or(wrong_kind(Key::Set))
}

/// The rate of the file, as p and q.
fn rate_at(table: &Table) -> Result<[i64; 2], CaseEnd>
    ensures { Gives (λ rate. rate) result (required (integers_in 2) Key.Omega (table_view table.now)) }
{
    value_at(table, Key::Omega)
        .and_then(integers_in)
        .ok_or(wrong_kind(Key::Omega))
}

/// The rows of the file.
fn rows_at(table: &Table) -> Result<&[Value], CaseEnd>
    ensures { Gives (λ rows. texts_view rows.now) result (required texts_in Key.Map (table_view table.now)) }
{
    value_at(table, Key::Map)
        .and_then(texts_in)
        .ok_or(wrong_kind(Key::Map))
}

/// The integer at a key, or the default where the key is absent.
fn integer_at(table: &Table, key: Key, default: i64) -> Result<i64, CaseEnd>
    ensures { Gives (λ n. n) result (optional as_integer default key (table_view table.now)) }
{
    match value_at(table, key) {
        Some(value) => value.as_integer().ok_or(wrong_kind(key)),
        None => Ok(default),
    }
}

/// The vector at a key, or zeros where the key is absent.
fn vector_at(table: &Table, key: Key) -> Result<[i64; 3], CaseEnd>
    ensures { Gives (λ u. u) result (optional (integers_in 3) zero_vector key (table_view table.now)) }
{
    match value_at(table, key) {
        Some(value) => integers_in(value).ok_or(wrong_kind(key)),
        None => Ok([0; 3]),
    }
}

/// What the table holds at its keys. The first value of another kind is refused.
#[tactic(auto, unfolding(crate::specs::Settings::settings_of))]
pub(crate) fn read_settings(table: &Table) -> Result<Settings<'_>, CaseEnd>
    ensures value { Gives settings_view result (settings_of (table_view table.now)) }
    ensures rows { IfOk result (λ settings. required texts_in Key.Map (table_view table.now) ≡ Ok (texts_view settings.rows.now)) }
{
    let set = set_at(table)?;
    let rate = rate_at(table)?;
    let rows = rows_at(table)?;
    let layers = integer_at(table, Key::Layers, 1)?;
    let density = integer_at(table, Key::Density, UNIT)?;
    let digit = integer_at(table, Key::Digit, 0)?;
    let momentum = vector_at(table, Key::Momentum)?;
    let force = vector_at(table, Key::Force)?;
    let rate_minus = integer_at(table, Key::OmegaMinus, rate[0])?;
    let wall = vector_at(table, Key::Wall)?;
    Ok(Settings {
        set,
        rate,
        rows,
        layers,
        density,
        digit,
        momentum,
        force,
        rate_minus,
        wall,
    })
}
