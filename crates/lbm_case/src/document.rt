//! The table of a case file, and its keys.

ghost use Rattle.std.specs.Prelude.{◌≡◌, not, is_none, ok_or, option_map, string_bytes};
ghost use Rattle.toml.specs.View.{table_view};
ghost use Rattle.lbm_case.specs.Keys.{is_known};
ghost use Rattle.lbm_case.specs.Refusals.{refuse};
ghost use Rattle.lbm_case.specs.Settings.{unknown_key, missing_key, value_at};
ghost use Rattle.lbm_case.specs.Views.{Gives};
ghost use Rattle.lbm_case.specs.CaseOf.{table_of};

use crate::fault::{CaseEnd, CaseFault, KeyName};
use crate::key::{Key, is_known};
use std::alloc::Global;
use toml::Table;

/// The table that the bytes spell.
pub(crate) fn read_table(alloc: Global, bytes: &[u8]) -> Result<Table, CaseEnd>
    ensures { Gives table_view result (ok_or (table_of bytes.now) CaseFault.NotToml) }
{
    match toml::table_from_slice(alloc, bytes) {
        Ok(table) => Ok(table),
        Err(error) => {
            if error.is_memory() {
                return Err(CaseEnd::Memory);
            }
            Err(CaseEnd::Fault(CaseFault::NotToml))
        }
    }
}

/// The least name in the table that is no key, byte by byte. A table has its names in that order.
fn unknown_key(table: &Table) -> Option<&String>
    ensures { option_map (λ name. string_bytes name.now) result ≡ unknown_key (table_view table.now) }
{
    for name in table.keys() {
        if !is_known(name.as_str()) {
            return Some(name);
        }
    }
    None
}

/// Whether the table has nothing at a key.
fn is_missing(table: &Table, key: Key) -> bool
    ensures { result ≡ is_none (value_at key (table_view table.now)) }
{
    !table.contains_key(key.name())
}

/// The first key that has to be there and is not.
fn missing_key(table: &Table) -> Option<Key>
    ensures { result ≡ missing_key (table_view table.now) }
{
    Key::required()
        .iter()
        .copied()
        .find(|key| is_missing(table, *key))
}

/// Refuses a name that is no key.
pub(crate) fn check_known_keys(table: &Table) -> Result<(), CaseEnd>
    ensures { Gives (λ u. u) result (refuse CaseFault.UnknownKey (unknown_key (table_view table.now))) }
{
    match unknown_key(table) {
        Some(name) => Err(CaseEnd::Fault(CaseFault::UnknownKey(KeyName::new(name.clone()?)))),
        None => Ok(()),
    }
}

/// Refuses a table without a key that has to be there.
pub(crate) fn check_required_keys(table: &Table) -> Result<(), CaseEnd>
    ensures { Gives (λ u. u) result (refuse CaseFault.MissingKey (missing_key (table_view table.now))) }
{
    match missing_key(table) {
        Some(key) => Err(CaseEnd::Fault(CaseFault::MissingKey(key))),
        None => Ok(()),
    }
}
