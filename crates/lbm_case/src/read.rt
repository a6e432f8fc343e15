//! The reading of a case file.

ghost use Rattle.std.specs.Prelude.{◌≡◌, ◌≤◌, length, None, Ok, All, IfOk, IfErr};
ghost use Rattle.toml.specs.View.{table_view};
ghost use Rattle.lbm_case.specs.Refusals.{Refuses};
ghost use Rattle.lbm_case.specs.Views.{texts_view, settings_view, drawing_view, Gives, IsSmall};
ghost use Rattle.lbm_case.specs.Settings.{required, texts_in};
ghost use Rattle.lbm_case.specs.Numbers.{bad_number};
ghost use Rattle.lbm_case.specs.CaseOf.{settings_in, case_in, case_of, IsFirstDensity};

use crate::document::{check_known_keys, check_required_keys, read_table};
use crate::drawing::{case_drawn, space_drawn};
use crate::fault::{CaseEnd, CaseFault};
use crate::key::Key;
use crate::numbers::{check_numbers, layers};
use crate::rows::{check_characters, check_lengths, check_width};
use crate::settings::{Settings, read_settings};
use lbm_model::Case;
use std::alloc::Global;
use toml::Table;

/// What the keys of a document say, or its first fault.
#[tactic(auto, unfolding(crate::specs::CaseOf::settings_in))]
fn settings_in(table: &Table) -> Result<Settings<'_>, CaseEnd>
    ensures value { Gives settings_view result (settings_in (table_view table.now)) }
    ensures ranged { IfOk result (λ settings. bad_number (settings_view settings) ≡ None) }
    ensures rows { IfOk result (λ settings. required texts_in Key.Map (table_view table.now) ≡ Ok (texts_view settings.rows.now)) }
{
    check_known_keys(table)?;
    check_required_keys(table)?;
    let settings = read_settings(table)?;
    check_numbers(&settings)?;
    Ok(settings)
}

/// The case that the settings draw, or its first fault.
#[tactic(auto, unfolding(crate::specs::CaseOf::case_in))]
fn case_in(alloc: Global, settings: &Settings) -> Result<Case, CaseEnd>
    requires ranged { bad_number (settings_view settings.now) ≡ None }
    requires small { IsSmall (drawing_view settings.now.rows.now) }
    ensures value { Gives (λ case. case) result (case_in (settings_view settings.now)) }
    ensures densities { IfOk result (λ case. All IsFirstDensity case.densities) }
{
    let set = settings.set.ok_or(CaseEnd::Fault(CaseFault::BadSet))?;
    check_width(settings.rows)?;
    check_lengths(layers(settings), settings.rows)?;
    check_characters(settings.rows)?;
    let space = space_drawn(set, settings).ok_or(CaseEnd::Fault(CaseFault::TooLarge))?;
    Ok(case_drawn(alloc, set, space, settings)?)
}

/// The case of a file, or its first fault. Nothing is kept after a fault.
#[tactic(auto, unfolding(crate::specs::CaseOf::case_of))]
pub fn read_case(alloc: Global, bytes: &[u8]) -> Result<Case, CaseEnd>
    requires { length bytes.now ≤ 33554432 }
    // What is read is the case of the bytes.
    ensures case { IfOk result (λ case. case_of bytes.now ≡ Ok case) }
    // What is refused is refused for its first fault. Where memory ran out, nothing is said.
    ensures fault { IfErr result (λ end. Refuses end (case_of bytes.now)) }
    ensures densities { IfOk result (λ case. All IsFirstDensity case.densities) }
{
    let table = read_table(alloc, bytes)?;
    let settings = settings_in(&table)?;
    case_in(alloc, &settings)
}
