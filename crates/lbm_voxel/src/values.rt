//! The values of a voxel file.

ghost use Rattle.std.specs.Prelude.{◌≡◌, length, option_and_then, All, IfOk, IfSome};
ghost use Rattle.lbm_number.specs.Number.{number_of};
ghost use Rattle.lbm_case.specs.CaseOf.{IsFirstDensity};
ghost use Rattle.lbm_voxel.specs.Text.{words};
ghost use Rattle.lbm_voxel.specs.Refusals.{Gives};
ghost use Rattle.lbm_voxel.specs.Voxels.{density_of, densities_in};

use crate::fault::{VoxelEnd, VoxelFault};
use crate::text::split_word;
use lbm_cell::{GREATEST_DENSITY, LEAST_DENSITY};
use lbm_number::number_of;
use std::alloc::Global;

/// The first density of a fluid cell whose value is 1: the unit.
const UNIT: u32 = 884_736;
/// The least first density of a fluid cell: half the unit.
const LEAST: u32 = LEAST_DENSITY as u32;
/// The greatest that a value tells: twice the unit.
const GREATEST: u32 = GREATEST_DENSITY as u32;

/// The first density of a cell with a value, which is 0 in a solid cell.
fn density_of(value: u32) -> Option<u32>
    ensures value { result ≡ density_of value }
    ensures allowed { IfSome result IsFirstDensity }
{
    match value {
        0 => Some(0),
        1 => Some(UNIT),
        LEAST..=GREATEST => Some(value),
        _ => None,
    }
}

/// The first density of a cell whose value is a word.
fn density_in(word: &[u8]) -> Option<u32>
    ensures value { result ≡ option_and_then density_of (number_of word.now) }
    ensures allowed { IfSome result IsFirstDensity }
{
    match number_of(word) {
        Some(value) => density_of(value),
        None => None,
    }
}

/// The first densities of so many cells, whose values are the first words of a text.
pub(crate) fn densities_in(alloc: Global, text: &[u8], count: u32) -> Result<Vec<u32>, VoxelEnd>
    ensures value { Gives (λ densities. densities.items) result (densities_in (words text.now) count) }
    ensures one_each { IfOk result (λ densities. length densities.items ≡ count) }
    ensures allowed { IfOk result (λ densities. All IsFirstDensity densities.items) }
{
    let mut densities = Vec::with_capacity(alloc, count as usize)?;
    let mut rest = text;
    for x in 0..count {
        let Some((word, after)) = split_word(rest) else {
            return Err(VoxelEnd::Fault(VoxelFault::Value(x)));
        };
        let Some(density) = density_in(word) else {
            return Err(VoxelEnd::Fault(VoxelFault::Value(x)));
        };
        densities.push(density)?;
        rest = after;
    }
    Ok(densities)
}
