//! The reading of a voxel file.

ghost use Rattle.std.specs.Prelude.{◌≡◌, map, Ok, All, IfOk, IfErr};
ghost use Rattle.lbm_model.specs.Case.{AreDensities};
ghost use Rattle.lbm_case.specs.CaseOf.{IsFirstDensity};
ghost use Rattle.lbm_voxel.specs.Text.{words};
ghost use Rattle.lbm_voxel.specs.Refusals.{Refuses, Gives};
ghost use Rattle.lbm_voxel.specs.Voxels.{space_in, with_voxels, case_in, voxels_of};

use crate::fault::{VoxelEnd, VoxelFault};
use crate::head::{WordKind, after_words, count_in, first_words, head_in, sides, strange_word};
use crate::lines::body_of;
use crate::values::densities_in;
use lbm_model::Case;
use lbm_space::Space;
use std::alloc::Global;

/// The box whose sides a head tells, or `None` where it is not allowed.
fn space_in(case: &Case, head: &[WordKind], words: &[&[u8]]) -> Option<Space>
    ensures { result ≡ space_in case.now.stencil.dimension head.now (map (λ word. word.now) words.now) }
{
    let [nx, ny, nz] = sides(head, words);
    Space::new(case.set().dimension(), nx, ny, nz)
}

/// The case in another box, with other first densities, in which no cell moves.
fn with_voxels(case: &Case, space: Space, densities: Vec<u32>) -> Case
    requires dimension { space.dimension ≡ case.now.stencil.dimension }
    requires densities { AreDensities space densities.items }
    ensures { result ≡ with_voxels case.now space densities.items }
{
    Case::new(
        case.set(),
        space,
        densities,
        case.rates(),
        case.force(),
        case.momentum(),
    )
}

/// The case of the words after the lines, or the first fault among them.
fn case_in(alloc: Global, body: &[u8], case: &Case) -> Result<Case, VoxelEnd>
    ensures value { Gives (λ made. made) result (case_in (words body.now) case.now) }
    ensures densities { IfOk result (λ made. All IsFirstDensity made.densities) }
{
    let found = first_words(alloc, body)?;
    let words = found.as_slice();
    let Some(head) = head_in(words) else {
        let strange = strange_word(words) as u32;
        return Err(VoxelEnd::Fault(VoxelFault::Word(strange)));
    };
    let Some(space) = space_in(case, head, words) else {
        return Err(VoxelEnd::Fault(VoxelFault::Sides));
    };
    let count = space.cells();
    if count_in(head, words) != count {
        return Err(VoxelEnd::Fault(VoxelFault::Count));
    }
    let densities = densities_in(alloc, after_words(body, head.len()), count)?;
    Ok(with_voxels(case, space, densities))
}

/// The case of a voxel file and of a case, or the file's first fault: sides, walls and first densities are those of the
/// file, and set, rates, force and first momentum those of the case. No cell moves.
#[tactic(auto, unfolding(crate::specs::Voxels::voxels_of))]
pub fn read_voxels(alloc: Global, bytes: &[u8], case: &Case) -> Result<Case, VoxelEnd>
    // What is read is the case of the bytes.
    ensures case { IfOk result (λ made. voxels_of bytes.now case.now ≡ Ok made) }
    // What is refused is refused for its first fault. Where memory ran out, nothing is said.
    ensures fault { IfErr result (λ end. Refuses end (voxels_of bytes.now case.now)) }
    ensures densities { IfOk result (λ made. All IsFirstDensity made.densities) }
{
    let body = body_of(bytes)?;
    case_in(alloc, body, case)
}
