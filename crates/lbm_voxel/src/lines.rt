//! The first three lines of a voxel file.

ghost use Rattle.std.specs.Prelude.{◌≡◌};
ghost use Rattle.lbm_voxel.specs.Head.{is_version, is_title, is_ascii};
ghost use Rattle.lbm_voxel.specs.Refusals.{Gives};
ghost use Rattle.lbm_voxel.specs.Voxels.{after_line, body_of};

use crate::fault::{VoxelEnd, VoxelFault};
use crate::text::split_line;

/// Line 1 is this text, and then a digit, a point and a digit.
const VERSION_TEXT: &[u8] = b"# vtk DataFile Version ";

fn is_version(line: &[u8]) -> bool
    ensures { result ≡ is_version line.now }
{
    line.len() == 26
        && &line[..23] == VERSION_TEXT
        && line[23].is_ascii_digit()
        && line[24] == b'.'
        && line[25].is_ascii_digit()
}

fn is_title(line: &[u8]) -> bool
    ensures { result ≡ is_title line.now }
{
    line.len() <= 256
}

fn is_ascii(line: &[u8]) -> bool
    ensures { result ≡ is_ascii line.now }
{
    line == b"ASCII".as_slice()
}

/// What follows line 1, which names the version of the format.
#[tactic(auto, unfolding(crate::specs::Voxels::after_line))]
fn after_version(text: &[u8]) -> Result<&[u8], VoxelEnd>
    ensures { Gives (λ rest. rest.now) result (after_line is_version 1 text.now) }
{
    let Some((line, rest)) = split_line(text) else {
        return Err(VoxelEnd::Fault(VoxelFault::Head(1)));
    };
    if !is_version(line) {
        return Err(VoxelEnd::Fault(VoxelFault::Head(1)));
    }
    Ok(rest)
}

/// What follows line 2, a title.
#[tactic(auto, unfolding(crate::specs::Voxels::after_line))]
fn after_title(text: &[u8]) -> Result<&[u8], VoxelEnd>
    ensures { Gives (λ rest. rest.now) result (after_line is_title 2 text.now) }
{
    let Some((line, rest)) = split_line(text) else {
        return Err(VoxelEnd::Fault(VoxelFault::Head(2)));
    };
    if !is_title(line) {
        return Err(VoxelEnd::Fault(VoxelFault::Head(2)));
    }
    Ok(rest)
}

/// What follows line 3, which names the form of the values.
#[tactic(auto, unfolding(crate::specs::Voxels::after_line))]
fn after_form(text: &[u8]) -> Result<&[u8], VoxelEnd>
    ensures { Gives (λ rest. rest.now) result (after_line is_ascii 3 text.now) }
{
    let Some((line, rest)) = split_line(text) else {
        return Err(VoxelEnd::Fault(VoxelFault::Head(3)));
    };
    if !is_ascii(line) {
        return Err(VoxelEnd::Fault(VoxelFault::Head(3)));
    }
    Ok(rest)
}

/// What follows the three lines.
#[tactic(auto, unfolding(crate::specs::Voxels::body_of))]
pub(crate) fn body_of(bytes: &[u8]) -> Result<&[u8], VoxelEnd>
    ensures { Gives (λ rest. rest.now) result (body_of bytes.now) }
{
    let text = after_version(bytes)?;
    let text = after_title(text)?;
    after_form(text)
}
