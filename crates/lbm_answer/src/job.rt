// A run that is asked for.
ghost use Rattle.lbm_words.specs.Request.{IsChoice, choice_view};
ghost use Rattle.lbm_answer.specs.Jobs.{Cuts};

use crate::End;
use lbm_space::{Cutting, Space};
use lbm_vtk::Format;
use lbm_words::Choice;
use std::alloc::Global;

/// A run that is asked for: the bytes that tell its case, and what the words say of it.
#[derive(Drop)]
pub struct Job<'b, 'w> {
    /// The bytes of its case file.
    pub bytes: &'b [u8],
    /// The bytes of the voxel file that its case takes its geometry from, where there is one.
    pub voxels: Option<&'b [u8]>,
    /// The last step.
    pub steps: u32,
    /// The name of the file of densities and momenta.
    pub out: &'w str,
    /// The pattern, the number of workers and the cutting.
    pub choice: Choice,
    /// The name of the checkpoint that it goes on from.
    pub resume: Option<&'w str>,
    /// The name of the file that the last state is saved in.
    pub save: Option<&'w str>,
    /// The form of the file of densities and momenta.
    pub format: Format,
}

/// The cutting at the rows that are given, or else an even one for the workers. `Cut` names the first entry that is not
/// above the one before it, or is no row.
pub fn cutting_of(alloc: Global, space: &Space, choice: &Choice) -> Result<Cutting, End>
    requires { IsChoice (choice_view choice.now) }
    ensures { Cuts space.now (choice_view choice.now).cut result }
{
    match &choice.cut {
        Some(rows) => Ok(Cutting::of_rows(alloc, space, rows)?),
        None => Ok(Cutting::even(alloc, space, choice.workers)?),
    }
}
