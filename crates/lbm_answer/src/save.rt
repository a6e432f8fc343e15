// The files that a run writes.
ghost use Rattle.std.specs.Prelude.{◌≡◌, option_map};
ghost use Rattle.sha2.specs.Sha256.{sha256};
ghost use Rattle.lbm_space.specs.Torus.{cells};
ghost use Rattle.lbm_ckpt.specs.Ckpt.{ckpt};
ghost use Rattle.lbm_vtk.specs.Vtk.{vtk, FitsInts};
ghost use Rattle.lbm_store.specs.Sinks.{WritesFile};
ghost use Rattle.lbm_answer.specs.declared.answer.File.TheVariants as File;
ghost use Rattle.lbm_answer.specs.Jobs.{SavesAll, SavesFile, job_bytes, files_left, IsLeft};

use crate::beginning::digest_of;
use crate::{End, File, Job, Left};
use lbm_ckpt::write_checkpoint;
use lbm_store::{IoEnd, Named, Store};
use lbm_vtk::{Format, write_vtk};

/// Writes the densities and momenta, and the checkpoint behind them where one is asked for. After an error the files before
/// the one that it names are whole, and that one holds its old bytes or a front of its new ones.
pub fn save_all<T: Store>(store: &mut T, job: &Job<'_, '_>, left: &Left) -> Result<(), End>
    requires { IsLeft left.now }
    ensures saved { SavesAll (files_left (job_bytes job.now) job.now.out.now (option_map (λ name. name.now) job.now.save) job.now.format left.now) (T.state store.old) (T.state store.new) result }
    ensures read_faults { (T.state store.new).read_faults ≡ (T.state store.old).read_faults }
{
    save_moments(store, job.out, left, job.format)?;
    match job.save {
        Some(name) => save_state(store, name, job, left),
        None => Ok(()),
    }
}

/// Writes the file of densities and momenta.
pub(crate) fn save_moments<T: Store>(
    store: &mut T,
    name: &str,
    left: &Left,
    format: Format,
) -> Result<(), End>
    requires { IsLeft left.now }
    ensures saved { SavesFile File.Out (record { name = name.now; bytes = vtk left.now.space left.now.report.step left.now.moments.items format }) (T.state store.old) (T.state store.new) result }
    ensures read_faults { (T.state store.new).read_faults ≡ (T.state store.old).read_faults }
{
    match write_moments(store, name, left, format) {
        Ok(()) => Ok(()),
        Err(IoEnd::Failed) => Err(End::StoreFault(File::Out)),
        Err(IoEnd::Memory) => Err(End::Memory),
    }
}

fn write_moments<T: Store>(
    store: &mut T,
    name: &str,
    left: &Left,
    format: Format,
) -> Result<(), IoEnd>
    requires { IsLeft left.now }
    ensures { WritesFile (T.state store.old) (T.state store.new) result name.now (vtk left.now.space left.now.report.step left.now.moments.items format) }
{
    store.create(name)?;
    let mut file = Named::new(store, name);
    write_vtk(
        &mut file,
        &left.space,
        left.report.step,
        &left.moments,
        format,
    )
}

// The checkpoint of the last state.
fn save_state<T: Store>(
    store: &mut T,
    name: &str,
    job: &Job<'_, '_>,
    left: &Left,
) -> Result<(), End>
    requires { IsLeft left.now }
    ensures saved { SavesFile File.Save (record { name = name.now; bytes = ckpt (sha256 (job_bytes job.now)) left.now.report.step left.now.space left.now.state }) (T.state store.old) (T.state store.new) result }
    ensures read_faults { (T.state store.new).read_faults ≡ (T.state store.old).read_faults }
{
    match write_state(store, name, job, left) {
        Ok(()) => Ok(()),
        Err(IoEnd::Failed) => Err(End::StoreFault(File::Save)),
        Err(IoEnd::Memory) => Err(End::Memory),
    }
}

fn write_state<T: Store>(
    store: &mut T,
    name: &str,
    job: &Job<'_, '_>,
    left: &Left,
) -> Result<(), IoEnd>
    requires { IsLeft left.now }
    ensures { WritesFile (T.state store.old) (T.state store.new) result name.now (ckpt (sha256 (job_bytes job.now)) left.now.report.step left.now.space left.now.state) }
{
    store.create(name)?;
    let mut file = Named::new(store, name);
    let digest = digest_of(job);
    write_checkpoint(
        &mut file,
        &digest,
        left.report.step,
        &left.space,
        &left.state,
    )
}
