// Where a run begins.
ghost use Rattle.std.specs.Prelude.{◌≡◌, ◌≤◌, ◌++◌, IfOk, Some};
ghost use Rattle.sha2.specs.Sha256.{sha256};
ghost use Rattle.lbm_model.specs.Limits.{most_steps};
ghost use Rattle.lbm_model.specs.Flow.{first};
ghost use Rattle.lbm_model.specs.Small.{IsNarrow};
ghost use Rattle.lbm_answer.specs.Jobs.{Begins, job_bytes, job_view};

use crate::files::bytes_within;
use crate::{End, File, Job};
use lbm_ckpt::{checkpoint_size, read_checkpoint};
use lbm_model::{Case, State, at_set, first_state};
use lbm_space::Memory;
use lbm_store::Store;
use sha2::{Digest, Sha256};
use std::alloc::Global;

/// Where a run begins.
#[derive(Drop)]
pub struct Beginning {
    /// The state.
    pub state: State,
    /// The step that it is of.
    pub time: u64,
}

/// The first state of the case, or that of the checkpoint that the run goes on from, which is taken as it is. The checkpoint
/// is refused where it is too long, is none of this case, or is past the last step.
pub fn begin<T: Store>(
    alloc: Global,
    store: &mut T,
    job: &Job<'_, '_>,
    case: &Case,
) -> Result<Beginning, End>
    requires few { job.now.steps ≤ most_steps }
    ensures begun { Begins (job_view case.now job.now) (T.state store.old) (T.state store.new) result }
    ensures files { (T.state store.new).files ≡ (T.state store.old).files }
    ensures write_faults { (T.state store.new).write_faults ≡ (T.state store.old).write_faults }
{
    match job.resume {
        Some(name) => resume(alloc, store, job, case, name),
        None => Ok(Beginning {
            state: first_of(alloc, case)?,
            time: 0,
        }),
    }
}

/// The first state of a case.
pub(crate) fn first_of(alloc: Global, case: &Case) -> Result<State, Memory>
    ensures first { IfOk result (λ state. state ≡ first case.now) }
    ensures narrow { IfOk result IsNarrow }
{
    at_set!(case.set(), first_state(alloc, case))
}

// The state of a checkpoint, where its step is not past the last one.
fn resume<T: Store>(
    alloc: Global,
    store: &mut T,
    job: &Job<'_, '_>,
    case: &Case,
    name: &str,
) -> Result<Beginning, End>
    requires few { job.now.steps ≤ most_steps }
    requires named { (job_view case.now job.now).resume ≡ Some name.now }
    ensures begun { Begins (job_view case.now job.now) (T.state store.old) (T.state store.new) result }
    ensures files { (T.state store.new).files ≡ (T.state store.old).files }
    ensures write_faults { (T.state store.new).write_faults ≡ (T.state store.old).write_faults }
{
    let q = case.set().directions();
    let limit = checkpoint_size(case.space(), q) as usize;
    let bytes = bytes_within(alloc, store, name, File::Checkpoint, limit)?;
    let digest = digest_of(job);
    let (time, state) = read_checkpoint(alloc, &bytes, &digest, case.space(), q)?;
    let to = u64::from(job.steps);
    if time > to {
        return Err(End::Past { at: time, to });
    }
    Ok(Beginning { state, time })
}

/// The SHA-256 of the bytes that tell a run's case.
pub(crate) fn digest_of(job: &Job<'_, '_>) -> [u8; 32]
    ensures { result ≡ sha256 (job_bytes job.now) }
{
    match job.voxels {
        Some(voxels) => digest_of_both(job.bytes, voxels),
        None => Sha256::digest(job.bytes),
    }
}

// The SHA-256 of bytes and of more behind them.
fn digest_of_both(bytes: &[u8], more: &[u8]) -> [u8; 32]
    ensures { result ≡ sha256 (bytes.now ++ more.now) }
{
    let mut hasher = Sha256::new();
    hasher.update(bytes);
    hasher.update(more);
    hasher.finalize()
}
