//! The reading of a checkpoint.

ghost use Rattle.std.specs.Prelude.{◌≡◌, ◌+◌, ◌*◌, ◌<◌, ◌≤◌, length, drop, Ok, Err, IfOk, IfErr, OnOk};
ghost use Rattle.std.specs.Str.{bytes_eq};
ghost use Rattle.sha2.specs.Sha256.{sha256};
ghost use Rattle.lbm_space.specs.Limits.{most_directions};
ghost use Rattle.lbm_space.specs.Torus.{IsSpace, cells};
ghost use Rattle.lbm_model.specs.Limits.{most_steps};
ghost use Rattle.lbm_model.specs.State.{flow_state};
ghost use Rattle.lbm_model.specs.Small.{IsNarrow};
ghost use Rattle.lbm_ckpt.specs.declared.fault.CkptEnd.TheVariants.{Fault};
ghost use Rattle.lbm_ckpt.specs.Ckpt.{checkpoint_of, box_len, content_of, fours, populations_of};
ghost use Rattle.lbm_ckpt.specs.Ckpt.{seal_of, step_of, Refuses};

use crate::fault::{CkptEnd, CkptFault};
use crate::populations::{are_narrow, populations};
use crate::version::{Version, is_short};
use lbm_model::{MOST_STEPS, State};
use lbm_space::Space;
use sha2::{Digest, Sha256};
use std::alloc::Global;

/// Reads a checkpoint of either version: how many steps were made, and the state after them.
///
/// `case_digest` is the SHA-256 of the bytes of the case, `space` its box, and `q`, 1 to 27, the number of directions
/// of its velocity set. The state has `q` populations for each cell of the box, none above 2^28 in size, and the step
/// is at most 1,000,000. A checkpoint that is refused is refused for its first fault, before memory is asked for.
/// `Memory` is for want of memory alone.
pub fn read_checkpoint(
    alloc: Global,
    bytes: &[u8],
    case_digest: &[u8; 32],
    space: &Space,
    q: u32,
) -> Result<(u64, State), CkptEnd>
    requires some { 0 < q }
    requires few { q ≤ most_directions }
    // What is read is the checkpoint of the bytes.
    ensures read { IfOk result (λ found.
        checkpoint_of case_digest.now space.now q bytes.now ≡ Ok found) }
    // What is refused is refused for its first fault. Memory ran out only where there is none.
    ensures end { IfErr result (λ end. Refuses end (checkpoint_of case_digest.now space.now q bytes.now)) }
    // Where there is a fault, the first one is answered.
    ensures fault { IfErr (checkpoint_of case_digest.now space.now q bytes.now) (λ fault.
        result ≡ Err (Fault fault)) }
    ensures step { IfOk result (λ found. found.0 ≤ most_steps) }
    ensures directions { IfOk result (λ found. found.1.directions ≡ q) }
    ensures cells { IfOk result (λ found. length found.1.numbers ≡ q * cells space.now) }
    ensures narrow { IfOk result (λ found. IsNarrow found.1) }
{
    let version = check(bytes, case_digest, space, q)?;
    let pops = populations(alloc, fours_of(version, bytes))?;
    Ok((step_of(bytes), State::new(q, pops)))
}

/// The version of the file, or its first fault.
fn check(bytes: &[u8], case_digest: &[u8; 32], space: &Space, q: u32) -> Result<Version, CkptFault>
    ensures read { IfOk result (λ version. checkpoint_of case_digest.now space.now q bytes.now
        ≡ Ok (step_of bytes.now, flow_state q (populations_of version bytes.now))) }
    ensures fault { IfErr result (λ fault. checkpoint_of case_digest.now space.now q bytes.now ≡ Err fault) }
    ensures long { IfOk result (λ version. 80 + box_len version ≤ length bytes.now) }
    ensures valid { OnOk result (IsSpace space.now) }
{
    if is_short(bytes) {
        return Err(CkptFault::Short);
    }
    let version = Version::of(bytes).ok_or(CkptFault::Magic)?;
    if &bytes[8..40] != case_digest.as_slice() {
        return Err(CkptFault::OtherCase);
    }
    if !version.fits(bytes, space, q) {
        return Err(CkptFault::Size);
    }
    if step_of(bytes) > u64::from(MOST_STEPS) {
        return Err(CkptFault::Step);
    }
    if !is_whole(bytes) {
        return Err(CkptFault::Digest);
    }
    if !are_narrow(fours_of(version, bytes)) {
        return Err(CkptFault::Wide);
    }
    Ok(version)
}

#[tactic(auto, unfolding(crate::specs::Ckpt::step_of))]
fn step_of(bytes: &[u8]) -> u64
    requires { 84 ≤ length bytes.now }
    ensures { result ≡ step_of bytes.now }
{
    let mut step = [0; 8];
    step.copy_from_slice(&bytes[40..48]);
    u64::from_be_bytes(step)
}

/// Whether the last 32 bytes are the digest of all bytes before.
fn is_whole(bytes: &[u8]) -> bool
    requires { 84 ≤ length bytes.now }
    ensures { result ≡ bytes_eq (seal_of bytes.now) (sha256 (content_of bytes.now)) }
{
    let (content, seal) = bytes.split_at(bytes.len() - 32);
    seal == Sha256::digest(content).as_slice()
}

/// The bytes of the populations, four for each.
fn fours_of(version: Version, bytes: &[u8]) -> &[[u8; 4]]
    requires { 80 + box_len version ≤ length bytes.now }
    ensures { result.now ≡ fours (drop (48 + box_len version) (content_of bytes.now)) }
{
    let populations = &bytes[48 + version.box_len()..bytes.len() - 32];
    populations.as_chunks::<4>().0
}
