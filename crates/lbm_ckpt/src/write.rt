//! The writing of a checkpoint.

ghost use Rattle.std.specs.Prelude.{◌≡◌, ◌*◌, ◌≤◌, length, OnOk};
ghost use Rattle.std.specs.List.{flat_map};
ghost use Rattle.lbm_space.specs.Torus.{cells};
ghost use Rattle.lbm_store.specs.Outside.{Writes};
ghost use Rattle.lbm_store.specs.Pieces.{Puts};
ghost use Rattle.lbm_ckpt.specs.declared.version.Version.TheVariants.{Two};
ghost use Rattle.lbm_ckpt.specs.Hashing.{Takes};
ghost use Rattle.lbm_ckpt.specs.Ckpt.{ckpt, head, population_bytes, size};

use crate::populations::{BLOCK, put_front};
use crate::version::{Version, box_bytes};
use lbm_model::State;
use lbm_space::Space;
use lbm_store::{IoEnd, Pieces, Sink};
use sha2::{Digest, Sha256};

/// How many bytes a checkpoint has that is written: 96, and four for each population of `q` a cell.
pub fn checkpoint_size(space: &Space, q: u32) -> u64
    ensures { result ≡ size Two space.now q }
{
    Version::Two.size(space, q)
}

/// Writes the checkpoint of a state after so many steps, in version 2.
///
/// `case_digest` is the SHA-256 of the bytes of the case. The state has as many cells as the space.
///
/// After an error the sink has got a front of the checkpoint. It takes no memory of its own.
pub fn write_checkpoint<K: Sink>(
    out: &mut K,
    case_digest: &[u8; 32],
    step: u64,
    space: &Space,
    state: &State,
) -> Result<(), IoEnd>
    requires { length state.now.numbers ≡ state.now.directions * cells space.now }
    ensures { Writes (K.state out.old) (K.state out.new) result
        (ckpt case_digest.now step space.now state.now) }
{
    let mut pieces = Pieces::new(out);
    put_file(&mut pieces, case_digest, step, space, state)?;
    pieces.end()
}

fn put_file<K: Sink>(
    pieces: &mut Pieces<'_, K>,
    case_digest: &[u8; 32],
    step: u64,
    space: &Space,
    state: &State,
) -> Result<(), IoEnd>
    ensures { Puts K.state pieces.old pieces.new result
        (ckpt case_digest.now step space.now state.now) }
{
    let mut hasher = Sha256::new();
    put_head(pieces, &mut hasher, case_digest, step, space, state.q())?;
    put_populations(pieces, &mut hasher, state.pops())?;
    let seal = hasher.finalize();
    pieces.put(&seal)
}

/// Puts what stands before the populations.
fn put_head<K: Sink>(
    pieces: &mut Pieces<'_, K>,
    hasher: &mut Sha256,
    case_digest: &[u8; 32],
    step: u64,
    space: &Space,
    q: u32,
) -> Result<(), IoEnd>
    ensures puts { Puts K.state pieces.old pieces.new result
        (head Two case_digest.now step space.now q) }
    ensures hashes { OnOk result
        (Takes hasher.old hasher.new (head Two case_digest.now step space.now q)) }
{
    put_parts(
        pieces,
        hasher,
        &[
            Version::Two.magic().as_slice(),
            case_digest.as_slice(),
            step.to_be_bytes().as_slice(),
            box_bytes(space, q).as_slice(),
        ],
    )
}

/// Puts bytes, one behind the other.
fn put_parts<K: Sink>(
    pieces: &mut Pieces<'_, K>,
    hasher: &mut Sha256,
    parts: &[&[u8]],
) -> Result<(), IoEnd>
    ensures puts { Puts K.state pieces.old pieces.new result
        (flat_map (λ part. part.now) parts.now) }
    ensures hashes { OnOk result
        (Takes hasher.old hasher.new (flat_map (λ part. part.now) parts.now)) }
{
    for part in parts {
        put_part(pieces, hasher, part)?;
    }
    Ok(())
}

/// Puts bytes, and takes them into the digest.
fn put_part<K: Sink>(
    pieces: &mut Pieces<'_, K>,
    hasher: &mut Sha256,
    part: &[u8],
) -> Result<(), IoEnd>
    ensures puts { Puts K.state pieces.old pieces.new result part.now }
    ensures hashes { Takes hasher.old hasher.new part.now }
{
    hasher.update(part);
    pieces.put(part)
}

/// Puts the populations, a block at a time.
fn put_populations<K: Sink>(
    pieces: &mut Pieces<'_, K>,
    hasher: &mut Sha256,
    pops: &[i32],
) -> Result<(), IoEnd>
    ensures puts { Puts K.state pieces.old pieces.new result (flat_map population_bytes pops.now) }
    ensures hashes { OnOk result
        (Takes hasher.old hasher.new (flat_map population_bytes pops.now)) }
{
    let mut rest = pops;
    while rest.len() > BLOCK {
        let (block, after) = rest.split_at(BLOCK);
        put_block(pieces, hasher, block)?;
        rest = after;
    }
    put_block(pieces, hasher, rest)
}

/// Puts at most 1,024 populations.
fn put_block<K: Sink>(
    pieces: &mut Pieces<'_, K>,
    hasher: &mut Sha256,
    pops: &[i32],
) -> Result<(), IoEnd>
    requires { length pops.now ≤ BLOCK }
    ensures puts { Puts K.state pieces.old pieces.new result (flat_map population_bytes pops.now) }
    ensures hashes { Takes hasher.old hasher.new (flat_map population_bytes pops.now) }
{
    let mut held = [0; 4096];
    put_front(&mut held, pops);
    put_part(pieces, hasher, &held[..4 * pops.len()])
}
