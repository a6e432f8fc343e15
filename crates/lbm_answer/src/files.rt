// Files that are read whole.
ghost use Rattle.std.specs.Prelude.{◌≡◌};
ghost use Rattle.lbm_answer.specs.declared.answer.File.TheVariants as File;
ghost use Rattle.lbm_answer.specs.Files.{ReadsFile, ReadsBytes, ReadsAs, read_view};
ghost use Rattle.lbm_answer.specs.Outcome.{case_read, voxels_read};

use crate::{End, File};
use lbm_case::read_case;
use lbm_model::Case;
use lbm_store::{IoEnd, Store};
use lbm_voxel::read_voxels;
use std::alloc::Global;

/// The greatest length of a case file, in bytes.
const CASE_LIMIT: usize = 33_554_432;

/// The greatest length of a voxel file, in bytes.
const VOXEL_LIMIT: usize = 268_435_456;

const BUFFER: usize = 65_536;

/// Why a file was not read.
#[derive(Clone, Copy, Debug, PartialEq, Eq)]
pub(crate) enum ReadEnd {
    TooLong,
    Failed,
    Memory,
}

/// The bytes of a file that has at most `limit`. Each read begins where the last one ended.
pub(crate) fn read_file<T: Store>(
    alloc: Global,
    store: &mut T,
    name: &str,
    limit: usize,
) -> Result<Vec<u8>, ReadEnd>
    ensures read { ReadsFile (T.state store.old) (T.state store.new) name.now limit result }
    ensures files { (T.state store.new).files ≡ (T.state store.old).files }
    ensures write_faults { (T.state store.new).write_faults ≡ (T.state store.old).write_faults }
{
    let mut bytes = Vec::new(alloc);
    let mut buffer = [0u8; BUFFER];
    'more: while bytes.len() <= limit {
        match store.read(name, bytes.len() as u64, &mut buffer) {
            Ok(0) => return Ok(bytes),
            Ok(count) => {
                if bytes.extend_from_slice(&buffer[..count]).is_err() {
                    return Err(ReadEnd::Memory);
                }
            }
            Err(IoEnd::Failed) => return Err(ReadEnd::Failed),
            Err(IoEnd::Memory) => return Err(ReadEnd::Memory),
        }
    }
    Err(ReadEnd::TooLong)
}

/// The bytes of a file of some use, which has at most `limit`.
pub(crate) fn bytes_within<T: Store>(
    alloc: Global,
    store: &mut T,
    name: &str,
    kind: File,
    limit: usize,
) -> Result<Vec<u8>, End>
    ensures read { ReadsBytes kind (T.state store.old) (T.state store.new) name.now limit result }
    ensures files { (T.state store.new).files ≡ (T.state store.old).files }
    ensures write_faults { (T.state store.new).write_faults ≡ (T.state store.old).write_faults }
{
    match read_file(alloc, store, name, limit) {
        Ok(bytes) => Ok(bytes),
        Err(ReadEnd::TooLong) => Err(End::TooLong(kind)),
        Err(ReadEnd::Failed) => Err(End::StoreFault(kind)),
        Err(ReadEnd::Memory) => Err(End::Memory),
    }
}

/// The bytes of a case file, of which there are at most 33,554,432, and the case that they spell.
pub fn read_case_file<T: Store>(
    alloc: Global,
    store: &mut T,
    name: &str,
) -> Result<(Vec<u8>, Case), End>
    ensures read { ReadsAs read_view File.CaseFile name.now (case_read name.now) (T.state store.old) (T.state store.new) result }
    ensures files { (T.state store.new).files ≡ (T.state store.old).files }
    ensures write_faults { (T.state store.new).write_faults ≡ (T.state store.old).write_faults }
{
    let bytes = bytes_within(alloc, store, name, File::CaseFile, CASE_LIMIT)?;
    let case = read_case(alloc, &bytes)?;
    Ok((bytes, case))
}

/// The bytes of a voxel file, of which there are at most 268,435,456, and the case that they make of another.
pub fn read_voxel_file<T: Store>(
    alloc: Global,
    store: &mut T,
    name: &str,
    case: &Case,
) -> Result<(Vec<u8>, Case), End>
    ensures read { ReadsAs read_view File.Voxel name.now (voxels_read name.now case.now) (T.state store.old) (T.state store.new) result }
    ensures files { (T.state store.new).files ≡ (T.state store.old).files }
    ensures write_faults { (T.state store.new).write_faults ≡ (T.state store.old).write_faults }
{
    let bytes = bytes_within(alloc, store, name, File::Voxel, VOXEL_LIMIT)?;
    let made = read_voxels(alloc, &bytes, case)?;
    Ok((bytes, made))
}
