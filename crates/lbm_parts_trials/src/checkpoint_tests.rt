// Damaged checkpoints: each front of a file, and each of its bits.
use lbm_ckpt::{CkptEnd, CkptFault, read_checkpoint};
use lbm_space::Space;
use sha2::{Digest, Sha256};
use std::alloc::{AllocError, Global};
use std::process::Abort;
use std::test::Fail;

const CASE: &[u8] = b"the bytes of a case";

// The populations of two cells of densities 884736 and 921600 that evened out for one step.
const POPULATIONS: &[u8; 72] = b"\x00\x06\x00\x00\x00\x01\x90\x00\x00\x01\x80\x00\
    \x00\x01\x90\x00\x00\x01\x80\x00\x00\x00\x64\x00\
    \x00\x00\x64\x00\x00\x00\x64\x00\x00\x00\x64\x00\
    \x00\x06\x40\x00\x00\x01\x80\x00\x00\x01\x90\x00\
    \x00\x01\x80\x00\x00\x01\x90\x00\x00\x00\x60\x00\
    \x00\x00\x60\x00\x00\x00\x60\x00\x00\x00\x60\x00";

// What stands between the digest of the case and the populations: the step 1, and then the sides and the number of directions,
// or in the old version the number of cells.
const STEP_AND_BOX: &[u8; 24] = b"\x00\x00\x00\x00\x00\x00\x00\x01\
    \x00\x00\x00\x02\x00\x00\x00\x01\x00\x00\x00\x01\x00\x00\x00\x09";

const STEP_AND_CELLS: &[u8; 12] = b"\x00\x00\x00\x00\x00\x00\x00\x01\x00\x00\x00\x02";

// A file of these parts, with its digest.
fn file(alloc: Global, magic: &[u8], step_and_box: &[u8]) -> Result<Vec<u8>, AllocError> {
    let mut bytes = Vec::from_slice(alloc, magic)?;
    bytes.extend_from_slice(&Sha256::digest(CASE))?;
    bytes.extend_from_slice(step_and_box)?;
    bytes.extend_from_slice(POPULATIONS)?;
    let seal = Sha256::digest(bytes.as_slice());
    bytes.extend_from_slice(&seal)?;
    Ok(bytes)
}

// The fault of a file, if it has one.
fn fault(alloc: Global, bytes: &[u8]) -> Result<Option<CkptFault>, Fail> {
    let space = Space::new(2, 2, 1, 1).ok_or("no space")?;
    match read_checkpoint(alloc, bytes, &Sha256::digest(CASE), &space, 9) {
        Ok(_) => Ok(None),
        Err(CkptEnd::Fault(fault)) => Ok(Some(fault)),
        Err(CkptEnd::Memory) => Err("out of memory".into()),
    }
}

// Compares the fault of each front of a file with what is expected where the shortest one of its version has so many bytes.
fn compare_fronts(
    rt: &impl Abort,
    alloc: Global,
    whole: &[u8],
    shortest: usize,
) -> Result<(), Fail> {
    for len in 0..whole.len() {
        let expected = if len < shortest {
            CkptFault::Short
        } else {
            CkptFault::Size
        };
        assert_eq!(rt;
            fault(alloc, &whole[..len])?,
            Some(expected),
            "of {len} bytes"
        );
    }
    assert_eq!(rt; fault(alloc, whole)?, None);
    Ok(())
}

// A head and the two digests take 84 bytes in the old version and 96 in the new one.
#[test]
fn each_front_is_refused(rt: HostRuntime) -> Result<(), Fail> {
    let alloc = rt.alloc();
    let old = file(alloc, b"LBMCKPT1", STEP_AND_CELLS)?;
    let new = file(alloc, b"LBMCKPT2", STEP_AND_BOX)?;
    assert_eq!(rt; (old.len(), new.len()), (156, 168));
    compare_fronts(&rt, alloc, &old, 84)?;
    compare_fronts(&rt, alloc, &new, 96)?;
    Ok(())
}

// Of the 1,248 bits of an old file 64 are of its magic word, 256 of the digest of the case and 32 of the number of cells. The
// step keeps its range by its lowest 20 bits, so 44 are refused for the step; the rest for the digest of the file.
#[test]
fn each_changed_bit_is_refused(rt: HostRuntime) -> Result<(), Fail> {
    let alloc = rt.alloc();
    let mut faults = Vec::new(alloc);
    for bit in 0..1248usize {
        let mut changed = file(alloc, b"LBMCKPT1", STEP_AND_CELLS)?;
        assert!(rt; changed.len() == 156);
        changed[bit / 8] ^= 1 << (bit % 8);
        faults.push(fault(alloc, &changed)?)?;
    }
    let count = |expected: CkptFault| faults.iter().filter(|f| **f == Some(expected)).count();
    assert_eq!(rt; count(CkptFault::Magic), 64);
    assert_eq!(rt; count(CkptFault::OtherCase), 256);
    assert_eq!(rt; count(CkptFault::Size), 32);
    assert_eq!(rt; count(CkptFault::Step), 44);
    assert_eq!(rt; count(CkptFault::Digest), 852);
    Ok(())
}
