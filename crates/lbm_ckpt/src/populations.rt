//! Populations as bytes.

ghost use Rattle.std.specs.Prelude.{◌≡◌, ◌*◌, ◌≤◌, length, take, map, IfOk};
ghost use Rattle.std.specs.List.{flat_map, list_all};
ghost use Rattle.lbm_ckpt.specs.Ckpt.{population_bytes, population_in, is_narrow};

use lbm_cell::GREATEST_POPULATION;
use std::alloc::{AllocError, Global};

/// How many populations are put at once.
pub(crate) const BLOCK: usize = 1024;

/// Puts the bytes of at most 1,024 populations at the front.
pub(crate) fn put_front(front: &mut [u8; 4096], pops: &[i32])
    requires { length pops.now ≤ BLOCK }
    ensures { take (4 * length pops.now) front.new ≡ flat_map population_bytes pops.now }
{
    let mut at = 0;
    for pop in pops {
        front[at..at + 4].copy_from_slice(&pop.to_be_bytes());
        at += 4;
    }
}

/// Whether no population is above 2^28 in size.
pub(crate) fn are_narrow(fours: &[[u8; 4]]) -> bool
    ensures { result ≡ list_all (λ four. is_narrow (population_in four)) fours.now }
{
    fours.iter().all(|four| i32::from_be_bytes(*four).unsigned_abs() <= GREATEST_POPULATION)
}

/// The populations that these bytes spell.
pub(crate) fn populations(alloc: Global, fours: &[[u8; 4]]) -> Result<Vec<i32>, AllocError>
    ensures { IfOk result (λ pops. pops.items ≡ map population_in fours.now) }
{
    fours
        .iter()
        .map(|four| i32::from_be_bytes(*four))
        .collect(alloc)
}
