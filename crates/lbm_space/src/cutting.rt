//! The rows of a space, cut into slabs of consecutive rows.

ghost use Rattle.std.specs.Prelude.{◌≡◌, ℕ, ◌+◌, ◌-◌, ◌*◌, ◌/◌, ◌<◌, ◌≤◌, ◌↔◌, List, [], ◌∷◌, ◌++◌, length, slice_index, IfOk, IfSome, IfNone, IsErrOf};
ghost use Rattle.lbm_space.specs.Torus.{rows as row_count};
ghost use Rattle.lbm_space.specs.Cuttings.{slabs_of, first_row, end_row, rows_of, IsCutting, IsInOneSlab, IsEven, IsGoodCut, IsBadCut};
ghost use Rattle.lbm_space.specs.declared.cutting.CutEnd.TheVariants.{BadCut, Memory as OutOfMemory};

use crate::memory::Memory;
use crate::space::Space;
use std::alloc::{AllocError, AllocFailed, Global};
use std::marker::Model;

/// A partition of the rows of a space into slabs of consecutive rows, none of which is empty.
#[derive(Debug, Drop)]
pub struct Cutting {
    // the first row of each slab, and the number of rows
    bounds: Vec<u32>,
}

impl Model for Cutting {
    ghost use Rattle.std.specs.Prelude.{ℕ, List, ◌≤◌, length};
    ghost use Rattle.lbm_space.specs.Cuttings.{IsCutting, rows_of};

    ghost Value = { List ℕ };

    ghost view = { λ c. c.bounds.items };

    ghost invariant = { λ c. IsCutting c.bounds.items × (length c.bounds.items ≤ 4097) × (rows_of c.bounds.items ≤ 4194304) };
}

/// Why a list of first rows gives no cutting.
#[derive(Clone, Copy, Debug, PartialEq, Eq)]
pub enum CutEnd {
    /// This entry, counted from 0, is the first that is not above the one before it, or is no row.
    BadCut(u32),
    /// A growth was refused.
    Memory,
}

impl From<AllocError> for CutEnd {
    ghost from_gives = { λ _ e. e ≡ OutOfMemory };

    fn from(_: AllocError) -> CutEnd {
        CutEnd::Memory
    }
}

impl<T: Drop> From<AllocFailed<T>> for CutEnd {
    ghost from_gives = { λ _ e. e ≡ OutOfMemory };

    fn from(_: AllocFailed<T>) -> CutEnd {
        CutEnd::Memory
    }
}

impl Cutting {
    /// As many slabs as workers, but no more than rows, of nearly as many rows each. Want of memory is the only refusal.
    pub fn even(alloc: Global, space: &Space, workers: u32) -> Result<Cutting, Memory>
        requires some { 1 ≤ workers }
        requires few { workers ≤ 64 }
        ensures even { IfOk result (IsEven (row_count space.now) workers) }
        ensures whole { IfOk result (λ c. rows_of c ≡ row_count space.now) }
    {
        let rows = space.rows();
        let slabs = workers.min(rows);
        let mut bounds = Vec::new(alloc);
        for k in 0..slabs + 1 {
            bounds.push(k * rows / slabs)?;
        }
        Ok(Cutting { bounds })
    }

    /// The cutting whose slabs but the first begin at these rows.
    ///
    /// `BadCut(k)` says that entry `k` is the first that is not above the entry before it (above 0 for entry 0) or is
    /// not below the number of rows. It is found before memory is asked for.
    pub fn of_rows(alloc: Global, space: &Space, rows: &[u32]) -> Result<Cutting, CutEnd>
        requires { length rows.now ≤ 4095 }
        ensures whole { IfOk result (λ c. rows_of c ≡ row_count space.now) }
        ensures ok { IfOk result (λ c. c ≡ 0 ∷ rows.now ++ row_count space.now ∷ []) }
        ensures bad { (k : ℕ) → IsErrOf result (CutEnd.BadCut k) ↔ IsBadCut (row_count space.now) rows.now k }
    {
        let count = space.rows();
        if let Some(k) = first_bad_cut(rows, count) {
            return Err(CutEnd::BadCut(k));
        }
        let mut bounds = Vec::new(alloc);
        bounds.push(0)?;
        bounds.extend_from_slice(rows)?;
        bounds.push(count)?;
        Ok(Cutting { bounds })
    }

    /// The number of slabs.
    pub fn slabs(&self) -> u32
        ensures count { result ≡ slabs_of self.now }
        ensures cutting { IsCutting self.now }
        ensures partition { (row : ℕ) → row < rows_of self.now → IsInOneSlab self.now row }
        ensures few { result ≤ 4096 }
    {
        (self.bounds.len() - 1) as u32
    }

    /// The first row of slab `k`, and the row past its end.
    pub fn slab(&self, k: u32) -> (u32, u32)
        requires { k < slabs_of self.now }
        ensures first { result.0 ≡ first_row self.now k }
        ensures end { result.1 ≡ end_row self.now k }
        ensures some { result.0 < result.1 }
        ensures known { result.1 ≤ rows_of self.now }
    {
        let k = k as usize;
        (self.bounds[k], self.bounds[k + 1])
    }
}

// The first entry that does not rise or is not below the number of rows.
fn first_bad_cut(entries: &[u32], rows: u32) -> Option<u32>
    requires { length entries.now ≤ 4095 }
    ensures found { IfSome result (IsBadCut rows entries.now) }
    ensures none { IfNone result ((k : ℕ) → k < length entries.now → IsGoodCut rows entries.now k) }
{
    let mut before = 0;
    for (k, entry) in entries.iter().enumerate() {
        if *entry <= before || *entry >= rows {
            return Some(k as u32);
        }
        before = *entry;
    }
    None
}
