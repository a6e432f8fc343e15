//! Rows that stand by themselves.

ghost use Rattle.std.specs.Prelude.{◌≡◌, ◌≢◌, ◌<◌, ◌≤◌, ℕ, pos, refl};
ghost use Rattle.std.proofs.Common.{◌∙◌};
ghost use Rattle.lbm_space.specs.Limits.{most_directions};
ghost use Rattle.lbm_walk.specs.Blocks.{row, lane, IsBlock};

use crate::Rows;
use lbm_cell::MAX_Q;
use lbm_space::VelocitySet;

/// The populations of eight cells: row i has population i of each, and gets what they send in direction i. Lane j of a
/// row is the j-th cell.
#[derive(Clone, Copy, Debug, PartialEq, Eq)]
pub struct Block {
    pub rows: [[i64; 8]; MAX_Q],
    ghost sized: { IsBlock rows },
}

impl Block {
    /// Zeros.
    pub fn zero() -> Block
        ensures { (i j : ℕ) → lane result.rows j i ≡ pos 0 }
    {
        Block {
            rows: [[0; 8]; MAX_Q],
        }
    }

    /// Puts the populations of a direction, lane by lane.
    pub fn fill(&mut self, dir: u32, lanes: [i64; 8])
        requires { dir < most_directions }
        ensures filled { row self.new.rows dir ≡ lanes }
        ensures others { (i : ℕ) → i ≢ dir → row self.new.rows i ≡ row self.old.rows i }
    {
        self.rows[dir as usize] = lanes;
    }

    /// The populations of a direction, lane by lane.
    pub fn lanes(&self, dir: u32) -> [i64; 8]
        requires { dir < most_directions }
        ensures { result ≡ row self.now.rows dir }
    {
        self.rows[dir as usize]
    }
}

impl<V: VelocitySet> Rows<V> for Block {
    ghost count = { λ b. 8 };

    ghost there = { λ b i j. lane b.rows j i };

    ghost sent = { λ b i j. lane b.rows j i };

    ghost kept = { λ a b. (k j : ℕ) → V.stencil.directions ≤ k → lane b.rows j k ≡ lane a.rows j k };

    #[inline(always)]
    fn count(&self) -> u32 {
        8
    }

    #[inline(always)]
    fn take(&self, dir: usize) -> [i64; 8] {
        self.rows[dir]
    }

    #[inline(always)]
    fn sent(&self, dir: usize) -> [i64; 8] {
        self.rows[dir]
    }

    #[inline(always)]
    fn put(&mut self, dir: usize, lanes: [i64; 8]) {
        self.rows[dir] = lanes;
    }

    ghost kept_same = { λ r k j past. refl };

    ghost kept_on = { λ a b c x y k j past. y k j past ∙ x k j past };
}
