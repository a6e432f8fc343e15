//! The rule of the cells.

ghost use Rattle.std.specs.Prelude.{◌≡◌, ◌<◌, ◌≤◌, ◌+◌, ℕ, ℤ, Bool, Some, None};
ghost use Rattle.lbm_walk.specs.First.{IsFirst};
ghost use Rattle.lbm_walk.specs.Walked.{AreTaken};

use crate::Rows;
use lbm_space::VelocitySet;

/// What cells make of their populations, over one to eight neighbouring cells of a row at once.
///
/// A cell has no populations but those of its directions: f says them of each lane, and what it says past them is
/// without effect.
pub trait Kernel<V: VelocitySet> {
    /// How many cells there are.
    ghost cells: { Self → ℕ };

    /// Whether a cell with these populations is in limits.
    ghost sound: { Self → ℕ → (ℕ → ℤ) → Bool };

    /// What a cell with these populations sends in a direction.
    ghost post: { Self → ℕ → (ℕ → ℤ) → ℕ → ℤ };

    /// Whether a number is not too large for a population of a cell.
    ghost small: { Self → ℕ → ℤ → Type 0 };

    /// Takes the populations of the cells, of which the first is `cell`, and puts what they send. The answer is the
    /// first lane out of limits, and then nothing was put.
    fn collide<R: Rows<V>>(&self, cell: u32, rows: &mut R) -> Option<u32>
        requires known { cell + R.count rows.old ≤ cells self.now }
        requires small { (i j : ℕ) → i < V.stencil.directions → j < R.count rows.old → small self.now (cell + j) (R.there rows.old i j) }
        ensures first { (f : ℕ → ℕ → ℤ) → AreTaken V.stencil.directions (R.count rows.old) f (R.there rows.old) → IsFirst (λ j. sound self.now (cell + j) (f j)) 0 (R.count rows.old) result }
        ensures post { (f : ℕ → ℕ → ℤ) → AreTaken V.stencil.directions (R.count rows.old) f (R.there rows.old) → result ≡ None → AreTaken V.stencil.directions (R.count rows.old) (λ j. post self.now (cell + j) (f j)) (R.sent rows.new) }
        ensures stopped { (k : ℕ) → result ≡ Some k → rows.new ≡ rows.old }
        ensures count { R.count rows.new ≡ R.count rows.old }
        ensures kept { R.kept rows.old rows.new };

    /// The first lane out of limits. Nothing is put.
    fn check<R: Rows<V>>(&self, cell: u32, rows: &R) -> Option<u32>
        requires known { cell + R.count rows.now ≤ cells self.now }
        requires small { (i j : ℕ) → i < V.stencil.directions → j < R.count rows.now → small self.now (cell + j) (R.there rows.now i j) }
        ensures first { (f : ℕ → ℕ → ℤ) → AreTaken V.stencil.directions (R.count rows.now) f (R.there rows.now) → IsFirst (λ j. sound self.now (cell + j) (f j)) 0 (R.count rows.now) result };
}
