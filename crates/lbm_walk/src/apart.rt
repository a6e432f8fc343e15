//! A kernel over rows of which few are met.

ghost use Rattle.std.specs.Prelude.{◌≡◌, ◌<◌, ◌≤◌, ◌+◌, ℕ, ℤ, Some, None};
ghost use Rattle.lbm_walk.specs.First.{IsFirst};
ghost use Rattle.lbm_walk.specs.Walked.{AreTaken};

use crate::{Kernel, Rows};
use lbm_space::VelocitySet;

/// What a kernel makes of rows of which few are met, as `Kernel::collide` tells it, in a function that stands apart, so that what is
/// inlined of the kernel where the others are met stays short.
#[cold]
#[inline(never)]
pub fn collide_apart<V: VelocitySet, K: Kernel<V>, R: Rows<V>>(
    kernel: &K,
    cell: u32,
    rows: &mut R,
) -> Option<u32>
    requires known { cell + R.count rows.old ≤ K.cells kernel.now }
    requires small { (i j : ℕ) → i < V.stencil.directions → j < R.count rows.old → K.small kernel.now (cell + j) (R.there rows.old i j) }
    ensures first { (f : ℕ → ℕ → ℤ) → AreTaken V.stencil.directions (R.count rows.old) f (R.there rows.old) → IsFirst (λ j. K.sound kernel.now (cell + j) (f j)) 0 (R.count rows.old) result }
    ensures post { (f : ℕ → ℕ → ℤ) → AreTaken V.stencil.directions (R.count rows.old) f (R.there rows.old) → result ≡ None → AreTaken V.stencil.directions (R.count rows.old) (λ j. K.post kernel.now (cell + j) (f j)) (R.sent rows.new) }
    ensures stopped { (k : ℕ) → result ≡ Some k → rows.new ≡ rows.old }
    ensures count { R.count rows.new ≡ R.count rows.old }
    ensures kept { R.kept rows.old rows.new }
{
    kernel.collide(cell, rows)
}
