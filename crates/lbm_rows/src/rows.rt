//! The collision of the cells of a tile.

ghost use Rattle.std.specs.Prelude.{◌≡◌, ℕ, ℤ, ◌+◌, ◌-◌, ◌*◌, ◌<◌, ◌≤◌, ◌^◌, [], None, length, slice_index_or};
ghost use Rattle.lbm_walk.specs.First.{IsFirst};
ghost use Rattle.lbm_rows.specs.TileRows.{taken_by, sent_by, AreTakenBy, HasRows, IsExchange};

use crate::KeptRow;
use crate::row::collide_in_row;
use crate::ways::Ways;
use lbm_space::VelocitySet;
use lbm_walk::Kernel;

/// The cells of the rows from `rows.0` up to, not including, `rows.1` collide, in the kept rows of their tile. The answer is
/// the first of them that is out of limits.
pub(crate) fn collide_rows<V: VelocitySet, K: Kernel<V>>(
    kernel: &K,
    kept: &mut [KeptRow],
    ways: &Ways,
    rows: (u32, u32),
    width: u32,
) -> Option<u32>
    requires some { 1 ≤ width }
    requires order { rows.0 ≤ rows.1 }
    requires known { rows.1 * width ≤ K.cells kernel.now }
    requires fits { rows.1 * width < 2 ^ 32 }
    requires few { width + 2 < 2 ^ 32 }
    requires tile { HasRows V.stencil ways.now (rows.1 - rows.0) width kept.old }
    requires exchange { IsExchange V.stencil ways.now }
    requires small { (x i : ℕ) → rows.0 * width ≤ x → x < rows.1 * width → i < V.stencil.directions → K.small kernel.now x (taken_by kept.old ways.now rows.0 width x i) }
    ensures first { (f : ℕ → ℕ → ℤ) → AreTakenBy V.stencil.directions kept.old ways.now rows width f → IsFirst (λ x. K.sound kernel.now x (f x)) (rows.0 * width) (rows.1 * width) result }
    ensures sent { (f : ℕ → ℕ → ℤ) → AreTakenBy V.stencil.directions kept.old ways.now rows width f → result ≡ None → (x i : ℕ) → rows.0 * width ≤ x → x < rows.1 * width → i < V.stencil.directions → sent_by kept.new ways.now rows.0 width x i ≡ K.post kernel.now x (f x) i }
    ensures count { length kept.new ≡ length kept.old }
    ensures lengths { (j : ℕ) → length (slice_index_or kept.new j []) ≡ length (slice_index_or kept.old j []) }
{
    for n in 0..(rows.1 - rows.0) {
        let cell = (rows.0 + n) * width;
        let answer = collide_in_row(kernel, kept, ways, n as usize, cell, width);
        if answer.is_some() {
            return answer;
        }
    }
    None
}
