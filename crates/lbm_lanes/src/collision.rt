//! What the cells of a block become.

ghost use Rattle.std.specs.Prelude.{◌≡◌, ◌<◌, ◌≤◌, ℕ, FitsSigned, true, false};
ghost use Rattle.std.specs.Int.{w32};
ghost use Rattle.lbm_walk.specs.Blocks.{lane};
ghost use Rattle.lbm_lanes.specs.Lanes.{has, becomes, least_out};

use crate::kernel::collide_rows;
use crate::rule::Rule;
use lbm_space::VelocitySet;
use lbm_walk::Block;

/// Applies the rule of a cell to each lane. A lane of `solid` bounces back, a lane of `fluid` in limits collides
/// with the rates and the force, and all others stay, as do the rows past the set's directions. The answer is the
/// least lane of `fluid` out of limits.
pub fn collide_block<V: VelocitySet>(
    b: &mut Block,
    rule: &Rule<V>,
    fluid: u8,
    solid: u8,
) -> Option<u32>
    requires fits { (i j : ℕ) → i < V.stencil.directions → j < 8 → FitsSigned w32 (lane b.old.rows j i) }
    requires apart { (j : ℕ) → j < 8 → has fluid j ≡ true → has solid j ≡ false }
    ensures post { (i j : ℕ) → i < V.stencil.directions → j < 8 → lane b.new.rows j i ≡ becomes V.stencil rule.now.rates rule.now.force (has fluid j) (has solid j) (lane b.old.rows j) i }
    ensures past { (i j : ℕ) → V.stencil.directions ≤ i → lane b.new.rows j i ≡ lane b.old.rows j i }
    ensures answer { result ≡ least_out V.stencil fluid (lane b.old.rows) }
{
    collide_rows::<V, Block>(b, rule, fluid, solid)
}
