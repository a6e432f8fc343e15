//! What a solid cell does.

ghost use Rattle.std.specs.Prelude.{◌≡◌, ◌<◌, ◌≤◌, ℕ, pos};
ghost use Rattle.lbm_cell.specs.Moments.{populations};
ghost use Rattle.lbm_cell.specs.Collision.{reflection};

use crate::populations::Pops;
use lbm_space::VelocitySet;

/// Full-way bounce-back: each population of the opposite direction (Krüger et al., the chapter on boundary
/// conditions).
pub fn bounce<V: VelocitySet>(f: &Pops) -> Pops
    ensures post { (i : ℕ) → i < V.stencil.directions → populations result.f i ≡ reflection V.stencil (populations f.now.f) i }
    ensures zeros { (i : ℕ) → V.stencil.directions ≤ i → populations result.f i ≡ pos 0 }
{
    let mut post = Pops::zero();
    for i in 0..V::Q {
        post.f[i] = f.f[V::opp(i)];
    }
    post
}
