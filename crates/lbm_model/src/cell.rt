//! What one cell does in a step.

ghost use Rattle.std.specs.Prelude.{◌≡◌, ◌<◌, ◌≤◌, ℕ, pos, IsTrue, false, unsigned_abs, FitsSigned};
ghost use Rattle.std.specs.Int.{w32};
ghost use Rattle.lbm_space.specs.Torus.{cells};
ghost use Rattle.lbm_cell.specs.Limits.{greatest_population};
ghost use Rattle.lbm_cell.specs.Moments.{populations};
ghost use Rattle.lbm_model.specs.Case.{is_solid, target};
ghost use Rattle.lbm_model.specs.Flow.{is_sound, post};
ghost use Rattle.lbm_model.specs.Small.{size_limit};

use crate::case::Case;
use crate::walls::gain;
use lbm_cell::{Pops, bounce, collide, in_limits};
use lbm_space::VelocitySet;

/// Whether the cell is solid, or in limits with the populations `f`.
pub fn sound<V: VelocitySet>(case: &Case, cell: u32, f: &Pops) -> bool
    requires set { case.now.stencil ≡ V.stencil }
    requires cell { cell < cells case.now.torus }
    requires fits { (i : ℕ) → i < V.stencil.directions → FitsSigned w32 (populations f.now.f i) }
    ensures { result ≡ is_sound case.now cell (populations f.now.f) }
{
    case.is_solid(cell) || in_limits::<V>(f)
}

// What a solid cell sends: its populations turned back, and its gain where it moves.
fn reflected<V: VelocitySet>(case: &Case, cell: u32, f: &Pops) -> Pops
    requires set { case.now.stencil ≡ V.stencil }
    requires cell { cell < cells case.now.torus }
    requires solid { IsTrue (is_solid case.now cell) }
    requires small { (i : ℕ) → i < V.stencil.directions →
        unsigned_abs (populations f.now.f i) ≤ greatest_population }
    ensures post { (i : ℕ) → i < V.stencil.directions →
        populations result.f i ≡ post case.now cell (populations f.now.f) i }
    ensures zeros { (i : ℕ) → V.stencil.directions ≤ i → populations result.f i ≡ pos 0 }
{
    let mut sent = bounce::<V>(f);
    if !case.is_moving(cell) {
        return sent;
    }
    for i in 0..V::Q {
        sent.f[i] += gain::<V>(case, cell, i as u32);
    }
    sent
}

/// What the cell sends in each direction where it holds the populations `f`: a fluid cell collides, and a solid
/// one turns its populations back and adds its gain (Krüger et al., the chapters on the method and on boundary
/// conditions; the gain is this project's own). What is sent is within the limit of the cell that it goes to.
pub fn post<V: VelocitySet>(case: &Case, cell: u32, f: &Pops) -> Pops
    requires set { case.now.stencil ≡ V.stencil }
    requires cell { cell < cells case.now.torus }
    requires sound { IsTrue (is_sound case.now cell (populations f.now.f)) }
    requires small { (i : ℕ) → i < V.stencil.directions →
        unsigned_abs (populations f.now.f i) ≤ size_limit case.now cell }
    ensures post { (i : ℕ) → i < V.stencil.directions →
        populations result.f i ≡ post case.now cell (populations f.now.f) i }
    ensures zeros { (i : ℕ) → V.stencil.directions ≤ i → populations result.f i ≡ pos 0 }
    ensures small { (i : ℕ) → i < V.stencil.directions →
        unsigned_abs (populations result.f i) ≤ size_limit case.now (target case.now cell i) }
    ensures fluid { is_solid case.now cell ≡ false →
        (i : ℕ) → unsigned_abs (populations result.f i) < greatest_population }
{
    if case.is_solid(cell) {
        reflected::<V>(case, cell, f)
    } else {
        collide::<V>(f, case.rates(), case.force())
    }
}
