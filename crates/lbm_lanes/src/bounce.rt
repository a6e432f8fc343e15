//! Full-way bounce-back over rows by direction.

ghost use Rattle.std.specs.Prelude.{◌≡◌, ◌<◌, ◌≤◌, ◌+◌, ℕ, ℤ};
ghost use Rattle.lbm_space.specs.Limits.{most_directions};
ghost use Rattle.lbm_space.specs.Stencil.{opposite};
ghost use Rattle.lbm_cell.specs.Collision.{reflection};
ghost use Rattle.lbm_walk.specs.Turns.{IsUnderway};

use lbm_space::VelocitySet;
use lbm_walk::Rows;

// The pair whose lesser direction is `i` changes places.
#[inline(always)]
fn bounce_pair<V: VelocitySet, R: Rows<V>>(rows: &mut R, i: usize)
    requires { i < most_directions }
    ensures underway { (h : ℕ → ℕ → ℤ) → IsUnderway V.stencil (R.count rows.old) i (λ j. reflection V.stencil (h j)) h (R.there rows.old) (R.sent rows.old) → IsUnderway V.stencil (R.count rows.new) (i + 1) (λ j. reflection V.stencil (h j)) h (R.there rows.new) (R.sent rows.new) }
    ensures count { R.count rows.new ≡ R.count rows.old }
    ensures kept { R.kept rows.old rows.new }
{
    if i == 0 || i >= V::Q {
        return;
    }
    let o = V::opp(i);
    if o < i {
        return;
    }
    let f = rows.take(i);
    let g = rows.take(o);
    rows.put(i, g);
    rows.put(o, f);
}

// The pairs whose lesser directions are nine.
#[inline(always)]
fn bounce_nine<V: VelocitySet, R: Rows<V>, const I0: usize>(rows: &mut R)
    requires { I0 + 9 ≤ most_directions }
    ensures underway { (h : ℕ → ℕ → ℤ) → IsUnderway V.stencil (R.count rows.old) I0 (λ j. reflection V.stencil (h j)) h (R.there rows.old) (R.sent rows.old) → IsUnderway V.stencil (R.count rows.new) (I0 + 9) (λ j. reflection V.stencil (h j)) h (R.there rows.new) (R.sent rows.new) }
    ensures count { R.count rows.new ≡ R.count rows.old }
    ensures kept { R.kept rows.old rows.new }
{
    bounce_pair::<V, R>(rows, I0);
    bounce_pair::<V, R>(rows, I0 + 1);
    bounce_pair::<V, R>(rows, I0 + 2);
    bounce_pair::<V, R>(rows, I0 + 3);
    bounce_pair::<V, R>(rows, I0 + 4);
    bounce_pair::<V, R>(rows, I0 + 5);
    bounce_pair::<V, R>(rows, I0 + 6);
    bounce_pair::<V, R>(rows, I0 + 7);
    bounce_pair::<V, R>(rows, I0 + 8);
}

/// All cells turn their populations back.
pub fn bounce_rows<V: VelocitySet, R: Rows<V>>(rows: &mut R)
    ensures sent { (i j : ℕ) → i < V.stencil.directions → j < R.count rows.old → R.sent rows.new i j ≡ R.there rows.old (opposite V.stencil i) j }
    ensures count { R.count rows.new ≡ R.count rows.old }
    ensures kept { R.kept rows.old rows.new }
{
    bounce_nine::<V, R, 0>(rows);
    bounce_nine::<V, R, 9>(rows);
    bounce_nine::<V, R, 18>(rows);
    let rest = rows.take(0);
    rows.put(0, rest);
}
