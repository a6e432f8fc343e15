//! How cells take their populations.

ghost use Rattle.std.specs.Prelude.{◌≡◌, ◌≢◌, ◌+◌, ◌<◌, ◌≤◌, Bool, true, ℕ, ℤ, List, pos, slice_index, slice_index_or};
ghost use Rattle.lbm_space.specs.Stencil.{opposite};
ghost use Rattle.lbm_arrays.specs.Lent.{Lent};
ghost use Rattle.lbm_cell.specs.Rows.{entry};
ghost use Rattle.lbm_walk.specs.Walked.{IsPending};
ghost use Rattle.lbm_sweep.specs.Held.{IsSameBut, IsWithin};

use lbm_arrays::Loan;
use lbm_space::VelocitySet;

/// How the cells of a slab take their populations.
pub trait Taking<V: VelocitySet>: Drop {
    ghost RISES: { Bool };

    /// What has to hold of the arrays that are written, and of a slab's loan.
    ghost fits: { Self → List ℕ → Lent → Type 0 };

    ghost fits_once: { (s : Self) (writes : List ℕ) (lent : Lent) → IsProp (fits s writes lent) };

    /// What the cell of a place takes from a direction: direction, then place.
    ghost taken: { Self → Lent → ℕ → ℕ → ℤ };

    /// Whether eight cells from a place on may be taken by the shorter way of `take_clear`.
    ghost clear: { Self → ℕ → Bool } = { λ s at. true };

    /// Whether the cells are gone over from the first one up, and else from the last one down.
    fn rises() -> bool
        ensures { result ≡ RISES };

    /// What `n` cells from place `at` on take from a direction, and zeros past the last of them.
    fn take(&self, loan: &Loan<'_>, dir: usize, at: u32, n: u32) -> [i64; 8]
        requires known { dir < V.stencil.directions }
        requires within { IsWithin V.stencil.directions loan.now.ranges at n }
        requires fitting { (writes : List ℕ) × fits self.now writes loan.now }
        ensures cells { (j : ℕ) → j < n → slice_index_or result j (pos 0) ≡ taken self.now loan.now dir (at + j) }
        ensures past { (j : ℕ) → n ≤ j → slice_index_or result j (pos 0) ≡ pos 0 };

    /// Whether eight cells from place `at` on are clear.
    fn is_clear(&self, at: u32) -> bool
        ensures { result ≡ clear self.now at };

    /// What eight cells from place `at` on take from a direction, where they are clear.
    fn take_clear(&self, loan: &Loan<'_>, dir: usize, at: u32) -> [i64; 8]
        requires known { dir < V.stencil.directions }
        requires within { IsWithin V.stencil.directions loan.now.ranges at 8 }
        requires fitting { (writes : List ℕ) × fits self.now writes loan.now }
        requires clear { clear self.now at ≡ true }
        ensures { (j : ℕ) → j < 8 → slice_index_or result j (pos 0) ≡ taken self.now loan.now dir (at + j) };

    ghost still_fits: { (s : Self) (writes : List ℕ) (a b : Lent) (from to : ℕ) → IsSameBut from to a b → fits s writes a → fits s writes b };

    /// What is put leaves what cells take that are still to come.
    ghost still_pending: { (s : Self) (a b : Lent) (at n i p : ℕ) → IsSameBut at (at + n) a b → IsPending RISES at n p → taken s b i p ≡ taken s a i p };

    /// What is put in a direction leaves what is taken from any other pair.
    ghost still_there: { (s : Self) (writes : List ℕ) (a b : Lent) (dir : ℕ) → fits s writes a → dir < V.stencil.directions → ((k p : ℕ) → k ≢ slice_index writes dir → entry b.ranges k p ≡ entry a.ranges k p) → (i p : ℕ) → i < V.stencil.directions → i ≢ dir → i ≢ opposite V.stencil dir → taken s b i p ≡ taken s a i p };
}
