//! Rows that go along the places of a row of cells.

ghost use Rattle.std.specs.Prelude.{◌≡◌, ◌⊎◌, ◌<◌, ◌≤◌, ◌+◌, ℕ, ℤ, Bool, Some, None};
ghost use Rattle.lbm_walk.specs.First.{IsFirst};
ghost use Rattle.lbm_walk.specs.Walked.{AreTaken, IsPending};

use crate::{Kernel, Rows};
use lbm_space::VelocitySet;

/// Rows of cells at neighbouring places, which can be moved to other places.
pub trait Walk<V: VelocitySet>: Rows<V> {
    ghost RISES: { Bool };

    /// Whether the cells are gone over from the first one up, and else from the last one down: what is put must leave what
    /// the cells take that are still to come.
    fn rises() -> bool
        ensures { result ≡ RISES };

    /// How many places there are.
    ghost places: { Self → ℕ };

    /// The place of the first cell.
    ghost place: { Self → ℕ };

    /// What a cell at a place takes from a direction: direction, then place.
    ghost before: { Self → ℕ → ℕ → ℤ };

    /// What stands where a cell at a place sends a direction.
    ghost after: { Self → ℕ → ℕ → ℤ };

    /// What stands in the arrays that are written: array, then place.
    ghost holds: { Self → ℕ → ℕ → ℤ };

    /// All but the cells' place and number, and what stands in the arrays, is as it was.
    ghost same: { Self → Self → Type 0 };

    /// Goes to `n` cells, of which the first is at place `at`. A row has a place before its first cell and one behind its
    /// last.
    fn seek(&mut self, at: u32, n: u32)
        requires some { 1 ≤ n }
        requires few { n ≤ 8 }
        requires after_one { 0 < at }
        requires before_one { at + n < places self.old }
        ensures place { place self.new ≡ at }
        ensures count { Self.count self.new ≡ n }
        ensures places { places self.new ≡ places self.old }
        ensures before { (i p : ℕ) → before self.new i p ≡ before self.old i p }
        ensures after { (i p : ℕ) → after self.new i p ≡ after self.old i p }
        ensures holds { (k p : ℕ) → holds self.new k p ≡ holds self.old k p }
        ensures same { same self.old self.new };

    /// What a kernel makes of these cells, as `Kernel::collide` tells it of any rows. A walk that knows more of some of its
    /// cells, as that they are eight, may hand them to the kernel as rows of another type.
    #[inline(always)]
    fn collide_by<K: Kernel<V>>(&mut self, kernel: &K, cell: u32) -> Option<u32>
        requires known { cell + Self.count self.old ≤ K.cells kernel.now }
        requires small { (i j : ℕ) → i < V.stencil.directions → j < Self.count self.old → K.small kernel.now (cell + j) (Self.there self.old i j) }
        ensures first { (f : ℕ → ℕ → ℤ) → AreTaken V.stencil.directions (Self.count self.old) f (Self.there self.old) → IsFirst (λ j. K.sound kernel.now (cell + j) (f j)) 0 (Self.count self.old) result }
        ensures post { (f : ℕ → ℕ → ℤ) → AreTaken V.stencil.directions (Self.count self.old) f (Self.there self.old) → result ≡ None → AreTaken V.stencil.directions (Self.count self.old) (λ j. K.post kernel.now (cell + j) (f j)) (Self.sent self.new) }
        ensures stopped { (k : ℕ) → result ≡ Some k → (i p : ℕ) → before self.new i p ≡ before self.old i p }
        ensures count { Self.count self.new ≡ Self.count self.old }
        ensures kept { Self.kept self.old self.new }
    {
        kernel.collide(cell, self)
    }

    ghost there_is: { (r : Self) (i j : ℕ) → Self.there r i j ≡ before r i (place r + j) };

    ghost sent_is: { (r : Self) (i j : ℕ) → Self.sent r i j ≡ after r i (place r + j) };

    /// What is put leaves what cells take that are still to come, what other cells have sent, and all other places.
    ghost kept_before: { (a b : Self) → Self.kept a b → (i p : ℕ) → i < V.stencil.directions → IsPending RISES (place a) (Self.count a) p → before b i p ≡ before a i p };

    ghost kept_after: { (a b : Self) → Self.kept a b → (i p : ℕ) → i < V.stencil.directions → (p < place a) ⊎ (place a + Self.count a ≤ p) → after b i p ≡ after a i p };

    ghost kept_holds: { (a b : Self) → Self.kept a b → (k p : ℕ) → (p < place a) ⊎ (place a + Self.count a ≤ p) → holds b k p ≡ holds a k p };

    ghost kept_place: { (a b : Self) → Self.kept a b → place b ≡ place a };

    ghost kept_places: { (a b : Self) → Self.kept a b → places b ≡ places a };

    ghost kept_is_same: { (a b : Self) → Self.kept a b → same a b };

    ghost same_as_self: { (a : Self) → same a a };

    ghost same_on: { (a b c : Self) → same a b → same b c → same a c };
}
