//! What is done with a loan.

ghost use Rattle.std.specs.Prelude.{◌≡◌, ℕ, ℤ, List, Option};

use crate::Loan;
use std::marker::Sync;

/// Work on one slab's loan, which has two meanings.
///
/// It is shared by all pieces, so it holds slices of a region and never the region itself: the region's heap need not
/// be one that threads may share.
pub trait PieceWork: Sync {
    /// What holds of the piece's number, of its rows and of what its ranges hold before the call.
    ghost ready: { Self → ℕ → ℕ × ℕ → List (List ℤ) → Type 0 };

    /// What holds of these, of the answer, and of what the ranges hold after the call.
    ghost does: { Self → ℕ → ℕ × ℕ → List (List ℤ) → Option ℕ → List (List ℤ) → Type 0 };

    /// Does the work of piece number `piece` on its loan.
    fn run(&self, piece: u32, loan: &mut Loan<'_>) -> Option<u32>
        requires { ready self.now piece loan.old.rows loan.old.ranges }
        ensures does { does self.now piece loan.old.rows loan.old.ranges result loan.new.ranges }
        ensures rows { loan.new.rows ≡ loan.old.rows }
        ensures place { loan.new.place ≡ loan.old.place };
}
