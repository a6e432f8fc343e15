//! From where cells take their populations.

ghost use Rattle.std.specs.Prelude.{◌≡◌, ◌*◌, ℕ, ℤ, List};
ghost use Rattle.lbm_space.specs.Torus.{Torus};
ghost use Rattle.lbm_sweep.specs.Slabs.{AreSmall, InColumns, IsMatched, IsSlab};

use lbm_arrays::Loan;
use lbm_space::{Space, VelocitySet};
use lbm_walk::Kernel;

/// What a slab is handed beside its loan: the numbers and places that are read, the space of its cells, and for each
/// direction the array to which goes what they send.
#[derive(Drop)]
pub struct SlabCall<'a> {
    pub read: &'a [i64],
    pub places: &'a [u32],
    pub space: &'a Space,
    pub writes: &'a [usize],
}

/// From where the cells of a slab take their populations.
/// It owns what it needs, and is handed the numbers and places that it reads beside the loan.
pub trait Source<V: VelocitySet>: Drop {
    /// The space whose cells these are.
    ghost torus: { Self → Torus };

    /// Whether what goes to these arrays, one for each direction, leaves what is taken from other pairs of directions.
    ghost spares: { Self → List ℕ → Type 0 };

    /// What has to hold of what is read, of a slab's rows and of what its ranges hold.
    ghost ready: { Self → List ℤ → List ℕ → ℕ × ℕ → List (List ℤ) → Type 0 };

    /// Population i of a cell, from what is read and what the ranges of a slab of these rows hold.
    ghost before: { Self → List ℤ → List ℕ → ℕ × ℕ → List (List ℤ) → ℕ → ℕ → ℤ };

    /// The cells of all rows of a slab collide: each takes its populations from here and passes the rule, and what it sends
    /// in direction i goes to its own place in the range of array `writes[i]`. The answer is the first cell out of limits.
    fn collide<K: Kernel<V>>(
        &self,
        kernel: &K,
        call: &SlabCall<'_>,
        loan: &mut Loan<'_>,
    ) -> Option<u32>
        requires matched { IsMatched call.now.space.now V.stencil.directions (K.cells kernel.now) (torus self.now) call.now.writes.now }
        requires spared { spares self.now call.now.writes.now }
        requires slab { IsSlab call.now.space.now V.stencil.directions loan.old.rows loan.old.ranges }
        requires made_ready { ready self.now call.now.read.now call.now.places.now loan.old.rows loan.old.ranges }
        requires small { AreSmall call.now.space.now V.stencil.directions (K.small kernel.now) (before self.now call.now.read.now call.now.places.now) loan.old.rows loan.old.ranges }
        ensures done { InColumns (K.sound kernel.now) (K.post kernel.now) V.stencil.directions (before self.now call.now.read.now call.now.places.now) call.now.writes.now call.now.space.now loan.old.rows (loan.old.rows.0 * call.now.space.now.nx) (loan.old.rows.1 * call.now.space.now.nx) loan.old.ranges loan.new.ranges result }
        ensures rows { loan.new.rows ≡ loan.old.rows }
        ensures place { loan.new.place ≡ loan.old.place };
}
