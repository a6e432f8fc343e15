//! What is a pattern's own.

ghost use Rattle.std.specs.Prelude.{◌≡◌, ℕ, ◌+◌, ◌≤◌, List, None, IfOk};
ghost use Rattle.lbm_space.specs.Torus.{padded, rows as row_count};
ghost use Rattle.lbm_space.specs.Cuttings.{rows_of};
ghost use Rattle.lbm_model.specs.Case.{FlowCase};
ghost use Rattle.lbm_model.specs.Layout.{state_in};
ghost use Rattle.lbm_model.specs.declared.layout.Layout.{Layout as LayoutOf};
ghost use Rattle.lbm_arrays.specs.Arrays.{Arrays};
ghost use Rattle.lbm_sweep.specs.Lattices.{IsKept, IsLaidOut};
ghost use Rattle.lbm_sweep.specs.Steps.{IsStep};

use lbm_arrays::{Forks, Pass, Region};
use lbm_model::{Case, Layout};
use lbm_space::{Cutting, Memory, VelocitySet};
use std::alloc::Allocator;

/// How the populations of a lattice in arrays are kept and passed on: where they stand at a time, what is kept beside them,
/// and what a step does.
pub trait Propagation<V: VelocitySet, A: Allocator + Copy>: Drop {
    /// What a step does with the loans of slabs.
    type Work: Pass;

    /// Where the populations stand at a time.
    ghost layout: { FlowCase → ℕ → LayoutOf };

    /// What the pattern keeps to, of a case and a cutting.
    ghost kept: { Self → FlowCase → List ℕ → Type 0 };

    /// The arrays have the same sizes at all times.
    ghost still_laid: { (case : FlowCase) (time : ℕ) (region : Arrays) → IsLaidOut case (layout case time) region → IsLaidOut case (layout case (time + 1)) region };

    /// Where the populations stand at a time.
    fn layout_at(case: &Case, time: u64) -> Layout
        requires { case.now.stencil ≡ V.stencil }
        ensures value { result ≡ layout case.now time }
        ensures base { result.base ≤ result.margin }
        ensures margin { result.margin ≤ padded case.now.torus };

    /// All that is kept beside the populations. Want of memory is the only refusal.
    fn new(heap: A, case: &Case, cut: &Cutting) -> Result<Self, Memory>
        requires set { case.now.stencil ≡ V.stencil }
        requires cutting { rows_of cut.now ≡ row_count case.now.torus }
        ensures { IfOk result (λ p. kept p case.now cut.now) };

    /// One step of the lattice that stands in the region at a time, by a crew. The answer is the least cell out of limits.
    fn advance<C: Forks<Self::Work>>(
        &mut self,
        crew: &C,
        case: &Case,
        cut: &Cutting,
        time: u64,
        region: &mut Region<A>,
    ) -> Option<u32>
        requires able { C.forks crew.now }
        requires kept { IsKept V.stencil (layout case.now time) case.now None region.old cut.now }
        requires own { kept self.old case.now cut.now }
        ensures step { IsStep case.now (state_in case.now (layout case.now time) region.old.slots) (layout case.now (time + 1)) region.new.slots result }
        ensures same { region.new ≡ record region.old { slots = region.new.slots } }
        ensures own { kept self.new case.now cut.now };
}
