// The state that a pattern stands for.
ghost use Rattle.std.specs.Prelude.{◌≡◌, IsNone, IfOk};

use lbm_model::{Lattice, State};
use lbm_space::Memory;
use std::alloc::Global;

/// The state that a pattern stands for, which is not spent.
pub fn state_of<P: Lattice>(alloc: Global, pattern: &P) -> Result<State, Memory>
    requires { IsNone (P.standing pattern.now).spent }
    ensures { IfOk result (λ state. state ≡ (P.standing pattern.now).state) }
{
    pattern.state(alloc)
}
