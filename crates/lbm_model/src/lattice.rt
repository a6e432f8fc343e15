//! What can be read of a lattice.

ghost use Rattle.std.specs.Prelude.{◌≡◌, ◌<◌, ℕ, Bool, IsNone, IfOk, FitsSigned};
ghost use Rattle.std.specs.Int.{w32};
ghost use Rattle.lbm_space.specs.Torus.{cells};
ghost use Rattle.lbm_model.specs.State.{population};
ghost use Rattle.lbm_model.specs.Case.{IsCase};
ghost use Rattle.lbm_model.specs.Flow.{IsStateOf, out_of_limits};
ghost use Rattle.lbm_model.specs.Standing.{Standing};

use crate::case::Case;
use crate::state::State;
use lbm_space::Memory;
use std::alloc::Global;

/// A lattice that stands for the state of a case at a time. A step that finds a cell out of limits spends it: it stands for
/// no state from then on.
pub trait Lattice {
    /// Whether a step may want memory.
    const WANTS_MEMORY: bool;

    ghost WANTS_MEMORY: { Bool };

    /// What it stands for.
    ghost standing: { Self → Standing };

    /// The case, which no call changes.
    fn case(&self) -> &Case
        ensures value { result.now ≡ (standing self.now).case }
        ensures valid { IsCase (standing self.now).case }
        ensures sizes { IsNone (standing self.now).spent →
            IsStateOf (standing self.now).case (standing self.now).state };

    /// How many steps have been made since time 0.
    fn time(&self) -> u64
        ensures { result ≡ (standing self.now).time };

    /// The cell that spent it, or `None` where it is not spent.
    fn spent(&self) -> Option<u32>
        ensures { result ≡ (standing self.now).spent };

    /// Population `dir` of the cell.
    fn get(&self, cell: u32, dir: u32) -> i64
        requires not_spent { IsNone (standing self.now).spent }
        requires cell { cell < cells (standing self.now).case.torus }
        requires direction { dir < (standing self.now).case.stencil.directions }
        ensures value { result ≡ population (standing self.now).state cell dir }
        ensures fits { FitsSigned w32 result };

    /// The state that it stands for. Want of memory is the only refusal.
    fn state(&self, alloc: Global) -> Result<State, Memory>
        requires { IsNone (standing self.now).spent }
        ensures { IfOk result (λ state. state ≡ (standing self.now).state) }
    {
        let cells = self.case().space().cells();
        let q = self.case().set().directions();
        let mut pops = Vec::with_capacity(alloc, cells as usize * q as usize)?;
        for k in 0..cells * q {
            pops.push(self.get(k / q, k % q) as i32)?;
        }
        Ok(State::new(q, pops))
    }

    /// The least cell out of limits, or `None` where all are in limits.
    fn check(&self) -> Option<u32>
        requires { IsNone (standing self.now).spent }
        ensures { result ≡ out_of_limits (standing self.now).case (standing self.now).state };
}
