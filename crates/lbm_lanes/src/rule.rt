//! The rule of the cells of a case.

ghost use Rattle.std.specs.Prelude.{◌≡◌};
ghost use Rattle.lbm_lanes.specs.Progress.{IsRun};

use crate::pairs::{divisor, is_one};
use crate::quotient::Divisor;
use lbm_cell::{Force, Rates};
use lbm_space::VelocitySet;
use std::marker::PhantomData;

/// The rates and the force of a case, with what the kernel needs of them in each cell. It is made once for a case.
#[derive(Drop)]
pub struct Rule<V: VelocitySet> {
    set: PhantomData<V>,
    pub rates: Rates,
    pub force: [i64; 3],
    pub(crate) divisor: Divisor,
    pub(crate) one: bool,
    ghost prepared: { IsRun V.stencil one rates force divisor.d divisor.shift divisor.reciprocal },
}

impl<V: VelocitySet> Rule<V> {
    /// The rule of these rates and this force.
    pub fn new(r: Rates, g: Force) -> Rule<V>
        ensures rates { result.rates ≡ r }
        ensures force { result.force ≡ g }
    {
        let force = g.parts();
        let divisor = divisor::<V>(r);
        let one = is_one(r);
        Rule {
            set: PhantomData,
            rates: r,
            force,
            divisor,
            one,
        }
    }
}
