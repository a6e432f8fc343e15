//! The lattice and its step.

ghost use Rattle.lbm_lattice.specs.InPlace.{own_layout};

use crate::exchange::Exchange;
use crate::passes::pass_on;
use lbm_arrays::{Either, ForFirst, ForSecond, Forks, Region};
use lbm_lattice::{ArrayLattice, OWN, Propagation, sweep_and_turn};
use lbm_model::{Case, Layout};
use lbm_space::{Cutting, Memory, VelocitySet};
use lbm_sweep::{Collision, InPlace};
use std::alloc::Allocator;
use std::marker::PhantomData;

/// One lattice that is advanced by exchanges, by the slabs of a cutting beside each other. Population i of a cell stands in
/// array i, at the cell. An array has `2 + padded` slots, of which the second is that of padded place 0.
pub type Swap<V, A> = ArrayLattice<V, A, SwapPasses>;

/// The two passes of a step. The gate is entered once before each slab's work, which is its cells' collision and then their
/// exchange.
#[derive(Drop)]
pub struct SwapPasses;

impl<V: VelocitySet, A: Allocator + Copy> Propagation<V, A> for SwapPasses {
    type Work = Either<Collision<V, InPlace>, Exchange>;

    ghost layout = { λ case time. own_layout };

    ghost kept = { λ p case bounds. Unit {0} };

    ghost still_laid = { λ case time region laid. laid };

    fn layout_at(case: &Case, _time: u64) -> Layout {
        let _ = case.space(); // Its type keeps the padded places more than the margin.
        OWN
    }

    fn new(_heap: A, _case: &Case, _cut: &Cutting) -> Result<SwapPasses, Memory> {
        Ok(SwapPasses)
    }

    fn advance<C: Forks<Either<Collision<V, InPlace>, Exchange>>>(
        &mut self,
        crew: &C,
        case: &Case,
        cut: &Cutting,
        _time: u64,
        region: &mut Region<A>,
    ) -> Option<u32> {
        let first = ForFirst::<C, Exchange> {
            crew,
            other: PhantomData,
        };
        let answer = sweep_and_turn::<V, A, _>(&first, case, region, cut);
        if answer.is_none() {
            let second = ForSecond::<C, Collision<V, InPlace>> {
                crew,
                other: PhantomData,
            };
            pass_on::<V, A, _>(&second, case, region, cut);
        }
        answer
    }
}
