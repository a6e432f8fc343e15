//! The lattice and its two steps.

ghost use Rattle.std.specs.Prelude.{◌≡◌, None};
ghost use Rattle.lbm_model.specs.Layout.{aa_layout, state_in};
ghost use Rattle.lbm_sweep.specs.Steps.{IsStep};
ghost use Rattle.lbm_sweep.specs.Lattices.{IsKept};
ghost use Rattle.lbm_lattice.specs.InPlace.{own_layout, turned_layout};
ghost use Rattle.lbm_aa.specs.Laws.{still_laid};

use lbm_arrays::{Forks, Region, Step};
use lbm_lattice::{
    ArrayLattice, BASE, OWN, Propagation, TURNED, Way, sweep_and_turn, sweep_in_place,
};
use lbm_model::{Case, Layout};
use lbm_space::{Cutting, Memory, VelocitySet};
use lbm_sweep::{
    Collision, InPlace, load_all_pads, opposite_directions, same_directions, store_all_pads,
};
use std::alloc::Allocator;

/// One lattice that is advanced in place, by the slabs of a cutting beside each other. At even times population i of a cell
/// stands in array i at the cell; at odd times in the array of the opposite direction, at the cell behind. An array has
/// `2 + padded` slots, of which the second is that of padded place 0.
pub type Aa<V, A> = ArrayLattice<V, A, AaSteps>;

/// The two steps, which take turns.
#[derive(Drop)]
pub struct AaSteps;

impl<V: VelocitySet, A: Allocator + Copy> Propagation<V, A> for AaSteps {
    type Work = Collision<V, InPlace>;

    ghost layout = { λ case time. aa_layout time };

    ghost kept = { λ p case bounds. Unit {0} };

    ghost still_laid = { λ case time region laid. still_laid case time region laid };

    fn layout_at(case: &Case, time: u64) -> Layout {
        let _ = case.space(); // Its type keeps the padded places more than the margin.
        if time % 2 == 0 { OWN } else { TURNED }
    }

    fn new(_heap: A, _case: &Case, _cut: &Cutting) -> Result<AaSteps, Memory> {
        Ok(AaSteps)
    }

    fn advance<C: Forks<Collision<V, InPlace>>>(
        &mut self,
        crew: &C,
        case: &Case,
        cut: &Cutting,
        time: u64,
        region: &mut Region<A>,
    ) -> Option<u32> {
        if time % 2 == 0 {
            sweep_and_turn::<V, A, C>(crew, case, region, cut)
        } else {
            odd_step::<V, A, C>(crew, case, region, cut)
        }
    }
}

// The step from an odd time: each cell takes its populations from the slots behind it and puts what it sends into those ahead.
fn odd_step<V: VelocitySet, A: Allocator, C>(
    crew: &C,
    case: &Case,
    region: &mut Region<A>,
    cut: &Cutting,
) -> Option<u32>
where
    C: Forks<Collision<V, InPlace>>,
    requires able { C.forks crew.now }
    requires kept { IsKept V.stencil turned_layout case.now None region.old cut.now }
    ensures step { IsStep case.now (state_in case.now turned_layout region.old.slots) own_layout region.new.slots result }
    ensures same { region.new ≡ record region.old { slots = region.new.slots } }
{
    load_all_pads::<V, A>(region, BASE);
    let (reads, writes) = (opposite_directions::<V>(), same_directions::<V>());
    let way = Way {
        step: Step::Ahead,
        reads,
        writes,
    };
    let answer = sweep_in_place::<V, A, C>(crew, case, region, cut, way);
    if answer.is_none() {
        store_all_pads::<V, A>(region, BASE);
    }
    answer
}
