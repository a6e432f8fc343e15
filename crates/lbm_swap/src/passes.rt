//! The second pass of a step.

ghost use Rattle.std.specs.Prelude.{◌≡◌};
ghost use Rattle.lbm_space.specs.Torus.{rows as row_count};
ghost use Rattle.lbm_space.specs.Cuttings.{rows_of};
ghost use Rattle.lbm_model.specs.Case.{IsCase};
ghost use Rattle.lbm_model.specs.Layout.{state_in};
ghost use Rattle.lbm_sweep.specs.Lattices.{IsLaidOut};
ghost use Rattle.lbm_lattice.specs.InPlace.{own_layout, turned_layout};

use crate::exchange::Exchange;
use crate::padding::{load_pads_ahead, store_pads_ahead};
use lbm_arrays::{Forks, Inputs, Region, Step, fork_by, shifts};
use lbm_lattice::BASE;
use lbm_model::Case;
use lbm_space::{Cutting, VelocitySet};
use lbm_sweep::opposite_directions;
use std::alloc::Allocator;

/// The second pass: what cells have sent, which stands turned, goes to the cells ahead.
pub(crate) fn pass_on<V: VelocitySet, A: Allocator, C: Forks<Exchange>>(
    crew: &C,
    case: &Case,
    region: &mut Region<A>,
    cut: &Cutting,
)
    requires able { C.forks crew.now }
    requires set { case.now.stencil ≡ V.stencil }
    requires valid { IsCase case.now }
    requires laid { IsLaidOut case.now own_layout region.old }
    requires cutting { rows_of cut.now ≡ row_count case.now.torus }
    ensures arrived { state_in case.now own_layout region.new.slots ≡ state_in case.now turned_layout region.old.slots }
    ensures same { region.new ≡ record region.old { slots = region.new.slots } }
{
    load_pads_ahead::<V, A>(region, BASE);
    let (_slabs, _slots) = (cut.slabs(), region.slots());
    let space = *case.space();
    let partners = opposite_directions::<V>();
    let moved = shifts::<V>(&space, BASE, Step::Exchange);
    let pass = Exchange { space, partners };
    let inputs = Inputs {
        case,
        read: &[],
        places: &[],
    };
    // No gate stands before it: each slab's work has passed one in the first pass.
    let _ = fork_by(crew, region, pass, false, &inputs, moved, cut);
    store_pads_ahead::<V, A>(region, BASE);
}
