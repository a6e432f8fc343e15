//! The lattice and its two steps.

ghost use Rattle.std.specs.Prelude.{◌≡◌, None, false, true, length};
ghost use Rattle.lbm_space.specs.Torus.{cells, rows as row_count};
ghost use Rattle.lbm_space.specs.Cuttings.{rows_of, slabs_of};
ghost use Rattle.lbm_model.specs.Flow.{is_sound};
ghost use Rattle.lbm_model.specs.Layout.{grid_layout};
ghost use Rattle.lbm_arrays.specs.Arrays.{held};
ghost use Rattle.lbm_walk.specs.First.{IsFirst};
ghost use Rattle.lbm_sweep.specs.Steps.{IsWritten};
ghost use Rattle.lbm_sweep.specs.Lattices.{IsLaidOut};
ghost use Rattle.lbm_grid.specs.Strips.{AreRooms, AreSaved};
ghost use Rattle.lbm_grid.specs.Laws.{still_laid};
ghost use Rattle.lbm_grid.specs.Sweeps.{base_of, far, layout_before, step_of, taken, sent_to, AreLoadedFor, AreReady};

use crate::near::Near;
use crate::strips::{Saved, Strips};
use crate::way::{Falling, Rising, Way};
use lbm_arrays::{Either, ForFirst, ForSecond, Forks, Inputs, Region, Step, shifts};
use lbm_lattice::{ArrayLattice, Propagation};
use lbm_model::{Case, Layout};
use lbm_space::{Cutting, Memory, VelocitySet};
use lbm_sweep::{Collision, collide, load_all_pads, same_directions};
use std::alloc::Allocator;
use std::marker::PhantomData;

/// One lattice that is moved down and up as a whole while it is advanced, by the slabs of a cutting beside each other.
/// Population i of a cell stands in array i, at the cell behind. An array has `D + padded` slots, where D is the reach of the
/// set. At even times slot D of an array is that of padded place 0, at odd times slot 0.
pub type Grid<V, A> = ArrayLattice<V, A, GridSweeps<A>>;

/// The sweep that rises and the one that falls, with room for what slabs save.
#[derive(Drop)]
pub struct GridSweeps<A: Allocator> {
    strips: Strips<A>,
}

impl<V: VelocitySet, A: Allocator + Copy> Propagation<V, A> for GridSweeps<A> {
    type Work = Either<Collision<V, Near<V, Rising>>, Collision<V, Near<V, Falling>>>;

    ghost layout = { λ case time. grid_layout case.torus case.stencil time };

    ghost kept = { λ p case bounds. AreRooms case.torus V.stencil bounds p.strips.begins.items p.strips.width (length p.strips.kept.items) };

    ghost still_laid = { λ case time region laid. still_laid case time region laid };

    fn layout_at(case: &Case, time: u64) -> Layout {
        let reach = case.space().reach::<V>();
        Layout {
            margin: reach,
            base: if time % 2 == 0 { reach } else { 0 },
            turned: false,
            behind: true,
        }
    }

    fn new(heap: A, case: &Case, cut: &Cutting) -> Result<GridSweeps<A>, Memory> {
        let strips = Strips::new::<V>(heap, case.space(), cut)?;
        Ok(GridSweeps { strips })
    }

    fn advance<C: Forks<Either<Collision<V, Near<V, Rising>>, Collision<V, Near<V, Falling>>>>>(
        &mut self,
        crew: &C,
        case: &Case,
        cut: &Cutting,
        time: u64,
        region: &mut Region<A>,
    ) -> Option<u32> {
        let rises = time % 2 == 0;
        make_ready::<V, A>(case, region, &mut self.strips, cut, rises);
        let width = self.strips.width;
        let begins = self.strips.begins.as_slice();
        let kept = self.strips.kept.as_slice();
        if rises {
            let crew = ForFirst::<C, Collision<V, Near<V, Falling>>> {
                crew,
                other: PhantomData,
            };
            sweep::<V, Rising, A, _>(&crew, case, region, cut, width, kept, begins)
        } else {
            let crew = ForSecond::<C, Collision<V, Near<V, Rising>>> {
                crew,
                other: PhantomData,
            };
            sweep::<V, Falling, A, _>(&crew, case, region, cut, width, kept, begins)
        }
    }
}

// The slot of padded place 0 before a step.
fn base_before(reach: u32, rises: bool) -> u32
    ensures { result ≡ base_of rises reach }
{
    if rises { reach } else { 0 }
}

// Loads the pads, and then saves the strips.
fn make_ready<V: VelocitySet, A: Allocator>(
    case: &Case,
    region: &mut Region<A>,
    strips: &mut Strips<A>,
    cut: &Cutting,
    rises: bool,
)
    requires set { case.now.stencil ≡ V.stencil }
    requires laid { IsLaidOut case.now (layout_before case.now rises) region.old }
    requires cutting { rows_of cut.now ≡ row_count case.now.torus }
    requires rooms { AreRooms case.now.torus V.stencil cut.now strips.old.begins.items strips.old.width (length strips.old.kept.items) }
    ensures loaded { AreLoadedFor case.now rises region.old.slots region.new.slots }
    ensures saved { AreSaved case.now.torus V.stencil rises cut.now strips.new.begins.items strips.new.width (far case.now) (base_of rises (far case.now)) (slabs_of cut.now) region.new.slots strips.new.kept.items }
    ensures rooms { AreRooms case.now.torus V.stencil cut.now strips.new.begins.items strips.new.width (length strips.new.kept.items) }
    ensures same { region.new ≡ record region.old { slots = region.new.slots } }
{
    let space = case.space();
    let margin = space.reach::<V>();
    let base = base_before(margin, rises);
    load_all_pads::<V, A>(region, base);
    let saved = Saved {
        slots: region.slots(),
        margin,
        base,
    };
    strips.save::<V>(&saved, space, cut, rises);
}

// The sweep, in which the lattice moves down where it rises and up where it falls.
fn sweep<V: VelocitySet, W: Way, A: Allocator, C: Forks<Collision<V, Near<V, W>>>>(
    crew: &C,
    case: &Case,
    region: &mut Region<A>,
    cut: &Cutting,
    width: usize,
    kept: &[i64],
    begins: &[u32],
) -> Option<u32>
    requires able { C.forks crew.now }
    requires ready { AreReady case.now V.stencil W.RISES cut.now begins.now width kept.now region.old }
    ensures first { IsFirst (λ x. is_sound case.now x (taken case.now W.RISES region.old.slots x)) 0 (cells case.now.torus) result }
    ensures written { result ≡ None → IsWritten case.now (taken case.now W.RISES region.old.slots) (sent_to case.now W.RISES) (held region.new.slots) }
    ensures same { region.new ≡ record region.old { slots = region.new.slots } }
{
    let (_slots, _slabs) = (region.slots(), cut.slabs());
    let space = *case.space();
    let source = Near::<V, W> {
        set: PhantomData,
        way: PhantomData,
        space,
        width,
    };
    let writes = same_directions::<V>();
    let base = base_before(space.reach::<V>(), W::rises());
    let moved = shifts::<V>(&space, base, step::<W>());
    let pass = Collision::<V, Near<V, W>> {
        set: PhantomData,
        source,
        space,
        writes,
    };
    let inputs = Inputs {
        case,
        read: kept,
        places: begins,
    };
    collide(crew, region, pass, &inputs, moved, cut)
}

// How it moves the ranges.
fn step<W: Way>() -> Step
    ensures { result ≡ step_of W.RISES }
{
    if W::rises() { Step::Rise } else { Step::Fall }
}
