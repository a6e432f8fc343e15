//! A tracer and where it stands.

ghost use Rattle.std.specs.Prelude.{◌≡◌, ◌<◌, ◌≤◌, ◌^◌, false, true, unsigned_abs, IfOk};
ghost use Rattle.lbm_space.specs.Torus.{cells, rows as row_count};
ghost use Rattle.lbm_space.specs.Cuttings.{rows_of};
ghost use Rattle.lbm_cell.specs.Moments.{density};
ghost use Rattle.lbm_model.specs.State.{population, mass};
ghost use Rattle.lbm_model.specs.Case.{is_solid};
ghost use Rattle.lbm_model.specs.Layout.{StandsIn, aa_layout};
ghost use Rattle.lbm_tracer.specs.Limits.{greatest_amount, cell_bound};
ghost use Rattle.lbm_tracer.specs.Tracing.{set_in, tracer_first};
ghost use Rattle.lbm_tracer.specs.Carried.{HoldsFirst, carried, places_of};

use crate::TracerSet;
use crate::collision::{first_amounts, sum_of};
use crate::flow_row::FlowRow;
use crate::slots::{amounts_at, put_amounts};
use lbm_arrays::Region;
use lbm_cell::Rates;
use lbm_lattice::OWN;
use lbm_model::Case;
use lbm_space::{Cutting, Memory, Space};
use std::alloc::{Allocator, Global};
use std::marker::Model;

/// A passive tracer that a flow carries along, in one region of an array for each direction, in which it is advanced in place.
/// It is spent once it or its flow was found out of limits, or memory was wanted, and stands for no state from then on.
#[derive(Drop)]
pub struct Tracer<A: Allocator> {
    pub(crate) space: Space,
    pub(crate) rates: Rates,
    pub(crate) region: Region<A>,
    pub(crate) flows: FlowRow<A>,
    pub(crate) time: u64,
    pub(crate) spent: bool,
}

impl<A: Allocator> Model for Tracer<A> {
    ghost use Rattle.lbm_tracer.specs.Carried.{TracerLattice, IsTracer};
    ghost use Rattle.lbm_tracer.specs.FlowRows.{HasRoom};

    ghost Value = { TracerLattice };

    ghost view = { λ t. record { torus = t.space; rates = t.rates; time = t.time; spent = t.spent; slots = t.region.slots } };

    ghost invariant = { λ t. IsTracer t.space t.time t.spent t.region × HasRoom t.space.nx t.flows };
}

impl<A: Allocator + Copy> Tracer<A> {
    /// The tracer that begins with an amount, 1 to 16,777,216, in one fluid cell of a case, at time 0, with all the memory that it
    /// needs: eight bytes a slot, in arrays of two slots more than the case's space has padded places, and room for a row of the flow. Its amounts relax by p / q of
    /// `rates`. The cutting, one of the case's rows, is not used: a step goes over the cells one after the other. Want of memory is
    /// the only refusal.
    pub fn start(
        _alloc: Global,
        heap: A,
        case: &Case,
        rates: Rates,
        amount: u32,
        cell: u32,
        _cut: Cutting,
    ) -> Result<Tracer<A>, Memory>
        requires cell { cell < cells case.now.torus }
        requires fluid { is_solid case.now cell ≡ false }
        requires some { 1 ≤ amount }
        requires few { amount ≤ greatest_amount }
        requires cutting { rows_of _cut ≡ row_count case.now.torus }
        ensures { IfOk result (λ t. carried t ≡ record { torus = case.now.torus; rates = rates; time = 0; spent = false; state = tracer_first case.now.torus amount cell }) }
    {
        let space = *case.space();
        let region = first_region(heap, &space, amount, cell)?;
        let flows = FlowRow::new(heap, space.sides()[0] as usize)?;
        Ok(Tracer {
            space,
            rates,
            region,
            flows,
            time: 0,
            spent: false,
        })
    }
}

// The region of a tracer that begins with an amount in one cell.
fn first_region<A: Allocator>(
    heap: A,
    space: &Space,
    amount: u32,
    cell: u32,
) -> Result<Region<A>, Memory>
    requires cell { cell < cells space.now }
    requires few { amount ≤ greatest_amount }
    ensures { IfOk result (HoldsFirst space.now amount cell) }
{
    let _ = space.padded(); // Its type keeps the margin in range.
    let set = TracerSet::of(space);
    let mut region = Region::new(heap, space, set.q() as u32, OWN.margin)?;
    put_amounts(&mut region, space, 0, cell, &first_amounts(set, amount));
    Ok(region)
}

impl<A: Allocator> Tracer<A> {
    /// The amount of a cell, the sum of what it holds for all directions. The tracer is not spent.
    pub fn amount(&self, cell: u32) -> i64
        requires not_spent { self.now.spent ≡ false }
        requires cell { cell < cells self.now.torus }
        ensures value { result ≡ density (set_in self.now.torus) (population (carried self.now).state cell) }
        ensures size { unsigned_abs result ≤ cell_bound }
    {
        let amounts = amounts_at(&self.region, &self.space, self.time, cell);
        sum_of(TracerSet::of(&self.space), &amounts)
    }

    /// The amounts of all cells together, walls included. The tracer is not spent.
    pub fn total(&self) -> i64
        requires not_spent { self.now.spent ≡ false }
        ensures { result ≡ mass (carried self.now).state }
    {
        let mut total = 0;
        for cell in 0..self.space.cells() {
            total += self.amount(cell);
        }
        total
    }

    /// All slots of the region, array after array: an amount stands where the layout of the pattern `aa` has it at the time.
    pub fn slots(&self) -> &[i64]
        ensures value { result.now ≡ self.now.slots }
        ensures layout { StandsIn (places_of self.now.torus) (aa_layout self.now.time) (carried self.now).state result.now }
    {
        self.region.slots()
    }
}
