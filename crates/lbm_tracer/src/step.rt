//! A step of a tracer, by the state of its flow.

ghost use Rattle.std.specs.Prelude.{◌≡◌, ◌<◌, ◌≤◌, ℕ, IsNone, IsTrue, false, true, unsigned_abs};
ghost use Rattle.lbm_space.specs.Torus.{IsSpace, cells};
ghost use Rattle.lbm_cell.specs.Limits.{greatest_density};
ghost use Rattle.lbm_cell.specs.Moments.{populations};
ghost use Rattle.lbm_model.specs.Limits.{most_steps};
ghost use Rattle.lbm_model.specs.State.{population};
ghost use Rattle.lbm_tracer.specs.Limits.{amount_bound};
ghost use Rattle.lbm_tracer.specs.Sets.{stencil_of};
ghost use Rattle.lbm_tracer.specs.Collision.{IsFlowMoment};
ghost use Rattle.lbm_tracer.specs.Tracing.{set_in, is_tracer_sound, tracer_out_of_limits};
ghost use Rattle.lbm_tracer.specs.Carried.{AreFew, IsTracerRegion, amount_in, carried};
ghost use Rattle.lbm_tracer.specs.Rows.{IsTracerRow};
ghost use Rattle.lbm_tracer.specs.FlowRows.{HasRoom, moment_at};
ghost use Rattle.lbm_tracer.specs.Sending.{Goes, CellGoes, RowGoes, RowSends, Makes, AnswersOut};
ghost use Rattle.lbm_tracer.specs.Running.{Follows};

use crate::collision::{Amounts, collide, in_limits, is_empty, turn_back};
use crate::flow_row::FlowRow;
use crate::slots::{TracerRow, amounts_at, amounts_in_row, is_row_empty, put_in_row};
use crate::{Tracer, TracerSet};
use lbm_arrays::Region;
use lbm_cell::{GREATEST_DENSITY, LEAST_DENSITY, Moment, Rates};
use lbm_lattice::Pattern;
use lbm_model::{Case, Gate, Lattice};
use lbm_space::Space;
use std::alloc::Allocator;

// Why a step was not made.
#[derive(Clone, Copy)]
enum Unsent {
    // This is the least cell of the tracer that is out of limits, where the flow is in limits.
    TracerOut(u32),
    // The flow is out of limits.
    FlowOut,
}

// Whether a part of a momentum is no greater in size than the density of a cell in limits may be.
#[inline(always)]
fn is_small(j: i64) -> bool
    ensures small { IsTrue result → unsigned_abs j ≤ greatest_density }
    ensures great { result ≡ false → unsigned_abs j ≤ greatest_density → ⊥ }
{
    -GREATEST_DENSITY <= j && j <= GREATEST_DENSITY
}

// Whether density and momentum are such as those of a cell in limits.
#[inline(always)]
fn is_flow_moment(flow: &Moment) -> bool
    ensures moment { IsTrue result → IsFlowMoment flow.now }
    ensures other { result ≡ false → IsFlowMoment flow.now → ⊥ }
{
    if flow.rho < LEAST_DENSITY {
        return false;
    }
    if GREATEST_DENSITY < flow.rho {
        return false;
    }
    if !is_small(flow.jx) {
        return false;
    }
    if !is_small(flow.jy) {
        return false;
    }
    is_small(flow.jz)
}

// What a cell sends in each direction where it holds these amounts: a wall turns them back, and in the fluid they collide.
#[inline(always)]
fn post(
    set: TracerSet,
    case: &Case,
    rates: Rates,
    cell: u32,
    flow: &Moment,
    amounts: &Amounts,
) -> Result<Amounts, Unsent>
    requires set { stencil_of set ≡ set_in case.now.torus }
    requires cell { cell < cells case.now.torus }
    requires few { (k : ℕ) → k < (set_in case.now.torus).directions → unsigned_abs (populations amounts.now k) ≤ amount_bound }
    ensures { Makes case.now rates flow.now cell (populations amounts.now) result }
{
    if case.is_solid(cell) {
        return Ok(turn_back(set, amounts));
    }
    if !in_limits(set, amounts) {
        return Err(Unsent::TracerOut(cell));
    }
    if !is_flow_moment(flow) {
        return Err(Unsent::FlowOut);
    }
    Ok(collide(set, rates, flow, amounts))
}

// The cell at x of a row puts what it sends in each direction where it has taken the opposite one: so it stands at the next time. One
// that holds nothing has nothing to put.
#[inline(always)]
fn send_cell<A: Allocator>(
    region: &mut Region<A>,
    row: &TracerRow,
    set: TracerSet,
    case: &Case,
    rates: Rates,
    flow: &FlowRow<A>,
    x: u32,
) -> Result<(), Unsent>
    requires row { IsTracerRow row.now }
    requires set { set ≡ row.now.set }
    requires space { case.now.torus ≡ row.now.space }
    requires laid { IsTracerRegion row.now.space region.old }
    requires room { HasRoom row.now.space.nx flow.now }
    requires few { AreFew row.now.space (amount_in row.now.space row.now.time region.old.slots) }
    requires x { x < row.now.width }
    ensures sent { CellGoes case.now rates row.now x (moment_at flow.now x) region.old.slots region.new.slots result }
    ensures few { AreFew row.now.space (amount_in row.now.space row.now.time region.new.slots) }
    ensures same { region.new ≡ record region.old { slots = region.new.slots } }
{
    let amounts = amounts_in_row(region, row, set, x);
    if is_empty(set, &amounts) {
        return Ok(());
    }
    let moment = flow.moment(x as usize);
    let sent = post(set, case, rates, row.cell(x), &moment, &amounts)?;
    put_in_row(region, row, set, x, &turn_back(set, &sent));
    Ok(())
}

// All cells of a row send.
#[inline(always)]
fn send_cells<A: Allocator>(
    region: &mut Region<A>,
    row: &TracerRow,
    set: TracerSet,
    case: &Case,
    rates: Rates,
    flow: &FlowRow<A>,
) -> Result<(), Unsent>
    requires row { IsTracerRow row.now }
    requires set { set ≡ row.now.set }
    requires space { case.now.torus ≡ row.now.space }
    requires laid { IsTracerRegion row.now.space region.old }
    requires room { HasRoom row.now.space.nx flow.now }
    requires few { AreFew row.now.space (amount_in row.now.space row.now.time region.old.slots) }
    ensures sent { RowGoes case.now rates row.now (moment_at flow.now) region.old.slots region.new.slots result }
    ensures few { AreFew row.now.space (amount_in row.now.space row.now.time region.new.slots) }
    ensures same { region.new ≡ record region.old { slots = region.new.slots } }
{
    for x in 0..row.width {
        send_cell(region, row, set, case, rates, flow, x)?;
    }
    Ok(())
}

// The same at the set of the space, which the compiler then knows, and by a row of its own, which no put changes.
fn send_row<A: Allocator>(
    region: &mut Region<A>,
    row: &TracerRow,
    case: &Case,
    rates: Rates,
    flow: &FlowRow<A>,
) -> Result<(), Unsent>
    requires row { IsTracerRow row.now }
    requires space { case.now.torus ≡ row.now.space }
    requires laid { IsTracerRegion row.now.space region.old }
    requires room { HasRoom row.now.space.nx flow.now }
    requires few { AreFew row.now.space (amount_in row.now.space row.now.time region.old.slots) }
    ensures sent { RowGoes case.now rates row.now (moment_at flow.now) region.old.slots region.new.slots result }
    ensures few { AreFew row.now.space (amount_in row.now.space row.now.time region.new.slots) }
    ensures same { region.new ≡ record region.old { slots = region.new.slots } }
{
    let own = *row;
    match own.set {
        TracerSet::D2Q5 => send_cells(region, &own, TracerSet::D2Q5, case, rates, flow),
        TracerSet::D3Q7 => send_cells(region, &own, TracerSet::D3Q7, case, rates, flow),
    }
}

// The cells of a row send by the state of the flow. Where the row holds nothing, it has nothing to put, and the flow is not read.
fn send_by<G: Gate, P: Pattern<G>, A: Allocator>(
    region: &mut Region<A>,
    flows: &mut FlowRow<A>,
    row: &TracerRow,
    rates: Rates,
    flow: &P,
) -> Result<(), Unsent>
    requires row { IsTracerRow row.now }
    requires laid { IsTracerRegion row.now.space region.old }
    requires room { HasRoom row.now.space.nx flows.old }
    requires few { AreFew row.now.space (amount_in row.now.space row.now.time region.old.slots) }
    requires not_spent { IsNone (P.standing flow.now).spent }
    requires space { (P.standing flow.now).case.torus ≡ row.now.space }
    ensures sent { RowSends (P.standing flow.now) rates row.now region.old.slots region.new.slots result }
    ensures few { AreFew row.now.space (amount_in row.now.space row.now.time region.new.slots) }
    ensures room { HasRoom row.now.space.nx flows.new }
    ensures same { region.new ≡ record region.old { slots = region.new.slots } }
{
    if is_row_empty(region, row) {
        return Ok(());
    }
    flows.read::<G, P>(flow, row.number);
    send_row(region, row, flow.case(), rates, flows)
}

// All cells send, row by row, by the state of the flow.
fn send_all<G: Gate, P: Pattern<G>, A: Allocator>(
    region: &mut Region<A>,
    flows: &mut FlowRow<A>,
    space: &Space,
    time: u64,
    rates: Rates,
    flow: &P,
) -> Result<(), Unsent>
    requires laid { IsTracerRegion space.now region.old }
    requires room { HasRoom space.now.nx flows.old }
    requires few { AreFew space.now (amount_in space.now time region.old.slots) }
    requires not_spent { IsNone (P.standing flow.now).spent }
    requires space { (P.standing flow.now).case.torus ≡ space.now }
    ensures valid { IsSpace space.now }
    ensures sent { Goes (P.standing flow.now).case rates (P.standing flow.now).state time region.old.slots region.new.slots (cells space.now) result }
    ensures few { AreFew space.now (amount_in space.now time region.new.slots) }
    ensures room { HasRoom space.now.nx flows.new }
    ensures same { region.new ≡ record region.old { slots = region.new.slots } }
{
    for number in 0..space.rows() {
        let row = TracerRow::of(space, time, number);
        send_by::<G, P, A>(region, flows, &row, rates, flow)?;
    }
    Ok(())
}

impl<A: Allocator> Tracer<A> {
    // Whether a cell is solid or in limits.
    fn is_sound(&self, case: &Case, cell: u32) -> bool
        requires not_spent { self.now.spent ≡ false }
        requires space { case.now.torus ≡ self.now.torus }
        requires cell { cell < cells self.now.torus }
        ensures { result ≡ is_tracer_sound case.now cell (population (carried self.now).state cell) }
    {
        if case.is_solid(cell) {
            return true;
        }
        let amounts = amounts_at(&self.region, &self.space, self.time, cell);
        in_limits(TracerSet::of(&self.space), &amounts)
    }

    // The least cell out of limits, by the walls of its case.
    pub(crate) fn check(&self, case: &Case) -> Option<u32>
        requires not_spent { self.now.spent ≡ false }
        requires space { case.now.torus ≡ self.now.torus }
        ensures { result ≡ tracer_out_of_limits case.now (carried self.now).state }
    {
        for cell in 0..self.space.cells() {
            if !self.is_sound(case, cell) {
                return Some(cell);
            }
        }
        None
    }

    // Goes on by the state of the flow where both are in limits. The answer is the tracer's least cell out of limits, where the flow
    // is in limits. Where one of them is out of limits, the tracer is spent.
    pub(crate) fn follow<G: Gate, P: Pattern<G>>(&mut self, flow: &P) -> Option<u32>
        requires not_spent { self.old.spent ≡ false }
        requires flow_not_spent { IsNone (P.standing flow.now).spent }
        requires space { (P.standing flow.now).case.torus ≡ self.old.torus }
        requires time { self.old.time < most_steps }
        ensures { Follows (P.standing flow.now) (carried self.old) (carried self.new) result }
    {
        let sent = send_all::<G, P, A>(
            &mut self.region,
            &mut self.flows,
            &self.space,
            self.time,
            self.rates,
            flow,
        );
        if let Err(end) = sent {
            self.spent = true;
            return answer_of(end, flow);
        }
        self.time += 1;
        None
    }

    // Of its state nothing is said from now on.
    pub(crate) fn spend(&mut self)
        ensures { carried self.new ≡ record (carried self.old) { spent = true } }
    {
        self.spent = true;
    }
}

// The tracer's answer where a step was not made: the flow is tested first.
fn answer_of<P: Lattice>(end: Unsent, flow: &P) -> Option<u32>
    requires { IsNone (P.standing flow.now).spent }
    ensures { AnswersOut (P.standing flow.now) end result }
{
    if let Unsent::TracerOut(cell) = end
        && flow.check().is_none()
    {
        return Some(cell);
    }
    None
}
