//! The densities and momenta of a flow along a row of cells.

ghost use Rattle.std.specs.Prelude.{◌≡◌, ◌<◌, ◌≤◌, ◌^◌, ℕ, ℤ, pos, ◌+ℤ◌, ◌-ℤ◌, ◌*ℤ◌, IsNone, IfOk, length, slice_index_or, unsigned_abs};
ghost use Rattle.lbm_space.specs.Torus.{rows as row_count};
ghost use Rattle.lbm_tracer.specs.FlowRows.{HasRoom, HasMoments, moment_at};

use lbm_cell::Moment;
use lbm_lattice::Pattern;
use lbm_model::{Gate, at_set};
use lbm_space::{Memory, VelocitySet};
use std::alloc::Allocator;

/// The densities and momenta of a flow in the cells of a row, with room to read a row.
#[derive(Drop)]
pub(crate) struct FlowRow<A: Allocator> {
    pops: Vec<i64, A>,
    rho: Vec<i64, A>,
    x: Vec<i64, A>,
    y: Vec<i64, A>,
    z: Vec<i64, A>,
}

// Sets each number to 0.
fn clear(sums: &mut [i64])
    ensures room { length sums.new ≡ length sums.old }
    ensures zeros { (x : ℕ) → x < length sums.new → slice_index_or sums.new x (pos 0) ≡ pos 0 }
{
    for x in 0..sums.len() {
        sums[x] = 0;
    }
}

// Adds a number to each sum.
fn plus(sums: &mut [i64], f: &[i64])
    requires room { length f.now ≡ length sums.old }
    requires sums { (x : ℕ) → x < length sums.old → unsigned_abs (slice_index_or sums.old x (pos 0)) ≤ 2 ^ 40 }
    requires small { (x : ℕ) → x < length sums.old → unsigned_abs (slice_index_or f.now x (pos 0)) ≤ 2 ^ 31 }
    ensures room { length sums.new ≡ length sums.old }
    ensures value { (x : ℕ) → x < length sums.old → slice_index_or sums.new x (pos 0) ≡ slice_index_or sums.old x (pos 0) +ℤ slice_index_or f.now x (pos 0) }
{
    for x in 0..sums.len() {
        sums[x] += f[x];
    }
}

// Subtracts a number from each sum.
fn minus(sums: &mut [i64], f: &[i64])
    requires room { length f.now ≡ length sums.old }
    requires sums { (x : ℕ) → x < length sums.old → unsigned_abs (slice_index_or sums.old x (pos 0)) ≤ 2 ^ 40 }
    requires small { (x : ℕ) → x < length sums.old → unsigned_abs (slice_index_or f.now x (pos 0)) ≤ 2 ^ 31 }
    ensures room { length sums.new ≡ length sums.old }
    ensures value { (x : ℕ) → x < length sums.old → slice_index_or sums.new x (pos 0) ≡ slice_index_or sums.old x (pos 0) -ℤ slice_index_or f.now x (pos 0) }
{
    for x in 0..sums.len() {
        sums[x] -= f[x];
    }
}

// Adds c times a number to each sum.
fn add(sums: &mut [i64], c: i64, f: &[i64])
    requires unit { unsigned_abs c ≤ 1 }
    requires room { length f.now ≡ length sums.old }
    requires sums { (x : ℕ) → x < length sums.old → unsigned_abs (slice_index_or sums.old x (pos 0)) ≤ 2 ^ 40 }
    requires small { (x : ℕ) → x < length sums.old → unsigned_abs (slice_index_or f.now x (pos 0)) ≤ 2 ^ 31 }
    ensures room { length sums.new ≡ length sums.old }
    ensures value { (x : ℕ) → x < length sums.old → slice_index_or sums.new x (pos 0) ≡ slice_index_or sums.old x (pos 0) +ℤ c *ℤ slice_index_or f.now x (pos 0) }
{
    if c == 1 {
        plus(sums, f);
    } else if c == -1 {
        minus(sums, f);
    }
}

impl<A: Allocator + Copy> FlowRow<A> {
    /// Room for rows of so many cells. Want of memory is the only refusal.
    pub(crate) fn new(heap: A, width: usize) -> Result<FlowRow<A>, Memory>
        ensures { IfOk result (HasRoom width) }
    {
        Ok(FlowRow {
            pops: Vec::from_elem(heap, 0i64, width)?,
            rho: Vec::from_elem(heap, 0i64, width)?,
            x: Vec::from_elem(heap, 0i64, width)?,
            y: Vec::from_elem(heap, 0i64, width)?,
            z: Vec::from_elem(heap, 0i64, width)?,
        })
    }
}

impl<A: Allocator> FlowRow<A> {
    /// The density and the momentum of the cell at x.
    #[inline(always)]
    pub(crate) fn moment(&self, x: usize) -> Moment
        requires { (n : ℕ) × HasRoom n self.now × (x < n) }
        ensures { result ≡ moment_at self.now x }
    {
        Moment {
            rho: self.rho[x],
            jx: self.x[x],
            jy: self.y[x],
            jz: self.z[x],
        }
    }

    /// Reads a row of a flow.
    pub(crate) fn read<G: Gate, P: Pattern<G>>(&mut self, flow: &P, row: u32)
        requires not_spent { IsNone (P.standing flow.now).spent }
        requires row { row < row_count (P.standing flow.now).case.torus }
        requires room { HasRoom (P.standing flow.now).case.torus.nx self.old }
        ensures room { HasRoom (P.standing flow.now).case.torus.nx self.new }
        ensures moments { HasMoments (P.standing flow.now) row self.new }
    {
        at_set!(flow.case().set(), read_by::<G, P, A>(self, flow, row))
    }
}

// Reads a row of a flow, direction by direction, by the velocity set of its case.
fn read_by<V: VelocitySet, G: Gate, P: Pattern<G>, A: Allocator>(
    sums: &mut FlowRow<A>,
    flow: &P,
    row: u32,
)
    requires set { (P.standing flow.now).case.stencil ≡ V.stencil }
    requires not_spent { IsNone (P.standing flow.now).spent }
    requires row { row < row_count (P.standing flow.now).case.torus }
    requires room { HasRoom (P.standing flow.now).case.torus.nx sums.old }
    ensures room { HasRoom (P.standing flow.now).case.torus.nx sums.new }
    ensures moments { HasMoments (P.standing flow.now) row sums.new }
{
    clear(&mut sums.rho);
    clear(&mut sums.x);
    clear(&mut sums.y);
    clear(&mut sums.z);
    for i in 0..V::Q {
        flow.read_row(row, i as u32, &mut sums.pops);
        let c = V::c(i);
        plus(&mut sums.rho, &sums.pops);
        add(&mut sums.x, c[0], &sums.pops);
        add(&mut sums.y, c[1], &sums.pops);
        add(&mut sums.z, c[2], &sums.pops);
    }
}
