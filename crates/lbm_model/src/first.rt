//! The first state of a case.

ghost use Rattle.std.specs.Prelude.{◌≡◌, ◌<◌, ◌≤◌, ◌++◌, ℕ, false, unsigned_abs, IfOk, OnOk};
ghost use Rattle.lbm_space.specs.Limits.{most_directions};
ghost use Rattle.lbm_space.specs.Sum.{list_below};
ghost use Rattle.lbm_space.specs.Torus.{cells};
ghost use Rattle.lbm_cell.specs.Limits.{greatest_population};
ghost use Rattle.lbm_cell.specs.Moments.{populations};
ghost use Rattle.lbm_model.specs.Case.{is_solid};
ghost use Rattle.lbm_model.specs.Flow.{fluid_first, wall_first, first_in, first};
ghost use Rattle.lbm_model.specs.Small.{IsNarrow};

use crate::case::Case;
use crate::state::State;
use lbm_cell::{Pops, first_pops};
use lbm_space::{Memory, VelocitySet};
use std::alloc::Global;

// The first populations of a fluid cell.
fn fluid_first<V: VelocitySet>(case: &Case, cell: u32) -> Pops
    requires set { case.now.stencil ≡ V.stencil }
    requires cell { cell < cells case.now.torus }
    requires fluid { is_solid case.now cell ≡ false }
    ensures first { (i : ℕ) → i < V.stencil.directions →
        populations result.f i ≡ fluid_first case.now cell i }
    ensures small { (i : ℕ) → unsigned_abs (populations result.f i) < greatest_population }
{
    let j = case.momentum();
    first_pops::<V>(i64::from(case.density(cell)), j)
}

// The first population `i` of a wall.
fn wall_first<V: VelocitySet>(case: &Case, cell: u32, i: usize) -> i64
    requires set { case.now.stencil ≡ V.stencil }
    requires cell { cell < cells case.now.torus }
    requires known { i < V.stencil.directions }
    ensures first { result ≡ wall_first case.now cell i }
    ensures small { unsigned_abs result < greatest_population }
{
    let source = case.space().back::<V>(cell, i);
    if case.is_solid(source) {
        0
    } else {
        fluid_first::<V>(case, source).f[i]
    }
}

// The first populations of a wall.
fn wall_pops<V: VelocitySet>(case: &Case, cell: u32) -> Pops
    requires set { case.now.stencil ≡ V.stencil }
    requires cell { cell < cells case.now.torus }
    ensures first { (i : ℕ) → i < V.stencil.directions →
        populations result.f i ≡ wall_first case.now cell i }
    ensures small { (i : ℕ) → unsigned_abs (populations result.f i) < greatest_population }
{
    let mut pops = Pops::zero();
    for i in 0..V::Q {
        pops.f[i] = wall_first::<V>(case, cell, i);
    }
    pops
}

// The first populations of a cell.
fn cell_pops<V: VelocitySet>(case: &Case, cell: u32) -> Pops
    requires set { case.now.stencil ≡ V.stencil }
    requires cell { cell < cells case.now.torus }
    ensures first { (i : ℕ) → i < V.stencil.directions →
        populations result.f i ≡ first_in case.now cell i }
    ensures small { (i : ℕ) → unsigned_abs (populations result.f i) < greatest_population }
{
    if case.is_solid(cell) {
        wall_pops::<V>(case, cell)
    } else {
        fluid_first::<V>(case, cell)
    }
}

// Adds the first `q` of the populations at the end.
fn push_cell(pops: &mut Vec<i32>, f: &Pops, q: usize) -> Result<(), Memory>
    requires few { q ≤ most_directions }
    requires small { (i : ℕ) → unsigned_abs (populations f.now.f i) < greatest_population }
    ensures { OnOk result (pops.new.items ≡ pops.old.items ++ list_below q (populations f.now.f)) }
{
    for i in 0..q {
        pops.push(f.f[i] as i32)?;
    }
    Ok(())
}

/// The first state of the case: a fluid cell holds the equilibrium at its first density and momentum, rounded
/// down (Krüger et al., the chapter on the method), and a wall holds what its fluid neighbours would just have
/// sent into it, so that a flow at rest stays at rest beside a wall. `Memory` is for want of memory alone.
pub fn first_state<V: VelocitySet>(alloc: Global, case: &Case) -> Result<State, Memory>
    requires { case.now.stencil ≡ V.stencil }
    ensures first { IfOk result (λ s. s ≡ first case.now) }
    ensures narrow { IfOk result IsNarrow }
{
    let cells = case.space().cells();
    let mut pops = Vec::with_capacity(alloc, cells as usize * V::Q)?;
    for cell in 0..cells {
        push_cell(&mut pops, &cell_pops::<V>(case, cell), V::Q)?;
    }
    Ok(State::new(V::Q as u32, pops))
}
