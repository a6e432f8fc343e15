//! What the patterns over arrays share.

ghost use Rattle.std.specs.Prelude.{◌≡◌, ◌<◌, ◌≤◌, IfOk, None, false};
ghost use Rattle.lbm_space.specs.Torus.{rows as row_count};
ghost use Rattle.lbm_space.specs.Cuttings.{rows_of};
ghost use Rattle.lbm_model.specs.Limits.{most_steps};
ghost use Rattle.lbm_model.specs.Flow.{IsStateOf};
ghost use Rattle.lbm_model.specs.Small.{IsNarrow};
ghost use Rattle.lbm_model.specs.Layout.{StandsIn};
ghost use Rattle.lbm_sweep.specs.Lattices.{standing_by};

use crate::reading::read_row;
use crate::{NoServing, Pattern, Propagation, Serves};
use lbm_arrays::{Forks, Region};
use lbm_model::{Case, Gate, Lattice, State, StepEnd};
use lbm_space::{Cutting, Memory, VelocitySet};
use lbm_sweep::{least_out_of_limits, place_state, population_at, read_state};
use std::alloc::{Allocator, Global};
use std::marker::{Model, PhantomData, Sync};

/// A lattice in padded arrays, one for each direction, that is advanced by the slabs of a cutting beside each other.
#[derive(Drop)]
pub struct ArrayLattice<V: VelocitySet, A: Allocator + Copy, P: Propagation<V, A>> {
    set: PhantomData<V>,
    case: Case,
    region: Region<A>,
    propagation: P,
    cut: Cutting,
    time: u64,
    spent: Option<u32>,
}

impl<V: VelocitySet, A: Allocator + Copy, P: Propagation<V, A>> Model for ArrayLattice<V, A, P> {
    ghost use Rattle.lbm_sweep.specs.Lattices.{Lattice, IsKept};

    ghost Value = { Lattice };

    ghost view = { λ p. record { case = p.case; time = p.time; spent = p.spent; slots = p.region.slots } };

    ghost invariant = { λ p. IsKept V.stencil (P.layout p.case p.time) p.case p.spent p.region p.cut × P.kept p.propagation p.case p.cut };
}

impl<V: VelocitySet, A: Allocator + Copy, P: Propagation<V, A>> ArrayLattice<V, A, P> {
    /// The lattice of a case at a state of it and a time, with all the memory that it needs: eight bytes a slot. No
    /// population of the state is above 2^28 in size, and the time is at most 1,000,000. The rows of the case's space are
    /// worked on as the cutting says. Want of memory is the only refusal, and no step wants memory.
    pub fn start(
        heap: A,
        case: Case,
        state: &State,
        t: u64,
        cut: Cutting,
    ) -> Result<ArrayLattice<V, A, P>, Memory>
        requires set { case.stencil ≡ V.stencil }
        requires state { IsStateOf case state.now }
        requires narrow { IsNarrow state.now }
        requires time { t ≤ most_steps }
        requires cutting { rows_of cut ≡ row_count case.torus }
        ensures stands { IfOk result (λ p. standing_by (P.layout p.case) p ≡ record { case = case; time = t; spent = None; state = state.now }) }
        ensures no_memory { ⟦<Self as Lattice>⟧.WANTS_MEMORY ≡ false }
    {
        let layout = P::layout_at(&case, t);
        let mut region = Region::new(heap, case.space(), V::Q as u32, layout.margin)?;
        let propagation = P::new(heap, &case, &cut)?;
        place_state::<V, A>(&mut region, &case, layout, state);
        Ok(ArrayLattice {
            set: PhantomData,
            case,
            region,
            propagation,
            cut,
            time: t,
            spent: None,
        })
    }

    /// The case. All else is given back.
    pub fn into_case(self) -> Case
        ensures { result ≡ self.case }
    {
        self.case
    }

    /// All slots of the region, array after array: a population stands where the pattern's layout of the time says.
    pub fn slots(&self) -> &[i64]
        ensures value { result.now ≡ self.now.slots }
        ensures layout { StandsIn self.now.case (P.layout self.now.case self.now.time) (standing_by (P.layout self.now.case) self.now).state result.now }
    {
        self.region.slots()
    }
}

impl<V: VelocitySet, A: Allocator + Copy, P: Propagation<V, A>> Lattice for ArrayLattice<V, A, P> {
    const WANTS_MEMORY: bool = false;

    ghost WANTS_MEMORY = { false };

    ghost standing = { λ p. standing_by (P.layout p.case) p };

    fn case(&self) -> &Case {
        &self.case
    }

    fn time(&self) -> u64 {
        self.time
    }

    fn spent(&self) -> Option<u32> {
        self.spent
    }

    fn get(&self, cell: u32, dir: u32) -> i64 {
        let layout = P::layout_at(&self.case, self.time);
        population_at::<V, A>(&self.region, &self.case, layout, cell, dir)
    }

    fn state(&self, alloc: Global) -> Result<State, Memory> {
        let layout = P::layout_at(&self.case, self.time);
        read_state::<V, A>(alloc, &self.region, &self.case, layout)
    }

    fn check(&self) -> Option<u32> {
        let layout = P::layout_at(&self.case, self.time);
        least_out_of_limits::<V, A>(&self.region, &self.case, layout)
    }
}

impl<G: Gate, V: VelocitySet, A: Allocator + Copy, P: Propagation<V, A>> Pattern<G>
    for ArrayLattice<V, A, P>
where
    P::Work: Sync,
{
    type Work = P::Work;

    type Turns = NoServing;

    fn read_row(&self, row: u32, dir: u32, pops: &mut [i64]) {
        let layout = P::layout_at(&self.case, self.time);
        read_row::<V, A>(&self.region, &self.case, layout, row, dir, pops);
    }

    fn step_by<C: Forks<P::Work>, S: Serves<NoServing>>(
        &mut self,
        crew: &C,
        _servers: &S,
    ) -> Result<(), StepEnd> {
        if let Some(cell) = self.spent {
            return Err(StepEnd::Range(cell));
        }
        let answer = self
            .propagation
            .advance(crew, &self.case, &self.cut, self.time, &mut self.region);
        if let Some(cell) = answer {
            self.spent = Some(cell);
            return Err(StepEnd::Range(cell));
        }
        self.time += 1;
        Ok(())
    }
}
