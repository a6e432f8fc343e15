//! The pattern.

ghost use Rattle.std.specs.Prelude.{◌≡◌, ◌+◌, ◌*◌, ◌<◌, ◌≤◌, [], IfOk, None, true, slice_index_or};
ghost use Rattle.lbm_space.specs.Torus.{rows as row_count};
ghost use Rattle.lbm_model.specs.Flow.{IsStateOf};
ghost use Rattle.lbm_model.specs.Limits.{most_steps};
ghost use Rattle.lbm_model.specs.Small.{IsNarrow};
ghost use Rattle.lbm_rows.specs.Tiles.{standing_in, IsDivision, StandInRow};

use crate::dealing::Division;
use crate::kept_row::row_number;
use crate::reading::{read_direction, read_state};
use crate::standing::{least_out_of_limits, make_rows, population_at};
use crate::step::advance;
use crate::{KeptRow, TileSteps};
use lbm_arrays::Forks;
use lbm_lattice::{NoPass, Pattern, Serves};
use lbm_model::{Case, Gate, Lattice, State, StepEnd};
use lbm_space::{Memory, VelocitySet};
use std::alloc::Global;
use std::marker::{Model, PhantomData, Sync};

/// A lattice in kept rows, whose steps deal tiles of rows to workers that claim them at a board.
#[derive(Drop)]
pub struct Tiles<V: VelocitySet> {
    set: PhantomData<V>,
    alloc: Global,
    case: Case,
    // Array after array, a row for each row of cells.
    kept: Vec<KeptRow>,
    time: u64,
    spent: Option<u32>,
    division: Division,
}

impl<V: VelocitySet> Model for Tiles<V> {
    ghost use Rattle.lbm_space.specs.Torus.{rows as row_count};
    ghost use Rattle.lbm_rows.specs.Tiles.{KeptLattice, kept_lattice, IsDivision, IsKeptLattice};

    ghost Value = { KeptLattice };

    ghost view = { λ p. kept_lattice p.case p.time p.spent p.kept.items };

    ghost invariant = { λ p. IsKeptLattice V.stencil (kept_lattice p.case p.time p.spent p.kept.items) × IsDivision (row_count p.case.torus) p.division.per_tile p.division.workers };
}

impl<V: VelocitySet> Tiles<V> {
    /// The lattice of a case at a state of it and a time: eight bytes a slot. No population of the state is above 2^28 in
    /// size, and the time is at most 1,000,000. A tile has `per_tile` rows, so many that there are at most 4,096 tiles
    /// (`tile_rows`), and `workers`, 1 to 64, take tiles. Want of memory is the only refusal. Each step wants memory.
    pub fn start(
        alloc: Global,
        case: Case,
        state: &State,
        t: u64,
        per_tile: u32,
        workers: u32,
    ) -> Result<Tiles<V>, Memory>
        requires set { case.stencil ≡ V.stencil }
        requires state { IsStateOf case state.now }
        requires narrow { IsNarrow state.now }
        requires time { t ≤ most_steps }
        requires division { IsDivision (row_count case.torus) per_tile workers }
        ensures stands { IfOk result (λ p. standing_in p ≡ record { case = case; time = t; spent = None; state = state.now }) }
        ensures memory { ⟦<Self as Lattice>⟧.WANTS_MEMORY ≡ true }
    {
        let _ = case.space(); // The case is valid.
        let kept = make_rows::<V>(alloc, &case, state, t)?;
        Ok(Tiles {
            set: PhantomData,
            alloc,
            case,
            kept,
            time: t,
            spent: None,
            division: Division { per_tile, workers },
        })
    }

    /// The case. All else is given back.
    pub fn into_case(self) -> Case
        ensures { result ≡ self.case }
    {
        self.case
    }

    /// The kept row of array `dir` for a row of cells, of `2 + nx` slots: a population stands where the layout of the
    /// pattern that works in place says, the cell at x having slot `1 + x`.
    pub fn row(&self, dir: u32, row: u32) -> &[i64]
        requires direction { dir < self.now.case.stencil.directions }
        requires row { row < row_count self.now.case.torus }
        ensures value { result.now ≡ slice_index_or self.now.kept (dir * row_count self.now.case.torus + row) [] }
        ensures layout { StandInRow self.now.case self.now.time (standing_in self.now).state dir row result.now }
    {
        let number = row_number(self.case.space(), dir as usize, row);
        self.kept[number].slots()
    }
}

impl<V: VelocitySet> Lattice for Tiles<V> {
    const WANTS_MEMORY: bool = true;

    ghost WANTS_MEMORY = { true };

    ghost standing = { λ p. standing_in p };

    fn case(&self) -> &Case {
        &self.case
    }

    fn time(&self) -> u64 {
        self.time
    }

    fn spent(&self) -> Option<u32> {
        self.spent
    }

    fn get(&self, cell: u32, dir: u32) -> i64 {
        population_at::<V>(
            self.kept.as_slice(),
            &self.case,
            self.time,
            cell,
            dir as usize,
        )
    }

    fn state(&self, alloc: Global) -> Result<State, Memory> {
        read_state::<V>(alloc, self.kept.as_slice(), &self.case, self.time)
    }

    fn check(&self) -> Option<u32> {
        least_out_of_limits::<V>(self.kept.as_slice(), &self.case, self.time)
    }
}

impl<G: Gate, V: VelocitySet + Sync> Pattern<G> for Tiles<V> {
    type Work = NoPass;

    type Turns = TileSteps<V>;

    fn read_row(&self, row: u32, dir: u32, pops: &mut [i64]) {
        read_direction::<V>(
            self.kept.as_slice(),
            &self.case,
            self.time,
            row,
            dir as usize,
            pops,
        );
    }

    fn step_by<C: Forks<NoPass>, S: Serves<TileSteps<V>>>(
        &mut self,
        _crew: &C,
        servers: &S,
    ) -> Result<(), StepEnd> {
        if let Some(cell) = self.spent {
            return Err(StepEnd::Range(cell));
        }
        let kept = self.kept.as_mut_slice();
        match advance::<V, S>(
            kept,
            &self.case,
            self.time,
            self.division,
            self.alloc,
            servers,
        ) {
            Err(_) => Err(StepEnd::Memory),
            Ok(Some(cell)) => {
                self.spent = Some(cell);
                Err(StepEnd::Range(cell))
            }
            Ok(None) => {
                self.time += 1;
                Ok(())
            }
        }
    }
}
