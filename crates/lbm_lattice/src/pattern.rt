//! Lattices that step.

ghost use Rattle.std.specs.Prelude.{◌≡◌, ℕ, ◌*◌, ◌<◌, ◌≤◌, All, IsNone, length};
ghost use Rattle.arrayvec.specs.ArrayVec.{array_vec_len};
ghost use Rattle.lbm_space.specs.Torus.{padded, rows as row_count};
ghost use Rattle.lbm_space.specs.Cuttings.{slabs_of, rows_of};
ghost use Rattle.lbm_model.specs.Limits.{most_steps};
ghost use Rattle.lbm_model.specs.Standing.{StepGives};
ghost use Rattle.lbm_arrays.specs.Arrays.{array_size, held};
ghost use Rattle.lbm_arrays.specs.LentRanges.{lent, slab_rows, AreInside, AreLent, IsLent, IsForked};
ghost use Rattle.lbm_lattice.specs.Rows.{IsRead};

use crate::serving::{Servers, Serves, Serving, serve_past};
use lbm_arrays::{Forks, Hands, Inputs, Lending, Pass, PieceWork, Viewed, fork};
use lbm_board::{Board, Turn};
use lbm_model::{Case, Gate, Lattice, NoGate, StepEnd};
use lbm_space::Cutting;
use std::marker::Sync;
use std::thread::Threads;

/// A lattice that steps, each piece of its work past a gate.
///
/// A pattern writes `step_by`, which starts no thread and knows no gate: it hands its passes to a crew. `step` is the crew of
/// threads. (In a method that each pattern writes, the bounds of type parameters hold in one thread alone; a final method is
/// proved once, with bounds that hold in all.)
pub trait Pattern<G: Gate>: Lattice {
    /// What is done with the loans of slabs.
    type Work: Pass + Sync;

    /// What the turns of a board do: `NoServing` where there is none.
    type Turns: Serving + Sync;

    /// The step, by a crew for slabs and one for the turns of a board.
    fn step_by<C: Forks<Self::Work>, S: Serves<Self::Turns>>(
        &mut self,
        crew: &C,
        servers: &S,
    ) -> Result<(), StepEnd>
        requires time { (Self.standing self.old).time < most_steps }
        requires able { C.forks crew.now }
        requires served { S.serves servers.now }
        ensures { StepGives Self.WANTS_MEMORY (Self.standing self.old) (Self.standing self.new) result };

    /// Population `dir` of each cell of a row, into a list that has as many places as a row has cells.
    fn read_row(&self, row: u32, dir: u32, pops: &mut [i64])
        requires not_spent { IsNone (Self.standing self.now).spent }
        requires row { row < row_count (Self.standing self.now).case.torus }
        requires direction { dir < (Self.standing self.now).case.stencil.directions }
        requires room { length pops.old ≡ (Self.standing self.now).case.torus.nx }
        ensures { IsRead (Self.standing self.now) row dir pops.new }
    {
        let width = self.case().space().sides()[0];
        for x in 0..width {
            pops[x as usize] = self.get(row * width + x, dir);
        }
    }

    /// Goes on to the next state where all cells are in limits, and else names the least cell that is not, or the one that
    /// spent the lattice before. The time is below 1,000,000. The gate is entered once before each piece of the step, from
    /// the thread that does it. Memory may be wanted where `WANTS_MEMORY` says so; all is then as before.
    final fn step<R: Threads + Sync>(&mut self, rt: &R, gate: &G) -> Result<(), StepEnd>
        requires { (Self.standing self.old).time < most_steps }
        ensures { StepGives Self.WANTS_MEMORY (Self.standing self.old) (Self.standing self.new) result }
    {
        let hands = Hands {
            fork: |pass: Self::Work, gated: bool, inputs: &Inputs<
                '_,
            >, slots: &mut [i64], lending: &Lending, cut: &Cutting| -> Option<u32>
                requires { (lending.now.margin ≤ padded lending.now.space) × (length slots.now ≡ array_vec_len lending.now.shifts * array_size lending.now.space lending.now.margin) × AreInside lending.now.space lending.now.margin lending.now.shifts.items × (rows_of cut.now ≡ row_count lending.now.space) × ((k : ℕ) → k < slabs_of cut.now → Self.Work.ready pass inputs.now.case.now inputs.now.read.now inputs.now.places.now k (slab_rows cut.now k) (lent lending.now.space lending.now.margin lending.now.shifts.items (slab_rows cut.now k) slots.now)) }
            {
                let work = Viewed {
                    pass: &pass,
                    inputs,
                };
                fork_past(rt, gate, gated, &work, slots, lending, cut)
            },
        };
        let servers = Servers {
            serve: |work: &Self::Turns, board: &Board<
                <Self::Turns as Serving>::Piece,
            >, turns: &mut [Turn<<Self::Turns as Serving>::Piece>], case: &Case|
                requires { All (Self.Turns.ready work.now case.now board.now) turns.now }
            { serve_past(rt, gate, work, board, turns, case) },
        };
        self.step_by(&hands, &servers)
    }
}

// Runs a work on each slab, each past the gate where that is asked.
fn fork_past<R: Threads + Sync, G: Gate, W: PieceWork>(
    rt: &R,
    gate: &G,
    gated: bool,
    work: &W,
    slots: &mut [i64],
    lending: &Lending,
    cut: &Cutting,
) -> Option<u32>
    requires margin { lending.now.margin ≤ padded lending.now.space }
    requires sized { length slots.old ≡ array_vec_len lending.now.shifts * array_size lending.now.space lending.now.margin }
    requires inside { AreInside lending.now.space lending.now.margin lending.now.shifts.items }
    requires cutting { rows_of cut.now ≡ row_count lending.now.space }
    requires ready { (k : ℕ) → k < slabs_of cut.now → W.ready work.now k (slab_rows cut.now k) (lent lending.now.space lending.now.margin lending.now.shifts.items (slab_rows cut.now k) slots.old) }
    ensures did { IsForked (W.does work.now) lending.now.space lending.now.margin lending.now.shifts.items cut.now slots.old slots.new result }
    ensures others { (s : ℕ) → ((k : ℕ) → k < length lending.now.shifts.items → IsLent lending.now.space lending.now.margin lending.now.shifts.items k 0 (row_count lending.now.space) s → ⊥) → held slots.new s ≡ held slots.old s }
    ensures ranges { AreLent lending.now.space lending.now.margin lending.now.shifts.items cut.now }
{
    if gated {
        fork(rt, slots, lending, cut, gate, work)
    } else {
        fork(rt, slots, lending, cut, &NoGate, work)
    }
}
