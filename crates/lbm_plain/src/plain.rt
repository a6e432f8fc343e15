//! The plain definition as a pattern: a state, of which each step makes the next one.
ghost use Rattle.std.specs.Prelude.{◌≡◌, ◌<◌, IfOk, None, true, FitsSigned, ℕ};
ghost use Rattle.std.specs.Int.{w32};
ghost use Rattle.lbm_space.specs.Torus.{cells};
ghost use Rattle.lbm_cell.specs.Moments.{populations};
ghost use Rattle.lbm_model.specs.State.{population};
ghost use Rattle.lbm_model.specs.Flow.{IsStateOf, next, out_of_limits};
ghost use Rattle.lbm_model.specs.Small.{IsNarrow, IsSmall};

use lbm_arrays::Forks;
use lbm_cell::Pops;
use lbm_lattice::{NoPass, NoServing, Pattern, Serves};
use lbm_model::{Case, Gate, Lattice, State, StepEnd, first_state, post, sound};
use lbm_space::{Memory, VelocitySet};
use std::alloc::Global;
use std::marker::{Model, PhantomData};

/// A lattice that keeps its state as a list, and takes new memory for the next one.
#[derive(Drop)]
pub struct Plain<V: VelocitySet> {
    set: PhantomData<V>,
    alloc: Global,
    case: Case,
    state: State,
    time: u64,
    spent: Option<u32>,
}

impl<V: VelocitySet> Model for Plain<V> {
    ghost use Rattle.lbm_model.specs.Standing.{Standing};
    ghost use Rattle.lbm_plain.specs.Plain.{IsPlain};

    ghost Value = { Standing };

    ghost view = { λ p. record { case = p.case; time = p.time; spent = p.spent; state = p.state } };

    ghost invariant = { λ p. IsPlain V.stencil (record { case = p.case; time = p.time; spent = p.spent; state = p.state }) };
}

impl<V: VelocitySet> Plain<V> {
    /// The lattice of a case at a state of it, at time 0.
    pub fn start(alloc: Global, case: Case, state: State) -> Plain<V>
        requires set { case.stencil ≡ V.stencil }
        requires state { IsStateOf case state }
        requires narrow { IsNarrow state }
        ensures { result ≡ record { case = case; time = 0; spent = None; state = state } }
    {
        let _ = case.space(); // Its type keeps the case to those that are accepted.
        Plain {
            set: PhantomData,
            alloc,
            case,
            state,
            time: 0,
            spent: None,
        }
    }
}

impl<V: VelocitySet> Lattice for Plain<V> {
    const WANTS_MEMORY: bool = true;

    ghost WANTS_MEMORY = { true };

    ghost standing = { λ p. p };

    fn case(&self) -> &Case {
        &self.case
    }

    fn time(&self) -> u64 {
        self.time
    }

    fn spent(&self) -> Option<u32> {
        self.spent
    }

    fn get(&self, cell: u32, dir: u32) -> i64 {
        pops_at::<V>(&self.case, &self.state, cell).f[dir as usize]
    }

    fn check(&self) -> Option<u32> {
        least_out_of_limits::<V>(&self.case, &self.state)
    }
}

impl<G: Gate, V: VelocitySet> Pattern<G> for Plain<V> {
    type Work = NoPass;

    type Turns = NoServing;

    fn step_by<C: Forks<NoPass>, S: Serves<NoServing>>(
        &mut self,
        _crew: &C,
        _servers: &S,
    ) -> Result<(), StepEnd> {
        if let Some(cell) = self.spent {
            return Err(StepEnd::Range(cell));
        }
        if let Some(cell) = least_out_of_limits::<V>(&self.case, &self.state) {
            self.spent = Some(cell);
            return Err(StepEnd::Range(cell));
        }
        let Ok(next) = next_state::<V>(self.alloc, &self.case, &self.state) else {
            return Err(StepEnd::Memory);
        };
        self.state = next;
        self.time += 1;
        Ok(())
    }
}

/// The first state of a case, as `first_state` makes it. Want of memory is the only refusal.
pub fn first_of<V: VelocitySet>(alloc: Global, case: &Case) -> Result<State, Memory>
    requires { case.now.stencil ≡ V.stencil }
    ensures state { IfOk result (IsStateOf case.now) }
    ensures narrow { IfOk result IsNarrow }
{
    let state = first_state::<V>(alloc, case)?;
    Ok(state)
}

// The populations of a cell.
fn pops_at<V: VelocitySet>(case: &Case, state: &State, cell: u32) -> Pops
    requires set { case.now.stencil ≡ V.stencil }
    requires state { IsStateOf case.now state.now }
    requires cell { cell < cells case.now.torus }
    ensures { (i : ℕ) → i < V.stencil.directions → populations result.f i ≡ population state.now cell i }
{
    let first = cell as usize * V::Q;
    let mut f = Pops::zero();
    for i in 0..V::Q {
        f.f[i] = i64::from(state.pops()[first + i]);
    }
    f
}

// The least cell out of limits.
fn least_out_of_limits<V: VelocitySet>(case: &Case, state: &State) -> Option<u32>
    requires set { case.now.stencil ≡ V.stencil }
    requires state { IsStateOf case.now state.now }
    requires small { IsSmall case.now state.now }
    ensures { result ≡ out_of_limits case.now state.now }
{
    for cell in 0..case.space().cells() {
        if !sound::<V>(case, cell, &pops_at::<V>(case, state, cell)) {
            return Some(cell);
        }
    }
    None
}

// What the cell behind a cell sends to it in direction `dir`.
fn pulled<V: VelocitySet>(case: &Case, state: &State, cell: u32, dir: u32) -> i64
    requires set { case.now.stencil ≡ V.stencil }
    requires state { IsStateOf case.now state.now }
    requires small { IsSmall case.now state.now }
    requires sound { out_of_limits case.now state.now ≡ None }
    requires cell { cell < cells case.now.torus }
    requires direction { dir < V.stencil.directions }
    ensures value { result ≡ population (next case.now state.now) cell dir }
    ensures fits { FitsSigned w32 result }
{
    let source = case.space().back::<V>(cell, dir as usize);
    post::<V>(case, source, &pops_at::<V>(case, state, source)).f[dir as usize]
}

// The next state.
fn next_state<V: VelocitySet>(alloc: Global, case: &Case, state: &State) -> Result<State, Memory>
    requires set { case.now.stencil ≡ V.stencil }
    requires state { IsStateOf case.now state.now }
    requires small { IsSmall case.now state.now }
    requires sound { out_of_limits case.now state.now ≡ None }
    ensures { IfOk result (λ s. s ≡ next case.now state.now) }
{
    let q = V::Q as u32;
    let mut pops = Vec::new(alloc);
    for k in 0..case.space().cells() * q {
        pops.push(pulled::<V>(case, state, k / q, k % q) as i32)?;
    }
    Ok(State::new(q, pops))
}
