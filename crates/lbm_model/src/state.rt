//! The state of a flow.

ghost use Rattle.std.specs.Prelude.{◌≡◌};

use std::marker::Model;

/// The populations of all cells, in order of cell and then direction.
#[derive(Debug, Drop)]
pub struct State {
    q: u32,
    pops: Vec<i32>,
}

impl Model for State {
    ghost use Rattle.lbm_model.specs.State.{FlowState, IsState, flow_state};

    ghost Value = { FlowState };

    ghost view = { λ s. flow_state s.q s.pops.items };

    ghost invariant = { λ s. IsState (flow_state s.q s.pops.items) };
}

impl State {
    ghost use Rattle.lbm_model.specs.State.{FlowState, IsState, flow_state};

    /// The state of cells of `q` populations each, in order of cell and then direction. `q` is 1 to 27, and
    /// `pops` has the populations of whole cells, of which there are at most 4,194,304.
    pub fn new(q: u32, pops: Vec<i32>) -> State
        requires { IsState (flow_state q pops.items) }
        ensures { result ≡ flow_state q pops.items }
    {
        State { q, pops }
    }

    /// How many populations a cell has.
    pub fn q(&self) -> u32
        ensures value { result ≡ self.now.directions }
        ensures valid { IsState self.now }
    {
        self.q
    }

    /// The populations of all cells, in order of cell and then direction.
    pub fn pops(&self) -> &[i32]
        ensures value { result.now ≡ self.now.numbers }
        ensures valid { IsState self.now }
    {
        self.pops.as_slice()
    }

    /// The populations as they were given.
    pub fn into_pops(self) -> Vec<i32>
        ensures { result.items ≡ self.numbers }
    {
        self.pops
    }
}
