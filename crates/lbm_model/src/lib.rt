//! What a flow is: a case, its states, the first state, the next one, and a run.
#![tactic(auto)]

pub mod case;
pub mod cell;
pub mod constants;
pub mod first;
pub mod gate;
pub mod lattice;
pub mod laws;
pub mod layout;
pub mod pattern;
pub mod sets;
pub mod state;
pub mod walls;

pub use case::{Case, MovingWalls};
pub use cell::{post, sound};
pub use constants::MOST_STEPS;
pub use first::first_state;
pub use gate::{Gate, NoGate};
pub use lattice::Lattice;
pub use layout::Layout;
pub use pattern::StepEnd;
pub use sets::SetKind;
pub use state::State;
pub use walls::{all_gain, gain, moving_gain};
