//! The turns of a board: what each of them does in a step, and who lets them all do it.

ghost use Rattle.std.specs.Prelude.{◌≡◌, ℕ, ◌<◌, All, length, slice_index_or};
ghost use Rattle.lbm_board.specs.Models.{BoardModel, TurnModel};
ghost use Rattle.lbm_model.specs.Case.{FlowCase};

use lbm_board::{Board, Turn};
use lbm_model::{Case, Gate};
use std::marker::{Send, Sync};
use std::thread;
use std::thread::Threads;

// A board has so many turns at most, and each may have a thread of its own.
const MOST_TURNS: usize = 64;

/// What a turn of a board does in a step. It owns what it needs, and so names no lifetime. Whether threads may share it is
/// asked where they do.
pub trait Serving: Drop {
    /// What the board deals out.
    type Piece: Send;

    /// What holds of the case, of the board and of the turn before the call.
    ghost ready: { Self → FlowCase → BoardModel Self.Piece → TurnModel Self.Piece → Type 0 };

    /// What holds of these, and of the turn after the call.
    ghost does: { Self → FlowCase → BoardModel Self.Piece → TurnModel Self.Piece → TurnModel Self.Piece → Type 0 };

    /// The work of one turn. It enters the gate once before each piece that it works on.
    fn serve<G: Gate>(
        &self,
        board: &Board<Self::Piece>,
        turn: &mut Turn<Self::Piece>,
        case: &Case,
        gate: &G,
    )
        requires { ready self.now case.now board.now turn.old }
        ensures { does self.now case.now board.now turn.old turn.new };
}

/// Lets all turns of a board do their work, beside each other.
pub trait Serves<S: Serving> {
    /// That it does so.
    ghost serves: { Self → Type 0 };

    /// Each turn does its work once.
    fn serve_all(
        &self,
        work: &S,
        board: &Board<S::Piece>,
        turns: &mut [Turn<S::Piece>],
        case: &Case,
    )
        requires able { serves self.now }
        requires ready { All (S.ready work.now case.now board.now) turns.old }
        ensures count { length turns.new ≡ length turns.old }
        ensures each { (k : ℕ) (d : TurnModel S.Piece) → k < length turns.old → S.does work.now case.now board.now (slice_index_or turns.old k d) (slice_index_or turns.new k d) };
}

/// A crew that is a closure.
#[derive(Drop)]
pub struct Servers<F> {
    pub serve: F,
}

impl<S: Serving, F: Fn(&S, &Board<S::Piece>, &mut [Turn<S::Piece>], &Case)> Serves<S>
    for Servers<F> {
    ghost serves = { λ s. ((work board turns case : _) → All (S.ready work.now case.now board.now) turns.now → F.pre s.serve work board turns case) × ((work board turns case done end : _) → F.post s.serve work board turns case done end → (length end.now ≡ length turns.now) × ((k : ℕ) (d : TurnModel S.Piece) → k < length turns.now → S.does work.now case.now board.now (slice_index_or turns.now k d) (slice_index_or end.now k d))) };

    fn serve_all(
        &self,
        work: &S,
        board: &Board<S::Piece>,
        turns: &mut [Turn<S::Piece>],
        case: &Case,
    ) {
        (self.serve)(work, board, turns, case)
    }
}

/// Lets each turn do its work past a gate, in threads that are started by halves.
pub(crate) fn serve_past<R: Threads + Sync, G: Gate, S: Serving + Sync>(
    rt: &R,
    gate: &G,
    work: &S,
    board: &Board<S::Piece>,
    turns: &mut [Turn<S::Piece>],
    case: &Case,
)
    requires ready { All (S.ready work.now case.now board.now) turns.old }
    ensures count { length turns.new ≡ length turns.old }
    ensures each { (k : ℕ) (d : TurnModel S.Piece) → k < length turns.old → S.does work.now case.now board.now (slice_index_or turns.old k d) (slice_index_or turns.new k d) }
{
    thread::for_each_mut(
        rt,
        turns,
        MOST_TURNS,
        &|_: usize, turn: &mut Turn<S::Piece>|
            requires { S.ready work.now case.now board.now turn.now }
        { work.serve(board, turn, case, gate) },
    );
}
