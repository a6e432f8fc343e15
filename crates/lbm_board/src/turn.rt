//! A caller's token.
use crate::rule::BoardSeat;
use std::marker::Model;

/// One caller's place at a board: what it has drawn, and what of it is not finished. Contracts see it as a `TurnModel`,
/// which has the record of its calls.
#[derive(Drop)]
pub struct Turn<T> {
    pub(crate) seat: BoardSeat<T>,
    pub(crate) number: u32,
    // The numbers that it has drawn.
    pub(crate) drawn: Vec<u32>,
    // Those of them that it has not finished, in the order of the slots that the seat holds.
    pub(crate) held: Vec<u32>,
    // Whether it was told that no piece is left.
    pub(crate) ended: bool,
}

impl<T> Model for Turn<T> {
    ghost use Rattle.lbm_board.specs.Models.{TurnModel, turn_model};
    ghost use Rattle.lbm_board.specs.Fields.{IsTurn};
    ghost use Rattle.std.specs.Prelude.{vec_capacity};

    ghost Value = { TurnModel T };

    ghost view = { λ t. turn_model t.seat.table_id t.seat.me.0 };

    ghost invariant = { λ t. IsTurn t.seat.table_id t.seat.me t.number t.drawn.items (vec_capacity t.drawn) t.held.items (vec_capacity t.held) t.ended };
}
