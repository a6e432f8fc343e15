//! The table that the turns of a board share.
//! Word 0 counts the claims, and word 1 is the least report. Slot k has piece k while no turn holds it.
use crate::record::View;
use atomic_table::{Seat, Shared, Table, TableRule};
use std::alloc::Global;
use std::snapshot::Snapshot;

/// What a board was started with.
#[derive(Drop)]
pub struct Start<T> {
    pub turns: u32,
    pub given: Snapshot<Vec<T>>,
}

/// The running rule of a board, which holds between any two steps.
pub struct BoardRule;

impl<T> TableRule<Option<T>, View<T>, Start<T>> for BoardRule {
    ghost use Rattle.lbm_board.specs.RunningRule.{RunningRule, first_view};

    ghost holds = { λ start. RunningRule start.turns start.given.value.items };

    ghost first = { λ start. first_view start.turns start.given.value.items };
}

pub type BoardTable<T> = Table<Option<T>, View<T>, Start<T>, BoardRule, Global>;

pub type SharedTable<T> = Shared<Option<T>, View<T>, Start<T>, BoardRule>;

pub type BoardSeat<T> = Seat<Option<T>, View<T>>;
