//! The table is made, and its slots get their first pieces.
ghost use Rattle.std.specs.Prelude.{◌≡◌, ◌<◌, ◌≤◌, [], length, false, vec_len, IfOk, IfErr};
ghost use Rattle.lbm_board.specs.RunningRule.{opening_view};

use crate::rule::{BoardSeat, BoardTable, SharedTable, Start};
use crate::seats::fill;
use lbm_space::Memory;
use std::alloc::Global;
use std::snapshot::Snapshot;

/// Gives each slot its first piece.
fn fill_all<T: Drop>(table: &SharedTable<T>, seat: &mut BoardSeat<T>, mut pieces: Vec<T>)
    requires table { (seat.old.table_id ≡ table.now.table_id) × (table.now.table_id.words ≡ 2)
        × (table.now.table_id.slots ≡ length pieces.items) × (length pieces.items ≤ 4096) }
    requires seat { (seat.old.me ≡ (opening_view seat.old.me.0.leave seat.old.me.0.given 0 false, []))
        × (seat.old.me.0.given ≡ pieces.items) }
    ensures table { (seat.new.table_id ≡ seat.old.table_id) × (seat.new.id ≡ seat.old.id) }
    ensures seat { seat.new.me ≡ (opening_view seat.old.me.0.leave pieces.items (length pieces.items) false, []) }
{
    pieces.as_mut_slice().reverse();
    let mut number = 0;
    while let Some(piece) = pieces.pop() {
        fill(table, seat, number, piece);
        number += 1;
    }
}

/// A table with these pieces, and the seat of its first turn. The pieces are moved once there is memory for all slots.
pub(crate) fn make_table<T: Drop>(
    alloc: Global,
    pieces: Vec<T>,
    turns: u32,
) -> Result<(BoardTable<T>, BoardSeat<T>), (Vec<T>, Memory)>
    requires { (vec_len pieces ≤ 4096) × (0 < turns) × (turns ≤ 64) }
    ensures table { IfOk result (λ s. (s.1.table_id ≡ s.0.shared.table_id)
        × (s.0.shared.table_id.words ≡ 2) × (s.0.shared.table_id.slots ≡ length pieces.items)) }
    ensures key { IfOk result (λ s. (s.0.shared.key.turns ≡ turns)
        × (s.0.shared.key.given.value.items ≡ pieces.items)) }
    ensures seat { IfOk result (λ s. s.1.me ≡ (opening_view turns pieces.items (length pieces.items) false, [])) }
    ensures err { IfErr result (λ e. e.0.items ≡ pieces.items) }
{
    let start = Start {
        turns,
        given: Snapshot::of(&pieces),
    };
    match BoardTable::vacant(alloc, &[0, u64::MAX], pieces.len(), &start) {
        Ok((table, mut seat)) => {
            fill_all(&table.shared, &mut seat, pieces);
            Ok((table, seat))
        }
        Err(error) => Err((pieces, Memory::from(error))),
    }
}
