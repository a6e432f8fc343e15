//! The turns of a new board.
ghost use Rattle.std.specs.Prelude.{◌≡◌, ℕ, ◌<◌, ◌≤◌, [], ◌∷◌, length, vec_capacity, slice_get, Some, All};
ghost use Rattle.lbm_board.specs.Entries.{record_of};
ghost use Rattle.lbm_board.specs.Models.{fresh_turn};

use crate::rule::{BoardSeat, SharedTable};
use crate::seats::split;
use crate::turn::Turn;
use crate::turn_room::TurnRoom;

// A turn that has made no call.
fn make_turn<T>(seat: BoardSeat<T>, number: u32, room: TurnRoom) -> Turn<T>
    requires seat { (seat.me.1 ≡ []) × (seat.me.0.records ≡ record_of number [] ∷ [])
        × (0 < seat.me.0.leave) × (seat.me.0.filled ≡ seat.table_id.slots) }
    requires room { room.room ≡ seat.table_id.slots }
    ensures { result ≡ fresh_turn seat.table_id seat.me.0.given number }
{
    let TurnRoom {
        drawn,
        held,
        room: _,
    } = room;
    Turn {
        seat,
        number,
        drawn,
        held,
        ended: false,
    }
}

/// A turn for each room, in the order of their numbers. The first has the seat that is given, and the others have those that are split from it.
pub(crate) fn make_turns<T>(
    table: &SharedTable<T>,
    mut seat: BoardSeat<T>,
    mut rooms: Vec<TurnRoom>,
    mut turns: Vec<Turn<T>>,
) -> Vec<Turn<T>>
    requires table { (seat.table_id ≡ table.now.table_id) × (table.now.table_id.words ≡ 2)
        × (table.now.table_id.slots ≡ length table.now.key.given.value.items) }
    requires seat { (seat.me.1 ≡ []) × (seat.me.0.records ≡ record_of 0 [] ∷ [])
        × (seat.me.0.leave ≡ table.now.key.turns) × (seat.me.0.made ≡ 1)
        × (seat.me.0.filled ≡ table.now.table_id.slots) }
    requires rooms { (length rooms.items ≡ table.now.key.turns) × (0 < table.now.key.turns)
        × (table.now.key.turns ≤ 64) × All (λ r. r.room ≡ table.now.table_id.slots) rooms.items }
    requires turns { (turns.items ≡ []) × (table.now.key.turns ≤ vec_capacity turns) }
    ensures count { length result.items ≡ table.now.key.turns }
    ensures fresh { (k : ℕ) → k < table.now.key.turns → slice_get result.items k ≡ Some (fresh_turn seat.table_id seat.me.0.given k) }
{
    let Some(first) = rooms.pop() else {
        unreachable!()
    };
    let mut number = 1;
    while let Some(room) = rooms.pop() {
        let place = split(table, &mut seat);
        turns.push_reserved(make_turn(place, number, room));
        number += 1;
    }
    turns.push_reserved(make_turn(seat, 0, first));
    turns.rotate_right(1);
    turns
}
