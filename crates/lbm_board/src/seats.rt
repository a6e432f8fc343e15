//! Seats before the turns start and after they end.
ghost use Rattle.std.specs.Prelude.{◌≡◌, ℕ, ◌+◌, ◌<◌, ◌≤◌, List, [], ◌∷◌, length, Option, slice_index, true, false};
ghost use Rattle.std.specs.Mem.Slots.{slots_items, slots_len, IsFull};
ghost use mathlib.Core.Option.{some};
ghost use lib.ListN.{get_elem?};
ghost use Rattle.lbm_board.specs.Lists.{total};
ghost use Rattle.lbm_board.specs.RunningRule.{in_view, of_turn, each_one, opening_view};
ghost use Rattle.lbm_board.specs.Steps.{after_split, new_view, joined, spent};
ghost use Rattle.lbm_board.specs.Closing.{IsClosedTable};

use crate::rule::{BoardSeat, BoardTable, SharedTable};
use crate::step_kinds::{FillGivingStep, FillTakingStep, RecordsJoin, TurnSplit, WholeSplit};
use crate::steps::put_in;
use atomic_table::Closed;
use std::alloc::Global;

/// Gives a slot its first piece.
pub(crate) fn fill<T>(table: &SharedTable<T>, seat: &mut BoardSeat<T>, number: u32, piece: T)
    requires table { (seat.old.table_id ≡ table.now.table_id) × (table.now.table_id.words ≡ 2)
        × (number < table.now.table_id.slots) }
    requires seat { seat.old.me ≡ (opening_view seat.old.me.0.leave seat.old.me.0.given number false, []) }
    requires piece { get_elem? seat.old.me.0.given number ≡ some piece }
    ensures table { (seat.new.table_id ≡ seat.old.table_id) × (seat.new.id ≡ seat.old.id) }
    ensures seat { seat.new.me ≡ (opening_view seat.old.me.0.leave seat.old.me.0.given (number + 1) false, []) }
{
    table.load::<FillTakingStep>(seat, 0);
    put_in(table, seat, number as usize, piece);
    table.load::<FillGivingStep>(seat, 0);
}

/// A seat for one more turn.
pub(crate) fn split<T>(table: &SharedTable<T>, seat: &mut BoardSeat<T>) -> BoardSeat<T>
    requires table { (seat.old.table_id ≡ table.now.table_id) × (table.now.table_id.words ≡ 2)
        × (seat.old.me.0.filled ≡ length table.now.key.given.value.items) }
    requires seat { (0 < in_view (of_turn 0) seat.old.me.0) × (1 < seat.old.me.0.leave)
        × (seat.old.me.0.made < table.now.key.turns) }
    ensures table { (seat.new.table_id ≡ seat.old.table_id) × (seat.new.id ≡ seat.old.id)
        × (result.table_id ≡ seat.old.table_id) }
    ensures left { seat.new.me ≡ (after_split seat.old.me.0, seat.old.me.1) }
    ensures right { result.me ≡ (new_view seat.old.me.0, []) }
{
    table.split_seat::<TurnSplit>(seat)
}

/// Takes in the records of another seat, which is left with none, whatever slots it still holds. They come before those of this one.
pub(crate) fn join<T>(table: &SharedTable<T>, seat: &mut BoardSeat<T>, other: &mut BoardSeat<T>)
    requires table { (seat.old.table_id ≡ table.now.table_id) × (other.old.table_id ≡ table.now.table_id)
        × (table.now.table_id.words ≡ 2) }
    requires filled { (seat.old.me.0.filled ≡ length table.now.key.given.value.items)
        × (other.old.me.0.filled ≡ length table.now.key.given.value.items) }
    requires seat { 0 < length seat.old.me.0.records }
    ensures table { (seat.new.table_id ≡ seat.old.table_id) × (seat.new.id ≡ seat.old.id)
        × (other.new.table_id ≡ other.old.table_id) }
    ensures both { seat.new.me ≡ (joined seat.old.me.0 other.old.me.0, seat.old.me.1) }
    ensures left { other.new.me ≡ (spent, other.old.me.1) }
{
    let whole = table.split_seat::<WholeSplit>(other);
    table.join_seat::<RecordsJoin>(seat, whole);
}

/// Closes the table, with the records of all turns in one seat.
pub(crate) fn close<T>(table: BoardTable<T>, seat: BoardSeat<T>) -> Closed<Option<T>, Global>
    requires table { seat.table_id ≡ table.shared.table_id }
    requires filled { seat.me.0.filled ≡ length table.shared.key.given.value.items }
    requires all { total each_one seat.me.0.records ≡ table.shared.key.turns }
    ensures counts { (slots_len result.words ≡ table.shared.table_id.words)
        × (slots_len result.slots ≡ table.shared.table_id.slots) }
    ensures full { IsFull result.words × IsFull result.slots }
    ensures closed { IsClosedTable table.shared.key.given.value.items seat.me.0.records
        (slice_index (slots_items result.words) 1) (slots_items result.slots) }
{
    table.close_with(seat)
}
