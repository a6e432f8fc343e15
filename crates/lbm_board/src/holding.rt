//! The slots that a turn's seat holds.
ghost use Rattle.std.specs.Prelude.{◌≡◌, ℕ, ◌≤◌, ◌<◌, Some, map, slice_get, length, remove, vec_capacity};
ghost use Rattle.lbm_board.specs.Entries.{only, told, Holds};
ghost use Rattle.lbm_board.specs.Steps.{view_after_finish};
ghost use Rattle.lbm_board.specs.Fields.{times, rotated, empty_slot, IsTurnSeat};

use crate::rule::{BoardSeat, SharedTable};
use crate::steps::give_back;

// Where the number stands first.
fn place_of(numbers: &[u32], number: u32) -> usize
    requires { 0 < times number numbers.now }
    ensures { slice_get numbers.now result ≡ Some number }
{
    let mut place = 0;
    while numbers[place] != number {
        place += 1;
    }
    place
}

// Brings the slot at this place to the front, and those before it behind the others. It moves nothing in memory.
fn rotate_slots<T>(seat: &mut BoardSeat<T>, place: usize)
    requires { place ≤ length seat.old.me.1 }
    ensures seat { (seat.new.table_id ≡ seat.old.table_id) × (seat.new.id ≡ seat.old.id) }
    ensures slots { seat.new.me ≡ (seat.old.me.0, rotated place seat.old.me.1) }
{
    for _ in 0..place {
        seat.turn();
    }
}

/// Gives back the slot of one of the numbers that the seat holds, with its piece, and reports.
pub(crate) fn give_back_held<T>(
    table: &SharedTable<T>,
    seat: &mut BoardSeat<T>,
    held: &mut Vec<u32>,
    number: u32,
    piece: T,
    least: u64,
) -> u64
    requires seat { (pieces : ℕ) × IsTurnSeat table.now.table_id pieces seat.old.table_id seat.old.me.0 }
    requires slots { seat.old.me.1 ≡ map empty_slot held.old.items }
    requires held { Holds number (only seat.old.me.0.records) × (0 < times number held.old.items) }
    ensures place { (seat.new.table_id ≡ seat.old.table_id) × (seat.new.id ≡ seat.old.id) }
    ensures answer { (result ≤ least) × (result ≤ told (only seat.old.me.0.records).entries) }
    ensures held { (vec_capacity held.new ≡ vec_capacity held.old)
        × ((place : ℕ) × (slice_get held.old.items place ≡ Some number) × (held.new.items ≡ remove held.old.items place)) }
    ensures given { seat.new.me ≡ (view_after_finish table.now.table_id.slots seat.old.me.0 number piece least result, map empty_slot held.new.items) }
{
    let place = place_of(held.as_slice(), number);
    rotate_slots(seat, place);
    let answer = give_back(table, seat, number, piece, least);
    let _ = held.remove(place);
    rotate_slots(seat, held.len() - place);
    answer
}
