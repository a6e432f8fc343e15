//! The pieces of a closed table.
ghost use Rattle.std.specs.Prelude.{◌≡◌, ◌≤◌, [], length, slice_index, vec_capacity, None, if◌then◌else◌};
ghost use Rattle.std.specs.Mem.Slots.{slots_items, slots_len, IsFull};
ghost use Rattle.lbm_board.specs.Closing.{without};

use atomic_table::Closed;
use std::alloc::Global;

// Nothing for a number that was not finished, and else its piece.
fn finished_piece<T: Drop>(unfinished: bool, piece: Option<T>) -> Option<T>
    ensures { result ≡ (if unfinished then None else piece) }
{
    if unfinished { None } else { piece }
}

/// The slots' contents in their order, with nothing for a number that was not finished, and the least report.
pub(crate) fn take_pieces<T: Drop>(
    mut closed: Closed<Option<T>, Global>,
    mut pieces: Vec<Option<T>>,
    unfinished: &[bool],
) -> (Vec<Option<T>>, u64)
    requires full { IsFull closed.words × IsFull closed.slots × (slots_len closed.words ≡ 2) }
    requires room { (pieces.items ≡ []) × (slots_len closed.slots ≤ vec_capacity pieces) }
    requires flags { length unfinished.now ≡ slots_len closed.slots }
    ensures pieces { result.0.items ≡ without unfinished.now (slots_items closed.slots) }
    ensures least { result.1 ≡ slice_index (slots_items closed.words) 1 }
{
    let least = closed.word(1);
    let mut number = 0;
    while number < closed.slot_count() {
        let piece = closed.take(number);
        pieces.push_reserved(finished_piece(unfinished[number], piece));
        number += 1;
    }
    closed.free();
    (pieces, least)
}
