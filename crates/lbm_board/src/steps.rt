//! The steps of one seat at the table.
ghost use Rattle.std.specs.Prelude.{◌≡◌, ℕ, ◌<◌, ◌≤◌, List, [], ◌∷◌, ◌++◌, Option, MatchOption};
ghost use mathlib.Core.Option.{some};
ghost use lib.ListN.{get_elem?};
ghost use Rattle.lbm_board.specs.Lists.{Each};
ghost use Rattle.lbm_board.specs.Entries.{only, told, DrawsBelow, Holds};
ghost use Rattle.lbm_board.specs.Steps.{after_none, view_after_draw, view_after_finish, view_after_look};
ghost use Rattle.lbm_board.specs.Fields.{IsTurnSeat};

use crate::rule::{BoardSeat, SharedTable};
use crate::step_kinds::{ClaimStep, FinishStep, LookStep};

// Takes out the piece of the slot that was taken last.
fn take_out<T>(table: &SharedTable<T>, seat: &mut BoardSeat<T>, number: usize) -> T
    requires { (seat.old.table_id ≡ table.now.table_id)
        × ((x : T) × (rest : List (ℕ × Option T)) × (seat.old.me.1 ≡ (number, Some x) ∷ rest)) }
    ensures place { (seat.new.table_id ≡ seat.old.table_id) × (seat.new.id ≡ seat.old.id) }
    ensures piece { (x : T) (rest : List (ℕ × Option T)) → seat.old.me.1 ≡ (number, Some x) ∷ rest
        → (result ≡ x) × (seat.new.me ≡ (seat.old.me.0, (number, None) ∷ rest)) }
{
    match table.exchange(seat, number, None) {
        Some(piece) => piece,
        None => unreachable!(),
    }
}

// Puts a piece into the slot that was taken last, which is empty.
pub(crate) fn put_in<T>(table: &SharedTable<T>, seat: &mut BoardSeat<T>, number: usize, piece: T)
    requires { (seat.old.table_id ≡ table.now.table_id)
        × ((rest : List (ℕ × Option T)) × (seat.old.me.1 ≡ (number, None) ∷ rest)) }
    ensures place { (seat.new.table_id ≡ seat.old.table_id) × (seat.new.id ≡ seat.old.id) }
    ensures piece { (rest : List (ℕ × Option T)) → seat.old.me.1 ≡ (number, None) ∷ rest
        → seat.new.me ≡ (seat.old.me.0, (number, Some piece) ∷ rest) }
{
    match table.exchange(seat, number, Some(piece)) {
        None => {}
        Some(_) => unreachable!(),
    }
}

/// Draws the next number and takes its piece, or learns that none is left.
pub(crate) fn draw<T>(
    table: &SharedTable<T>,
    seat: &mut BoardSeat<T>,
    pieces: u32,
) -> Option<(u32, T)>
    requires seat { IsTurnSeat table.now.table_id pieces seat.old.table_id seat.old.me.0 }
    requires leave { 0 < seat.old.me.0.leave }
    ensures place { (seat.new.table_id ≡ seat.old.table_id) × (seat.new.id ≡ seat.old.id) }
    ensures piece { MatchOption result
        (seat.new.me ≡ (after_none seat.old.me.0 (only seat.old.me.0.records), seat.old.me.1))
        (λ d. (d.0 < pieces) × (get_elem? seat.old.me.0.given d.0 ≡ some d.1)
        × Each (DrawsBelow d.0) (only seat.old.me.0.records).entries
        × (seat.new.me ≡ (view_after_draw seat.old.me.0 d.0, seat.old.me.1 ++ (d.0, None) ∷ []))) }
{
    let found = table.fetch_add::<ClaimStep>(seat, 0, 1);
    if found >= pieces as u64 {
        return None;
    }
    let number = found as u32;
    let piece = take_out(table, seat, number as usize);
    seat.turn();
    Some((number, piece))
}

/// Gives back the slot that was taken last, with its piece, and reports.
pub(crate) fn give_back<T>(
    table: &SharedTable<T>,
    seat: &mut BoardSeat<T>,
    number: u32,
    piece: T,
    least: u64,
) -> u64
    requires seat { (pieces : ℕ) × IsTurnSeat table.now.table_id pieces seat.old.table_id seat.old.me.0 }
    requires held { Holds number (only seat.old.me.0.records) }
    requires slot { (rest : List (ℕ × Option T)) × (seat.old.me.1 ≡ (number, None) ∷ rest) }
    ensures place { (seat.new.table_id ≡ seat.old.table_id) × (seat.new.id ≡ seat.old.id) }
    ensures answer { (result ≤ least) × (result ≤ told (only seat.old.me.0.records).entries) }
    ensures given { (rest : List (ℕ × Option T)) → seat.old.me.1 ≡ (number, None) ∷ rest
        → seat.new.me ≡ (view_after_finish table.now.table_id.slots seat.old.me.0 number piece least result, rest) }
{
    put_in(table, seat, number as usize, piece);
    let found = table.fetch_min::<FinishStep>(seat, 1, least);
    found.min(least)
}

/// Reads the least report so far.
pub(crate) fn read_least<T>(table: &SharedTable<T>, seat: &mut BoardSeat<T>) -> u64
    requires seat { (pieces : ℕ) × IsTurnSeat table.now.table_id pieces seat.old.table_id seat.old.me.0 }
    ensures place { (seat.new.table_id ≡ seat.old.table_id) × (seat.new.id ≡ seat.old.id) }
    ensures answer { result ≤ told (only seat.old.me.0.records).entries }
    ensures seen { seat.new.me ≡ (view_after_look table.now.table_id.slots seat.old.me.0 result, seat.old.me.1) }
{
    table.load::<LookStep>(seat, 1)
}
