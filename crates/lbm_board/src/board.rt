//! The calls of a board.
ghost use Rattle.std.specs.Prelude.{◌≡◌, ◌≢◌, ℕ, ◌<◌, ◌≤◌, IfSome, IfNone, IfOk, IfErr, vec_len, map, length, All, slice_get, Some};
ghost use Rattle.lbm_board.specs.declared.record.Entry.TheVariants.{Finish, Look};
ghost use Rattle.lbm_board.specs.Entries.{told, latest, with_entry, Holds};
ghost use Rattle.lbm_board.specs.Models.{IsTurnOf, Draws, EndsTurn, fresh_turn, log_of};
ghost use Rattle.lbm_board.specs.BoardRecord.{AreApart, IsClosed};

use crate::claims::Claims;
use crate::closing::take_pieces;
use crate::comparing::compare;
use crate::holding::give_back_held;
use crate::joining::join_all;
use crate::new_turns::make_turns;
use crate::reserve::{Reserve, take_memory};
use crate::reserved_list::ReservedList;
use crate::rule::BoardTable;
use crate::seats;
use crate::start::make_table;
use crate::steps::{draw, read_least};
use crate::turn::Turn;
use lbm_space::Memory;
use std::alloc::Global;
use std::marker::Model;

/// Pieces of work that several callers share, each by a `Turn` of its own. Contracts see it as a `BoardModel`.
#[derive(Drop)]
pub struct Board<T> {
    table: BoardTable<T>,
    pieces: u32,
    // What the close hands out.
    list: ReservedList<T>,
    claims: Claims,
}

impl<T> Model for Board<T> {
    ghost use Rattle.lbm_board.specs.Models.{BoardModel, board_model};
    ghost use Rattle.lbm_board.specs.Fields.{IsBoard};

    ghost Value = { BoardModel T };

    ghost view = { λ b. board_model b.table.shared.table_id b.table.shared.key };

    ghost invariant = { λ b. IsBoard b.table.shared.table_id b.table.shared.key b.pieces b.list.table.shared.key b.claims.drawn.items b.claims.unfinished.items };
}

impl<T> Board<T> {
    /// Draws the next number, and hands out its piece. `None` comes exactly where the count of claims that this call found had reached the
    /// number of pieces, or this turn has had `None`.
    pub fn claim(&self, turn: &mut Turn<T>) -> Option<(u32, T)>
        requires { IsTurnOf self.now turn.old }
        ensures board { IsTurnOf self.now turn.new }
        ensures drawn { IfSome result (λ d. Draws self.now turn.old d.0 d.1 turn.new) }
        ensures none { IfNone result (EndsTurn turn.old turn.new) }

        // The turn holds this piece from now on, and those that it held.
        ensures holds { IfSome result (λ d. Holds d.0 turn.new.log) }
        ensures keeps { (k : ℕ) → Holds k turn.old.log → Holds k turn.new.log }
    {
        if turn.ended {
            return None;
        }
        let Some((number, piece)) = draw(&self.table.shared, &mut turn.seat, self.pieces) else {
            turn.ended = true;
            return None;
        };
        turn.drawn.push_reserved(number);
        turn.held.push_reserved(number);
        Some((number, piece))
    }

    /// Gives back the piece of a number that this turn holds, and reports `least`. The answer is the least report after this step.
    pub fn finish(&self, turn: &mut Turn<T>, number: u32, piece: T, least: u64) -> u64
        requires board { IsTurnOf self.now turn.old }
        requires held { Holds number turn.old.log }
        ensures board { IsTurnOf self.now turn.new }
        ensures answer { (result ≤ least) × (result ≤ told turn.old.log.entries) }
        ensures becomes_told { told turn.new.log.entries ≡ result }
        ensures record { turn.new.log ≡ with_entry turn.old.log
            (Finish number piece least result (latest (length self.now.given) turn.old.log.entries)) }

        // The turn holds this piece no more, and the others still.
        ensures over { ¬ Holds number turn.new.log }
        ensures keeps { (k : ℕ) → k ≢ number → Holds k turn.old.log → Holds k turn.new.log }
    {
        let table = &self.table.shared;
        give_back_held(table, &mut turn.seat, &mut turn.held, number, piece, least)
    }

    /// The least report so far: at most all that this turn has reported or has been answered.
    pub fn look(&self, turn: &mut Turn<T>) -> u64
        requires { IsTurnOf self.now turn.old }
        ensures board { IsTurnOf self.now turn.new }
        ensures answer { result ≤ told turn.old.log.entries }
        ensures becomes_told { told turn.new.log.entries ≡ result }
        ensures record { turn.new.log ≡ with_entry turn.old.log
            (Look result (latest (length self.now.given) turn.old.log.entries)) }
        ensures keeps { (k : ℕ) → Holds k turn.old.log → Holds k turn.new.log }
    {
        read_least(&self.table.shared, &mut turn.seat)
    }

    /// Shows that no piece is held by both of two turns, and that no number was drawn by both, whatever other turns do meanwhile.
    /// It changes neither turn. Records only grow, so no piece was ever held by both.
    pub fn show_apart(&self, one: &mut Turn<T>, two: &mut Turn<T>)
        requires { IsTurnOf self.now one.old × IsTurnOf self.now two.old }
        ensures same { (one.new ≡ one.old) × (two.new ≡ two.old) }
        ensures apart { AreApart one.old.log two.old.log }
    {
        compare(&self.table.shared, &mut one.seat, &mut two.seat);
    }
}

/// What is left of a board.
#[derive(Drop)]
pub struct Closed<T> {
    /// Piece k as it was finished, as it was given where it was not drawn, and `None` where it was drawn and not finished.
    pub pieces: Vec<Option<T>>,
    /// The number of the turn that drew k, where one did.
    pub drawn: Vec<Option<u32>>,
    /// The least of all reports, or the greatest `u64` where there is none.
    pub least: u64,
}

impl<T: Drop> Board<T> {
    /// A board with these pieces, and its turns, which are numbered from 0. Without memory the pieces come back as they were.
    pub fn start(
        alloc: Global,
        pieces: Vec<T>,
        turns: u32,
    ) -> Result<(Board<T>, Vec<Turn<T>>), (Vec<T>, Memory)>
        requires pieces { vec_len pieces ≤ 4096 }
        requires turns { (0 < turns) × (turns ≤ 64) }
        ensures board { IfOk result (λ s. (s.0.given ≡ pieces.items) × (s.0.turns ≡ turns)) }
        ensures turns { IfOk result (λ s. (vec_len s.1 ≡ turns) × All (IsTurnOf s.0) s.1.items) }
        ensures fresh { IfOk result (λ s. (k : ℕ) → k < turns →
            slice_get s.1.items k ≡ Some (fresh_turn s.0.table s.0.given k)) }
        ensures memory { IfErr result (λ e. e.0.items ≡ pieces.items) }
    {
        let count = pieces.len();
        let reserve = match take_memory(alloc, count, turns) {
            Ok(reserve) => reserve,
            Err(memory) => return Err((pieces, memory)),
        };
        let (table, seat) = make_table(alloc, pieces, turns)?;
        let Reserve {
            rooms,
            turns: none_yet,
            list,
            claims,
        } = reserve;
        let turns = make_turns(&table.shared, seat, rooms, none_yet);
        let board = Board {
            table,
            pieces: count as u32,
            list,
            claims,
        };
        Ok((board, turns))
    }

    /// Ends the board and hands out its pieces. It takes no memory.
    pub fn close(self, mut turns: Vec<Turn<T>>) -> Closed<T>
        requires turns { All (IsTurnOf self) turns.items }
        requires all { vec_len turns ≡ self.turns }
        ensures { IsClosed self.given (map log_of turns.items) result.pieces.items result.drawn.items result.least }
    {
        let Board {
            table,
            pieces: _,
            list,
            mut claims,
        } = self;
        let Some(last) = turns.pop() else {
            unreachable!()
        };
        claims.add(&last);
        let Turn {
            mut seat,
            number: _,
            drawn: _,
            held: _,
            ended: _,
        } = last;
        join_all(&table.shared, &mut seat, &mut claims, turns);
        let closed = seats::close(table, seat);
        let (pieces, least) = take_pieces(closed, list.take(), claims.unfinished.as_slice());
        let Claims {
            drawn,
            unfinished: _,
        } = claims;
        Closed {
            pieces,
            drawn,
            least,
        }
    }
}
