//! The turns of a board come back.
ghost use Rattle.std.specs.Prelude.{◌≡◌, ◌<◌, ◌++◌, map, length, All};
ghost use Rattle.lbm_board.specs.Models.{log_of};
ghost use Rattle.lbm_board.specs.Closing.{AreClaims};

use crate::claims::Claims;
use crate::rule::{BoardSeat, SharedTable};
use crate::seats::join;
use crate::turn::Turn;

/// Joins the records of these turns, in their order, before those that the seat has, and adds their claims.
pub(crate) fn join_all<T>(
    table: &SharedTable<T>,
    seat: &mut BoardSeat<T>,
    claims: &mut Claims,
    mut turns: Vec<Turn<T>>,
)
    requires table { (seat.old.table_id ≡ table.now.table_id) × (table.now.table_id.words ≡ 2)
        × (table.now.table_id.slots ≡ length table.now.key.given.value.items) }
    requires seat { (seat.old.me.0.filled ≡ table.now.table_id.slots)
        × (0 < length seat.old.me.0.records) }
    requires turns { All (λ t. t.table ≡ table.now.table_id) turns.items }
    requires claims { AreClaims table.now.table_id.slots seat.old.me.0.records claims.old.drawn.items claims.old.unfinished.items }
    ensures table { (seat.new.table_id ≡ seat.old.table_id)
        × (seat.new.me.0.filled ≡ seat.old.me.0.filled) }
    ensures records { seat.new.me.0.records ≡ map log_of turns.items ++ seat.old.me.0.records }
    ensures claims { AreClaims table.now.table_id.slots seat.new.me.0.records claims.new.drawn.items claims.new.unfinished.items }
{
    while let Some(turn) = turns.pop() {
        claims.add(&turn);
        let Turn {
            seat: mut other,
            number: _,
            drawn: _,
            held: _,
            ended: _,
        } = turn;
        join(table, seat, &mut other);
    }
}
