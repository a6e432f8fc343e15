//! Two turns of one board are compared.
ghost use Rattle.std.specs.Prelude.{◌≡◌, length};
ghost use Rattle.lbm_board.specs.Entries.{only};
ghost use Rattle.lbm_board.specs.BoardRecord.{AreApart};
ghost use Rattle.lbm_board.specs.Steps.{IsLive, IsSameTurn};

use crate::rule::{BoardSeat, SharedTable};
use crate::seats::join;
use crate::step_kinds::{CompareStep, FirstSplit, WholeJoin};

/// Shows that two turns are apart: one seat takes in the record of the other, reads the table, and gives the record back.
pub(crate) fn compare<T>(table: &SharedTable<T>, one: &mut BoardSeat<T>, two: &mut BoardSeat<T>)
    requires table { (table.now.table_id.words ≡ 2)
        × (table.now.table_id.slots ≡ length table.now.key.given.value.items) }
    requires places { (one.old.table_id ≡ table.now.table_id) × (two.old.table_id ≡ table.now.table_id) }
    requires live { IsLive table.now.table_id.slots one.old.me.0 × IsLive table.now.table_id.slots two.old.me.0 }
    requires given { two.old.me.0.given ≡ one.old.me.0.given }
    ensures places { (one.new.table_id ≡ one.old.table_id) × (two.new.table_id ≡ two.old.table_id) }
    ensures same { IsSameTurn one.old.me.0 one.new.me.0 × IsSameTurn two.old.me.0 two.new.me.0 }
    ensures slots { (one.new.me.1 ≡ one.old.me.1) × (two.new.me.1 ≡ two.old.me.1) }
    ensures apart { AreApart (only one.old.me.0.records) (only two.old.me.0.records) }
{
    join(table, one, two);
    table.load::<CompareStep>(one, 0);
    let back = table.split_seat::<FirstSplit>(one);
    table.join_seat::<WholeJoin>(two, back);
}
