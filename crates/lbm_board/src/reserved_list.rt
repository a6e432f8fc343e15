//! Room for the pieces of a closed board.
//! The list lies in the one slot of a table that no thread steps at, so that a board asks no `Sync` of its pieces.
ghost use Rattle.std.specs.Prelude.{◌≡◌, ◌≤◌, [], vec_capacity, IfOk};

use atomic_table::{Table, TableRule};
use lbm_space::Memory;
use std::alloc::Global;

pub(crate) struct EmptyListRule;

impl<T> TableRule<Vec<Option<T>>, (), usize> for EmptyListRule {
    ghost use Rattle.lbm_board.specs.ReservedList.{HoldsEmptyList};

    ghost holds = { λ room s. HoldsEmptyList room s.homes };

    ghost first = { λ _. tt };
}

/// An empty list with room for a number of pieces.
#[derive(Drop)]
pub(crate) struct ReservedList<T> {
    pub(crate) table: Table<Vec<Option<T>>, (), usize, EmptyListRule, Global>,
    ghost one: { table.shared.table_id.slots ≡ 1 },
}

impl<T: Drop> ReservedList<T> {
    pub(crate) fn new(alloc: Global, room: usize) -> Result<ReservedList<T>, Memory>
        ensures { IfOk result (λ s. s.table.shared.key ≡ room) }
    {
        let list: Vec<Option<T>> = Vec::with_capacity(alloc, room)?;
        let mut slots = Vec::with_capacity(alloc, 1)?;
        slots.push_reserved(list);
        match Table::new(alloc, &[0], slots, &room) {
            Ok((table, _)) => Ok(ReservedList { table }),
            Err(_) => Err(Memory),
        }
    }

    pub(crate) fn take(self) -> Vec<Option<T>>
        ensures { (result.items ≡ []) × (self.table.shared.key ≤ vec_capacity result) }
    {
        let ReservedList { table } = self;
        let mut closed = table.close();
        let list = closed.take(0);
        closed.free();
        list
    }
}
