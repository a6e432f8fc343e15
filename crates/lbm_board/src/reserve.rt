//! The memory that a board needs beside its table.
ghost use Rattle.std.specs.Prelude.{◌≡◌, ◌≤◌, [], length, vec_capacity, IfOk, All};
ghost use Rattle.lbm_board.specs.Closing.{AreClaims};

use crate::claims::Claims;
use crate::reserved_list::ReservedList;
use crate::turn::Turn;
use crate::turn_room::{TurnRoom, make_rooms};
use lbm_space::Memory;
use std::alloc::Global;

/// Room for the turns and their numbers, and for what the close hands out.
#[derive(Drop)]
pub(crate) struct Reserve<T> {
    pub(crate) rooms: Vec<TurnRoom>,
    pub(crate) turns: Vec<Turn<T>>,
    pub(crate) list: ReservedList<T>,
    pub(crate) claims: Claims,
}

/// Takes all memory of a board but its table's.
pub(crate) fn take_memory<T: Drop>(
    alloc: Global,
    pieces: usize,
    turns: u32,
) -> Result<Reserve<T>, Memory>
    ensures rooms { IfOk result (λ r. (length r.rooms.items ≡ turns)
        × All (λ t. t.room ≡ pieces) r.rooms.items) }
    ensures turns { IfOk result (λ r. (r.turns.items ≡ []) × (turns ≤ vec_capacity r.turns)) }
    ensures list { IfOk result (λ r. r.list.table.shared.key ≡ pieces) }
    ensures claims { IfOk result (λ r. AreClaims {T = T} pieces [] r.claims.drawn.items r.claims.unfinished.items) }
{
    let rooms = make_rooms(alloc, pieces, turns)?;
    let list = ReservedList::new(alloc, pieces)?;
    let claims = Claims::new(alloc, pieces)?;
    let turns = Vec::with_capacity(alloc, turns as usize)?;
    Ok(Reserve {
        rooms,
        turns,
        list,
        claims,
    })
}
