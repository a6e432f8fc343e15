//! Room for the numbers of the turns.
ghost use Rattle.std.specs.Prelude.{◌≡◌, ◌≤◌, [], length, vec_capacity, IfOk, All};

use lbm_space::Memory;
use std::alloc::Global;

/// Room for the numbers of one turn.
#[derive(Drop)]
pub(crate) struct TurnRoom {
    pub(crate) drawn: Vec<u32>,
    pub(crate) held: Vec<u32>,
    pub(crate) room: usize,
    ghost empty: { (drawn.items ≡ []) × (held.items ≡ []) },
    ghost fits: { (room ≤ vec_capacity drawn) × (room ≤ vec_capacity held) },
}

/// Room for so many numbers in each of so many turns.
pub(crate) fn make_rooms(alloc: Global, room: usize, turns: u32) -> Result<Vec<TurnRoom>, Memory>
    ensures { IfOk result (λ v. (length v.items ≡ turns) × All (λ r. r.room ≡ room) v.items) }
{
    let mut rooms = Vec::with_capacity(alloc, turns as usize)?;
    for _ in 0..turns {
        let drawn = Vec::with_capacity(alloc, room)?;
        let held = Vec::with_capacity(alloc, room)?;
        rooms.push_reserved(TurnRoom { drawn, held, room });
    }
    Ok(rooms)
}
