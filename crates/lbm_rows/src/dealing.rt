//! The tiles of a step.

ghost use Rattle.std.specs.Prelude.{◌≡◌, ◌*◌, ◌+◌, ◌<◌, ◌≤◌, ◌^◌, ℕ, [], min, All, IfOk, IfErr, Some, length, vec_len, vec_capacity, slice_get};
ghost use Rattle.lbm_space.specs.Torus.{rows as row_count};
ghost use Rattle.lbm_board.specs.Models.{fresh_turn};
ghost use Rattle.lbm_model.specs.Case.{IsCase};
ghost use Rattle.lbm_model.specs.Small.{IsSmall};
ghost use Rattle.lbm_rows.specs.Kept.{AreKept, state_kept};
ghost use Rattle.lbm_rows.specs.Serving.{CanServe};
ghost use Rattle.lbm_rows.specs.Tiles.{tile_bounds, AreLent, IsCut, IsDivision};

use crate::lending::lend_tile;
use crate::returning::return_tiles;
use crate::{KeptRow, Tile};
use lbm_board::{Board, Turn};
use lbm_model::Case;
use lbm_space::{Memory, VelocitySet};
use std::alloc::Global;

/// How the work of a step is divided: how many rows a tile has, the last one but as many as are left, and how many turns
/// take tiles.
#[derive(Clone, Copy, Debug, PartialEq, Eq)]
pub struct Division {
    pub per_tile: u32,
    pub workers: u32,
}

// Room for the kept rows of a tile.
#[derive(Drop)]
struct TileRoom {
    kept: Vec<KeptRow>,
    room: usize,
    ghost empty: { vec_len kept ≡ 0 },
    ghost fits: { room ≤ vec_capacity kept },
}

// Room for so many kept rows in each of so many tiles.
fn make_rooms(alloc: Global, room: usize, tiles: u32) -> Result<Vec<TileRoom>, Memory>
    ensures { IfOk result (λ v. (length v.items ≡ tiles) × All (λ r. r.room ≡ room) v.items) }
{
    let mut rooms = Vec::with_capacity(alloc, tiles as usize)?;
    for _ in 0..tiles {
        let kept = Vec::with_capacity(alloc, room)?;
        rooms.push_reserved(TileRoom { kept, room });
    }
    Ok(rooms)
}

// The first row of tile k, and the row past its end.
fn bounds_of(rows: u32, per_tile: u32, k: u32) -> (u32, u32)
    requires { k * per_tile < rows }
    ensures value { result ≡ tile_bounds rows per_tile k }
    ensures some { 1 ≤ per_tile → result.0 < result.1 }
    ensures inside { result.1 ≤ rows }
    ensures few { result.1 ≤ result.0 + per_tile }
{
    let first = k * per_tile;
    (first, first + per_tile.min(rows - first))
}

// The kept rows move into the tiles to which the step lends them, which go into the list.
fn lend_all<V: VelocitySet>(
    kept: &mut [KeptRow],
    rooms: Vec<TileRoom>,
    list: Vec<Tile>,
    case: &Case,
    t: u64,
    per_tile: u32,
    alloc: Global,
) -> Vec<Tile>
    requires set { case.now.stencil ≡ V.stencil }
    requires valid { IsCase case.now }
    requires count { length kept.old ≡ V.stencil.directions * row_count case.now.torus }
    requires some { 1 ≤ per_tile }
    requires cut { IsCut (row_count case.now.torus) per_tile (length rooms.items) }
    requires rooms { All (λ r. V.stencil.directions * min per_tile (row_count case.now.torus) ≤ r.room) rooms.items }
    requires list { (list.items ≡ []) × (length rooms.items ≤ vec_capacity list) }
    ensures lent { AreLent case.now t per_tile kept.old result.items }
    ensures count { length kept.new ≡ length kept.old }
{
    let (mut rooms, mut list) = (rooms, list);
    let rows = case.space().rows();
    let mut k = 0;
    while let Some(room) = rooms.pop() {
        let TileRoom {
            kept: room,
            room: _,
        } = room;
        let bounds = bounds_of(rows, per_tile, k);
        list.push_reserved(lend_tile::<V>(kept, room, bounds, case, t, alloc));
        k += 1;
    }
    list
}

// All tiles of a step from time `t`. Without memory all kept rows stay where they are.
fn tiles_of<V: VelocitySet>(
    kept: &mut [KeptRow],
    case: &Case,
    t: u64,
    per_tile: u32,
    alloc: Global,
) -> Result<Vec<Tile>, Memory>
    requires set { case.now.stencil ≡ V.stencil }
    requires valid { IsCase case.now }
    requires kept { AreKept case.now kept.old }
    requires some { 1 ≤ per_tile }
    ensures lent { IfOk result (λ tiles. AreLent case.now t per_tile kept.old tiles.items) }
    ensures count { IfOk result (λ tiles. length kept.new ≡ length kept.old) }
    ensures memory { IfErr result (λ e. kept.new ≡ kept.old) }
{
    let rows = case.space().rows();
    let tiles = rows.div_ceil(per_tile);
    let list = Vec::with_capacity(alloc, tiles as usize)?;
    let rooms = make_rooms(alloc, V::Q * per_tile.min(rows) as usize, tiles)?;
    Ok(lend_all::<V>(kept, rooms, list, case, t, per_tile, alloc))
}

/// A board with all tiles of a step from time `t` of the state that stands in kept rows, and its turns, each of which may
/// serve. Want of memory is the only refusal; all kept rows are then as before.
pub fn deal<V: VelocitySet>(
    kept: &mut [KeptRow],
    case: &Case,
    t: u64,
    division: Division,
    alloc: Global,
) -> Result<(Board<Tile>, Vec<Turn<Tile>>), Memory>
    requires set { case.now.stencil ≡ V.stencil }
    requires kept { AreKept case.now kept.old }
    requires valid { IsCase case.now }
    requires small { IsSmall case.now (state_kept case.now t kept.old) }
    requires division { IsDivision (row_count case.now.torus) division.per_tile division.workers }
    ensures lent { IfOk result (λ s. AreLent case.now t division.per_tile kept.old s.0.given) }
    ensures turns { IfOk result (λ s. (s.0.turns ≡ division.workers) × (length s.1.items ≡ division.workers)) }
    ensures able { IfOk result (λ s. All (CanServe case.now t s.0) s.1.items) }
    ensures fresh { IfOk result (λ s. (k : ℕ) → k < division.workers → slice_get s.1.items k ≡ Some (fresh_turn s.0.table s.0.given k)) }
    ensures count { IfOk result (λ s. length kept.new ≡ length kept.old) }
    ensures memory { IfErr result (λ e. kept.new ≡ kept.old) }
{
    let tiles = tiles_of::<V>(kept, case, t, division.per_tile, alloc)?;
    match Board::start(alloc, tiles, division.workers) {
        Ok(begun) => Ok(begun),
        Err((mut tiles, memory)) => {
            let all = tiles.as_mut_slice();
            return_tiles::<V>(kept, all, case, t);
            Err(memory)
        }
    }
}
