//! A step of kept rows.

ghost use Rattle.std.specs.Prelude.{◌≡◌, ◌⊎◌, ◌+◌, ◌<◌, ◌≤◌, ◌^◌, ℕ, All, IfOk, IfErr, None, Some, if◌then◌else◌, nat_eq, length, slice_get};
ghost use Rattle.lbm_space.specs.Torus.{rows as row_count};
ghost use Rattle.lbm_board.specs.Entries.{greatest};
ghost use Rattle.lbm_board.specs.Models.{fresh_turn};
ghost use Rattle.lbm_model.specs.Case.{IsCase};
ghost use Rattle.lbm_model.specs.Small.{IsSmall};
ghost use Rattle.lbm_sweep.specs.Steps.{IsStepTo};
ghost use Rattle.lbm_rows.specs.Kept.{AreKept, population_kept, state_kept};
ghost use Rattle.lbm_rows.specs.Serving.{CanServe, IsWorkedOff};
ghost use Rattle.lbm_rows.specs.Tiles.{IsDivision};

use crate::dealing::{Division, deal};
use crate::returning::return_pieces;
use crate::{KeptRow, Tile, TileSteps};
use lbm_board::{Board, Closed, Turn};
use lbm_lattice::Serves;
use lbm_model::Case;
use lbm_space::{Memory, VelocitySet};
use std::alloc::Global;
use std::marker::PhantomData;

// All turns of a board serve, and the board is closed.
fn work_off<V: VelocitySet, S: Serves<TileSteps<V>>>(
    servers: &S,
    board: Board<Tile>,
    turns: Vec<Turn<Tile>>,
    case: &Case,
    t: u64,
) -> Closed<Tile>
    requires served { S.serves servers.now }
    requires set { case.now.stencil ≡ V.stencil }
    requires turns { (0 < board.turns) × (length turns.items ≡ board.turns) }
    requires able { All (CanServe case.now t board) turns.items }
    requires fresh { (k : ℕ) → k < board.turns → slice_get turns.items k ≡ Some (fresh_turn board.table board.given k) }
    ensures { IsWorkedOff case.now t board.given result.pieces.items result.least }
{
    let mut turns = turns;
    let work = TileSteps::<V> {
        set: PhantomData,
        time: t,
    };
    let all = turns.as_mut_slice();
    servers.serve_all(&work, &board, all, case);
    board.close(turns)
}

// The cell that was reported, where one was.
fn reported_cell(least: u64) -> Option<u32>
    requires { (least ≡ greatest) ⊎ (least < 2 ^ 32) }
    ensures { result ≡ (if nat_eq least greatest then None else Some least) }
{
    if least == u64::MAX {
        return None;
    }
    Some(least as u32)
}

/// One step from time `t` of the state that stands in kept rows. The answer is the least cell out of limits; where there is
/// none, the next state stands there. Memory is wanted before a row has changed, and all kept rows are then as before.
pub(crate) fn advance<V: VelocitySet, S: Serves<TileSteps<V>>>(
    kept: &mut [KeptRow],
    case: &Case,
    t: u64,
    division: Division,
    alloc: Global,
    servers: &S,
) -> Result<Option<u32>, Memory>
    requires able { S.serves servers.now }
    requires set { case.now.stencil ≡ V.stencil }
    requires valid { IsCase case.now }
    requires kept { AreKept case.now kept.old }
    requires small { IsSmall case.now (state_kept case.now t kept.old) }
    requires division { IsDivision (row_count case.now.torus) division.per_tile division.workers }
    ensures step { IfOk result (λ answer. IsStepTo case.now (state_kept case.now t kept.old) (population_kept case.now (t + 1) kept.new) answer) }
    ensures rows { IfOk result (λ answer. AreKept case.now kept.new) }
    ensures memory { IfErr result (λ e. kept.new ≡ kept.old) }
{
    let (board, turns) = deal::<V>(kept, case, t, division, alloc)?;
    let mut closed = work_off::<V, S>(servers, board, turns, case, t);
    let pieces = closed.pieces.as_mut_slice();
    return_pieces::<V>(kept, pieces, case, t);
    Ok(reported_cell(closed.least))
}
