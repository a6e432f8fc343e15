//! The work of one worker.

ghost use Rattle.std.specs.Prelude.{◌≡◌};
ghost use Rattle.lbm_rows.specs.Lending.{IsReady};
ghost use Rattle.lbm_rows.specs.Serving.{CanServe, HasWorkedOff, IsFinished};

use crate::Tile;
use lbm_board::{Board, Turn};
use lbm_lattice::Serving;
use lbm_model::{Case, Gate};
use lbm_space::VelocitySet;
use std::marker::PhantomData;

/// What a turn does with the tiles of a step from a time.
#[derive(Drop)]
pub struct TileSteps<V> {
    pub set: PhantomData<V>,
    pub time: u64,
}

impl<V: VelocitySet> Serving for TileSteps<V> {
    type Piece = Tile;

    ghost ready = { λ work case board turn. (case.stencil ≡ V.stencil) × CanServe case work.time board turn };

    ghost does = { λ work case board old new. HasWorkedOff case work.time board old new };

    fn serve<G: Gate>(&self, board: &Board<Tile>, turn: &mut Turn<Tile>, case: &Case, gate: &G) {
        'tiles: while let Some((number, mut tile)) = board.claim(turn) {
            gate.enter(number);
            let told = board.look(turn);
            let report = serve_tile::<V>(&mut tile, case, self.time, told);
            board.finish(turn, number, tile, report);
        }
    }
}

/// The work of one worker in a step from time `t`: it claims tiles, collides their cells and finishes them until it is told
/// that none is left, past the gate before each tile. A tile is passed over where all its cells are above the least cell out
/// of limits of which the worker has been told.
pub fn serve<V: VelocitySet, G: Gate>(
    board: &Board<Tile>,
    turn: &mut Turn<Tile>,
    case: &Case,
    t: u64,
    gate: &G,
)
    requires set { case.now.stencil ≡ V.stencil }
    requires able { CanServe case.now t board.now turn.old }
    ensures { HasWorkedOff case.now t board.now turn.old turn.new }
{
    let steps = TileSteps::<V> {
        set: PhantomData,
        time: t,
    };
    steps.serve(board, turn, case, gate);
}

// Steps a tile, or passes it over. The answer is what is to be reported.
fn serve_tile<V: VelocitySet>(tile: &mut Tile, case: &Case, t: u64, told: u64) -> u64
    requires set { case.now.stencil ≡ V.stencil }
    requires ready { IsReady case.now t tile.old }
    ensures { IsFinished case.now t tile.old tile.new result told }
{
    let (first, _) = tile.rows();
    let width = case.space().sides()[0];
    if told < u64::from(first * width) {
        return u64::MAX;
    }
    match tile.collide::<V>(case, t) {
        Some(cell) => u64::from(cell),
        None => u64::MAX,
    }
}
