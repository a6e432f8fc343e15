//! Kept rows go back to their places after a step.

ghost use Rattle.std.specs.Prelude.{◌≡◌, ◌*◌, ◌<◌, ℕ, [], IfSome, Some, length, slice_get, slice_index_or};
ghost use Rattle.lbm_space.specs.Torus.{rows as row_count};
ghost use Rattle.lbm_model.specs.Case.{IsCase};
ghost use Rattle.lbm_rows.specs.Kept.{AreKept};
ghost use Rattle.lbm_rows.specs.Lending.{TileModel, entry_number, IsTile};
ghost use Rattle.lbm_rows.specs.Tiles.{AreTiles, ArePieces, IsBack};

use crate::{KeptRow, Tile};
use lbm_model::Case;
use lbm_space::VelocitySet;

/// Puts the kept rows of all tiles of a step from time `t` back in their places.
pub(crate) fn return_tiles<V: VelocitySet>(
    kept: &mut [KeptRow],
    tiles: &mut [Tile],
    case: &Case,
    t: u64,
)
    requires set { case.now.stencil ≡ V.stencil }
    requires valid { IsCase case.now }
    requires count { length kept.old ≡ V.stencil.directions * row_count case.now.torus }
    requires tiles { AreTiles case.now tiles.old }
    ensures back { (k : ℕ) (tile : TileModel) → slice_get tiles.old k ≡ Some tile → IsBack case.now t tile kept.new }
    ensures rows { AreKept case.now kept.new }
{
    for k in 0..tiles.len() {
        let tile = &mut tiles[k];
        tile.put_back::<V>(kept, case, t);
    }
}

// The same of a piece, if there is one.
fn return_piece<V: VelocitySet>(kept: &mut [KeptRow], piece: &mut Option<Tile>, case: &Case, t: u64)
    requires set { case.now.stencil ≡ V.stencil }
    requires valid { IsCase case.now }
    requires count { length kept.old ≡ V.stencil.directions * row_count case.now.torus }
    requires whole { IfSome piece.old (IsTile case.now) }
    ensures back { IfSome piece.old (λ tile. (j : ℕ) → j < length tile.kept → slice_index_or kept.new (entry_number case.now t (tile.first, tile.end) j) [] ≡ slice_index_or tile.kept j []) }
    ensures others { IfSome piece.old (λ tile. (m : ℕ) → ((j : ℕ) → j < length tile.kept → m ≡ entry_number case.now t (tile.first, tile.end) j → ⊥) → slice_index_or kept.new m [] ≡ slice_index_or kept.old m []) }
    ensures count { length kept.new ≡ length kept.old }
{
    if let Some(tile) = piece {
        tile.put_back::<V>(kept, case, t);
    }
}

/// The same of the pieces of a closed board.
pub(crate) fn return_pieces<V: VelocitySet>(
    kept: &mut [KeptRow],
    pieces: &mut [Option<Tile>],
    case: &Case,
    t: u64,
)
    requires set { case.now.stencil ≡ V.stencil }
    requires valid { IsCase case.now }
    requires count { length kept.old ≡ V.stencil.directions * row_count case.now.torus }
    requires pieces { ArePieces case.now pieces.old }
    ensures back { (k : ℕ) (tile : TileModel) → slice_get pieces.old k ≡ Some (Some tile) → IsBack case.now t tile kept.new }
    ensures rows { AreKept case.now kept.new }
{
    for k in 0..pieces.len() {
        let piece = &mut pieces[k];
        return_piece::<V>(kept, piece, case, t);
    }
}
