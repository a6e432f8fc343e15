//! How many rows a tile has.

ghost use Rattle.std.specs.Prelude.{◌≤◌};
ghost use Rattle.lbm_space.specs.Torus.{rows as row_count};
ghost use Rattle.lbm_rows.specs.Division.{IsTileHeight};

use lbm_space::Space;

// A board takes so many pieces at most.
const MOST_TILES: u32 = 4096;

/// The number of rows of a tile where `asked` rows are asked for: as many, or the least number for which there are at most
/// 4,096 tiles.
pub fn tile_rows(space: &Space, asked: u32) -> u32
    requires { 1 ≤ asked }
    ensures { IsTileHeight (row_count space.now) asked result }
{
    asked.max(space.rows().div_ceil(MOST_TILES))
}
