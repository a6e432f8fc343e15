// Masks of the lanes of rows.

ghost use Rattle.std.specs.Prelude.{◌≡◌, ◌<◌, ◌≤◌, ℕ, nat_lt, ◌&&◌, not};
ghost use Rattle.lbm_lanes.specs.Lanes.{has};

/// The first `n` lanes but those of `solid`.
#[inline(always)]
pub(crate) fn fluid_mask(solid: u8, n: u32) -> u8
    requires some { 1 ≤ n }
    requires few { n ≤ 8 }
    ensures { (j : ℕ) → j < 8 → has result j ≡ (nat_lt j n && not (has solid j)) }
{
    let cells = 255u8 >> (8 - n);
    cells & !solid
}
