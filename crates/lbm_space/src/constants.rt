//! The limits of a box, for the code.

ghost use Rattle.std.specs.Prelude.{◌≡◌};
ghost use Rattle.lbm_space.specs.Limits.{greatest_side, most_places};

/// The most cells that a box may have on an axis.
pub const GREATEST_SIDE: u32 = 4096;

/// The most places that a box may have, those of its layer of padding among them.
pub const MOST_PLACES: u32 = 4_194_304;

/// The constants are the limits that the definitions name. The function does nothing: its contract is the theorem.
pub fn constants_are_limits()
    ensures side { GREATEST_SIDE ≡ greatest_side }
    ensures places { MOST_PLACES ≡ most_places }
{}
