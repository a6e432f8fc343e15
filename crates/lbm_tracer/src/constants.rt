//! The limits of a tracer, for the code.

ghost use Rattle.std.specs.Prelude.{◌≡◌, pos};
ghost use Rattle.lbm_tracer.specs.Limits.{most_tracer_directions, greatest_amount};

/// The most directions of a tracer's set.
pub const MAX_DIRECTIONS: usize = 7;

/// The greatest amount of a fluid cell in limits, and the greatest one with which a tracer begins.
pub const GREATEST_AMOUNT: i64 = 16_777_216;

/// The constants are the limits that the definitions name. The function does nothing: its contract is the theorem.
pub fn constants_are_limits()
    ensures directions { MAX_DIRECTIONS ≡ most_tracer_directions }
    ensures amount { GREATEST_AMOUNT ≡ pos greatest_amount }
{}
