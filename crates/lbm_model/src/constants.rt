//! The limit of a run, for the code.

ghost use Rattle.std.specs.Prelude.{◌≡◌};
ghost use Rattle.lbm_model.specs.Limits.{most_steps};

/// The most steps that a run may have.
pub const MOST_STEPS: u32 = 1_000_000;

/// The constant is the limit that the definitions name. The function does nothing: its contract is the theorem.
pub fn constants_are_limits()
    ensures { MOST_STEPS ≡ most_steps }
{}
