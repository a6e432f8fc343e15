//! The limits of what a cell holds, for the code.

ghost use Rattle.std.specs.Prelude.{◌≡◌, pos};
ghost use Rattle.lbm_space.specs.Limits.{most_directions};
ghost use Rattle.lbm_cell.specs.Limits.{least_density, greatest_density, greatest_first_momentum, greatest_rate, greatest_force, greatest_population};

/// The most directions that a set may have.
pub const MAX_Q: usize = 27;

/// The unit of density, 216 * 4096. A fluid at rest has this density where a case names no other.
pub const UNIT: i64 = 884736;

/// The least density of a fluid cell in limits, half the unit.
pub const LEAST_DENSITY: i64 = 442368;

/// The greatest density of a fluid cell in limits, twice the unit.
pub const GREATEST_DENSITY: i64 = 1769472;

/// The greatest of the numbers of which rates are made.
pub const GREATEST_RATE: i64 = 1024;

/// The greatest size of a part of a force, and of the velocity of a wall.
pub const GREATEST_FORCE: i64 = 1024;

/// The greatest size of a population of a first state.
pub const GREATEST_POPULATION: u32 = 268_435_456;

/// The constants are the limits that the definitions name. The function does nothing: its contract is the theorem.
pub fn constants_are_limits()
    ensures directions { MAX_Q ≡ most_directions }
    ensures momentum { UNIT ≡ pos greatest_first_momentum }
    ensures least_density { LEAST_DENSITY ≡ pos least_density }
    ensures greatest_density { GREATEST_DENSITY ≡ pos greatest_density }
    ensures rate { GREATEST_RATE ≡ pos greatest_rate }
    ensures force { GREATEST_FORCE ≡ pos greatest_force }
    ensures population { GREATEST_POPULATION ≡ greatest_population }
{}
