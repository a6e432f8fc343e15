//! Laws of every flow, and cases that were worked by hand.
//!
//! The functions do nothing: their contracts are the theorems.

ghost use Rattle.lbm_model.specs.Laws.{MassOfStep, MassOfRun, NoGainAtRest};
ghost use Rattle.lbm_model.specs.Laws.{DensityOfCollision, DensityOfReflection};
ghost use Rattle.lbm_model.specs.Drift.{DriftOfStep, DriftOfRun};
ghost use Rattle.lbm_model.specs.Small.{FirstIsNarrow, NarrowIsSmall, NextIsSmall, ReachedIsNarrow};
ghost use Rattle.lbm_model.specs.Worked.{PushedCell, LeavingCell, TwoLevels, NoStep, DenseCells};
ghost use Rattle.lbm_model.specs.Worked.{BoxedCell, TwoRates, PressingWall, SlidingWall, KeptPopulations};

/// A step, and so a run, changes the mass by the gain of the moving walls and by nothing else.
pub fn mass_law()
    ensures step { MassOfStep }
    ensures run { MassOfRun }
    ensures at_rest { NoGainAtRest }
{}

/// Neither a collision nor bounce-back changes the density of a cell.
pub fn density_law()
    ensures collision { DensityOfCollision }
    ensures reflection { DensityOfReflection }
{}

/// Where no cell is solid, a step adds to the sum of all momenta `DEN / 3` times the force for each cell, and, as
/// collisions round, on each axis at most one less for each cell than the number of directions that lead forward along
/// it. A run adds that once for each step.
pub fn drift_law()
    ensures step { DriftOfStep }
    ensures run { DriftOfRun }
{}

/// No population becomes large: none of the first state is above 2^28 in size, nor any of a state that a run from
/// such a state reaches, and on the way a moving wall adds less than 2^15 to what goes to a fluid cell.
pub fn size_law()
    ensures first { FirstIsNarrow }
    ensures narrow { NarrowIsSmall }
    ensures next { NextIsSmall }
    ensures reached { ReachedIsNarrow }
{}

/// What the definitions give for small cases that were worked by hand, and where the patterns keep a population.
pub fn worked_cases()
    ensures pushed { PushedCell }
    ensures leaving { LeavingCell }
    ensures levels { TwoLevels }
    ensures unmoved { NoStep }
    ensures dense { DenseCells }
    ensures boxed { BoxedCell }
    ensures rates { TwoRates }
    ensures pressing { PressingWall }
    ensures sliding { SlidingWall }
    ensures layouts { KeptPopulations }
{}
