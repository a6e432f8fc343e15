//! Laws of moved flows, and motions that were worked by hand.
//!
//! The functions do nothing: their contracts are the theorems.

ghost use Rattle.lbm_symmetry.specs.Sets.{SetsAreSymmetric, SetsAreFourthOrderIsotropic};
ghost use Rattle.lbm_symmetry.specs.Laws.{TranslationsAreMotions, MirrorsAreMotions};
ghost use Rattle.lbm_symmetry.specs.Laws.{ExchangesAreMotions, TurnsAreMotions};
ghost use Rattle.lbm_symmetry.specs.Laws.{MovedCaseIsAccepted, FirstIsMoved, NextIsMoved};
ghost use Rattle.lbm_symmetry.specs.Laws.{LimitsAreMoved, RunIsMoved, RangeIsMoved};
ghost use Rattle.lbm_symmetry.specs.Laws.{FirstIsSymmetric, SymmetryStays};
ghost use Rattle.lbm_symmetry.specs.Laws.{DensityIsMoved, MomentumIsMoved};
ghost use Rattle.lbm_symmetry.specs.Laws.{MassIsMoved, TotalMomentumIsMoved};
ghost use Rattle.lbm_symmetry.specs.Worked.{MovedCells, MovedDirections, MovedCase, SkewedSet};

/// Shifts, mirrors, exchanges of axes and quarter turns are motions of a box.
pub fn motion_law()
    ensures translations { TranslationsAreMotions }
    ensures mirrors { MirrorsAreMotions }
    ensures exchanges { ExchangesAreMotions }
    ensures turns { TurnsAreMotions }
{}

/// Every motion takes each of the four velocity sets to itself, weights included, and their fourth moments are isotropic
/// (Krüger et al., *The Lattice Boltzmann Method*, the chapter on velocity sets): without the second the stress of the
/// flow would depend on how the lattice lies in it.
pub fn set_law()
    ensures symmetric { SetsAreSymmetric }
    ensures fourth_order { SetsAreFourthOrderIsotropic }
{}

/// A moved case is accepted where the case is, and its run is the run of the case, moved, to the last bit: its first
/// state, each step, the state that is reached, and the time at which a cell leaves the limits. The cell that is named
/// then may be another, since the cells of a moved box are numbered anew. So a symmetric case stays symmetric.
pub fn flow_law()
    ensures accepted { MovedCaseIsAccepted }
    ensures first { FirstIsMoved }
    ensures next { NextIsMoved }
    ensures limits { LimitsAreMoved }
    ensures run { RunIsMoved }
    ensures range { RangeIsMoved }
    ensures symmetric_first { FirstIsSymmetric }
    ensures symmetric { SymmetryStays }
{}

/// Density and momentum go with their cells, the mass of a moved state is the same, and the momentum of all its cells is
/// moved.
pub fn moment_law()
    ensures density { DensityIsMoved }
    ensures momentum { MomentumIsMoved }
    ensures mass { MassIsMoved }
    ensures total_momentum { TotalMomentumIsMoved }
{}

/// What the definitions give for small boxes that were worked by hand, and a velocity set that meets the eight laws and is
/// not symmetric.
pub fn worked_motions()
    ensures cells { MovedCells }
    ensures directions { MovedDirections }
    ensures case { MovedCase }
    ensures skewed { SkewedSet }
{}
