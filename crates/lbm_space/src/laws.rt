//! Boxes that were worked by hand.
//!
//! The function does nothing: its contract is the theorem.

ghost use Rattle.lbm_space.specs.Worked.{Neighbours, PlacesOfPlane, PlacesOfCube};

/// What the definitions give for boxes that were worked by hand: cells behind a cell, padded places and their offsets, the
/// cells that pads stand for, and where rows start.
pub fn worked_boxes()
    ensures neighbours { Neighbours }
    ensures plane { PlacesOfPlane }
    ensures cube { PlacesOfCube }
{}
