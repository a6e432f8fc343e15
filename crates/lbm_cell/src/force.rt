//! A force on the fluid.

ghost use Rattle.std.specs.Prelude.{◌≡◌, List, [], ◌∷◌, ℤ, SomeIff};
ghost use Rattle.lbm_cell.specs.Collision.{IsForce};

use crate::constants::GREATEST_FORCE;
use std::marker::Model;

/// A force, or the velocity of a wall, by its three parts.
#[derive(Clone, Copy, Debug, PartialEq, Eq)]
pub struct Force {
    parts: [i64; 3],
}

impl Model for Force {
    ghost Value = { List ℤ };

    ghost view = { λ s. s.parts };

    ghost invariant = { λ s. IsForce s.parts };

    ghost inverse = { λ u. record { parts = u } };
}

impl Force {
    /// A force, or `None` where a part is out of range.
    pub fn new(gx: i64, gy: i64, gz: i64) -> Option<Force>
        ensures { let u = gx ∷ gy ∷ gz ∷ [] in SomeIff result (IsForce u) u }
    {
        let range = -GREATEST_FORCE..=GREATEST_FORCE;
        if range.contains(&gx) && range.contains(&gy) && range.contains(&gz) {
            Some(Force {
                parts: [gx, gy, gz],
            })
        } else {
            None
        }
    }

    /// The three parts.
    pub fn parts(&self) -> [i64; 3]
        ensures value { result ≡ self.now }
        ensures valid { IsForce self.now }
    {
        self.parts
    }
}
