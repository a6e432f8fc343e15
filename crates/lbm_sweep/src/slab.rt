//! The collision of the cells of a slab.

ghost use Rattle.std.specs.Prelude.{◌≡◌, ◌*◌, ◌≤◌, unsigned_abs};
ghost use Rattle.lbm_space.specs.Torus.{cells};
ghost use Rattle.lbm_model.specs.Flow.{is_sound, post};
ghost use Rattle.lbm_model.specs.Small.{size_limit};
ghost use Rattle.lbm_sweep.specs.Slabs.{AreSmall, InColumns, IsMatched, IsSlab};

use crate::{Directions, SlabCall, Source};
use lbm_arrays::{Inputs, Loan, Pass};
use lbm_rule::CellRule;
use lbm_space::{Space, VelocitySet};
use std::marker::PhantomData;

/// The pass in which the cells of a slab collide by the rule of the case: each takes its populations from the source, and
/// what it sends in direction i goes to its own place in the range of array `writes[i]`. A slab answers its first cell out
/// of limits.
#[derive(Drop)]
pub struct Collision<V, S> {
    pub set: PhantomData<V>,
    pub source: S,
    pub space: Space,
    pub writes: Directions,
}

impl<V: VelocitySet, S: Source<V>> Pass for Collision<V, S> {
    ghost ready = { λ w case read places piece rows ranges. (case.stencil ≡ V.stencil) × IsMatched w.space V.stencil.directions (cells case.torus) (S.torus w.source) w.writes.items × S.spares w.source w.writes.items × IsSlab w.space V.stencil.directions rows ranges × S.ready w.source read places rows ranges × AreSmall w.space V.stencil.directions (λ x z. unsigned_abs z ≤ size_limit case x) (S.before w.source read places) rows ranges };

    ghost does = { λ w case read places piece rows old answer new. InColumns (λ x f. is_sound case x f) (λ x f i. post case x f i) V.stencil.directions (S.before w.source read places) w.writes.items w.space rows (rows.0 * w.space.nx) (rows.1 * w.space.nx) old new answer };

    fn run(&self, inputs: &Inputs<'_>, _piece: u32, loan: &mut Loan<'_>) -> Option<u32> {
        let rule = CellRule::<V>::of(inputs.case);
        let call = SlabCall {
            read: inputs.read,
            places: inputs.places,
            space: &self.space,
            writes: self.writes.as_slice(),
        };
        self.source.collide(&rule, &call, loan)
    }
}
