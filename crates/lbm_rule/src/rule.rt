//! The rule of the cells of a case.

ghost use Rattle.std.specs.Prelude.{◌≡◌, ◌≤◌, unsigned_abs};
ghost use Rattle.lbm_space.specs.Torus.{cells};
ghost use Rattle.lbm_model.specs.Flow.{is_sound, post};
ghost use Rattle.lbm_model.specs.Small.{size_limit};

use crate::gains::add_gains;
use crate::masks::fluid_mask;
use lbm_lanes::{Rule, bounce_rows, check_rows, collide_rows_within};
use lbm_model::Case;
use lbm_space::VelocitySet;
use lbm_walk::{Kernel, Rows};
use std::marker::Model;

/// What the cells of a case do: a fluid cell collides, and a wall turns its populations back and adds its gain (Krüger
/// et al., the chapters on the method and on boundary conditions; the gain is this project's own). It is made once for a
/// case.
#[derive(Drop)]
pub struct CellRule<'a, V: VelocitySet> {
    case: &'a Case,
    rule: Rule<V>,
}

impl<'a, V: VelocitySet> Model for CellRule<'a, V> {
    ghost use Rattle.lbm_model.specs.Case.{FlowCase};
    ghost use Rattle.lbm_rule.specs.Rules.{IsRuleOf};

    ghost Value = { FlowCase };

    ghost view = { λ r. r.case.now };

    ghost invariant = { λ r. IsRuleOf V.stencil r.rule.rates r.rule.force r.case.now };
}

impl<'a, V: VelocitySet> CellRule<'a, V> {
    /// The rule of a case of this set.
    pub fn of(case: &'a Case) -> CellRule<'a, V>
        requires { case.now.stencil ≡ V.stencil }
        ensures { result ≡ case.now }
    {
        let rule = Rule::<V>::new(case.rates(), case.force());
        CellRule { case, rule }
    }
}

impl<V: VelocitySet> Kernel<V> for CellRule<'_, V> {
    ghost cells = { λ case. cells case.torus };

    ghost sound = { λ case x f. is_sound case x f };

    ghost post = { λ case x f i. post case x f i };

    ghost small = { λ case x z. unsigned_abs z ≤ size_limit case x };

    #[inline(always)]
    fn collide<R: Rows<V>>(&self, cell: u32, rows: &mut R) -> Option<u32> {
        let n = rows.count();
        let solid = self.case.solid_mask(cell, n);
        let fluid = fluid_mask(solid, n);
        if fluid == 0 {
            bounce_rows::<V, R>(rows);
            add_gains::<V, R>(self.case, cell, solid, rows);
            return None;
        }
        match collide_rows_within::<V, R>(rows, &self.rule, fluid, solid) {
            Some(lane) => Some(lane),
            None => {
                add_gains::<V, R>(self.case, cell, solid, rows);
                None
            }
        }
    }

    #[inline(always)]
    fn check<R: Rows<V>>(&self, cell: u32, rows: &R) -> Option<u32> {
        let n = rows.count();
        let solid = self.case.solid_mask(cell, n);
        check_rows::<V, R>(rows, fluid_mask(solid, n))
    }
}
