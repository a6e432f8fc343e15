//! Crews for patterns with two passes.

ghost use Rattle.std.specs.Prelude.{◌≡◌, ℕ, ℤ, List, Option};
ghost use Rattle.lbm_arrays.specs.declared.either.Either.TheVariants.{First, Second};

use crate::{Forks, Inputs, Lending, Loan, Pass};
use lbm_space::Cutting;
use std::marker::PhantomData;

/// One of two passes.
#[derive(Drop)]
pub enum Either<P, Q> {
    First(P),
    Second(Q),
}

impl<P: Pass, Q: Pass> Pass for Either<P, Q> {
    ghost ready = { λ w case read places piece rows ranges. elim w [ First p ↦ P.ready p case read places piece rows ranges | Second q ↦ Q.ready q case read places piece rows ranges ] };

    ghost does = { λ w case read places piece rows old answer new. elim w [ First p ↦ P.does p case read places piece rows old answer new | Second q ↦ Q.does q case read places piece rows old answer new ] };

    fn run(&self, inputs: &Inputs<'_>, piece: u32, loan: &mut Loan<'_>) -> Option<u32> {
        match self {
            Either::First(pass) => pass.run(inputs, piece, loan),
            Either::Second(pass) => pass.run(inputs, piece, loan),
        }
    }
}

/// A crew for the first of two passes.
#[derive(Drop)]
pub struct ForFirst<'a, C, Q> {
    pub crew: &'a C,
    pub other: PhantomData<Q>,
}

impl<P: Pass, Q: Pass, C: Forks<Either<P, Q>>> Forks<P> for ForFirst<'_, C, Q> {
    ghost forks = { λ h. C.forks h.crew.now };

    fn fork(
        &self,
        pass: P,
        gated: bool,
        inputs: &Inputs<'_>,
        slots: &mut [i64],
        lending: &Lending,
        cut: &Cutting,
    ) -> Option<u32> {
        let pass = Either::First(pass);
        self.crew.fork(pass, gated, inputs, slots, lending, cut)
    }
}

/// A crew for the second of two passes.
#[derive(Drop)]
pub struct ForSecond<'a, C, P> {
    pub crew: &'a C,
    pub other: PhantomData<P>,
}

impl<P: Pass, Q: Pass, C: Forks<Either<P, Q>>> Forks<Q> for ForSecond<'_, C, P> {
    ghost forks = { λ h. C.forks h.crew.now };

    fn fork(
        &self,
        pass: Q,
        gated: bool,
        inputs: &Inputs<'_>,
        slots: &mut [i64],
        lending: &Lending,
        cut: &Cutting,
    ) -> Option<u32> {
        let pass = Either::Second(pass);
        self.crew.fork(pass, gated, inputs, slots, lending, cut)
    }
}
