//! What a pattern does not do.

use crate::Serving;
use lbm_arrays::{Inputs, Loan, Pass};
use lbm_board::{Board, Turn};
use lbm_model::{Case, Gate};

/// For patterns that lend no slabs: it does nothing.
#[derive(Drop)]
pub struct NoPass;

impl Pass for NoPass {
    ghost ready = { λ w case read places piece rows ranges. Unit {0} };

    ghost does = { λ w case read places piece rows old answer new. Unit {0} };

    fn run(&self, _: &Inputs<'_>, _: u32, _: &mut Loan<'_>) -> Option<u32> {
        None
    }
}

/// For patterns that have no board: it does nothing.
#[derive(Drop)]
pub struct NoServing;

impl Serving for NoServing {
    type Piece = u32;

    ghost ready = { λ work case board turn. Unit {0} };

    ghost does = { λ work case board old new. Unit {0} };

    fn serve<G: Gate>(&self, _: &Board<u32>, _: &mut Turn<u32>, _: &Case, _: &G) {}
}
