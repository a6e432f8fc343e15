// The sums that a report tells.
ghost use Rattle.std.specs.Prelude.{◌≡◌, ◌≤◌, ◌∷◌, [], pos, ◌+ℤ◌, fold, length, All};
ghost use Rattle.lbm_space.specs.Limits.{most_places};
ghost use Rattle.lbm_model.specs.State.{mass};
ghost use Rattle.lbm_answer.specs.Reports.{IsSmallMoment, moment_part, total};

use lbm_cell::Moment;
use lbm_model::State;

/// The mass of a state: the sum of all populations of all cells, walls included, in lattice units.
pub fn mass(state: &State) -> i64
    ensures { result ≡ mass state.now }
{
    sum_of(state.pops())
}

fn sum_of(pops: &[i32]) -> i64
    requires { length pops.now ≤ 113246208 }
    ensures { result ≡ fold (λ a b. a +ℤ b) (pos 0) pops.now }
{
    let mut sum = 0;
    for population in pops {
        sum += i64::from(*population);
    }
    sum
}

/// The sums of the three parts of the momenta.
pub(crate) fn total_momentum(moments: &[Moment]) -> [i64; 3]
    requires few { length moments.now ≤ most_places }
    requires small { All IsSmallMoment moments.now }
    ensures { result ≡ total (λ m. m.jx) moments.now ∷ total (λ m. m.jy) moments.now ∷ total (λ m. m.jz) moments.now ∷ [] }
{
    [
        total_part(moments, 0),
        total_part(moments, 1),
        total_part(moments, 2),
    ]
}

fn total_part(moments: &[Moment], axis: usize) -> i64
    requires few { length moments.now ≤ most_places }
    requires small { All IsSmallMoment moments.now }
    ensures { result ≡ total (λ m. moment_part m axis) moments.now }
{
    let mut sum = 0;
    for moment in moments {
        sum += part(moment, axis);
    }
    sum
}

fn part(moment: &Moment, axis: usize) -> i64
    ensures { result ≡ moment_part moment.now axis }
{
    match axis {
        0 => moment.jx,
        1 => moment.jy,
        _ => moment.jz,
    }
}
