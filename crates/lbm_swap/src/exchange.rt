//! The exchange between the ranges of opposite directions.

ghost use Rattle.std.specs.Prelude.{◌≡◌, ◌≢◌, ◌⊎◌, ◌+◌, ◌*◌, ◌<◌, ◌≤◌, ℕ, List, [], None, length, slice_index};
ghost use Rattle.lbm_space.specs.Limits.{most_directions};
ghost use Rattle.lbm_cell.specs.Rows.{entry};
ghost use Rattle.lbm_sweep.specs.Blocks.{IsSized};
ghost use Rattle.lbm_swap.specs.Exchange.{IsPaired, IsReady, IsExchangedIn};

use lbm_arrays::{Inputs, Loan, Pass};
use lbm_space::Space;
use lbm_sweep::Directions;

/// The pass in which, at the place of each cell, the range of an array and that of its partner exchange what they hold. An
/// array that is its own partner stays as it is.
#[derive(Drop)]
pub struct Exchange {
    pub(crate) space: Space,
    pub(crate) partners: Directions,
}

impl Pass for Exchange {
    ghost ready = { λ w case read places piece rows ranges. IsReady w.space w.partners.items rows ranges };

    ghost does = { λ w case read places piece rows old answer new. (answer ≡ None) × IsExchangedIn w.space (length w.partners.items) w.partners.items rows (rows.0 * w.space.nx) (rows.1 * w.space.nx) old new };

    fn run(&self, _: &Inputs<'_>, _: u32, loan: &mut Loan<'_>) -> Option<u32> {
        let pairs = Pairs {
            space: &self.space,
            partners: self.partners.as_slice(),
        };
        exchange_rows(&pairs, loan);
        None
    }
}

// Which ranges exchange.
#[derive(Drop)]
struct Pairs<'a> {
    space: &'a Space,
    partners: &'a [usize],
}

// The cells of all rows of a slab.
fn exchange_rows(work: &Pairs<'_>, loan: &mut Loan<'_>)
    requires ready { IsReady work.now.space.now work.now.partners.now loan.old.rows loan.old.ranges }
    ensures done { IsExchangedIn work.now.space.now (length work.now.partners.now) work.now.partners.now loan.old.rows (loan.old.rows.0 * work.now.space.now.nx) (loan.old.rows.1 * work.now.space.now.nx) loan.old.ranges loan.new.ranges }
    ensures rows { loan.new.rows ≡ loan.old.rows }
    ensures place { loan.new.place ≡ loan.old.place }
{
    let (from, to) = loan.rows();
    for row in from..to {
        exchange_row(work, loan, row);
    }
}

// The cells of a row, by runs of eight cells and a shorter last one.
fn exchange_row(work: &Pairs<'_>, loan: &mut Loan<'_>, row: u32)
    requires ready { IsReady work.now.space.now work.now.partners.now loan.old.rows loan.old.ranges }
    requires row { (loan.old.rows.0 ≤ row) × (row < loan.old.rows.1) }
    ensures done { IsExchangedIn work.now.space.now (length work.now.partners.now) work.now.partners.now loan.old.rows (row * work.now.space.now.nx) ((row + 1) * work.now.space.now.nx) loan.old.ranges loan.new.ranges }
    ensures ready { IsReady work.now.space.now work.now.partners.now loan.new.rows loan.new.ranges }
    ensures rows { loan.new.rows ≡ loan.old.rows }
    ensures place { loan.new.place ≡ loan.old.place }
{
    let width = work.space.sides()[0];
    let at = work.space.row_start(row) + 1 - work.space.row_start(loan.rows().0);
    let mut done = 0;
    while done < width {
        let n = (width - done).min(8);
        exchange_run(loan, work.partners, at + done, n);
        done += n;
    }
}

// The `n` places from `at` on, of each pair of ranges.
fn exchange_run(loan: &mut Loan<'_>, partners: &[usize], at: u32, n: u32)
    requires some { 1 ≤ n }
    requires few_places { n ≤ 8 }
    requires few { length partners.now ≤ most_directions }
    requires paired { IsPaired (length partners.now) partners.now }
    requires sized { (len : ℕ) × IsSized (length partners.now) len loan.old.ranges × (at + n ≤ len) }
    ensures exchanged { (k j : ℕ) → k < length partners.now → j < n → entry loan.new.ranges k (at + j) ≡ entry loan.old.ranges (slice_index partners.now k) (at + j) }
    ensures others { (k p : ℕ) → (p < at) ⊎ (at + n ≤ p) → entry loan.new.ranges k p ≡ entry loan.old.ranges k p }
    ensures sized { (len : ℕ) → IsSized (length partners.now) len loan.old.ranges → IsSized (length partners.now) len loan.new.ranges }
    ensures rows { loan.new.rows ≡ loan.old.rows }
    ensures place { loan.new.place ≡ loan.old.place }
{
    for k in 0..partners.len() {
        let partner = partners[k];
        if k < partner {
            exchange_pair(loan, k as u32, partner as u32, at, n);
        }
    }
}

// The same of two ranges.
fn exchange_pair(loan: &mut Loan<'_>, one: u32, other: u32, at: u32, n: u32)
    requires some { 1 ≤ n }
    requires few_places { n ≤ 8 }
    requires apart { one ≢ other }
    requires sized { (q len : ℕ) × IsSized q len loan.old.ranges × (one < q) × (other < q) × (at + n ≤ len) }
    ensures one { (j : ℕ) → j < n → entry loan.new.ranges one (at + j) ≡ entry loan.old.ranges other (at + j) }
    ensures other { (j : ℕ) → j < n → entry loan.new.ranges other (at + j) ≡ entry loan.old.ranges one (at + j) }
    ensures others { (k p : ℕ) → ((k ≢ one) × (k ≢ other)) ⊎ (p < at) ⊎ (at + n ≤ p) → entry loan.new.ranges k p ≡ entry loan.old.ranges k p }
    ensures sized { (q len : ℕ) → IsSized q len loan.old.ranges → IsSized q len loan.new.ranges }
    ensures rows { loan.new.rows ≡ loan.old.rows }
    ensures place { loan.new.place ≡ loan.old.place }
{
    let first = loan.load8(one, at, n);
    let second = loan.load8(other, at, n);
    loan.store8(one, at, n, second);
    loan.store8(other, at, n, first);
}
