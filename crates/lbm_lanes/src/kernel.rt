//! The rule of a cell over rows by direction.

ghost use Rattle.std.specs.Prelude.{◌≡◌, ◌≢◌, ◌<◌, ◌≤◌, ◌+◌, ◌*◌, ℕ, ℤ, pos, ◌*ℤ◌, ◌-ℤ◌, Bool, true, false, ◌&&◌, not, Option, Some, None, FitsSigned, slice_index, nat_lt, unsigned_abs};
ghost use Rattle.std.specs.Int.{w32};
ghost use Rattle.lbm_space.specs.Limits.{most_directions};
ghost use Rattle.lbm_cell.specs.Moments.{in_limits};
ghost use Rattle.lbm_cell.specs.Collision.{collision};
ghost use Rattle.lbm_lanes.specs.Cells.{is_on, after, settled};
ghost use Rattle.lbm_lanes.specs.Lanes.{entry, has, held, becomes, least_out, found_or, least_passing};
ghost use Rattle.lbm_lanes.specs.Sums.{IsSummed};
ghost use Rattle.lbm_lanes.specs.Progress.{IsRun, AreCells, IsProgress, IsBegun};

use crate::fluid::{Flags, Fluid, flagged, kept};
use crate::moments::Sums;
use crate::pairs::{Run, settled_pair};
use crate::rule::Rule;
use crate::signed::{minus, plus, signed};
use crate::vectors::all;
use lbm_space::VelocitySet;
use lbm_walk::Rows;

// Takes, makes and puts the pair whose lesser direction is `i`. The answer is the total with what was put.
#[inline(always)]
fn pair<V: VelocitySet, R: Rows<V>, const MIXED: bool, const ONE: bool>(
    rows: &mut R,
    fluid: &Fluid,
    run: &Run,
    total: [i64; 8],
    i: usize,
) -> [i64; 8]
    requires few { i < most_directions }
    requires run { IsRun V.stencil ONE run.now.rates run.now.force run.now.divisor.d run.now.divisor.shift run.now.divisor.reciprocal }
    requires progress { (h : ℕ → ℕ → ℤ) × AreCells V.stencil MIXED fluid.now.flags.colliding fluid.now.cells.rho fluid.now.cells.reciprocal fluid.now.cells.base fluid.now.x fluid.now.y fluid.now.z h × IsProgress V.stencil (R.count rows.old) i (after V.stencil run.now.rates run.now.force MIXED fluid.now.flags.colliding fluid.now.flags.turning h) h (R.there rows.old) (R.sent rows.old) total }
    ensures progress { (h : ℕ → ℕ → ℤ) → AreCells V.stencil MIXED fluid.now.flags.colliding fluid.now.cells.rho fluid.now.cells.reciprocal fluid.now.cells.base fluid.now.x fluid.now.y fluid.now.z h → IsProgress V.stencil (R.count rows.old) i (after V.stencil run.now.rates run.now.force MIXED fluid.now.flags.colliding fluid.now.flags.turning h) h (R.there rows.old) (R.sent rows.old) total → IsProgress V.stencil (R.count rows.new) (i + 1) (after V.stencil run.now.rates run.now.force MIXED fluid.now.flags.colliding fluid.now.flags.turning h) h (R.there rows.new) (R.sent rows.new) result }
    ensures count { R.count rows.new ≡ R.count rows.old }
    ensures kept { R.kept rows.old rows.new }
{
    if i == 0 || i >= V::Q {
        return total;
    }
    let o = V::opp(i);
    if o < i {
        return total;
    }
    let _count = rows.count(); // At most eight.
    let f = rows.take(i);
    let g = rows.take(o);
    let (x, y) = settled_pair::<V, MIXED, ONE>(f, g, fluid, run, i);
    rows.put(i, x);
    rows.put(o, y);
    let both = plus(x, y);
    plus(total, both)
}

// The pairs whose lesser directions are nine.
#[inline(always)]
fn nine_pairs<V: VelocitySet, R: Rows<V>, const MIXED: bool, const ONE: bool, const I0: usize>(
    rows: &mut R,
    fluid: &Fluid,
    run: &Run,
    total: [i64; 8],
) -> [i64; 8]
    requires few { I0 + 9 ≤ most_directions }
    requires run { IsRun V.stencil ONE run.now.rates run.now.force run.now.divisor.d run.now.divisor.shift run.now.divisor.reciprocal }
    requires progress { (h : ℕ → ℕ → ℤ) × AreCells V.stencil MIXED fluid.now.flags.colliding fluid.now.cells.rho fluid.now.cells.reciprocal fluid.now.cells.base fluid.now.x fluid.now.y fluid.now.z h × IsProgress V.stencil (R.count rows.old) I0 (after V.stencil run.now.rates run.now.force MIXED fluid.now.flags.colliding fluid.now.flags.turning h) h (R.there rows.old) (R.sent rows.old) total }
    ensures progress { (h : ℕ → ℕ → ℤ) → AreCells V.stencil MIXED fluid.now.flags.colliding fluid.now.cells.rho fluid.now.cells.reciprocal fluid.now.cells.base fluid.now.x fluid.now.y fluid.now.z h → IsProgress V.stencil (R.count rows.old) I0 (after V.stencil run.now.rates run.now.force MIXED fluid.now.flags.colliding fluid.now.flags.turning h) h (R.there rows.old) (R.sent rows.old) total → IsProgress V.stencil (R.count rows.new) (I0 + 9) (after V.stencil run.now.rates run.now.force MIXED fluid.now.flags.colliding fluid.now.flags.turning h) h (R.there rows.new) (R.sent rows.new) result }
    ensures count { R.count rows.new ≡ R.count rows.old }
    ensures kept { R.kept rows.old rows.new }
{
    let first = pair::<V, R, MIXED, ONE>(rows, fluid, run, total, I0);
    let second = pair::<V, R, MIXED, ONE>(rows, fluid, run, first, I0 + 1);
    let third = pair::<V, R, MIXED, ONE>(rows, fluid, run, second, I0 + 2);
    let fourth = pair::<V, R, MIXED, ONE>(rows, fluid, run, third, I0 + 3);
    let fifth = pair::<V, R, MIXED, ONE>(rows, fluid, run, fourth, I0 + 4);
    let sixth = pair::<V, R, MIXED, ONE>(rows, fluid, run, fifth, I0 + 5);
    let seventh = pair::<V, R, MIXED, ONE>(rows, fluid, run, sixth, I0 + 6);
    let eighth = pair::<V, R, MIXED, ONE>(rows, fluid, run, seventh, I0 + 7);
    pair::<V, R, MIXED, ONE>(rows, fluid, run, eighth, I0 + 8)
}

// What the rest direction keeps of the density, where lanes collide.
#[inline(always)]
fn rest<V: VelocitySet, R: Rows<V>, const MIXED: bool, const ONE: bool>(
    rows: &mut R,
    fluid: &Fluid,
    run: &Run,
    total: [i64; 8],
)
    requires run { IsRun V.stencil ONE run.now.rates run.now.force run.now.divisor.d run.now.divisor.shift run.now.divisor.reciprocal }
    requires progress { (h : ℕ → ℕ → ℤ) × AreCells V.stencil MIXED fluid.now.flags.colliding fluid.now.cells.rho fluid.now.cells.reciprocal fluid.now.cells.base fluid.now.x fluid.now.y fluid.now.z h × IsProgress V.stencil (R.count rows.old) most_directions (after V.stencil run.now.rates run.now.force MIXED fluid.now.flags.colliding fluid.now.flags.turning h) h (R.there rows.old) (R.sent rows.old) total }
    ensures sent { (h : ℕ → ℕ → ℤ) → AreCells V.stencil MIXED fluid.now.flags.colliding fluid.now.cells.rho fluid.now.cells.reciprocal fluid.now.cells.base fluid.now.x fluid.now.y fluid.now.z h → IsProgress V.stencil (R.count rows.old) most_directions (after V.stencil run.now.rates run.now.force MIXED fluid.now.flags.colliding fluid.now.flags.turning h) h (R.there rows.old) (R.sent rows.old) total → (k j : ℕ) → k < V.stencil.directions → j < R.count rows.old → R.sent rows.new k j ≡ after V.stencil run.now.rates run.now.force MIXED fluid.now.flags.colliding fluid.now.flags.turning h j k }
    ensures count { R.count rows.new ≡ R.count rows.old }
    ensures kept { R.kept rows.old rows.new }
{
    let _count = rows.count(); // At most eight.
    let f = rows.take(0);
    let rho = signed(fluid.cells.rho);
    let left = minus(rho, total);
    let own = kept::<MIXED>(fluid.flags.colliding, left, f);
    rows.put(0, own);
}

/// What cells become: where lanes collide they relax and are pushed, where they turn back they do, and the others stay.
#[inline(always)]
fn settle_rows<V: VelocitySet, R: Rows<V>, const MIXED: bool, const ONE: bool>(
    rows: &mut R,
    fluid: &Fluid,
    run: &Run,
)
    requires run { IsRun V.stencil ONE run.now.rates run.now.force run.now.divisor.d run.now.divisor.shift run.now.divisor.reciprocal }
    requires begun { (h : ℕ → ℕ → ℤ) × AreCells V.stencil MIXED fluid.now.flags.colliding fluid.now.cells.rho fluid.now.cells.reciprocal fluid.now.cells.base fluid.now.x fluid.now.y fluid.now.z h × IsBegun V.stencil (R.count rows.old) h (R.there rows.old) }
    ensures sent { (h : ℕ → ℕ → ℤ) → AreCells V.stencil MIXED fluid.now.flags.colliding fluid.now.cells.rho fluid.now.cells.reciprocal fluid.now.cells.base fluid.now.x fluid.now.y fluid.now.z h → IsBegun V.stencil (R.count rows.old) h (R.there rows.old) → (k j : ℕ) → k < V.stencil.directions → j < R.count rows.old → R.sent rows.new k j ≡ after V.stencil run.now.rates run.now.force MIXED fluid.now.flags.colliding fluid.now.flags.turning h j k }
    ensures count { R.count rows.new ≡ R.count rows.old }
    ensures kept { R.kept rows.old rows.new }
{
    let first = nine_pairs::<V, R, MIXED, ONE, 0>(rows, fluid, run, [0; 8]);
    let second = nine_pairs::<V, R, MIXED, ONE, 9>(rows, fluid, run, first);
    let third = nine_pairs::<V, R, MIXED, ONE, 18>(rows, fluid, run, second);
    rest::<V, R, MIXED, ONE>(rows, fluid, run, third);
}

// Cells of these sums collide where they are flagged, turn back where they are flagged so, and else stay.
#[inline(always)]
fn collide_sums<V: VelocitySet, R: Rows<V>, const MIXED: bool, const ONE: bool>(
    rows: &mut R,
    sums: &Sums,
    flags: Flags,
    run: &Run,
)
    requires fits { (k j : ℕ) → k < V.stencil.directions → j < 8 → FitsSigned w32 (held (R.count rows.old) (R.there rows.old) j k) }
    requires run { IsRun V.stencil ONE run.now.rates run.now.force run.now.divisor.d run.now.divisor.shift run.now.divisor.reciprocal }
    requires sums { (l : ℕ) → l < 8 → IsSummed V.stencil most_directions (held (R.count rows.old) (R.there rows.old) l) (entry sums.now.rho l) (entry sums.now.x l) (entry sums.now.y l) (entry sums.now.z l) (entry sums.now.signs l) }
    requires within { (l : ℕ) → l < 8 → is_on MIXED (slice_index flags.colliding l) ≡ true → in_limits V.stencil (held (R.count rows.old) (R.there rows.old) l) ≡ true }
    ensures sent { (k j : ℕ) → k < V.stencil.directions → j < R.count rows.old → R.sent rows.new k j ≡ after V.stencil run.now.rates run.now.force MIXED flags.colliding flags.turning (held (R.count rows.old) (R.there rows.old)) j k }
    ensures count { R.count rows.new ≡ R.count rows.old }
    ensures kept { R.kept rows.old rows.new }
{
    let fluid = Fluid::of::<MIXED>(sums, flags);
    settle_rows::<V, R, MIXED, ONE>(rows, &fluid, run);
}

// Eight cells in limits collide.
#[inline(always)]
fn collide_whole<V: VelocitySet, R: Rows<V>, const ONE: bool>(rows: &mut R, sums: &Sums, run: &Run)
    requires fits { (k j : ℕ) → k < V.stencil.directions → j < 8 → FitsSigned w32 (held (R.count rows.old) (R.there rows.old) j k) }
    requires run { IsRun V.stencil ONE run.now.rates run.now.force run.now.divisor.d run.now.divisor.shift run.now.divisor.reciprocal }
    requires sums { (l : ℕ) → l < 8 → IsSummed V.stencil most_directions (held (R.count rows.old) (R.there rows.old) l) (entry sums.now.rho l) (entry sums.now.x l) (entry sums.now.y l) (entry sums.now.z l) (entry sums.now.signs l) }
    requires within { (l : ℕ) → l < 8 → in_limits V.stencil (held (R.count rows.old) (R.there rows.old) l) ≡ true }
    ensures sent { (k j : ℕ) → k < V.stencil.directions → j < R.count rows.old → R.sent rows.new k j ≡ collision V.stencil run.now.rates run.now.force (held (R.count rows.old) (R.there rows.old) j) k }
    ensures count { R.count rows.new ≡ R.count rows.old }
    ensures kept { R.kept rows.old rows.new }
{
    let none = Flags {
        colliding: all(0),
        turning: all(0),
    };
    collide_sums::<V, R, false, ONE>(rows, sums, none, run);
}

// The lanes of `chosen`, whose cells are in limits, collide, those of `solid` turn back, and the others stay.
fn collide_mixed<V: VelocitySet, R: Rows<V>, const ONE: bool>(
    rows: &mut R,
    sums: &Sums,
    run: &Run,
    chosen: u8,
    solid: u8,
)
    requires fits { (k j : ℕ) → k < V.stencil.directions → j < 8 → FitsSigned w32 (held (R.count rows.old) (R.there rows.old) j k) }
    requires run { IsRun V.stencil ONE run.now.rates run.now.force run.now.divisor.d run.now.divisor.shift run.now.divisor.reciprocal }
    requires sums { (l : ℕ) → l < 8 → IsSummed V.stencil most_directions (held (R.count rows.old) (R.there rows.old) l) (entry sums.now.rho l) (entry sums.now.x l) (entry sums.now.y l) (entry sums.now.z l) (entry sums.now.signs l) }
    requires within { (l : ℕ) → l < 8 → has chosen l ≡ true → in_limits V.stencil (held (R.count rows.old) (R.there rows.old) l) ≡ true }
    ensures sent { (k j : ℕ) → k < V.stencil.directions → j < R.count rows.old → R.sent rows.new k j ≡ settled V.stencil run.now.rates run.now.force (has chosen j) (has solid j) (held (R.count rows.old) (R.there rows.old) j) k }
    ensures count { R.count rows.new ≡ R.count rows.old }
    ensures kept { R.kept rows.old rows.new }
{
    let colliding = flagged(chosen);
    let turning = flagged(solid);
    let _count = rows.count(); // At most eight.
    collide_sums::<V, R, true, ONE>(rows, sums, Flags { colliding, turning }, run);
}

// What has been found, and else `j` where it is out of limits.
#[inline]
fn found_or(found: Option<u32>, out: bool, j: u32) -> Option<u32>
    ensures { result ≡ found_or found out j }
{
    match found {
        Some(k) => Some(k),
        None if out => Some(j),
        None => None,
    }
}

// The least lane of both masks.
fn least(fluid: u8, out: u8) -> Option<u32>
    ensures { result ≡ least_passing 8 (λ j. has fluid j && has out j) }
{
    let common = fluid & out;
    if common == 0 {
        return None;
    }
    let mut found = None;
    for j in 0..8 {
        found = found_or(found, (fluid >> j) % 2 == 1 && (out >> j) % 2 == 1, j);
    }
    found
}

// The lanes out of limits, of which the sums are known.
#[inline(always)]
fn out_of_limits<V: VelocitySet, R: Rows<V>>(rows: &R, sums: &Sums) -> u8
    requires { (l : ℕ) → l < 8 → IsSummed V.stencil most_directions (held (R.count rows.now) (R.there rows.now) l) (entry sums.now.rho l) (entry sums.now.x l) (entry sums.now.y l) (entry sums.now.z l) (entry sums.now.signs l) }
    ensures { (l : ℕ) → l < 8 → has result l ≡ not (in_limits V.stencil (held (R.count rows.now) (R.there rows.now) l)) }
{
    sums.out_of_limits()
}

// The least lane of `fluid` out of limits, where those out of limits are known.
#[inline(always)]
fn first_out<V: VelocitySet, R: Rows<V>>(rows: &R, fluid: u8, out: u8) -> Option<u32>
    requires out { (l : ℕ) → l < 8 → has out l ≡ not (in_limits V.stencil (held (R.count rows.now) (R.there rows.now) l)) }
    ensures { result ≡ least_out V.stencil fluid (held (R.count rows.now) (R.there rows.now)) }
{
    least(fluid, out)
}

// Applies the rule of a cell to each lane, of which the sums are known, and which of them are out of limits.
#[inline(always)]
fn collide_lanes<V: VelocitySet, R: Rows<V>, const ONE: bool>(
    rows: &mut R,
    sums: &Sums,
    run: &Run,
    out: u8,
    fluid: u8,
    solid: u8,
)
    requires fits { (i j : ℕ) → i < V.stencil.directions → j < 8 → FitsSigned w32 (held (R.count rows.old) (R.there rows.old) j i) }
    requires apart { (j : ℕ) → j < 8 → has fluid j ≡ true → has solid j ≡ false }
    requires run { IsRun V.stencil ONE run.now.rates run.now.force run.now.divisor.d run.now.divisor.shift run.now.divisor.reciprocal }
    requires sums { (l : ℕ) → l < 8 → IsSummed V.stencil most_directions (held (R.count rows.old) (R.there rows.old) l) (entry sums.now.rho l) (entry sums.now.x l) (entry sums.now.y l) (entry sums.now.z l) (entry sums.now.signs l) }
    requires out { (l : ℕ) → l < 8 → has out l ≡ not (in_limits V.stencil (held (R.count rows.old) (R.there rows.old) l)) }
    ensures post { (i j : ℕ) → i < V.stencil.directions → j < R.count rows.old → R.sent rows.new i j ≡ becomes V.stencil run.now.rates run.now.force (has fluid j) (has solid j) (held (R.count rows.old) (R.there rows.old) j) i }
    ensures count { R.count rows.new ≡ R.count rows.old }
    ensures kept { R.kept rows.old rows.new }
{
    let _count = rows.count(); // At most eight.
    let chosen = fluid & !out;
    if chosen == 255 {
        collide_whole::<V, R, ONE>(rows, sums, run);
        return;
    }
    collide_mixed::<V, R, ONE>(rows, sums, run, chosen, solid);
}

// The same, where it is told whether the rates are one.
#[inline(always)]
fn collide_known<V: VelocitySet, R: Rows<V>>(
    rows: &mut R,
    sums: &Sums,
    run: &Run,
    one: bool,
    out: u8,
    fluid: u8,
    solid: u8,
)
    requires fits { (i j : ℕ) → i < V.stencil.directions → j < 8 → FitsSigned w32 (held (R.count rows.old) (R.there rows.old) j i) }
    requires apart { (j : ℕ) → j < 8 → has fluid j ≡ true → has solid j ≡ false }
    requires run { IsRun V.stencil one run.now.rates run.now.force run.now.divisor.d run.now.divisor.shift run.now.divisor.reciprocal }
    requires sums { (l : ℕ) → l < 8 → IsSummed V.stencil most_directions (held (R.count rows.old) (R.there rows.old) l) (entry sums.now.rho l) (entry sums.now.x l) (entry sums.now.y l) (entry sums.now.z l) (entry sums.now.signs l) }
    requires out { (l : ℕ) → l < 8 → has out l ≡ not (in_limits V.stencil (held (R.count rows.old) (R.there rows.old) l)) }
    ensures post { (i j : ℕ) → i < V.stencil.directions → j < R.count rows.old → R.sent rows.new i j ≡ becomes V.stencil run.now.rates run.now.force (has fluid j) (has solid j) (held (R.count rows.old) (R.there rows.old) j) i }
    ensures count { R.count rows.new ≡ R.count rows.old }
    ensures kept { R.kept rows.old rows.new }
{
    if one {
        collide_lanes::<V, R, true>(rows, sums, run, out, fluid, solid);
        return;
    }
    collide_lanes::<V, R, false>(rows, sums, run, out, fluid, solid);
}

/// Applies the rule of a cell to each lane. A lane of `solid` bounces back, a lane of `fluid` in limits collides
/// with the rates and the force, and all others stay. The answer is the least lane of `fluid` out of limits.
pub fn collide_rows<V: VelocitySet, R: Rows<V>>(
    rows: &mut R,
    rule: &Rule<V>,
    fluid: u8,
    solid: u8,
) -> Option<u32>
    requires fits { (i j : ℕ) → i < V.stencil.directions → j < 8 → FitsSigned w32 (held (R.count rows.old) (R.there rows.old) j i) }
    requires apart { (j : ℕ) → j < 8 → has fluid j ≡ true → has solid j ≡ false }
    ensures post { (i j : ℕ) → i < V.stencil.directions → j < R.count rows.old → R.sent rows.new i j ≡ becomes V.stencil rule.now.rates rule.now.force (has fluid j) (has solid j) (held (R.count rows.old) (R.there rows.old) j) i }
    ensures answer { result ≡ least_out V.stencil fluid (held (R.count rows.old) (R.there rows.old)) }
    ensures count { R.count rows.new ≡ R.count rows.old }
    ensures kept { R.kept rows.old rows.new }
{
    let run = Run {
        rates: rule.rates,
        force: rule.force,
        divisor: rule.divisor,
    };
    let one = rule.one;
    let sums = Sums::of::<V, R>(rows);
    let out = out_of_limits::<V, R>(rows, &sums);
    let found = first_out::<V, R>(rows, fluid, out);
    collide_known::<V, R>(rows, &sums, &run, one, out, fluid, solid);
    found
}

/// As `collide_rows`, where no lane of `fluid` is out of limits. Where one is, the answer is the least, and nothing is put.
pub fn collide_rows_within<V: VelocitySet, R: Rows<V>>(
    rows: &mut R,
    rule: &Rule<V>,
    fluid: u8,
    solid: u8,
) -> Option<u32>
    requires fits { (i j : ℕ) → i < V.stencil.directions → j < 8 → FitsSigned w32 (held (R.count rows.old) (R.there rows.old) j i) }
    requires apart { (j : ℕ) → j < 8 → has fluid j ≡ true → has solid j ≡ false }
    ensures post { result ≡ None → (i j : ℕ) → i < V.stencil.directions → j < R.count rows.old → R.sent rows.new i j ≡ becomes V.stencil rule.now.rates rule.now.force (has fluid j) (has solid j) (held (R.count rows.old) (R.there rows.old) j) i }
    ensures stopped { (k : ℕ) → result ≡ Some k → rows.new ≡ rows.old }
    ensures answer { result ≡ least_out V.stencil fluid (held (R.count rows.old) (R.there rows.old)) }
    ensures count { R.count rows.new ≡ R.count rows.old }
    ensures kept { R.kept rows.old rows.new }
{
    let run = Run {
        rates: rule.rates,
        force: rule.force,
        divisor: rule.divisor,
    };
    let one = rule.one;
    let sums = Sums::of::<V, R>(rows);
    let out = out_of_limits::<V, R>(rows, &sums);
    match first_out::<V, R>(rows, fluid, out) {
        Some(lane) => Some(lane),
        None => {
            collide_known::<V, R>(rows, &sums, &run, one, out, fluid, solid);
            None
        }
    }
}

/// The least lane of `fluid` out of limits. Nothing is put.
pub fn check_rows<V: VelocitySet, R: Rows<V>>(rows: &R, fluid: u8) -> Option<u32>
    requires { (i j : ℕ) → i < V.stencil.directions → j < 8 → FitsSigned w32 (held (R.count rows.now) (R.there rows.now) j i) }
    ensures { result ≡ least_out V.stencil fluid (held (R.count rows.now) (R.there rows.now)) }
{
    let sums = Sums::of::<V, R>(rows);
    let out = out_of_limits::<V, R>(rows, &sums);
    first_out::<V, R>(rows, fluid, out)
}
