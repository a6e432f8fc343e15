//! The work, run on each slab of a slice by halves.

ghost use Rattle.std.specs.Prelude.{◌≡◌, ℕ, ◌+◌, ◌-◌, ◌<◌, ◌≤◌, length, slice_index};
ghost use Rattle.std.specs.Thread.{IsSync};
ghost use Rattle.core.specs.Mem.Slots.Ownership.{Filled};
ghost use Rattle.lbm_space.specs.Torus.{rows as row_count};
ghost use Rattle.lbm_space.specs.Padded.{row_start};
ghost use Rattle.lbm_space.specs.Cuttings.{slabs_of, first_row, rows_of};
ghost use Rattle.lbm_patch.specs.Masks.{mask, both as places_of_both, without as places_without};
ghost use Rattle.lbm_patch.specs.Whole.{IsRefilled};
ghost use Rattle.lbm_arrays.specs.Least.{lesser};
ghost use Rattle.lbm_arrays.specs.Forked.{mark, marks_of, ready_in, does_in, Asks, Gives, IsLaid, AllReady, AllDone, SameOthers};

use crate::{Loan, PieceWork};
use arrayvec::ArrayVec;
use lbm_cell::MAX_Q;
use lbm_model::Gate;
use lbm_patch::{Patch, lend};
use lbm_space::{Cutting, Space};
use std::thread::{Threads, join};

// How often the pieces are halved into threads of their own: up to 64 pieces have a thread each, and of more pieces
// neighbours share one.
const SPLITS: u32 = 6;

// How far behind the first row another one starts.
fn mark_of(space: &Space, row: u32) -> usize
    requires { row ≤ row_count space.now }
    ensures { result ≡ mark space.now row }
{
    (space.row_start(row) - space.row_start(0)) as usize
}

fn lesser_of(a: Option<u32>, b: Option<u32>) -> Option<u32>
    ensures { result ≡ lesser a b }
{
    match (a, b) {
        (Some(x), Some(y)) => Some(x.min(y)),
        (Some(x), None) => Some(x),
        (None, y) => y,
    }
}

// Which ranges are lent: the space, and where that of each array begins for the first slab.
#[derive(Drop)]
pub(crate) struct Plan {
    pub(crate) space: Space,
    pub(crate) firsts: ArrayVec<usize, MAX_Q>,
}

// What is the same for all pieces: which ranges are lent, to the slabs of which cutting, the gate before each, and the work.
#[derive(Drop)]
struct Shared<'a, G, W> {
    plan: &'a Plan,
    cut: &'a Cutting,
    gate: &'a G,
    work: &'a W,
}

// The pieces from `from` up to, not including, `to`.
#[derive(Clone, Copy)]
struct Span {
    from: u32,
    to: u32,
}

// The work on one piece.
fn one<W: PieceWork, G: Gate>(
    shared: &Shared<'_, G, W>,
    piece: u32,
    patch: Patch<i64>,
) -> (Patch<i64>, Option<u32>)
    requires fits { rows_of shared.now.cut.now ≡ row_count shared.now.plan.now.space }
    requires asks { Asks (ready_in shared.now.cut.now (W.ready shared.now.work.now)) (does_in shared.now.cut.now (W.does shared.now.work.now)) shared.now.plan.now.firsts.items (marks_of shared.now.plan.now.space shared.now.cut.now) piece (piece + 1) patch }
    ensures { Gives (ready_in shared.now.cut.now (W.ready shared.now.work.now)) (does_in shared.now.cut.now (W.does shared.now.work.now)) shared.now.plan.now.firsts.items (marks_of shared.now.plan.now.space shared.now.cut.now) piece (piece + 1) patch result.0 result.1 }
{
    shared.gate.enter(piece);
    let rows = shared.cut.slab(piece);
    let mut loan = Loan {
        patch,
        firsts: shared.plan.firsts.as_slice(),
        lo: mark_of(&shared.plan.space, rows.0),
        hi: mark_of(&shared.plan.space, rows.1),
        rows,
    };
    let answer = shared.work.run(piece, &mut loan);
    let Loan {
        patch,
        firsts: _,
        lo: _,
        hi: _,
        rows: _,
    } = loan;
    (patch, answer)
}

// The ranges of the pieces from `from` up to, not including, `mid`, and the other places of the patch.
fn split_off(
    plan: &Plan,
    cut: &Cutting,
    from: u32,
    mid: u32,
    patch: Patch<i64>,
) -> (Patch<i64>, Patch<i64>)
    requires fits { rows_of cut.now ≡ row_count plan.now.space }
    requires pieces { (from < slabs_of cut.now) × (mid < slabs_of cut.now) }
    ensures low { let ms = marks_of plan.now.space cut.now in (result.0.ptr ≡ patch.ptr) × (result.0.len ≡ patch.len) × (result.0.items ≡ patch.items) × (result.0.mine ≡ places_of_both patch.mine (mask plan.now.firsts.items (slice_index ms from) (slice_index ms mid) patch.len)) }
    ensures high { let ms = marks_of plan.now.space cut.now in (result.1.ptr ≡ patch.ptr) × (result.1.len ≡ patch.len) × (result.1.items ≡ patch.items) × (result.1.mine ≡ places_without patch.mine (mask plan.now.firsts.items (slice_index ms from) (slice_index ms mid) patch.len)) }
{
    let first = mark_of(&plan.space, cut.slab(from).0);
    let middle = mark_of(&plan.space, cut.slab(mid).0);
    patch.split(plan.firsts.as_slice(), first, middle)
}

// The pieces are halved at each step, so the stack grows as the logarithm of their number.
#[cycle(halving)]
fn by_halves<R: Threads + Sync, W: PieceWork, G: Gate>(
    rt: &R,
    shared: &Shared<'_, G, W>,
    span: Span,
    splits: u32,
    patch: Patch<i64>,
) -> (Patch<i64>, Option<u32>)
    requires fits { rows_of shared.now.cut.now ≡ row_count shared.now.plan.now.space }
    requires asks { Asks (ready_in shared.now.cut.now (W.ready shared.now.work.now)) (does_in shared.now.cut.now (W.does shared.now.work.now)) shared.now.plan.now.firsts.items (marks_of shared.now.plan.now.space shared.now.cut.now) span.from span.to patch }
    ensures { Gives (ready_in shared.now.cut.now (W.ready shared.now.work.now)) (does_in shared.now.cut.now (W.does shared.now.work.now)) shared.now.plan.now.firsts.items (marks_of shared.now.plan.now.space shared.now.cut.now) span.from span.to patch result.0 result.1 }
{
    let Span { from, to } = span;
    if to - from == 1 {
        return one(shared, from, patch);
    }
    let mid = from + (to - from) / 2;
    let (low, high) = split_off(shared.plan, shared.cut, from, mid, patch);
    let (first, second) = (Span { from, to: mid }, Span { from: mid, to });
    let ((low, a), (high, b)) = parts(rt, shared, first, second, splits, low, high);
    (low.merge(high), lesser_of(a, b))
}

// The two halves, beside each other while pieces may be split off, and one after the other in this thread from then on.
#[cycle(halving)]
fn parts<R: Threads + Sync, W: PieceWork, G: Gate>(
    rt: &R,
    shared: &Shared<'_, G, W>,
    first: Span,
    second: Span,
    splits: u32,
    low: Patch<i64>,
    high: Patch<i64>,
) -> ((Patch<i64>, Option<u32>), (Patch<i64>, Option<u32>))
    requires fits { rows_of shared.now.cut.now ≡ row_count shared.now.plan.now.space }
    requires low { Asks (ready_in shared.now.cut.now (W.ready shared.now.work.now)) (does_in shared.now.cut.now (W.does shared.now.work.now)) shared.now.plan.now.firsts.items (marks_of shared.now.plan.now.space shared.now.cut.now) first.from first.to low }
    requires high { Asks (ready_in shared.now.cut.now (W.ready shared.now.work.now)) (does_in shared.now.cut.now (W.does shared.now.work.now)) shared.now.plan.now.firsts.items (marks_of shared.now.plan.now.space shared.now.cut.now) second.from second.to high }
    ensures low { Gives (ready_in shared.now.cut.now (W.ready shared.now.work.now)) (does_in shared.now.cut.now (W.does shared.now.work.now)) shared.now.plan.now.firsts.items (marks_of shared.now.plan.now.space shared.now.cut.now) first.from first.to low result.0.0 result.0.1 }
    ensures high { Gives (ready_in shared.now.cut.now (W.ready shared.now.work.now)) (does_in shared.now.cut.now (W.does shared.now.work.now)) shared.now.plan.now.firsts.items (marks_of shared.now.plan.now.space shared.now.cut.now) second.from second.to high result.1.0 result.1.1 }
{
    if splits == 0 {
        let low = by_halves(rt, shared, first, 0, low);
        let high = by_halves(rt, shared, second, 0, high);
        return (low, high);
    }
    both(rt, shared, first, second, splits - 1, low, high)
}

// The two halves beside each other: the first may have a thread of its own.
#[cycle(halving)]
fn both<R: Threads + Sync, W: PieceWork, G: Gate>(
    rt: &R,
    shared: &Shared<'_, G, W>,
    first: Span,
    second: Span,
    splits: u32,
    low: Patch<i64>,
    high: Patch<i64>,
) -> ((Patch<i64>, Option<u32>), (Patch<i64>, Option<u32>))
    requires fits { rows_of shared.now.cut.now ≡ row_count shared.now.plan.now.space }
    requires low { Asks (ready_in shared.now.cut.now (W.ready shared.now.work.now)) (does_in shared.now.cut.now (W.does shared.now.work.now)) shared.now.plan.now.firsts.items (marks_of shared.now.plan.now.space shared.now.cut.now) first.from first.to low }
    requires high { Asks (ready_in shared.now.cut.now (W.ready shared.now.work.now)) (does_in shared.now.cut.now (W.does shared.now.work.now)) shared.now.plan.now.firsts.items (marks_of shared.now.plan.now.space shared.now.cut.now) second.from second.to high }
    ensures low { Gives (ready_in shared.now.cut.now (W.ready shared.now.work.now)) (does_in shared.now.cut.now (W.does shared.now.work.now)) shared.now.plan.now.firsts.items (marks_of shared.now.plan.now.space shared.now.cut.now) first.from first.to low result.0.0 result.0.1 }
    ensures high { Gives (ready_in shared.now.cut.now (W.ready shared.now.work.now)) (does_in shared.now.cut.now (W.does shared.now.work.now)) shared.now.plan.now.firsts.items (marks_of shared.now.plan.now.space shared.now.cut.now) second.from second.to high result.1.0 result.1.1 }
{
    // Of a closure that captures a struct of references nothing is known, so they are captured singly.
    let Shared {
        plan,
        cut,
        gate,
        work,
    } = *shared;
    let front = move || -> (Patch<i64>, Option<u32>)
        requires { IsSync R.row × IsSync W.row × IsSync G.row × (rows_of cut.now ≡ row_count plan.now.space) × Asks (ready_in cut.now (W.ready work.now)) (does_in cut.now (W.does work.now)) plan.now.firsts.items (marks_of plan.now.space cut.now) first.from first.to low }
        ensures { Gives (ready_in cut.entry.now (W.ready work.entry.now)) (does_in cut.entry.now (W.does work.entry.now)) plan.entry.now.firsts.items (marks_of plan.entry.now.space cut.entry.now) first.from first.to low result.0 result.1 }
    {
        let shared = Shared {
            plan,
            cut,
            gate,
            work,
        };
        by_halves(rt, &shared, first, splits, low)
    };
    let back = move || -> (Patch<i64>, Option<u32>)
        requires { IsSync R.row × IsSync W.row × IsSync G.row × (rows_of cut.now ≡ row_count plan.now.space) × Asks (ready_in cut.now (W.ready work.now)) (does_in cut.now (W.does work.now)) plan.now.firsts.items (marks_of plan.now.space cut.now) second.from second.to high }
        ensures { Gives (ready_in cut.entry.now (W.ready work.entry.now)) (does_in cut.entry.now (W.does work.entry.now)) plan.entry.now.firsts.items (marks_of plan.entry.now.space cut.entry.now) second.from second.to high result.0 result.1 }
    {
        let shared = Shared {
            plan,
            cut,
            gate,
            work,
        };
        by_halves(rt, &shared, second, splits, high)
    };
    join(rt, front, back)
}

// The ranges of all pieces, and the other places of the patch.
fn split_all(plan: &Plan, cut: &Cutting, patch: Patch<i64>) -> (Patch<i64>, Patch<i64>)
    requires { rows_of cut.now ≡ row_count plan.now.space }
    ensures ends { let ms = marks_of plan.now.space cut.now in (slice_index ms 0 ≡ 0) × (slice_index ms (slabs_of cut.now) ≡ mark plan.now.space (row_count plan.now.space)) }
    ensures low { let ms = marks_of plan.now.space cut.now in (result.0.ptr ≡ patch.ptr) × (result.0.len ≡ patch.len) × (result.0.items ≡ patch.items) × (result.0.mine ≡ places_of_both patch.mine (mask plan.now.firsts.items (slice_index ms 0) (slice_index ms (slabs_of cut.now)) patch.len)) }
    ensures high { let ms = marks_of plan.now.space cut.now in (result.1.ptr ≡ patch.ptr) × (result.1.len ≡ patch.len) × (result.1.items ≡ patch.items) × (result.1.mine ≡ places_without patch.mine (mask plan.now.firsts.items (slice_index ms 0) (slice_index ms (slabs_of cut.now)) patch.len)) }
{
    let _slabs = cut.slabs();
    let all = mark_of(&plan.space, plan.space.rows());
    patch.split(plan.firsts.as_slice(), 0, all)
}

// The work on all pieces, where the patch has all places.
fn in_whole<R: Threads + Sync, W: PieceWork, G: Gate>(
    rt: &R,
    shared: &Shared<'_, G, W>,
    patch: Patch<i64>,
) -> (Patch<i64>, Option<u32>)
    requires fits { rows_of shared.now.cut.now ≡ row_count shared.now.plan.now.space }
    requires laid { IsLaid shared.now.plan.now.firsts.items (marks_of shared.now.plan.now.space shared.now.cut.now) patch.len }
    requires full { Filled patch.mine 0 patch.len }
    requires ready { AllReady (ready_in shared.now.cut.now (W.ready shared.now.work.now)) (does_in shared.now.cut.now (W.does shared.now.work.now)) shared.now.plan.now.firsts.items (marks_of shared.now.plan.now.space shared.now.cut.now) 0 (slabs_of shared.now.cut.now) patch.items }
    ensures full { IsRefilled patch result.0 }
    ensures did { AllDone (ready_in shared.now.cut.now (W.ready shared.now.work.now)) (does_in shared.now.cut.now (W.does shared.now.work.now)) shared.now.plan.now.firsts.items (marks_of shared.now.plan.now.space shared.now.cut.now) 0 (slabs_of shared.now.cut.now) patch.items result.0.items result.1 }
    ensures others { SameOthers shared.now.plan.now.firsts.items 0 (mark shared.now.plan.now.space (row_count shared.now.plan.now.space)) patch.items result.0.items }
{
    let (lent, rest) = split_all(shared.plan, shared.cut, patch);
    let all = Span {
        from: 0,
        to: shared.cut.slabs(),
    };
    let (lent, answer) = by_halves(rt, shared, all, SPLITS, lent);
    (lent.merge(rest), answer)
}

/// Runs the work once on the ranges of each slab of `slots`, by halves in threads of their own. The answer is the least of the slabs' answers.
pub(crate) fn fork_slice<R: Threads + Sync, W: PieceWork, G: Gate>(
    rt: &R,
    slots: &mut [i64],
    plan: &Plan,
    cut: &Cutting,
    gate: &G,
    work: &W,
) -> Option<u32>
    requires fits { rows_of cut.now ≡ row_count plan.now.space }
    requires laid { IsLaid plan.now.firsts.items (marks_of plan.now.space cut.now) (length slots.old) }
    requires ready { AllReady (ready_in cut.now (W.ready work.now)) (does_in cut.now (W.does work.now)) plan.now.firsts.items (marks_of plan.now.space cut.now) 0 (slabs_of cut.now) slots.old }
    ensures did { AllDone (ready_in cut.now (W.ready work.now)) (does_in cut.now (W.does work.now)) plan.now.firsts.items (marks_of plan.now.space cut.now) 0 (slabs_of cut.now) slots.old slots.new result }
    ensures others { SameOthers plan.now.firsts.items 0 (mark plan.now.space (row_count plan.now.space)) slots.old slots.new }
{
    lend(
        slots,
        |patch: Patch<i64>| -> (Patch<i64>, Option<u32>)
            requires { (rows_of cut.now ≡ row_count plan.now.space) × IsLaid plan.now.firsts.items (marks_of plan.now.space cut.now) patch.len × Filled patch.mine 0 patch.len × AllReady (ready_in cut.now (W.ready work.now)) (does_in cut.now (W.does work.now)) plan.now.firsts.items (marks_of plan.now.space cut.now) 0 (slabs_of cut.now) patch.items }
        {
            let shared = Shared {
                plan,
                cut,
                gate,
                work,
            };
            in_whole(rt, &shared, patch)
        },
    )
}
