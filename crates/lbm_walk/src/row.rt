//! The walk of a kernel over a row of cells.

ghost use Rattle.std.specs.Prelude.{◌≡◌, ◌⊎◌, ◌+◌, ◌<◌, ◌≤◌, ◌^◌, ℕ, ℤ};
ghost use Rattle.lbm_walk.specs.First.{IsFirst};
ghost use Rattle.lbm_walk.specs.Orders.{next_from};
ghost use Rattle.lbm_walk.specs.Walked.{AreTaken, IsPending, IsWalked};

use crate::{Kernel, Walk};
use lbm_space::VelocitySet;

/// Where the next `n` of `count` things begin, of which `done` are done: at the first that is left in a walk that
/// rises, and else at the last ones.
#[inline(always)]
pub(crate) fn next_from<V: VelocitySet, W: Walk<V>>(count: u32, done: u32, n: u32) -> u32
    requires { done + n ≤ count }
    ensures { result ≡ next_from W.RISES count done n }
{
    if W::rises() { done } else { count - done - n }
}

/// The `width` cells from `cell` on, which stand at the places from `at` on, by spans of eight cells and one that is
/// shorter, in the order of the walk. The answer is the first of them that is out of limits: where a walk falls, what
/// stands before a span out of limits is then only looked at.
#[inline(always)]
pub fn collide_row<V: VelocitySet, K: Kernel<V>, W: Walk<V>>(
    kernel: &K,
    walk: &mut W,
    cell: u32,
    at: u32,
    width: u32,
) -> Option<u32>
    requires known { cell + width ≤ K.cells kernel.now }
    requires inner { 0 < at }
    requires inside { at + width < W.places walk.old }
    requires cells_fit { cell + width < 2 ^ 32 }
    requires places_fit { at + width < 2 ^ 32 }
    requires small { (i x : ℕ) → i < V.stencil.directions → x < width → K.small kernel.now (cell + x) (W.before walk.old i (at + x)) }
    ensures done { (f : ℕ → ℕ → ℤ) → AreTaken V.stencil.directions width (λ x. f (cell + x)) (λ i x. W.before walk.old i (at + x)) → (place : ℕ → ℕ) → ((x : ℕ) → x < width → place (cell + x) ≡ at + x) → IsWalked (K.sound kernel.now) (K.post kernel.now) V.stencil.directions place cell (cell + width) f (W.after walk.new) result }
    ensures pending { (i p : ℕ) → i < V.stencil.directions → IsPending W.RISES at width p → W.before walk.new i p ≡ W.before walk.old i p }
    ensures beside { (i p : ℕ) → i < V.stencil.directions → (p < at) ⊎ (at + width ≤ p) → W.after walk.new i p ≡ W.after walk.old i p }
    ensures others { (k p : ℕ) → (p < at) ⊎ (at + width ≤ p) → W.holds walk.new k p ≡ W.holds walk.old k p }
    ensures places { W.places walk.new ≡ W.places walk.old }
    ensures same { W.same walk.old walk.new }
{
    let mut done = 0;
    while done < width {
        let n = (width - done).min(8);
        let start = next_from::<V, W>(width, done, n);
        walk.seek(at + start, n);
        if let Some(lane) = walk.collide_by(kernel, cell + start) {
            let bad = cell + start + lane;
            if W::rises() {
                return Some(bad);
            }
            return first_in_row(kernel, walk, cell, at, start).or(Some(bad));
        }
        done += n;
    }
    None
}

/// The first of the `width` cells from `cell` on that is out of limits. Nothing is put.
#[cold]
pub(crate) fn first_in_row<V: VelocitySet, K: Kernel<V>, W: Walk<V>>(
    kernel: &K,
    walk: &mut W,
    cell: u32,
    at: u32,
    width: u32,
) -> Option<u32>
    requires known { cell + width ≤ K.cells kernel.now }
    requires inner { 0 < at }
    requires inside { at + width < W.places walk.old }
    requires cells_fit { cell + width < 2 ^ 32 }
    requires places_fit { at + width < 2 ^ 32 }
    requires small { (i x : ℕ) → i < V.stencil.directions → x < width → K.small kernel.now (cell + x) (W.before walk.old i (at + x)) }
    ensures first { (f : ℕ → ℕ → ℤ) → AreTaken V.stencil.directions width (λ x. f (cell + x)) (λ i x. W.before walk.old i (at + x)) → IsFirst (λ x. K.sound kernel.now x (f x)) cell (cell + width) result }
    ensures before { (i p : ℕ) → W.before walk.new i p ≡ W.before walk.old i p }
    ensures after { (i p : ℕ) → W.after walk.new i p ≡ W.after walk.old i p }
    ensures holds { (k p : ℕ) → W.holds walk.new k p ≡ W.holds walk.old k p }
    ensures places { W.places walk.new ≡ W.places walk.old }
    ensures same { W.same walk.old walk.new }
{
    let mut seen = 0;
    while seen < width {
        let n = (width - seen).min(8);
        walk.seek(at + seen, n);
        if let Some(lane) = kernel.check(cell + seen, walk) {
            return Some(cell + seen + lane);
        }
        seen += n;
    }
    None
}
