//! The steps of the patterns, and how they move the ranges that they lend.

ghost use Rattle.std.specs.Prelude.{◌≡◌, ◌⊎◌, ℕ, ◌+◌, ◌/◌, ◌<◌, ◌≤◌, ◌^◌, List, pos, ◌+ℤ◌, ◌-ℤ◌, ◌≤ℤ◌, ◌<ℤ◌, unsigned_abs};
ghost use Rattle.std.specs.Int.{int_min, int_max};
ghost use Rattle.lbm_space.specs.Stencil.{Stencil, velocity};
ghost use Rattle.lbm_space.specs.Torus.{IsSpace, cells, rows as row_count, padded};
ghost use Rattle.lbm_space.specs.Padded.{row_start, offset, reach as reach_of, IsInterior};
ghost use Rattle.lbm_space.specs.Cuttings.{IsCutting, slabs_of, rows_of};
ghost use Rattle.lbm_arrays.specs.LentRanges.{IsLent, AreInside};
ghost use Rattle.lbm_arrays.specs.declared.steps.Step.TheVariants.{Rise, Fall};
ghost use Rattle.lbm_arrays.specs.Steps.{shift_of, step_shifts, HasRoom, touched, rising_strip, falling_strip, strips_size, TouchesArrays, ReadsPlaces, IsReadNear};

use crate::Shifts;
use lbm_space::{Space, VelocitySet};

/// How a step moves the range that it lends of the array of a direction.
#[derive(Clone, Copy, Debug, PartialEq, Eq)]
pub enum Step {
    /// Not at all.
    InPlace,
    /// By the direction's offset for the lesser direction of each pair of opposites, and otherwise not at all.
    Exchange,
    /// By the direction's offset.
    Ahead,
    /// Down by the reach of the set: for a sweep that rises.
    Rise,
    /// Up by the reach of the set: for a sweep that falls.
    Fall,
}

/// The shifts of a step, for arrays whose padded place 0 is slot `base`: one for each direction.
pub fn shifts<V: VelocitySet>(space: &Space, base: u32, step: Step) -> Shifts
    requires { V.stencil.dimension ≡ space.now.dimension }
    ensures table { result.items ≡ step_shifts space.now V.stencil step base }
    ensures inside { (margin : ℕ) → HasRoom space.now V.stencil step margin base → AreInside space.now margin result.items }

    // What the step touches for a cell is a slot of its array, and lies in the range of any slab that has the cell's row.
    ensures within { (margin : ℕ) → HasRoom space.now V.stencil step margin base → TouchesArrays space.now V.stencil step margin base }
    ensures touched { (margin a b cell k : ℕ) → HasRoom space.now V.stencil step margin base → b ≤ row_count space.now → cell < cells space.now → a ≤ cell / space.now.nx → cell / space.now.nx < b → k < V.stencil.directions → IsLent space.now margin result.items k a b (touched space.now margin base V.stencil step k cell) }

    // What a cell reads that takes its populations from behind it is a place of the box. Where a sweep rises or falls, its
    // slab is lent that place or has saved it.
    ensures read { ReadsPlaces space.now V.stencil }
    ensures rising { (margin : ℕ) → step ≡ Rise → HasRoom space.now V.stencil Rise margin base → IsReadNear space.now margin base V.stencil result.items (rising_strip space.now V.stencil) }
    ensures falling { (margin : ℕ) → step ≡ Fall → HasRoom space.now V.stencil Fall margin base → IsReadNear space.now margin base V.stencil result.items (falling_strip space.now V.stencil) }
{
    let reach = i64::from(space.reach::<V>());
    let mut table = Shifts::new();
    for k in 0..V::Q {
        table.push(from_base(base, shift::<V>(space, step, reach, k)));
    }
    table
}

/// The place from which direction `k` leads to the place of a cell, without wrapping: where a cell finds population `k` in
/// a lattice whose pads are loaded, if each population stands at the cell behind its own.
pub fn place_behind<V: VelocitySet>(space: &Space, k: usize, place: u32) -> u32
    requires direction { k < V.stencil.directions }
    requires dimension { V.stencil.dimension ≡ space.now.dimension }
    requires cell { IsInterior space.now place }
    ensures place { pos result ≡ (pos place -ℤ offset space.now (velocity V.stencil k)) }
    ensures inside { result < padded space.now }
{
    as_place(before(place, space.offset::<V>(k)))
}

// A shift, counted from the first slot.
fn from_base(base: u32, shift: i64) -> i64
    requires { unsigned_abs shift < 2 ^ 32 }
    ensures value { result ≡ (pos base +ℤ shift) }
    ensures small { unsigned_abs result < 2 ^ 62 }
{
    i64::from(base) + shift
}

// How far a step moves the range of array `k`.
fn shift<V: VelocitySet>(space: &Space, step: Step, reach: i64, k: usize) -> i64
    requires direction { k < V.stencil.directions }
    requires dimension { V.stencil.dimension ≡ space.now.dimension }
    requires reach { reach ≡ pos (reach_of space.now V.stencil) }
    requires few { reach_of space.now V.stencil < 2 ^ 31 }
    ensures value { result ≡ shift_of space.now V.stencil step k }
    ensures small { unsigned_abs result < 2 ^ 32 }
{
    match step {
        Step::InPlace => 0,
        Step::Exchange => {
            if k < V::opp(k) {
                space.offset::<V>(k)
            } else {
                0
            }
        }
        Step::Ahead => space.offset::<V>(k),
        Step::Rise => -reach,
        Step::Fall => reach,
    }
}

/// The places of array `k` that a slab of these rows saves before a rising sweep writes: those from the first up to,
/// not including, the second, counted from padded place 0.
pub fn rising_strip<V: VelocitySet>(space: &Space, k: usize, rows: (u32, u32)) -> (u32, u32)
    requires direction { k < V.stencil.directions }
    requires dimension { V.stencil.dimension ≡ space.now.dimension }
    requires rows { (rows.0 < rows.1) × (rows.1 ≤ row_count space.now) }
    ensures strip { (pos result.0, pos result.1) ≡ rising_strip space.now V.stencil k rows.0 rows.1 }
    ensures order { result.0 ≤ result.1 }
    ensures inside { result.1 ≤ padded space.now }

    // The strips of an array have together no more places than the box.
    ensures few { (bounds : List ℕ) → IsCutting bounds → rows_of bounds ≡ row_count space.now → strips_size (rising_strip space.now V.stencil k) bounds (slabs_of bounds) ≤ padded space.now }
{
    let (from, to) = starts_of::<V>(space, rows);
    rising(
        from,
        to,
        space.offset::<V>(k),
        space.reach::<V>(),
        space.padded(),
    )
}

/// The places of array `k` that a slab of these rows saves before a falling sweep writes: those from the first up to,
/// not including, the second, counted from padded place 0.
pub fn falling_strip<V: VelocitySet>(space: &Space, k: usize, rows: (u32, u32)) -> (u32, u32)
    requires direction { k < V.stencil.directions }
    requires dimension { V.stencil.dimension ≡ space.now.dimension }
    requires rows { (rows.0 < rows.1) × (rows.1 ≤ row_count space.now) }
    ensures strip { (pos result.0, pos result.1) ≡ falling_strip space.now V.stencil k rows.0 rows.1 }
    ensures order { result.0 ≤ result.1 }
    ensures inside { result.1 ≤ padded space.now }

    // The strips of an array have together no more places than the box.
    ensures few { (bounds : List ℕ) → IsCutting bounds → rows_of bounds ≡ row_count space.now → strips_size (falling_strip space.now V.stencil k) bounds (slabs_of bounds) ≤ padded space.now }
{
    let (from, to) = starts_of::<V>(space, rows);
    falling(
        from,
        to,
        space.offset::<V>(k),
        space.reach::<V>(),
        space.padded(),
    )
}

// Where two rows start.
fn starts_of<V: VelocitySet>(space: &Space, rows: (u32, u32)) -> (u32, u32)
    requires dimension { V.stencil.dimension ≡ space.now.dimension }
    requires rows { (rows.0 < rows.1) × (rows.1 ≤ row_count space.now) }
    ensures valid { IsSpace space.now }
    ensures first { result.0 ≡ row_start space.now rows.0 }
    ensures second { result.1 ≡ row_start space.now rows.1 }
    ensures apart { result.0 + 3 ≤ result.1 }
    ensures inside { result.1 + 3 ≤ padded space.now }
    ensures low { reach_of space.now V.stencil ≤ result.0 + 1 }
    ensures high { result.1 + reach_of space.now V.stencil ≤ padded space.now + 1 }
{
    (space.row_start(rows.0), space.row_start(rows.1))
}

// The strip of a rising slab whose first row starts at `from` and whose next slab's starts at `to`.
fn rising(from: u32, to: u32, off: i64, reach: u32, places: u32) -> (u32, u32)
    requires off { unsigned_abs off ≤ reach }
    requires low { reach ≤ from + 1 }
    requires apart { from + 3 ≤ to }
    requires inside { to ≤ places }
    requires high { to + reach ≤ places + 1 }
    requires few { places ≤ 4194304 }
    ensures first { pos result.0 ≡ int_max (pos from -ℤ off) (pos to -ℤ pos reach) }
    ensures past { pos result.1 ≡ int_min (pos to -ℤ off) (pos places) }
    ensures order { result.0 ≤ result.1 }
    ensures inside { result.1 ≤ places }
{
    let first = greater(before(from, off), before(to, i64::from(reach)));
    let past = lesser(before(to, off), i64::from(places));
    (first, past)
}

// The strip of a falling slab of the same rows.
fn falling(from: u32, to: u32, off: i64, reach: u32, places: u32) -> (u32, u32)
    requires off { unsigned_abs off ≤ reach }
    requires low { reach ≤ from + 1 }
    requires apart { from + 3 ≤ to }
    requires inside { to ≤ places }
    requires high { to + reach ≤ places + 1 }
    requires few { places ≤ 4194304 }
    ensures first { pos result.0 ≡ int_max (pos from -ℤ off) (pos 0) }
    ensures past { pos result.1 ≡ int_min (pos to -ℤ off) (pos from +ℤ pos reach) }
    ensures order { result.0 ≤ result.1 }
    ensures inside { result.1 ≤ places }
{
    let first = greater(before(from, off), 0);
    let past = lesser(before(to, off), i64::from(from + reach));
    (first, past)
}

// The place that lies an offset before another one.
fn before(place: u32, off: i64) -> i64
    requires { unsigned_abs off < 2 ^ 32 }
    ensures value { result ≡ (pos place -ℤ off) }
    ensures small { unsigned_abs result < 2 ^ 33 }
{
    i64::from(place) - off
}

fn as_place(z: i64) -> u32
    requires low { pos 0 ≤ℤ z }
    requires high { z <ℤ pos (2 ^ 32) }
    ensures { pos result ≡ z }
{
    z as u32
}

// The greater of two numbers, as a place.
fn greater(a: i64, b: i64) -> u32
    requires low { pos 0 ≤ℤ int_max a b }
    requires high { int_max a b <ℤ pos (2 ^ 32) }
    ensures { pos result ≡ int_max a b }
{
    a.max(b) as u32
}

// The lesser of two numbers, as a place.
fn lesser(a: i64, b: i64) -> u32
    requires low { pos 0 ≤ℤ int_min a b }
    requires high { int_min a b <ℤ pos (2 ^ 32) }
    ensures { pos result ≡ int_min a b }
{
    a.min(b) as u32
}
