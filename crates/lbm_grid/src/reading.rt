//! How a slab reads the arrays: places are those of its ranges.

ghost use Rattle.std.specs.Prelude.{◌≡◌, ℕ, ◌+◌, ◌*◌, ◌<◌, ◌≤◌, ◌^◌, true, false, length, pos, ◌+ℤ◌, ◌-ℤ◌, ◌≤ℤ◌, ◌<ℤ◌, slice_index, slice_index_or, unsigned_abs};
ghost use Rattle.lbm_space.specs.Torus.{rows as row_count};
ghost use Rattle.lbm_grid.specs.Near.{is_outside, read_place, reading_of, seen, AreBetween, IsRead};

use crate::strips::{copy_run, strip};
use crate::way::Way;
use lbm_arrays::Loan;
use lbm_space::{Space, VelocitySet};

/// How a slab reads an array: the cell of place p takes what is saved at `at + p - first`, for p from `first` up to, not
/// including, `past`. Any other takes what its range holds `far` places from p: higher where the sweep rises, and lower
/// where it falls.
#[derive(Clone, Copy, Debug, PartialEq, Eq)]
pub(crate) struct Reading {
    pub(crate) first: u32,
    pub(crate) past: u32,
    pub(crate) at: usize,
    pub(crate) far: u32,
}

/// How a slab of these rows reads array `k`, if the room for its strips is that of row `rows.0` in `begins`, among `width`
/// places of each array.
pub(crate) fn reading_for<V: VelocitySet, W: Way>(
    space: &Space,
    begins: &[u32],
    width: usize,
    rows: (u32, u32),
    k: usize,
) -> Reading
    requires direction { k < V.stencil.directions }
    requires dimension { V.stencil.dimension ≡ space.now.dimension }
    requires rows { (rows.0 < rows.1) × (rows.1 ≤ row_count space.now) }
    requires count { length begins.now ≡ row_count space.now }
    requires room { k * width + slice_index begins.now rows.0 < 2 ^ 63 }
    ensures { result ≡ reading_of space.now V.stencil W.RISES begins.now width rows k }
{
    let (first, past) = strip::<V>(space, W::rises(), k, rows);
    let start = space.row_start(rows.0);
    let off = space.offset::<V>(k);
    Reading {
        first: taker(first, off, start),
        past: taker(past, off, start),
        at: k * width + begins[rows.0 as usize] as usize,
        far: far::<W>(space.reach::<V>(), off),
    }
}

// The place of the cell that takes its population from padded place `q`, an offset before it, in a slab whose ranges
// begin with padded place `start`.
fn taker(q: u32, off: i64, start: u32) -> u32
    requires low { pos start ≤ℤ (pos q +ℤ off) }
    requires high { (pos q +ℤ off) <ℤ pos (2 ^ 32) }
    ensures { result ≡ unsigned_abs ((pos q +ℤ off) -ℤ pos start) }
{
    (i64::from(q) + off - i64::from(start)) as u32
}

// How far from its own place a cell reads along this offset.
fn far<W: Way>(reach: u32, off: i64) -> u32
    requires low { (pos 0 -ℤ pos reach) ≤ℤ off }
    requires high { off ≤ℤ pos reach }
    requires few { reach < 2 ^ 31 }
    ensures rises { W.RISES ≡ true → result ≡ unsigned_abs (pos reach -ℤ off) }
    ensures falls { W.RISES ≡ false → result ≡ unsigned_abs (pos reach +ℤ off) }
{
    let reach = i64::from(reach);
    if W::rises() {
        (reach - off) as u32
    } else {
        (reach + off) as u32
    }
}

/// From which place up to, not including, which other one the strips of all arrays lie.
pub(crate) fn bounds<V: VelocitySet>(readings: &[Reading]) -> (u32, u32)
    requires { V.stencil.directions ≤ length readings.now }
    ensures { AreBetween V.stencil.directions result.0 result.1 readings.now }
{
    let mut least = u32::MAX;
    let mut most = 0;
    for k in 0..V::Q {
        least = least.min(readings[k].first);
        most = most.max(readings[k].past);
    }
    (least, most)
}

/// Whether none of the eight places from `at` on is one of those from `least` up to, not including, `most`.
#[inline(always)]
pub(crate) fn is_outside(least: u32, most: u32, at: u32) -> bool
    ensures { result ≡ is_outside least most at 8 }
{
    most <= at || at < least && least - at >= 8
}

/// What cells take from an array: those of the `n` places, 1 to 8, from `at` on. Its range begins at slot `slot` of the
/// loan. The other lanes are 0.
#[inline(never)]
pub(crate) fn lanes_near<W: Way>(
    loan: &Loan<'_>,
    saved: &[i64],
    slot: usize,
    reading: Reading,
    at: u32,
    n: u32,
) -> [i64; 8]
    requires some { 1 ≤ n }
    requires few { n ≤ 8 }
    requires there { (k : ℕ) × IsRead W.RISES (length saved.now) loan.now slot k reading at n }
    ensures cells { (k j : ℕ) → IsRead W.RISES (length saved.now) loan.now slot k reading at n → j < n → slice_index_or result j (pos 0) ≡ seen W.RISES saved.now loan.now.ranges k reading (at + j) }
    ensures others { (j : ℕ) → n ≤ j → slice_index_or result j (pos 0) ≡ pos 0 }
{
    if at + n <= reading.first || reading.past <= at {
        loan.load_at(slot, place_near::<W>(at, reading.far), n)
    } else {
        lanes_saved::<W>(loan, saved, slot, reading, at, n)
    }
}

// The same where what some of the cells take is saved.
fn lanes_saved<W: Way>(
    loan: &Loan<'_>,
    saved: &[i64],
    slot: usize,
    reading: Reading,
    at: u32,
    n: u32,
) -> [i64; 8]
    requires some { 1 ≤ n }
    requires few { n ≤ 8 }
    requires there { (k : ℕ) × IsRead W.RISES (length saved.now) loan.now slot k reading at n }
    ensures cells { (k j : ℕ) → IsRead W.RISES (length saved.now) loan.now slot k reading at n → j < n → slice_index_or result j (pos 0) ≡ seen W.RISES saved.now loan.now.ranges k reading (at + j) }
    ensures others { (j : ℕ) → n ≤ j → slice_index_or result j (pos 0) ≡ pos 0 }
{
    let mut lanes = [0; 8];
    if reading.first <= at && at + n <= reading.past {
        let from = reading.at + (at - reading.first) as usize;
        copy_run(&mut lanes, 0, saved, from, n as usize);
        return lanes;
    }
    for j in 0..n {
        lanes[j as usize] = lane_near::<W>(loan, saved, slot, reading, at + j);
    }
    lanes
}

// What the cell of one place takes.
fn lane_near<W: Way>(
    loan: &Loan<'_>,
    saved: &[i64],
    slot: usize,
    reading: Reading,
    place: u32,
) -> i64
    requires there { (k : ℕ) × IsRead W.RISES (length saved.now) loan.now slot k reading place 1 }
    ensures { (k : ℕ) → IsRead W.RISES (length saved.now) loan.now slot k reading place 1 → result ≡ seen W.RISES saved.now loan.now.ranges k reading place }
{
    if reading.first <= place && place < reading.past {
        return saved[reading.at + (place - reading.first) as usize];
    }
    loan.load_at(slot, place_near::<W>(place, reading.far), 1)[0]
}

/// The place of the range that the cell of a place reads.
#[inline(always)]
pub(crate) fn place_near<W: Way>(place: u32, far: u32) -> u32
    requires low { W.RISES ≡ false → far ≤ place }
    requires high { read_place W.RISES far place < 2 ^ 32 }
    ensures { result ≡ read_place W.RISES far place }
{
    W::place_behind(place, far)
}
