//! What slabs save before a sweep writes.

ghost use Rattle.std.specs.Prelude.{◌≡◌, ◌≢◌, ◌⊎◌, ℕ, ◌+◌, ◌<◌, ◌≤◌, length, IfOk, slice_index};
ghost use Rattle.lbm_space.specs.Torus.{padded, rows as row_count};
ghost use Rattle.lbm_space.specs.Cuttings.{rows_of, slabs_of, first_row};
ghost use Rattle.lbm_arrays.specs.Arrays.{held};
ghost use Rattle.lbm_grid.specs.Strips.{strip_of, first_of, past_of, rooms_of, AreArrays, AreRooms, AreSaved, IsSaved};

use lbm_arrays::{falling_strip, rising_strip};
use lbm_space::{Cutting, Memory, Space, VelocitySet};
use std::alloc::Allocator;

/// The places of array `k` that a slab of these rows saves, from the first up to, not including, the second.
pub(crate) fn strip<V: VelocitySet>(
    space: &Space,
    rises: bool,
    k: usize,
    rows: (u32, u32),
) -> (u32, u32)
    requires direction { k < V.stencil.directions }
    requires dimension { V.stencil.dimension ≡ space.now.dimension }
    requires rows { (rows.0 < rows.1) × (rows.1 ≤ row_count space.now) }
    ensures first { result.0 ≡ first_of (strip_of space.now V.stencil rises k rows.0 rows.1) }
    ensures past { result.1 ≡ past_of (strip_of space.now V.stencil rises k rows.0 rows.1) }
    ensures order { result.0 ≤ result.1 }
    ensures inside { result.1 ≤ padded space.now }
{
    if rises {
        rising_strip::<V>(space, k, rows)
    } else {
        falling_strip::<V>(space, k, rows)
    }
}

/// The room for the strips of a cutting, whichever way the sweep goes: for each array `width` places, of which those from
/// `begins[a]` on are of the slab whose first row is a.
#[derive(Drop)]
pub(crate) struct Strips<A: Allocator> {
    pub(crate) begins: Vec<u32, A>,
    pub(crate) width: usize,
    pub(crate) kept: Vec<i64, A>,
}

impl<A: Allocator> Strips<A> {
    /// Room for the strips of all arrays.
    pub(crate) fn new<V: VelocitySet>(
        heap: A,
        space: &Space,
        cut: &Cutting,
    ) -> Result<Strips<A>, Memory>
    where
        A: Copy,
        requires dimension { V.stencil.dimension ≡ space.now.dimension }
        requires cutting { rows_of cut.now ≡ row_count space.now }
        ensures { IfOk result (λ s. AreRooms space.now V.stencil cut.now s.begins.items s.width (length s.kept.items)) }
    {
        let mut begins = Vec::from_elem(heap, 0u32, space.rows() as usize)?;
        let width = deal::<V>(begins.as_mut_slice(), space, cut) as usize;
        let kept = Vec::from_elem(heap, 0i64, V::Q * width)?;
        Ok(Strips {
            begins,
            width,
            kept,
        })
    }

    /// Saves the strips of all slabs and arrays.
    pub(crate) fn save<V: VelocitySet>(
        &mut self,
        from: &Saved<'_>,
        space: &Space,
        cut: &Cutting,
        rises: bool,
    )
        requires from { AreArrays space.now V.stencil from.now.margin from.now.base from.now.slots.now }
        requires cutting { rows_of cut.now ≡ row_count space.now }
        requires rooms { AreRooms space.now V.stencil cut.now self.old.begins.items self.old.width (length self.old.kept.items) }
        ensures saved { AreSaved space.now V.stencil rises cut.now self.new.begins.items self.new.width from.now.margin from.now.base (slabs_of cut.now) from.now.slots.now self.new.kept.items }
        ensures rooms { AreRooms space.now V.stencil cut.now self.new.begins.items self.new.width (length self.new.kept.items) }
    {
        let rooms = Rooms {
            begins: self.begins.as_slice(),
            width: self.width,
        };
        save_all::<V>(self.kept.as_mut_slice(), &rooms, from, space, cut, rises);
    }
}

/// What is saved from: arrays of `margin` slots more than the space has padded places, of which padded place 0 is slot
/// `base` of each.
#[derive(Drop)]
pub(crate) struct Saved<'a> {
    pub(crate) slots: &'a [i64],
    pub(crate) margin: u32,
    pub(crate) base: u32,
}

// Where the rooms are: that of the slab whose first row is a begins at place `begins[a]` of each array, which has `width`.
#[derive(Drop)]
struct Rooms<'a> {
    begins: &'a [u32],
    width: usize,
}

// Where the room of each slab begins, and how many places all slabs have of an array.
fn deal<V: VelocitySet>(begins: &mut [u32], space: &Space, cut: &Cutting) -> u32
    requires dimension { V.stencil.dimension ≡ space.now.dimension }
    requires cutting { rows_of cut.now ≡ row_count space.now }
    requires rows { length begins.old ≡ row_count space.now }
    ensures rows { length begins.new ≡ row_count space.now }
    ensures begin { (j : ℕ) → j < slabs_of cut.now → slice_index begins.new (first_row cut.now j) ≡ rooms_of space.now V.stencil cut.now j }
    ensures width { result ≡ rooms_of space.now V.stencil cut.now (slabs_of cut.now) }
    ensures few { result ≤ 4194304 }
{
    let reach = space.reach::<V>();
    let mut width = 0;
    for j in 0..cut.slabs() {
        let rows = cut.slab(j);
        begins[rows.0 as usize] = width;
        let places = space.row_start(rows.1) - space.row_start(rows.0);
        width += places.min(2 * reach);
    }
    width
}

// Saves the strips of all slabs and arrays.
fn save_all<V: VelocitySet>(
    kept: &mut [i64],
    rooms: &Rooms<'_>,
    from: &Saved<'_>,
    space: &Space,
    cut: &Cutting,
    rises: bool,
)
    requires from { AreArrays space.now V.stencil from.now.margin from.now.base from.now.slots.now }
    requires cutting { rows_of cut.now ≡ row_count space.now }
    requires rooms { AreRooms space.now V.stencil cut.now rooms.now.begins.now rooms.now.width (length kept.old) }
    ensures saved { AreSaved space.now V.stencil rises cut.now rooms.now.begins.now rooms.now.width from.now.margin from.now.base (slabs_of cut.now) from.now.slots.now kept.new }
    ensures size { length kept.new ≡ length kept.old }
{
    for j in 0..cut.slabs() {
        save_slab::<V>(kept, rooms, from, space, cut, rises, j);
    }
}

// Saves the strips of slab `j`, one of each array.
fn save_slab<V: VelocitySet>(
    kept: &mut [i64],
    rooms: &Rooms<'_>,
    from: &Saved<'_>,
    space: &Space,
    cut: &Cutting,
    rises: bool,
    j: u32,
)
    requires from { AreArrays space.now V.stencil from.now.margin from.now.base from.now.slots.now }
    requires cutting { rows_of cut.now ≡ row_count space.now }
    requires rooms { AreRooms space.now V.stencil cut.now rooms.now.begins.now rooms.now.width (length kept.old) }
    requires slab { j < slabs_of cut.now }
    ensures saved { (k p : ℕ) → k < V.stencil.directions → IsSaved space.now V.stencil rises cut.now rooms.now.begins.now rooms.now.width from.now.margin from.now.base from.now.slots.now kept.new j k p }
    ensures others { (i k p : ℕ) → i < slabs_of cut.now → i ≢ j → k < V.stencil.directions → IsSaved space.now V.stencil rises cut.now rooms.now.begins.now rooms.now.width from.now.margin from.now.base from.now.slots.now kept.old i k p → IsSaved space.now V.stencil rises cut.now rooms.now.begins.now rooms.now.width from.now.margin from.now.base from.now.slots.now kept.new i k p }
    ensures size { length kept.new ≡ length kept.old }
{
    let _slabs = cut.slabs();
    let rows = cut.slab(j);
    let room = rooms.begins[rows.0 as usize] as usize;
    let size = from.margin as usize + space.padded() as usize;
    for k in 0..V::Q {
        let (first, past) = strip::<V>(space, rises, k, rows);
        let place = k * size + (from.base + first) as usize;
        copy_run(
            kept,
            k * rooms.width + room,
            from.slots,
            place,
            (past - first) as usize,
        );
    }
}

/// Copies `n` numbers, from number `place` on, to the places from `at` on.
pub(crate) fn copy_run(to: &mut [i64], at: usize, from: &[i64], place: usize, n: usize)
    requires to { at + n ≤ length to.old }
    requires from { place + n ≤ length from.now }
    ensures copied { (i : ℕ) → i < n → held to.new (at + i) ≡ held from.now (place + i) }
    ensures others { (s : ℕ) → (s < at) ⊎ (at + n ≤ s) → held to.new s ≡ held to.old s }
    ensures size { length to.new ≡ length to.old }
{
    for i in 0..n {
        to[at + i] = from[place + i];
    }
}
