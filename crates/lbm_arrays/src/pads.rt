//! Copying between pads and the interior slots for which they stand. A line of padded places stands for the cells of one
//! line, so lines are copied whole, and only the two ends of a line one by one. The functions below take a copy of the
//! space, whose sides are then not read again after each write to a slot.

ghost use Rattle.std.specs.Prelude.{◌≡◌, ◌⊎◌, ◌+◌, ◌<◌, ◌≤◌, true, ◌↔◌, length, unsigned_abs};
ghost use Rattle.lbm_space.specs.Stencil.{velocity, part};
ghost use Rattle.lbm_space.specs.Torus.{IsSpace, padded};
ghost use Rattle.lbm_space.specs.Padded.{padded_box, pads_below, offset};
ghost use Rattle.lbm_arrays.specs.Pads.{ring, line_start, stand_start, IsLed, IsUnitVelocity, IsCopied, IsLoaded, IsLoadedIn, IsOnce, IsStored, IsStoredIn};

use crate::Region;
use lbm_space::{Space, VelocitySet};
use std::alloc::Allocator;

impl<A: Allocator> Region<A> {
    /// Gives each pad of an array the value of the interior slot for which it stands. Padded place 0 is slot `base`.
    pub fn load_pads(&mut self, dir: u32, base: u32)
        requires dir { dir < self.old.count }
        requires base { base ≤ self.old.margin }
        ensures loaded { IsLoaded self.old.space self.old.margin dir base self.old.slots self.new.slots }
        ensures same { self.new ≡ record self.old { slots = self.new.slots } }
    {
        let space = self.space;
        let places = space.padded() as usize;
        let first = dir as usize * (self.margin as usize + places) + base as usize;
        load_places(&mut self.slots[first..first + places], &space);
    }

    /// Gives, for each pad of an array that is an interior place plus the offset of direction `dir`, its value to the
    /// interior slot for which it stands. Padded place 0 is slot `base`.
    pub fn store_pads<V: VelocitySet>(&mut self, dir: u32, base: u32)
        requires dir { dir < self.old.count }
        requires direction { dir < V.stencil.directions }
        requires dimension { V.stencil.dimension ≡ self.old.space.dimension }
        requires base { base ≤ self.old.margin }
        ensures stored { IsStored self.old.space self.old.margin dir base (offset self.old.space (velocity V.stencil dir)) self.old.slots self.new.slots }
        ensures once { IsOnce self.old.space (offset self.old.space (velocity V.stencil dir)) }
        ensures same { self.new ≡ record self.old { slots = self.new.slots } }
    {
        let space = self.space;
        let places = space.padded() as usize;
        let first = dir as usize * (self.margin as usize + places) + base as usize;
        let c = V::c(dir as usize);
        store_places(&mut self.slots[first..first + places], &space, &c);
    }
}

// The pads of one array, of which the slice has the padded places.
fn load_places(places: &mut [i64], space: &Space)
    requires all { length places.old ≡ padded space.now }
    ensures loaded { IsLoadedIn space.now 0 (padded space.now) places.old places.new }
    ensures length { length places.new ≡ length places.old }
{
    for z in 0..layers(space) {
        load_layer(places, space, z);
    }
}

// The pads of the layer of padded places of one z.
fn load_layer(places: &mut [i64], space: &Space, z: u32)
    requires all { length places.old ≡ padded space.now }
    requires z { z < (padded_box space.now).nz }
    ensures loaded { IsLoadedIn space.now (line_start space.now 0 z) (line_start space.now 0 (z + 1)) places.old places.new }
    ensures length { length places.new ≡ length places.old }
{
    for y in 0..space.sides()[1] + 2 {
        load_line(places, space, y, z);
    }
}

// The pads of one line. That of a line with cells stands for itself, and its ends alone are pads.
fn load_line(places: &mut [i64], space: &Space, y: u32, z: u32)
    requires all { length places.old ≡ padded space.now }
    requires y { y < space.now.ny + 2 }
    requires z { z < (padded_box space.now).nz }
    ensures loaded { IsLoadedIn space.now (line_start space.now y z) (line_start space.now (y + 1) z) places.old places.new }
    ensures length { length places.new ≡ length places.old }
{
    let nx = space.sides()[0] as usize;
    let first = line_of(space, y, z);
    let cells = stand_of(space, y, z);
    copy_place(places, cells + nx, first);
    copy_run(places, cells + 1, first + 1, nx);
    copy_place(places, cells + 1, first + nx + 1);
}

// The pads of one array to which velocity `c` leads from interior places.
fn store_places(places: &mut [i64], space: &Space, c: &[i64; 3])
    requires all { length places.old ≡ padded space.now }
    requires velocity { IsUnitVelocity space.now c.now }
    requires once { IsOnce space.now (offset space.now c.now) }
    ensures stored { IsStoredIn space.now (offset space.now c.now) 0 (padded space.now) places.old places.new }
    ensures length { length places.new ≡ length places.old }
{
    for z in 0..layers(space) {
        store_layer(places, space, c, z);
    }
}

// Those of the layer of one z.
fn store_layer(places: &mut [i64], space: &Space, c: &[i64; 3], z: u32)
    requires all { length places.old ≡ padded space.now }
    requires velocity { IsUnitVelocity space.now c.now }
    requires once { IsOnce space.now (offset space.now c.now) }
    requires z { z < (padded_box space.now).nz }
    ensures stored { IsStoredIn space.now (offset space.now c.now) (line_start space.now 0 z) (line_start space.now 0 (z + 1)) places.old places.new }
    ensures length { length places.new ≡ length places.old }
{
    for y in 0..space.sides()[1] + 2 {
        store_line(places, space, c, y, z);
    }
}

// Those of one line: as many places as a line has cells, which lie where `c` leads from these, or none.
fn store_line(places: &mut [i64], space: &Space, c: &[i64; 3], y: u32, z: u32)
    requires all { length places.old ≡ padded space.now }
    requires velocity { IsUnitVelocity space.now c.now }
    requires once { IsOnce space.now (offset space.now c.now) }
    requires y { y < space.now.ny + 2 }
    requires z { z < (padded_box space.now).nz }
    ensures stored { IsStoredIn space.now (offset space.now c.now) (line_start space.now y z) (line_start space.now (y + 1) z) places.old places.new }
    ensures length { length places.new ≡ length places.old }
{
    if !is_ahead(space, c, y, z) {
        return;
    }
    let nx = space.sides()[0] as usize;
    let first = line_of(space, y, z);
    let cells = stand_of(space, y, z);
    if c[0] == 0 {
        copy_run(places, first + 1, cells + 1, nx);
    } else if c[0] == 1 {
        copy_run(places, first + 2, cells + 2, nx - 1);
        copy_place(places, first + nx + 1, cells + 1);
    } else {
        copy_place(places, first, cells + nx);
        copy_run(places, first + 1, cells + 1, nx - 1);
    }
}

// Does `c` lead from lines with cells to the line of this y and z?
fn is_ahead(space: &Space, c: &[i64; 3], y: u32, z: u32) -> bool
    requires velocity { IsUnitVelocity space.now c.now }
    requires y { y < space.now.ny + 2 }
    requires z { z < (padded_box space.now).nz }
    ensures valid { IsSpace space.now }
    ensures ahead { (result ≡ true) ↔ (IsLed 1 space.now.ny (part c.now 1) y × IsLed (pads_below space.now) space.now.nz (part c.now 2) z) }
{
    let sides = space.sides();
    is_led(y, c[1], 1, sides[1]) && is_led(z, c[2], layers_below(space), sides[2])
}

// Does a step of `c` lead from a cell's coordinate to this one, where `pads` places lie before the cells?
fn is_led(place: u32, c: i64, pads: u32, side: u32) -> bool
    requires unit { unsigned_abs c ≤ 1 }
    requires pads { pads ≤ 1 }
    requires side { side ≤ 4096 }
    ensures { (result ≡ true) ↔ IsLed pads side c place }
{
    let from = i64::from(place) - c;
    i64::from(pads) <= from && from < i64::from(pads + side)
}

// The slots of `n` places from `to` on become what those from `from` on are. The same places stay as they are.
fn copy_run(places: &mut [i64], from: usize, to: usize, n: usize)
    requires from { from + n ≤ length places.old }
    requires to { to + n ≤ length places.old }
    requires apart { (from ≡ to) ⊎ ((from + n ≤ to) ⊎ (to + n ≤ from)) }
    ensures copied { IsCopied from to n places.old places.new }
    ensures length { length places.new ≡ length places.old }
{
    if from < to {
        let (front, back) = places.split_at_mut(to);
        back[..n].copy_from_slice(&front[from..from + n]);
    } else if to < from {
        let (front, back) = places.split_at_mut(from);
        front[to..to + n].copy_from_slice(&back[..n]);
    }
}

fn copy_place(places: &mut [i64], from: usize, to: usize)
    requires from { from < length places.old }
    requires to { to < length places.old }
    ensures copied { IsCopied from to 1 places.old places.new }
    ensures length { length places.new ≡ length places.old }
{
    places[to] = places[from];
}

// The place at which the line of a y and a z starts.
fn line_of(space: &Space, y: u32, z: u32) -> usize
    requires y { y < space.now.ny + 2 }
    requires z { z < (padded_box space.now).nz }
    ensures start { result ≡ line_start space.now y z }
    ensures inside { result + (space.now.nx + 2) ≤ padded space.now }
{
    let sides = space.sides();
    (sides[0] as usize + 2) * (y as usize + (sides[1] as usize + 2) * z as usize)
}

// The place at which the line starts for whose cells that line stands.
fn stand_of(space: &Space, y: u32, z: u32) -> usize
    requires y { y < space.now.ny + 2 }
    requires z { z < (padded_box space.now).nz }
    ensures start { result ≡ stand_start space.now y z }
    ensures inside { result + (space.now.nx + 2) ≤ padded space.now }
{
    let sides = space.sides();
    let pads = layers_below(space);
    line_of(space, on_ring(y, 1, sides[1]), on_ring(z, pads, sides[2]))
}

// The coordinate of the cell for which a place stands, where `pads` places lie before the cells and as many behind.
fn on_ring(place: u32, pads: u32, side: u32) -> u32
    requires pads { pads ≤ 1 }
    requires side { (0 < side) × (side ≤ 4096) }
    requires place { place < side + (pads + pads) }
    ensures value { result ≡ ring pads side place }
    ensures inside { result < side + pads }
{
    if place < pads {
        side
    } else if place < side + pads {
        place
    } else {
        pads
    }
}

// How many layers of pads lie below the cells.
fn layers_below(space: &Space) -> u32
    ensures count { result ≡ pads_below space.now }
    ensures few { result ≤ 1 }
{
    if space.dim() == 2 { 0 } else { 1 }
}

// How many layers the padded places have.
fn layers(space: &Space) -> u32
    ensures valid { IsSpace space.now }
    ensures count { result ≡ (padded_box space.now).nz }
{
    if space.dim() == 2 {
        1
    } else {
        space.sides()[2] + 2
    }
}
