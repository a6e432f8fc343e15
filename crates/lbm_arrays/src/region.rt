//! One allocation of several arrays.

ghost use Rattle.std.specs.Prelude.{◌≡◌, ℕ, ◌+◌, ◌*◌, ◌<◌, ◌≤◌, pos, replicate, slice_set, IfOk};
ghost use Rattle.lbm_space.specs.Limits.{most_directions};
ghost use Rattle.lbm_space.specs.Torus.{padded};

use lbm_space::{Memory, Space};
use std::alloc::Allocator;
use std::marker::Model;

/// Arrays of one size in one allocation. Each has a slot of 64 signed bits for every padded place of a space, and
/// some more: its margin.
#[derive(Drop)]
pub struct Region<A: Allocator> {
    pub(crate) slots: Vec<i64, A>,
    pub(crate) space: Space,
    count: u32,
    pub(crate) margin: u32,
    // the slots of an array
    size: usize,
}

impl<A: Allocator> Model for Region<A> {
    ghost use Rattle.std.specs.Prelude.{◌≡◌};
    ghost use Rattle.lbm_arrays.specs.Arrays.{Arrays, IsRegion, array_size};

    ghost Value = { Arrays };

    ghost view = { λ r. record { space = r.space; count = r.count; margin = r.margin; slots = r.slots.items } };

    ghost invariant = { λ r. IsRegion (record { space = r.space; count = r.count; margin = r.margin; slots = r.slots.items }) × (r.size ≡ array_size r.space r.margin) };
}

impl<A: Allocator> Region<A> {
    ghost use Rattle.lbm_arrays.specs.Arrays.{IsRegion, array_size, slot_at, held};

    /// A region of `q` arrays of zeros, each of `margin` slots more than the space has padded places. Want of memory is
    /// the only refusal.
    pub fn new(heap: A, space: &Space, q: u32, margin: u32) -> Result<Region<A>, Memory>
        requires some { 1 ≤ q }
        requires few { q ≤ most_directions }
        requires margin { margin ≤ padded space.now }
        ensures { IfOk result (λ r. r ≡ record { space = space.now; count = q; margin = margin; slots = replicate (q * array_size space.now margin) (pos 0) }) }
    {
        let size = margin as usize + space.padded() as usize;
        let slots = Vec::from_elem(heap, 0i64, q as usize * size)?;
        Ok(Region {
            slots,
            space: *space,
            count: q,
            margin,
            size,
        })
    }

    /// All slots, array after array: that of padded place `p` in array `k` is `k * (margin + padded) + base + p`, where
    /// padded place 0 is slot `base` of each array.
    pub fn slots(&self) -> &[i64]
        ensures value { result.now ≡ self.now.slots }
        ensures valid { IsRegion self.now }
    {
        self.slots.as_slice()
    }

    /// What slot `at` of array `dir` holds.
    pub fn get(&self, dir: u32, at: u32) -> i64
        requires dir { dir < self.now.count }
        requires at { at < array_size self.now.space self.now.margin }
        ensures { result ≡ held self.now.slots (slot_at self.now.space self.now.margin dir at) }
    {
        self.slots[dir as usize * self.size + at as usize]
    }

    /// Writes slot `at` of array `dir`.
    pub fn put(&mut self, dir: u32, at: u32, v: i64)
        requires dir { dir < self.old.count }
        requires at { at < array_size self.old.space self.old.margin }
        ensures { self.new ≡ record self.old { slots = slice_set self.old.slots (slot_at self.old.space self.old.margin dir at) v } }
    {
        let i = dir as usize * self.size + at as usize;
        self.slots[i] = v;
    }
}
