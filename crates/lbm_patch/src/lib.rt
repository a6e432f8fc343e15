//! The places of a slice, shared out among owners that each hold some of them.
//!
//! A `Patch` is raw memory with a list of flags that contracts see: which places it holds. It is split and merged
//! without a word being moved, and its parts may be used in different threads. `lend` makes one of a whole slice.
#![tactic(auto)]

ghost use Rattle.std.specs.Prelude.{◌≡◌, ◌^◌, ◌<◌, ◌+◌, ℕ, false, Bool, List, [], ◌∷◌, length, IsTrue, slice_index_or, slice_set};
ghost use Rattle.core.specs.Mem.Slots.{slots_ptr, slots_len, slots_items, slots_filled, IsFull};
ghost use Rattle.core.specs.Mem.Slots.Ownership.{lent, Filled};
ghost use Rattle.lbm_patch.specs.Ownership.{holds};
ghost use Rattle.lbm_patch.specs.Masks.{both, without, either, picked, mask};
ghost use Rattle.lbm_patch.specs.Written.{written};

use core::slots::Slots;
use std::marker::{Model, Send};

mod lends;

pub use lends::lend;

/// An owner of those places of a row at which `mine` says true. `items` gives their values in the row's order; what it
/// gives for a place of another owner means nothing.
#[derive(Drop)]
pub struct Patch<T> {
    ptr: *mut T,
    len: usize,
    pub ghost items: { List T },
    pub ghost mine: { List Bool },
    pub ghost ok: { (len ≡ length items) × (len ≡ length mine) },
    pub ghost small: { len < 2 ^ 64 },
}

impl<T> Model for Patch<T> {
    ghost also_owns = { λ a. holds T.row a.ptr a.len a.mine a.items };

    ghost also_shares = { λ a _ κ. lent T.row a.ptr a.len a.items a.mine κ };
}

unsafe impl<T: Send> Send for Patch<T> {}

impl<T> Patch<T> {
    /// The places of a row that hold a value. An empty place is given up.
    pub fn of(row: Slots<T>) -> Patch<T>
        ensures places { (result.ptr ≡ slots_ptr row) × (result.len ≡ slots_len row) }
        ensures values { (result.items ≡ slots_items row) × (result.mine ≡ slots_filled row) }
    {
        unsafe {
            let (ptr, len) = row.into_raw_parts();
            Patch { ptr, len }
        }
    }

    /// The row again, once all its places are back.
    pub fn into_slots(self) -> Slots<T>
        requires { Filled self.mine 0 self.len }
        ensures places { (slots_ptr result ≡ self.ptr) × (slots_len result ≡ self.len) }
        ensures values { (slots_items result ≡ self.items) × (slots_filled result ≡ self.mine) }
    {
        let Patch { ptr, len } = self;
        unsafe { Slots::from_raw_parts(ptr, len) }
    }

    /// What place `i` holds, which must be one of the patch.
    pub fn get(&self, i: usize) -> &T
        requires { (i < self.now.len) × IsTrue (slice_index_or self.now.mine i false) }
        ensures { result.now ≡ slice_index_or self.now.items i result.now }
    {
        unsafe { &*self.ptr.add(i) }
    }

    /// Writes over place `i`, which must be one of the patch. What was there is not dropped.
    pub fn put(&mut self, i: usize, x: T)
        requires { (i < self.old.len) × IsTrue (slice_index_or self.old.mine i false) }
        ensures items { self.new.items ≡ slice_set self.old.items i x }
        ensures mine { self.new.mine ≡ self.old.mine }
        ensures places { (self.new.ptr ≡ self.old.ptr) × (self.new.len ≡ self.old.len) }
    {
        unsafe { self.ptr.add(i).write(x) }
    }

    /// Writes over the four places from `i` on, which must be of the patch, by one load of its pointer. What was there is not
    /// dropped.
    pub fn put_four(&mut self, i: usize, a: T, b: T, c: T, d: T)
        requires { (j : ℕ) → j < 4 → (i + j < self.old.len) × IsTrue (slice_index_or self.old.mine (i + j) false) }
        ensures items { self.new.items ≡ written self.old.items i (a ∷ b ∷ c ∷ d ∷ []) }
        ensures mine { self.new.mine ≡ self.old.mine }
        ensures places { (self.new.ptr ≡ self.old.ptr) × (self.new.len ≡ self.old.len) }
    {
        unsafe {
            let to = self.ptr.add(i);
            to.write(a);
            to.add(1).write(b);
            to.add(2).write(c);
            to.add(3).write(d);
        }
    }

    /// The places of some ranges, and the others: the ranges from `first + lo` up to, not including, `first + hi`, for
    /// each of the firsts. The arguments only name them: nothing is read or moved.
    pub fn split(self, _firsts: &[usize], _lo: usize, _hi: usize) -> (Patch<T>, Patch<T>)
        ensures first { (result.0.ptr ≡ self.ptr) × (result.0.len ≡ self.len) × (result.0.items ≡ self.items) × (result.0.mine ≡ both self.mine (mask _firsts.now _lo _hi self.len)) }
        ensures second { (result.1.ptr ≡ self.ptr) × (result.1.len ≡ self.len) × (result.1.items ≡ self.items) × (result.1.mine ≡ without self.mine (mask _firsts.now _lo _hi self.len)) }
    {
        let Patch { ptr, len } = self;
        (Patch { ptr, len }, Patch { ptr, len })
    }

    /// The places of both parts, which are of one row.
    pub fn merge(self, other: Patch<T>) -> Patch<T>
        requires { (other.ptr ≡ self.ptr) × (other.len ≡ self.len) }
        ensures places { (result.ptr ≡ self.ptr) × (result.len ≡ self.len) }
        ensures items { result.items ≡ picked self.mine self.items other.items }
        ensures mine { result.mine ≡ either self.mine other.mine }
    {
        let Patch { ptr, len } = self;
        let Patch { ptr: _, len: _ } = other;
        Patch { ptr, len }
    }
}
