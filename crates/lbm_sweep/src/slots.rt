//! The slots at which ranges begin.

ghost use Rattle.std.specs.Prelude.{◌≡◌, ◌<◌, ◌≤◌, ℕ, length, slice_index};
ghost use Rattle.lbm_space.specs.Limits.{most_directions};
ghost use Rattle.lbm_sweep.specs.Held.{BeginAt};

use lbm_arrays::Loan;
use lbm_cell::MAX_Q;

/// For each direction of a set a slot.
pub type Slots = [usize; MAX_Q];

/// For each direction the slot at which the range of its array begins.
pub fn first_slots(loan: &Loan<'_>, arrays: &[usize]) -> Slots
    requires few { length arrays.now ≤ most_directions }
    requires known { (i : ℕ) → i < length arrays.now → slice_index arrays.now i < length loan.now.ranges }
    requires count { length loan.now.ranges ≤ most_directions }
    ensures { BeginAt (length arrays.now) loan.now.place arrays.now result }
{
    let mut slots = [0; MAX_Q];
    for i in 0..arrays.len() {
        slots[i] = loan.first_slot(arrays[i] as u32);
    }
    slots
}
