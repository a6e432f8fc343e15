//! A slice as one patch.

ghost use Rattle.std.specs.Prelude.{◌≡◌};
ghost use Rattle.core.specs.Mem.Slots.{slots_items, Refills};
ghost use Rattle.core.specs.declared.slots.Slots.{Slots as Row};
ghost use Rattle.lbm_patch.specs.declared.Patch.{Patch as Places};
ghost use Rattle.lbm_patch.specs.Whole.{IsOf, IsWhole, IsRefilled};

use crate::Patch;
use core::slots::{Slots, with_slots};
use std::marker::PhantomData;

/// Runs `f` on a patch of all places of `s`. Afterwards `s` holds what the patch that `f` gave back holds.
pub fn lend<T: Copy, R, F: FnOnce(Patch<T>) -> (Patch<T>, R)>(s: &mut [T], f: F) -> R
    requires callable { (a : Places T) → IsWhole a s.old → F.pre f a }
    requires refills { (a : Places T) (out : Places T × R) → IsWhole a s.old → F.post f a out → IsRefilled a out.0 }
    ensures { (a : Places T) × (back : Places T) × IsWhole a s.old × F.post f a (back, result) × (s.new ≡ back.items) }
{
    let mut nothing = ();
    unsafe { with_slots(s, &mut nothing, (f, PhantomData), through::<T, R, F>) }
}

// f, on a row of slots. The mark names R, which the type of f does not.
fn through<T, R, F: FnOnce(Patch<T>) -> (Patch<T>, R)>(
    row: Slots<T>,
    nothing: (),
    given: (F, PhantomData<R>),
) -> (Slots<T>, (), R)
    requires callable { (a : Places T) → IsOf a row → F.pre given.0 a }
    requires refills { (a : Places T) (out : Places T × R) → IsOf a row → F.post given.0 a out → IsRefilled a out.0 }
    ensures refilled { Refills row result.0 }
    ensures ran { (a : Places T) × (back : Places T) × IsOf a row × F.post given.0 a (back, result.2) × (slots_items result.0 ≡ back.items) }
{
    let (f, _mark) = given;
    let (back, r) = f(Patch::of(row));
    (back.into_slots(), nothing, r)
}
