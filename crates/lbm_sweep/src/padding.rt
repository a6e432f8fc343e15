//! The pads of all arrays of a region.

ghost use Rattle.std.specs.Prelude.{◌≡◌, ◌≤◌};
ghost use Rattle.lbm_arrays.specs.Pads.{AreLoaded, AreStored};

use lbm_arrays::Region;
use lbm_space::VelocitySet;
use std::alloc::Allocator;

/// Gives each pad of each array the value of the interior slot for which it stands. Padded place 0 is slot `base` of an
/// array.
pub fn load_all_pads<V: VelocitySet, A: Allocator>(region: &mut Region<A>, base: u32)
    requires count { region.old.count ≡ V.stencil.directions }
    requires base { base ≤ region.old.margin }
    ensures loaded { AreLoaded region.old.space V.stencil.directions region.old.margin base region.old.slots region.new.slots }
    ensures same { region.new ≡ record region.old { slots = region.new.slots } }
{
    // Its type keeps the sizes of a region.
    let _ = region.slots();
    for dir in 0..V::Q {
        region.load_pads(dir as u32, base);
    }
}

/// Gives, for each cell and direction, what stands ahead of the cell in the array of the direction, be it a pad or not,
/// to the interior slot for which that place stands. Padded place 0 is slot `base` of an array.
pub fn store_all_pads<V: VelocitySet, A: Allocator>(region: &mut Region<A>, base: u32)
    requires dimension { V.stencil.dimension ≡ region.old.space.dimension }
    requires count { region.old.count ≡ V.stencil.directions }
    requires base { base ≤ region.old.margin }
    ensures stored { AreStored region.old.space V.stencil region.old.margin base region.old.slots region.new.slots }
    ensures same { region.new ≡ record region.old { slots = region.new.slots } }
{
    // Its type keeps the sizes of a region.
    let _ = region.slots();
    for dir in 0..V::Q {
        region.store_pads::<V>(dir as u32, base);
    }
}
