//! The pads of the arrays that are exchanged ahead.

ghost use Rattle.std.specs.Prelude.{◌≡◌, ◌<◌, ◌≤◌, ℕ, nat_lt};
ghost use Rattle.lbm_space.specs.Stencil.{opposite};
ghost use Rattle.lbm_space.specs.Torus.{cells, padded};
ghost use Rattle.lbm_arrays.specs.Arrays.{held};
ghost use Rattle.lbm_arrays.specs.Pads.{place_slot, stand};
ghost use Rattle.lbm_swap.specs.Exchange.{loaded_place, met_place};

use lbm_arrays::Region;
use lbm_space::VelocitySet;
use std::alloc::Allocator;

/// Gives each pad of the array of the lesser direction of each pair the value of the interior slot for which it stands.
/// Padded place 0 is slot `base` of an array.
pub(crate) fn load_pads_ahead<V: VelocitySet, A: Allocator>(region: &mut Region<A>, base: u32)
    requires count { region.old.count ≡ V.stencil.directions }
    requires base { base ≤ region.old.margin }
    ensures loaded { (k p : ℕ) → k < V.stencil.directions → p < padded region.old.space → held region.new.slots (place_slot region.old.space region.old.margin k base p) ≡ held region.old.slots (place_slot region.old.space region.old.margin k base (loaded_place region.old.space V.stencil k p)) }
    ensures same { region.new ≡ record region.old { slots = region.new.slots } }
{
    // Its type keeps the sizes of a region.
    let _ = region.slots();
    for dir in 0..V::Q {
        if is_lesser::<V>(dir) {
            region.load_pads(dir as u32, base);
        }
    }
}

/// Gives, for each cell and array, what stands where the cell has exchanged to the interior slot for which that place
/// stands. Padded place 0 is slot `base` of an array.
pub(crate) fn store_pads_ahead<V: VelocitySet, A: Allocator>(region: &mut Region<A>, base: u32)
    requires dimension { V.stencil.dimension ≡ region.old.space.dimension }
    requires count { region.old.count ≡ V.stencil.directions }
    requires base { base ≤ region.old.margin }
    ensures stored { (k cell : ℕ) → k < V.stencil.directions → cell < cells region.old.space → held region.new.slots (place_slot region.old.space region.old.margin k base (stand region.old.space (met_place region.old.space V.stencil k cell))) ≡ held region.old.slots (place_slot region.old.space region.old.margin k base (met_place region.old.space V.stencil k cell)) }
    ensures same { region.new ≡ record region.old { slots = region.new.slots } }
{
    // Its type keeps the sizes of a region.
    let _ = region.slots();
    for dir in 0..V::Q {
        if is_lesser::<V>(dir) {
            region.store_pads::<V>(dir as u32, base);
        }
    }
}

// Is it the lesser direction of a pair of opposites?
fn is_lesser<V: VelocitySet>(dir: usize) -> bool
    requires { dir < V.stencil.directions }
    ensures { result ≡ nat_lt dir (opposite V.stencil dir) }
{
    dir < V::opp(dir)
}
