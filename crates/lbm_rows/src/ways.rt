//! Where the cells of a tile take their populations and put what they send.

ghost use Rattle.std.specs.Prelude.{◌≡◌, ℕ, ◌*◌, ◌<◌, ◌≤◌, ◌^◌, ◌%◌, nat_eq, Bool, pos, ◌+ℤ◌, unsigned_abs, slice_index, if◌then◌else◌};
ghost use Rattle.lbm_space.specs.Stencil.{opposite, part, velocity};
ghost use Rattle.lbm_rows.specs.TileRows.{AreWays};

use lbm_cell::MAX_Q;
use lbm_space::VelocitySet;
use lbm_sweep::Slots;

/// For each direction the kept row from which the cells of the tile's first row take it, and its slot for the first cell
/// of a row; the same of the kept row into which they put it. Row n has the kept rows that are n further on.
#[derive(Drop)]
pub struct Ways {
    pub takes: Slots,
    pub from: Slots,
    pub puts: Slots,
    pub to: Slots,
}

impl Ways {
    /// The ways of the cells of a tile of so many rows, in a step from this time.
    pub(crate) fn at<V: VelocitySet>(time: u64, height: u32) -> Ways
        ensures { AreWays V.stencil time height result }
    {
        let even = time % 2 == 0;
        let (takes, from) = sides::<V>(!even, even, height as usize);
        let (puts, to) = sides::<V>(even, even, height as usize);
        Ways {
            takes,
            from,
            puts,
            to,
        }
    }
}

// For each direction the first kept row of its array, or of that of the opposite direction where it is turned, and the slot
// of the first cell in it.
fn sides<V: VelocitySet>(turned: bool, even: bool, height: usize) -> (Slots, Slots)
    requires { height < 2 ^ 32 }
    ensures rows { (i : ℕ) → i < V.stencil.directions → slice_index result.0 i ≡ (if turned then opposite V.stencil i else i) * height }
    ensures slots { (i : ℕ) → i < V.stencil.directions → slice_index result.1 i ≡ (if even then 1 else unsigned_abs (pos 1 +ℤ part (velocity V.stencil (if turned then opposite V.stencil i else i)) 0)) }
{
    let mut rows = [0; MAX_Q];
    let mut slots = [0; MAX_Q];
    for i in 0..V::Q {
        let array = array_of::<V>(turned, i);
        rows[i] = array * height;
        slots[i] = first_slot::<V>(even, array);
    }
    (rows, slots)
}

// The direction, or its opposite where it is turned.
fn array_of<V: VelocitySet>(turned: bool, i: usize) -> usize
    requires { i < V.stencil.directions }
    ensures value { result ≡ (if turned then opposite V.stencil i else i) }
    ensures known { result < V.stencil.directions }
{
    if turned { V::opp(i) } else { i }
}

// The slot of the first cell of a row in array k.
fn first_slot<V: VelocitySet>(even: bool, k: usize) -> usize
    requires { k < V.stencil.directions }
    ensures { result ≡ (if even then 1 else unsigned_abs (pos 1 +ℤ part (velocity V.stencil k) 0)) }
{
    if even { 1 } else { (1 + V::c(k)[0]) as usize }
}
