//! The padded lattice: the cells with one more place on either side of each axis, so that every neighbour
//! of a cell has a place of its own. A plane has no pads above or below it.

ghost use Rattle.std.specs.Prelude.{◌≡◌, ℕ, ◌+◌, ◌-◌, ◌<◌, ◌≤◌, ◌%◌, ◌/◌, ◌^◌, ℤ, pos, ◌+ℤ◌, ◌-ℤ◌, ◌*ℤ◌, ◌≤ℤ◌, unsigned_abs, ◌*◌};
ghost use Rattle.std.specs.Int.{int_max};
ghost use Rattle.lbm_space.specs.Limits.{greatest_side, most_places};
ghost use Rattle.lbm_space.specs.Stencil.{Stencil, IsVelocitySet, velocity, part};
ghost use Rattle.lbm_space.specs.Torus.{Torus, IsSpace, cells, rows, padded, back, modulo, cell_number};
ghost use Rattle.lbm_space.specs.Padded.{padded_box, pads_below, padded_index, offset, reach, wrap, place_before, row_start};

use crate::set::VelocitySet;
use crate::space::Space;

impl Space {
    /// The padded place of a cell.
    pub fn padded_index(&self, cell: u32) -> u32
        requires { cell < cells self.now }
        ensures valid { IsSpace self.now }
        ensures index { result ≡ padded_index self.now cell }
        ensures known { result < padded self.now }
        ensures wraps { wrap self.now result ≡ cell }
    {
        let below = self.pads_below();
        let at = self.coords(cell);
        self.place(at[0] + 1, at[1] + 1, at[2] + below)
    }

    /// How far the padded places of two neighbours along direction `i` are apart, without wrapping.
    pub fn offset<V: VelocitySet>(&self, i: usize) -> i64
        requires direction { i < V.stencil.directions }
        requires dimension { V.stencil.dimension ≡ self.now.dimension }
        ensures valid { IsSpace self.now }
        ensures value { result ≡ offset self.now (velocity V.stencil i) }
        ensures low { (pos 0 -ℤ pos (reach self.now V.stencil)) ≤ℤ result }
        ensures high { result ≤ℤ pos (reach self.now V.stencil) }
    {
        let c = V::c(i);
        let sides = self.sides();
        distance(c, sides[0], sides[1])
    }

    /// The greatest offset of the set's directions.
    pub fn reach<V: VelocitySet>(&self) -> u32
        requires { V.stencil.dimension ≡ self.now.dimension }
        ensures valid { IsSpace self.now }
        ensures value { result ≡ reach self.now V.stencil }
        ensures greatest { (i : ℕ) → i < V.stencil.directions → offset self.now (velocity V.stencil i) ≤ℤ pos result }
        ensures reached { (i : ℕ) × (i < V.stencil.directions) × (offset self.now (velocity V.stencil i) ≡ pos result) }
        ensures small { result < padded self.now }
    {
        let mut greatest = self.offset::<V>(0);
        for i in 1..V::Q {
            greatest = greatest.max(self.offset::<V>(i));
        }
        greatest as u32
    }

    /// The cell for which a padded place stands, on the torus.
    pub fn wrap(&self, p: u32) -> u32
        requires { p < padded self.now }
        ensures valid { IsSpace self.now }
        ensures cell { result ≡ wrap self.now p }
        ensures known { result < cells self.now }

        // From a cell's place, an offset back leads to a place that stands for the cell behind.
        ensures behind { (v : Stencil) (i cell : ℕ) → IsVelocitySet v → v.dimension ≡ self.now.dimension → i < v.directions → cell < cells self.now → pos p ≡ (pos (padded_index self.now cell) -ℤ offset self.now (velocity v i)) → result ≡ back self.now (velocity v i) cell }
    {
        let sides = self.sides();
        let line = p / (sides[0] + 2);
        let x = wrapped(p % (sides[0] + 2), 1, sides[0]);
        let y = wrapped(line % (sides[1] + 2), 1, sides[1]);
        let z = wrapped(line / (sides[1] + 2), self.pads_below(), sides[2]);
        self.cell_number(x, y, z)
    }

    /// The padded place left of the first cell of a row; for the number of rows, the place at which the last row ends.
    pub fn row_start(&self, row: u32) -> u32
        requires { row ≤ rows self.now }
        ensures valid { IsSpace self.now }
        ensures start { result ≡ row_start self.now row }
        ensures inside { result + self.now.nx + 2 ≤ padded self.now }
        ensures cells { (cell : ℕ) → cell < cells self.now → cell / self.now.nx ≡ row → padded_index self.now cell ≡ result + 1 + cell % self.now.nx }
    {
        if row < self.rows() {
            return self.place_before(row);
        }
        self.place_before(row - 1) + self.sides()[0] + 2
    }

    // How many layers of pads lie below the cells.
    fn pads_below(&self) -> u32
        ensures valid { IsSpace self.now }
        ensures count { result ≡ pads_below self.now }
    {
        if self.dim() == 2 { 0 } else { 1 }
    }

    // The number of a place in the padded box.
    fn place(&self, x: u32, y: u32, z: u32) -> u32
        requires x_known { x < (padded_box self.now).nx }
        requires y_known { y < (padded_box self.now).ny }
        requires z_known { z < (padded_box self.now).nz }
        ensures number { result ≡ cell_number (padded_box self.now) x y z }
        ensures known { result < padded self.now }
    {
        let sides = self.sides();
        x + (sides[0] + 2) * (y + (sides[1] + 2) * z)
    }

    // The place left of the first cell of a row.
    fn place_before(&self, row: u32) -> u32
        requires { row < rows self.now }
        ensures place { result ≡ place_before self.now row }
        ensures known { result < padded self.now }
    {
        let ny = self.sides()[1];
        self.place(0, row % ny + 1, row / ny + self.pads_below())
    }
}

// How far two places are apart whose coordinates differ by c, where the cells' sides are nx and ny.
fn distance(c: [i64; 3], nx: u32, ny: u32) -> i64
    requires unit { (a : ℕ) → a < 3 → unsigned_abs (part c a) ≤ 1 }
    requires sides { (nx ≤ greatest_side) × (ny ≤ greatest_side) }
    ensures { result ≡ (part c 0 +ℤ pos (nx + 2) *ℤ (part c 1 +ℤ pos (ny + 2) *ℤ part c 2)) }
{
    let lines = apart(c[1], ny, c[2]);
    apart(c[0], nx, lines)
}

// How far two places are apart of which one lies `lines` padded lines and `step` places farther.
fn apart(step: i64, side: u32, lines: i64) -> i64
    requires step { unsigned_abs step ≤ 1 }
    requires side { side ≤ greatest_side }
    requires lines { unsigned_abs lines ≤ 4099 }
    ensures value { result ≡ (step +ℤ pos (side + 2) *ℤ lines) }
    ensures size { unsigned_abs result ≤ 1 + (side + 2) * unsigned_abs lines }
{
    let width = i64::from(side) + 2;
    step + width * lines
}

// The coordinate on a ring of `side` places of the padded coordinate `place`, where `pads` places lie before the ring.
fn wrapped(place: u32, pads: u32, side: u32) -> u32
    requires side { (0 < side) × (side ≤ greatest_side) }
    requires pads { pads ≤ 1 }
    requires place { place ≤ most_places }
    ensures { result ≡ modulo (pos place -ℤ pos pads) side }
{
    (place + side - pads) % side
}
