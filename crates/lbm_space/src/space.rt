//! The torus of cells.

ghost use Rattle.std.specs.Prelude.{◌≡◌, ◌⊎◌, ◌↔◌, ◌<◌, ◌≤◌, ℕ, ◌+◌, ◌*◌, ◌/◌, ◌%◌, ◌∷◌, [], ℤ, pos, ◌-ℤ◌, unsigned_abs, IfSome, SomeIff, slice_index};
ghost use Rattle.lbm_space.specs.Stencil.{velocity, part};
ghost use Rattle.lbm_space.specs.Torus.{Torus, IsSpace, torus, cells, rows, cell_number, x_of, y_of, z_of, back, modulo, padded};

use crate::constants::{GREATEST_SIDE, MOST_PLACES};
use crate::set::VelocitySet;
use std::marker::Model;

/// A box of cells that is periodic on every axis: its dimension, 2 or 3, and the number of cells on each axis.
#[derive(Clone, Copy, Debug, PartialEq, Eq)]
pub struct Space {
    dim: usize,
    nx: u32,
    ny: u32,
    nz: u32,
}

impl Model for Space {
    ghost Value = { Torus };

    ghost view = { λ s. torus s.dim s.nx s.ny s.nz };

    ghost invariant = { λ s. IsSpace (torus s.dim s.nx s.ny s.nz) };

    ghost inverse = { λ t. record { dim = t.dimension; nx = t.nx; ny = t.ny; nz = t.nz } };
}

impl Space {
    /// A space of these sides, or `None` where a side is 0 or above 4096, a plane is more than one layer
    /// thick, or the padded count is above 4,194,304.
    pub fn new(dim: usize, nx: u32, ny: u32, nz: u32) -> Option<Space>
        requires { (dim ≡ 2) ⊎ (dim ≡ 3) }
        ensures { let t = torus dim nx ny nz in SomeIff result (IsSpace t) t }
    {
        let side = 1..=GREATEST_SIDE;
        if !side.contains(&nx) || !side.contains(&ny) || !side.contains(&nz) {
            return None;
        }
        if dim == 2 && nz != 1 {
            return None;
        }
        let layers = if dim == 2 { 1 } else { u64::from(nz) + 2 };
        if (u64::from(nx) + 2) * (u64::from(ny) + 2) * layers > u64::from(MOST_PLACES) {
            return None;
        }
        Some(Space { dim, nx, ny, nz })
    }

    /// The number of dimensions, 2 or 3.
    pub fn dim(&self) -> usize
        ensures valid { IsSpace self.now }
        ensures value { result ≡ self.now.dimension }
    {
        self.dim
    }

    /// The number of cells on each axis: x, y and z.
    pub fn sides(&self) -> [u32; 3]
        ensures valid { IsSpace self.now }
        ensures value { result ≡ self.now.nx ∷ self.now.ny ∷ self.now.nz ∷ [] }
    {
        [self.nx, self.ny, self.nz]
    }

    /// The number of cells.
    pub fn cells(&self) -> u32
        ensures valid { IsSpace self.now }
        ensures count { result ≡ cells self.now }
    {
        self.nx * self.ny * self.nz
    }

    /// The number of rows: a row is the cells of one y and one z.
    pub fn rows(&self) -> u32
        ensures valid { IsSpace self.now }
        ensures count { result ≡ rows self.now }
    {
        self.ny * self.nz
    }

    /// The number of places that the box has with a layer of padding round it.
    pub fn padded(&self) -> u32
        ensures valid { IsSpace self.now }
        ensures count { result ≡ padded self.now }
    {
        let layers = if self.dim == 2 { 1 } else { self.nz + 2 };
        (self.nx + 2) * (self.ny + 2) * layers
    }

    /// The number of the cell at the coordinates, where x varies fastest.
    pub fn cell_number(&self, x: u32, y: u32, z: u32) -> u32
        requires x_known { x < self.now.nx }
        requires y_known { y < self.now.ny }
        requires z_known { z < self.now.nz }
        ensures number { result ≡ cell_number self.now x y z }
        ensures known { result < cells self.now }
        ensures inverse_x { x_of self.now result ≡ x }
        ensures inverse_y { y_of self.now result ≡ y }
        ensures inverse_z { z_of self.now result ≡ z }
    {
        x + self.nx * (y + self.ny * z)
    }

    /// The coordinates of a cell: x, y and z.
    pub fn coords(&self, cell: u32) -> [u32; 3]
        requires { cell < cells self.now }
        ensures coordinates { result ≡ x_of self.now cell ∷ y_of self.now cell ∷ z_of self.now cell ∷ [] }
        ensures inverse { cell_number self.now (slice_index result 0) (slice_index result 1) (slice_index result 2) ≡ cell }
        ensures x_known { slice_index result 0 < self.now.nx }
        ensures y_known { slice_index result 1 < self.now.ny }
        ensures z_known { slice_index result 2 < self.now.nz }
    {
        let line = cell / self.nx;
        [cell % self.nx, line % self.ny, line / self.ny]
    }

    /// The neighbour from which direction `i` leads to `cell`, on the torus.
    pub fn back<V: VelocitySet>(&self, cell: u32, i: usize) -> u32
        requires cell { cell < cells self.now }
        requires direction { i < V.stencil.directions }
        ensures cell { result ≡ back self.now (velocity V.stencil i) cell }
        ensures known { result < cells self.now }
    {
        let c = V::c(i);
        let at = self.coords(cell);
        let x = behind(at[0], c[0], self.nx);
        let y = behind(at[1], c[1], self.ny);
        let z = behind(at[2], c[2], self.nz);
        self.cell_number(x, y, z)
    }
}

// The coordinate at `x - c` on a ring of `side` places.
fn behind(x: u32, c: i64, side: u32) -> u32
    requires on_ring { x < side }
    requires unit { unsigned_abs c ≤ 1 }
    ensures place { result ≡ modulo (pos x -ℤ c) side }
    ensures on_ring { result < side }
{
    match c {
        0 => x,
        1 if x == 0 => side - 1,
        1 => x - 1,
        _ if x + 1 == side => 0,
        _ => x + 1,
    }
}
