//! The case of a flow.

ghost use Rattle.std.specs.Prelude.{◌≡◌, ◌≢◌, ◌<◌, ◌≤◌, ◌+◌, ◌==◌, ◌&&◌, ◌∷◌, [], ℕ, ℤ, pos, nat_eq, nat_lt, nat_le, length, slice_index};
ghost use Rattle.std.specs.Int.{bit_at};
ghost use Rattle.std.specs.List.{list_any};
ghost use Rattle.std.specs.List.Sorted.{IsStrictlyIncreasing};
ghost use Rattle.lbm_space.specs.Torus.{cells};
ghost use Rattle.lbm_cell.specs.Limits.{least_density, greatest_first_density};

use crate::sets::SetKind;
use lbm_cell::{Force, Rates};
use lbm_space::Space;
use std::marker::Model;
use std::simd::prelude::*;

/// All that a flow depends on, in lattice units: the velocity set, the box of cells, the first density and
/// momentum of its cells, the rates of relaxation, the force, and the walls that move.
#[derive(Debug, Drop)]
pub struct Case {
    set: SetKind,
    space: Space,
    densities: Vec<u32>,
    moving: Vec<u32>,
    rates: Rates,
    force: Force,
    momentum: [i64; 3],
    wall: Force,
}

/// The walls that move: solid cells in rising order, and their velocity, whose parts past the dimension are 0.
#[derive(Debug, Drop)]
pub struct MovingWalls {
    pub cells: Vec<u32>,
    pub velocity: Force,
}

impl Model for Case {
    ghost use Rattle.lbm_model.specs.Case.{FlowCase, IsCase};

    ghost Value = { FlowCase };

    ghost use Rattle.lbm_model.specs.Sets.{case_of};

    ghost view = { λ c.
        case_of c.set c.space c.densities.items c.moving.items c.rates c.force c.momentum c.wall };

    ghost invariant = { λ c.
        IsCase (case_of c.set c.space c.densities.items c.moving.items c.rates c.force c.momentum c.wall) };
}

impl Case {
    ghost use Rattle.lbm_model.specs.Case.{IsCase, AreDensities, AreMoving, IsMomentum, IsFlat};
    ghost use Rattle.lbm_model.specs.Case.{first_density, is_solid, is_moving, any_moving};
    ghost use Rattle.lbm_model.specs.Sets.{stencil_of, case_of};

    /// A case without moving walls.
    ///
    /// `densities` has the first density of each cell in order: 0 is a solid cell, and a fluid cell has 442,368,
    /// half the unit, to 4,194,304. A part of `momentum`, the first momentum of each fluid cell, is at most
    /// 884,736 in size, and 0 past the dimension.
    pub fn new(
        set: SetKind,
        space: Space,
        densities: Vec<u32>,
        rates: Rates,
        force: Force,
        momentum: [i64; 3],
    ) -> Case
        requires dimension { space.dimension ≡ (stencil_of set).dimension }
        requires densities { AreDensities space densities.items }
        requires momentum { IsMomentum (stencil_of set).dimension momentum }
        ensures { let still = pos 0 ∷ pos 0 ∷ pos 0 ∷ [] in
            result ≡ case_of set space densities.items [] rates force momentum still }
    {
        let walls = MovingWalls {
            cells: Vec::new(*densities.allocator()),
            velocity: Force::new(0, 0, 0).unwrap(),
        };
        Case::with_wall(set, space, densities, rates, force, momentum, walls)
    }

    /// A case with moving walls. All else is as for a case without them.
    pub fn with_wall(
        set: SetKind,
        space: Space,
        densities: Vec<u32>,
        rates: Rates,
        force: Force,
        momentum: [i64; 3],
        walls: MovingWalls,
    ) -> Case
        requires dimension { space.dimension ≡ (stencil_of set).dimension }
        requires densities { AreDensities space densities.items }
        requires moving { AreMoving densities.items walls.cells.items }
        requires momentum { IsMomentum (stencil_of set).dimension momentum }
        requires wall { IsFlat (stencil_of set).dimension walls.velocity }
        ensures { result ≡ case_of set space densities.items walls.cells.items rates force momentum walls.velocity }
    {
        let MovingWalls { cells, velocity } = walls;
        // Their types keep these in range.
        let _ = (space.cells(), rates.q(), force.parts(), velocity.parts());
        Case {
            set,
            space,
            densities,
            moving: cells,
            rates,
            force,
            momentum,
            wall: velocity,
        }
    }

    /// The velocity set.
    pub fn set(&self) -> SetKind
        ensures stencil { self.now.stencil ≡ stencil_of result }
        ensures valid { IsCase self.now }
    {
        self.set
    }

    /// The box of cells.
    pub fn space(&self) -> &Space
        ensures value { result.now ≡ self.now.torus }
        ensures valid { IsCase self.now }
    {
        &self.space
    }

    /// Whether the cell is solid.
    pub fn is_solid(&self, cell: u32) -> bool
        requires { cell < cells self.now.torus }
        ensures value { result ≡ is_solid self.now cell }
        ensures valid { IsCase self.now }
    {
        self.densities[cell as usize] == 0
    }

    /// Which of the `n` cells from `cell` on are solid, at most eight: bit j stands for the j-th of them.
    #[inline(always)]
    pub fn solid_mask(&self, cell: u32, n: u32) -> u8
        requires few { n ≤ 8 }
        requires cells { cell + n ≤ cells self.now.torus }
        ensures solid { (j : ℕ) → j < n → (bit_at result j == 1) ≡ is_solid self.now (cell + j) }
        ensures past { (j : ℕ) → n ≤ j → bit_at result j ≡ 0 }
        ensures valid { IsCase self.now }
    {
        zeros(numbers_from(&self.densities, cell as usize, n as usize))
    }

    /// The first density of the cell, where 0 is a solid cell.
    pub fn density(&self, cell: u32) -> u32
        requires { cell < cells self.now.torus }
        ensures value { result ≡ first_density self.now cell }
        ensures not_thin { result ≢ 0 → least_density ≤ result }
        ensures not_dense { result ≤ greatest_first_density }
        ensures valid { IsCase self.now }
    {
        self.densities[cell as usize]
    }

    /// The rates of relaxation.
    pub fn rates(&self) -> Rates
        ensures value { result ≡ self.now.rates }
        ensures valid { IsCase self.now }
    {
        self.rates
    }

    /// The force on the fluid.
    pub fn force(&self) -> Force
        ensures value { result ≡ self.now.force }
        ensures valid { IsCase self.now }
    {
        self.force
    }

    /// The first momentum of each fluid cell.
    pub fn momentum(&self) -> [i64; 3]
        ensures value { result ≡ self.now.momentum }
        ensures valid { IsCase self.now }
    {
        self.momentum
    }

    /// Whether the cell is a moving wall.
    pub fn is_moving(&self, cell: u32) -> bool
        ensures value { result ≡ is_moving self.now cell }
        ensures valid { IsCase self.now }
    {
        self.moving.binary_search(&cell).is_ok()
    }

    /// Whether one of the `n` cells from `cell` on is a moving wall.
    #[inline(always)]
    pub fn any_moving(&self, cell: u32, n: u32) -> bool
        requires { 0 < n }
        ensures value { result ≡ any_moving self.now cell n }
        ensures valid { IsCase self.now }
    {
        !self.moving.is_empty() && any_from(&self.moving, cell, n)
    }

    /// The velocity of the moving walls, which is zero in a case without them.
    pub fn wall(&self) -> Force
        ensures value { result ≡ self.now.wall }
        ensures valid { IsCase self.now }
    {
        self.wall
    }
}

// Up to eight numbers from place `at` on, and ones past them.
#[inline(always)]
fn numbers_from(list: &[u32], at: usize, n: usize) -> u32x8
    requires few { n ≤ 8 }
    requires inside { at + n ≤ length list.now }
    ensures numbers { (j : ℕ) → j < n → slice_index result j ≡ slice_index list.now (at + j) }
    ensures past { (j : ℕ) → n ≤ j → j < 8 → slice_index result j ≡ 1 }
    ensures eight { length result ≡ 8 }
{
    if n == 8 {
        return u32x8::from_slice(&list[at..]);
    }
    let mut numbers = [1; 8];
    for j in 0..n {
        numbers[j] = list[at + j];
    }
    u32x8::from_array(numbers)
}

// Which of eight numbers are 0.
#[inline(always)]
fn zeros(numbers: u32x8) -> u8
    requires { length numbers ≡ 8 }
    ensures zero { (j : ℕ) → j < 8 → (bit_at result j == 1) ≡ nat_eq (slice_index numbers j) 0 }
    ensures past { (j : ℕ) → 8 ≤ j → bit_at result j ≡ 0 }
{
    numbers.simd_eq(u32x8::splat(0)).to_bitmask() as u8
}

// Whether numbers that rise have one of the `n` numbers from `first` on.
fn any_from(list: &[u32], first: u32, n: u32) -> bool
    requires rising { IsStrictlyIncreasing list.now }
    requires some { 0 < n }
    ensures { result ≡ list_any (λ y. nat_le first y && nat_lt y (first + n)) list.now }
{
    match list.binary_search(&first) {
        Ok(_) => true,
        Err(i) => i < list.len() && list[i] - first < n,
    }
}
