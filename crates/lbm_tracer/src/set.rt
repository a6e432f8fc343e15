//! The directions in which a tracer moves.

ghost use Rattle.std.specs.Prelude.{◌≡◌, ◌<◌, ℕ, pos, unsigned_abs};
ghost use Rattle.lbm_space.specs.Stencil.{velocity, weight, opposite, part};
ghost use Rattle.lbm_space.specs.Torus.{cells, back};
ghost use Rattle.lbm_tracer.specs.Sets.{stencil_of, inverse_sound_squared};
ghost use Rattle.lbm_tracer.specs.Tracing.{set_in};

use lbm_space::{D2Q9, D3Q19, Space};

/// The directions of a tracer: rest and the neighbours along an axis, the first ones of D2Q9 and of D3Q19 (Krüger et al.,
/// *The Lattice Boltzmann Method*, the chapter on advection and diffusion).
#[derive(Clone, Copy, Debug, PartialEq, Eq)]
pub enum TracerSet {
    /// Five directions in the plane.
    D2Q5,
    /// Seven directions in space.
    D3Q7,
}

static D2Q5_VELOCITIES: [[i64; 3]; 5] = [[0, 0, 0], [1, 0, 0], [0, 1, 0], [-1, 0, 0], [0, -1, 0]];

static D3Q7_VELOCITIES: [[i64; 3]; 7] = [
    [0, 0, 0],
    [1, 0, 0],
    [-1, 0, 0],
    [0, 1, 0],
    [0, -1, 0],
    [0, 0, 1],
    [0, 0, -1],
];

static D2Q5_OPPOSITES: [usize; 5] = [0, 3, 4, 1, 2];

static D3Q7_OPPOSITES: [usize; 7] = [0, 2, 1, 4, 3, 6, 5];

impl TracerSet {
    /// The set of a space.
    pub fn of(space: &Space) -> TracerSet
        ensures { stencil_of result ≡ set_in space.now }
    {
        if space.dim() == 2 {
            TracerSet::D2Q5
        } else {
            TracerSet::D3Q7
        }
    }

    /// The number of directions.
    #[inline(always)]
    pub fn q(self) -> usize
        ensures { result ≡ (stencil_of self).directions }
    {
        match self {
            TracerSet::D2Q5 => 5,
            TracerSet::D3Q7 => 7,
        }
    }

    /// The denominator of the weights.
    #[inline(always)]
    pub fn denominator(self) -> i64
        ensures { result ≡ (stencil_of self).denominator }
    {
        match self {
            TracerSet::D2Q5 => 6,
            TracerSet::D3Q7 => 8,
        }
    }

    /// One over the square of the speed of sound.
    #[inline(always)]
    pub fn inverse_sound_squared(self) -> i64
        ensures { result ≡ inverse_sound_squared (stencil_of self) }
    {
        match self {
            TracerSet::D2Q5 => 3,
            TracerSet::D3Q7 => 4,
        }
    }

    /// The velocity of direction `k`: x, y and z.
    #[inline(always)]
    pub fn velocity(self, k: usize) -> [i64; 3]
        requires { k < (stencil_of self).directions }
        ensures { result ≡ velocity (stencil_of self) k }
    {
        match self {
            TracerSet::D2Q5 => D2Q5_VELOCITIES[k],
            TracerSet::D3Q7 => D3Q7_VELOCITIES[k],
        }
    }

    /// The weight of direction `k`, over the denominator.
    #[inline(always)]
    pub fn weight(self, k: usize) -> i64
        requires { k < (stencil_of self).directions }
        ensures { result ≡ weight (stencil_of self) k }
    {
        if k == 0 { 2 } else { 1 }
    }

    /// The direction with the velocity of direction `k` reversed.
    #[inline(always)]
    pub fn opposite(self, k: usize) -> usize
        requires { k < (stencil_of self).directions }
        ensures value { result ≡ opposite (stencil_of self) k }
        ensures known { result < (stencil_of self).directions }
    {
        match self {
            TracerSet::D2Q5 => D2Q5_OPPOSITES[k],
            TracerSet::D3Q7 => D3Q7_OPPOSITES[k],
        }
    }
}
