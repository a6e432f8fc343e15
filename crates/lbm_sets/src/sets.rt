//! Two velocity sets in space. Direction 0 rests, and the others stand in pairs: a velocity, and then its reverse.

ghost use Rattle.std.specs.Prelude.{pos, refl};
ghost use Rattle.lbm_sets.specs.Tables.{d3q15, d3q27};
ghost use Rattle.lbm_sets.specs.Laws.{d3q15_laws, d3q27_laws};

use lbm_space::VelocitySet;

/// Fifteen directions in space: rest, the six neighbours along an axis, the eight along a diagonal of the cube
/// (Krüger et al., *The Lattice Boltzmann Method*, the chapter on the method).
#[derive(Clone, Copy)]
pub struct D3Q15;

static D3Q15_VELOCITIES: [[i64; 3]; 15] = [
    [0, 0, 0],
    [1, 0, 0],
    [-1, 0, 0],
    [0, 1, 0],
    [0, -1, 0],
    [0, 0, 1],
    [0, 0, -1],
    [1, 1, 1],
    [-1, -1, -1],
    [1, 1, -1],
    [-1, -1, 1],
    [1, -1, 1],
    [-1, 1, -1],
    [-1, 1, 1],
    [1, -1, -1],
];

static D3Q15_WEIGHTS: [i64; 15] = [16, 8, 8, 8, 8, 8, 8, 1, 1, 1, 1, 1, 1, 1, 1];

static D3Q15_OPPOSITES: [usize; 15] = [0, 2, 1, 4, 3, 6, 5, 8, 7, 10, 9, 12, 11, 14, 13];

impl VelocitySet for D3Q15 {
    const Q: usize = 15;

    const DEN: i64 = 72;

    const DIM: usize = 3;

    ghost Q = { 15 };

    ghost DEN = { pos 72 };

    ghost DIM = { 3 };

    ghost stencil = { d3q15 };

    ghost constants = { (refl, refl, refl) };

    ghost laws = { d3q15_laws };

    #[inline]
    fn c(i: usize) -> [i64; 3] {
        D3Q15_VELOCITIES[i]
    }

    #[inline]
    fn w(i: usize) -> i64 {
        D3Q15_WEIGHTS[i]
    }

    #[inline]
    fn opp(i: usize) -> usize {
        D3Q15_OPPOSITES[i]
    }
}

/// Twenty-seven directions in space: rest and all neighbours, six along an axis, twelve along a diagonal of a plane
/// and eight along one of the cube (Krüger et al., *The Lattice Boltzmann Method*, the chapter on the method).
#[derive(Clone, Copy)]
pub struct D3Q27;

static D3Q27_VELOCITIES: [[i64; 3]; 27] = [
    [0, 0, 0],
    [1, 0, 0],
    [-1, 0, 0],
    [0, 1, 0],
    [0, -1, 0],
    [0, 0, 1],
    [0, 0, -1],
    [1, 1, 0],
    [-1, -1, 0],
    [1, 0, 1],
    [-1, 0, -1],
    [0, 1, 1],
    [0, -1, -1],
    [1, -1, 0],
    [-1, 1, 0],
    [1, 0, -1],
    [-1, 0, 1],
    [0, 1, -1],
    [0, -1, 1],
    [1, 1, 1],
    [-1, -1, -1],
    [1, 1, -1],
    [-1, -1, 1],
    [1, -1, 1],
    [-1, 1, -1],
    [-1, 1, 1],
    [1, -1, -1],
];

static D3Q27_WEIGHTS: [i64; 27] = [
    64, 16, 16, 16, 16, 16, 16, 4, 4, 4, 4, 4, 4, 4, 4, 4, 4, 4, 4, 1, 1, 1, 1, 1, 1, 1, 1,
];

static D3Q27_OPPOSITES: [usize; 27] = [
    0, 2, 1, 4, 3, 6, 5, 8, 7, 10, 9, 12, 11, 14, 13, 16, 15, 18, 17, 20, 19, 22, 21, 24, 23, 26,
    25,
];

impl VelocitySet for D3Q27 {
    const Q: usize = 27;

    const DEN: i64 = 216;

    const DIM: usize = 3;

    ghost Q = { 27 };

    ghost DEN = { pos 216 };

    ghost DIM = { 3 };

    ghost stencil = { d3q27 };

    ghost constants = { (refl, refl, refl) };

    ghost laws = { d3q27_laws };

    #[inline]
    fn c(i: usize) -> [i64; 3] {
        D3Q27_VELOCITIES[i]
    }

    #[inline]
    fn w(i: usize) -> i64 {
        D3Q27_WEIGHTS[i]
    }

    #[inline]
    fn opp(i: usize) -> usize {
        D3Q27_OPPOSITES[i]
    }
}
