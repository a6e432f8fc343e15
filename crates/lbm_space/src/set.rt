//! Velocity sets: the directions in which populations move, in the numbering of this project.

ghost use Rattle.std.specs.Prelude.{◌≡◌, ℕ, ℤ, ◌<◌, pos, refl};
ghost use Rattle.lbm_space.specs.Stencil.{Stencil, IsVelocitySet, velocity, weight, opposite};
ghost use Rattle.lbm_space.specs.Tables.{d2q9, d3q19};
ghost use Rattle.lbm_space.specs.Laws.{d2q9_laws, d3q19_laws};

/// A set of discrete velocities with whole weights over a denominator (Krüger et al., *The Lattice Boltzmann
/// Method*, the chapter on the method). Direction 0 rests. Each set meets the eight laws of `IsVelocitySet`.
pub trait VelocitySet {
    /// The number of directions, 1 to 27.
    const Q: usize;
    /// The denominator of the weights, at most 216.
    const DEN: i64;
    /// The number of dimensions, 2 or 3.
    const DIM: usize;

    ghost Q: { ℕ };

    ghost DEN: { ℤ };

    ghost DIM: { ℕ };

    ghost stencil: { Stencil };

    /// The velocity of direction `i`: x, y and z.
    fn c(i: usize) -> [i64; 3]
        requires { i < Q }
        ensures { result ≡ velocity stencil i };

    /// The weight of direction `i`, over `DEN`.
    fn w(i: usize) -> i64
        requires { i < Q }
        ensures { result ≡ weight stencil i };

    /// The direction with the velocity of direction `i` reversed.
    fn opp(i: usize) -> usize
        requires { i < Q }
        ensures { result ≡ opposite stencil i };

    ghost constants: { (Q ≡ stencil.directions) × (DEN ≡ stencil.denominator) × (DIM ≡ stencil.dimension) };

    ghost laws: { IsVelocitySet stencil };
}

/// Nine directions in the plane: rest, the four neighbours along an axis, the four along a diagonal.
#[derive(Clone, Copy)]
pub struct D2Q9;

static D2Q9_VELOCITIES: [[i64; 3]; 9] = [
    [0, 0, 0],
    [1, 0, 0],
    [0, 1, 0],
    [-1, 0, 0],
    [0, -1, 0],
    [1, 1, 0],
    [-1, 1, 0],
    [-1, -1, 0],
    [1, -1, 0],
];

static D2Q9_WEIGHTS: [i64; 9] = [16, 4, 4, 4, 4, 1, 1, 1, 1];

static D2Q9_OPPOSITES: [usize; 9] = [0, 3, 4, 1, 2, 7, 8, 5, 6];

impl VelocitySet for D2Q9 {
    const Q: usize = 9;

    const DEN: i64 = 36;

    const DIM: usize = 2;

    ghost Q = { 9 };

    ghost DEN = { pos 36 };

    ghost DIM = { 2 };

    ghost stencil = { d2q9 };

    ghost constants = { (refl, refl, refl) };

    ghost laws = { d2q9_laws };

    #[inline]
    fn c(i: usize) -> [i64; 3] {
        D2Q9_VELOCITIES[i]
    }

    #[inline]
    fn w(i: usize) -> i64 {
        D2Q9_WEIGHTS[i]
    }

    #[inline]
    fn opp(i: usize) -> usize {
        D2Q9_OPPOSITES[i]
    }
}

/// Nineteen directions in space: rest, the six neighbours along an axis, the twelve along a diagonal of a plane.
#[derive(Clone, Copy)]
pub struct D3Q19;

static D3Q19_VELOCITIES: [[i64; 3]; 19] = [
    [0, 0, 0],
    [1, 0, 0],
    [-1, 0, 0],
    [0, 1, 0],
    [0, -1, 0],
    [0, 0, 1],
    [0, 0, -1],
    [1, 1, 0],
    [-1, -1, 0],
    [1, 0, 1],
    [-1, 0, -1],
    [0, 1, 1],
    [0, -1, -1],
    [1, -1, 0],
    [-1, 1, 0],
    [1, 0, -1],
    [-1, 0, 1],
    [0, 1, -1],
    [0, -1, 1],
];

static D3Q19_WEIGHTS: [i64; 19] = [12, 2, 2, 2, 2, 2, 2, 1, 1, 1, 1, 1, 1, 1, 1, 1, 1, 1, 1];

static D3Q19_OPPOSITES: [usize; 19] = [
    0, 2, 1, 4, 3, 6, 5, 8, 7, 10, 9, 12, 11, 14, 13, 16, 15, 18, 17,
];

impl VelocitySet for D3Q19 {
    const Q: usize = 19;

    const DEN: i64 = 36;

    const DIM: usize = 3;

    ghost Q = { 19 };

    ghost DEN = { pos 36 };

    ghost DIM = { 3 };

    ghost stencil = { d3q19 };

    ghost constants = { (refl, refl, refl) };

    ghost laws = { d3q19_laws };

    #[inline]
    fn c(i: usize) -> [i64; 3] {
        D3Q19_VELOCITIES[i]
    }

    #[inline]
    fn w(i: usize) -> i64 {
        D3Q19_WEIGHTS[i]
    }

    #[inline]
    fn opp(i: usize) -> usize {
        D3Q19_OPPOSITES[i]
    }
}
