//! What the words ask for.

use lbm_cell::Rates;
use lbm_vtk::Format;

/// How populations are kept, and moved from cell to cell.
#[derive(Clone, Copy, Debug, PartialEq, Eq)]
pub enum PatternKind {
    /// Two lattices: a step reads one and writes the other.
    Two,
    /// One lattice, in which each population changes places with the opposite one of the neighbour.
    Swap,
    /// One lattice with a margin, by which a step moves it to and fro.
    Grid,
    /// One lattice in place, by the AA pattern.
    Aa,
    /// The AA pattern over tiles of rows, which the workers take one by one.
    Tiles,
}

/// How the lattice is worked through.
#[derive(Debug, Drop)]
pub struct Choice {
    /// How populations are kept and moved.
    pub pattern: PatternKind,
    /// The number of workers, from 1 to 64.
    pub workers: u32,
    /// The rows at which the lattice is cut, 1 to 4095 of them, where they are given.
    pub cut: Option<Vec<u32>>,
    /// The number of rows of a tile, from 1 to 4096.
    pub tile: u32,
}

/// A run of a case.
#[derive(Debug, Drop)]
pub struct Run<'a> {
    /// The name of the file with the case.
    pub case: &'a str,
    /// The number of the last step, at most 1000000.
    pub steps: u32,
    /// The name of the file for the result.
    pub out: &'a str,
    /// How the lattice is worked through.
    pub choice: Choice,
    /// The name of the checkpoint to begin with.
    pub resume: Option<&'a str>,
    /// The name of the file for the last checkpoint.
    pub save: Option<&'a str>,
    /// How the numbers of the result are written.
    pub format: Format,
}

/// A check of a case.
#[derive(Debug, Drop)]
pub struct Check<'a> {
    /// The name of the file with the case.
    pub case: &'a str,
}

/// A run of a generated case.
#[derive(Debug, Drop)]
pub struct Demo<'a> {
    /// The size of the case, from 1 to 128.
    pub n: u32,
    /// The number of the last step, at most 1000000.
    pub steps: u32,
    /// The name of the file for the result.
    pub out: &'a str,
    /// How the lattice is worked through.
    pub choice: Choice,
    /// The name of the file for the last checkpoint.
    pub save: Option<&'a str>,
    /// How the numbers of the result are written.
    pub format: Format,
}

/// A run of a case in the geometry of a voxel file.
#[derive(Debug, Drop)]
pub struct Voxels<'a> {
    /// The name of the voxel file.
    pub file: &'a str,
    /// The run. Sides, walls and first densities are not those of its case.
    pub run: Run<'a>,
}

/// A run of a case with a tracer in its flow.
#[derive(Debug, Drop)]
pub struct Tracer<'a> {
    /// The name of the file with the case.
    pub case: &'a str,
    /// The number of the last step, at most 1000000.
    pub steps: u32,
    /// The name of the file for the result of the flow.
    pub out: &'a str,
    /// The name of the file for the result of the tracer.
    pub trace: &'a str,
    /// How much of the tracer there is, from 1 to 16777216.
    pub amount: u32,
    /// The number of the cell in which it begins.
    pub cell: u32,
    /// Its rate of relaxation.
    pub rates: Rates,
    /// How the lattice is worked through.
    pub choice: Choice,
    /// How the numbers of the flow's result are written.
    pub format: Format,
}

/// What the words ask for.
#[derive(Debug, Drop)]
pub enum Request<'a> {
    /// A run of a case.
    Run(Run<'a>),
    /// A check of a case.
    Check(Check<'a>),
    /// A run of a generated case.
    Demo(Demo<'a>),
    /// A run of a case in the geometry of a voxel file.
    Voxels(Voxels<'a>),
    /// A run of a case with a tracer in its flow.
    Tracer(Tracer<'a>),
}
