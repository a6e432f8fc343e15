// What a call reports.

/// What is told of a run.
#[derive(Clone, Copy, Debug, PartialEq, Eq)]
pub struct RunReport {
    /// The step of the last state.
    pub step: u64,
    /// The sum of all populations of all cells, walls included.
    pub mass: i64,
    /// The three sums of the printed momenta of all cells.
    pub momentum: [i64; 3],
}

/// What is told of a case.
#[derive(Clone, Copy, Debug, PartialEq, Eq)]
pub struct CheckReport {
    /// The dimension of the velocity set.
    pub dimension: u32,
    /// How many directions it has.
    pub directions: u32,
    /// The sides of the box of cells.
    pub sides: [u32; 3],
    /// How many cells are fluid.
    pub fluid: u32,
    /// How many cells are solid.
    pub solid: u32,
    /// The sum of all populations of the first state, walls included.
    pub mass: i64,
}

/// What is told of a run with a tracer.
#[derive(Clone, Copy, Debug, PartialEq, Eq)]
pub struct TracerReport {
    /// The step of the last states.
    pub step: u64,
    /// The sum of all populations of all cells, walls included.
    pub mass: i64,
    /// The sum of all amounts of the tracer, walls included.
    pub tracer: i64,
}

/// What the line of a call that nothing has stopped tells.
#[derive(Clone, Copy, Debug, PartialEq, Eq)]
pub enum Report {
    /// Of a run, and of one of a generated case.
    Run(RunReport),
    /// Of a check.
    Check(CheckReport),
    /// Of a run with a tracer.
    Tracer(TracerReport),
}
