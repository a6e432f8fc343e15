//! How a step ends that is not made.

/// Why a step was not made.
#[derive(Clone, Copy, Debug, PartialEq, Eq)]
pub enum StepEnd {
    /// This is the least cell out of limits. The pattern is spent.
    Range(u32),
    /// Memory was wanted. The pattern is as before.
    Memory,
}
