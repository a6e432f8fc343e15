//! What each piece of work passes.

use std::marker::Sync;

/// Called once before each piece of work, from the thread that is to do it.
pub trait Gate: Sync {
    /// Lets piece number `piece` begin when it returns.
    fn enter(&self, piece: u32);
}

/// A gate that lets each piece begin at once.
#[derive(Clone, Copy, Debug, Default)]
pub struct NoGate;

impl Gate for NoGate {
    fn enter(&self, _piece: u32) {}
}
