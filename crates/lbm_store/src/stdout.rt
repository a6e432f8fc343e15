//! Standard output.
ghost use Rattle.std.specs.Prelude.{◌≡◌};
ghost use Rattle.lbm_store.specs.Sinks.{untold_sink};

use crate::{IoEnd, Sink};
use std::alloc::Global;

/// Standard output. It tells no bytes.
#[derive(Drop)]
pub struct StdoutSink<'a, R: Print> {
    rt: &'a R,
    faults: u64,
}

impl<'a, R: Print> StdoutSink<'a, R> {
    /// Standard output, which takes no memory.
    pub fn new(rt: &'a R, _alloc: Global) -> StdoutSink<'a, R>
        ensures { ⟦<StdoutSink<'a, R> as Sink>⟧.state result ≡ untold_sink 0 }
    {
        StdoutSink { rt, faults: 0 }
    }
}

impl<'a, R: Print> Sink for StdoutSink<'a, R> {
    ghost state = { λ s. untold_sink s.faults };

    fn write(&mut self, bytes: &[u8]) -> Result<(), IoEnd> {
        match self.rt.write_all(bytes) {
            Ok(()) => Ok(()),
            Err(_) => {
                self.faults = self.faults.saturating_add(1);
                Err(IoEnd::Failed)
            }
        }
    }
}
