//! Bytes in memory.
ghost use Rattle.std.specs.Prelude.{◌≡◌, [], OnErr};
ghost use Rattle.lbm_store.specs.Outside.{Writes};
ghost use Rattle.lbm_store.specs.Memory.{VecWrites, new_vec, sure_bytes, sure_sink, vec_sink, vec_state};

use crate::calls::Calls;
use crate::{IoEnd, Sink};
use std::alloc::Global;

/// Bytes in memory, in which chosen writes fail.
///
/// The writes are numbered from 0 on, and those whose numbers were given fail. After want of memory
/// all is as before.
#[derive(Drop)]
pub struct VecSink {
    bytes: Vec<u8>,
    faults: u64,
    calls: Calls,
}

impl VecSink {
    /// A sink with no bytes, in which the writes with these numbers are to fail.
    pub fn new(alloc: Global, failing: Vec<u64>) -> VecSink
        ensures { vec_state result ≡ new_vec failing.items }
    {
        VecSink {
            bytes: Vec::new(alloc),
            faults: 0,
            calls: Calls { failing, made: 0 },
        }
    }

    /// What was written.
    pub fn bytes(&self) -> &[u8]
        ensures { result.now ≡ (vec_state self.now).bytes }
    {
        self.bytes.as_slice()
    }
}

impl Sink for VecSink {
    ghost state = { vec_sink };

    /// A write that fails keeps the first half of the bytes, rounded down.
    fn write(&mut self, bytes: &[u8]) -> Result<(), IoEnd>
        ensures writes { Writes (vec_sink self.old) (vec_sink self.new) result bytes.now }
        ensures exactly { VecWrites (vec_state self.old) (vec_state self.new) result bytes.now }
    {
        if self.calls.is_to_fail() {
            self.bytes.extend_from_slice(&bytes[..bytes.len() / 2])?;
            self.calls.count();
            self.faults = self.faults.saturating_add(1);
            return Err(IoEnd::Failed);
        }
        self.bytes.extend_from_slice(bytes)?;
        self.calls.count();
        Ok(())
    }
}

/// Bytes in memory whose count of failures is always 0.
#[derive(Drop)]
pub struct SureSink {
    bytes: Vec<u8>,
}

impl SureSink {
    /// A sink with no bytes.
    pub fn new(alloc: Global) -> SureSink
        ensures { sure_bytes result ≡ [] }
    {
        SureSink {
            bytes: Vec::new(alloc),
        }
    }

    /// What was written.
    pub fn bytes(&self) -> &[u8]
        ensures { result.now ≡ sure_bytes self.now }
    {
        self.bytes.as_slice()
    }
}

impl Sink for SureSink {
    ghost state = { sure_sink };

    /// After want of memory all is as before.
    fn write(&mut self, bytes: &[u8]) -> Result<(), IoEnd>
        ensures writes { Writes (sure_sink self.old) (sure_sink self.new) result bytes.now }
        ensures memory { OnErr result (sure_bytes self.new ≡ sure_bytes self.old) }
    {
        self.bytes.extend_from_slice(bytes)?;
        Ok(())
    }
}
