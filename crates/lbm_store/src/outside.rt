//! A store and a sink, by what they hold and how often they have failed.
ghost use Rattle.std.specs.Prelude.{◌≡◌};
ghost use Rattle.lbm_store.specs.declared.outside.IoEnd.TheVariants.{Memory};
ghost use Rattle.lbm_store.specs.Outside.{StoreState, SinkState, Reads, Creates, Appends, Writes};

use std::alloc::{AllocError, AllocFailed};

/// Why a call on a store or a sink gave up.
#[derive(Clone, Copy, Debug, PartialEq, Eq)]
pub enum IoEnd {
    /// A fault outside, which the object has counted.
    Failed,
    /// Want of memory.
    Memory,
}

impl From<AllocError> for IoEnd {
    ghost from_gives = { λ _ e. e ≡ Memory };

    fn from(_: AllocError) -> Self {
        IoEnd::Memory
    }
}

impl<T: Drop> From<AllocFailed<T>> for IoEnd {
    ghost from_gives = { λ _ e. e ≡ Memory };

    fn from(_: AllocFailed<T>) -> Self {
        IoEnd::Memory
    }
}

/// Files by name.
///
/// A store counts its failures by name, those of `read` apart from those of `create` and `append`.
/// A call answers `Failed` only where the count of its name and kind rose in that call, and it
/// changes no other count and no other name. A count that stands at the end of a `u64` rises no more.
pub trait Store {
    ghost state: { Self → StoreState };

    /// Reads from a place of a file on, and says how many bytes it put at the front of the buffer.
    ///
    /// It gives at least one byte where there is one and the buffer is not empty. A name that is not
    /// there counts as empty wherever the answer is `Ok`. No file changes.
    fn read(&mut self, name: &str, at: u64, buf: &mut [u8]) -> Result<usize, IoEnd>
        ensures { Reads (state self.old) (state self.new) result name.now at buf.new };

    /// Makes a name hold no bytes. After an error it holds its old bytes or none.
    fn create(&mut self, name: &str) -> Result<(), IoEnd>
        ensures { Creates (state self.old) (state self.new) result name.now };

    /// Adds bytes at the end of a name; one that is not there counts as empty.
    ///
    /// After an error the name holds its old bytes and a front of these.
    fn append(&mut self, name: &str, bytes: &[u8]) -> Result<(), IoEnd>
        ensures { Appends (state self.old) (state self.new) result name.now bytes.now };
}

/// A place to write bytes to, which counts its failures.
pub trait Sink {
    ghost state: { Self → SinkState };

    /// Adds the bytes. After an error the sink has got a front of them. It answers `Failed` only where
    /// its count rose in this call.
    fn write(&mut self, bytes: &[u8]) -> Result<(), IoEnd>
        ensures { Writes (state self.old) (state self.new) result bytes.now };
}
