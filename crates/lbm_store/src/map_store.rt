//! Files in memory, with calls that fail by their numbers.
ghost use Rattle.std.specs.Prelude.{◌≡◌, Some, OnOk, OnErr};
ghost use Rattle.std.specs.Option.{option_copied};
ghost use Rattle.lbm_store.specs.Outside.{Reads, Creates, Appends, with};
ghost use Rattle.lbm_store.specs.Memory.{MapAppends, MapCreates, MapReads, map_state, map_store, new_map};

use crate::calls::Calls;
use crate::counts::FaultCounts;
use crate::named_files::NamedFiles;
use crate::{IoEnd, Store};
use lbm_space::Memory;
use std::alloc::Global;

/// Files in memory, in which chosen calls fail.
///
/// The calls of `read`, `create` and `append` are numbered together, from 0 on, and those whose
/// numbers were given fail. Reading a name that is not there fails too. After want of memory all is
/// as before, the number of the next call too.
#[derive(Drop)]
pub struct MapStore {
    files: NamedFiles,
    read_faults: FaultCounts,
    write_faults: FaultCounts,
    calls: Calls,
}

impl MapStore {
    /// A store with no names, in which the calls with these numbers are to fail.
    pub fn new(alloc: Global, failing: Vec<u64>) -> MapStore
        ensures { map_state result ≡ new_map failing.items }
    {
        MapStore {
            files: NamedFiles::new(alloc),
            read_faults: FaultCounts::new(alloc),
            write_faults: FaultCounts::new(alloc),
            calls: Calls { failing, made: 0 },
        }
    }

    /// Makes a name hold these bytes. This is not counted as a call.
    pub fn put(&mut self, name: &str, bytes: &[u8]) -> Result<(), Memory>
        ensures ok { OnOk result (let before = map_state self.old in map_state self.new
            ≡ record before { files = with before.files name.now (Some bytes.now) }) }
        ensures err { OnErr result (map_state self.new ≡ map_state self.old) }
    {
        self.files.put(name, bytes)?;
        Ok(())
    }

    /// The bytes of a name, or `None` where it is not there.
    pub fn bytes(&self, name: &str) -> Option<&[u8]>
        ensures { option_copied result ≡ (map_state self.now).files name.now }
    {
        self.files.get(name)
    }
}

impl Store for MapStore {
    ghost state = { map_store };

    /// Gives all bytes from the place on that fit in the buffer. A call that fails changes nothing.
    fn read(&mut self, name: &str, at: u64, buf: &mut [u8]) -> Result<usize, IoEnd>
        ensures reads { Reads (map_store self.old) (map_store self.new) result name.now at buf.new }
        ensures exactly { MapReads (map_state self.old) (map_state self.new)
            result name.now at buf.new }
    {
        self.read_faults.make_room(name)?;
        let fails = self.calls.is_to_fail();
        self.calls.count();
        if fails {
            self.read_faults.raise(name);
            return Err(IoEnd::Failed);
        }
        match self.files.read(name, at, buf) {
            Some(count) => Ok(count),
            None => {
                self.read_faults.raise(name);
                Err(IoEnd::Failed)
            }
        }
    }

    /// A call that fails changes nothing.
    fn create(&mut self, name: &str) -> Result<(), IoEnd>
        ensures creates { Creates (map_store self.old) (map_store self.new) result name.now }
        ensures exactly { MapCreates (map_state self.old) (map_state self.new) result name.now }
    {
        self.write_faults.make_room(name)?;
        if self.calls.is_to_fail() {
            self.calls.count();
            self.write_faults.raise(name);
            return Err(IoEnd::Failed);
        }
        self.files.put(name, b"")?;
        self.calls.count();
        Ok(())
    }

    /// A call that fails keeps the first half of the bytes, rounded down.
    fn append(&mut self, name: &str, bytes: &[u8]) -> Result<(), IoEnd>
        ensures appends { Appends (map_store self.old) (map_store self.new) result name.now bytes.now }
        ensures exactly { MapAppends (map_state self.old) (map_state self.new)
            result name.now bytes.now }
    {
        self.write_faults.make_room(name)?;
        if self.calls.is_to_fail() {
            self.files.append(name, &bytes[..bytes.len() / 2])?;
            self.calls.count();
            self.write_faults.raise(name);
            return Err(IoEnd::Failed);
        }
        self.files.append(name, bytes)?;
        self.calls.count();
        Ok(())
    }
}
