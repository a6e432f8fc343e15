//! Files in memory that never fail.
ghost use Rattle.std.specs.Prelude.{◌≡◌, ◌-◌, Some, Ok, OnOk, OnErr, length, min};
ghost use Rattle.std.specs.Option.{option_copied};
ghost use Rattle.lbm_store.specs.Outside.{Reads, Creates, Appends, content, no_files, with};
ghost use Rattle.lbm_store.specs.Memory.{sure_store, sure_files};

use crate::named_files::NamedFiles;
use crate::{IoEnd, Store};
use lbm_space::Memory;
use std::alloc::Global;

/// Files in memory whose counts of failures are always 0. A name that is not there reads as empty.
#[derive(Drop)]
pub struct SureStore {
    files: NamedFiles,
}

impl SureStore {
    /// A store with no names.
    pub fn new(alloc: Global) -> SureStore
        ensures { sure_files result ≡ no_files }
    {
        SureStore {
            files: NamedFiles::new(alloc),
        }
    }

    /// Makes a name hold these bytes.
    pub fn put(&mut self, name: &str, bytes: &[u8]) -> Result<(), Memory>
        ensures ok { OnOk result (sure_files self.new
            ≡ with (sure_files self.old) name.now (Some bytes.now)) }
        ensures err { OnErr result (sure_files self.new ≡ sure_files self.old) }
    {
        self.files.put(name, bytes)?;
        Ok(())
    }

    /// The bytes of a name, or `None` where it is not there.
    pub fn bytes(&self, name: &str) -> Option<&[u8]>
        ensures { option_copied result ≡ sure_files self.now name.now }
    {
        self.files.get(name)
    }
}

impl Store for SureStore {
    ghost state = { sure_store };

    /// Gives all bytes from the place on that fit in the buffer, and never fails.
    fn read(&mut self, name: &str, at: u64, buf: &mut [u8]) -> Result<usize, IoEnd>
        ensures reads { Reads (sure_store self.old) (sure_store self.new) result name.now at buf.new }
        ensures exactly { let bytes = content (sure_files self.old) name.now in
            result ≡ Ok (min (length buf.new) (length bytes - at)) }
    {
        Ok(self.files.read(name, at, buf).unwrap_or(0))
    }

    /// After want of memory all is as before.
    fn create(&mut self, name: &str) -> Result<(), IoEnd>
        ensures creates { Creates (sure_store self.old) (sure_store self.new) result name.now }
        ensures memory { OnErr result (sure_files self.new ≡ sure_files self.old) }
    {
        self.files.put(name, b"")?;
        Ok(())
    }

    /// After want of memory all is as before.
    fn append(&mut self, name: &str, bytes: &[u8]) -> Result<(), IoEnd>
        ensures appends { Appends (sure_store self.old) (sure_store self.new) result name.now bytes.now }
        ensures memory { OnErr result (sure_files self.new ≡ sure_files self.old) }
    {
        self.files.append(name, bytes)?;
        Ok(())
    }
}
