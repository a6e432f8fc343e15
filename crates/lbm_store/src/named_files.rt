//! Files in memory.
ghost use Rattle.std.specs.Prelude.{◌≡◌, ◌-◌, ◌++◌, Some, OnOk, OnErr, IfSome, is_some, length, min};
ghost use Rattle.std.specs.Option.{option_copied};
ghost use Rattle.lbm_store.specs.Outside.{ReadsAt, content, no_files, with};

use std::alloc::{AllocError, Global};
use std::collections::BTreeMap;

/// The bytes of each name that is there.
#[derive(Drop)]
pub(crate) struct NamedFiles {
    pub alloc: Global,
    pub files: BTreeMap<String, Vec<u8>>,
}

impl NamedFiles {
    ghost use Rattle.lbm_store.specs.Maps.{files_of};

    pub fn new(alloc: Global) -> NamedFiles
        ensures { files_of result ≡ no_files }
    {
        NamedFiles {
            alloc,
            files: BTreeMap::new(alloc),
        }
    }

    /// The bytes of a name.
    pub fn get(&self, name: &str) -> Option<&[u8]>
        ensures { option_copied result ≡ files_of self.now name.now }
    {
        match self.files.get(name) {
            Some(held) => Some(held.as_slice()),
            None => None,
        }
    }

    /// Copies bytes of a name from a place on to the front of a buffer, as many as there are and
    /// fit, and says how many. It gives `None` where the name is not there.
    pub fn read(&self, name: &str, at: u64, buf: &mut [u8]) -> Option<usize>
        ensures there { is_some result ≡ is_some (files_of self.now name.now) }
        ensures count { IfSome result (λ n. let bytes = content (files_of self.now) name.now in
            n ≡ min (length buf.old) (length bytes - at)) }
        ensures bytes { IfSome result (λ n. let bytes = content (files_of self.now) name.now in
            ReadsAt bytes at n buf.new) }
    {
        match self.get(name) {
            Some(bytes) => Some(copy_from(bytes, at, buf)),
            None => None,
        }
    }

    /// Makes a name hold these bytes.
    pub fn put(&mut self, name: &str, bytes: &[u8]) -> Result<(), AllocError>
        ensures ok { OnOk result (files_of self.new
            ≡ with (files_of self.old) name.now (Some bytes.now)) }
        ensures err { OnErr result (files_of self.new ≡ files_of self.old) }
    {
        let key = String::from_str(self.alloc, name)?;
        let held = Vec::from_slice(self.alloc, bytes)?;
        self.files.insert(key, held)?;
        Ok(())
    }

    /// Adds bytes behind those of a name.
    pub fn append(&mut self, name: &str, bytes: &[u8]) -> Result<(), AllocError>
        ensures ok { OnOk result (let before = files_of self.old in
            files_of self.new ≡ with before name.now (Some (content before name.now ++ bytes.now))) }
        ensures err { OnErr result (files_of self.new ≡ files_of self.old) }
    {
        match self.files.get_mut(name) {
            Some(held) => held.extend_from_slice(bytes),
            None => self.put(name, bytes),
        }
    }
}

/// Copies bytes from a place on to the front of a buffer, as many as there are and fit, and says how
/// many.
fn copy_from(bytes: &[u8], at: u64, buf: &mut [u8]) -> usize
    ensures count { result ≡ min (length buf.old) (length bytes.now - at) }
    ensures bytes { ReadsAt bytes.now at result buf.new }
{
    let start = bytes.len().min(at as usize);
    let count = buf.len().min(bytes.len() - start);
    buf[..count].copy_from_slice(&bytes[start..start + count]);
    count
}
