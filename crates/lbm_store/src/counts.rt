//! How often each name has failed.
ghost use Rattle.std.specs.Prelude.{◌≡◌, OnOk, Err, MatchResult};
ghost use Rattle.lbm_store.specs.declared.outside.IoEnd.TheVariants.{Failed};
ghost use Rattle.lbm_store.specs.Outside.{no_faults, with_fault};

use crate::IoEnd;
use std::alloc::{AllocError, Global};
use std::collections::BTreeMap;
use std::io;

/// A count for each name, which is 0 until it rises.
#[derive(Drop)]
pub(crate) struct FaultCounts {
    pub alloc: Global,
    pub counts: BTreeMap<String, u64>,
}

impl FaultCounts {
    ghost use Rattle.lbm_store.specs.Maps.{counts_of, HasRoom};

    pub fn new(alloc: Global) -> FaultCounts
        ensures { counts_of result ≡ no_faults }
    {
        FaultCounts {
            alloc,
            counts: BTreeMap::new(alloc),
        }
    }

    /// Takes the room for the count of a name.
    pub fn make_room(&mut self, name: &str) -> Result<(), AllocError>
        ensures same { counts_of self.new ≡ counts_of self.old }
        ensures room { OnOk result (HasRoom self.new name.now) }
    {
        if !self.counts.contains_key(name) {
            let key = String::from_str(self.alloc, name)?;
            self.counts.insert(key, 0)?;
        }
        Ok(())
    }

    /// The count of a name rises, unless it stands at the end of its type.
    pub fn raise(&mut self, name: &str)
        requires { HasRoom self.old name.now }
        ensures { counts_of self.new ≡ with_fault (counts_of self.old) name.now }
    {
        if let Some(count) = self.counts.get_mut(name) {
            *count = count.saturating_add(1);
        }
    }

    /// What a call on a name came to, where a failure is counted.
    pub fn counted<T>(&mut self, name: &str, came_to: io::Result<T>) -> Result<T, IoEnd>
        requires { HasRoom self.old name.now }
        ensures answer { MatchResult came_to (λ x. result ≡ Ok x) (λ _. result ≡ Err Failed) }
        ensures counts { MatchResult came_to
            (λ _. counts_of self.new ≡ counts_of self.old)
            (λ _. counts_of self.new ≡ with_fault (counts_of self.old) name.now) }
    {
        match came_to {
            Ok(x) => Ok(x),
            Err(_) => {
                self.raise(name);
                Err(IoEnd::Failed)
            }
        }
    }
}
