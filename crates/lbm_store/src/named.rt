//! A sink that appends to one name of a store.
ghost use Rattle.std.specs.Prelude.{◌≡◌};
ghost use Rattle.lbm_store.specs.Sinks.{sink_of};

use crate::{IoEnd, Sink, Store};

/// A sink that appends to one name of a store.
///
/// Its count of failures is the store's write count of that name. Its rest, which no write changes,
/// is that name and all else of the store.
#[derive(Drop)]
pub struct Named<'a, T: Store> {
    store: &'a mut T,
    name: &'a str,
}

impl<'a, T: Store> Named<'a, T> {
    /// The sink that appends to this name. The name need not be there.
    pub fn new(store: &'a mut T, name: &'a str) -> Named<'a, T>
        ensures { ⟦<Named<'a, T> as Sink>⟧.state result
            ≡ sink_of (T.state store.old) name.now store.entry.ghost_name }
    {
        Named { store, name }
    }
}

impl<'a, T: Store> Sink for Named<'a, T> {
    ghost state = { λ s. sink_of (T.state s.store.now) s.name.now s.store.ghost_name };

    fn write(&mut self, bytes: &[u8]) -> Result<(), IoEnd> {
        self.store.append(self.name, bytes)
    }
}
