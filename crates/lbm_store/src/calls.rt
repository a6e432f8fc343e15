//! The calls that are to fail, by their numbers.
ghost use Rattle.std.specs.Prelude.{◌≡◌};
ghost use Rattle.lbm_store.specs.Memory.{is_to_fail, next_call};

/// Counts calls from 0 on, and says which are to fail.
#[derive(Drop)]
pub(crate) struct Calls {
    pub failing: Vec<u64>,
    pub made: u64,
}

impl Calls {
    /// Whether the next call is to fail.
    pub fn is_to_fail(&self) -> bool
        ensures { result ≡ is_to_fail self.now.failing.items self.now.made }
    {
        self.failing.contains(&self.made)
    }

    /// One more call was made.
    pub fn count(&mut self)
        ensures { self.new ≡ record self.old { made = next_call self.old.made } }
    {
        self.made = self.made.saturating_add(1);
    }
}
