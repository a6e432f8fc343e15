//! Why words give no request.

use clap::Error;
use clap::error::ErrorKind;
use std::alloc::{AllocError, AllocFailed};

/// Why words give no request.
#[derive(Debug, Drop, PartialEq, Eq)]
pub enum WordsEnd {
    /// The words are no command of the program.
    Usage,
    /// Memory ran out.
    Memory,
}

impl From<Error> for WordsEnd {
    ghost use Rattle.std.specs.Prelude.{◌≡◌};
    ghost use Rattle.lbm_words.specs.Ends.{end_of};
    ghost use Rattle.clap.specs.Values.{kind_of};

    ghost from_gives = { λ error end. end ≡ end_of (kind_of error) };

    fn from(error: Error) -> WordsEnd {
        match error.kind() {
            ErrorKind::OutOfMemory => WordsEnd::Memory,
            _ => WordsEnd::Usage,
        }
    }
}

impl From<AllocError> for WordsEnd {
    ghost use Rattle.std.specs.Prelude.{◌≡◌};
    ghost use Rattle.lbm_words.specs.declared.end.WordsEnd.TheVariants.{Memory};

    ghost from_gives = { λ _ end. end ≡ Memory };

    fn from(_error: AllocError) -> WordsEnd {
        WordsEnd::Memory
    }
}

impl<T: Drop> From<AllocFailed<T>> for WordsEnd {
    ghost use Rattle.std.specs.Prelude.{◌≡◌};
    ghost use Rattle.lbm_words.specs.declared.end.WordsEnd.TheVariants.{Memory};

    ghost from_gives = { λ _ end. end ≡ Memory };

    fn from(_error: AllocFailed<T>) -> WordsEnd {
        WordsEnd::Memory
    }
}
