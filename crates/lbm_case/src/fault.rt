//! Why a case file is refused.

ghost use Rattle.std.specs.Prelude.{◌≡◌, string_bytes};

use crate::key::Key;
use std::alloc::{AllocError, AllocFailed};
use std::marker::Model;

/// The name of a key, as it stands in the file.
#[derive(Debug, Drop)]
pub struct KeyName {
    text: String,
}

impl Model for KeyName {
    ghost use Rattle.std.specs.Prelude.{List, ℕ, string_bytes};

    ghost Value = { List ℕ };

    ghost view = { λ name. string_bytes name.text };
}

impl KeyName {
    pub(crate) fn new(text: String) -> KeyName
        ensures { result ≡ string_bytes text }
    {
        KeyName { text }
    }

    /// The bytes of the name.
    pub fn bytes(&self) -> &[u8]
        ensures { result.now ≡ self.now }
    {
        self.text.as_bytes()
    }
}

impl PartialEq for KeyName {
    ghost use Rattle.std.specs.Str.{bytes_eq};
    ghost use Rattle.std.proofs.Common.{rules};
    ghost use Rattle.std.specs.Cmp.Rules.{comparing};

    ghost eq = { bytes_eq };

    ghost laws = { Prim.search (comparing, rules) };

    fn eq(&self, other: &KeyName) -> bool {
        self.text == other.text
    }
}

impl Eq for KeyName {
    ghost use Rattle.std.proofs.Common.{rules};
    ghost use Rattle.std.specs.Cmp.Rules.{comparing};

    ghost laws = { Prim.search (comparing, rules) };
}

/// What is wrong with a case file: the first in this order.
#[derive(Debug, Drop, PartialEq, Eq)]
pub enum CaseFault {
    /// The bytes are no TOML document.
    NotToml,
    /// This key is none of a case file. It is the least such key, byte by byte.
    UnknownKey(KeyName),
    /// This key has to be there, and is not.
    MissingKey(Key),
    /// The value at this key is of another kind.
    WrongKind(Key),
    /// A number at this key is out of its range.
    BadNumber(Key),
    /// The velocity set is none that is known.
    BadSet,
    /// The drawing has no row, or its first row has no character.
    EmptyMap,
    /// This row is not as long as the first one. Where all rows are equally long, the number of rows, which the
    /// layers do not divide.
    Ragged(u32),
    /// The character in this row and column stands for no cell.
    BadChar(u32, u32),
    /// The lattice has too many cells, or a side that is too long.
    TooLarge,
}

/// Why no case was read.
#[derive(Debug, Drop, PartialEq, Eq)]
pub enum CaseEnd {
    /// The file is refused.
    Fault(CaseFault),
    /// Memory ran out.
    Memory,
}

impl From<CaseFault> for CaseEnd {
    ghost use Rattle.lbm_case.specs.declared.fault.CaseEnd.TheVariants.{Fault};

    ghost from_gives = { λ fault end. end ≡ Fault fault };

    fn from(fault: CaseFault) -> CaseEnd {
        CaseEnd::Fault(fault)
    }
}

impl From<AllocError> for CaseEnd {
    ghost use Rattle.lbm_case.specs.declared.fault.CaseEnd.TheVariants.{Memory};

    ghost from_gives = { λ _ end. end ≡ Memory };

    fn from(_error: AllocError) -> CaseEnd {
        CaseEnd::Memory
    }
}

impl<T: Drop> From<AllocFailed<T>> for CaseEnd {
    ghost use Rattle.lbm_case.specs.declared.fault.CaseEnd.TheVariants.{Memory};

    ghost from_gives = { λ _ end. end ≡ Memory };

    fn from(_error: AllocFailed<T>) -> CaseEnd {
        CaseEnd::Memory
    }
}
