//! What holds of every case file.
//!
//! The functions do nothing: their contracts are the theorems.

ghost use Rattle.lbm_case.specs.Laws.{SpellsCases, RefusesFirstFault, AcceptsFaultless, RefusesLeastUnknownKey};

/// Every case that the bytes of a file spell is one that is accepted, however many bytes there are.
pub fn case_law()
    ensures { SpellsCases }
{}

/// A file is refused for its first fault, and for no other; and it spells a case exactly where it has no fault. So for any
/// bytes one answer is right. The faults of a file and their order stand in `specs/Causes.antt`.
pub fn refusal_law()
    ensures refused { RefusesFirstFault }
    ensures accepted { AcceptsFaultless }
{}

/// The unknown key that is told is a key of the file and none of the ten, and no such key is less in byte order.
pub fn unknown_key_law()
    ensures { RefusesLeastUnknownKey }
{}
