//! The kinds of step at the table, and what each tells. These types are for the proofs alone.
ghost use Rattle.lbm_board.specs.Steps.{Claimed, Finished, Looked, TookToFill, GaveFilled, Compared, after_split, new_view, joined, spent, without_first, first_alone};

use crate::record::View;
use atomic_table::{Join, Play, Split};

/// A number is drawn and its slot taken, or no piece is left.
pub(crate) struct ClaimStep;

impl<T> Play<Option<T>, View<T>> for ClaimStep {
    ghost then = { Claimed };
}

/// A slot is given back with its piece, and a report made.
pub(crate) struct FinishStep;

impl<T> Play<Option<T>, View<T>> for FinishStep {
    ghost then = { Finished };
}

/// The least report is read.
pub(crate) struct LookStep;

impl<T> Play<Option<T>, View<T>> for LookStep {
    ghost then = { Looked };
}

/// The next slot is taken, to be filled.
pub(crate) struct FillTakingStep;

impl<T> Play<Option<T>, View<T>> for FillTakingStep {
    ghost then = { TookToFill };
}

/// The slot is given back with its first piece.
pub(crate) struct FillGivingStep;

impl<T> Play<Option<T>, View<T>> for FillGivingStep {
    ghost then = { GaveFilled };
}

/// The records of two turns in one view are seen to be apart.
pub(crate) struct CompareStep;

impl<T> Play<Option<T>, View<T>> for CompareStep {
    ghost then = { Compared };
}

/// A new seat gets the empty record of one more turn.
pub(crate) struct TurnSplit;

impl<T> Split<View<T>> for TurnSplit {
    ghost left = { after_split };

    ghost right = { new_view };
}

/// A new seat gets the whole view, and none of the slots.
pub(crate) struct WholeSplit;

impl<T> Split<View<T>> for WholeSplit {
    ghost left = { λ v. spent };

    ghost right = { λ v. v };
}

/// A new seat gets the first turn of a view.
pub(crate) struct FirstSplit;

impl<T> Split<View<T>> for FirstSplit {
    ghost left = { without_first };

    ghost right = { first_alone };
}

/// A seat without a record takes over the view of another.
pub(crate) struct WholeJoin;

impl<T> Join<View<T>> for WholeJoin {
    ghost both = { λ v w. w };

    ghost spent = { spent };
}

/// A seat takes in the records of another.
pub(crate) struct RecordsJoin;

impl<T> Join<View<T>> for RecordsJoin {
    ghost both = { joined };

    ghost spent = { spent };
}
