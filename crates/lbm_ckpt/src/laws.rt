//! What holds of the bytes of checkpoints and of their reading.
//!
//! The function does nothing: its contract is the theorem.

ghost use Rattle.lbm_ckpt.specs.Laws.{WrittenIsRead, OldIsRead, OneSpelling, ExactSize};

/// What was written is read again, for every step up to 1,000,000 and every state in which no population is above
/// 268,435,456 in size. In each version no second spelling of a checkpoint is accepted.
pub fn checkpoint_law()
    ensures written { WrittenIsRead }
    ensures old { OldIsRead }
    ensures one_spelling { OneSpelling }
    ensures size { ExactSize }
{}
