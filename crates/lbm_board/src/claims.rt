//! Which turn drew each number, and which numbers were not finished.
ghost use Rattle.std.specs.Prelude.{◌≡◌, ℕ, ◌<◌, ◌≤◌, List, [], ◌∷◌, length, IfOk, slice_get, Some, None, false, replicate, All};
ghost use Rattle.lbm_board.specs.declared.record.Record.{Record};
ghost use Rattle.lbm_board.specs.Fields.{times};
ghost use Rattle.lbm_board.specs.Closing.{AreClaims};

use crate::turn::Turn;
use lbm_space::Memory;
use std::alloc::Global;

/// For each number, the turn that drew it, and whether it was drawn and not finished.
#[derive(Drop)]
pub(crate) struct Claims {
    pub(crate) drawn: Vec<Option<u32>>,
    pub(crate) unfinished: Vec<bool>,
}

/// Writes the value at each of these places.
fn write_at<V: Copy>(list: &mut Vec<V>, places: &[u32], value: V)
    requires { All (λ k. k < length list.old.items) places.now }
    ensures long { length list.new.items ≡ length list.old.items }
    ensures written { (k : ℕ) → 0 < times k places.now → slice_get list.new.items k ≡ Some value }
    ensures kept { (k : ℕ) → times k places.now ≡ 0 → slice_get list.new.items k ≡ slice_get list.old.items k }
{
    for place in places {
        list[*place as usize] = value;
    }
}

impl Claims {
    /// Nothing was drawn yet.
    pub(crate) fn new(alloc: Global, pieces: usize) -> Result<Claims, Memory>
        ensures { IfOk result (λ c. (c.drawn.items ≡ replicate pieces None)
            × (c.unfinished.items ≡ replicate pieces false)) }
    {
        let drawn = vec![in alloc; None; pieces]?;
        let unfinished = vec![in alloc; false; pieces]?;
        Ok(Claims { drawn, unfinished })
    }

    /// Adds what a turn drew and what of it it did not finish.
    pub(crate) fn add<T>(&mut self, turn: &Turn<T>)
        requires { (length self.old.drawn.items ≡ turn.now.table.slots)
            × (length self.old.unfinished.items ≡ turn.now.table.slots) }
        ensures { (records : List (Record T)) → AreClaims turn.now.table.slots records self.old.drawn.items self.old.unfinished.items
            → AreClaims turn.now.table.slots (turn.now.log ∷ records) self.new.drawn.items self.new.unfinished.items }
    {
        write_at(&mut self.drawn, turn.drawn.as_slice(), Some(turn.number));
        write_at(&mut self.unfinished, turn.held.as_slice(), true);
    }
}
