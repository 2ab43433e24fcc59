//! How the seats come back, and the table ends.
ghost use Rattle.std.specs.Prelude.{◌≡◌, ℕ, ◌⊎◌, ◌<◌, ◌≤◌, [], true, false, length, slice_index_or, None, vec_capacity};
ghost use Rattle.std.specs.Slots.{slots_items, slots_filled, slots_len};
ghost use Rattle.amo_book.specs.Rule.{HasAll};
ghost use Rattle.amo_book.specs.Book.{Each};
ghost use Rattle.amo_book.specs.Closed.{IsOf};
ghost use Rattle.amo_book.specs.Gathering.{HasTaken, Ends};

use super::{Board, Chair};
use crate::pass::Pass;
use crate::slot::Housed;
use crate::stride::{COUNT, slot_of};
use atomic_table::Closed;
use std::alloc::Global;

/// Lets go what lies in these slots.
fn clear(closed: &mut Closed<Option<Housed>, Global>, from: usize, to: usize)
    requires within { (from ≤ to) × (to ≤ slots_len closed.old.slots) }
    requires full { (k : ℕ) → from ≤ k → k < to → slice_index_or (slots_filled closed.old.slots) k false ≡ true }
    ensures same { (slots_items closed.new.slots ≡ slots_items closed.old.slots) × (slots_len closed.new.slots ≡ slots_len closed.old.slots) }
    ensures cleared { (k : ℕ) → from ≤ k → k < to → slice_index_or (slots_filled closed.new.slots) k false ≡ false }
    ensures others { (k : ℕ) → (k < from) ⊎ (to ≤ k) → slice_index_or (slots_filled closed.new.slots) k false ≡ slice_index_or (slots_filled closed.old.slots) k false }
{
    for index in from..to {
        drop(closed.take(index));
    }
}

impl Board {
    /// One seat with the shares of all these passes, which has seen all that they had seen.
    pub fn gather(&self, passes: Vec<Pass>) -> Chair
        requires some { 0 < length passes.items }
        requires own { Each (IsOf self.now.table.shared.table_id) passes.items }
        ensures same { (result.table_id ≡ self.now.table.shared.table_id) × (result.me.1 ≡ []) × (result.me.0.held ≡ None) }
        ensures all { Each (HasTaken result.me.0) passes.items }
    {
        let mut passes = passes;
        let Some(first) = passes.pop() else {
            unreachable!()
        };
        let Pass {
            number: _,
            seat: mut root,
        } = first;
        while let Some(pass) = passes.pop() {
            let Pass { number: _, seat } = pass;
            self.join(&mut root, seat);
            self.look(&mut root);
        }
        root
    }

    /// The last count, and the last states, put into the room for them.
    pub fn end(self, root: Chair, room: Vec<Housed>) -> (u64, Vec<Housed>)
        requires own { (root.table_id ≡ self.table.shared.table_id) × HasAll self.setup.passes root.me.0 }
        requires room { (room.items ≡ []) × (length self.setup.sides.items ≤ vec_capacity room) }
        ensures { Ends self.setup.sides.items self.setup.passes root.me.0 result.0 result.1.items }
    {
        let Board { table, setup } = self;
        let mut lasts = room;
        let mut closed = table.close_with(root);
        let count = closed.word(COUNT);
        for place in 0..setup.sides.len() {
            let Some(state) = closed.take(slot_of(place)) else {
                unreachable!()
            };
            clear(&mut closed, slot_of(place) + 1, slot_of(place + 1));
            lasts.push_reserved(state);
        }
        closed.free();
        (count, lasts)
    }
}
