//! The words of a list.
ghost use Rattle.std.specs.Prelude.{◌≡◌};

use crate::Words;
use std::marker::Model;
use std::vec;

/// The words of a list, and then none for ever. A contract sees the list of those still to come.
///
/// They lie in the vector that was handed in, and no call takes memory.
#[derive(Drop)]
pub struct FixedWords {
    rest: vec::IntoIter<u64>,
}

impl Model for FixedWords {
    ghost use Rattle.std.specs.Prelude.{List, ℕ};
    ghost use Rattle.std.specs.Vec.Iter.{into_iter_items};

    ghost Value = { List ℕ };

    ghost view = { λ words. into_iter_items words.rest };
}

impl FixedWords {
    /// All words of this list, the first one first.
    pub fn new(words: Vec<u64>) -> FixedWords
        ensures { result ≡ words.items }
    {
        FixedWords {
            rest: words.into_iter(),
        }
    }
}

impl Words for FixedWords {
    ghost use Rattle.std.specs.Prelude.{slice_get};

    ghost to_come = { slice_get };

    fn next(&mut self) -> Option<u64> {
        self.rest.next()
    }
}
