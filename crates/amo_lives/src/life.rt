//! A life of a host.
ghost use Rattle.std.specs.Prelude.{◌≡◌};
ghost use Rattle.amo_lives.specs.Life.{InRange, goes_on, next_tag};

use crate::BootId;

/// A host's time from a start to its end.
#[derive(Clone, Copy, Debug, PartialEq, Eq)]
pub struct Life {
    /// What the counters of its words have in their upper halves.
    pub tag: u32,
    /// The number of its first line in the journal.
    pub first_line: u64,
    /// The machine's start, where it is known.
    pub boot: Option<BootId>,
    /// Whether the journal was put on its disk before packets left.
    pub sync: bool,
}

impl Life {
    /// The tag of the life that goes on where the words of this one are used up.
    pub fn next_tag(&self) -> u32
        ensures { result ≡ next_tag self.now.tag }
    {
        self.tag.wrapping_add(1)
    }

    /// Whether the next life goes on where the words of this one were used up: it begins in the journal where this one does, and has the tag behind this one's.
    pub fn goes_on(&self, next: &Life) -> bool
        ensures { result ≡ goes_on self.now next.now }
    {
        next.first_line == self.first_line && next.tag == self.next_tag()
    }

    /// The law of lives: each has a line. It does nothing.
    pub fn has_line(&self)
        ensures { InRange self.now }
    {
        let _tag = self.tag;
        let _first_line = self.first_line;
        if let Some(id) = &self.boot {
            let _text = id.text();
        }
    }
}
