//! The text of a journal in pieces.
ghost use Rattle.std.specs.Prelude.{◌≡◌, ◌≤◌, ◌∷◌, ◌⊎◌, [], List, ℕ, length, take, IfSome, IfNone, OnOk, OnErr};
ghost use Rattle.amo_pieces.specs.Text.{IsTextOf};
ghost use Rattle.amo_pieces.specs.Places.{IsAt, ends_in};

use crate::Place;
use crate::joining::{count_ends, is_whole, read_behind};
use crate::place::place_in;
use crate::start::Start;
use std::alloc::Global;
use std::io;
use std::io::Read;

/// The pieces of a journal, as far as they were added: the text that they spell together, and where each of them starts in it.
#[derive(Drop)]
pub struct Pieces {
    text: Vec<u8>,
    /// How many of the text's bytes were looked through for ends of lines: all but the last piece's, which nobody asks for before the next one comes.
    counted: usize,
    ends: usize,
    starts: Vec<Start>,
    ghost within: { counted ≤ length text.items },
    ghost are_ends: { ends ≡ ends_in (take counted text.items) },
}

impl Pieces {
    ghost use Rattle.amo_pieces.specs.Kept.{Keeps};

    /// No piece.
    pub fn new(alloc: Global) -> Pieces
        ensures { Keeps result [] }
    {
        Pieces {
            text: Vec::new(alloc),
            counted: 0,
            ends: 0,
            starts: Vec::new(alloc),
        }
    }

    /// Adds the next piece: all that a reader has left. Behind a line without its end nothing more is read, since that line is malformed.
    ///
    /// Where memory or the reader fails, the pieces are as they were.
    pub fn add<R: Read>(&mut self, reader: &mut R) -> io::Result<()>
        ensures added { OnOk result ((piece : List ℕ) × IfSome (R.remaining reader.old) (λ bytes. piece ≡ bytes)
            × ((pieces : List (List ℕ)) → Keeps self.old pieces → Keeps self.new (piece ∷ pieces))) }
        ensures kept { OnErr result ((pieces : List (List ℕ)) → Keeps self.old pieces → Keeps self.new pieces) }
    {
        self.starts.reserve(1)?;
        let goes_on = is_whole(self.text.as_slice());
        let before = self.text.len();
        let ends = self.ends + count_ends(&self.text.as_slice()[self.counted..]);
        let left_out = read_behind(&mut self.text, reader)?;
        self.counted = before;
        self.ends = ends;
        self.starts.push(Start {
            goes_on,
            ends,
            left_out,
        })?;
        Ok(())
    }

    /// The text that the pieces spell together, as of one file.
    pub fn text(&self) -> &[u8]
        ensures { (pieces : List (List ℕ)) → Keeps self.now pieces → IsTextOf pieces result.now }
    {
        self.text.as_slice()
    }

    /// Where this line of the text stands, counted from 1.
    pub fn place(&self, line: usize) -> Option<Place>
        ensures found { IfSome result (λ place. (pieces : List (List ℕ)) → Keeps self.now pieces → IsAt pieces line place) }
        ensures none { IfNone result ((pieces : List (List ℕ)) → Keeps self.now pieces → (line ≡ 0) ⊎ (pieces ≡ [])) }
    {
        place_in(self.starts.as_slice(), line)
    }
}
