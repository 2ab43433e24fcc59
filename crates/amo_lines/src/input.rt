//! A client's lines, as a reader brings them. Only whole lines are handed on: a client that dies in mid-line has not said what it wanted.
ghost use Rattle.std.specs.Prelude.{◌≡◌, List, ℕ, [], IfOk, IfSome, OnOk, true, false, Err, None, if◌then◌else◌};
ghost use Rattle.std.specs.Io.KnownBytes.{Consumes};
ghost use Rattle.amo_text.specs.Line.{Lacks};
ghost use Rattle.amo_lines.specs.Input.{Fills, IsNamed, IsPending, Takes, is_torn};
ghost use Rattle.amo_lines.specs.Line.{id_by, read_of};
ghost use Rattle.amo_lines.specs.declared.lines.LineFault.TheVariants.{TooLongLine};

use crate::NamedMessage;
use crate::id::Id;
use crate::lines::{LineFault, Spelling, read_line};
use amo_packet::Message;
use amo_text::next_line;
use std::alloc::{AllocError, Global};
use std::io;
use std::io::Read;
use std::marker::Model;

/// How many bytes are read at once.
const PIECE: usize = 65536;

/// A longer text is no line: a message of the greatest length has less, in HEX too.
const LONGEST_LINE: usize = 4096;

/// A line of a client.
#[derive(Drop)]
pub enum Line {
    /// A message to be put on a stream.
    Put(u32, NamedMessage),
    /// No such line, for this reason.
    Unread(LineFault, Id),
}

/// What a reader has brought, and not been taken. Contracts see these bytes, whether a line in front of them was too long, how many
/// lines were taken, and whether more may come.
#[derive(Drop)]
pub struct Input {
    alloc: Global,
    piece: Vec<u8>,
    bytes: Vec<u8>,
    /// How many of them, in front, were taken.
    taken: usize,
    /// How many lines were taken.
    lines: u64,
    /// The line in front is too long, and what was before it is gone.
    skips: bool,
    is_open: bool,
}

impl Model for Input {
    ghost use Rattle.std.specs.Prelude.{drop};
    ghost use Rattle.amo_lines.specs.Input.{InputState};

    ghost Value = { InputState };

    ghost view = { λ i. record { rest = drop i.taken i.bytes.items; skips = i.skips; taken = i.lines; is_open = i.is_open } };
}

impl Input {
    /// Nothing has come.
    pub fn new(alloc: Global) -> Result<Input, AllocError>
        ensures { IfOk result (λ input. input ≡ record { rest = []; skips = false; taken = 0; is_open = true }) }
    {
        Ok(Input {
            alloc,
            piece: vec![in alloc; 0u8; PIECE]?,
            bytes: Vec::new(alloc),
            taken: 0,
            lines: 0,
            skips: false,
            is_open: true,
        })
    }

    /// Where memory comes from.
    pub fn alloc(&self) -> Global {
        self.alloc
    }

    /// Whether more may come.
    pub fn is_open(&self) -> bool
        ensures { result ≡ self.now.is_open }
    {
        self.is_open
    }

    /// How many lines were taken.
    pub fn lines(&self) -> u64
        ensures { result ≡ self.now.taken }
    {
        self.lines
    }

    /// Reads once. What came stands behind what was there before, and nothing else does: a last line that has no end gets none.
    pub fn fill<R: Read>(&mut self, reader: &mut R) -> io::Result<()>
        ensures filled { OnOk result ((bytes : List ℕ) × Consumes (R.remaining reader.old) (R.remaining reader.new) bytes × Fills self.old self.new bytes) }
        ensures taken { self.new.taken ≡ self.old.taken }
    {
        self.bytes.drain(..self.taken.min(self.bytes.len()));
        self.taken = 0;
        let count = reader.read(self.piece.as_mut_slice())?;
        self.bytes.extend_from_slice(&self.piece[..count])?;
        self.is_open = count > 0;
        Ok(())
    }

    /// Whether the reader is at its end, and something that it brought was not taken. Where each whole line was, that is a line without an end.
    pub fn is_torn(&self) -> bool
        ensures { result ≡ is_torn self.now }
    {
        !self.is_open && (self.skips || !self.rest().is_empty())
    }

    /// Takes the next line, if it has come whole: with its end.
    pub fn next(&mut self, spelling: Spelling) -> Result<Option<Line>, AllocError>
        ensures takes { IfOk result (Takes spelling self.old self.new) }
        ensures named { IfOk result (λ line. IfSome line (λ l. IsNamed spelling self.old l)) }
        ensures stays { self.new.is_open ≡ self.old.is_open }
    {
        let Some((text, rest)) = next_line(self.rest()) else {
            self.skip_if_long();
            return Ok(None);
        };
        let line = line_of(read_line(self.alloc, text, spelling)?, self.skips);
        self.taken = self.bytes.len().saturating_sub(rest.len());
        self.lines = self.lines.saturating_add(1);
        self.skips = false;
        Ok(Some(line))
    }

    /// What has come, and not been taken.
    fn rest(&self) -> &[u8]
        ensures { result.now ≡ self.now.rest }
    {
        self.bytes.get(self.taken..).unwrap_or(&[])
    }

    /// What has come of a line that is too long goes.
    fn skip_if_long(&mut self)
        requires { Lacks 10 self.old.rest }
        ensures pending { (text : List ℕ) → IsPending self.old text → IsPending self.new text }
        ensures stays { self.new.is_open ≡ self.old.is_open }
    {
        if self.rest().len() > LONGEST_LINE {
            self.bytes.clear();
            self.taken = 0;
            self.skips = true;
        }
    }
}

/// The line that was read so, with its id, if it was not too long.
fn line_of(read: (Result<(u32, Message), LineFault>, Id), skips: bool) -> Line
    ensures read { read_of result ≡ (if skips then Err TooLongLine else read.0) }
    ensures id { id_by result ≡ (if skips then None else read.1) }
{
    if skips {
        return Line::Unread(LineFault::TooLongLine, Id::none());
    }
    let (read, id) = read;
    match read {
        Ok((stream, message)) => Line::Put(stream, NamedMessage { message, id }),
        Err(fault) => Line::Unread(fault, id),
    }
}
