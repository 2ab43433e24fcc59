//! The events of a journal in pieces, each of which is read once, a block at a time.
ghost use Rattle.std.specs.Prelude.{◌≡◌, ◌<◌, ◌≤◌, ◌∷◌, [], false, true, None, List, ℕ, length, IfOk, IsTrue, OnOk};
ghost use Rattle.std.specs.Io.KnownBytes.{Consumes, IsAtEnd};
ghost use Rattle.amo_world.specs.declared.event.Event.{Event};
ghost use Rattle.amo_audit.specs.Reader.{AreAllOf, HasCome, KnowsTheSame, LooksOn, grown};

use crate::event_reader::{EventReader, NextEvent};
use crate::marking::SideSet;
use crate::pieces_audit::{BLOCK, HEADING, beginning, left_out, read_part};
use amo_world::Event;
use std::alloc::{AllocError, Global};
use std::io;
use std::io::Read;

/// What is known of the event that comes next of a journal.
#[derive(Clone, Copy, PartialEq, Eq)]
pub(crate) enum Sight {
    /// Which it is, or that there is none.
    Clear,
    /// Nothing before more of the journal has come.
    Waits,
    /// It is no journal.
    Fault,
}

/// A journal in pieces, of which the events are taken one after another. It keeps the next one, which sides have events, and of its text what was not read.
#[derive(Drop)]
pub(crate) struct JournalReader {
    alloc: Global,
    events: EventReader,
    /// Whether more of the newest piece may come.
    goes_on: bool,
    /// The event that is to be taken next, once it is known.
    pub(crate) next: Option<Event>,
    /// The sides of the events so far, the next one among them.
    pub(crate) sides: SideSet,
    /// Whether all pieces have come.
    is_ended: bool,
    /// Whether there are no more events.
    is_over: bool,
}

impl JournalReader {
    /// No piece has come yet.
    pub(crate) fn new(alloc: Global) -> JournalReader
        ensures come { HasCome result [] [] }
        ensures none { result.next ≡ None }
        ensures goes_on { result.is_over ≡ false }
    {
        JournalReader {
            alloc,
            events: EventReader::new(alloc),
            goes_on: false,
            next: None,
            sides: SideSet::new(),
            is_ended: false,
            is_over: false,
        }
    }

    /// Begins the next piece, which a reader has. It answers no where the text in front of the piece ends within a line, or is of another version: then they are
    /// no journal.
    ///
    /// Where memory or the reader fails, it is of no more use.
    pub(crate) fn begin<R: Read>(&mut self, reader: &mut R) -> io::Result<bool>
        ensures piece { IfOk result (λ is_piece. is_piece ≡ true → (begun : List ℕ) × Consumes (R.remaining reader.old) (R.remaining reader.new) begun
            × KnowsTheSame self.old self.new × ((pieces : List (List ℕ)) (events : List Event) → HasCome self.old pieces events → HasCome self.new (begun ∷ pieces) events)) }
        ensures end { IfOk result (λ is_piece. is_piece ≡ true → self.new.goes_on ≡ false → IsAtEnd (R.remaining reader.new)) }
    {
        if !self.events.is_whole() {
            return Ok(false);
        }
        let mut room = [0; BLOCK];
        let begun = beginning(self.alloc, reader, &mut room)?;
        let Some(count) = left_out(self.events.version(), begun.as_slice()) else {
            return Ok(false);
        };
        self.events.push(&begun.as_slice()[count..])?;
        self.goes_on = is_past_heading(begun.as_slice());
        Ok(true)
    }

    /// Reads a block more of the newest piece. It answers no at its end.
    ///
    /// Where memory or the reader fails, it is of no more use.
    pub(crate) fn read_on<R: Read>(&mut self, reader: &mut R) -> io::Result<bool>
        ensures more { OnOk result ((more : List ℕ) × Consumes (R.remaining reader.old) (R.remaining reader.new) more
            × KnowsTheSame self.old self.new × ((pieces : List (List ℕ)) (events : List Event) → HasCome self.old pieces events → HasCome self.new (grown more pieces) events)) }
        ensures end { IfOk result (λ is_more. is_more ≡ false → self.old.goes_on ≡ true → IsAtEnd (R.remaining reader.new)) }
    {
        if !self.goes_on {
            return Ok(false);
        }
        let mut room = [0; BLOCK];
        let count = read_part(reader, &mut room)?;
        self.events.push(&room[..count])?;
        Ok(count > 0)
    }

    /// All pieces have come.
    pub(crate) fn end(&mut self)
        ensures come { (pieces : List (List ℕ)) (events : List Event) → HasCome self.old pieces events → HasCome self.new pieces events }
        ensures same { KnowsTheSame self.old self.new }
    {
        self.is_ended = true;
    }

    /// Looks for the event that is to be taken next, unless it is known.
    pub(crate) fn look(&mut self) -> Result<Sight, AllocError>
        ensures looks { OnOk result ((pieces : List (List ℕ)) (events : List Event) → HasCome self.old pieces events → LooksOn self.old self.new pieces events) }
        ensures over { IfOk result (λ sight. sight ≡ Sight.Clear → self.new.next ≡ None → self.new.is_over ≡ true) }
    {
        if self.next.is_some() || self.is_over {
            return Ok(Sight::Clear);
        }
        match self.events.next()? {
            NextEvent::Read(event) => {
                self.sides.add(&event);
                self.next = Some(event);
                Ok(Sight::Clear)
            }
            NextEvent::Waits if !self.is_ended => Ok(Sight::Waits),
            NextEvent::Waits if self.events.is_all_read() => {
                self.is_over = true;
                Ok(Sight::Clear)
            }
            NextEvent::Waits => Ok(Sight::Fault),
            NextEvent::Fault => Ok(Sight::Fault),
        }
    }

    /// Whether all events were taken of all that has come.
    pub(crate) fn is_all_taken(&self) -> bool
        ensures over { IsTrue result → self.now.is_over ≡ true }
        ensures next { IsTrue result → self.now.next ≡ None }
        ensures all { IsTrue result → (pieces : List (List ℕ)) (events : List Event) → HasCome self.now pieces events → AreAllOf pieces events }
    {
        self.is_over && self.next.is_none() && self.events.is_all_read()
    }
}

/// Whether these first bytes of a piece are as many as a heading has, or more.
fn is_past_heading(begun: &[u8]) -> bool
    ensures long { result ≡ true → 6 ≤ length begun.now }
    ensures short { result ≡ false → length begun.now < 6 }
{
    begun.len() >= HEADING
}
