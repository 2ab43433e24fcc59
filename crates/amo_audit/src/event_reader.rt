//! The events of a journal whose text comes part by part, wherever the parts end.
ghost use Rattle.std.specs.Prelude.{◌≡◌, ◌++◌, ◌↔◌, [], Some, List, ℕ, drop, length, IfOk, IsTrue, OnOk};
ghost use Rattle.amo_world.specs.declared.event.Event.{Event};
ghost use Rattle.amo_world.specs.Stream.{IsStream};
ghost use Rattle.amo_journal.specs.declared.lines.Lines.{Lines};
ghost use Rattle.amo_journal.specs.declared.version.Version.{Version};
ghost use Rattle.amo_journal.specs.Journal.{InRange, line_text};
ghost use Rattle.amo_journal.specs.Lines.{Tell};
ghost use Rattle.amo_pieces.specs.Journal.{IsWhole};
ghost use Rattle.amo_audit.specs.Audit.{AreOf};
ghost use Rattle.amo_audit.specs.Reader.{HasRead, HasReadHeading, IsOnStream, read_by};

use crate::judged_lines::has_end;
use crate::text_audit::{is_whole, keep_last};
use amo_journal::{Lines, Numbered, Version, line_in_front, open};
use amo_world::Event;
use std::alloc::{AllocError, Global};

/// What comes next of a journal.
#[derive(Drop)]
pub(crate) enum NextEvent {
    /// This event.
    Read(Event),
    /// None before more of its text has come.
    Waits,
    /// A line that is malformed, or has another number than the next one has.
    Fault,
}

/// Reads the events of a journal whose text comes part by part. Of the text only what has not been read is kept, and what came with it.
#[derive(Drop)]
pub(crate) struct EventReader {
    alloc: Global,
    /// The version, once the first line has come.
    version: Option<Version>,
    text: Vec<u8>,
    /// How many bytes of it, in front, were read.
    read: usize,
    /// How many events were read.
    events: u64,
    /// Whether the end of a line may stand in what was not read.
    may_have_line: bool,
    /// Whether each line that has come has its end.
    is_whole: bool,
}

impl EventReader {
    /// Nothing has come yet.
    pub(crate) fn new(alloc: Global) -> EventReader
        ensures { HasRead result [] [] }
    {
        EventReader {
            alloc,
            version: None,
            text: Vec::new(alloc),
            read: 0,
            events: 0,
            may_have_line: false,
            is_whole: true,
        }
    }

    /// Whether each line that has come has its end.
    pub(crate) fn is_whole(&self) -> bool
        ensures { (text : List ℕ) (events : List Event) → HasRead self.now text events → IsTrue result ↔ IsWhole text }
    {
        self.is_whole
    }

    /// The journal's version, once its first line has come.
    pub(crate) fn version(&self) -> Option<Version>
        ensures { result ≡ self.now.version }
    {
        self.version
    }

    /// What has come and was not read.
    fn rest(&self) -> &[u8]
        ensures { result.now ≡ drop self.now.read self.now.text.items }
    {
        self.text.get(self.read..).unwrap_or(&[])
    }

    /// Takes the next part of the text. Where memory is refused, it is of no more use.
    pub(crate) fn push(&mut self, bytes: &[u8]) -> Result<(), AllocError>
        ensures { OnOk result ((text : List ℕ) (events : List Event) → HasRead self.old text events → HasRead self.new (text ++ bytes.now) events) }
    {
        if bytes.is_empty() {
            return Ok(());
        }
        let left = self.rest().len();
        keep_last(&mut self.text, left);
        self.text.extend_from_slice(bytes)?;
        self.read = 0;
        self.is_whole = is_whole(bytes);
        if has_end(bytes) {
            self.may_have_line = true;
            match self.version {
                None => self.read_heading(),
                Some(_) => {}
            }
        }
        Ok(())
    }

    /// Reads the heading, since the first line has come.
    fn read_heading(&mut self)
        ensures { HasReadHeading self.old self.new }
    {
        let version = open(self.text.as_slice()).version;
        self.read = version.heading().len();
        self.version = Some(version);
    }

    /// The next event.
    pub(crate) fn next(&mut self) -> Result<NextEvent, AllocError>
        ensures read { IfOk result (λ next. (text : List ℕ) (events : List Event) → HasRead self.old text events → HasRead self.new text (events ++ read_by next)) }
        ensures stream { IfOk result IsOnStream }
    {
        let Some(version) = self.version else {
            return Ok(NextEvent::Waits);
        };
        if !self.may_have_line {
            return Ok(NextEvent::Waits);
        }
        let rest = self.rest();
        match line_in_front(
            self.alloc,
            Lines {
                version,
                text: rest,
            },
        )? {
            Some((line, more)) => {
                let left = more.text.len();
                Ok(self.take(line, left))
            }
            None => {
                self.may_have_line = false;
                Ok(if has_end(self.rest()) {
                    NextEvent::Fault
                } else {
                    NextEvent::Waits
                })
            }
        }
    }

    /// Takes a line that was read, behind which so many bytes are left, if it has the next number.
    fn take(&mut self, line: Numbered, left: usize) -> NextEvent
        requires { IsStream line.event.stream }
        ensures read { (version : Version) (more text : List ℕ) (events : List Event) → self.old.version ≡ Some version → InRange version line
            → drop self.old.read self.old.text.items ≡ line_text line ++ more → left ≡ length more → HasRead self.old text events → HasRead self.new text (events ++ read_by result) }
        ensures stream { IsOnStream result }
    {
        if line.number != self.events {
            return NextEvent::Fault;
        }
        let Some(events) = self.events.checked_add(1) else {
            return NextEvent::Fault;
        };
        self.events = events;
        self.read = self.text.len().saturating_sub(left);
        NextEvent::Read(line.event)
    }

    /// Whether all that has come was read.
    pub(crate) fn is_all_read(&self) -> bool
        ensures { IsTrue result → (text : List ℕ) (events : List Event) → HasRead self.now text events → (lines : Lines) × AreOf text lines × Tell events lines }
    {
        self.rest().is_empty()
    }
}
