//! The lines of a sender's journal that matter for messages without an answer.
ghost use Rattle.std.specs.Prelude.{◌≡◌, ◌+◌, ◌<◌, ◌≤◌, ◌++◌, ℕ, [], IfOk, IfSome, IfNone, OnOk, length};
ghost use Rattle.amo_lines.specs.Backlog.{kept_on};
ghost use Rattle.amo_live.specs.Unanswered.{ended, forgotten, keeping, step_of, stepped, text_of};

use crate::stream_lines::{Kind, StreamLines};
use amo_core::Mode;
use std::alloc::{AllocError, Global};
use std::marker::Model;

/// Of each stream of a sender those lines of its journal that tell of messages without an answer, each whole: the puts of these messages, how the handshake
/// began that is open, and how its accept came, in the order in which they were written. Read from rest, they bring the stream's sender to where the
/// whole journal does. Contracts see the lines of each stream.
#[derive(Drop)]
pub(crate) struct Unanswered {
    alloc: Global,
    streams: Vec<StreamLines>,
    // Buffers of lines that are kept no more.
    spare: Vec<Vec<u8>>,
}

impl Model for Unanswered {
    ghost use Rattle.amo_live.specs.Unanswered.{KeptLines};

    ghost Value = { KeptLines };

    ghost view = { λ u. u.streams.items };
}

/// What becomes of a stream's lines at an event that is none of its client's.
#[derive(Clone, Copy)]
pub(crate) enum Step {
    /// The event's line is kept.
    Keep,
    /// It ended a handshake.
    End,
    /// All are forgotten.
    Forget,
    /// Nothing.
    Nothing,
}

/// That step, where the sender was in one mode and is in the other now.
pub(crate) fn step_of(before: Option<Mode>, after: Mode) -> Step
    ensures { result ≡ step_of before after }
{
    match (before, after) {
        (Some(Mode::Quiet), Mode::NeedId) | (Some(Mode::NeedId), Mode::Send) => Step::Keep,
        (Some(Mode::Send), Mode::Quiet) => Step::End,
        (_, Mode::Down) => Step::Forget,
        _ => Step::Nothing,
    }
}

impl Unanswered {
    /// Nothing is kept, of so many streams.
    pub(crate) fn new(alloc: Global, streams: u32) -> Result<Unanswered, AllocError>
        ensures many { IfOk result (λ unanswered. length unanswered ≡ streams) }
        ensures none { IfOk result (λ unanswered. (stream : ℕ) → kept_on stream unanswered ≡ []) }
    {
        let mut lines = Vec::new(alloc);
        'streams: for _stream in 0..streams {
            lines.push(StreamLines::new(alloc))?;
        }
        Ok(Unanswered {
            alloc,
            streams: lines,
            spare: Vec::new(alloc),
        })
    }

    /// This line of a stream was written. It is kept, where there is such a stream.
    pub(crate) fn keep(&mut self, stream: u32, kind: Kind, line: &[u8]) -> Result<(), AllocError>
        ensures { OnOk result (self.new ≡ keeping stream (record { kind = kind; text = line.now }) self.old) }
    {
        let Some(place) = self.place_of(stream) else {
            return Ok(());
        };
        self.streams[place].keep(self.alloc, &mut self.spare, kind, line)
    }

    /// A handshake of so many messages ended on a stream: its first so many puts are kept no more, nor how that began and how its accept came.
    pub(crate) fn end(&mut self, stream: u32, messages: u64)
        ensures { self.new ≡ ended stream messages self.old }
    {
        if let Some(place) = self.place_of(stream) {
            self.streams[place].end(&mut self.spare, messages);
        }
    }

    /// A stream's sender crashed: none of its lines is kept any more.
    pub(crate) fn forget(&mut self, stream: u32)
        ensures { self.new ≡ forgotten stream self.old }
    {
        if let Some(place) = self.place_of(stream) {
            self.streams[place].forget();
        }
    }

    /// An event at a stream's sender left this step to be done, with its line. So many messages travelled in the handshake, if it ended one.
    pub(crate) fn step(
        &mut self,
        step: Step,
        stream: u32,
        messages: u64,
        line: &[u8],
    ) -> Result<(), AllocError>
        ensures { OnOk result (self.new ≡ stepped step stream messages line.now self.old) }
    {
        match step {
            Step::Keep => self.keep(stream, Kind::Handshake, line),
            Step::End => {
                self.end(stream, messages);
                Ok(())
            }
            Step::Forget => {
                self.forget(stream);
                Ok(())
            }
            Step::Nothing => Ok(()),
        }
    }

    /// Appends the lines that are kept, stream after stream.
    pub(crate) fn push_lines(&self, text: &mut Vec<u8>) -> Result<(), AllocError>
        ensures { OnOk result (text.new.items ≡ text.old.items ++ text_of self.now) }
    {
        push_streams(self.streams.as_slice(), text)
    }

    /// The place of a stream's lines, if it has one.
    fn place_of(&self, stream: u32) -> Option<usize>
        ensures some { IfSome result (λ place. (place < length self.now) × (stream ≡ place + 1)) }
        ensures none { IfNone result (1 ≤ stream → length self.now < stream) }
    {
        let place = (stream as usize).checked_sub(1)?;
        if place < self.streams.len() {
            Some(place)
        } else {
            None
        }
    }
}

/// Appends the lines of these streams.
fn push_streams(streams: &[StreamLines], text: &mut Vec<u8>) -> Result<(), AllocError>
    ensures { OnOk result (text.new.items ≡ text.old.items ++ text_of streams.now) }
{
    'streams: for lines in streams {
        lines.push_to(text)?;
    }
    Ok(())
}
