//! A reader of what was got that goes on as the journal grows.
ghost use Rattle.std.specs.Prelude.{◌≡◌, ◌≢◌, Option, Bool, ◌<◌, ◌+◌, ◌^◌, ◌++◌, ◌∷◌, [], ℕ, List, length, IfOk, OnOk};
ghost use Rattle.amo_journal.specs.declared.numbered.Numbered.{Numbered};
ghost use Rattle.amo_journal.specs.declared.version.Version.{Version};
ghost use Rattle.amo_journal.specs.Journal.{InRange, line_text};
ghost use Rattle.amo_world.specs.declared.event.Event.{Event};
ghost use Rattle.amo_telling.specs.Got.{Stops, event_line, is_after, is_receivers};
ghost use Rattle.amo_telling.specs.Gets.{AreGotFurther, HaveRead, if_receives};

use crate::Reading;
use crate::shown::push_got;
use amo_journal::{Lines, line_in_front};
use amo_object::End;
use amo_text::next_line;
use amo_world::{Act, Event, Reply};
use std::alloc::{AllocError, Global};

/// The most lines that are read, so that each line has a number and a place that can be told.
const MOST: usize = usize::MAX - 2;

/// A reader of a receiver's journal, which tells which messages were got, and goes on as the journal grows. Of what it has read it keeps two
/// counts, and no line.
#[derive(Clone, Copy)]
pub struct Gets {
    /// Only lines of greater numbers are told, if there is one.
    after: Option<u64>,
    /// Each line that is told is a JSON object.
    json: bool,
    /// How many lines were read.
    lines: usize,
    /// Whether an event was a receiver's.
    receives: bool,
}

impl Gets {
    /// A reader that has read nothing. Where a number is given, it tells only of lines of greater numbers; in JSON, if that is asked for.
    pub fn new(after: Option<u64>, json: bool) -> Gets
        ensures { HaveRead after json result [] }
    {
        Gets {
            after,
            json,
            lines: 0,
            receives: false,
        }
    }

    /// How many lines were read.
    pub fn lines(&self) -> usize
        ensures { (after : Option ℕ) (json : Bool) (events : List Event) → HaveRead after json self.now events → result ≡ length events }
    {
        self.lines
    }

    /// Reads lines that go on where it stopped, and appends to the text a line `NUMBER STREAM MESSAGE` for each message that a get answered. The
    /// number is that of the get's own line.
    ///
    /// Answers what is left behind the lines that were read, and how far all lines read, from the first of the journal on: a last line without
    /// its end is left, and is to be read again with what comes behind it. Where memory is refused, neither reader nor text is of use.
    pub fn read_on<'a>(
        &mut self,
        alloc: Global,
        lines: Lines<'a>,
        text: &mut Vec<u8>,
    ) -> Result<(Lines<'a>, Reading), AllocError>
        ensures version { IfOk result (λ read. read.0.version ≡ lines.entry.version) }
        ensures told { IfOk result (λ read. (after : Option ℕ) (json : Bool) (past : List Event) → HaveRead after json self.old past
            → (events : List Event) × (more : List ℕ) × HaveRead after json self.new (past ++ events) × (text.new.items ≡ text.old.items ++ more)
            × AreGotFurther after json past lines.entry read.0.text.now read.1 events more) }
    {
        let mut rest = lines;
        while !rest.text.is_empty() {
            if self.lines >= MOST {
                return Ok((rest, Reading::TooLong));
            }
            let Some((line, more)) = line_in_front(alloc, rest)? else {
                let reading = self.stopped(rest.text);
                return Ok((rest, reading));
            };
            if line.number != self.lines as u64 {
                return Ok((rest, Reading::Gap(self.lines + 1)));
            }
            self.take(&line.event, text)?;
            rest = more;
        }
        let reading = self.whole();
        Ok((rest, reading))
    }

    /// The event of one line more.
    fn take(&mut self, event: &Event, text: &mut Vec<u8>) -> Result<(), AllocError>
        requires { self.old.lines + 1 < 2 ^ 64 }
        ensures taken { OnOk result ((after : Option ℕ) (json : Bool) (past : List Event) → HaveRead after json self.old past
            → HaveRead after json self.new (past ++ event.now ∷ []) × (text.new.items ≡ text.old.items ++ event_line after json self.old.lines event.now)) }
        ensures counted { OnOk result (self.new.lines ≡ self.old.lines + 1) }
    {
        push_event(text, self.lines as u64, event, self.after, self.json)?;
        self.lines += 1;
        self.receives |= is_receivers(event.side);
        Ok(())
    }

    /// How far the lines read, where no line stands in front of what is left.
    fn stopped(&self, rest: &[u8]) -> Reading
        requires { self.now.lines + 1 < 2 ^ 64 }
        ensures { (version : Version) (after : Option ℕ) (json : Bool) (events : List Event) → HaveRead after json self.now events
            → ((line : Numbered) (more : List ℕ) → InRange version line → rest.now ≢ line_text line ++ more) → Stops version events rest.now result }
    {
        match next_line(rest) {
            Some(_) => Reading::Malformed(self.lines + 1),
            None => self.whole(),
        }
    }

    /// How far the lines read, where nothing is left.
    fn whole(&self) -> Reading
        ensures { result ≡ if_receives self.now.receives self.now.lines }
    {
        if self.receives || self.lines == 0 {
            Reading::Whole
        } else {
            Reading::OfSender
        }
    }
}

/// Appends what is written of the event of a line of this number.
fn push_event(
    text: &mut Vec<u8>,
    number: u64,
    event: &Event,
    after: Option<u64>,
    json: bool,
) -> Result<(), AllocError>
    ensures { OnOk result (text.new.items ≡ text.old.items ++ event_line after json number event.now) }
{
    match (&event.act, &event.reply) {
        (Act::Get, Reply::Got(message)) if is_after(after, number) => {
            push_got(text, number, event.stream, message.bytes(), json)
        }
        _ => Ok(()),
    }
}

/// Whether lines of this number are written.
fn is_after(after: Option<u64>, number: u64) -> bool
    ensures { result ≡ is_after after number }
{
    match after {
        None => true,
        Some(least) => least < number,
    }
}

/// Whether an event at this side is one of a receiver.
fn is_receivers(side: End) -> bool
    ensures { result ≡ is_receivers side }
{
    side == End::Receiver
}
