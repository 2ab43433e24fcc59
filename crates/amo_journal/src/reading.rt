//! Reads journals.
ghost use Rattle.std.specs.Prelude.{◌≡◌, ◌+◌, ◌<◌, ◌^◌, ◌++◌, ◌∷◌, [], ℕ, List, IfOk, IfErr, OnOk};
ghost use Rattle.std.specs.List.{All};
ghost use Rattle.amo_packet.specs.Stream.{IsStream};
ghost use Rattle.amo_world.specs.declared.event.Event.{Event};
ghost use Rattle.amo_journal.specs.declared.numbered.Numbered.{Numbered};
ghost use Rattle.amo_journal.specs.declared.version.Version.{Version};
ghost use Rattle.amo_journal.specs.Journal.{AreEvents, IsJournal, SpellsLines};
ghost use Rattle.amo_journal.specs.Fault.{Faults, LinesFault};
ghost use Rattle.amo_journal.specs.Gathering.{Gathers};

use crate::{JournalFault, Lines, Numbered, TakeEvents, line_in_front, open};
use amo_world::Event;
use std::alloc::{AllocError, Global};

/// Reads a journal of either version. The bytes are the journal of the events that it answers, and of no others.
///
/// [`JournalFault::Malformed`] names the first line that is malformed. Where each line reads, [`JournalFault::Gap`]
/// names the first one whose number is not how many events are before it.
pub fn read_journal(alloc: Global, bytes: &[u8]) -> Result<Vec<Event>, JournalFault>
    ensures spelt { IfOk result (λ events. IsJournal events.items bytes.now) }
    ensures only { IfOk result (λ events. (others : List Event) → IsJournal others bytes.now → others ≡ events.items) }
    ensures streams { IfOk result (λ events. All (λ e. IsStream e.stream) events.items) }
    ensures fault { IfErr result (λ fault. Faults bytes.now fault) }
{
    let lines = open(bytes);
    match read_events(alloc, lines) {
        Ok(events) => Ok(events),
        Err(fault) => Err(fault.further(lines.version.lines_before())),
    }
}

/// Reads the lines behind a heading. A fault counts them from 1.
pub fn read_events(alloc: Global, lines: Lines<'_>) -> Result<Vec<Event>, JournalFault>
    ensures spelt { IfOk result (λ events. AreEvents lines.entry.version events.items lines.entry.text.now) }
    ensures streams { IfOk result (λ events. All (λ e. IsStream e.stream) events.items) }
    ensures fault { IfErr result (λ fault. LinesFault lines.entry.version lines.entry.text.now fault) }
{
    read_into(alloc, lines, Vec::new(alloc))
}

/// Reads the lines behind a heading in one pass, and has their events taken on the way. No line is kept. A fault counts them from 1, and comes
/// as in [`read_journal`]; events behind a gap are not taken.
pub fn read_into<T: TakeEvents + Drop>(
    alloc: Global,
    lines: Lines<'_>,
    taker: T,
) -> Result<T, JournalFault>
    requires { T.HasTaken taker [] }
    ensures taken { IfOk result (λ taker. (events : List Event) × AreEvents lines.entry.version events lines.entry.text.now × T.HasTaken taker events) }
    ensures fault { IfErr result (λ fault. LinesFault lines.entry.version lines.entry.text.now fault) }
{
    let mut reading = Reading::new(taker);
    let mut rest = lines;
    while !rest.text.is_empty() {
        let Some((line, more)) = line_in_front(alloc, rest)? else {
            return Err(JournalFault::Malformed(reading.lines + 1));
        };
        reading.take(line)?;
        rest = more;
    }
    reading.finish()
}

/// What was read so far: what took the events before the first gap, and where that is.
#[derive(Drop)]
struct Reading<T> {
    taker: T,
    lines: usize,
    gap: Option<usize>,
}

impl<T: TakeEvents + Drop> Reading<T> {
    fn new(taker: T) -> Reading<T>
        requires { T.HasTaken taker [] }
        ensures { Gathers T.HasTaken result.taker result.lines result.gap [] }
    {
        Reading {
            taker,
            lines: 0,
            gap: None,
        }
    }

    /// Reads one line more.
    fn take(&mut self, line: Numbered) -> Result<(), AllocError>
        requires stream { IsStream line.event.stream }
        requires few { self.old.lines + 1 < 2 ^ 64 }
        ensures gathers { OnOk result ((lines : List Numbered) → Gathers T.HasTaken self.old.taker self.old.lines self.old.gap lines
            → Gathers T.HasTaken self.new.taker self.new.lines self.new.gap (lines ++ line ∷ [])) }
        ensures counted { self.new.lines ≡ self.old.lines + 1 }
    {
        let number = self.lines;
        self.lines += 1;
        match self.gap {
            Some(_) => Ok(()),
            None if line.number == number as u64 => self.taker.take(number, line.event),
            None => {
                self.gap = Some(number + 1);
                Ok(())
            }
        }
    }

    /// What took the events, if no line more comes.
    fn finish(self) -> Result<T, JournalFault>
        ensures taken { IfOk result (λ taker. (version : Version) (lines : List Numbered) (body : List ℕ) → Gathers T.HasTaken self.taker self.lines self.gap lines
            → SpellsLines version body lines → (events : List Event) × AreEvents version events body × T.HasTaken taker events) }
        ensures fault { IfErr result (λ fault. (version : Version) (lines : List Numbered) (body : List ℕ) → Gathers T.HasTaken self.taker self.lines self.gap lines
            → SpellsLines version body lines → LinesFault version body fault) }
    {
        match self.gap {
            None => Ok(self.taker),
            Some(line) => Err(JournalFault::Gap(line)),
        }
    }
}
