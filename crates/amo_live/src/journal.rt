//! The journal of a live host.
ghost use Rattle.std.specs.Prelude.{◌≡◌, ◌+◌, ◌-◌, ◌^◌, ◌<◌, ◌↔◌, [], List, IfErr, IfOk, IsErrOf, OnOk, OnErr};
ghost use Rattle.amo_world.specs.declared.event.Event.{Event};
ghost use Rattle.amo_journal.specs.Journal.{CanSpell, line_text};
ghost use Rattle.amo_live.specs.Noted.{Adds, AddsFront, Holds, IsSameJournal, beginning, going_on};

use crate::{Durable, LiveFault};
use amo_journal::{Version, push_line};
use amo_text::{Sink, write_all};
use amo_world::Event;
use std::alloc::Global;
use std::marker::Model;
use std::snapshot::Snapshot;

/// A journal that goes on. Contracts see its version, its sink, the number of its next line, of how many of the next events the lines stand, and the line of
/// the last event; and of when it was opened its sink, the number of the first line to come, what was to stand in front of that, and of how many events the lines stood.
#[derive(Drop)]
pub struct Journal<S> {
    version: Version,
    sink: S,
    /// The line of the last event, whole before it is written.
    line: Vec<u8>,
    next: u64,
    /// Of how many of the next events the lines stand.
    left: u64,
    /// How many bytes of lines it was handed.
    bytes: u64,
    /// How many lines it had when it was opened.
    before: u64,
    opened: Snapshot<S>,
    first: Snapshot<u64>,
    is_new: Snapshot<bool>,
    standing: Snapshot<u64>,
}

impl<S> Model for Journal<S> {
    ghost use Rattle.std.specs.Prelude.{◌≡◌};
    ghost use Rattle.amo_live.specs.Noted.{JournalState, front_of};

    ghost Value = { JournalState S };

    ghost invariant = { λ j. j.before ≡ j.first.value };

    ghost view = { λ j. record { version = j.version; sink = j.sink; next = j.next; left = j.left; last = j.line.items; opened = j.opened.value; first = j.first.value; front = front_of j.is_new.value j.version; standing = j.standing.value } };
}

impl<S: Sink + Drop> Journal<S> {
    /// A new journal of this version in this sink, where there is nothing yet. Its heading is written, whole, before anything else.
    ///
    /// Where that fails a beginning of the heading was written, and the journal can only be begun again.
    pub fn begin(alloc: Global, sink: S, version: Version) -> Result<Journal<S>, LiveFault>
        ensures begun { IfOk result (IsSameJournal (beginning version sink)) }
        ensures headed { IfOk result (λ journal. Holds S.written journal []) }
    {
        let opened = Snapshot::of(&sink);
        let first = Snapshot::of(&0);
        let is_new = Snapshot::of(&true);
        let standing = Snapshot::of(&0);
        let mut sink = sink;
        let Ok(()) = write_all(&mut sink, version.heading()) else {
            return Err(LiveFault::Journal);
        };
        Ok(Journal {
            version,
            sink,
            line: Vec::new(alloc),
            next: 0,
            left: 0,
            bytes: 0,
            before: 0,
            opened,
            first,
            is_new,
            standing,
        })
    }
}

impl<S: Sink> Journal<S> {
    /// A journal that goes on in this sink, in its version and behind so many lines. The last of these are the lines of so many of its first events,
    /// in their order: what a host does first when it comes back, and the host before it did last.
    pub fn go_on(alloc: Global, sink: S, version: Version, lines: u64, standing: u64) -> Journal<S>
        ensures { result ≡ going_on version sink lines standing }
    {
        let left = standing;
        let opened = Snapshot::of(&sink);
        let first = Snapshot::of(&lines);
        let is_new = Snapshot::of(&false);
        let standing = Snapshot::of(&standing);
        Journal {
            version,
            sink,
            line: Vec::new(alloc),
            next: lines,
            left,
            bytes: 0,
            before: lines,
            opened,
            first,
            is_new,
            standing,
        }
    }

    /// Its version, which says which events have a line.
    pub fn version(&self) -> Version
        ensures { result ≡ self.now.version }
    {
        self.version
    }

    /// The number of the next line.
    pub fn next_line(&self) -> u64
        ensures { result ≡ self.now.next }
    {
        self.next
    }

    /// How many lines it had when it was opened.
    pub fn lines_before(&self) -> u64
        ensures { result ≡ self.now.first }
    {
        self.before
    }

    /// How many bytes of lines it was handed since it was opened.
    pub fn bytes(&self) -> u64 {
        self.bytes
    }

    /// The line of the last event since it was opened, whole, its number and its end too; empty where there was none.
    pub fn last_line(&self) -> &[u8]
        ensures { result.now ≡ self.now.last }
    {
        self.line.as_slice()
    }

    /// Writes the line of this event, whole, with the next number; unless it stands already.
    ///
    /// Where that fails a beginning of the line was written, and the journal can only be opened again. It is full where no number is left, and its
    /// device failed where a call of the sink did.
    pub fn note(&mut self, event: &Event) -> Result<(), LiveFault>
        requires { CanSpell self.old.version event.now }
        ensures noted { OnOk result (Adds S.written self.old self.new event.now) }
        ensures begun { OnErr result (AddsFront S.written self.old self.new event.now) }
        ensures full { IsErrOf result LiveFault.Full ↔ (self.old.next + 1 ≡ 2 ^ 64) }
        ensures device { IsErrOf result LiveFault.Journal ↔ (S.failures self.old.sink < S.failures self.new.sink) }
    {
        if self.next == u64::MAX {
            return Err(LiveFault::Full);
        }
        self.make_line(event)?;
        if self.left > 0 {
            self.left -= 1;
            return Ok(());
        }
        let Ok(()) = write_all(&mut self.sink, self.line.as_slice()) else {
            return Err(LiveFault::Journal);
        };
        self.next += 1;
        self.bytes = self.bytes.saturating_add(self.line.len() as u64);
        Ok(())
    }

    /// Makes the line of the next event: with the next number, or, where it stands already, with its own.
    fn make_line(&mut self, event: &Event) -> Result<(), LiveFault>
        requires { CanSpell self.old.version event.now }
        ensures made { OnOk result (self.new.last ≡ line_text (record { number = self.old.next - self.old.left; event = event.now })) }
        ensures same { self.new ≡ record self.old { last = self.new.last } }
        ensures memory { IfErr result (λ fault. fault ≡ LiveFault.NoMemory) }
    {
        let number = self.next.saturating_sub(self.left);
        self.line.clear();
        match push_line(&mut self.line, number, event) {
            Ok(()) => Ok(()),
            Err(_) => Err(LiveFault::NoMemory),
        }
    }
}

impl<S: Durable> Journal<S> {
    /// How many pieces it has begun since it was opened.
    pub fn pieces_begun(&self) -> u64 {
        self.sink.pieces_begun()
    }

    /// Hands all lines to the system. It fails where the sink does, and only there.
    #[tactic(auto, using(crate::proofs::Onwards::holds_kept))]
    pub fn flush(&mut self) -> Result<(), LiveFault>
        ensures flushed { OnOk result (S.flushed self.new.sink ≡ S.written self.new.sink) }
        ensures calm { OnOk result (S.failures self.new.sink ≡ S.failures self.old.sink) }
        ensures failed { OnErr result (S.failures self.new.sink ≡ S.failures self.old.sink + 1) }
        ensures same { IsSameJournal self.old self.new }
        ensures holds { (history : List Event) → Holds S.written self.old history → Holds S.written self.new history }
    {
        match self.sink.flush() {
            Ok(()) => Ok(()),
            Err(_) => Err(LiveFault::Journal),
        }
    }

    /// Puts all lines on the disk. It fails where the sink does, and only there.
    #[tactic(auto, using(crate::proofs::Onwards::holds_kept))]
    pub fn sync(&mut self) -> Result<(), LiveFault>
        ensures flushed { OnOk result (S.flushed self.new.sink ≡ S.written self.new.sink) }
        ensures on_disk { OnOk result (S.on_disk self.new.sink ≡ S.written self.new.sink) }
        ensures calm { OnOk result (S.failures self.new.sink ≡ S.failures self.old.sink) }
        ensures failed { OnErr result (S.failures self.new.sink ≡ S.failures self.old.sink + 1) }
        ensures same { IsSameJournal self.old self.new }
        ensures holds { (history : List Event) → Holds S.written self.old history → Holds S.written self.new history }
    {
        match self.sink.sync() {
            Ok(()) => Ok(()),
            Err(_) => Err(LiveFault::Journal),
        }
    }
}
