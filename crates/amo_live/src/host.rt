//! A live host: how it opens, hears and sends.
ghost use Rattle.std.specs.Prelude.{◌≡◌, ◌+◌, ◌<◌, ◌≤◌, ℕ, [], Contains, IfNone, IfOk, IfSome, Some, IsTrue, ◌↔◌, OnOk, OnErr, length, min, true};
ghost use Rattle.amo_packet.specs.Packet.{body_of, packet_of};
ghost use Rattle.amo_packet.specs.Grammar.{CanBeWritten, Spells};
ghost use Rattle.amo_packet.specs.Stream.{IsStream};
ghost use Rattle.amo_journal.specs.Version.{newest};
ghost use Rattle.amo_core.specs.declared.mode.Mode.{Mode};
ghost use Rattle.amo_core.specs.Summary.{summary_of};
ghost use Rattle.amo_book.specs.Book.{Each};
ghost use Rattle.amo_book.specs.Pass.{automaton_after};
ghost use Rattle.amo_host.specs.AtStream.{AreCalm, HasMode, IsDue, IsNextDue};
ghost use Rattle.amo_host.specs.Host.{streams_of};
ghost use Rattle.amo_live.specs.Emitted.{WasEmitted};
ghost use Rattle.amo_live.specs.Host.{IsHost, IsNoted, IsOpened, IsWhole, sides_from};
ghost use Rattle.amo_live.specs.Noted.{Holds, IsSameJournal};
ghost use Rattle.amo_live.specs.OpenLines.{senders_of};
ghost use Rattle.amo_lines.specs.Backlog.{kept_on};

use crate::outbox::Outbox;
use crate::unanswered::Unanswered;
use crate::{Durable, GivenWord, Journal, LiveFault, Traffic};
use amo_book::{Book, OpenFault, Pass};
use amo_core::{Mode, Summary};
use amo_host::{NewPumpFault, Pump};
use amo_journal::Version;
use amo_net::{Link, MAX_DATAGRAM};
use amo_object::End;
use amo_packet::{MAX_PACKET, Packet, ReadFault, read, read_1};
use amo_text::Sink;
use amo_window::{MAX_PERMITS, Pace};
use std::alloc::{AllocError, Global};
use std::marker::Model;

/// How many passes the book has: a book has two at least.
const PASSES: usize = 2;

/// One side of some streams, in a process of its own. Contracts see its side, its book, the pass that calls, the other one, its pump, its link, the packets
/// that are to leave, its journal, and the lines that it keeps of that.
#[derive(Drop)]
pub struct Host<L, S> {
    pub(crate) alloc: Global,
    pub(crate) side: End,
    pub(crate) streams: u32,
    pub(crate) book: Book,
    pub(crate) pass: Pass,
    // It calls nothing. Once it met the other, that one's events are known to be all that there are.
    pub(crate) other: Pass,
    pub(crate) pump: Pump<GivenWord>,
    pub(crate) link: L,
    // An act writes the packet here that it emits.
    pub(crate) room: [u8; MAX_PACKET],
    pub(crate) outbox: Outbox,
    pub(crate) journal: Journal<S>,
    /// The lines of a sender's journal that tell of messages without an answer. A receiver has none.
    pub(crate) unanswered: Unanswered,
    pub(crate) traffic: Traffic,
}

impl<L, S> Model for Host<L, S> {
    ghost use Rattle.amo_live.specs.Host.{HostState, IsHost};

    ghost Value = { HostState L S };

    ghost view = { λ h. record { side = h.side; streams = h.streams; book = h.book; pass = h.pass; other = h.other; pump = h.pump; link = h.link; outbox = h.outbox; journal = h.journal; unanswered = h.unanswered } };

    ghost invariant = { λ h. IsHost (record { side = h.side; streams = h.streams; book = h.book; pass = h.pass; other = h.other; pump = h.pump; link = h.link; outbox = h.outbox; journal = h.journal; unanswered = h.unanswered }) };
}

impl<L: Link + Drop, S: Sink + Drop> Host<L, S> {
    /// A host of this side of the streams from 1 on, 1 to 256 of them, that has made no event, and has a handshake open on 64 of them at most.
    /// Streams are sent again at this pace, in microseconds. Its journal is one of which no line was written yet, but the heading was, if it is new.
    #[tactic(auto, using(crate::proofs::Opens::may_open))]
    pub fn open(
        alloc: Global,
        side: End,
        streams: u32,
        pace: Pace,
        link: L,
        journal: Journal<S>,
    ) -> Result<Host<L, S>, LiveFault>
        requires streams { (1 ≤ streams) × (streams ≤ 256) }
        requires unwritten { Holds S.written journal [] }
        ensures opened { IfOk result (IsOpened side streams link journal) }
        ensures noted { IfOk result (IsNoted S.written) }
        ensures unanswered { IfOk result (λ host. (stream : ℕ) → kept_on stream host.unanswered ≡ []) }
    {
        let sides = sides_of(alloc, side, streams)?;
        match Book::open(alloc, sides, PASSES) {
            Ok((book, passes, charges)) => {
                let mut passes = passes;
                let Some(pass) = passes.pop() else {
                    unreachable!()
                };
                let Some(other) = passes.pop() else {
                    unreachable!()
                };
                let outbox = Outbox::new(alloc, charges.len())?;
                let unanswered = Unanswered::new(alloc, senders_of(side, streams))?;
                let words = GivenWord { word: None };
                let pump = match Pump::paced(alloc, charges, window_of(streams), words, pace) {
                    Ok(pump) => pump,
                    Err(NewPumpFault::NoMemory(_, _)) => return Err(LiveFault::NoMemory),
                    Err(NewPumpFault::Limits(_, _)) => unreachable!(),
                };
                Ok(Host {
                    alloc,
                    side,
                    streams,
                    book,
                    pass,
                    other,
                    pump,
                    link,
                    room: [0; MAX_PACKET],
                    outbox,
                    journal,
                    unanswered,
                    traffic: Traffic::default(),
                })
            }
            Err(OpenFault::NoMemory) => Err(LiveFault::NoMemory),
            Err(OpenFault::Limits) => unreachable!(),
        }
    }
}

impl<L: Link, S: Sink> Host<L, S> {
    /// The length of the datagram that has come and stands at the front of the buffer, if one has. A failed link brings none.
    pub fn hear(&mut self, buffer: &mut [u8; MAX_DATAGRAM]) -> Option<usize>
        ensures within { IfSome result (λ n. n ≤ MAX_DATAGRAM) }
        ensures heard { IfSome result (λ _. L.failures self.new.link ≡ L.failures self.old.link) }
        ensures same { self.new ≡ record self.old { link = self.new.link } }
    {
        match self.link.receive(buffer) {
            Ok(Some(length)) => {
                self.traffic.received = self.traffic.received.saturating_add(1);
                Some(length)
            }
            Ok(None) => None,
            Err(_) => {
                self.traffic.faults = self.traffic.faults.saturating_add(1);
                None
            }
        }
    }

    /// What went through its link.
    pub fn traffic(&self) -> Traffic {
        self.traffic
    }

    /// The version of the journal, which says which events this host can note.
    pub fn version(&self) -> Version
        ensures { result ≡ self.now.journal.version }
    {
        self.journal.version()
    }

    /// How many lines its journal had when it was opened.
    pub fn lines_before(&self) -> u64
        ensures { result ≡ self.now.journal.first }
    {
        self.journal.lines_before()
    }

    /// How many bytes of lines its journal was handed.
    pub fn journal_bytes(&self) -> u64 {
        self.journal.bytes()
    }

    /// The number of the journal's next line.
    pub fn next_line(&self) -> u64
        ensures { result ≡ self.now.journal.next }
    {
        self.journal.next_line()
    }

    /// The packet that a datagram is, if the journal has a line for its delivery.
    pub fn read<'a>(&self, bytes: &'a [u8]) -> Result<Packet<'a>, ReadFault>
        ensures found { IfOk result (λ p. Spells (newest self.now.journal.version) bytes.now (packet_of p)) }
        ensures fits { IfOk result (λ p. CanBeWritten (body_of p.body)) }
    {
        match self.version() {
            Version::One => read_1(bytes),
            Version::Two => read(bytes),
        }
    }

    /// The side of its streams that it has.
    pub fn side(&self) -> End
        ensures { result ≡ self.now.side }
    {
        self.side
    }

    /// How many streams it has, from 1 on.
    pub fn streams(&self) -> u32
        ensures streams { result ≡ self.now.streams }
        ensures host { IsHost self.now }
    {
        self.streams
    }

    /// The mode of this stream's side, as its last event left it, if the host has the stream.
    pub fn mode_of(&self, stream: u32) -> Option<Mode>
        ensures found { IfSome result (HasMode self.now.pump.host stream) }
        ensures absent { IfNone result (¬ (Contains (streams_of self.now.pump.host.modes) stream)) }
        ensures only { (mode : Mode) → HasMode self.now.pump.host stream mode → result ≡ Some mode }
    {
        self.pump.mode_of(stream)
    }

    /// How this host's side of a stream stands after all that happened at the host. That is what the journal has lines of.
    pub fn look(&mut self, stream: u32) -> Result<Summary, LiveFault>
        ensures stands { IfOk result (λ summary. summary ≡ summary_of (automaton_after self.old.side stream self.old.pass.seen)) }
        ensures whole { OnOk result (IsWhole self.new.pass) }
        ensures same { self.new ≡ record self.old { other = self.new.other } }
    {
        match self.pump.look(&self.book, &mut self.pass, stream) {
            Ok(Some(summary)) => {
                self.book.meet(&mut self.other, &mut self.pass);
                Ok(summary)
            }
            Ok(None) | Err(_) => Err(LiveFault::Busy),
        }
    }

    /// From now on it knows that nothing happened in its book but what it did itself.
    pub(crate) fn meet(&mut self)
        ensures whole { IsWhole self.new.pass }
        ensures same { self.new ≡ record self.old { other = self.new.other } }
    {
        self.book.meet(&mut self.other, &mut self.pass);
    }

    /// Whether no side waits for its peer.
    pub fn are_calm(&self) -> bool
        ensures { IsTrue result ↔ AreCalm self.now.pump.host }
    {
        self.pump.are_calm()
    }

    /// When a stream is to be sent again next, in microseconds.
    pub fn next_due(&self) -> Option<u64>
        ensures { IsNextDue self.now.pump.host result }
    {
        self.pump.next_due()
    }

    /// Whether this stream is to be sent again now.
    pub fn is_due(&self, stream: u32, now: u64) -> bool
        ensures { IsTrue result ↔ IsDue self.now.pump.host stream now }
    {
        self.pump.is_due(stream, now)
    }

    /// The place in the outbox of what this stream's side emitted of late.
    pub(crate) fn place_of(&self, stream: u32) -> Option<usize>
        ensures within { IfSome result (λ place. (place < length self.now.outbox.recent) × IsStream stream) }
        ensures none { IfNone result (¬ ((1 ≤ stream) × (stream ≤ self.now.streams))) }
    {
        if 1 <= stream && stream <= self.streams {
            Some(stream as usize - 1)
        } else {
            None
        }
    }
}

impl<L: Link, S: Durable> Host<L, S> {
    /// How many pieces of its journal it has begun.
    pub fn pieces_begun(&self) -> u64 {
        self.journal.pieces_begun()
    }

    /// Hands the journal's lines to the system, and with `sync` puts them on the disk. It fails where the journal's sink does, and only there.
    pub fn write_down(&mut self, sync: bool) -> Result<(), LiveFault>
        requires { IsNoted S.written self.old }
        ensures flushed { OnOk result (S.flushed self.new.journal.sink ≡ S.written self.new.journal.sink) }
        ensures on_disk { OnOk result (sync ≡ true → S.on_disk self.new.journal.sink ≡ S.written self.new.journal.sink) }
        ensures calm { OnOk result (S.failures self.new.journal.sink ≡ S.failures self.old.journal.sink) }
        ensures failed { OnErr result (S.failures self.new.journal.sink ≡ S.failures self.old.journal.sink + 1) }
        ensures noted { IsNoted S.written self.new }
        ensures journal { IsSameJournal self.old.journal self.new.journal }
        ensures same { self.new ≡ record self.old { journal = self.new.journal } }
    {
        if sync {
            self.journal.sync()
        } else {
            self.journal.flush()
        }
    }

    /// Hands all packets that are to leave to the link, in their order, and answers how often it failed. Of all that the host did by then
    /// the system has the lines: so each of these packets is one that an event emitted whose line is there, also where this process dies now. Those events
    /// are all that happened in its book by now, and a right history. The link's device failed no more often than it answers.
    pub fn send(&mut self) -> u64
        requires noted { IsNoted S.written self.old }
        requires flushed { S.flushed self.old.journal.sink ≡ S.written self.old.journal.sink }
        ensures emitted { Each (WasEmitted self.old.pass) self.old.outbox.leaving }
        ensures whole { IsWhole self.new.pass }
        ensures sent { self.new ≡ record self.old { other = self.new.other; link = self.new.link; outbox = record self.old.outbox { leaving = [] } } }
        ensures counted { L.failures self.new.link ≤ L.failures self.old.link + result }
        ensures few { result ≤ length self.old.outbox.leaving }
    {
        self.book.meet(&mut self.other, &mut self.pass);
        let leaving = self.outbox.leaving() as u64;
        let failed = self.outbox.send(&mut self.link);
        self.traffic.sent = self.traffic.sent.saturating_add(leaving);
        self.traffic.faults = self.traffic.faults.saturating_add(failed);
        failed
    }
}

/// How many handshakes may be open at once where there are so many streams.
fn window_of(streams: u32) -> usize
    requires { 1 ≤ streams }
    ensures result { result ≡ min streams 64 }
    ensures within { (1 ≤ result) × (result ≤ 64) }
{
    (streams as usize).min(MAX_PERMITS)
}

/// Of how many of these streams a host of this side has the sender.
fn senders_of(side: End, streams: u32) -> u32
    ensures { result ≡ senders_of side streams }
{
    match side {
        End::Sender => streams,
        End::Receiver => 0,
    }
}

/// This side of the streams from 1 on.
fn sides_of(alloc: Global, side: End, streams: u32) -> Result<Vec<(End, u32)>, AllocError>
    requires { streams ≤ 256 }
    ensures { IfOk result (λ sides. sides.items ≡ sides_from side 1 streams) }
{
    let mut sides = Vec::new(alloc);
    'streams: for index in 0..streams {
        sides.push((side, index + 1))?;
    }
    Ok(sides)
}
