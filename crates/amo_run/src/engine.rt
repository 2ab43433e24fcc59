//! What a pump's thread does: one turn after another over a link, with the crashes and recoveries of its host.
ghost use Rattle.std.specs.Prelude.{◌≡◌, ◌≤◌, ◌<◌, ◌++◌, ◌↔◌, ◌⊎◌, [], Contains, IfErr, IfOk, IfSome, IsErrOf, IsTrue, OnOk, Some, false, length, vec_len, vec_capacity};
ghost use Rattle.amo_packet.specs.declared.fault.ReadFault.{ReadFault};
ghost use Rattle.amo_packet.specs.Fault.{first_fault};
ghost use Rattle.amo_packet.specs.Grammar.{CanBeWritten, Spells};
ghost use Rattle.amo_packet.specs.Packet.{packet_of, body_of};
ghost use Rattle.amo_host.specs.Host.{side_of};
ghost use Rattle.amo_host.specs.Station.{IsStation};
ghost use Rattle.amo_journal.specs.Version.{newest};
ghost use Rattle.amo_run.specs.Told.{listed};
ghost use Rattle.amo_run.specs.Engine.{Advances, BringsBytesTo, EndsMoment, HasWord, NoneIsDue, Recorded, IsSmall, Works, act_told, told_of, has_resent, made_in};
ghost use Rattle.amo_run.specs.Versions.{version_of};

use crate::Progress;
use crate::clock::Clock;
use crate::plan::{Fate, Plan};
use crate::source::Source;
use crate::workplace::Workplace;
use amo_book::{Book, Pass};
use amo_host::{Kind, Pump, PumpFault, Turned};
use amo_journal::Version;
use amo_net::{Link, MAX_DATAGRAM};
use amo_object::End;
use amo_packet::{Body, MAX_PACKET, OwnedPacket, Packet, ReadFault, read, read_1};
use amo_word::{ChaChaWords, Words};
use amo_world::{Act, Event, NoMemory, Reply};
use std::alloc::Global;
use std::sync::Wait;
use std::thread;

/// What a pump's thread did so far: the events that it made, each with its position, how often its link failed, and how
/// often it met Busy.
#[derive(Drop)]
pub struct Tally {
    pub made: Vec<(u64, Event)>,
    pub link_faults: u64,
    pub busy: u64,
    /// How many events it has not told whoever looks on.
    pub untold: u64,
    /// How many of these are crashes.
    pub untold_crashes: u64,
}

/// So many events a pump tells at once, as telling each would take its time.
const TOLD_AT_ONCE: u64 = 64;

/// A pump at work.
#[derive(Drop)]
pub struct Engine<L, W> {
    pub pump: Pump<W>,
    pub link: L,
    pub plan: Plan,
    pub source: Source,
    /// How many turns it made.
    pub turns: u64,
    pub clock: Clock,
    /// The number of its host's life, from 0.
    pub incarnation: u32,
}

/// Room for a datagram that comes, and for a packet that goes out. It is made once for all turns of a pump.
#[derive(Drop)]
pub struct Room {
    heard: [u8; MAX_DATAGRAM],
    said: [u8; MAX_PACKET],
}

impl Default for Room {
    fn default() -> Room {
        Room {
            heard: [0; MAX_DATAGRAM],
            said: [0; MAX_PACKET],
        }
    }
}

/// What a turn made: an event with its position, and the length of the packet that it emitted.
#[derive(Drop)]
pub struct Turn {
    pub event: Option<(u64, Event)>,
    pub length: Option<usize>,
    /// Whether a stream was due, and was sent again.
    pub resent: bool,
}

impl Turn {
    /// A turn that made no event.
    fn without_event() -> Turn
        ensures { (listed result.event ≡ []) × (result.resent ≡ false) }
    {
        Turn {
            event: None,
            length: None,
            resent: false,
        }
    }
}

/// Whom a datagram is for: the host of this side, and the streams that its pump drives.
#[derive(Clone, Copy)]
pub struct Address<'a> {
    pub side: End,
    pub streams: &'a [u32],
}

impl Address<'_> {
    /// Whether it is a packet's.
    fn is_of(&self, packet: &Packet<'_>) -> bool
        ensures { IsTrue result ↔ ((side_of (body_of packet.now.body) ≡ self.now.side) × Contains self.now.streams.now packet.now.stream) }
    {
        side_of(&packet.body) == self.side && self.streams.contains(&packet.stream)
    }
}

/// The side that a packet belongs to.
fn side_of(body: &Body<'_>) -> End
    ensures { result ≡ side_of (body_of body.now) }
{
    match body {
        Body::Accept(_, _) | Body::Ack(_, _) => End::Sender,
        Body::NeedUid(_) | Body::Send(_, _) | Body::Batch(_, _) | Body::Cleanup(_) => {
            End::Receiver
        }
    }
}

/// The act of an event of this kind, with the packet that was handed in.
fn act_of(kind: Kind, packet: Option<OwnedPacket>) -> Option<Act>
    ensures act { result ≡ act_told kind packet }
    ensures word { HasWord kind }
{
    match kind {
        Kind::Start(word) => Some(Act::Start(word)),
        Kind::Batch(word) => Some(Act::Batch(word)),
        Kind::Resend => Some(Act::Resend),
        Kind::Deliver(word) => match packet {
            Some(packet) => Some(Act::Deliver(packet, word)),
            None => None,
        },
        Kind::Crash => Some(Act::Crash),
        Kind::Recover => Some(Act::Recover),
    }
}

/// What a pump's answer tells.
fn turn_of(pass: usize, packet: Option<OwnedPacket>, turned: Turned) -> Turn
    ensures told { listed result.event ≡ told_of pass packet turned }
    ensures small { IsSmall turned }
    ensures resent { result.resent ≡ has_resent turned }
{
    let Turned::Did(side, stream, kind, done) = turned else {
        return Turn::without_event();
    };
    let resent = matches!(kind, Kind::Resend);
    let Some(act) = act_of(kind, packet) else {
        return Turn::without_event();
    };
    let event = Event {
        pass,
        side,
        stream,
        act,
        reply: Reply::Done,
    };
    Turn {
        event: Some((done.position, event)),
        length: done.length,
        resent,
    }
}

/// A turn without input. Where it is no resend, no stream is due.
#[tactic(auto, using(crate::proofs::Turning::failed_advances, crate::proofs::Turning::lacking_ends))]
fn turn_alone<W: Words + Drop>(
    pump: &mut Pump<W>,
    book: &Book,
    pass: &mut Pass,
    now: u64,
    out: &mut [u8; MAX_PACKET],
) -> Result<Turn, PumpFault>
    requires { Works book.now pass.old pump.old }
    ensures advances { Advances book.now pass.old pass.new pump.old pump.new (made_in result) }
    ensures due { EndsMoment result → NoneIsDue pump.old now }
{
    match pump.turn(book, pass, now, None, out) {
        Ok(turned) => {
            let number = pass.number();
            Ok(turn_of(number, None, turned))
        }
        Err(fault) => Err(fault),
    }
}

/// The packet that all of the bytes spell, where its delivery has a line in a journal of this version; else their first fault to a reader
/// that knows such packets alone.
fn read_for(version: Version, bytes: &[u8]) -> Result<Packet<'_>, ReadFault>
    ensures found { IfOk result (λ p. Spells (newest version) bytes.now (packet_of p)) }
    ensures fits { IfOk result (λ p. CanBeWritten (body_of p.body)) }
    ensures fault { (f : ReadFault) → IsErrOf result f ↔ (first_fault (newest version) bytes.now ≡ Some f) }
{
    match version {
        Version::One => read_1(bytes),
        Version::Two => read(bytes),
    }
}

/// A turn with a datagram. A packet that is for another host, or for a stream of another pump, is not looked at further. Any other is copied for
/// the event before the pump has it; one that has no line in a journal of this version, which is the pump's, is none.
#[tactic(auto, using(crate::proofs::Turning::failed_advances, crate::proofs::Turning::same_advances))]
fn turn_with<W: Words + Drop>(
    alloc: Global,
    version: Version,
    address: Address<'_>,
    pump: &mut Pump<W>,
    book: &Book,
    pass: &mut Pass,
    now: u64,
    bytes: &[u8],
    out: &mut [u8; MAX_PACKET],
) -> Result<Turn, PumpFault>
    requires works { Works book.now pass.old pump.old }
    requires version { version ≡ version_of pump.old }
    ensures advances { Advances book.now pass.old pass.new pump.old pump.new (made_in result) }
    ensures memory { IfErr result (λ f. f ≡ PumpFault.NoMemory → BringsBytesTo (newest version) address.entry.side address.entry.streams.now bytes.now) }
{
    let number = pass.number();
    let Ok(packet) = read_for(version, bytes) else {
        return Ok(turn_of(number, None, Turned::Idle));
    };
    if !address.is_of(&packet) {
        return Ok(turn_of(number, None, Turned::Stranger));
    }
    let Ok(packet) = packet.copied(alloc) else {
        return Err(PumpFault::NoMemory);
    };
    match pump.turn(book, pass, now, Some(bytes), out) {
        Ok(turned) => Ok(turn_of(number, Some(packet), turned)),
        Err(fault) => Err(fault),
    }
}

/// A crash or a recovery of the side of a stream.
#[tactic(auto, using(crate::proofs::Turning::same_advances))]
fn meet<W: Words + Drop>(
    pump: &mut Pump<W>,
    book: &Book,
    pass: &mut Pass,
    now: u64,
    stream: u32,
    fate: Fate,
) -> Result<Turn, PumpFault>
    requires { Works book.now pass.old pump.old }
    ensures { Advances book.now pass.old pass.new pump.old pump.new (made_in result) }
{
    let number = pass.number();
    match fate {
        Fate::Crash => match pump.crash(book, pass, now, stream) {
            Ok(turned) => Ok(turn_of(number, None, turned)),
            Err(fault) => Err(fault),
        },
        Fate::Recover => match pump.recover(book, pass, now, stream) {
            Ok(turned) => Ok(turn_of(number, None, turned)),
            Err(fault) => Err(fault),
        },
    }
}

impl Tally {
    /// Nothing is done yet.
    pub fn new(alloc: Global) -> Tally
        ensures none { result.made.items ≡ [] }
        ensures zero { (result.link_faults ≡ 0) × (result.busy ≡ 0) × (result.untold ≡ 0) × (result.untold_crashes ≡ 0) }
    {
        Tally {
            made: Vec::new(alloc),
            link_faults: 0,
            busy: 0,
            untold: 0,
            untold_crashes: 0,
        }
    }

    /// Makes room for an event.
    fn reserve(&mut self) -> Result<(), NoMemory>
        ensures same { self.new.made.items ≡ self.old.made.items }
        ensures room { OnOk result (vec_len self.new.made < vec_capacity self.new.made) }
    {
        match self.made.reserve(1) {
            Ok(()) => Ok(()),
            Err(_) => Err(NoMemory),
        }
    }

    /// Notes what a turn made, and answers the length of the packet to send.
    fn note(&mut self, turned: Result<Turn, PumpFault>) -> Result<Option<usize>, PumpFault>
        requires { vec_len self.old.made < vec_capacity self.old.made }
        ensures { self.new.made.items ≡ self.old.made.items ++ made_in turned }
    {
        match turned {
            Ok(Turn { event, length, .. }) => {
                if let Some(event) = event {
                    self.count_event(&event.1);
                    self.made.push_reserved(event);
                }
                Ok(length)
            }
            Err(fault) => {
                if fault == PumpFault::Busy {
                    self.busy = self.busy.saturating_add(1);
                }
                Err(fault)
            }
        }
    }

    /// Counts an event that has happened.
    fn count_event(&mut self, event: &Event)
        ensures { self.new.made ≡ self.old.made }
    {
        self.untold = self.untold.saturating_add(1);
        if event.act == Act::Crash {
            self.untold_crashes = self.untold_crashes.saturating_add(1);
        }
    }

    /// Tells whoever looks on what was not told yet, if that is so many events at least.
    fn tell(&mut self, progress: &Progress, at_least: u64)
        ensures { self.new.made ≡ self.old.made }
    {
        if self.untold >= at_least {
            progress.add(self.untold, self.untold_crashes);
            self.untold = 0;
            self.untold_crashes = 0;
        }
    }

    /// Counts a failure of the link, if there was one.
    fn count(&mut self, has_failed: bool)
        ensures { self.new.made ≡ self.old.made }
    {
        self.link_faults = self.link_faults.saturating_add(has_failed as u64);
    }
}

impl<L: Link, W: Words + Drop> Engine<L, W> {
    /// A pump at its link, before its first turn.
    pub fn new(pump: Pump<W>, link: L, plan: Plan, source: Source) -> Engine<L, W>
        ensures parts { (result.pump ≡ pump) × (result.link ≡ link) × (result.plan ≡ plan) × (result.source ≡ source) }
        ensures first { (result.turns ≡ 0) × (result.clock.moment ≡ 0) × (result.incarnation ≡ 0) }
    {
        Engine {
            pump,
            link,
            plan,
            source,
            turns: 0,
            clock: Clock::at(0),
            incarnation: 0,
        }
    }

    /// The length of the datagram that has come, if one has and the clock lets it be taken. A failed link brings none, and is counted.
    fn hear(&mut self, buffer: &mut [u8; MAX_DATAGRAM], tally: &mut Tally) -> Option<usize>
        ensures same { (self.new.pump ≡ self.old.pump) × (tally.new.made ≡ tally.old.made) }
        ensures clock { self.new.clock ≡ self.old.clock }
        ensures within { IfSome result (λ n. n ≤ MAX_DATAGRAM) }
    {
        if !self.clock.may_take() {
            return None;
        }
        match self.link.receive(buffer) {
            Ok(length) => length,
            Err(_) => {
                tally.count(true);
                None
            }
        }
    }

    /// Sends what stands at the front of the buffer. Where the link fails it is lost, and counted.
    fn send(&mut self, out: &[u8; MAX_PACKET], length: Option<usize>, tally: &mut Tally)
        ensures same { (self.new.pump ≡ self.old.pump) × (tally.new.made ≡ tally.old.made) }
        ensures clock { self.new.clock ≡ self.old.clock }
    {
        let Some(length) = length else {
            return;
        };
        let Some(packet) = out.get(..length) else {
            return;
        };
        let has_failed = self.link.send(packet).is_err();
        tally.count(has_failed);
    }

    /// A turn of the pump at this moment, with a datagram of these bytes, if there are any.
    fn turn_at_moment(
        &mut self,
        alloc: Global,
        version: Version,
        streams: &[u32],
        book: &Book,
        pass: &mut Pass,
        datagram: Option<&[u8]>,
        out: &mut [u8; MAX_PACKET],
    ) -> Result<Turn, PumpFault>
        requires works { Works book.now pass.old self.old.pump }
        requires version { version ≡ version_of self.old.pump }
        ensures advances { Advances book.now pass.old pass.new self.old.pump self.new.pump (made_in result) }
        ensures clock { (self.new.clock.moment ≡ self.old.clock.moment) ⊎ NoneIsDue self.old.pump self.old.clock.moment }
    {
        let now = self.clock.moment();
        let Some(bytes) = datagram else {
            let turned = turn_alone(&mut self.pump, book, pass, now, out);
            self.clock.note(&turned);
            return turned;
        };
        self.clock.take();
        let address = Address {
            side: self.source.side,
            streams,
        };
        turn_with(
            alloc,
            version,
            address,
            &mut self.pump,
            book,
            pass,
            now,
            bytes,
            out,
        )
    }

    /// One turn, with the datagram that has come, if one has and the clock lets it be taken; what it emits is sent. Its event has a line in a
    /// journal of this version, which is the pump's. The clock moves on only where no stream is due.
    #[tactic(auto, using(crate::proofs::Turning::recorded_turn, crate::proofs::Turning::recorded_none))]
    pub fn turn(
        &mut self,
        alloc: Global,
        version: Version,
        streams: &[u32],
        book: &Book,
        pass: &mut Pass,
        room: &mut Room,
        tally: &mut Tally,
    ) -> Result<(), NoMemory>
        requires works { Works book.now pass.old self.old.pump }
        requires version { version ≡ version_of self.old.pump }
        ensures recorded { Recorded book.now pass.old pass.new self.old.pump self.new.pump tally.old.made.items tally.new.made.items }
        ensures clock { (self.new.clock.moment ≡ self.old.clock.moment) ⊎ NoneIsDue self.old.pump self.old.clock.moment }
    {
        tally.reserve()?;
        let Room { heard, said } = room;
        let turned = match self.hear(heard, tally) {
            None => self.turn_at_moment(alloc, version, streams, book, pass, None, said),
            Some(length) => {
                let bytes = &heard[..length];
                self.turn_at_moment(alloc, version, streams, book, pass, Some(bytes), said)
            }
        };
        match tally.note(turned) {
            Ok(length) => {
                self.send(said, length, tally);
                Ok(())
            }
            Err(PumpFault::NoMemory) => Err(NoMemory),
            Err(PumpFault::Busy) => Ok(()),
            Err(PumpFault::NoWord) => Ok(()),
        }
    }

    /// Tries a crash or a recovery of the side of a stream once. Whether it happened.
    #[tactic(auto, using(crate::proofs::Turning::recorded_turn, crate::proofs::Turning::recorded_none))]
    pub fn attempt(
        &mut self,
        book: &Book,
        pass: &mut Pass,
        stream: u32,
        fate: Fate,
        tally: &mut Tally,
    ) -> Result<bool, NoMemory>
        requires { Works book.now pass.old self.old.pump }
        ensures { Recorded book.now pass.old pass.new self.old.pump self.new.pump tally.old.made.items tally.new.made.items }
    {
        tally.reserve()?;
        let now = self.clock.moment();
        let turned = meet(&mut self.pump, book, pass, now, stream, fate);
        Ok(tally.note(turned).is_ok())
    }

    /// A crash or a recovery of the side of a stream. Where another call is at work at the side it is tried again.
    #[tactic(auto, using(crate::proofs::Turning::recorded_more, crate::proofs::Turning::recorded_none))]
    fn suffer<R: Wait>(
        &mut self,
        rt: &R,
        book: &Book,
        pass: &mut Pass,
        stream: u32,
        fate: Fate,
        tally: &mut Tally,
    ) -> Result<(), NoMemory>
        requires { Works book.now pass.old self.old.pump }
        ensures { Recorded book.now pass.old pass.new self.old.pump self.new.pump tally.old.made.items tally.new.made.items }
    {
        'tries: for _ in rt.forever() {
            if self.attempt(book, pass, stream, fate, tally)? {
                break;
            }
            thread::yield_now();
        }
        Ok(())
    }

    /// A crash or a recovery of the host: one event for each of its streams, in their order.
    #[tactic(auto, using(crate::proofs::Turning::recorded_more, crate::proofs::Turning::recorded_none))]
    fn suffer_all<R: Wait>(
        &mut self,
        rt: &R,
        book: &Book,
        pass: &mut Pass,
        streams: &[u32],
        fate: Fate,
        tally: &mut Tally,
    ) -> Result<(), NoMemory>
        requires { Works book.now pass.old self.old.pump }
        ensures { Recorded book.now pass.old pass.new self.old.pump self.new.pump tally.old.made.items tally.new.made.items }
    {
        'sides: for stream in streams {
            self.suffer(rt, book, pass, *stream, fate, tally)?;
        }
        Ok(())
    }
}

impl<L: Link> Engine<L, ChaChaWords> {
    /// What the plan has for this turn. A host that recovers has new words.
    #[tactic(auto, using(crate::proofs::Turning::recorded_more, crate::proofs::Turning::recorded_none))]
    fn follow_plan<R: Wait>(
        &mut self,
        rt: &R,
        book: &Book,
        pass: &mut Pass,
        streams: &[u32],
        tally: &mut Tally,
    ) -> Result<(), NoMemory>
        requires { Works book.now pass.old self.old.pump }
        ensures { Recorded book.now pass.old pass.new self.old.pump self.new.pump tally.old.made.items tally.new.made.items }
    {
        let Some(fate) = self.plan.after(self.turns) else {
            pass.number();
            return Ok(());
        };
        if fate == Fate::Recover {
            self.renew();
        }
        self.suffer_all(rt, book, pass, streams, fate, tally)
    }

    /// The words of the next life.
    fn renew(&mut self)
        ensures charges { self.new.pump.charges ≡ self.old.pump.charges }
        ensures starts { self.new.pump.batches ≡ self.old.pump.batches }
        ensures station { IsStation self.new.pump }
    {
        self.incarnation = self.incarnation.saturating_add(1);
        let words = self.source.words(self.incarnation);
        self.pump.renew(words);
    }

    /// Makes one turn after another, until all crashes and recoveries of its host have happened and no book has clients at
    /// work. Its events have lines in a journal of this version, which is the pump's.
    ///
    /// Where memory is refused it ends at once.
    #[tactic(auto, using(crate::proofs::Turning::recorded_more, crate::proofs::Turning::recorded_none, crate::proofs::Turning::same_version))]
    pub fn work<R: Wait>(
        &mut self,
        rt: &R,
        alloc: Global,
        place: Workplace<'_>,
        pass: &mut Pass,
        streams: &[u32],
        tally: &mut Tally,
    ) -> Result<(), NoMemory>
        requires works { Works place.book.now pass.old self.old.pump }
        requires version { place.version ≡ version_of self.old.pump }
        ensures { Recorded place.entry.book.now pass.old pass.new self.old.pump self.new.pump tally.old.made.items tally.new.made.items }
    {
        let book = place.book;
        let mut room = Room::default();
        'turns: for _ in rt.forever() {
            if self.plan.is_over() && place.progress.has_no_clients() {
                break;
            }
            self.turn(alloc, place.version, streams, book, pass, &mut room, tally)?;
            self.turns = self.turns.saturating_add(1);
            self.follow_plan(rt, book, pass, streams, tally)?;
            tally.tell(place.progress, TOLD_AT_ONCE);
        }
        tally.tell(place.progress, 0);
        Ok(())
    }
}
