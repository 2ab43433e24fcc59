//! What a live host does with datagrams, times and its clients' messages.
ghost use Rattle.std.specs.Prelude.{◌≡◌, ◌≢◌, ◌≤◌, ◌↔◌, ℕ, [], Some, Ok, false, true, IfNone, IfOk, IfSome, IsTrue, OnOk, is_some, length, take};
ghost use Rattle.amo_core.specs.declared.mode.Mode.TheVariants.{Quiet, Send};
ghost use Rattle.amo_packet.specs.Packet.{body_of, packet_of};
ghost use Rattle.amo_packet.specs.Grammar.{Spells, messages_of};
ghost use Rattle.amo_journal.specs.Version.{newest};
ghost use Rattle.amo_live.specs.Callers.{IsSameLife, MovesNone, MovesWithin};
ghost use Rattle.amo_live.specs.Client.{PutsNamed, has};
ghost use Rattle.amo_live.specs.Host.{Delivered, Did, IsNoted};
ghost use Rattle.amo_live.specs.Service.{IsAtRest, got_by, is_in_doubt, lacked_by, lacked_in, lacks_one, lane_of, new_version, nothing_known, settled_by, shown_by, spelling_of, start_of, starts_batches, streams_of, takes_in, takes_one, wait_on_each, words_of};
ghost use Rattle.amo_live.specs.Shown.{BeginsWithPut, ShowsMore, behind, told_in};
ghost use Rattle.amo_live.specs.Words.{BearsNew, IsNew, StaysDrawn};

mod door;
mod due;
mod getting;
mod hearing;
mod keeping;
mod notes;

use crate::acts::is_for;
use crate::{Dropped, Figures, Host, Lineage, LiveFault, Times};
use amo_core::{MAX_WAITING, Mode};
use amo_journal::Version;
use amo_lines::{Ids, NamedMessage, Spelling, Word};
use amo_net::{Link, MAX_DATAGRAM};
use amo_object::End;
use amo_packet::{Body, MAX_BATCH, Packet, read};
use amo_text::Sink;
use amo_window::Pace;
pub use door::{EventAt, Settled};
use std::alloc::{AllocError, Global};

/// How many datagrams a turn takes at most.
pub const MOST_DATAGRAMS: u32 = 64;

/// How many bytes the line of a message has at most: its bytes in HEX, or each escaped, in an object.
const LONGEST_LINE: usize = 2112;

/// What a host knows of the messages of one of its streams.
#[derive(Clone, Copy)]
pub(crate) struct Lane {
    /// How many wait for their handshake.
    waiting: u64,
    /// When the last handshake began, in microseconds.
    began: u64,
    /// How many have come and were not got.
    held: usize,
    /// One was put, and its client does not know yet what became of it.
    owed: bool,
    /// It is not settled what became of one that an earlier life sent.
    in_doubt: bool,
}

impl Lane {
    /// There are none.
    fn new() -> Lane
        ensures { result ≡ nothing_known }
    {
        Lane {
            waiting: 0,
            began: 0,
            held: 0,
            owed: false,
            in_doubt: false,
        }
    }

    /// How many messages a stream lacks for its next handshakes: as many as wait fewer than travel together at most, or where each waits for its answer one, if
    /// its last one has it.
    fn lacking(&self, each: bool) -> u64
        ensures { result ≡ lacked_in each self.now }
    {
        if each {
            u64::from(!self.owed)
        } else {
            (MAX_BATCH as u64).saturating_sub(self.waiting)
        }
    }
}

/// A host at work.
#[derive(Drop)]
pub struct Service<L, S, W> {
    /// The host.
    pub host: Host<L, S>,
    setup: Setup,
    lanes: Vec<Lane>,
    words: W,
    shown: Vec<u8>,
    /// What messages are called that have no answer yet, where answers tell it.
    ids: Ids,
    /// The handshakes that ended since what is shown was cleared.
    settled: Vec<Settled>,
    /// Where a datagram is received, once one was: it is as long as the longest, and made once.
    datagram: Option<Box<[u8; MAX_DATAGRAM]>>,
    /// How long the datagram is that stands there and waits to be taken, if one does.
    come: Option<usize>,
    /// The number in the journal of the first message that was got and not shown.
    unshown: Option<u64>,
    /// A stream holds messages for which there was no room.
    unread: bool,
    got: u64,
    /// How many messages have no answer yet.
    owed: u64,
    /// A batch came for which the journal has no line.
    missed: bool,
    /// A datagram came when it heard last.
    heard: bool,
    /// It took as many then as it was to, if it was to take any.
    took_most: bool,
    /// When one came last.
    heard_at: Option<u64>,
    /// A handshake could not begin, as too many were open. Others wait for their turn then.
    behind: bool,
    /// The stream whose turn it is.
    next: u32,
    /// A stream that it has not, for which a packet came.
    foreign: Option<u32>,
    /// A packet came for the other side, as this host sends them.
    astray: bool,
    /// No more messages are accepted.
    closes: bool,
    put: u64,
    yes: u64,
    no: u64,
    dropped: Dropped,
    times: Times,
}

/// How a service is set up.
#[derive(Clone, Copy)]
pub struct Setup {
    /// The side of its host.
    pub side: End,
    /// Of how many streams it is, from 1 on.
    pub streams: u32,
    /// How long a stream waits before it sends again, in microseconds.
    pub pace: Pace,
    /// A stream's next message is put once its last one's answer came.
    pub each: bool,
    /// The messages that wait on a stream travel together, at most four, if the journal has lines for that.
    pub batch: bool,
    /// How many messages are wanted. Those that came with the last of them are got too: left behind, a batch's rest would be lost.
    pub most: u64,
    /// How messages and answers are spelt.
    pub spelling: Spelling,
}

impl Setup {
    /// The version of its journal, where that is new. In version 2 batches have lines: a receiver's journal has them always.
    pub fn new_version(&self) -> Version
        ensures { result ≡ new_version self.now }
    {
        match self.side {
            End::Sender if !self.batch => Version::One,
            _ => Version::Two,
        }
    }
}

impl<L: Link + Drop, S: Sink + Drop, W: Lineage + Drop> Service<L, S, W> {
    /// A service of this host.
    pub fn new(
        alloc: Global,
        host: Host<L, S>,
        words: W,
        setup: Setup,
    ) -> Result<Service<L, S, W>, AllocError>
        requires { IsNoted S.written host }
        ensures host { IfOk result (λ service. service.host ≡ host) }
        ensures streams { IfOk result (λ service. streams_of service ≡ setup.streams) }
        ensures words { IfOk result (λ service. words_of service ≡ words) }
        ensures shown { IfOk result (λ service. (shown_by service).text ≡ []) }
        ensures spelling { IfOk result (λ service. spelling_of service ≡ setup.spelling) }
    {
        let lanes = lanes_of(alloc, setup.streams)?;
        let ids = Ids::new(alloc, setup.streams)?;
        Ok(Service {
            host,
            setup,
            lanes,
            words,
            shown: Vec::new(alloc),
            ids,
            settled: Vec::new(alloc),
            datagram: None,
            come: None,
            unshown: None,
            unread: false,
            got: 0,
            owed: 0,
            missed: false,
            heard: false,
            took_most: false,
            heard_at: None,
            behind: false,
            next: 1,
            foreign: None,
            astray: false,
            closes: false,
            put: 0,
            yes: 0,
            no: 0,
            dropped: Dropped::default(),
            times: Times::new(),
        })
    }
}

/// What is known of so many streams at first.
fn lanes_of(alloc: Global, streams: u32) -> Result<Vec<Lane>, AllocError>
    ensures { IfOk result (λ lanes. length lanes.items ≡ streams) }
{
    let mut lanes = Vec::new(alloc);
    'streams: for _stream in 0..streams {
        lanes.push(Lane::new())?;
    }
    Ok(lanes)
}

impl<L: Link, S: Sink, W: Lineage> Service<L, S, W> {
    /// What is to be shown to the clients.
    pub fn shown(&self) -> &[u8]
        ensures { result.now ≡ (shown_by self.now).text }
    {
        self.shown.as_slice()
    }

    /// All of it was shown.
    pub fn clear_shown(&mut self)
        ensures host { self.new.host ≡ self.old.host }
        ensures streams { streams_of self.new ≡ streams_of self.old }
        ensures shown { shown_by self.new ≡ record { text = []; owed = (shown_by self.old).owed } }
        ensures settled { settled_by self.new ≡ [] }
        ensures words { words_of self.new ≡ words_of self.old }
        ensures spelling { spelling_of self.new ≡ spelling_of self.old }
    {
        self.shown.clear();
        self.settled.clear();
        self.unshown = None;
    }

    /// So many bytes of it were shown, from its beginning on: the rest is to be shown.
    pub fn pass_shown(&mut self, count: usize)
        requires { count ≤ length (shown_by self.old).text }
        ensures host { self.new.host ≡ self.old.host }
        ensures streams { streams_of self.new ≡ streams_of self.old }
        ensures shown { shown_by self.old ≡ behind (take count (shown_by self.old).text) (shown_by self.new) }
        ensures settled { settled_by self.new ≡ [] }
        ensures words { words_of self.new ≡ words_of self.old }
        ensures spelling { spelling_of self.new ≡ spelling_of self.old }
    {
        self.shown.drain(..count);
        self.settled.clear();
        if self.shown.is_empty() {
            self.unshown = None;
        }
    }

    /// Tells what was got and not shown.
    pub fn tell_unshown<C: Eprint>(&self, rt: &C) {
        if let Some(line) = self.unshown {
            let _ = eprintln!(rt;
                "amo: got and perhaps not shown: what the journal says was got from line {line} on"
            );
        }
    }

    /// Whether messages wait for room.
    pub fn has_unread(&self) -> bool {
        self.unread
    }

    /// Whether one message more may be shown where so many bytes may, behind no other that waits.
    fn has_room(&self, room: usize) -> bool
        ensures { room ≡ 0 → result ≡ false }
    {
        !self.unread && self.shown.len().saturating_add(LONGEST_LINE) <= room
    }

    /// Whether it has this stream.
    pub fn has(&self, stream: u32) -> bool
        ensures { result ≡ has (streams_of self.now) stream }
    {
        self.lane(stream).is_some()
    }

    /// How many streams it has.
    pub fn streams(&self) -> usize
        ensures { result ≡ streams_of self.now }
    {
        self.lanes.len()
    }

    /// How many messages were got.
    pub fn got(&self) -> u64
        ensures { result ≡ got_by self.now }
    {
        self.got
    }

    /// Whether a batch came for one of its streams for which its journal has no line, and which it took for no packet.
    pub fn has_missed_batch(&self) -> bool {
        self.missed
    }

    /// Whether a datagram came when it heard last.
    pub fn has_heard(&self) -> bool {
        self.heard
    }

    /// Whether it took as many datagrams as it was to when it heard last, if it was to take any: more may have come.
    pub fn took_most(&self) -> bool {
        self.took_most
    }

    /// A stream that it has not, for which a packet came, if one did.
    pub fn foreign_stream(&self) -> Option<u32> {
        self.foreign
    }

    /// Whether a packet came for the other side, as this host sends them.
    pub fn has_stray(&self) -> bool {
        self.astray
    }

    /// Whether no stream waits for its peer, and each message that was put has its answer.
    pub fn is_at_rest(&self) -> bool
        ensures { IsTrue result ↔ IsAtRest self.now }
    {
        self.owed == 0 && self.host.are_calm()
    }

    /// What is known of a stream.
    fn lane(&self, stream: u32) -> Option<Lane>
        ensures found { is_some result ≡ has (streams_of self.now) stream }
        ensures doubt { IfSome result (λ lane. lane.in_doubt ≡ is_in_doubt self.now stream) }
        ensures known { result ≡ lane_of self.now stream }
    {
        let place = (stream as usize).checked_sub(1)?;
        self.lanes.get(place).copied()
    }

    /// Whether a stream takes a message now, as far as is known here: it is there, fewer wait on it than a sender holds, and its last one has its answer
    /// where each waits for that. Where it does not, [`Service::put`] gives a message back.
    pub fn takes(&self, stream: u32) -> bool
        ensures { result ≡ takes_one self.now stream }
    {
        self.takes_below(stream, MAX_WAITING as u64)
    }

    /// Whether a stream lacks messages for its next handshakes, as far as is known here: it takes one, and fewer wait on it than travel together at most.
    pub fn lacks(&self, stream: u32) -> bool
        ensures { result ≡ lacks_one self.now stream }
    {
        self.takes_below(stream, MAX_BATCH as u64)
    }

    /// Whether messages wait on each stream.
    pub fn has_waiting_on_each(&self) -> bool
        ensures { result ≡ wait_on_each self.now }
    {
        self.lanes.iter().all(|lane| lane.waiting > 0)
    }

    /// How many messages its streams lack for their next handshakes, all together.
    pub fn lacking(&self) -> u64
        ensures { result ≡ lacked_by self.now }
    {
        let each = self.setup.each;
        self.lanes
            .iter()
            .fold(0u64, |all, lane| all.saturating_add(lane.lacking(each)))
    }

    /// Whether a stream takes a message while fewer than so many wait on it, as far as is known here.
    fn takes_below(&self, stream: u32, most: u64) -> bool
        ensures { result ≡ takes_in self.now.setup.each most (lane_of self.now stream) }
    {
        match self.lane(stream) {
            Some(lane) => !(self.setup.each && lane.owed) && lane.waiting < most,
            None => false,
        }
    }

    /// From now on this is known of a stream.
    fn set_lane(&mut self, stream: u32, lane: Lane)
        ensures host { self.new.host ≡ self.old.host }
        ensures streams { streams_of self.new ≡ streams_of self.old }
        ensures shown { (shown_by self.new ≡ shown_by self.old) × (self.new.setup ≡ self.old.setup) }
        ensures words { words_of self.new ≡ words_of self.old }
        ensures doubt { has (streams_of self.old) stream ≡ true → is_in_doubt self.new stream ≡ lane.in_doubt }
    {
        let Some(place) = (stream as usize).checked_sub(1) else {
            return;
        };
        if place < self.lanes.len() {
            self.lanes[place] = lane;
        }
    }

    /// Puts a message on a stream, and begins its handshake if the stream is at rest. A message that is not taken comes back: the stream
    /// is full, or has no answer yet to the one before.
    #[tactic(auto, using(crate::proofs::Putting::was_put, crate::proofs::Putting::was_refused, crate::proofs::Fresh::bears_none))]
    pub fn put(
        &mut self,
        stream: u32,
        named: NamedMessage,
        now: u64,
    ) -> Result<Option<NamedMessage>, LiveFault>
        requires { IsNoted S.written self.old.host }
        ensures noted { OnOk result (IsNoted S.written self.new.host) }
        ensures full { takes_one self.old stream ≡ false → (result ≡ Ok (Some named)) × (self.new ≡ self.old) }
        ensures put { IfOk result (PutsNamed self.old.host.pass self.new.host.pass stream named) }
        ensures told { IfOk result (λ back. IfNone back (BeginsWithPut (spelling_of self.old) stream named.id self.old.host.journal.next (shown_by self.old) (shown_by self.new))) }
        ensures streams { streams_of self.new ≡ streams_of self.old }
        ensures shown { OnOk result (ShowsMore (spelling_of self.old) self.old.host.pass self.new.host.pass (shown_by self.old) (shown_by self.new)) }
        ensures spelling { spelling_of self.new ≡ spelling_of self.old }
        ensures words { OnOk result (BearsNew W.is_drawn (words_of self.old) (words_of self.new) self.old.host.pass self.new.host.pass) }
    {
        if !self.takes(stream) {
            return Ok(Some(named));
        }
        let Some(lane) = self.lane(stream) else {
            return Ok(Some(named));
        };
        let NamedMessage { message, id } = named;
        let line = self.host.next_line();
        match self.host.put(stream, message)? {
            Err(fault) => {
                let message = fault.into_message();
                Ok(Some(NamedMessage { message, id }))
            }
            Ok(_) => {
                self.owe(stream, lane);
                self.tell_put(stream, id, line)?;
                self.begin(stream, now)?;
                Ok(None)
            }
        }
    }

    /// Begins the handshake of a stream's next messages, if its sender is at rest and one waits; unless another stream waits for its turn.
    #[tactic(auto, using(crate::proofs::Fresh::bears_none))]
    fn begin(&mut self, stream: u32, now: u64) -> Result<(), LiveFault>
        requires { IsNoted S.written self.old.host }
        ensures noted { OnOk result (IsNoted S.written self.new.host) }
        ensures life { IsSameLife self.old.host.pass self.new.host.pass self.old.host.journal self.new.host.journal }
        ensures moved { OnOk result (MovesNone self.old.host.pass self.new.host.pass) }
        ensures streams { streams_of self.new ≡ streams_of self.old }
        ensures shown { OnOk result (ShowsMore (spelling_of self.old) self.old.host.pass self.new.host.pass (shown_by self.old) (shown_by self.new)) }
        ensures spelling { spelling_of self.new ≡ spelling_of self.old }
        ensures words { OnOk result (BearsNew W.is_drawn (words_of self.old) (words_of self.new) self.old.host.pass self.new.host.pass) }
    {
        if self.behind {
            return Ok(());
        }
        self.begin_next(stream, now)
    }

    /// Begins handshakes that could not begin before, stream after stream in turn, until too many are open again.
    #[tactic(auto, using(crate::proofs::Fresh::bears_none))]
    fn catch_up(&mut self, now: u64) -> Result<(), LiveFault>
        requires { IsNoted S.written self.old.host }
        ensures noted { OnOk result (IsNoted S.written self.new.host) }
        ensures life { IsSameLife self.old.host.pass self.new.host.pass self.old.host.journal self.new.host.journal }
        ensures moved { OnOk result (MovesNone self.old.host.pass self.new.host.pass) }
        ensures streams { streams_of self.new ≡ streams_of self.old }
        ensures shown { OnOk result (ShowsMore (spelling_of self.old) self.old.host.pass self.new.host.pass (shown_by self.old) (shown_by self.new)) }
        ensures spelling { spelling_of self.new ≡ spelling_of self.old }
        ensures words { OnOk result (BearsNew W.is_drawn (words_of self.old) (words_of self.new) self.old.host.pass self.new.host.pass) }
    {
        if !self.behind {
            return Ok(());
        }
        self.behind = false;
        let streams = self.setup.streams;
        'streams: for _stream in 0..streams {
            self.begin_in_turn(now)?;
        }
        Ok(())
    }

    /// Begins the handshake of the stream whose turn it is, and goes on to the next one, unless too many are open.
    #[tactic(auto, using(crate::proofs::Fresh::bears_none))]
    fn begin_in_turn(&mut self, now: u64) -> Result<(), LiveFault>
        requires { IsNoted S.written self.old.host }
        ensures noted { OnOk result (IsNoted S.written self.new.host) }
        ensures life { IsSameLife self.old.host.pass self.new.host.pass self.old.host.journal self.new.host.journal }
        ensures moved { OnOk result (MovesNone self.old.host.pass self.new.host.pass) }
        ensures streams { streams_of self.new ≡ streams_of self.old }
        ensures shown { OnOk result (ShowsMore (spelling_of self.old) self.old.host.pass self.new.host.pass (shown_by self.old) (shown_by self.new)) }
        ensures spelling { spelling_of self.new ≡ spelling_of self.old }
        ensures words { OnOk result (BearsNew W.is_drawn (words_of self.old) (words_of self.new) self.old.host.pass self.new.host.pass) }
    {
        if self.behind {
            return Ok(());
        }
        let stream = self.next;
        self.begin_next(stream, now)?;
        self.move_on(self.behind);
        Ok(())
    }

    /// It is the next stream's turn, unless that of this one is not over.
    fn move_on(&mut self, stays: bool)
        ensures { self.new ≡ record self.old { next = self.new.next } }
    {
        if !stays {
            self.next = if self.next < self.setup.streams {
                self.next.saturating_add(1)
            } else {
                1
            };
        }
    }

    /// Begins the handshake of a stream's next messages, if its sender is at rest and one waits.
    #[tactic(auto, using(crate::proofs::Putting::start_moves, crate::proofs::Fresh::bears_none))]
    fn begin_next(&mut self, stream: u32, now: u64) -> Result<(), LiveFault>
        requires { IsNoted S.written self.old.host }
        ensures noted { OnOk result (IsNoted S.written self.new.host) }
        ensures life { IsSameLife self.old.host.pass self.new.host.pass self.old.host.journal self.new.host.journal }
        ensures moved { OnOk result (MovesNone self.old.host.pass self.new.host.pass) }
        ensures streams { streams_of self.new ≡ streams_of self.old }
        ensures shown { OnOk result (ShowsMore (spelling_of self.old) self.old.host.pass self.new.host.pass (shown_by self.old) (shown_by self.new)) }
        ensures spelling { spelling_of self.new ≡ spelling_of self.old }
        ensures words { OnOk result (BearsNew W.is_drawn (words_of self.old) (words_of self.new) self.old.host.pass self.new.host.pass) }
    {
        let Some(lane) = self.lane(stream) else {
            return Ok(());
        };
        if lane.waiting == 0 || !is_quiet(self.host.mode_of(stream)) {
            return Ok(());
        }
        let started = self.start_anew(stream, now)?;
        self.note_start(stream, lane, started, now);
        Ok(())
    }

    /// Begins a handshake on a stream under the next word, if its sender is at rest and a message waits.
    fn start_anew(&mut self, stream: u32, now: u64) -> Result<Option<Mode>, LiveFault>
        requires { IsNoted S.written self.old.host }
        ensures noted { OnOk result (IsNoted S.written self.new.host) }
        ensures life { IsSameLife self.old.host.pass self.new.host.pass self.old.host.journal self.new.host.journal }
        ensures did { IfOk result (λ mode. (word : ℕ) × Did self.old.host self.new.host stream (start_of self.old.setup.batch self.old.host.journal.version word) mode) }
        ensures words { OnOk result (BearsNew W.is_drawn (words_of self.old) (words_of self.new) self.old.host.pass self.new.host.pass) }
        ensures same { self.new ≡ record self.old { host = self.new.host; words = self.new.words } }
    {
        let word = draw(&mut self.words, self.host.lines_before())?;
        self.start(stream, word, now)
    }

    /// Begins a handshake on a stream under this word, if its sender is at rest and a message waits: for one message, or for those that travel
    /// together.
    fn start(&mut self, stream: u32, word: u64, now: u64) -> Result<Option<Mode>, LiveFault>
        requires { IsNoted S.written self.old.host }
        ensures noted { OnOk result (IsNoted S.written self.new.host) }
        ensures life { IsSameLife self.old.host.pass self.new.host.pass self.old.host.journal self.new.host.journal }
        ensures did { IfOk result (Did self.old.host self.new.host stream (start_of self.old.setup.batch self.old.host.journal.version word)) }
        ensures same { self.new ≡ record self.old { host = self.new.host } }
    {
        if self.batches() {
            self.host.start_batch(stream, word, now)
        } else {
            self.host.start(stream, word, now)
        }
    }

    /// How many messages travel in a handshake at most.
    fn most_at_once(&self) -> u64 {
        if self.batches() { MAX_BATCH as u64 } else { 1 }
    }

    /// Whether messages that wait travel together.
    fn batches(&self) -> bool
        ensures { result ≡ starts_batches self.now.setup.batch self.now.host.journal.version }
    {
        match self.host.version() {
            Version::One => false,
            Version::Two => self.setup.batch,
        }
    }

    /// Delivers a datagram, where so many bytes of messages may be shown.
    #[tactic(auto, using(crate::proofs::Fresh::bears_none))]
    fn deliver(&mut self, bytes: &[u8], now: u64, room: usize) -> Result<(), LiveFault>
        requires { IsNoted S.written self.old.host }
        ensures noted { OnOk result (IsNoted S.written self.new.host) }
        ensures life { IsSameLife self.old.host.pass self.new.host.pass self.old.host.journal self.new.host.journal }
        ensures moved { OnOk result (MovesWithin room self.old.host.pass self.new.host.pass) }
        ensures streams { streams_of self.new ≡ streams_of self.old }
        ensures shown { OnOk result (ShowsMore (spelling_of self.old) self.old.host.pass self.new.host.pass (shown_by self.old) (shown_by self.new)) }
        ensures spelling { spelling_of self.new ≡ spelling_of self.old }
        ensures words { OnOk result (BearsNew W.is_drawn (words_of self.old) (words_of self.new) self.old.host.pass self.new.host.pass) }
    {
        let Ok(packet) = self.host.read(bytes) else {
            self.miss(bytes);
            return Ok(());
        };
        if !self.has(packet.stream) {
            self.drop_foreign(packet.stream);
            return Ok(());
        }
        if !is_for(self.setup.side, &packet) {
            self.drop_stray();
            return Ok(());
        }
        let before = self.host.mode_of(packet.stream);
        let end = self.end_by(&packet)?;
        let Some((stream, mode)) = self.deliver_anew(&packet, bytes, now)? else {
            self.drop_idle();
            return Ok(());
        };
        // Nothing else happened meanwhile: the handshake that ended, if one did, is that which was looked at.
        self.host.meet();
        let is_other = is_other(before, mode);
        self.tell_settled(stream, before, mode)?;
        self.tell_ack(&packet, told_by_ack(before, mode, end))?;
        self.arrive(stream, mode, is_other, brought_by(&packet), now);
        self.go_on(stream, mode, is_other, end, now, room)
    }

    /// Goes on where a packet was delivered on a stream, whose side is in this mode now, which may be another than before: then a handshake may have
    /// ended so.
    #[tactic(auto, using(crate::proofs::Fresh::bears_none))]
    fn go_on(
        &mut self,
        stream: u32,
        mode: Mode,
        is_other: bool,
        end: Settled,
        now: u64,
        room: usize,
    ) -> Result<(), LiveFault>
        requires { IsNoted S.written self.old.host }
        ensures noted { OnOk result (IsNoted S.written self.new.host) }
        ensures life { IsSameLife self.old.host.pass self.new.host.pass self.old.host.journal self.new.host.journal }
        ensures moved { OnOk result (MovesWithin room self.old.host.pass self.new.host.pass) }
        ensures streams { streams_of self.new ≡ streams_of self.old }
        ensures shown { OnOk result (ShowsMore (spelling_of self.old) self.old.host.pass self.new.host.pass (shown_by self.old) (shown_by self.new)) }
        ensures spelling { spelling_of self.new ≡ spelling_of self.old }
        ensures words { OnOk result (BearsNew W.is_drawn (words_of self.old) (words_of self.new) self.old.host.pass self.new.host.pass) }
    {
        match mode {
            Mode::Rcvd => self.get_all(stream, now, room),
            Mode::Quiet if is_other => self.settle(end, now),
            _ => Ok(()),
        }
    }

    /// Whether all messages that are wanted were got. What was asked of a peer from then on would come in vain.
    fn has_enough(&self) -> bool {
        self.got >= self.setup.most
    }

    /// Delivers the packet that a datagram is: a needuid under the next word, if a message is wanted, and any other under none.
    #[tactic(auto, using(crate::proofs::Fresh::bears_none))]
    fn deliver_anew(
        &mut self,
        packet: &Packet<'_>,
        bytes: &[u8],
        now: u64,
    ) -> Result<Option<(u32, Mode)>, LiveFault>
        requires noted { IsNoted S.written self.old.host }
        requires spelt { Spells (newest self.old.host.journal.version) bytes.now (packet_of packet.now) }
        ensures noted { OnOk result (IsNoted S.written self.new.host) }
        ensures life { IsSameLife self.old.host.pass self.new.host.pass self.old.host.journal self.new.host.journal }
        ensures delivered { IfOk result (λ did. (word : ℕ) × Delivered self.old.host self.new.host bytes.now word did) }
        ensures words { OnOk result (BearsNew W.is_drawn (words_of self.old) (words_of self.new) self.old.host.pass self.new.host.pass) }
        ensures same { self.new ≡ record self.old { host = self.new.host; words = self.new.words } }
    {
        let Body::NeedUid(_) = packet.body else {
            return self.host.deliver(bytes, 0, now);
        };
        if self.closes || self.has_enough() {
            return Ok(None);
        }
        let word = draw(&mut self.words, self.host.lines_before())?;
        self.host.deliver(bytes, word, now)
    }

    /// A handshake is over: the stream's next one begins, or its client is told what became of the last message, which the ack did not tell.
    #[tactic(auto, using(crate::proofs::Fresh::bears_none))]
    fn settle(&mut self, end: Settled, now: u64) -> Result<(), LiveFault>
        requires { IsNoted S.written self.old.host }
        ensures noted { OnOk result (IsNoted S.written self.new.host) }
        ensures life { IsSameLife self.old.host.pass self.new.host.pass self.old.host.journal self.new.host.journal }
        ensures moved { OnOk result (MovesNone self.old.host.pass self.new.host.pass) }
        ensures streams { streams_of self.new ≡ streams_of self.old }
        ensures shown { OnOk result (ShowsMore (spelling_of self.old) self.old.host.pass self.new.host.pass (shown_by self.old) (shown_by self.new)) }
        ensures spelling { spelling_of self.new ≡ spelling_of self.old }
        ensures words { OnOk result (BearsNew W.is_drawn (words_of self.old) (words_of self.new) self.old.host.pass self.new.host.pass) }
    {
        if !end.is_last {
            self.note_settled(end)?;
            return self.begin(end.stream, now);
        }
        let Some(lane) = self.lane(end.stream) else {
            return Ok(());
        };
        let line = self.host.next_line();
        let Ok((was_got, _)) = self.host.get_ack(end.stream)? else {
            return Ok(());
        };
        self.note_settled(Settled {
            was_got,
            line,
            ..end
        })?;
        self.tell_answer(end.stream, Word::of(was_got))?;
        self.note_answer(end.stream, lane, was_got);
        Ok(())
    }
}

/// Whether this is the mode of a sender at rest.
fn is_quiet(mode: Option<Mode>) -> bool {
    matches!(mode, Some(Mode::Quiet))
}

/// Whether a mode is another than the one before.
fn is_other(before: Option<Mode>, after: Mode) -> bool {
    match before {
        Some(before) => before != after,
        None => true,
    }
}

/// Of how many messages a packet tells whose delivery found a sender in one mode and left it in the other: where that ended a handshake, of all that
/// travelled in it, but for the stream's last one.
fn told_by_ack(before: Option<Mode>, after: Mode, end: Settled) -> u64
    ensures { result ≢ 0 → (before ≡ Some Send) × (after ≡ Quiet) × (result ≡ told_in end) }
{
    match (before, after) {
        (Some(Mode::Send), Mode::Quiet) => end.messages.saturating_sub(u64::from(end.is_last)),
        _ => 0,
    }
}

/// The next word. Where this life has no more, another one begins: no line of the journal before this number bears one of its words. So many were on the disk
/// when it was opened: a file of lives that told of more could tell of lines that a loss of power takes, and would be refused beside what is left.
#[tactic(auto, using(crate::proofs::Fresh::new_behind, crate::proofs::Fresh::stays_on))]
fn draw<W: Lineage>(words: &mut W, line: u64) -> Result<u64, LiveFault>
    ensures new { IfOk result (IsNew (W.is_drawn words.old) (W.is_drawn words.new)) }
    ensures stays { OnOk result (StaysDrawn (W.is_drawn words.old) (W.is_drawn words.new)) }
{
    match words.next() {
        Some(word) => Ok(word),
        None => words.begin(line),
    }
}

/// How many messages a packet brings.
fn brought_by(packet: &Packet<'_>) -> usize
    ensures { result ≡ length (messages_of (body_of packet.now.body)) }
{
    match packet.body {
        Body::Send(_, _) => 1,
        Body::Batch(_, parts) => parts.len(),
        Body::NeedUid(_) | Body::Accept(_, _) | Body::Ack(_, _) | Body::Cleanup(_) => 0,
    }
}
