//! What a host is to do next.
ghost use Rattle.std.specs.Prelude.{◌≡◌, ◌≢◌, ◌↔◌, ◌<◌, ◌≤◌, ◌+◌, [], true, IsTrue, IfOk, IfSome, IfNone, IfErr, IsErrOf, Some, None, false, length, replicate, slice_get, slice_set, Contains, map, ℕ};
ghost use Rattle.amo_window.specs.Timers as timed;
ghost use Rattle.amo_window.specs.Timers.{CanBeTimed};
ghost use Rattle.amo_window.specs.Window.{most_permits};
ghost use Rattle.amo_packet.specs.Packet.{packet_of, body_of};
ghost use Rattle.amo_host.specs.Handshakes.{open_count};
ghost use Rattle.amo_host.specs.AtStream.{AreCalm, IsNextDue, IsSet, MayBegin, earlier};
ghost use Rattle.amo_host.specs.Modes.{is_open, is_timed};
ghost use Rattle.amo_host.specs.Host.{retimed, IsFor, side_of, streams_of, fresh, paced};

use crate::handshakes::Handshakes;
use crate::modes::{has_timer, holds_handshake, is_quiet, is_same, is_sender, waits};
use amo_core::Mode;
use amo_object::End;
use amo_packet::{Body, Packet};
use amo_window::{Pace, Timers, WindowFault};
use std::alloc::{AllocError, Global};
use std::marker::Model;

/// A charge as a host knows it: its stream, and the mode that it answered last.
#[derive(Clone, Copy, PartialEq, Eq)]
pub struct StreamMode {
    /// The stream's number.
    pub stream: u32,
    /// The kind of the mode.
    pub mode: Mode,
}

/// What a host does next without input, to the charge in a place.
#[derive(Clone, Copy, PartialEq, Eq)]
pub enum Task {
    /// Nothing.
    Idle,
    /// It emits the packet of the charge's mode again.
    Resend(usize),
    /// It begins a handshake.
    Start(usize),
}

/// What a host knows of its charges, and so what it is to do next. Contracts see it as a host.
///
/// The room is made once, by [`Agenda::new`]; no other call takes memory.
#[derive(Drop)]
pub struct Agenda {
    side: End,
    modes: Vec<StreamMode>,
    handshakes: Handshakes,
    timers: Timers,
    // The place that the rotation comes to next.
    rotation: usize,
}

impl Model for Agenda {
    ghost use Rattle.amo_host.specs.Host.{Host};

    ghost Value = { Host };

    ghost use Rattle.amo_host.specs.Host.{IsHost};
    ghost use Rattle.amo_host.specs.Agenda.{host_of};

    ghost view = { host_of };

    ghost invariant = { λ a. IsHost (host_of a) };
}

impl Agenda {
    ghost use Rattle.amo_host.specs.declared.agenda.StreamMode.{StreamMode};
    ghost use Rattle.amo_host.specs.Host.{Host, IsHost, IsAt, IsNext, IsQuiet, IsStart, MayStart, next_place, in_rotation, Noted};

    /// An agenda of these streams, none of which has a handshake open.
    pub fn new(
        alloc: Global,
        side: End,
        modes: Vec<StreamMode>,
        window: usize,
    ) -> Result<Agenda, WindowFault>
        requires some { 0 < length modes.items }
        requires rest { (place : ℕ) (m : StreamMode) → slice_get modes.items place ≡ Some m → is_open m.mode ≡ false }
        ensures ok { IfOk result (λ h. h ≡ fresh side modes.items window) }
        ensures host { IfOk result IsHost }
        ensures limits { IsErrOf result WindowFault.Limits → CanBeTimed (streams_of modes.items) → 1 ≤ window → ¬ (window ≤ most_permits) }
    {
        Agenda::paced(alloc, side, modes, window, Pace::in_ticks())
    }

    /// The same, with timers of this pace.
    pub fn paced(
        alloc: Global,
        side: End,
        modes: Vec<StreamMode>,
        window: usize,
        pace: Pace,
    ) -> Result<Agenda, WindowFault>
        requires some { 0 < length modes.items }
        requires rest { (place : ℕ) (m : StreamMode) → slice_get modes.items place ≡ Some m → is_open m.mode ≡ false }
        ensures ok { IfOk result (λ h. h ≡ paced pace side modes.items window) }
        ensures host { IfOk result IsHost }
        ensures limits { IsErrOf result WindowFault.Limits → CanBeTimed (streams_of modes.items) → 1 ≤ window → ¬ (window ≤ most_permits) }
    {
        let streams = streams_in(alloc, &modes)?;
        let timers = Timers::paced(alloc, pace, &streams)?;
        let handshakes = Handshakes::new(alloc, window, modes.len())?;
        Ok(Agenda {
            side,
            modes,
            handshakes,
            timers,
            rotation: 0,
        })
    }

    /// The place of the charge of this stream. Most hosts have the streams from 1 on, each in the place before its number, so it looks there first.
    pub fn place_of(&self, stream: u32) -> Option<usize>
        ensures found { IfSome result (λ place. slice_get (streams_of self.now.modes) place ≡ Some stream) }
        ensures absent { IfNone result (¬ (Contains (streams_of self.now.modes) stream)) }
    {
        let usual = (stream as usize).saturating_sub(1);
        match self.modes.get(usual) {
            Some(known) if known.stream == stream => Some(usual),
            _ => self.search(stream),
        }
    }

    /// The same, by a search.
    fn search(&self, stream: u32) -> Option<usize>
        ensures found { IfSome result (λ place. slice_get (streams_of self.now.modes) place ≡ Some stream) }
        ensures absent { IfNone result (¬ (Contains (streams_of self.now.modes) stream)) }
    {
        self.modes
            .binary_search_by_key(&stream, |known| known.stream)
            .ok()
    }

    /// The place of the charge that a packet is for.
    pub fn addressed(&self, packet: &Packet<'_>) -> Option<usize>
        ensures found { IfSome result (λ place. IsFor self.now place (packet_of packet.now)) }
        ensures absent { IfNone result ((place : ℕ) → ¬ (IsFor self.now place (packet_of packet.now))) }
    {
        if side_of(&packet.body) != self.side {
            return None;
        }
        self.place_of(packet.stream)
    }

    /// The mode of the charge in this place.
    pub fn mode_in(&self, place: usize) -> Mode
        requires { place < length self.now.modes }
        ensures { (m : StreamMode) → IsAt self.now place m → result ≡ m.mode }
    {
        let StreamMode { stream: _, mode } = self.modes[place];
        mode
    }

    /// Whether a handshake may begin in this place.
    pub fn may_begin(&self, place: usize) -> bool
        requires { place < length self.now.modes }
        ensures { IsTrue result ↔ MayBegin self.now place }
    {
        if !is_sender(self.side) || !self.handshakes.is_free() {
            return false;
        }
        is_quiet(self.mode_in(place))
    }

    /// Whether no side waits for its peer.
    pub fn are_calm(&self) -> bool
        ensures { IsTrue result ↔ AreCalm self.now }
    {
        for place in 0..self.modes.len() {
            if waits(self.mode_in(place)) {
                return false;
            }
        }
        true
    }

    /// When the side in this place is to be sent again, if it waits for its peer.
    pub fn time_in(&self, place: usize) -> Option<u64>
        requires { place < length self.now.modes }
        ensures found { IfSome result (IsSet self.now place) }
        ensures absent { IfNone result ((time : ℕ) → ¬ (IsSet self.now place time)) }
    {
        if waits(self.mode_in(place)) {
            self.timers.next_at(place)
        } else {
            None
        }
    }

    /// When a stream is to be sent again next.
    pub fn next_due(&self) -> Option<u64>
        ensures { IsNextDue self.now result }
    {
        let mut least: Option<u64> = None;
        for place in 0..self.modes.len() {
            least = earlier(least, self.time_in(place));
        }
        least
    }

    /// The stream in this place was sent again now.
    pub fn repeat(&mut self, place: usize, now: u64)
        requires { place < length self.old.modes }
        ensures repeated { (m : StreamMode) → IsAt self.old place m → self.new ≡ record self.old { timers = timed.changed (timed.sent now) m.stream self.old.timers } }
    {
        let StreamMode { stream, mode: _ } = self.modes[place];
        self.timers.sent(stream, now);
    }

    /// Each timer that is set begins anew.
    pub fn hasten(&mut self, now: u64)
        ensures { self.new ≡ record self.old { timers = map (timed.hastened now) self.old.timers } }
    {
        self.timers.hasten(now);
    }

    /// What to do next without input.
    pub fn next(&self, now: u64) -> Task
        ensures next { IsNext self.now now result }
        ensures host { IsHost self.now }
    {
        if let Some(stream) = self.timers.due(now).next() {
            return match self.place_of(stream) {
                Some(place) => Task::Resend(place),
                None => unreachable!(),
            };
        }
        match self.next_start() {
            Some(place) => Task::Start(place),
            None => Task::Idle,
        }
    }

    /// The next quiet charge in the rotation, where a sender has a permit free.
    fn next_start(&self) -> Option<usize>
        ensures found { IfSome result (IsStart self.now) }
        ensures none { IfNone result (MayStart self.now → (place : ℕ) → ¬ (IsQuiet self.now place)) }
    {
        if !is_sender(self.side) || !self.handshakes.is_free() {
            return None;
        }
        for step in 0..self.modes.len() {
            let place = self.in_rotation(step);
            let StreamMode { stream: _, mode } = self.modes[place];
            if is_quiet(mode) {
                return Some(place);
            }
        }
        None
    }

    fn in_rotation(&self, step: usize) -> usize
        requires { step < length self.now.modes }
        ensures place { result ≡ in_rotation self.now step }
        ensures within { result < length self.now.modes }
    {
        let rest = self.modes.len() - self.rotation;
        if step < rest {
            self.rotation + step
        } else {
            step - rest
        }
    }

    /// A start of the charge in this place was chosen: the rotation goes on behind it.
    pub fn move_past(&mut self, place: usize)
        requires { place < length self.old.modes }
        ensures { self.new ≡ record self.old { rotation = next_place self.old place } }
    {
        let last = self.modes.len() - 1;
        self.rotation = if place < last { place + 1 } else { 0 };
    }

    /// The charge in this place answered this mode. A mode in which a handshake is open asks for a free permit, unless one was open
    /// before.
    pub fn note(&mut self, place: usize, resent: bool, mode: Mode, now: u64)
        requires place { place < length self.old.modes }
        requires free { (m : StreamMode) → IsAt self.old place m → is_open mode ≡ true → is_open m.mode ≡ false → open_count self.old.permits < self.old.limit }
        ensures noted { (m : StreamMode) → IsAt self.old place m → Noted self.old self.new place m resent mode now }
        ensures host { IsHost self.new }
    {
        let StreamMode { stream, mode: was } = self.modes[place];
        let kept = is_same(was, mode);
        self.handshakes.set(place, stream, holds_handshake(mode));
        retime(&mut self.timers, stream, kept, resent, mode, now);
        self.modes[place] = StreamMode { stream, mode };
    }
}

/// The earlier of two times.
fn earlier(one: Option<u64>, other: Option<u64>) -> Option<u64>
    ensures { result ≡ earlier one other }
{
    match (one, other) {
        (Some(one), Some(other)) => Some(one.min(other)),
        (Some(time), None) | (None, Some(time)) => Some(time),
        (None, None) => None,
    }
}

/// The side that a packet belongs to.
fn side_of(body: &Body<'_>) -> End
    ensures { result ≡ side_of (body_of body.now) }
{
    match body {
        Body::Accept(_, _) | Body::Ack(_, _) => End::Sender,
        Body::NeedUid(_) | Body::Send(_, _) | Body::Batch(_, _) | Body::Cleanup(_) => {
            End::Receiver
        }
    }
}

/// Sets or stops the timer of a stream after an event, by whether its mode is still of one kind, and by whether the
/// event was a resend.
fn retime(timers: &mut Timers, stream: u32, kept: bool, resent: bool, mode: Mode, now: u64)
    ensures timers { timers.new ≡ retimed kept resent mode stream now timers.old }
    ensures streams { timed.streams_of timers.new ≡ timed.streams_of timers.old }
{
    if kept {
        if resent {
            timers.sent(stream, now);
        }
        return;
    }
    timers.stop(stream);
    if has_timer(mode) {
        timers.sent(stream, now);
    }
}

fn streams_in(alloc: Global, modes: &[StreamMode]) -> Result<Vec<u32>, AllocError>
    ensures { IfOk result (λ streams. streams.items ≡ streams_of modes.now) }
{
    modes.iter().map(|known| known.stream).collect(alloc)
}
