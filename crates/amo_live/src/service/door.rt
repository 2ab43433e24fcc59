//! What callers are told by other means than what is shown: puts, gets, and ends of handshakes.
ghost use Rattle.std.specs.Prelude.{◌≡◌, ◌≢◌, ◌∷◌, ◌++◌, [], length, IfNone, IfOk, IfSome, OnOk};
ghost use Rattle.amo_live.specs.Callers.{Gets, GetsNone, IsSameLife, PutsAt};
ghost use Rattle.amo_live.specs.Host.{IsNoted, IsWhole};
ghost use Rattle.amo_live.specs.Service.{CannotGet, CannotPut, HasLooked, PutsNone, gives_message, settled_by, summary_on, streams_of, takes_put, words_of};
ghost use Rattle.amo_live.specs.Shown.{told_at, told_in};
ghost use Rattle.amo_live.specs.Words.{BearsNew};

use crate::service::{Lane, Service};
use crate::{Lineage, LiveFault};
use amo_core::{MAX_WAITING, Mode};
use amo_net::Link;
use amo_object::End;
use amo_packet::{Body, Message, Packet};
use amo_text::Sink;
use std::alloc::{AllocError, AllocFailed};

/// Where the event of a call stands.
#[derive(Clone, Copy, PartialEq, Eq)]
pub struct EventAt {
    /// Its position in what the host has seen in this process.
    pub position: u64,
    /// The number of its line in the journal.
    pub line: u64,
}

/// The end of a handshake, and what became of the messages that travelled in it.
#[derive(Clone, Copy, Debug, PartialEq, Eq)]
pub struct Settled {
    /// The stream.
    pub stream: u32,
    /// Each of them was got; or each was got or lost.
    pub was_got: bool,
    /// How many there were: those of the stream that had no such end before, in the order put.
    pub messages: u64,
    /// None was put behind them by then.
    pub is_last: bool,
    /// The number of the line in the journal that says it: that of the answer to the call for what became of the stream's last message, or that of the
    /// ack's delivery where others wait behind.
    pub line: u64,
}

impl<L: Link, S: Sink, W: Lineage> Service<L, S, W> {
    /// The handshakes that ended since what is shown was cleared, in their order.
    pub fn settled(&self) -> &[Settled]
        ensures { result.now ≡ settled_by self.now }
    {
        self.settled.as_slice()
    }

    /// How many packets are to leave.
    pub fn leaving(&self) -> usize
        ensures { result ≡ length self.now.host.outbox.leaving }
    {
        self.host.outbox.leaving()
    }

    /// The end of the handshake that is open on a packet's stream, if the delivery of the packet is the next event, and ends it: only an ack does.
    pub(crate) fn end_by(&mut self, packet: &Packet<'_>) -> Result<Settled, LiveFault>
        ensures told { IfOk result (λ end. told_in end ≢ 0 → IsWhole self.old.host.pass × (told_in end ≡ told_at (summary_on self.old packet.now.stream))) }
        ensures looked { HasLooked self.old self.new }
    {
        let mut end = Settled {
            stream: packet.stream,
            was_got: false,
            messages: 0,
            is_last: false,
            line: self.host.next_line(),
        };
        let Body::Ack(_, was_got) = packet.body else {
            return Ok(end);
        };
        end.was_got = was_got;
        if self.ends_with_one(packet.stream) {
            end.messages = 1;
            end.is_last = true;
            return Ok(end);
        }
        let summary = self.host.look(packet.stream)?;
        end.messages = summary.held as u64;
        end.is_last = summary.waiting == 0;
        Ok(end)
    }

    /// Whether a stream's handshake carries its last message alone, as is known without a look: none waits behind it, and none travel together.
    fn ends_with_one(&self, stream: u32) -> bool {
        match self.lane(stream) {
            Some(lane) => lane.waiting == 0 && !self.batches(),
            None => false,
        }
    }

    /// A handshake ended so.
    pub(crate) fn note_settled(&mut self, settled: Settled) -> Result<(), AllocError>
        ensures same { self.new ≡ record self.old { settled = self.new.settled } }
        ensures noted { OnOk result (settled_by self.new ≡ settled_by self.old ++ (settled ∷ [])) }
    {
        match self.settled.push(settled) {
            Ok(()) => Ok(()),
            Err(AllocFailed { .. }) => Err(AllocError),
        }
    }

    /// On how many streams of a sender the last message that was put has no answer yet.
    pub fn open_streams(&self) -> u64 {
        let mut open = 0u64;
        for lane in &self.lanes {
            open = open.saturating_add(u64::from(lane.owed));
        }
        open
    }

    /// Of how many streams of a receiver a message has come and was not got.
    pub fn ready_streams(&self) -> u64 {
        let mut ready = 0u64;
        for lane in &self.lanes {
            ready = ready.saturating_add(u64::from(lane.held > 0));
        }
        ready
    }

    /// Whether a message can be put on a stream.
    fn takes_put(&mut self, stream: u32) -> Result<bool, LiveFault>
        ensures takes { IfOk result (λ takes. takes ≡ takes_put self.old.host.side (summary_on self.old stream)) }
        ensures looked { HasLooked self.old self.new }
    {
        let summary = self.host.look(stream)?;
        Ok(match self.host.side() {
            End::Sender => summary.mode != Mode::Down && summary.waiting < MAX_WAITING,
            End::Receiver => false,
        })
    }

    /// Whether a message can be got of a stream.
    fn gives_message(&mut self, stream: u32) -> Result<bool, LiveFault>
        ensures gives { IfOk result (λ gives. gives ≡ gives_message self.old.host.side (summary_on self.old stream)) }
        ensures looked { HasLooked self.old self.new }
    {
        let summary = self.host.look(stream)?;
        Ok(match self.host.side() {
            End::Sender => false,
            End::Receiver => summary.held > 0,
        })
    }

    /// Puts a message on a stream as `put` does, and shows nothing. None exactly where none can be put, as the stream is full, and then nothing happens.
    #[tactic(auto, using(crate::proofs::Putting::put_none_still, crate::proofs::Getting::put_gets, crate::proofs::Fresh::bears_none))]
    pub fn put_for_caller(
        &mut self,
        stream: u32,
        message: Message,
        now: u64,
    ) -> Result<Option<EventAt>, LiveFault>
        requires { IsNoted S.written self.old.host }
        ensures noted { OnOk result (IsNoted S.written self.new.host) }
        ensures life { IsSameLife self.old.host.pass self.new.host.pass self.old.host.journal self.new.host.journal }
        ensures put { IfOk result (PutsAt self.old.host.pass self.new.host.pass self.new.host.journal stream message) }
        ensures none_got { OnOk result (GetsNone self.old.host.pass self.new.host.pass) }
        ensures full { IfOk result (λ put. IfNone put (CannotPut self.old stream × HasLooked self.old self.new)) }
        ensures room { IfOk result (λ put. IfSome put (λ at. ¬ (CannotPut self.old stream))) }
        ensures line { IfOk result (λ put. IfSome put (λ at. at.line ≡ self.old.host.journal.next)) }
        ensures streams { streams_of self.new ≡ streams_of self.old }
        ensures words { OnOk result (BearsNew W.is_drawn (words_of self.old) (words_of self.new) self.old.host.pass self.new.host.pass) }
    {
        let Some(lane) = self.lane(stream) else {
            return Ok(None);
        };
        if !self.takes_put(stream)? {
            return Ok(None);
        }
        let line = self.host.next_line();
        let Ok(position) = self.host.put(stream, message)? else {
            return Err(LiveFault::Busy);
        };
        self.owe(stream, lane);
        self.begin(stream, now)?;
        Ok(Some(EventAt { position, line }))
    }

    /// Gets the next message that has come to a stream, and shows nothing. None exactly where none has come that was not got, and then nothing happens. Those
    /// that came with it are acknowledged once the last of them was got.
    #[tactic(auto, using(crate::proofs::Getting::was_got, crate::proofs::Getting::got_none, crate::proofs::Getting::got_none_still, crate::proofs::Getting::got_on, crate::proofs::Getting::resend_gets, crate::proofs::Getting::resend_extends, crate::proofs::Getting::get_puts, crate::proofs::Fresh::bears_none))]
    pub fn get_for_caller(
        &mut self,
        stream: u32,
        now: u64,
    ) -> Result<Option<(Message, EventAt)>, LiveFault>
        requires { IsNoted S.written self.old.host }
        ensures noted { OnOk result (IsNoted S.written self.new.host) }
        ensures life { IsSameLife self.old.host.pass self.new.host.pass self.old.host.journal self.new.host.journal }
        ensures none_put { OnOk result (PutsNone self.old.host.pass self.new.host.pass) }
        ensures got { IfOk result (Gets self.old.host.pass self.new.host.pass self.new.host.journal stream) }
        ensures none { IfOk result (λ got. IfNone got (CannotGet self.old stream × HasLooked self.old self.new)) }
        ensures some { IfOk result (λ got. IfSome got (λ g. ¬ (CannotGet self.old stream))) }
        ensures line { IfOk result (λ got. IfSome got (λ g. g.1.line ≡ self.old.host.journal.next)) }
        ensures streams { streams_of self.new ≡ streams_of self.old }
        ensures words { OnOk result (BearsNew W.is_drawn (words_of self.old) (words_of self.new) self.old.host.pass self.new.host.pass) }
    {
        let Some(lane) = self.lane(stream) else {
            return Ok(None);
        };
        if !self.gives_message(stream)? {
            return Ok(None);
        }
        let line = self.host.next_line();
        let Some((message, position)) = self.host.get(stream)? else {
            return Err(LiveFault::Busy);
        };
        self.got = self.got.saturating_add(1);
        let held = lane.held.saturating_sub(1);
        self.set_lane(stream, Lane { held, ..lane });
        if held == 0 {
            self.host.resend(stream, now)?;
        }
        Ok(Some((message, EventAt { position, line })))
    }
}
