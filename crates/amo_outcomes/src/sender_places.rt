//! Where the puts of a stream are, as the sender's own events tell it.
ghost use Rattle.std.specs.Prelude.{◌≡◌, ◌↔◌, ◌<◌, ◌≤◌, ℕ, IfOk, IsTrue, true, false, length};
ghost use Rattle.std.specs.List.{Contains};
ghost use Rattle.amo_core.specs.Sender.{kind};
ghost use Rattle.amo_core.specs.declared.sender.SenderMode.{SenderMode};
ghost use Rattle.amo_core.specs.declared.sender.SenderMode.TheVariants as sending;
ghost use Rattle.amo_outcomes.specs.Puts.{Puts, none, sent_under};
ghost use Rattle.amo_outcomes.specs.Places as places;
ghost use Rattle.amo_outcomes.specs.Heard.{Heard, all_sent, unheard, heard_body, heard_ack};
ghost use Rattle.amo_outcomes.specs.SenderOutcome.{IsOutcome};
ghost use Rattle.amo_outcomes.specs.SenderPlaces.{Keeps, Begins, accepted_of, accepted_by, Sends, SendsUnder, Forgets, Hears};

use crate::SenderOutcome;
use crate::marks::{Mark, Run, raise, settle};
use crate::places::most_of;
use amo_core::{Act, Reply};
use amo_packet::OwnedBody;
use std::alloc::{AllocError, Global};
use std::collections::BTreeMap;

/// The puts of a stream, by their numbers. Those that wait are the last ones, and those of a handshake stand in a row.
#[derive(Drop)]
pub(crate) struct SenderPlaces {
    /// What is known of each put.
    marks: Vec<Mark>,
    /// The first one that waits.
    waiting: usize,
    /// Those for which the sender asks for an identifier.
    asked: Run,
    /// Those of the handshake that came to an identifier last.
    sent: Run,
    /// Those that travel under each identifier, until an ack says that they were got.
    travelling: BTreeMap<u64, Run>,
}

impl SenderPlaces {
    /// Of a stream to which nothing was put.
    pub(crate) fn new(alloc: Global) -> SenderPlaces
        ensures { Keeps result (sending.Quiet true) none unheard }
    {
        SenderPlaces {
            marks: Vec::new(alloc),
            waiting: 0,
            asked: Run { first: 0, end: 0 },
            sent: Run { first: 0, end: 0 },
            travelling: BTreeMap::new(alloc),
        }
    }

    /// How many puts were taken.
    pub(crate) fn count(&self) -> usize
        ensures { result ≡ length self.now.marks.items }
    {
        self.marks.len()
    }

    /// What became of a put that was taken, at a sender that asks for an identifier, or does not.
    pub(crate) fn outcome(&self, put: usize, asks: bool) -> SenderOutcome
        requires { put < length self.now.marks.items }
        ensures { (mode : SenderMode) (p : Puts) (h : Heard) → asks ≡ places.asks (kind mode) → Keeps self.now mode p h
            → IsOutcome mode p h put result }
    {
        match self.marks[put] {
            Mark::Got => SenderOutcome::Got,
            Mark::Settled => SenderOutcome::Unknown { settled: true },
            Mark::Sent => SenderOutcome::Unknown { settled: false },
            Mark::Unsent => self.outcome_unsent(put, asks),
        }
    }

    /// What became of a put that was not sent.
    fn outcome_unsent(&self, put: usize, asks: bool) -> SenderOutcome
        requires { put < length self.now.marks.items }
        ensures { (mode : SenderMode) (p : Puts) (h : Heard) → asks ≡ places.asks (kind mode) → Keeps self.now mode p h
            → (¬ (Contains (all_sent p.sent) put)) → IsOutcome mode p h put result }
    {
        if self.waits(put) {
            return SenderOutcome::Open;
        }
        if self.is_asked(put, asks) {
            return SenderOutcome::Open;
        }
        SenderOutcome::Gone
    }

    /// Whether a put that was taken and not sent waits.
    fn waits(&self, put: usize) -> bool
        ensures { IsTrue result ↔ (self.now.waiting ≤ put) }
    {
        self.waiting <= put
    }

    /// Whether an identifier is asked for a put, if the sender asks for one.
    fn is_asked(&self, put: usize, asks: bool) -> bool
        ensures { IsTrue result ↔ ((asks ≡ true) × (self.now.asked.first ≤ put) × (put < self.now.asked.end)) }
    {
        asks && self.asked.first <= put && put < self.asked.end
    }

    /// The sender asks for an identifier for the first ones that wait: for one, or for as many as a batch has at most.
    pub(crate) fn begin(&mut self, act: &Act)
        ensures { Begins act.now self.old self.new }
    {
        let first = self.waiting;
        let end = first.saturating_add(most_of(act)).min(self.marks.len());
        self.asked = Run { first, end };
        self.waiting = end;
    }

    /// What was asked for is sent, under the identifier that came. That settles all that was sent before.
    pub(crate) fn send(&mut self, act: &Act) -> Result<(), AllocError>
        ensures { IfOk result (λ _. Sends act.now self.old self.new) }
    {
        if let Some(id) = accepted(act) {
            self.send_under(id)?;
        }
        Ok(())
    }

    /// It is sent under this identifier.
    fn send_under(&mut self, id: u64) -> Result<(), AllocError>
        ensures { IfOk result (λ _. SendsUnder id self.old self.new) }
    {
        self.travelling.insert(id, self.asked)?;
        settle(&mut self.marks, self.sent);
        self.sent = self.asked;
        raise(&mut self.marks, self.asked, Mark::Sent);
        Ok(())
    }

    /// The sender forgets what waits.
    pub(crate) fn forget(&mut self)
        ensures { Forgets self.old self.new }
    {
        self.waiting = self.marks.len();
    }

    /// A put was taken, or an ack came.
    pub(crate) fn hear(&mut self, act: &Act, reply: &Reply) -> Result<(), AllocError>
        ensures { IfOk result (λ _. Hears act.now reply.now self.old self.new) }
    {
        match (act, reply) {
            (Act::Put(_), Reply::Ok) => self.marks.push(Mark::Unsent)?,
            (Act::Deliver(packet, _), _) => self.hear_packet(&packet.body),
            _ => {}
        }
        Ok(())
    }

    /// What came, if it is an ack, tells of the puts that travel under its identifier.
    fn hear_packet(&mut self, body: &OwnedBody)
        ensures { (mode : SenderMode) (p : Puts) (h : Heard) → Keeps self.old mode p h → Keeps self.new mode p (heard_body body.now p.sent h) }
    {
        match body {
            OwnedBody::Ack(id, true) => self.hear_got(*id),
            OwnedBody::Ack(id, false) => self.hear_lost(*id),
            _ => {}
        }
    }

    /// An ack says that they were got.
    fn hear_got(&mut self, id: u64)
        ensures { (mode : SenderMode) (p : Puts) (h : Heard) → Keeps self.old mode p h
            → Keeps self.new mode p (heard_ack true (sent_under p.sent id) h) }
    {
        if let Some(run) = self.travelling.remove(&id) {
            raise(&mut self.marks, run, Mark::Got);
        }
    }

    /// An ack says that the identifier is not known.
    fn hear_lost(&mut self, id: u64)
        ensures { (mode : SenderMode) (p : Puts) (h : Heard) → Keeps self.old mode p h
            → Keeps self.new mode p (heard_ack false (sent_under p.sent id) h) }
    {
        if let Some(run) = self.travelling.get(&id).copied() {
            settle(&mut self.marks, run);
        }
    }
}

/// The identifier that an act delivers for what was asked, if it delivers one.
fn accepted(act: &Act) -> Option<u64>
    ensures { result ≡ accepted_of act.now }
{
    match act {
        Act::Deliver(packet, _) => accepted_by(&packet.body),
        _ => None,
    }
}

/// The identifier that an accept gives.
fn accepted_by(body: &OwnedBody) -> Option<u64>
    ensures { result ≡ accepted_by body.now }
{
    match body {
        OwnedBody::Accept(_, id) => Some(*id),
        _ => None,
    }
}
