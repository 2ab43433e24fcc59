//! What an act makes of a sender, and its step.
ghost use Rattle.std.specs.Prelude.{◌≡◌, None, true, false, IsTrue, IsFalse, if◌then◌else◌, take, drop};
ghost use Rattle.amo_core.specs.Row.{done};
ghost use Rattle.amo_core.specs.Sender.{is_asking, is_sending};
ghost use Rattle.amo_core.specs.Sender as table;
ghost use Rattle.amo_core.specs.Automaton.{handed_back, Writes};
ghost use Rattle.amo_core.specs.declared.act.Act.TheVariants as act;

use crate::outcome::write_emission;
use crate::sender::{Sender, SenderMode};
use crate::{Act, Advanced, MAX_WAITING, Messages, Outcome, Payload, PutRefusal, Reply};
use amo_packet::{MAX_BATCH, MAX_PACKET, Message, OwnedBody};
use arrayvec::ArrayVec;
use std::mem;

impl Sender {
    /// Makes an act, exactly as its row says. What it emits is written at the front of the buffer.
    pub fn step(&mut self, act: Act, buffer: &mut [u8; MAX_PACKET]) -> Outcome
        ensures state { self.new ≡ (table.row self.old act).state }
        ensures reply { result.reply ≡ (table.row self.old act).reply }
        ensures handed_back { result.handed_back ≡ handed_back act result.reply }
        ensures emitted { Writes (table.row self.old act).emitted buffer.old buffer.new result.length }
    {
        let length = write_emission(self.emission(&act), buffer);
        Outcome::new(self.advance(act), length)
    }

    /// Becomes what the act's row says, and replies. It writes nothing: ask [`emission`](Sender::emission) before for what
    /// the row emits.
    // Inlined, a caller that names its act moves and tests nothing of the other acts.
    #[inline(always)]
    pub fn advance(&mut self, act: Act) -> Advanced
        ensures state { self.new ≡ (table.row self.old act).state }
        ensures reply { result.reply ≡ (table.row self.old act).reply }
        ensures handed_back { result.handed_back ≡ handed_back act result.reply }
    {
        match act {
            Act::Put(message) => self.advance_on_put(message),
            Act::Get => Advanced::unknown(None),
            Act::Ack => Advanced::replied(Reply::from(self.get_ack())),
            Act::Start(word) => {
                self.advance_on_start(word);
                Advanced::replied(Reply::Done)
            }
            Act::Batch(word) => {
                self.advance_on_batch(word);
                Advanced::replied(Reply::Done)
            }
            Act::Resend => Advanced::replied(Reply::Done),
            Act::Deliver(packet, _word) => {
                self.advance_on(packet.body);
                Advanced::replied(Reply::Done)
            }
            Act::Crash => {
                self.crash();
                Advanced::replied(Reply::Done)
            }
            Act::Recover => {
                self.recover();
                Advanced::replied(Reply::Done)
            }
        }
    }

    fn advance_on_put(&mut self, message: Message) -> Advanced
        ensures state { self.new ≡ (table.row self.old (act.Put message)).state }
        ensures reply { result.reply ≡ (table.row self.old (act.Put message)).reply }
        ensures handed_back { result.handed_back ≡ handed_back (act.Put message) result.reply }
    {
        let (reply, handed_back) = match self.put(message) {
            Ok(()) => (Reply::Ok, None),
            Err(PutRefusal::Full(message)) => (Reply::Full, Some(message)),
            Err(PutRefusal::Down(message)) => (Reply::Down, Some(message)),
        };
        Advanced {
            reply: Some(reply),
            handed_back,
        }
    }

    /// Takes a delivery. One that belongs to a receiver changes nothing.
    fn advance_on(&mut self, body: OwnedBody)
        ensures { self.new ≡ (table.deliver self.old body).state }
    {
        match body {
            OwnedBody::Accept(jd, id) => {
                self.advance_on_accept(jd, id);
            }
            OwnedBody::Ack(id, got) => self.advance_on_ack(id, got),
            OwnedBody::NeedUid(_) | OwnedBody::Cleanup(_) => {}
            OwnedBody::Send(_, _message) => {}
            OwnedBody::Batch(_, _batch) => {}
        }
    }

    /// Goes from rest to asking under the word for the first message that waits, and says whether it did.
    pub(crate) fn advance_on_start(&mut self, word: u64) -> bool
        ensures state { self.new ≡ (table.row self.old (act.Start word)).state }
        ensures row { table.row self.old (act.Start word) ≡ (if result then table.row self.new act.Resend else done self.new None) }
    {
        match self.mode {
            SenderMode::Quiet(_) if !self.waiting.is_empty() => {
                let message = self.waiting.remove(0);
                self.mode = SenderMode::NeedId(word, Payload::Message(message));
                true
            }
            _ => false,
        }
    }

    /// Goes from rest to asking under the word for the first messages that wait, and says whether it did.
    pub(crate) fn advance_on_batch(&mut self, word: u64) -> bool
        ensures state { self.new ≡ (table.row self.old (act.Batch word)).state }
        ensures row { table.row self.old (act.Batch word) ≡ (if result then table.row self.new act.Resend else done self.new None) }
    {
        match self.mode {
            SenderMode::Quiet(_) if !self.waiting.is_empty() => {
                let messages = Messages::of(take_batch(&mut self.waiting));
                self.mode = SenderMode::NeedId(word, Payload::Batch(messages));
                true
            }
            _ => false,
        }
    }

    /// Goes from asking under the sender's identifier to sending under the receiver's, and says whether it did.
    pub(crate) fn advance_on_accept(&mut self, jd: u64, id: u64) -> bool
        ensures state { self.new ≡ (table.accept self.old self.old.mode jd id).state }
        ensures awaited { IsTrue result → table.accept self.old self.old.mode jd id ≡ table.row self.new act.Resend }
        ensures other { IsFalse result → (self.new ≡ self.old) × (is_asking self.old.mode jd ≡ false) }
    {
        match mem::replace(&mut self.mode, SenderMode::Down) {
            SenderMode::NeedId(asked, payload) if asked == jd => {
                self.mode = SenderMode::Send(id, payload);
                true
            }
            other => {
                self.mode = other;
                false
            }
        }
    }

    /// Comes to rest if the sender sends under the identifier.
    pub(crate) fn advance_on_ack(&mut self, id: u64, got: bool)
        ensures state { self.new ≡ (table.ack self.old self.old.mode id got).state }
        ensures same { table.ack self.old self.old.mode id got ≡ table.ack self.new self.new.mode id got }
        ensures at_rest { is_sending self.new.mode id ≡ false }
    {
        if let SenderMode::Send(under, _) = self.mode
            && under == id
        {
            self.mode = SenderMode::Quiet(got);
        }
    }
}

/// Takes the first messages that wait, at most as many as a batch has.
fn take_batch(waiting: &mut ArrayVec<Message, MAX_WAITING>) -> ArrayVec<Message, MAX_BATCH>
    ensures taken { result.items ≡ take MAX_BATCH waiting.old.items }
    ensures left { waiting.new.items ≡ drop MAX_BATCH waiting.old.items }
{
    let mut batch = ArrayVec::new();
    'batch: for _ in 0..MAX_BATCH {
        if !waiting.is_empty() {
            batch.push(waiting.remove(0));
        }
    }
    batch
}
