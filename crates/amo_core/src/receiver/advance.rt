//! What an act makes of a receiver, and its step.
ghost use Rattle.std.specs.Prelude.{◌≡◌, None, true, false, IsTrue, IsFalse, if◌then◌else◌};
ghost use Rattle.amo_core.specs.Row.{done};
ghost use Rattle.amo_core.specs.Receiver.{is_accepting};
ghost use Rattle.amo_core.specs.Receiver as table;
ghost use Rattle.amo_core.specs.Automaton.{handed_back, Writes};
ghost use Rattle.amo_core.specs.declared.act.Act.TheVariants as act;

use crate::outcome::write_emission;
use crate::receiver::{Receiver, ReceiverMode};
use crate::{Act, Advanced, Messages, Outcome, Reply};
use amo_packet::{Batch, MAX_PACKET, Message, OwnedBody};

impl Receiver {
    /// Makes an act, exactly as its row says. What it emits is written at the front of the buffer.
    pub fn step(&mut self, act: Act, buffer: &mut [u8; MAX_PACKET]) -> Outcome
        ensures state { self.new ≡ (table.row self.old act).state }
        ensures reply { result.reply ≡ (table.row self.old act).reply }
        ensures handed_back { result.handed_back ≡ handed_back act result.reply }
        ensures emitted { Writes (table.row self.old act).emitted buffer.old buffer.new result.length }
    {
        let length = write_emission(self.emission(&act), buffer);
        Outcome::new(self.advance(act), length)
    }

    /// Becomes what the act's row says, and replies. It writes nothing: ask [`emission`](Receiver::emission) before for what
    /// the row emits.
    // Inlined, a caller that names its act moves and tests nothing of the other acts.
    #[inline(always)]
    pub fn advance(&mut self, act: Act) -> Advanced
        ensures state { self.new ≡ (table.row self.old act).state }
        ensures reply { result.reply ≡ (table.row self.old act).reply }
        ensures handed_back { result.handed_back ≡ handed_back act result.reply }
    {
        match act {
            Act::Put(message) => Advanced::unknown(Some(message)),
            Act::Get => Advanced::replied(Reply::from(self.get())),
            Act::Ack => Advanced::unknown(None),
            Act::Start(_word) | Act::Batch(_word) => Advanced::unknown(None),
            Act::Resend => Advanced::replied(Reply::Done),
            Act::Deliver(packet, word) => {
                self.advance_on(packet.body, word);
                Advanced::replied(Reply::Done)
            }
            Act::Crash => {
                self.crash();
                Advanced::replied(Reply::Done)
            }
            Act::Recover => {
                self.recover();
                Advanced::replied(Reply::Done)
            }
        }
    }

    /// Takes a delivery, with the word for an accept. One that belongs to a sender changes nothing.
    #[inline(always)]
    fn advance_on(&mut self, body: OwnedBody, word: u64)
        ensures { self.new ≡ (table.deliver self.old body word).state }
    {
        match body {
            OwnedBody::NeedUid(jd) => {
                self.advance_on_needuid(jd, word);
            }
            OwnedBody::Send(id, message) => {
                self.advance_on_send(id, message);
            }
            OwnedBody::Batch(id, batch) => self.advance_on_messages(id, batch),
            OwnedBody::Cleanup(id) => self.advance_on_cleanup(id),
            OwnedBody::Accept(_, _) | OwnedBody::Ack(_, _) => {}
        }
    }

    /// Goes from rest to accepting the needuid under the word, and says whether it accepts it now.
    pub(crate) fn advance_on_needuid(&mut self, jd: u64, word: u64) -> bool
        ensures state { self.new ≡ (table.needuid self.old self.old.mode jd word).state }
        ensures row { table.needuid self.old self.old.mode jd word ≡ (if result then table.row self.new act.Resend else done self.new None) }
    {
        match self.mode {
            ReceiverMode::Idle => {
                self.mode = ReceiverMode::Accept(jd, word);
                true
            }
            ReceiverMode::Accept(asked, _) => asked == jd,
            _ => false,
        }
    }

    /// Holds a message that was sent under the identifier accepted, and says whether it was.
    #[inline(always)]
    pub(crate) fn advance_on_send(&mut self, id: u64, message: Message) -> bool
        ensures state { self.new ≡ (table.send self.old self.old.mode id message).state }
        ensures held { IsTrue result → table.send self.old self.old.mode id message ≡ done self.new None }
        ensures other { IsFalse result → (self.new ≡ self.old) × (is_accepting self.old.mode id ≡ false) }
    {
        let accepted = self.is_accepting(id);
        if accepted {
            self.hold(id, message);
        }
        accepted
    }

    /// Holds a message that was sent under the identifier accepted.
    // By itself, or each send that is dropped makes room for a batch first.
    #[inline(never)]
    fn hold(&mut self, id: u64, message: Message)
        requires { is_accepting self.old.mode id ≡ true }
        ensures { table.send self.old self.old.mode id message ≡ done self.new None }
    {
        self.mode = ReceiverMode::Rcvd(id, Messages::from(message));
    }

    /// Takes a batch. All that is copied for one stays here.
    #[inline(never)]
    fn advance_on_messages(&mut self, id: u64, batch: Batch)
        ensures { self.new ≡ (table.batch self.old self.old.mode id batch).state }
    {
        self.advance_on_batch(id, Messages::of(batch.into_messages()));
    }

    /// Holds messages that were sent together under the identifier accepted, and says whether they were.
    #[inline(always)]
    pub(crate) fn advance_on_batch(&mut self, id: u64, messages: Messages) -> bool
        ensures state { self.new ≡ (table.batch self.old self.old.mode id messages).state }
        ensures held { IsTrue result → table.batch self.old self.old.mode id messages ≡ done self.new None }
        ensures other { IsFalse result → (self.new ≡ self.old) × (is_accepting self.old.mode id ≡ false) }
    {
        let accepted = self.is_accepting(id);
        if accepted {
            self.mode = ReceiverMode::Rcvd(id, messages);
        }
        accepted
    }

    /// Whether what is sent under this identifier is accepted.
    #[inline(always)]
    pub(crate) fn is_accepting(&self, id: u64) -> bool
        ensures { result ≡ is_accepting self.now.mode id }
    {
        matches!(self.mode, ReceiverMode::Accept(_, accepted) if accepted == id)
    }

    /// Comes to rest if the identifier is accepted, or all its messages were got.
    pub(crate) fn advance_on_cleanup(&mut self, id: u64)
        ensures state { self.new ≡ (table.cleanup self.old self.old.mode id).state }
        ensures row { table.cleanup self.old self.old.mode id ≡ done self.new None }
    {
        match self.mode {
            ReceiverMode::Accept(_, under) | ReceiverMode::Ack(under) if under == id => {
                self.mode = ReceiverMode::Idle;
            }
            _ => {}
        }
    }
}
