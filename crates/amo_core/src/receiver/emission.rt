//! What a receiver would emit: looked up, with nothing changed.
ghost use Rattle.std.specs.Prelude.{◌≡◌, false, IfSome};
ghost use Rattle.std.specs.Option.{option_map};
ghost use Rattle.amo_packet.specs.Batch.{Batch};
ghost use Rattle.amo_packet.specs.Packet.{body_of, packet_of};
ghost use Rattle.amo_packet.specs.Grammar.{CanBeWritten};
ghost use Rattle.amo_core.specs.Row.{done};
ghost use Rattle.amo_core.specs.Receiver.{is_accepting};
ghost use Rattle.amo_core.specs.Receiver as table;
ghost use Rattle.amo_core.specs.declared.act.Act.TheVariants as act;

use crate::Act;
use crate::receiver::{Receiver, ReceiverMode};
use amo_packet::{Body, OwnedBody, Packet};

impl Receiver {
    /// The packet that the act would emit, if any.
    pub fn emission(&self, act: &Act) -> Option<Packet<'_>>
        ensures value { option_map packet_of result ≡ (table.row self.now act.now).emitted }
        ensures fits { IfSome result (λ p. CanBeWritten (body_of p.body)) }
    {
        match act {
            Act::Resend => self.resend(),
            Act::Deliver(packet, word) => self.emission_on(&packet.body, *word),
            Act::Put(_)
            | Act::Get
            | Act::Ack
            | Act::Start(_)
            | Act::Batch(_)
            | Act::Crash
            | Act::Recover => None,
        }
    }

    /// Emits the packet of the mode: accept while the receiver accepts, and ack once all messages were got.
    pub fn resend(&self) -> Option<Packet<'_>>
        ensures row { table.row self.now act.Resend ≡ done self.now (option_map packet_of result) }
        ensures fits { IfSome result (λ p. CanBeWritten (body_of p.body)) }
    {
        match &self.mode {
            ReceiverMode::Accept(jd, id) => Some(self.packet(Body::Accept(*jd, *id))),
            ReceiverMode::Ack(id) => Some(self.packet(Body::Ack(*id, true))),
            ReceiverMode::Idle | ReceiverMode::Rcvd(_, _) | ReceiverMode::Down => None,
        }
    }

    /// What a delivery would emit, with the word for an accept.
    fn emission_on(&self, body: &OwnedBody, word: u64) -> Option<Packet<'_>>
        ensures value { option_map packet_of result ≡ (table.deliver self.now body.now word).emitted }
        ensures fits { IfSome result (λ p. CanBeWritten (body_of p.body)) }
    {
        match body {
            OwnedBody::NeedUid(jd) => self.emission_on_needuid(*jd, word),
            OwnedBody::Send(id, _) | OwnedBody::Batch(id, _) => self.emission_on_batch(*id),
            OwnedBody::Accept(_, _) | OwnedBody::Ack(_, _) | OwnedBody::Cleanup(_) => None,
        }
    }

    /// What a needuid would emit: an accept under the word, or the accept that stands for it already.
    fn emission_on_needuid(&self, jd: u64, word: u64) -> Option<Packet<'_>>
        ensures value { option_map packet_of result ≡ (table.needuid self.now self.now.mode jd word).emitted }
        ensures fits { IfSome result (λ p. CanBeWritten (body_of p.body)) }
    {
        match &self.mode {
            ReceiverMode::Idle => Some(self.packet(Body::Accept(jd, word))),
            ReceiverMode::Accept(asked, id) if *asked == jd => {
                Some(self.packet(Body::Accept(jd, *id)))
            }
            _ => None,
        }
    }

    /// What a send or a batch under this identifier would emit: nothing if it is accepted, or an ack.
    fn emission_on_batch(&self, id: u64) -> Option<Packet<'_>>
        ensures value { (b : Batch) → option_map packet_of result ≡ (table.batch self.now self.now.mode id b).emitted }
        ensures fits { IfSome result (λ p. CanBeWritten (body_of p.body)) }
    {
        if self.is_accepting(id) {
            None
        } else {
            self.ack_on_batch(id)
        }
    }

    /// The ack for a send or a batch under an identifier that is not accepted, unless its messages are held or the receiver is down.
    pub(crate) fn ack_on_batch(&self, id: u64) -> Option<Packet<'_>>
        requires { is_accepting self.now.mode id ≡ false }
        ensures fits { IfSome result (λ p. CanBeWritten (body_of p.body)) }
        ensures row { (b : Batch) → table.batch self.now self.now.mode id b ≡ done self.now (option_map packet_of result) }
    {
        match &self.mode {
            ReceiverMode::Down => None,
            ReceiverMode::Rcvd(under, _) if *under == id => None,
            ReceiverMode::Ack(under) => Some(self.packet(Body::Ack(id, *under == id))),
            _ => Some(self.packet(Body::Ack(id, false))),
        }
    }

    /// A packet of this stream.
    fn packet<'a>(&self, body: Body<'a>) -> Packet<'a>
        ensures { packet_of result ≡ record { stream = self.now.stream; body = body_of body.entry } }
    {
        Packet {
            stream: self.stream,
            body,
        }
    }
}
