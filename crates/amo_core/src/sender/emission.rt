//! What a sender would emit: looked up, with nothing changed.
ghost use Rattle.std.specs.Prelude.{◌≡◌, false, IfSome};
ghost use Rattle.std.specs.Option.{option_map};
ghost use Rattle.amo_packet.specs.Packet.{body_of, packet_of};
ghost use Rattle.amo_packet.specs.Grammar.{CanBeWritten};
ghost use Rattle.amo_core.specs.Row.{done};
ghost use Rattle.amo_core.specs.Sender.{is_asking, is_sending};
ghost use Rattle.amo_core.specs.Sender as table;
ghost use Rattle.amo_core.specs.declared.act.Act.TheVariants as act;

use crate::Act;
use crate::sender::{Sender, SenderMode};
use amo_packet::{Body, OwnedBody, Packet};

impl Sender {
    /// The packet that the act would emit, if any.
    pub fn emission(&self, act: &Act) -> Option<Packet<'_>>
        ensures value { option_map packet_of result ≡ (table.row self.now act.now).emitted }
        ensures fits { IfSome result (λ p. CanBeWritten (body_of p.body)) }
    {
        match act {
            Act::Start(_) | Act::Batch(_) => {
                let word = self.used_word(act)?;
                Some(self.packet(Body::NeedUid(word)))
            }
            Act::Resend => self.resend(),
            Act::Deliver(packet, _) => self.emission_on(&packet.body),
            Act::Put(_) | Act::Get | Act::Ack | Act::Crash | Act::Recover => None,
        }
    }

    /// Emits the packet of the mode: needuid while the sender asks, send or batch while it sends.
    pub fn resend(&self) -> Option<Packet<'_>>
        ensures row { table.row self.now act.Resend ≡ done self.now (option_map packet_of result) }
        ensures fits { IfSome result (λ p. CanBeWritten (body_of p.body)) }
    {
        match &self.mode {
            SenderMode::NeedId(jd, _) => Some(self.packet(Body::NeedUid(*jd))),
            SenderMode::Send(id, payload) => Some(self.packet(payload.carrying(*id))),
            SenderMode::Quiet(_) | SenderMode::Down => None,
        }
    }

    /// What a delivery would emit.
    fn emission_on(&self, body: &OwnedBody) -> Option<Packet<'_>>
        ensures value { option_map packet_of result ≡ (table.deliver self.now body.now).emitted }
        ensures fits { IfSome result (λ p. CanBeWritten (body_of p.body)) }
    {
        match body {
            OwnedBody::Accept(jd, id) => self.emission_on_accept(*jd, *id),
            OwnedBody::Ack(id, got) => self.cleanup_on_ack(*id, *got),
            OwnedBody::NeedUid(_)
            | OwnedBody::Send(_, _)
            | OwnedBody::Batch(_, _)
            | OwnedBody::Cleanup(_) => None,
        }
    }

    /// What an accept would emit: the send or the batch that it is awaited for, or a cleanup.
    fn emission_on_accept(&self, jd: u64, id: u64) -> Option<Packet<'_>>
        ensures value { option_map packet_of result ≡ (table.accept self.now self.now.mode jd id).emitted }
        ensures fits { IfSome result (λ p. CanBeWritten (body_of p.body)) }
    {
        match &self.mode {
            SenderMode::NeedId(asked, payload) if *asked == jd => {
                Some(self.packet(payload.carrying(id)))
            }
            _ => self.cleanup_on_accept(jd, id),
        }
    }

    /// The cleanup for an accept that is not awaited, unless the sender sends under its identifier or is down.
    pub(crate) fn cleanup_on_accept(&self, jd: u64, id: u64) -> Option<Packet<'_>>
        requires { is_asking self.now.mode jd ≡ false }
        ensures fits { IfSome result (λ p. CanBeWritten (body_of p.body)) }
        ensures row { table.accept self.now self.now.mode jd id ≡ done self.now (option_map packet_of result) }
    {
        match &self.mode {
            SenderMode::Down => None,
            SenderMode::Send(under, _) if *under == id => None,
            _ => Some(self.packet(Body::Cleanup(id))),
        }
    }

    /// The cleanup for an ack that says "got", in every mode but down.
    pub(crate) fn cleanup_on_ack(&self, id: u64, got: bool) -> Option<Packet<'_>>
        ensures fits { IfSome result (λ p. CanBeWritten (body_of p.body)) }
        ensures emitted { option_map packet_of result ≡ (table.ack self.now self.now.mode id got).emitted }
        ensures row { is_sending self.now.mode id ≡ false → table.ack self.now self.now.mode id got ≡ done self.now (option_map packet_of result) }
    {
        match &self.mode {
            SenderMode::Down => None,
            _ if got => Some(self.packet(Body::Cleanup(id))),
            _ => None,
        }
    }

    /// A packet of this stream.
    fn packet<'a>(&self, body: Body<'a>) -> Packet<'a>
        ensures { packet_of result ≡ record { stream = self.now.stream; body = body_of body.entry } }
    {
        Packet {
            stream: self.stream,
            body,
        }
    }
}
