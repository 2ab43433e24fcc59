//! Packets, with their messages owned or borrowed.
ghost use Rattle.std.specs.Prelude.{◌≡◌, ◌↔◌, IfOk, OnErr, IsErrOf};
ghost use Rattle.amo_packet.specs.Grammar.{CanBeWritten, CarriesNoBytes};
ghost use Rattle.amo_packet.specs.Packet.{packet_of, body_of};

use crate::{Batch, Message, MessageFault, Parts};
use std::alloc::{AllocError, Global};

/// What a packet says, with messages of its own.
#[derive(Clone, Debug, PartialEq, Eq, PartialOrd, Ord, Drop)]
pub enum OwnedBody {
    /// The sender needs an identifier, and names one of its own by which to know the accept.
    NeedUid(u64),
    /// The receiver accepts the sender's identifier, first, and gives one of its own for the message.
    Accept(u64, u64),
    /// The sender sends its message under the identifier.
    Send(u64, Message),
    /// The receiver says that the message of the identifier was got, or that the identifier is not known there.
    Ack(u64, bool),
    /// The sender is done with the identifier.
    Cleanup(u64),
    /// The sender sends all of its messages under the one identifier.
    Batch(u64, Batch),
}

/// A packet that owns its messages. Contracts speak of every packet as one of these.
#[derive(Clone, Debug, PartialEq, Eq, PartialOrd, Ord, Drop)]
pub struct OwnedPacket {
    /// The stream's number. A packet may name any.
    pub stream: u32,
    /// What is said.
    pub body: OwnedBody,
}

/// What a packet says, with its messages where they lie. The variants are those of [`OwnedBody`].
#[derive(Clone, Copy)]
pub enum Body<'a> {
    /// The sender needs an identifier, and names one of its own by which to know the accept.
    NeedUid(u64),
    /// The receiver accepts the sender's identifier, first, and gives one of its own for the message.
    Accept(u64, u64),
    /// The sender sends its message under the identifier.
    Send(u64, &'a [u8]),
    /// The receiver says that the message of the identifier was got, or that the identifier is not known there.
    Ack(u64, bool),
    /// The sender is done with the identifier.
    Cleanup(u64),
    /// The sender sends all of its messages under the one identifier.
    Batch(u64, Parts<'a>),
}

/// A packet whose messages lie in a datagram, or with its sender.
#[derive(Clone, Copy)]
pub struct Packet<'a> {
    /// The stream's number. A packet may name any.
    pub stream: u32,
    /// What is said.
    pub body: Body<'a>,
}

impl OwnedBody {
    /// What is said, with the messages borrowed.
    pub fn as_body(&self) -> Body<'_>
        ensures value { body_of result ≡ self.now }
        ensures fits { CanBeWritten self.now }
    {
        match self {
            OwnedBody::NeedUid(jd) => Body::NeedUid(*jd),
            OwnedBody::Accept(jd, id) => Body::Accept(*jd, *id),
            OwnedBody::Send(id, message) => Body::Send(*id, message.bytes()),
            OwnedBody::Ack(id, got) => Body::Ack(*id, *got),
            OwnedBody::Cleanup(id) => Body::Cleanup(*id),
            OwnedBody::Batch(id, batch) => Body::Batch(*id, batch.as_parts()),
        }
    }
}

impl OwnedPacket {
    /// The packet, with its messages borrowed.
    pub fn as_packet(&self) -> Packet<'_>
        ensures value { packet_of result ≡ self.now }
        ensures fits { CanBeWritten self.now.body }
    {
        Packet {
            stream: self.stream,
            body: self.body.as_body(),
        }
    }
}

impl Body<'_> {
    /// What is said, with the messages copied. It takes memory only for a message with a byte to copy.
    pub fn to_owned(&self, alloc: Global) -> Result<OwnedBody, MessageFault>
        ensures ok { IfOk result (λ body. body ≡ body_of self.now) }
        ensures too_long { IsErrOf result MessageFault.TooLong ↔ (¬ (CanBeWritten (body_of self.now))) }
        ensures memory { IsErrOf result MessageFault.NoMemory → ¬ (CarriesNoBytes (body_of self.now)) }
    {
        Ok(match self {
            Body::NeedUid(jd) => OwnedBody::NeedUid(*jd),
            Body::Accept(jd, id) => OwnedBody::Accept(*jd, *id),
            Body::Send(id, message) => OwnedBody::Send(*id, Message::copy(alloc, message)?),
            Body::Ack(id, got) => OwnedBody::Ack(*id, *got),
            Body::Cleanup(id) => OwnedBody::Cleanup(*id),
            Body::Batch(id, parts) => OwnedBody::Batch(*id, Batch::copy(alloc, parts)?),
        })
    }
}

impl Packet<'_> {
    /// The packet, with its messages copied. It takes memory only for a message with a byte to copy.
    // Inlined, or each packet that is copied moves the room of a batch once more.
    #[inline(always)]
    pub fn to_owned(&self, alloc: Global) -> Result<OwnedPacket, MessageFault>
        ensures ok { IfOk result (λ packet. packet ≡ packet_of self.now) }
        ensures too_long { IsErrOf result MessageFault.TooLong ↔ (¬ (CanBeWritten (body_of self.now.body))) }
        ensures memory { IsErrOf result MessageFault.NoMemory → ¬ (CarriesNoBytes (body_of self.now.body)) }
    {
        let body = self.body.to_owned(alloc)?;
        Ok(OwnedPacket {
            stream: self.stream,
            body,
        })
    }

    /// The same of a packet that was read or emitted, whose messages keep to their limit: only memory can be refused.
    #[inline(always)]
    pub fn copied(&self, alloc: Global) -> Result<OwnedPacket, AllocError>
        requires { CanBeWritten (body_of self.now.body) }
        ensures ok { IfOk result (λ packet. packet ≡ packet_of self.now) }
        ensures memory { OnErr result (¬ (CarriesNoBytes (body_of self.now.body))) }
    {
        match self.to_owned(alloc) {
            Ok(packet) => Ok(packet),
            Err(MessageFault::NoMemory) => Err(AllocError),
            Err(MessageFault::TooLong) => unreachable!(),
        }
    }
}
