//! What travels under one identifier: a message by itself, or a batch.
ghost use Rattle.std.specs.Prelude.{◌≡◌, length};
ghost use Rattle.amo_packet.specs.Packet.{body_of};
ghost use Rattle.amo_packet.specs.Grammar.{CanBeWritten};
ghost use Rattle.amo_core.specs.Sender.{carrying, messages_in};

use crate::Messages;
use amo_packet::{Body, Message};

/// What a sender sends in one handshake. A batch of one message is another packet than a send of it.
#[derive(Drop)]
pub enum Payload {
    /// A message, in a send.
    Message(Message),
    /// One to four messages, in a batch.
    Batch(Messages),
}

impl Payload {
    /// What carries it under an identifier.
    pub fn carrying(&self, id: u64) -> Body<'_>
        ensures value { body_of result ≡ carrying id self.now }
        ensures fits { CanBeWritten (body_of result) }
    {
        match self {
            Payload::Message(message) => Body::Send(id, message.bytes()),
            Payload::Batch(messages) => Body::Batch(id, messages.as_parts()),
        }
    }

    /// How many messages it is.
    pub fn len(&self) -> usize
        ensures { result ≡ length (messages_in self.now) }
    {
        match self {
            Payload::Message(_) => 1,
            Payload::Batch(messages) => messages.len(),
        }
    }
}
