//! What may happen at one side of a stream.
use amo_packet::{Message, OwnedPacket};

/// What happens at a side: a client's call, or an act of its host.
#[derive(Clone, PartialEq, Eq, Drop)]
pub enum Act {
    /// The client puts a message. A sender's.
    Put(Message),
    /// The client takes the message that has come. A receiver's.
    Get,
    /// The client asks what became of the last put. A sender's.
    Ack,
    /// The host begins a handshake for the first message that waits. The word is the identifier to ask under. A sender's.
    Start(u64),
    /// The host begins a handshake for the first messages that wait, at most [`MAX_BATCH`](amo_packet::MAX_BATCH), which travel together.
    /// The word is the identifier to ask under. A sender's.
    Batch(u64),
    /// The host emits the packet of the mode, if it has one, since nothing came back.
    Resend,
    /// A packet comes, with the word that an accept would be made under. Whoever hands it in has looked at its stream.
    Deliver(OwnedPacket, u64),
    /// The host goes down, and forgets everything.
    Crash,
    /// The host is up again.
    Recover,
}
