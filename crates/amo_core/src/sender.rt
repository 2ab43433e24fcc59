//! The sender of a stream.
ghost use Rattle.std.specs.Prelude.{◌≡◌, IfErr};
ghost use Rattle.amo_core.specs.Sender as table;
ghost use Rattle.amo_core.specs.declared.act.Act.TheVariants as act;

mod advance;
mod emission;
mod handshake;
mod lookup;
mod summary;

use crate::{Mode, Payload};
use amo_packet::Message;
use arrayvec::ArrayVec;
use std::marker::Model;
use thiserror::Error;

/// How many messages may wait at a sender, beside the one that is being sent.
pub const MAX_WAITING: usize = 16;

/// The mode of a sender.
#[derive(Drop)]
pub enum SenderMode {
    /// At rest, with what is known of the last message sent: whether it was got.
    Quiet(bool),
    /// Asking for an identifier, under one of its own, for what is to be sent.
    NeedId(u64, Payload),
    /// Sending under the identifier that the receiver accepted.
    Send(u64, Payload),
    /// The host is down.
    Down,
}

/// Why a put was refused. The message comes back, and nothing changed.
#[derive(Debug, Drop, Error)]
pub enum PutRefusal {
    /// As many messages wait as may; the client put faster than the stream sends.
    #[error("the waiting list is full")]
    Full(Message),
    /// The sender's host is down.
    #[error("the sender is down")]
    Down(Message),
}

impl PutRefusal {
    ghost use Rattle.amo_core.specs.Sender.Replies.{refusal_code, refused_message};

    /// The number of this refusal.
    pub fn code(&self) -> u8
        ensures { result ≡ refusal_code self.now }
    {
        match self {
            PutRefusal::Full(_) => 41,
            PutRefusal::Down(_) => 42,
        }
    }

    /// The message that was refused.
    pub fn into_message(self) -> Message
        ensures { result ≡ refused_message self }
    {
        match self {
            PutRefusal::Full(message) => message,
            PutRefusal::Down(message) => message,
        }
    }
}

/// What is known of the last message put.
#[derive(Clone, Copy, Debug, PartialEq, Eq)]
pub enum AckReply {
    /// It was got, or none was put yet.
    Yes,
    /// A host crashed: it, if one was put, may or may not have been got.
    No,
    /// It is on its way.
    NotYet,
    /// The sender's host is down.
    Down,
}

/// The sender of one stream, with the messages that wait. Contracts see its state.
///
/// ```text
///                  start(jd) or batch(jd) / needuid(jd)
///        Quiet(got) -----------------------------> NeedId(jd, ms)
///         ^      ^                                       |
///         |      |                                       | accept(jd, id) / send(id, m) or batch(id, ms)
///         |      |  ack(id, got) / cleanup(id) if got    v
///         |      +---------------------------------- Send(id, ms)
///         |
///         | recover, as Quiet(no)
///        Down <---- crash, from every mode; the waiting list is forgotten too
/// ```
///
/// A handshake that a start began is for one message, which a send carries; one that a batch began is for as many as waited, at most
/// four, which a batch carries. An accept that comes again in `Send(id, ms)` emits nothing. Any other accept emits a cleanup, and so does any ack that
/// says "got". A resend emits the needuid, the send or the batch of the mode. While the host is down nothing is emitted.
#[derive(Drop)]
pub struct Sender {
    stream: u32,
    mode: SenderMode,
    waiting: ArrayVec<Message, MAX_WAITING>,
}

impl Model for Sender {
    ghost use Rattle.amo_core.specs.Sender.{SenderState};

    ghost Value = { SenderState };

    ghost view = { λ s. record { stream = s.stream; mode = s.mode; waiting = s.waiting.items } };
}

impl Sender {
    ghost use Rattle.amo_core.specs.Row.{silent};
    ghost use Rattle.amo_core.specs.Sender.Replies.{put_reply, ack_reply, refused_message};

    /// The sender of a stream, at rest, to which nothing was put yet.
    pub fn new(stream: u32) -> Sender
        ensures { result ≡ table.initial stream }
    {
        Sender {
            stream,
            mode: SenderMode::Quiet(true),
            waiting: ArrayVec::new(),
        }
    }

    /// Puts a message last on the waiting list. A refusal hands it back.
    pub fn put(&mut self, message: Message) -> Result<(), PutRefusal>
        ensures row { table.row self.old (act.Put message) ≡ silent self.new (put_reply result) }
        ensures handed_back { IfErr result (λ refusal. refused_message refusal ≡ message) }
    {
        match self.mode {
            SenderMode::Down => Err(PutRefusal::Down(message)),
            _ => self
                .waiting
                .try_push(message)
                .map_err(|e| PutRefusal::Full(e.element())),
        }
    }

    /// What is known of the last message put to the stream, by whomever.
    pub fn get_ack(&self) -> AckReply
        ensures row { table.row self.now act.Ack ≡ silent self.now (ack_reply result) }
    {
        match self.mode {
            SenderMode::Down => AckReply::Down,
            SenderMode::Quiet(true) if self.waiting.is_empty() => AckReply::Yes,
            SenderMode::Quiet(false) if self.waiting.is_empty() => AckReply::No,
            _ => AckReply::NotYet,
        }
    }

    /// The kind of the mode.
    pub fn mode(&self) -> Mode
        ensures { result ≡ table.kind self.now.mode }
    {
        match self.mode {
            SenderMode::Quiet(_) => Mode::Quiet,
            SenderMode::NeedId(_, _) => Mode::NeedId,
            SenderMode::Send(_, _) => Mode::Send,
            SenderMode::Down => Mode::Down,
        }
    }
}
