//! The receiver of a stream.
ghost use Rattle.std.specs.Prelude.{◌≡◌, Ok};
ghost use Rattle.amo_core.specs.Receiver as table;
ghost use Rattle.amo_core.specs.declared.act.Act.TheVariants as act;

mod advance;
mod emission;
mod handshake;
mod lookup;
mod summary;

use crate::{Messages, Mode};
use amo_packet::Message;
use std::marker::Model;
use thiserror::Error;

/// The mode of a receiver.
#[derive(Drop)]
pub enum ReceiverMode {
    /// At rest.
    Idle,
    /// Accepting sends under an identifier, second, for the sender's own, first.
    Accept(u64, u64),
    /// Holding the messages of an identifier that the client did not get yet.
    Rcvd(u64, Messages),
    /// Acknowledging that all messages of an identifier were got.
    Ack(u64),
    /// The host is down.
    Down,
}

/// Why a get has no message. Nothing changed.
#[derive(Clone, Copy, Debug, PartialEq, Eq, Error)]
pub enum GetRefusal {
    /// No message has come yet; the client may ask again.
    #[error("no message has come")]
    Nothing,
    /// The receiver's host is down.
    #[error("the receiver is down")]
    Down,
}

impl GetRefusal {
    ghost use Rattle.amo_core.specs.Receiver.Replies.{refusal_code};

    /// The number of this refusal.
    pub fn code(&self) -> u8
        ensures { result ≡ refusal_code self.now }
    {
        match self {
            GetRefusal::Nothing => 45,
            GetRefusal::Down => 42,
        }
    }
}

/// The receiver of one stream. Contracts see its state.
///
/// ```text
///              needuid(jd), with word id / accept(jd, id)
///        Idle ---------------------------------------------> Accept(jd, id)
///        ^ ^ ^                                                 |     |
///        | | +------------------- cleanup(id) -----------------+     | send(id, m) or batch(id, ms)
///        | |                      get / m, the last one              v
///        | +--- cleanup(id) --- Ack(id) <------------------- Rcvd(id, ms) <--+
///        |                                                       |           | get / m, with others after it
///        |                                                       +-----------+
///        |
///        | recover
///       Down <---- crash, from every mode
/// ```
///
/// In `Accept(jd, id)` a needuid under `jd` emits the accept again. In `Rcvd(id, ms)` what comes again emits
/// nothing, and a cleanup takes nothing away. The send or the batch of `Ack(id)` emits an ack that says "got", and one under any
/// other identifier an ack that says "not known here". A resend emits the accept or the ack of the mode. While the host is
/// down nothing is emitted.
#[derive(Drop)]
pub struct Receiver {
    stream: u32,
    mode: ReceiverMode,
}

impl Model for Receiver {
    ghost use Rattle.amo_core.specs.Receiver.{ReceiverState};

    ghost Value = { ReceiverState };

    ghost view = { λ s. record { stream = s.stream; mode = s.mode } };
}

impl Receiver {
    ghost use Rattle.amo_core.specs.Row.{silent};
    ghost use Rattle.amo_core.specs.Receiver.Replies.{get_reply};

    /// The receiver of a stream, at rest.
    pub fn new(stream: u32) -> Receiver
        ensures { result ≡ table.initial stream }
    {
        Receiver {
            stream,
            mode: ReceiverMode::Idle,
        }
    }

    /// Takes the first of the messages that have come, if any have.
    pub fn get(&mut self) -> Result<Message, GetRefusal>
        ensures row { table.row self.old act.Get ≡ silent self.new (get_reply result) }
    {
        match self.mode {
            ReceiverMode::Rcvd(_, _) => Ok(self.take_first()),
            ReceiverMode::Down => Err(GetRefusal::Down),
            _ => Err(GetRefusal::Nothing),
        }
    }

    /// Takes the first of the messages that are held.
    fn take_first(&mut self) -> Message
        requires { table.kind self.old.mode ≡ Mode.Rcvd }
        ensures { table.row self.old act.Get ≡ silent self.new (get_reply (Ok result)) }
    {
        let ReceiverMode::Rcvd(id, messages) = &mut self.mode else {
            unreachable!()
        };
        let under = *id;
        let is_last = messages.is_alone();
        let message = messages.take_first();
        if is_last {
            self.mode = ReceiverMode::Ack(under);
        }
        message
    }

    /// The kind of the mode.
    pub fn mode(&self) -> Mode
        ensures { result ≡ table.kind self.now.mode }
    {
        match self.mode {
            ReceiverMode::Idle => Mode::Idle,
            ReceiverMode::Accept(_, _) => Mode::Accept,
            ReceiverMode::Rcvd(_, _) => Mode::Rcvd,
            ReceiverMode::Ack(_) => Mode::Ack,
            ReceiverMode::Down => Mode::Down,
        }
    }
}
