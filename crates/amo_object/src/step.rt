//! The steps of the queue.
ghost use Rattle.std.specs.Prelude.{◌≡◌};

use crate::Bytes;

/// The two sides of a stream.
#[derive(Clone, Copy, Debug, PartialEq, Eq)]
pub enum End {
    /// The side that puts.
    Sender,
    /// The side that gets.
    Receiver,
}

impl End {
    ghost use Rattle.amo_object.specs.End.{other};

    /// The other side of the stream.
    pub fn other(self) -> End
        ensures { result ≡ other self }
    {
        match self {
            End::Sender => End::Receiver,
            End::Receiver => End::Sender,
        }
    }
}

/// A step of the queue.
#[derive(Debug, Drop)]
pub enum Step {
    /// The sender's client puts a message.
    Put(Bytes),
    /// The receiver's client gets the first message.
    Get(Bytes),
    /// The sender's client learns of the last message put: `true` that it was got, or that none was put yet,
    /// `false` that a host crashed, and it, if one was put, may or may not have been got.
    Ack(bool),
    /// A side's host crashes.
    Crash(End),
    /// A side's host is up again.
    Recover(End),
    /// A client's call on a side has the reply that its host is down.
    DownReply(End),
    /// The message at a place, counted from 0, is lost.
    Lose(usize),
    /// What was known of the last message put is lost: from now on it, if one was put, may or may not have been got.
    LoseAck,
}
