//! What an act replies.
ghost use Rattle.std.specs.Prelude.{◌≡◌};

use crate::{AckReply, GetRefusal};
use amo_packet::Message;

/// What a client's call replies, or `Done` for an act of the host.
#[derive(Clone, Debug, PartialEq, Eq, Drop)]
pub enum Reply {
    /// The message waits to be sent.
    Ok,
    /// As many messages wait as may; this one was not taken.
    Full,
    /// The host is down; nothing was done.
    Down,
    /// The message that had come.
    Got(Message),
    /// No message has come.
    Nothing,
    /// The last message put was got, or none was put yet.
    Yes,
    /// A host crashed: the last message put, if there is one, may or may not have been got.
    No,
    /// The last message put is on its way.
    NotYet,
    /// The act was done.
    Done,
}

impl From<AckReply> for Reply {
    ghost use Rattle.amo_core.specs.Sender.Replies.{ack_reply};

    ghost from_gives = { λ known reply. reply ≡ ack_reply known };

    fn from(known: AckReply) -> Reply {
        match known {
            AckReply::Yes => Reply::Yes,
            AckReply::No => Reply::No,
            AckReply::NotYet => Reply::NotYet,
            AckReply::Down => Reply::Down,
        }
    }
}

impl From<Result<Message, GetRefusal>> for Reply {
    ghost use Rattle.amo_core.specs.Receiver.Replies.{get_reply};

    ghost from_gives = { λ got reply. reply ≡ get_reply got };

    fn from(got: Result<Message, GetRefusal>) -> Reply {
        match got {
            Ok(message) => Reply::Got(message),
            Err(GetRefusal::Nothing) => Reply::Nothing,
            Err(GetRefusal::Down) => Reply::Down,
        }
    }
}
