//! What a turn answers.
ghost use Rattle.std.specs.Prelude.{◌≡◌};
ghost use Rattle.amo_host.specs.Kind.{IsKindOf, IsHostAct, is_resend};

use amo_book::Done;
use amo_core::Act;
use amo_object::End;
use amo_packet::ReadFault;

/// What a host did, with the word of a start or a delivery.
#[derive(Clone, Copy, Debug, PartialEq, Eq)]
pub enum Kind {
    /// A handshake was begun, if a message waited, under this word.
    Start(u64),
    /// The same for the first messages that waited, which travel together.
    Batch(u64),
    /// The packet of the mode was emitted again.
    Resend,
    /// A packet was delivered, with this word for an accept.
    Deliver(u64),
    /// The side went down.
    Crash,
    /// The side came up again.
    Recover,
}

impl Kind {
    /// The kind of an act of a host.
    pub(crate) fn of(act: &Act) -> Kind
        requires { IsHostAct act.now }
        ensures { IsKindOf act.now result }
    {
        match act {
            Act::Start(word) => Kind::Start(*word),
            Act::Batch(word) => Kind::Batch(*word),
            Act::Resend => Kind::Resend,
            Act::Deliver(_, word) => Kind::Deliver(*word),
            Act::Crash => Kind::Crash,
            Act::Recover => Kind::Recover,
            Act::Put(_) => unreachable!(),
            Act::Get => unreachable!(),
            Act::Ack => unreachable!(),
        }
    }
}

/// Whether an act emits the packet of the mode again.
pub(crate) fn is_resend(act: &Act) -> bool
    ensures { result ≡ is_resend act.now }
{
    matches!(act, Act::Resend)
}

/// What came of a turn.
#[derive(Clone, Copy, Debug, PartialEq, Eq)]
pub enum Turned {
    /// There was nothing to do.
    Idle,
    /// The datagram is no packet, for this reason.
    Unread(ReadFault),
    /// The packet, or the stream, is for none of the charges.
    Stranger,
    /// One event happened: at this side of this stream, of this kind, with this answer.
    Did(End, u32, Kind, Done),
}
