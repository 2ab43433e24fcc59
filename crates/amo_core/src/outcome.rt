//! What comes of an act.
ghost use Rattle.std.specs.Prelude.{◌≡◌, Some, None};
ghost use Rattle.std.specs.Option.{option_map, ForSome};
ghost use Rattle.amo_packet.specs.Packet.{packet_of, body_of};
ghost use Rattle.amo_packet.specs.Grammar.{CanBeWritten};
ghost use Rattle.amo_core.specs.Automaton.{Writes};

use crate::Reply;
use amo_packet::{MAX_PACKET, Message, Packet, write};

/// What an act replies and hands back.
#[derive(Drop)]
pub struct Advanced {
    /// The reply, or none where the side does not have the act.
    pub reply: Option<Reply>,
    /// The message of a put that was not taken.
    pub handed_back: Option<Message>,
}

impl Advanced {
    /// A reply, with nothing to hand back.
    pub(crate) fn replied(reply: Reply) -> Advanced
        ensures { result ≡ record { reply = Some reply; handed_back = None } }
    {
        Advanced {
            reply: Some(reply),
            handed_back: None,
        }
    }

    /// An act that the side does not have, with the message that it carried.
    pub(crate) fn unknown(handed_back: Option<Message>) -> Advanced
        ensures { result ≡ record { reply = None; handed_back = handed_back } }
    {
        Advanced {
            reply: None,
            handed_back,
        }
    }
}

/// What an act replies, hands back and emits.
#[derive(Debug, Drop)]
pub struct Outcome {
    /// The reply, or none where the side does not have the act.
    pub reply: Option<Reply>,
    /// The message of a put that was not taken.
    pub handed_back: Option<Message>,
    /// How many bytes at the front of the buffer are the emitted packet, or none where nothing is emitted.
    pub length: Option<usize>,
}

impl Outcome {
    pub(crate) fn new(advanced: Advanced, length: Option<usize>) -> Outcome
        ensures { result ≡ record { reply = advanced.reply; handed_back = advanced.handed_back; length = length } }
    {
        let Advanced { reply, handed_back } = advanced;
        Outcome {
            reply,
            handed_back,
            length,
        }
    }
}

/// Writes what an act emits at the front of the buffer, if it emits anything, and returns its length.
pub(crate) fn write_emission(
    packet: Option<Packet<'_>>,
    buffer: &mut [u8; MAX_PACKET],
) -> Option<usize>
    requires { ForSome packet (λ p. CanBeWritten (body_of p.body)) }
    ensures { Writes (option_map packet_of packet.entry) buffer.old buffer.new result }
{
    let packet = packet?;
    write(&packet, buffer).ok()
}
