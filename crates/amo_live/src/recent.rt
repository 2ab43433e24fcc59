//! What a stream's side emitted of late.
ghost use Rattle.std.specs.Prelude.{◌≡◌, IsTrue, ◌↔◌};
ghost use Rattle.amo_live.specs.Emitted.{IsRecent, keeping, kept_as, nothing_recent};

use crate::parcel::Parcel;
use std::marker::Model;

/// Two packets that a stream's side emitted: the last one of its mode, and the last answer to a delivery that left the mode as it was.
/// A network that repeats what came draws these two again and again, and no other. Contracts see the bytes of each.
#[derive(Drop)]
pub struct Recent {
    of_mode: Option<Parcel>,
    answer: Option<Parcel>,
}

impl Model for Recent {
    ghost use Rattle.amo_live.specs.Emitted.{RecentState};

    ghost Value = { RecentState };

    ghost view = { λ r. record { of_mode = r.of_mode; answer = r.answer } };
}

impl Recent {
    /// Nothing was emitted yet.
    pub fn new() -> Recent
        ensures { result ≡ nothing_recent }
    {
        Recent {
            of_mode: None,
            answer: None,
        }
    }

    /// Whether these bytes are one of the two packets.
    pub fn knows(&self, bytes: &[u8]) -> bool
        ensures { IsTrue result ↔ IsRecent self.now bytes.now }
    {
        is_packet(&self.of_mode, bytes) || is_packet(&self.answer, bytes)
    }

    /// This packet was emitted: as an answer, or as a packet of the mode. The one that it takes the place of comes back.
    pub fn keep(&mut self, is_answer: bool, packet: Parcel) -> Option<Parcel>
        ensures kept { self.new ≡ keeping is_answer packet self.old }
        ensures back { result ≡ kept_as is_answer self.old }
    {
        if is_answer {
            self.answer.replace(packet)
        } else {
            self.of_mode.replace(packet)
        }
    }
}

/// Whether a packet is there, and has these bytes.
fn is_packet(kept: &Option<Parcel>, bytes: &[u8]) -> bool
    ensures { IsTrue result ↔ (kept.now ≡ Some bytes.now) }
{
    match kept {
        Some(packet) => packet.bytes() == bytes,
        None => false,
    }
}
