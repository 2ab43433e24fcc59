//! Emissions.
use amo_object::End;
use amo_packet::OwnedPacket;

/// A packet that was emitted, and the side that emitted it.
#[derive(Drop)]
pub(crate) struct Emission {
    pub(crate) side: End,
    pub(crate) packet: OwnedPacket,
}

/// What an act emitted.
#[derive(Drop)]
pub(crate) enum Emitted {
    /// No packet.
    Nothing,
    /// A packet that its side emitted before, which is stored at this place.
    Again(usize),
    /// A packet that its side had not emitted before.
    First(OwnedPacket),
}
