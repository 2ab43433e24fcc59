//! What a run is asked for.

/// What a run is asked for. A run wants 1 to 256 streams, 1 to 56 clients, at most 1000 crashes, and 1 to 4 pumps.
#[derive(Clone, Copy, Debug, PartialEq, Eq)]
pub struct RunSettings {
    /// The streams are 1 up to this number.
    pub streams: u32,
    /// How many clients make calls.
    pub clients: u32,
    /// How many crashes there are, at the two hosts by turns.
    pub crashes: u32,
    /// Where all words come from.
    pub seed: [u8; 32],
    /// What carries the packets.
    pub link: LinkKind,
    /// How many pumps a host has.
    pub pumps: u32,
    /// Whether each host has a book of its own.
    pub split: bool,
    /// Whether the messages that wait on a stream travel together, as a batch.
    pub batch: bool,
}

/// What carries the packets of a run.
#[derive(Clone, Copy, Debug, PartialEq, Eq)]
pub enum LinkKind {
    /// A channel in memory, which loses, repeats and reorders.
    Memory,
    /// Sockets of this machine.
    Udp,
}
