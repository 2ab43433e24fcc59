//! Why bytes are no packet, and why a packet was not written.
ghost use Rattle.std.specs.Prelude.{◌≡◌};

use thiserror::Error;

/// What is wrong with bytes that spell no packet. Whoever sent them is at fault; nothing was taken or changed.
///
/// Where several faults hold, the first in this order counts: fewer than 8 bytes, magic, version, kind, fields that
/// are not all there, flag, length, message bytes that are missing, bytes that follow. Of a batch, after the fields: its
/// count; for each message in turn a length that is not there, the length, bytes that are missing; bytes that follow.
#[derive(Clone, Copy, Debug, PartialEq, Eq, Error)]
pub enum ReadFault {
    /// The bytes end before the packet does.
    #[error("the packet is cut short")]
    Short,
    /// The first two bytes are not 41 4D.
    #[error("the bytes do not begin as a packet")]
    Magic,
    /// The third byte is no version that is known.
    #[error("the version of the packet is not known")]
    Version,
    /// The fourth byte is no kind of the version: 1 to 5 of version 01, and 6 of version 02.
    #[error("the kind of the packet is not known")]
    Kind,
    /// The flag of an ack is neither 0 nor 1.
    #[error("the flag of the ack is neither 0 nor 1")]
    Flag,
    /// The length of a message is more than [`MAX_MESSAGE`](crate::MAX_MESSAGE).
    #[error("the message of the packet is too long")]
    Length,
    /// Bytes follow the packet.
    #[error("bytes follow the packet")]
    Long,
    /// The count of a batch is not 1 to [`MAX_BATCH`](crate::MAX_BATCH).
    #[error("the batch has not one to four messages")]
    Count,
}

impl ReadFault {
    ghost use Rattle.amo_packet.specs.Fault.{fault_code};

    /// The number of this fault.
    pub fn code(&self) -> u8
        ensures { result ≡ fault_code self.now }
    {
        match self {
            ReadFault::Short => 11,
            ReadFault::Magic => 12,
            ReadFault::Version => 13,
            ReadFault::Kind => 14,
            ReadFault::Flag => 15,
            ReadFault::Length => 16,
            ReadFault::Long => 17,
            ReadFault::Count => 20,
        }
    }
}

/// The caller's buffer is shorter than the packet's spelling. It is unchanged.
#[derive(Clone, Copy, Debug, PartialEq, Eq, Error)]
#[error("the buffer is too short for the packet")]
pub struct NoRoom;

impl NoRoom {
    ghost use Rattle.amo_packet.specs.Fault.{no_room_code};

    /// The number of this refusal.
    pub fn code(&self) -> u8
        ensures { result ≡ no_room_code }
    {
        18
    }
}
