//! Why an event is not accepted.
ghost use Rattle.std.specs.Prelude.{◌≡◌};

use std::alloc::AllocError;
use thiserror::Error;

/// Why a world did not accept an event, which is dropped then. The world is as it was.
#[derive(Clone, Copy, Debug, PartialEq, Eq, Error)]
pub enum WorldFault {
    /// Memory was refused. The caller may hand in the event again later.
    #[error("out of memory")]
    NoMemory,
    /// The reply is not the one of the tables, or the act is none of that side's. Whoever reported the event is at fault.
    #[error("the reply is not the right one")]
    WrongReply,
    /// A packet came that the other side of the stream did not emit before. The channel, or whoever reported it, is at fault.
    #[error("a packet was delivered that was not emitted before")]
    Unsent,
    /// A word was used up a second time by that side of the stream. The host draws its words wrongly.
    #[error("a word was used up a second time")]
    Repeat,
}

impl WorldFault {
    ghost use Rattle.amo_world.specs.Fault.{fault_code};

    /// The number of this fault.
    pub fn code(&self) -> u8
        ensures { result ≡ fault_code self.now }
    {
        match self {
            WorldFault::NoMemory => 9,
            WorldFault::WrongReply => 21,
            WorldFault::Unsent => 22,
            WorldFault::Repeat => 23,
        }
    }
}

impl From<AllocError> for WorldFault {
    ghost use Rattle.std.specs.Prelude.{◌≡◌};
    ghost use Rattle.amo_world.specs.declared.fault.WorldFault.TheVariants as fault;

    ghost from_gives = { λ _ given. given ≡ fault.NoMemory };

    fn from(_: AllocError) -> WorldFault {
        WorldFault::NoMemory
    }
}

/// Memory was refused, and nothing was changed. The caller may try again later.
#[derive(Clone, Copy, Debug, PartialEq, Eq, Error)]
#[error("out of memory")]
pub struct NoMemory;

impl NoMemory {
    ghost use Rattle.amo_packet.specs.Codes.{no_memory_code};

    /// The number of this fault.
    pub fn code(&self) -> u8
        ensures { result ≡ no_memory_code }
    {
        9
    }
}

impl From<AllocError> for NoMemory {
    fn from(_: AllocError) -> NoMemory {
        NoMemory
    }
}
