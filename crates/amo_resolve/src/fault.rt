//! Why a history is not resolved.
ghost use Rattle.std.specs.Prelude.{◌≡◌};

use crate::NoMemory;
use std::alloc::AllocError;
use thiserror::Error;

/// Why a history was not resolved. A place is that of the first event at fault, counted from 0.
#[derive(Clone, Copy, Debug, PartialEq, Eq, Error)]
pub enum ResolveFault {
    /// Memory was refused. The caller may try again later.
    #[error("out of memory")]
    NoMemory,
    /// The reply is not the one of the tables, or the act is none of that side's.
    #[error("the reply of event {0} is not the right one")]
    WrongReply(usize),
    /// A packet came that the other side of the stream did not emit before.
    #[error("event {0} delivers a packet that was not emitted before")]
    Unsent(usize),
    /// A word was used up a second time by that side of the stream.
    #[error("event {0} uses up a word a second time")]
    Repeat(usize),
}

impl ResolveFault {
    ghost use Rattle.amo_resolve.specs.Fault.{fault_code};

    /// The number of this fault.
    pub fn code(&self) -> u8
        ensures { result ≡ fault_code self.now }
    {
        match self {
            ResolveFault::NoMemory => 9,
            ResolveFault::WrongReply(_) => 21,
            ResolveFault::Unsent(_) => 22,
            ResolveFault::Repeat(_) => 23,
        }
    }
}

impl From<NoMemory> for ResolveFault {
    ghost use Rattle.std.specs.Prelude.{◌≡◌};
    ghost use Rattle.amo_resolve.specs.declared.fault.ResolveFault.TheVariants as fault;

    ghost from_gives = { λ _ given. given ≡ fault.NoMemory };

    fn from(_: NoMemory) -> ResolveFault {
        ResolveFault::NoMemory
    }
}

impl From<AllocError> for ResolveFault {
    ghost use Rattle.std.specs.Prelude.{◌≡◌};
    ghost use Rattle.amo_resolve.specs.declared.fault.ResolveFault.TheVariants as fault;

    ghost from_gives = { λ _ given. given ≡ fault.NoMemory };

    fn from(_: AllocError) -> ResolveFault {
        ResolveFault::NoMemory
    }
}
