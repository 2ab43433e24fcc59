//! Why a link did not do what was asked.
ghost use Rattle.std.specs.Prelude.{◌≡◌};

use std::alloc::AllocError;
use thiserror::Error;

/// Why a datagram was not sent or received, or a socket not opened or connected.
#[derive(Clone, Copy, Debug, PartialEq, Eq, Error)]
pub enum LinkFault {
    /// The device failed. A link counts it, and its datagram is lost.
    #[error("a link failed")]
    Device,
    /// The machine's fault: memory was refused. Nothing was sent, and no receive answers it.
    #[error("out of memory")]
    NoMemory,
}

impl LinkFault {
    ghost use Rattle.amo_net.specs.Fault.{fault_code};

    /// The number of this fault: 71 for the device, 9 for no memory.
    pub fn code(&self) -> u8
        ensures { result ≡ fault_code self.now }
    {
        match self {
            LinkFault::Device => 71,
            LinkFault::NoMemory => 9,
        }
    }
}

impl From<AllocError> for LinkFault {
    ghost use Rattle.amo_net.specs.declared.fault.LinkFault.TheVariants.{NoMemory};

    ghost from_gives = { λ _ fault. fault ≡ NoMemory };

    fn from(_refused: AllocError) -> LinkFault {
        LinkFault::NoMemory
    }
}
