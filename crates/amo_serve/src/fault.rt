//! Why a host with a door ends.
use amo_disk::OpenFault;
use amo_live::LiveFault;
use matchit::InsertError;
use std::alloc::AllocError;
use std::io;
use std::io::ErrorKind;
use thiserror::Error;

/// Why a host with a door ends. Nothing that a client sends is a reason.
#[derive(Clone, Copy, Debug, PartialEq, Eq, Error)]
pub enum DoorFault {
    /// The host cannot go on.
    #[error("{0}")]
    Host(LiveFault),
    /// The journal cannot be gone on with so.
    #[error("{0}")]
    Open(OpenFault),
    /// The clock failed.
    #[error("the clock failed")]
    Clock,
    /// The listener failed so.
    #[error("the door failed: {0}")]
    Listener(ErrorKind),
}

impl From<LiveFault> for DoorFault {
    fn from(fault: LiveFault) -> DoorFault {
        DoorFault::Host(fault)
    }
}

impl From<OpenFault> for DoorFault {
    fn from(fault: OpenFault) -> DoorFault {
        DoorFault::Open(fault)
    }
}

impl From<AllocError> for DoorFault {
    fn from(_error: AllocError) -> DoorFault {
        DoorFault::Host(LiveFault::NoMemory)
    }
}

/// The door's paths are known to be paths: only memory can be refused.
impl From<InsertError> for DoorFault {
    fn from(_error: InsertError) -> DoorFault {
        DoorFault::Host(LiveFault::NoMemory)
    }
}

impl From<io::Error> for DoorFault {
    fn from(error: io::Error) -> DoorFault {
        match error.kind() {
            ErrorKind::OutOfMemory => DoorFault::Host(LiveFault::NoMemory),
            kind => DoorFault::Listener(kind),
        }
    }
}
