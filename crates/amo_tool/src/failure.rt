//! Why the program fails.
use amo_client::ClientFault;
use amo_disk::Cause;
use amo_live::LiveFault;
use amo_offline::OfflineFault;
use amo_process::HostFailure;
use amo_serve::DoorFault;
use std::alloc::{AllocError, Global};
use std::io;
use std::io::ErrorKind;
use thiserror::Error;

/// Why the program cannot end what it was asked for. Standard error gets its text, and the status is 4.
#[derive(Debug, Drop, Error)]
pub(crate) enum Failure {
    /// Memory was refused.
    #[error("amo: out of memory")]
    NoMemory,
    /// A command that needs no other process cannot end, or standard output failed as it does there.
    #[error("{0}")]
    Offline(OfflineFault),
    /// A call of a door cannot be made, or an address or a token failed as it does there.
    #[error("{0}")]
    Client(ClientFault),
    /// A host cannot go on.
    #[error("{0}")]
    Host(HostFailure),
    /// A door's listener did not get this address of its own.
    #[error("amo: cannot listen on {0}: {1}")]
    Listen(String, Cause),
    /// A host with a door cannot go on.
    #[error("amo: {0}")]
    Door(DoorFault),
    /// A door at this address would be open to other machines, and no token is wanted.
    #[error("amo: the door at {0} is open to other machines: give --token-file")]
    OpenDoor(String),
}

impl Failure {
    /// Standard output failed so.
    pub(crate) fn of_output(error: io::Error) -> Failure {
        Failure::Offline(OfflineFault::of_output(error))
    }

    /// A door was not opened at this address.
    pub(crate) fn of_listener(alloc: Global, door: &str, error: io::Error) -> Failure {
        if error.kind() == ErrorKind::OutOfMemory {
            return Failure::NoMemory;
        }
        match String::from_str(alloc, door) {
            Ok(door) => Failure::Listen(door, Cause::from(error)),
            Err(_) => Failure::NoMemory,
        }
    }

    /// A door at this address would be open to other machines.
    pub(crate) fn of_open_door(alloc: Global, door: &str) -> Failure {
        match String::from_str(alloc, door) {
            Ok(door) => Failure::OpenDoor(door),
            Err(_) => Failure::NoMemory,
        }
    }

    /// A host with a door, and a journal in this file, cannot go on. If a call on the file failed, this is why.
    pub(crate) fn of_door(
        alloc: Global,
        path: &str,
        fault: DoorFault,
        cause: Option<Cause>,
    ) -> Failure {
        match (fault, cause) {
            (DoorFault::Open(fault), _) => {
                Failure::Host(HostFailure::of_journal(alloc, path, fault))
            }
            (DoorFault::Host(LiveFault::Journal | LiveFault::Lives), Some(cause)) => {
                Failure::Host(HostFailure::of_disk(alloc, path, cause))
            }
            _ => Failure::Door(fault),
        }
    }
}

impl From<OfflineFault> for Failure {
    ghost use Rattle.std.specs.Prelude.{◌≡◌};
    ghost use Rattle.amo_tool.specs.declared.failure.Failure.TheVariants.{Offline};

    ghost from_gives = { λ fault failure. failure ≡ Offline fault };

    fn from(fault: OfflineFault) -> Failure {
        Failure::Offline(fault)
    }
}

impl From<ClientFault> for Failure {
    ghost use Rattle.std.specs.Prelude.{◌≡◌};
    ghost use Rattle.amo_tool.specs.declared.failure.Failure.TheVariants.{Client};

    ghost from_gives = { λ fault failure. failure ≡ Client fault };

    fn from(fault: ClientFault) -> Failure {
        Failure::Client(fault)
    }
}

impl From<HostFailure> for Failure {
    ghost use Rattle.std.specs.Prelude.{◌≡◌};
    ghost use Rattle.amo_tool.specs.declared.failure.Failure.TheVariants.{Host};

    ghost from_gives = { λ fault failure. failure ≡ Host fault };

    fn from(fault: HostFailure) -> Failure {
        Failure::Host(fault)
    }
}

impl From<AllocError> for Failure {
    ghost use Rattle.std.specs.Prelude.{◌≡◌};
    ghost use Rattle.amo_tool.specs.declared.failure.Failure.TheVariants.{NoMemory};

    ghost from_gives = { λ _ failure. failure ≡ NoMemory };

    fn from(_: AllocError) -> Failure {
        Failure::NoMemory
    }
}
