//! Why a host in this process fails.
use amo_client::ClientFault;
use amo_desk::{ProcessFault, ServeFault};
use amo_disk::{Cause, OpenFault};
use amo_live::{LiveFault, LivesOpenFault, SocketFault};
use amo_offline::OfflineFault;
use std::alloc::{AllocError, Global};
use std::io;
use std::io::ErrorKind;
use thiserror::Error;

/// Why a host cannot go on, or one cannot be asked to come to its end. Standard error gets its text, and the status is 4.
#[derive(Debug, Drop, Error)]
pub enum HostFailure {
    /// Memory or a thread was refused.
    #[error("amo: out of memory")]
    NoMemory,
    /// A command that needs no other process cannot end, or a file or standard output failed as it does there.
    #[error("{0}")]
    Offline(OfflineFault),
    /// A call of a door cannot be made, or an address or a token failed as it does there.
    #[error("{0}")]
    Client(ClientFault),
    /// Standard input is closed, and a host was to read it.
    #[error("amo: standard input is closed")]
    InputClosed,
    /// Standard output is closed, and a host was to write to it.
    #[error("amo: standard output is closed")]
    OutputClosed,
    /// A host's socket did not get this address of its own.
    #[error("amo: cannot listen on {0}: {1}")]
    Listen(String, Cause),
    /// A host's socket could not be connected to its peer at this address.
    #[error("amo: no way to {0}: {1}")]
    Peer(String, Cause),
    /// A host cannot go on with the journal in this file.
    #[error("amo: {0}: {1}")]
    Journal(String, OpenFault),
    /// A host cannot go on with the lives in this file.
    #[error("amo: {0}: {1}")]
    Lives(String, LivesOpenFault),
    /// A host in this process cannot go on.
    #[error("amo: {0}")]
    Host(ProcessFault),
    /// No host has the journal in this file.
    #[error("amo: {0}: no host has it in use by this name")]
    NoHost(String),
    /// The name of this bell is longer than one of a socket may be, so no host has it.
    #[error("amo: {0}: it has more than 107 bytes, and no socket can have that name")]
    LongBell(String),
    /// A host that was asked to come to its end did so by a failure.
    #[error("amo: the host failed, or was killed, before it came to its end")]
    Ended,
}

impl HostFailure {
    /// A socket that was to be at one address, and connected to another, did not open.
    pub(crate) fn of_socket(
        alloc: Global,
        listen: &str,
        peer: &str,
        fault: SocketFault,
    ) -> HostFailure {
        match fault {
            SocketFault::Listen(cause) => match String::from_str(alloc, listen) {
                Ok(listen) => HostFailure::Listen(listen, cause),
                Err(_) => HostFailure::NoMemory,
            },
            SocketFault::Peer(cause) => match String::from_str(alloc, peer) {
                Ok(peer) => HostFailure::Peer(peer, cause),
                Err(_) => HostFailure::NoMemory,
            },
        }
    }

    /// The journal in this file cannot be gone on with.
    pub fn of_journal(alloc: Global, path: &str, fault: OpenFault) -> HostFailure {
        match String::from_str(alloc, path) {
            Ok(path) if fault != OpenFault::NoMemory => HostFailure::Journal(path, fault),
            _ => HostFailure::NoMemory,
        }
    }

    /// The lives in this file cannot be gone on with.
    pub fn of_lives(alloc: Global, path: &str, fault: LivesOpenFault) -> HostFailure {
        match String::from_str(alloc, path) {
            Ok(path) if fault != LivesOpenFault::NoMemory => HostFailure::Lives(path, fault),
            _ => HostFailure::NoMemory,
        }
    }

    /// A file of a host failed, for this cause.
    pub fn of_disk(alloc: Global, path: &str, cause: Cause) -> HostFailure {
        HostFailure::Offline(OfflineFault::of_disk(alloc, path, cause))
    }

    /// It was not told to the end what became of messages of a host's earlier lives.
    pub(crate) fn of_retelling(fault: OfflineFault) -> HostFailure {
        match fault {
            OfflineFault::Output(cause) => {
                HostFailure::Host(ProcessFault::Serve(ServeFault::Output(cause)))
            }
            _ => HostFailure::Offline(fault),
        }
    }

    /// The host of the journal in this file cannot be asked by the bell at this path.
    pub(crate) fn of_bell(
        alloc: Global,
        journal: &str,
        bell: &str,
        error: io::Error,
    ) -> HostFailure {
        match error.kind() {
            ErrorKind::OutOfMemory => HostFailure::NoMemory,
            ErrorKind::NotFound | ErrorKind::ConnectionRefused => {
                match String::from_str(alloc, journal) {
                    Ok(journal) => HostFailure::NoHost(journal),
                    Err(_) => HostFailure::NoMemory,
                }
            }
            // So the library says that a name is too long.
            ErrorKind::InvalidInput => match String::from_str(alloc, bell) {
                Ok(bell) => HostFailure::LongBell(bell),
                Err(_) => HostFailure::NoMemory,
            },
            _ => HostFailure::of_disk(alloc, bell, Cause::from(error)),
        }
    }

    /// A host with a journal in this file cannot go on. If a call on the file failed, this is why.
    pub(crate) fn of_host(
        alloc: Global,
        path: &str,
        fault: ProcessFault,
        cause: Option<Cause>,
    ) -> HostFailure {
        match (fault, cause) {
            (ProcessFault::Open(fault), _) => HostFailure::of_journal(alloc, path, fault),
            (
                ProcessFault::Serve(ServeFault::Host(LiveFault::Journal | LiveFault::Lives)),
                Some(cause),
            ) => HostFailure::of_disk(alloc, path, cause),
            _ => HostFailure::Host(fault),
        }
    }
}

impl From<OfflineFault> for HostFailure {
    ghost use Rattle.std.specs.Prelude.{◌≡◌};
    ghost use Rattle.amo_process.specs.declared.failure.HostFailure.TheVariants.{Offline};

    ghost from_gives = { λ fault failure. failure ≡ Offline fault };

    fn from(fault: OfflineFault) -> HostFailure {
        HostFailure::Offline(fault)
    }
}

impl From<ClientFault> for HostFailure {
    ghost use Rattle.std.specs.Prelude.{◌≡◌};
    ghost use Rattle.amo_process.specs.declared.failure.HostFailure.TheVariants.{Client};

    ghost from_gives = { λ fault failure. failure ≡ Client fault };

    fn from(fault: ClientFault) -> HostFailure {
        HostFailure::Client(fault)
    }
}

impl From<AllocError> for HostFailure {
    ghost use Rattle.std.specs.Prelude.{◌≡◌};
    ghost use Rattle.amo_process.specs.declared.failure.HostFailure.TheVariants.{NoMemory};

    ghost from_gives = { λ _ failure. failure ≡ NoMemory };

    fn from(_: AllocError) -> HostFailure {
        HostFailure::NoMemory
    }
}
