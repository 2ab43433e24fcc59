//! Why a live host ends.
ghost use Rattle.std.specs.Prelude.{◌≡◌};

use amo_disk::{Cause, OpenFault};
use amo_lives::{BeginFault, BeyondJournal, LivesFault};
use std::alloc::AllocError;
use std::fs::TryLockError;
use std::io;
use std::io::ErrorKind;
use thiserror::Error;

/// Why a host's socket did not open.
#[derive(Clone, Copy, Debug, PartialEq, Eq, Error)]
pub enum SocketFault {
    /// It did not get its own address.
    #[error("cannot listen: {0}")]
    Listen(Cause),
    /// It could not be connected to its peer's address.
    #[error("no way to the peer: {0}")]
    Peer(Cause),
}

/// Why a host cannot go on. What its journal lacks has not left, and nobody was shown it.
#[derive(Clone, Copy, Debug, PartialEq, Eq, Error)]
pub enum LiveFault {
    /// The machine's fault: memory was refused.
    #[error("out of memory")]
    NoMemory,
    /// The journal's device failed.
    #[error("the journal failed")]
    Journal,
    /// The journal has as many lines as can be numbered.
    #[error("the journal is full")]
    Full,
    /// The device of the file of lives failed, so that no word can be drawn.
    #[error("the file of lives failed")]
    Lives,
    /// Another call was under way at a side. In a process with one thread there is none.
    #[error("busy")]
    Busy,
}

impl From<BeginFault> for LiveFault {
    ghost use Rattle.amo_live.specs.Fault.{begin_fault};

    ghost from_gives = { λ fault live. live ≡ begin_fault fault };

    fn from(fault: BeginFault) -> LiveFault {
        match fault {
            BeginFault::NoMemory => LiveFault::NoMemory,
            BeginFault::Device => LiveFault::Lives,
        }
    }
}

impl From<AllocError> for LiveFault {
    ghost use Rattle.amo_live.specs.declared.fault.LiveFault.TheVariants.{NoMemory};

    ghost from_gives = { λ _ fault. fault ≡ NoMemory };

    fn from(_error: AllocError) -> LiveFault {
        LiveFault::NoMemory
    }
}

/// Why a file of lives cannot go on. It is as it was; but where the device failed, a last line that was torn may be gone, or a heading begun.
#[derive(Clone, Copy, Debug, PartialEq, Eq, Error)]
pub enum LivesOpenFault {
    /// Another process has the file.
    #[error("another process has it in use")]
    InUse,
    /// It is no file of lives of this side.
    #[error("{0}: it was left as it is")]
    Unread(LivesFault),
    /// A life begins beyond the end of the journal.
    #[error("{0}: it has lost its end, or is an older copy: give the journal that has the line, or move this file away")]
    Beyond(BeyondJournal),
    /// The machine's fault: memory was refused.
    #[error("out of memory")]
    NoMemory,
    /// The system gave no seed.
    #[error("the system gives no random bytes: {0}")]
    Seed(Cause),
    /// Its device failed.
    #[error("{0}")]
    Device(Cause),
}

impl From<LivesFault> for LivesOpenFault {
    fn from(fault: LivesFault) -> LivesOpenFault {
        match fault {
            LivesFault::NoMemory => LivesOpenFault::NoMemory,
            _ => LivesOpenFault::Unread(fault),
        }
    }
}

impl From<BeyondJournal> for LivesOpenFault {
    fn from(fault: BeyondJournal) -> LivesOpenFault {
        LivesOpenFault::Beyond(fault)
    }
}

/// The fault of a file that was not opened, or that another process has.
impl From<TryLockError> for LivesOpenFault {
    fn from(error: TryLockError) -> LivesOpenFault {
        match error {
            TryLockError::WouldBlock => LivesOpenFault::InUse,
            TryLockError::Error(error) => LivesOpenFault::from(error),
        }
    }
}

impl From<io::Error> for LivesOpenFault {
    fn from(error: io::Error) -> LivesOpenFault {
        match error.kind() {
            ErrorKind::OutOfMemory => LivesOpenFault::NoMemory,
            _ => LivesOpenFault::Device(Cause::from(error)),
        }
    }
}
