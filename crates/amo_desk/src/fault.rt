//! Why a host of lines ends.
use amo_live::{Cause, LiveFault, OpenFault};
use std::alloc::AllocError;
use std::io;
use std::io::ErrorKind;
use thiserror::Error;

/// Why a live host's turns ended before its clients were done.
#[derive(Clone, Copy, Debug, PartialEq, Eq, Error)]
pub enum ServeFault {
    /// The host cannot go on.
    #[error("{0}")]
    Host(LiveFault),
    /// Where the clients' lines come from failed so.
    #[error("standard input failed: {0}")]
    Input(Cause),
    /// Where answers and messages go failed so.
    #[error("standard output failed: {0}")]
    Output(Cause),
    /// Nobody reads the messages any more.
    #[error("nobody reads standard output any more")]
    Gone,
    /// The clock failed.
    #[error("the clock failed")]
    Clock,
}

impl ServeFault {
    /// The fault of an output that failed so.
    pub(crate) fn output(error: io::Error) -> ServeFault {
        match error.kind() {
            ErrorKind::OutOfMemory => ServeFault::Host(LiveFault::NoMemory),
            _ => ServeFault::Output(Cause::from(error)),
        }
    }
}

impl From<LiveFault> for ServeFault {
    fn from(fault: LiveFault) -> ServeFault {
        ServeFault::Host(fault)
    }
}

impl From<AllocError> for ServeFault {
    fn from(_error: AllocError) -> ServeFault {
        ServeFault::Host(LiveFault::NoMemory)
    }
}

/// The fault of a reader of clients' lines that failed so.
impl From<io::Error> for ServeFault {
    fn from(error: io::Error) -> ServeFault {
        match error.kind() {
            ErrorKind::OutOfMemory => ServeFault::Host(LiveFault::NoMemory),
            _ => ServeFault::Input(Cause::from(error)),
        }
    }
}

/// Why a process ended before its clients were done.
#[derive(Clone, Copy, Debug, PartialEq, Eq, Error)]
pub enum ProcessFault {
    /// Its journal cannot go on.
    #[error("{0}")]
    Open(OpenFault),
    /// Its turns ended.
    #[error("{0}")]
    Serve(ServeFault),
}

impl From<OpenFault> for ProcessFault {
    fn from(fault: OpenFault) -> ProcessFault {
        ProcessFault::Open(fault)
    }
}

impl From<ServeFault> for ProcessFault {
    fn from(fault: ServeFault) -> ProcessFault {
        ProcessFault::Serve(fault)
    }
}

impl From<LiveFault> for ProcessFault {
    fn from(fault: LiveFault) -> ProcessFault {
        ProcessFault::Serve(ServeFault::Host(fault))
    }
}

impl From<AllocError> for ProcessFault {
    fn from(_error: AllocError) -> ProcessFault {
        ProcessFault::from(LiveFault::NoMemory)
    }
}
