//! Why a journal does not open, or its disk fails.
ghost use Rattle.std.specs.Prelude.{◌≡◌};

use std::alloc::AllocError;
use std::fmt::{Display, Formatter};
use std::io::ErrorKind;
use std::{fmt, io};
use thiserror::Error;

/// What is told of a file that somebody else changed: no call of the system fails so.
const CHANGED: &str = "it is not as it was written: somebody else changed or moved it";

/// Why a call of the system failed, or was not made.
#[derive(Clone, Copy, Debug, PartialEq, Eq)]
pub struct Cause {
    code: Option<i32>,
    kind: ErrorKind,
}

impl From<io::Error> for Cause {
    fn from(error: io::Error) -> Cause {
        Cause {
            code: error.raw_os_error(),
            kind: error.kind(),
        }
    }
}

impl Display for Cause {
    fn fmt<W: fmt::Write>(&self, f: &mut Formatter<W>) -> fmt::Result {
        match self.code {
            Some(code) => Display::fmt(&io::Error::from_raw_os_error(code), f),
            None if self.kind == ErrorKind::InvalidData => f.write_str(CHANGED),
            None => Display::fmt(&self.kind, f),
        }
    }
}

/// Why a journal cannot go on. It is as it was; but where the device failed, a last line that was torn may be gone.
#[derive(Clone, Copy, Debug, PartialEq, Eq, Error)]
pub enum OpenFault {
    /// It is a pipe, a device or a link to nowhere.
    #[error("it is no file, and none can be made there")]
    NoFile,
    /// Another process has the journal.
    #[error("another process has it in use")]
    InUse,
    /// The file has something, but no whole line, and no journal of this side begins so.
    #[error("it has no whole line, and does not begin as a journal of this side: it was left as it is")]
    Foreign,
    /// This line, counted from 1, is the first that is no line.
    #[error("line {0} is none of a journal: it was left as it is")]
    Malformed(u64),
    /// This line, counted from 1, has a number that is not how many events are before it.
    #[error("line {0} has another number: it was left as it is")]
    Gap(u64),
    /// This line, counted from 1, is an event of the other side.
    #[error("line {0} is of the other side: it was left as it is")]
    OtherSide(u64),
    /// The end of the file is none of a journal of this side. It is too far from its beginning to tell the line.
    #[error("its end is none of a journal of this side: it was left as it is")]
    Unreadable,
    /// The piece before it ends in no line of a journal of this side.
    #[error("the piece before it ends in no line of a journal of this side: they were left as they are")]
    BadPiece,
    /// It does not go on where the last of its numbered pieces ends.
    #[error("it does not go on where the piece before it ends: it was left as it is")]
    Apart,
    /// The piece before it is of another version.
    #[error("the piece before it is of another version: it was left as it is")]
    OtherVersion,
    /// Starts of batches are wanted, and the journal is of version 1, which has no lines for them.
    #[error("it is of version 1, which tells of no batches: begin new journals at both hosts, or leave out --batch")]
    NoBatches,
    /// The machine's fault: memory was refused.
    #[error("out of memory")]
    NoMemory,
    /// The journal's device failed.
    #[error("{0}")]
    Device(Cause),
}

impl From<AllocError> for OpenFault {
    ghost use Rattle.amo_disk.specs.declared.fault.OpenFault.TheVariants.{NoMemory};

    ghost from_gives = { λ _ fault. fault ≡ NoMemory };

    fn from(_error: AllocError) -> OpenFault {
        OpenFault::NoMemory
    }
}

impl From<io::Error> for OpenFault {
    fn from(error: io::Error) -> OpenFault {
        match error.kind() {
            ErrorKind::OutOfMemory => OpenFault::NoMemory,
            _ => OpenFault::Device(Cause::from(error)),
        }
    }
}
