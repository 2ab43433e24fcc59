//! Why such a command cannot end.
ghost use Rattle.std.specs.Prelude.{◌≡◌, ◌≢◌};
ghost use Rattle.std.specs.IoError.{error_kind};
ghost use Rattle.amo_offline.specs.Fault.{IsOfDisk, IsOfFile, IsOfOutput, output_fault, replay_fault, report_fault};

use amo_disk::Cause;
use amo_journal::JournalFault;
use amo_replay::ToolFault;
use amo_run::RunFault;
use std::alloc::{AllocError, Global};
use std::io;
use std::io::ErrorKind;
use thiserror::Error;

/// Why a command cannot end what it was asked for. Its text has `amo: ` in front of each line.
#[derive(Debug, Drop, Error)]
pub enum OfflineFault {
    /// Memory or a thread was refused.
    #[error("amo: out of memory")]
    NoMemory,
    /// Another call was at work at a side of the book.
    #[error("amo: busy")]
    Busy,
    /// A file or standard output failed, and there is no more to tell.
    #[error("amo: device")]
    Device,
    /// The file of this name failed, for this cause.
    #[error("amo: device\namo: {0}: {1}")]
    File(String, Cause),
    /// Standard output failed, for this cause.
    #[error("amo: device\namo: standard output: {0}")]
    Output(Cause),
    /// A socket of a run could not be opened or connected.
    #[error("amo: device\namo: a socket on 127.0.0.1 could not be opened or connected")]
    Socket,
    /// A file that a host has beside its journal failed, for this cause.
    #[error("amo: {0}: {1}")]
    Disk(String, Cause),
}

impl OfflineFault {
    /// The file of this name failed so.
    pub fn of_file(alloc: Global, file: &str, error: io::Error) -> OfflineFault
        ensures memory { error_kind error ≡ ErrorKind.OutOfMemory → result ≡ OfflineFault.NoMemory }
        ensures other { error_kind error ≢ ErrorKind.OutOfMemory → IsOfFile file.now result }
    {
        match error.kind() {
            ErrorKind::OutOfMemory => OfflineFault::NoMemory,
            _ => OfflineFault::named(alloc, file, Cause::from(error)),
        }
    }

    /// The file of this name failed, for this cause. Without memory for the name it is not told.
    fn named(alloc: Global, file: &str, cause: Cause) -> OfflineFault
        ensures { IsOfFile file.now result }
    {
        match String::from_str(alloc, file) {
            Ok(file) => OfflineFault::File(file, cause),
            Err(AllocError) => OfflineFault::Device,
        }
    }

    /// A journal was not written into the file of this name. If a call on the file failed, this is why.
    pub(crate) fn of_kept(
        alloc: Global,
        file: &str,
        fault: JournalFault,
        cause: Option<Cause>,
    ) -> OfflineFault
        ensures memory { fault ≡ JournalFault.NoMemory → result ≡ OfflineFault.NoMemory }
        ensures other { fault ≢ JournalFault.NoMemory → IsOfFile file.now result }
    {
        match fault {
            JournalFault::NoMemory => OfflineFault::NoMemory,
            _ => match cause {
                Some(cause) => OfflineFault::named(alloc, file, cause),
                None => OfflineFault::Device,
            },
        }
    }

    /// Standard output failed so.
    pub fn of_output(error: io::Error) -> OfflineFault
        ensures memory { error_kind error ≡ ErrorKind.OutOfMemory → result ≡ OfflineFault.NoMemory }
        ensures other { error_kind error ≢ ErrorKind.OutOfMemory → IsOfOutput result }
    {
        match error.kind() {
            ErrorKind::OutOfMemory => OfflineFault::NoMemory,
            _ => OfflineFault::Output(Cause::from(error)),
        }
    }

    /// A write on standard output failed. If it told why, this is it.
    fn of_write(cause: Option<Cause>) -> OfflineFault
        ensures { result ≡ output_fault cause }
    {
        match cause {
            Some(cause) => OfflineFault::Output(cause),
            None => OfflineFault::Device,
        }
    }

    /// A replay stopped before its end. If a write on standard output failed, this is why.
    pub(crate) fn of_replay(fault: ToolFault, cause: Option<Cause>) -> OfflineFault
        ensures { result ≡ replay_fault fault cause }
    {
        match fault {
            ToolFault::NoMemory => OfflineFault::NoMemory,
            ToolFault::Busy => OfflineFault::Busy,
            ToolFault::Device => OfflineFault::of_write(cause),
        }
    }

    /// A journal was not told of. If a write on standard output failed, this is why.
    pub(crate) fn of_report(fault: JournalFault, cause: Option<Cause>) -> OfflineFault
        ensures { result ≡ report_fault fault cause }
    {
        match fault {
            JournalFault::NoMemory => OfflineFault::NoMemory,
            _ => OfflineFault::of_write(cause),
        }
    }

    /// A file that a host has beside its journal failed, for this cause.
    pub fn of_disk(alloc: Global, path: &str, cause: Cause) -> OfflineFault
        ensures { IsOfDisk path.now cause result }
    {
        match String::from_str(alloc, path) {
            Ok(path) => OfflineFault::Disk(path, cause),
            Err(_) => OfflineFault::NoMemory,
        }
    }
}

impl From<RunFault> for OfflineFault {
    ghost use Rattle.std.specs.Prelude.{◌≡◌};
    ghost use Rattle.amo_offline.specs.Fault.{run_fault};

    ghost from_gives = { λ fault offline. offline ≡ run_fault fault };

    fn from(fault: RunFault) -> OfflineFault {
        match fault {
            RunFault::NoMemory => OfflineFault::NoMemory,
            RunFault::Device => OfflineFault::Socket,
        }
    }
}

impl From<AllocError> for OfflineFault {
    ghost use Rattle.std.specs.Prelude.{◌≡◌};
    ghost use Rattle.amo_offline.specs.declared.fault.OfflineFault.TheVariants.{NoMemory};

    ghost from_gives = { λ _ fault. fault ≡ NoMemory };

    fn from(_: AllocError) -> OfflineFault {
        OfflineFault::NoMemory
    }
}
