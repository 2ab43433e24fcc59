//! Why bytes are no journal, and why one was not written.
ghost use Rattle.std.specs.Prelude.{◌≡◌, ◌+◌, ◌<◌, ◌^◌};

use amo_text::SinkFault;
use std::alloc::{AllocError, AllocFailed};
use thiserror::Error;

/// Why bytes are no journal, or why a journal was not written whole.
#[derive(Clone, Copy, Debug, PartialEq, Eq, Error)]
pub enum JournalFault {
    /// Memory was refused. The caller may try again later.
    #[error("out of memory")]
    NoMemory,
    /// This line, counted from 1, is the first that is malformed. The journal's writer is at fault.
    #[error("line {0} is malformed")]
    Malformed(usize),
    /// Each line reads, and this one, counted from 1, is the first whose number is not how many events are before it. The
    /// journal's writer is at fault.
    #[error("the numbers have a gap at line {0}")]
    Gap(usize),
    /// The sink failed: the device's fault.
    #[error("a write failed")]
    Device,
}

impl JournalFault {
    ghost use Rattle.amo_journal.specs.Fault.{fault_code, further, line_named};

    /// The same fault, where so many lines more stand in front of the line that it names.
    pub(crate) fn further(self, lines: usize) -> JournalFault
        requires { line_named self + lines < 2 ^ 64 }
        ensures { result ≡ further lines self }
    {
        match self {
            JournalFault::Malformed(line) => JournalFault::Malformed(line + lines),
            JournalFault::Gap(line) => JournalFault::Gap(line + lines),
            fault => fault,
        }
    }

    /// The number of this fault.
    pub fn code(&self) -> u8
        ensures { result ≡ fault_code self.now }
    {
        match self {
            JournalFault::NoMemory => 9,
            JournalFault::Malformed(_) => 63,
            JournalFault::Gap(_) => 64,
            JournalFault::Device => 71,
        }
    }
}

impl From<AllocError> for JournalFault {
    ghost use Rattle.amo_journal.specs.declared.fault.JournalFault.TheVariants.{NoMemory};

    ghost from_gives = { λ _ fault. fault ≡ NoMemory };

    fn from(_error: AllocError) -> JournalFault {
        JournalFault::NoMemory
    }
}

impl<T: Drop> From<AllocFailed<T>> for JournalFault {
    ghost use Rattle.amo_journal.specs.declared.fault.JournalFault.TheVariants.{NoMemory};

    ghost from_gives = { λ _ fault. fault ≡ NoMemory };

    fn from(_error: AllocFailed<T>) -> JournalFault {
        JournalFault::NoMemory
    }
}

impl From<SinkFault> for JournalFault {
    ghost use Rattle.amo_journal.specs.declared.fault.JournalFault.TheVariants.{Device};

    ghost from_gives = { λ _ fault. fault ≡ Device };

    fn from(_error: SinkFault) -> JournalFault {
        JournalFault::Device
    }
}
