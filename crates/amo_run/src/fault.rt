//! Why a run has no answer.
ghost use Rattle.std.specs.Prelude.{◌≡◌};
ghost use Rattle.amo_run.specs.Fault.{run_code};

use thiserror::Error;

/// Why a run has no answer. Its threads have ended, and its books are gone.
#[derive(Clone, Copy, Debug, PartialEq, Eq, Error)]
pub enum RunFault {
    /// A socket could not be opened or connected.
    #[error("a socket failed")]
    Device,
    /// Memory or a thread was refused. The caller may try again later.
    #[error("out of memory")]
    NoMemory,
}

impl RunFault {
    /// The number of this fault: 71 for a socket, 9 for memory or a thread.
    pub fn code(&self) -> u8
        ensures { result ≡ run_code self.now }
    {
        match self {
            RunFault::Device => 71,
            RunFault::NoMemory => 9,
        }
    }
}
