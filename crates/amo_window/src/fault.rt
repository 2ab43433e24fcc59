//! Why no window or timers were made.
ghost use Rattle.std.specs.Prelude.{◌≡◌};

use std::alloc::AllocError;
use thiserror::Error;

/// Why a window or timers could not be made. Nothing was taken or changed.
#[derive(Clone, Copy, Debug, PartialEq, Eq, Error)]
pub enum WindowFault {
    /// The caller's fault: a limit, a number of streams or their order is not one that is allowed. The same call will
    /// be refused again.
    #[error("the limit or the streams are not allowed")]
    Limits,
    /// The machine's fault: memory was refused. The caller may try again later.
    #[error("out of memory")]
    NoMemory,
}

impl WindowFault {
    ghost use Rattle.amo_window.specs.Fault.{fault_code};

    /// The number of this fault: 31 for limits, 9 for no memory.
    pub fn code(&self) -> u8
        ensures { result ≡ fault_code self.now }
    {
        match self {
            WindowFault::Limits => 31,
            WindowFault::NoMemory => 9,
        }
    }
}

impl From<AllocError> for WindowFault {
    ghost use Rattle.amo_window.specs.declared.fault.WindowFault.TheVariants.{NoMemory};

    ghost from_gives = { λ _ fault. fault ≡ NoMemory };

    fn from(_refused: AllocError) -> WindowFault {
        WindowFault::NoMemory
    }
}
