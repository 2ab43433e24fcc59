//! Why a replay stops before its end.
ghost use Rattle.std.specs.Prelude.{◌≡◌};

use amo_book::DriveFault;
use amo_text::SinkFault;
use std::alloc::AllocError;
use thiserror::Error;

/// Why a replay, or the writing of its ending, stopped.
#[derive(Clone, Copy, Debug, PartialEq, Eq, Error)]
pub enum ToolFault {
    /// Memory was refused. What was written before it stands, in whole lines.
    #[error("amo: out of memory")]
    NoMemory,
    /// The book answered that another call was at work at a side. What was written before it stands, in whole lines.
    #[error("amo: busy")]
    Busy,
    /// The device did not take what was written. A beginning of it stands.
    #[error("amo: device")]
    Device,
}

impl ToolFault {
    ghost use Rattle.amo_replay.specs.Ending.{fault_code};

    /// The number of this fault.
    pub fn code(&self) -> u8
        ensures { result ≡ fault_code self.now }
    {
        match self {
            ToolFault::NoMemory => 9,
            ToolFault::Busy => 43,
            ToolFault::Device => 71,
        }
    }
}

impl From<AllocError> for ToolFault {
    ghost use Rattle.std.specs.Prelude.{◌≡◌};
    ghost use Rattle.amo_replay.specs.declared.fault.ToolFault.TheVariants.{NoMemory};

    ghost from_gives = { λ _ fault. fault ≡ NoMemory };

    fn from(_error: AllocError) -> ToolFault {
        ToolFault::NoMemory
    }
}

impl From<SinkFault> for ToolFault {
    ghost use Rattle.std.specs.Prelude.{◌≡◌};
    ghost use Rattle.amo_replay.specs.declared.fault.ToolFault.TheVariants.{Device};

    ghost from_gives = { λ _ fault. fault ≡ Device };

    fn from(_error: SinkFault) -> ToolFault {
        ToolFault::Device
    }
}

impl From<DriveFault> for ToolFault {
    ghost use Rattle.std.specs.Prelude.{◌≡◌};
    ghost use Rattle.amo_replay.specs.Ending.{drive_fault};

    ghost from_gives = { λ drive fault. fault ≡ drive_fault drive };

    fn from(fault: DriveFault) -> ToolFault {
        match fault {
            DriveFault::Busy => ToolFault::Busy,
            DriveFault::NoMemory => ToolFault::NoMemory,
        }
    }
}
