//! Why bytes are no schedule.
ghost use Rattle.std.specs.Prelude.{◌≡◌};

use amo_text::LinesFault;
use thiserror::Error;

/// Why bytes are no schedule.
#[derive(Clone, Copy, Debug, PartialEq, Eq, Error)]
pub enum ScheduleFault {
    /// Memory was refused. The caller may try again later.
    #[error("out of memory")]
    NoMemory,
    /// This line, counted from 1, is the first that is malformed. The schedule's writer is at fault.
    #[error("line {0} is malformed")]
    Malformed(usize),
}

impl ScheduleFault {
    ghost use Rattle.amo_schedule.specs.Schedule.{fault_code};

    /// The number of this fault.
    pub fn code(&self) -> u8
        ensures { result ≡ fault_code self.now }
    {
        match self {
            ScheduleFault::NoMemory => 9,
            ScheduleFault::Malformed(_) => 63,
        }
    }
}

impl From<LinesFault> for ScheduleFault {
    ghost use Rattle.amo_schedule.specs.Schedule.{fault_of};

    ghost from_gives = { λ lines fault. fault ≡ fault_of lines };

    fn from(fault: LinesFault) -> ScheduleFault {
        match fault {
            LinesFault::NoMemory => ScheduleFault::NoMemory,
            LinesFault::Malformed(line) => ScheduleFault::Malformed(line),
        }
    }
}
