//! Why a replay goes no further.
use crate::{Ending, ToolFault};
use amo_schedule::ScheduleFault;
use amo_text::SinkFault;
use std::alloc::AllocError;

/// Why a replay goes no further.
#[derive(Clone, Copy)]
pub(crate) enum Stop {
    /// A line cannot be applied. This is how the replay ended.
    Ended(Ending),
    /// Memory was refused, the book was busy, or the device failed.
    Failed(ToolFault),
}

impl Stop {
    ghost use Rattle.std.specs.Prelude.{◌≡◌, IfOk, IfErr};
    ghost use Rattle.amo_replay.specs.declared.stop.Stop.TheVariants.{Ended, Failed};

    /// What a replay answers that goes no further than this.
    pub(crate) fn answer(self) -> Result<Ending, ToolFault>
        ensures ended { IfOk result (λ ending. self ≡ Ended ending) }
        ensures failed { IfErr result (λ fault. self ≡ Failed fault) }
    {
        match self {
            Stop::Ended(ending) => Ok(ending),
            Stop::Failed(fault) => Err(fault),
        }
    }
}

impl From<ToolFault> for Stop {
    ghost use Rattle.std.specs.Prelude.{◌≡◌};
    ghost use Rattle.amo_replay.specs.declared.stop.Stop.TheVariants.{Failed};

    ghost from_gives = { λ fault stop. stop ≡ Failed fault };

    fn from(fault: ToolFault) -> Stop {
        Stop::Failed(fault)
    }
}

impl From<AllocError> for Stop {
    ghost use Rattle.std.specs.Prelude.{◌≡◌};
    ghost use Rattle.amo_replay.specs.declared.stop.Stop.TheVariants.{Failed};
    ghost use Rattle.amo_replay.specs.declared.fault.ToolFault.TheVariants.{NoMemory};

    ghost from_gives = { λ _ stop. stop ≡ Failed NoMemory };

    fn from(_error: AllocError) -> Stop {
        Stop::Failed(ToolFault::NoMemory)
    }
}

impl From<SinkFault> for Stop {
    ghost use Rattle.std.specs.Prelude.{◌≡◌};
    ghost use Rattle.amo_replay.specs.declared.stop.Stop.TheVariants.{Failed};
    ghost use Rattle.amo_replay.specs.declared.fault.ToolFault.TheVariants.{Device};

    ghost from_gives = { λ _ stop. stop ≡ Failed Device };

    fn from(_error: SinkFault) -> Stop {
        Stop::Failed(ToolFault::Device)
    }
}

impl From<ScheduleFault> for Stop {
    ghost use Rattle.std.specs.Prelude.{◌≡◌};
    ghost use Rattle.amo_replay.specs.Stop.{stop_of};

    ghost from_gives = { λ schedule stop. stop ≡ stop_of schedule };

    fn from(fault: ScheduleFault) -> Stop {
        match fault {
            ScheduleFault::NoMemory => Stop::Failed(ToolFault::NoMemory),
            ScheduleFault::Malformed(line) => Stop::Ended(Ending::Malformed(line)),
        }
    }
}
