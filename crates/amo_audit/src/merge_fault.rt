//! Why two lists of events were not merged.
ghost use Rattle.std.specs.Prelude.{◌≡◌};

use amo_world::NoMemory;
use std::alloc::AllocError;
use thiserror::Error;

/// Why two lists of events were not merged. Nothing is left of the merge then, and both lists are as they were.
#[derive(Clone, Copy, Debug, PartialEq, Eq, Error)]
pub enum MergeFault {
    /// Memory was refused. The caller may try again later.
    #[error("out of memory")]
    NoMemory,
    /// No interleaving is honest: in each, some packet is delivered before it was emitted. Whoever wrote the events is at
    /// fault.
    #[error("no interleaving is honest")]
    Stuck,
    /// A side of a stream has events in both lists. The caller is at fault, who joined them.
    #[error("a side of a stream has events in both lists")]
    Shared,
}

impl MergeFault {
    ghost use Rattle.amo_audit.specs.MergeFault.{fault_code};

    /// The number of this fault.
    pub fn code(&self) -> u8
        ensures { result ≡ fault_code self.now }
    {
        match self {
            MergeFault::NoMemory => 9,
            MergeFault::Stuck => 61,
            MergeFault::Shared => 62,
        }
    }
}

impl From<AllocError> for MergeFault {
    ghost use Rattle.amo_audit.specs.declared.merge_fault.MergeFault.TheVariants.{NoMemory};

    ghost from_gives = { λ _ fault. fault ≡ NoMemory };

    fn from(_error: AllocError) -> MergeFault {
        MergeFault::NoMemory
    }
}
