//! Events.
ghost use Rattle.std.specs.Prelude.{◌≡◌, IfOk, IsOk};
ghost use Rattle.amo_core.specs.Act.{brought_by, got_by, AreEmpty};

use crate::NoMemory;
use amo_core::{Act, Reply};
use amo_object::End;
use std::alloc::AllocError;

/// What happened at one side of a stream, and the reply.
#[derive(Clone, PartialEq, Eq, Drop)]
pub struct Event {
    /// The number of the pass, a caller's token, under which it happened. In a replay it is 0.
    pub pass: usize,
    /// The side.
    pub side: End,
    /// The stream.
    pub stream: u32,
    /// What happened.
    pub act: Act,
    /// The reply.
    pub reply: Reply,
}

impl Event {
    /// An equal event. It takes memory only for a message with a byte to copy, and so is refused only there.
    pub fn copy(&self) -> Result<Event, NoMemory>
        ensures value { IfOk result (λ event. event ≡ self.now) }
        ensures memory { AreEmpty (brought_by self.now.act) → AreEmpty (got_by self.now.reply) → IsOk result }
    {
        let copied: Result<Event, AllocError> = self.clone();
        match copied {
            Ok(event) => Ok(event),
            Err(AllocError) => Err(NoMemory),
        }
    }
}
