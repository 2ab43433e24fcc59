//! What takes the events of a journal while they are read.
ghost use Rattle.std.specs.Prelude.{◌≡◌, ◌+◌, ◌<◌, ◌^◌, ◌++◌, ◌∷◌, [], List, length, OnOk};
ghost use Rattle.amo_packet.specs.Stream.{IsStream};
ghost use Rattle.amo_world.specs.declared.event.Event.{Event};

use amo_world::Event;
use std::alloc::AllocError;

/// What takes events one after another, in the order of time, and keeps of them what it needs.
pub trait TakeEvents {
    ghost use Rattle.std.specs.Prelude.{List};
    ghost use Rattle.amo_world.specs.declared.event.Event.{Event};

    /// It has taken these events, in the order of time, and no others.
    ghost HasTaken: { Self → List Event → Type 0 };

    /// Takes the next event. So many were taken before it. Where memory is refused, the taker is of no more use.
    fn take(&mut self, before: usize, event: Event) -> Result<(), AllocError>
        requires stream { IsStream event.stream }
        requires few { before + 1 < 2 ^ 64 }
        ensures { OnOk result ((past : List Event) → before ≡ length past → HasTaken self.old past → HasTaken self.new (past ++ event ∷ [])) };
}

/// A vector keeps the events themselves.
impl TakeEvents for Vec<Event> {
    ghost use Rattle.std.specs.Prelude.{◌≡◌};

    ghost HasTaken = { λ v past. v.items ≡ past };

    fn take(&mut self, _before: usize, event: Event) -> Result<(), AllocError> {
        Ok(self.push(event)?)
    }
}
