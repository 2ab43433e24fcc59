//! Both hosts, as a merge keeps them.
ghost use Rattle.std.specs.Prelude.{◌≡◌, ◌↔◌, length, List, [], ◌∷◌, IfOk, IsTrue};
ghost use Rattle.amo_world.specs.declared.event.Event.{Event};
ghost use Rattle.amo_world.specs.Stream.{IsStream};
ghost use Rattle.amo_world.specs.History.{DeliversEmitted};
ghost use Rattle.amo_audit.specs.Hosts.{Represents};

use crate::sides::Sides;
use amo_world::{Event, STREAMS};
use std::alloc::{AllocError, Global};

/// Both sides of each stream.
#[derive(Drop)]
pub(crate) struct Hosts {
    streams: Vec<Sides>,
}

impl Hosts {
    /// Both hosts, with nothing done yet.
    pub(crate) fn new(alloc: Global) -> Result<Hosts, AllocError>
        ensures { IfOk result (λ hosts. Represents hosts.streams.items []) }
    {
        let mut streams = Vec::with_capacity(alloc, STREAMS as usize)?;
        for number in 1..=STREAMS {
            streams.push(Sides::new(alloc, number))?;
        }
        Ok(Hosts { streams })
    }

    /// Whether the event may go next: it delivers no packet, or one that was emitted before.
    pub(crate) fn delivers_emitted(&self, event: &Event) -> bool
        requires stream { IsStream event.now.stream }
        requires count { length self.now.streams.items ≡ 256 }
        ensures { (past : List Event) → Represents self.now.streams.items past → IsTrue result ↔ DeliversEmitted past event.now }
    {
        let sides = &self.streams[event.stream as usize - 1];
        sides.delivers_emitted(event)
    }

    /// Makes the event's act.
    pub(crate) fn make(&mut self, alloc: Global, event: &Event) -> Result<(), AllocError>
        requires stream { IsStream event.now.stream }
        requires count { length self.old.streams.items ≡ 256 }
        ensures { IfOk result (λ _. (past : List Event) → Represents self.old.streams.items past → Represents self.new.streams.items (event.now ∷ past)) }
    {
        let act = event.act.clone()?;
        let sides = &mut self.streams[event.stream as usize - 1];
        sides.make(alloc, event.side, act)
    }
}
