//! The judgement of a history, event by event.
ghost use Rattle.std.specs.Prelude.{[], List, IfOk};
ghost use Rattle.amo_world.specs.declared.event.Event.{Event};
ghost use Rattle.amo_audit.specs.Audit.{Finds, JudgesEvents};

use crate::Verdict;
use amo_journal::TakeEvents;
use amo_world::{Event, NoMemory, World, WorldFault};
use std::alloc::{AllocError, Global};

/// The first thing found that stands against the events so far.
#[derive(Drop)]
pub(crate) enum Finding {
    Nothing,
    /// This event, counted from 1, has this fault.
    AtFault(usize, WorldFault),
}

/// What is kept of the events so far: a world, which goes no further than an event at fault. No event is kept.
#[derive(Drop)]
pub(crate) struct Auditor {
    world: World,
    finding: Finding,
}

impl Auditor {
    pub(crate) fn new(alloc: Global) -> Result<Auditor, NoMemory>
        ensures { IfOk result (λ auditor. Finds auditor.world auditor.finding []) }
    {
        Ok(Auditor {
            world: World::new(alloc)?,
            finding: Finding::Nothing,
        })
    }

    /// What the events are judged to be, if no more come.
    pub(crate) fn verdict(&self) -> Verdict
        ensures { (events : List Event) → Finds self.now.world self.now.finding events → JudgesEvents events result }
    {
        match self.finding {
            Finding::Nothing => Verdict::Yes,
            Finding::AtFault(line, WorldFault::WrongReply) => Verdict::WrongReply(line),
            Finding::AtFault(line, WorldFault::Unsent) => Verdict::Unsent(line),
            Finding::AtFault(line, WorldFault::Repeat) => Verdict::Repeat(line),
            Finding::AtFault(_, WorldFault::NoMemory) => Verdict::NoMemory,
        }
    }
}

impl TakeEvents for Auditor {
    ghost use Rattle.amo_audit.specs.Audit.{Finds};

    ghost HasTaken = { λ auditor past. Finds auditor.world auditor.finding past };

    fn take(&mut self, before: usize, event: Event) -> Result<(), AllocError> {
        if let Finding::AtFault(..) = self.finding {
            return Ok(());
        }
        match self.world.apply(event) {
            Ok(()) => Ok(()),
            Err(WorldFault::NoMemory) => Err(AllocError),
            Err(fault) => {
                self.finding = Finding::AtFault(before + 1, fault);
                Ok(())
            }
        }
    }
}
