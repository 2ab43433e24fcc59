//! The judgement of events without those of the other side, event by event.
ghost use Rattle.std.specs.Prelude.{◌≡◌, ◌+◌, ◌<◌, ◌^◌, ◌++◌, ◌∷◌, [], List, length, IfErr, IfOk, OnOk};
ghost use Rattle.amo_world.specs.declared.event.Event.{Event};
ghost use Rattle.amo_world.specs.Stream.{IsStream};
ghost use Rattle.amo_world.specs.History.{HasRightReply, UsesNewWord};
ghost use Rattle.amo_audit.specs.Alone.{FindsAlone, JudgesAlone, RefusesAlone, Represents};

use crate::Verdict;
use crate::auditor::Finding;
use crate::lone_sides::LoneSides;
use amo_journal::TakeEvents;
use amo_world::{Event, STREAMS, WorldFault};
use std::alloc::{AllocError, Global};

/// What is kept of the events so far: each side, which goes no further than an event at fault. No event is kept.
#[derive(Drop)]
pub(crate) struct LoneAuditor {
    /// The sides of stream 1 first.
    streams: Vec<LoneSides>,
    finding: Finding,
    ghost all: { length streams.items ≡ 256 },
}

impl LoneAuditor {
    /// Nothing was judged yet.
    pub(crate) fn new(alloc: Global) -> Result<LoneAuditor, AllocError>
        ensures { IfOk result (λ auditor. FindsAlone auditor.streams.items auditor.finding []) }
    {
        Ok(LoneAuditor {
            streams: nothing_taken(alloc)?,
            finding: Finding::Nothing,
        })
    }

    /// Judges the next event. So many were judged before it. Where memory is refused, the auditor is of no more use.
    pub(crate) fn judge(&mut self, before: usize, event: &Event) -> Result<(), AllocError>
        requires stream { IsStream event.now.stream }
        requires few { before + 1 < 2 ^ 64 }
        ensures { OnOk result ((past : List Event) → before ≡ length past → FindsAlone self.old.streams.items self.old.finding past
            → FindsAlone self.new.streams.items self.new.finding (past ++ event.now ∷ [])) }
    {
        if let Finding::AtFault(..) = self.finding {
            return Ok(());
        }
        match take(&mut self.streams, event) {
            Ok(()) => Ok(()),
            Err(WorldFault::NoMemory) => Err(AllocError),
            Err(fault) => {
                self.finding = Finding::AtFault(before + 1, fault);
                Ok(())
            }
        }
    }

    /// What the events are judged to be, if no more come.
    pub(crate) fn verdict(&self) -> Verdict
        ensures { (events : List Event) → FindsAlone self.now.streams.items self.now.finding events → JudgesAlone events result }
    {
        match self.finding {
            Finding::Nothing => Verdict::Yes,
            Finding::AtFault(line, WorldFault::WrongReply) => Verdict::WrongReply(line),
            Finding::AtFault(line, WorldFault::Unsent) => Verdict::Unsent(line),
            Finding::AtFault(line, WorldFault::Repeat) => Verdict::Repeat(line),
            Finding::AtFault(_, WorldFault::NoMemory) => Verdict::NoMemory,
        }
    }
}

impl TakeEvents for LoneAuditor {
    ghost use Rattle.amo_audit.specs.Alone.{FindsAlone};

    ghost HasTaken = { λ auditor past. FindsAlone auditor.streams.items auditor.finding past };

    fn take(&mut self, before: usize, event: Event) -> Result<(), AllocError> {
        self.judge(before, &event)
    }
}

/// One event more, unless it is refused.
fn take(streams: &mut Vec<LoneSides>, event: &Event) -> Result<(), WorldFault>
    requires stream { IsStream event.now.stream }
    requires count { length streams.old.items ≡ 256 }
    ensures count { length streams.new.items ≡ 256 }
    ensures taken { OnOk result ((past : List Event) → Represents streams.old.items past
        → HasRightReply past event.now × UsesNewWord past event.now × Represents streams.new.items (event.now ∷ past)) }
    ensures refused { IfErr result (λ fault. (past : List Event) → Represents streams.old.items past → RefusesAlone past event.now fault) }
{
    let sides = &mut streams[event.stream as usize - 1];
    sides.take(event)
}

/// Each stream, with nothing done yet.
fn nothing_taken(alloc: Global) -> Result<Vec<LoneSides>, AllocError>
    ensures { IfOk result (λ streams. Represents streams.items []) }
{
    let mut streams = Vec::with_capacity(alloc, STREAMS as usize)?;
    for number in 1..=STREAMS {
        streams.push(LoneSides::new(alloc, number))?;
    }
    Ok(streams)
}
