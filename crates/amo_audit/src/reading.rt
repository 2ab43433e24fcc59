//! What the lines of a journal tell, or why they tell of nothing.
ghost use Rattle.std.specs.Prelude.{[], List, IfOk, IfErr};
ghost use Rattle.std.specs.List.{All};
ghost use Rattle.amo_world.specs.declared.event.Event.{Event};
ghost use Rattle.amo_world.specs.Stream.{IsStream};
ghost use Rattle.amo_journal.specs.Lines.{Tell};
ghost use Rattle.amo_audit.specs.Judgement.{TellNone};

use crate::Verdict;
use amo_journal::{JournalFault, Lines, TakeEvents, read_into};
use amo_world::Event;
use std::alloc::Global;

/// Has the events taken that lines tell of, or answers why they tell of none.
pub(crate) fn take_told<T: TakeEvents + Drop>(
    alloc: Global,
    lines: Lines<'_>,
    taker: T,
) -> Result<T, Verdict>
    requires { T.HasTaken taker [] }
    ensures taken { IfOk result (λ taker. (events : List Event) × Tell events lines.entry × T.HasTaken taker events) }
    ensures found { IfErr result (TellNone lines.entry) }
{
    match read_into(alloc, lines, taker) {
        Ok(taker) => Ok(taker),
        Err(JournalFault::Malformed(line)) => Err(Verdict::Malformed(line)),
        Err(JournalFault::Gap(line)) => Err(Verdict::Gap(line)),
        Err(JournalFault::NoMemory) => Err(Verdict::NoMemory),
        Err(JournalFault::Device) => unreachable!(),
    }
}

/// The events that lines tell of, or why they tell of none.
pub(crate) fn events_of(alloc: Global, lines: Lines<'_>) -> Result<Vec<Event>, Verdict>
    ensures told { IfOk result (λ events. Tell events.items lines.entry) }
    ensures streams { IfOk result (λ events. All (λ e. IsStream e.stream) events.items) }
    ensures found { IfErr result (TellNone lines.entry) }
{
    take_told(alloc, lines, Vec::new(alloc))
}
