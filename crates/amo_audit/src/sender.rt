//! The events of a sender's journal, judged without the receiver's.
ghost use Rattle.std.specs.Prelude.{◌≢◌, IfErr, IfOk};
ghost use Rattle.std.specs.List.{All};
ghost use Rattle.amo_world.specs.Stream.{IsStream};
ghost use Rattle.amo_journal.specs.Lines.{Tell};
ghost use Rattle.amo_audit.specs.Alone.{IsWhose};
ghost use Rattle.amo_audit.specs.Sender.{Finds, FindsEvents, FindsLines, IsSenders};

use crate::alone::audit_alone;
use crate::reading::events_of;
use crate::whose::whose_are;
use crate::{SenderFound, Verdict, Whose};
use amo_journal::{Lines, open};
use amo_world::Event;
use std::alloc::Global;

/// The events of a sender's journal, where each reply is right and no word is used twice; of another file what is found of it. Whether what
/// came was sent, only both journals tell.
pub fn sender_events(alloc: Global, bytes: &[u8]) -> Result<Vec<Event>, SenderFound>
    ensures good { IfOk result (λ events. IsSenders bytes.now events.items) }
    ensures streams { IfOk result (λ events. All (λ e. IsStream e.stream) events.items) }
    ensures found { IfErr result (λ found. Finds bytes.now found × (found ≢ SenderFound.Good)) }
{
    let lines = open(bytes);
    match events_of_lines(alloc, lines) {
        Ok(events) => Ok(events),
        Err(found) => Err(found.counted(lines.version)),
    }
}

/// The same of the lines of a journal.
fn events_of_lines(alloc: Global, lines: Lines<'_>) -> Result<Vec<Event>, SenderFound>
    ensures told { IfOk result (λ events. Tell events.items lines.entry) }
    ensures good { IfOk result (λ events. FindsEvents events.items SenderFound.Good) }
    ensures streams { IfOk result (λ events. All (λ e. IsStream e.stream) events.items) }
    ensures found { IfErr result (λ found. FindsLines lines.entry found × (found ≢ SenderFound.Good)) }
{
    let events = match events_of(alloc, lines) {
        Ok(events) => events,
        Err(verdict) => return Err(SenderFound::Wrong(verdict)),
    };
    match judge_sender(alloc, events.as_slice()) {
        SenderFound::Good => Ok(events),
        found => Err(found),
    }
}

/// What is found of events.
fn judge_sender(alloc: Global, events: &[Event]) -> SenderFound
    requires { All (λ e. IsStream e.stream) events.now }
    ensures { FindsEvents events.now result }
{
    match whose_are(events) {
        Whose::Sender => judge_alone(alloc, events),
        Whose::Receiver => SenderFound::OfReceiver,
        Whose::Both => SenderFound::OfBoth,
    }
}

/// What is found of a sender's events.
fn judge_alone(alloc: Global, events: &[Event]) -> SenderFound
    requires streams { All (λ e. IsStream e.stream) events.now }
    requires senders { IsWhose events.now Whose.Sender }
    ensures { FindsEvents events.now result }
{
    match audit_alone(alloc, events) {
        Verdict::Yes => SenderFound::Good,
        verdict => SenderFound::Wrong(verdict),
    }
}
