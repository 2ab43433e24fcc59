//! What a sender's journal alone tells of each of its puts.
ghost use Rattle.std.specs.Prelude.{◌≡◌, ◌≢◌, ◌<◌, ◌↔◌, ◌⊎◌, ℕ, List, [], IfErr, IfOk, IsErrOf, OnErr, reverse};
ghost use Rattle.std.specs.Io.KnownBytes.{Appends, Keeps};
ghost use Rattle.std.specs.List.{All};
ghost use Rattle.amo_text.specs.Sink.{AppendsFront};
ghost use Rattle.amo_world.specs.History.{IsRight};
ghost use Rattle.amo_world.specs.Stream.{IsStream};
ghost use Rattle.amo_audit.specs.Sender.{Finds};
ghost use Rattle.amo_telling.specs.Alone.{IsTellingAlone, TellsFound};
ghost use Rattle.amo_telling.specs.Outcomes.{IsKnownAlone, Tells, by};

use crate::listing::Listing;
use crate::puts::{Report, told_of_events};
use crate::{Asked, Choice};
use amo_audit::{SenderFound, Verdict, sender_events};
use amo_journal::JournalFault;
use amo_lives::Span;
use amo_outcomes::outcomes_of_sender;
use amo_text::{Sink, write_all};
use amo_world::{Event, NoMemory};
use std::alloc::Global;

/// Writes what a sender's journal alone tells of each of its puts: a line `NUMBER STREAM OUTCOME MESSAGE` for each that was taken, in order.
/// The number is that of the put's own line. What came is taken to have been sent by the receiver, which only both journals tell.
///
/// Of another file nothing is written. The answer is what is found of it.
///
/// The text is made whole and then written. Where the sink fails, a beginning of it was appended; where memory is refused, nothing was.
pub fn tell_outcomes_of_sender<W: Sink>(
    alloc: Global,
    journal: Asked<'_>,
    choice: Choice,
    sink: &mut W,
) -> Result<SenderFound, JournalFault>
    ensures found { IfOk result (λ found. Finds journal.entry.bytes.now found × (found ≢ SenderFound.Wrong Verdict.NoMemory)) }
    ensures told { IfOk result (λ found. (text : List ℕ) × TellsFound found choice journal.entry.bytes.now journal.entry.doubts.now text
        × Appends (W.written sink.old) (W.written sink.new) text) }
    ensures begun { OnErr result (Keeps (W.written sink.old) (W.written sink.new)
        ⊎ ((text : List ℕ) × IsTellingAlone choice journal.entry.bytes.now journal.entry.doubts.now text × AppendsFront (W.written sink.old) (W.written sink.new) text)) }
    ensures refused { IsErrOf result JournalFault.NoMemory → Keeps (W.written sink.old) (W.written sink.new) }
    ensures faults { IfErr result (λ fault. (fault ≡ JournalFault.NoMemory) ⊎ (fault ≡ JournalFault.Device)) }
    ensures device { IsErrOf result JournalFault.Device ↔ (W.failures sink.old < W.failures sink.new) }
{
    match text_of(alloc, journal, choice) {
        Ok(text) => {
            write_all(sink, text.as_slice())?;
            Ok(SenderFound::Good)
        }
        Err(SenderFound::Wrong(Verdict::NoMemory)) => Err(JournalFault::NoMemory),
        Err(found) => Ok(found),
    }
}

/// The text that tells what a sender's journal alone tells, or what is found of the file.
fn text_of(alloc: Global, journal: Asked<'_>, choice: Choice) -> Result<Vec<u8>, SenderFound>
    ensures good { IfOk result (λ _. Finds journal.entry.bytes.now SenderFound.Good) }
    ensures told { IfOk result (λ text. IsTellingAlone choice journal.entry.bytes.now journal.entry.doubts.now text.items) }
    ensures found { IfErr result (λ found. Finds journal.entry.bytes.now found × (found ≢ SenderFound.Good)) }
{
    let events = sender_events(alloc, journal.bytes)?;
    match told_alone(alloc, events.as_slice(), choice, journal.doubts) {
        Ok(text) => Ok(text),
        Err(NoMemory) => Err(SenderFound::Wrong(Verdict::NoMemory)),
    }
}

/// The lines of the puts of a sender's events, of which these alone tell.
fn told_alone(
    alloc: Global,
    events: &[Event],
    choice: Choice,
    doubts: &[Span],
) -> Result<Vec<u8>, NoMemory>
    requires streams { All (λ e. IsStream e.stream) events.now }
    requires right { IsRight (reverse events.now) }
    ensures { IfOk result (λ text. Tells (IsKnownAlone (reverse events.now)) (by choice doubts.now) [] events.now text.items) }
{
    let all = outcomes_of_sender(alloc, events)?;
    let listing = Listing::OfSender(all.as_slice());
    let report = Report { choice, doubts };
    Ok(told_of_events(alloc, events, report, listing)?)
}
