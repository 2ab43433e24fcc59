//! What became of each put of two journals.
ghost use Rattle.std.specs.Prelude.{◌≡◌, ◌≢◌, ◌<◌, ◌↔◌, ◌⊎◌, ◌++◌, ℕ, List, IfErr, IfOk, IsErrOf, OnErr, Some, length, map};
ghost use Rattle.std.specs.Io.KnownBytes.{Appends, Keeps};
ghost use Rattle.amo_text.specs.Sink.{AppendsFront};
ghost use Rattle.amo_world.specs.declared.event.Event.{Event};
ghost use Rattle.amo_journal.specs.Lines.{Tell};
ghost use Rattle.amo_audit.specs.Judgement.{judgement_status};
ghost use Rattle.amo_audit.specs.Outcomes.{FindsBoth};
ghost use Rattle.amo_telling.specs.Outcomes.{IsToldOf, TellsIf, by};
ghost use Rattle.amo_telling.specs.Told.{TellsOne, first_ends, second_ends};

use crate::further::{follow_senders, told_further};
use crate::listing::Listing;
use crate::puts::{Report, told_of};
use crate::{Asked, Choice, Telling};
use amo_audit::{Judgement, Reach, Verdict, outcomes_of};
use amo_journal::{JournalFault, Lines, open};
use amo_lives::Span;
use amo_outcomes::Outcome;
use amo_text::{Sink, write_all};
use std::alloc::{AllocError, Global};

/// The status where memory was refused.
const NO_MEMORY: u8 = 4;

/// Writes what became of each put of the greatest beginnings of two journals that merge: a line `NUMBER STREAM OUTCOME MESSAGE` for each that
/// was taken, in the order of its journal, those of the first file before those of the second. The number is that of the put's own line. The
/// answer tells how far the beginnings reach, as [`amo_audit::outcomes_of`] has it.
///
/// Where one of them goes on behind these, the other one may be a copy that lacks lines. So a put of the one that goes on is told to be got where
/// any event of it says so, as an ack does, and none that it says was sent is told to be gone. Of the other one the doubtful lines are those of
/// [`Asked::if_short`].
///
/// Of files with a fault, whatever follows in them, nothing is written. The answer is what is found of both, which
/// [`amo_audit::tell_judgement`] tells.
///
/// The text is made whole and then written. Where the sink fails, a beginning of it was appended; where memory is refused, nothing was.
pub fn tell_outcomes<W: Sink>(
    alloc: Global,
    first: Asked<'_>,
    second: Asked<'_>,
    choice: Choice,
    sink: &mut W,
) -> Result<Telling, JournalFault>
    ensures told { IfOk result (λ telling. (text : List ℕ) × TellsIf telling choice first.entry second.entry text
        × Appends (W.written sink.old) (W.written sink.new) text) }
    ensures begun { OnErr result (Keeps (W.written sink.old) (W.written sink.new)
        ⊎ ((text : List ℕ) × ((reach : Reach) × IsToldOf reach choice first.entry second.entry text)
        × AppendsFront (W.written sink.old) (W.written sink.new) text)) }
    ensures refused { IsErrOf result JournalFault.NoMemory → Keeps (W.written sink.old) (W.written sink.new) }
    ensures faults { IfErr result (λ fault. (fault ≡ JournalFault.NoMemory) ⊎ (fault ≡ JournalFault.Device)) }
    ensures device { IsErrOf result JournalFault.Device ↔ (W.failures sink.old < W.failures sink.new) }
{
    match text_of(alloc, first, second, choice) {
        Ok((text, reach)) => {
            write_all(sink, text.as_slice())?;
            Ok(Telling::Told(reach))
        }
        Err(judgement) => {
            if judgement.status() == NO_MEMORY {
                return Err(JournalFault::NoMemory);
            }
            Ok(Telling::Nothing(judgement))
        }
    }
}

/// The text that tells what became of each put of two journals, and how far it reaches; or what is found of them.
fn text_of(
    alloc: Global,
    first: Asked<'_>,
    second: Asked<'_>,
    choice: Choice,
) -> Result<(Vec<u8>, Reach), Judgement>
    ensures told { IfOk result (λ told. IsToldOf told.1 choice first.entry second.entry told.0.items) }
    ensures found { IfErr result (FindsBoth first.entry.bytes.now second.entry.bytes.now) }
{
    let told = outcomes_of(alloc, first.bytes, second.bytes)?;
    match told_of_both(
        alloc,
        (open(first.bytes), first.doubts_of_first(told.reach)),
        (open(second.bytes), second.doubts_of_second(told.reach)),
        told.reach,
        choice,
        told.all.as_slice(),
    ) {
        Ok(text) => Ok((text, told.reach)),
        Err(AllocError) => Err(Judgement::Whole(Verdict::NoMemory)),
    }
}

/// The lines of the puts of two journals as far as they were judged, which became this of.
fn told_of_both(
    alloc: Global,
    first: (Lines<'_>, &[Span]),
    second: (Lines<'_>, &[Span]),
    reach: Reach,
    choice: Choice,
    all: &[Vec<Outcome>],
) -> Result<Vec<u8>, AllocError>
    requires first { (events : List Event) × Tell events first.0 }
    requires second { (events : List Event) × Tell events second.0 }
    requires all { length all.now ≡ 256 }
    ensures { IfOk result (λ text. (front : List ℕ) × (more : List ℕ) × (text.items ≡ front ++ more)
        × TellsOne (first_ends reach) (by choice first.entry.1.now) (map (λ told. told.items) all.now) first.entry.0 front
        × TellsOne (second_ends reach) (by choice second.entry.1.now) (map (λ told. told.items) all.now) second.entry.0 more) }
{
    let (ends, other_ends) = match reach {
        Reach::Whole => (None, None),
        Reach::First(line) => (Some(line), None),
        Reach::Second(line) => (None, Some(line)),
    };
    let ours = Report {
        choice,
        doubts: first.1,
    };
    let theirs = Report {
        choice,
        doubts: second.1,
    };
    let mut text = told_of_one(alloc, first.0, ends, ours, all)?;
    let more = told_of_one(alloc, second.0, other_ends, theirs, all)?;
    text.extend_from_slice(more.as_slice())?;
    Ok(text)
}

/// The lines of the puts of one of them, which was judged to its end, or goes on from this line.
fn told_of_one(
    alloc: Global,
    lines: Lines<'_>,
    ends: Option<usize>,
    report: Report<'_>,
    all: &[Vec<Outcome>],
) -> Result<Vec<u8>, AllocError>
    requires lines { (events : List Event) × Tell events lines }
    requires all { length all.now ≡ 256 }
    ensures { IfOk result (λ text. TellsOne ends (by report.entry.choice report.entry.doubts.now) (map (λ told. told.items) all.now) lines.entry text.items) }
{
    match ends {
        None => told_of(alloc, lines, None, report, Listing::OfBoth(all)),
        Some(line) => told_of_longer(alloc, lines, line, report, all),
    }
}

/// The lines of the puts of the one that goes on from this line, where the other one may lack lines.
fn told_of_longer(
    alloc: Global,
    lines: Lines<'_>,
    line: usize,
    report: Report<'_>,
    all: &[Vec<Outcome>],
) -> Result<Vec<u8>, AllocError>
    requires lines { (events : List Event) × Tell events lines }
    requires all { length all.now ≡ 256 }
    ensures { IfOk result (λ text. TellsOne (Some line) (by report.entry.choice report.entry.doubts.now) (map (λ told. told.items) all.now) lines.entry text.items) }
{
    let own = follow_senders(alloc, lines)?;
    let listed = told_further(alloc, all, &own)?;
    let listing = Listing::Known(listed.as_slice());
    told_of(alloc, lines, Some(line), report, listing)
}
