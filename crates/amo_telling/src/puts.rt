//! The lines of the puts of a journal.
ghost use Rattle.std.specs.Prelude.{◌≡◌, ◌≢◌, ◌<◌, ◌+◌, ◌^◌, ◌++◌, ◌∷◌, ℕ, List, [], true, false, IfNone, IfOk, IfSome, IsTrue, OnOk, codes, length};
ghost use Rattle.std.specs.List.{All};
ghost use Rattle.amo_world.specs.declared.event.Event.{Event};
ghost use Rattle.amo_world.specs.Stream.{IsStream};
ghost use Rattle.amo_journal.specs.declared.version.Version.{Version};
ghost use Rattle.amo_journal.specs.Lines.{Tell};
ghost use Rattle.amo_telling.specs.Outcomes.{by, is_put};
ghost use Rattle.amo_telling.specs.Told.{HasTold, IsLineOf, StandsBehind, end_of, front_of, listed_line, told_text};

use crate::Choice;
use crate::listing::Listing;
use crate::put_outcome::PutOutcome;
use crate::shown::push_outcome;
use amo_journal::{Lines, Version, read_line};
use amo_lives::Span;
use amo_text::{next_field, next_line};
use amo_world::{Act, Event, Reply, STREAMS};
use std::alloc::{AllocError, Global};

/// Which puts are told of, and how.
#[derive(Clone, Copy)]
pub(crate) struct Report<'a> {
    pub(crate) choice: Choice,
    /// The doubtful lines of the journal.
    pub(crate) doubts: &'a [Span],
}

/// The lines of the puts of a journal, of which this is told: of all lines, or of those in front of this one, which is counted from the file's first.
/// Only lines that may tell of a put are read.
pub(crate) fn told_of(
    alloc: Global,
    lines: Lines<'_>,
    ends: Option<usize>,
    report: Report<'_>,
    listing: Listing<'_>,
) -> Result<Vec<u8>, AllocError>
    requires { (events : List Event) × Tell events lines }
    ensures { IfOk result (λ text. (events : List Event) × Tell events lines.entry
        × (text.items ≡ told_text (by report.entry.choice report.entry.doubts.now) listing.entry [] (front_of ends lines.entry.version events))) }
{
    let Lines { version, text } = lines;
    let end = end_of(ends, version);
    let mut told = Vec::new(alloc);
    let mut counts = [0; STREAMS as usize];
    let mut rest = text;
    let mut number = 0;
    while number < end && !rest.is_empty() {
        let Some((line, more)) = next_line(rest) else {
            unreachable!();
        };
        tell_line(
            alloc,
            &mut told,
            &mut counts,
            report,
            listing,
            version,
            number,
            line,
        )?;
        number += 1;
        rest = more;
    }
    Ok(told)
}

/// How many lines of a journal are in front of this one, or are there at most.
fn end_of(ends: Option<usize>, version: Version) -> usize
    ensures { result ≡ end_of ends version }
{
    match ends {
        Some(line) => line.saturating_sub(1 + version.lines_before()),
        None => usize::MAX,
    }
}

/// Whether a line may tell of a put: the field behind its number, its pass, its side and its stream names one.
fn may_put(line: &[u8]) -> bool
    ensures { result ≡ false → (rest : List ℕ) → ¬ (StandsBehind line.now (codes "put " ++ rest)) }
{
    match behind_place(line) {
        Some(rest) => rest.starts_with(b"put "),
        None => false,
    }
}

/// What stands behind the number, the pass, the side and the stream of a line.
fn behind_place(line: &[u8]) -> Option<&[u8]>
    ensures some { IfSome result (λ rest. (other : List ℕ) → StandsBehind line.now other → rest.now ≡ other) }
    ensures none { IfNone result ((other : List ℕ) → ¬ (StandsBehind line.now other)) }
{
    let (_number, rest) = next_field(line)?;
    let (_pass, rest) = next_field(rest)?;
    let (_side, rest) = next_field(rest)?;
    let (_stream, rest) = next_field(rest)?;
    Some(rest)
}

/// Tells of the event of one line more, which has this number, if that puts something.
fn tell_line(
    alloc: Global,
    text: &mut Vec<u8>,
    counts: &mut [usize; STREAMS as usize],
    report: Report<'_>,
    listing: Listing<'_>,
    version: Version,
    number: usize,
    line: &[u8],
) -> Result<(), AllocError>
    requires line { (event : Event) × IsLineOf version number event line.now }
    requires few { number + 1 < 2 ^ 64 }
    ensures { OnOk result ((event : Event) → IsLineOf version number event line.now → (past : List Event) → number ≡ length past
        → HasTold (by report.entry.choice report.entry.doubts.now) listing.entry counts.old text.old.items past
        → HasTold (by report.entry.choice report.entry.doubts.now) listing.entry counts.new text.new.items (past ++ event ∷ [])) }
{
    if !may_put(line) {
        return Ok(());
    }
    match read_line(alloc, version, line)? {
        Some(read) => tell_event(text, counts, report, listing, number, &read.event),
        None => unreachable!(),
    }
}

/// The same of the events of a journal.
pub(crate) fn told_of_events(
    alloc: Global,
    events: &[Event],
    report: Report<'_>,
    listing: Listing<'_>,
) -> Result<Vec<u8>, AllocError>
    requires { All (λ e. IsStream e.stream) events.now }
    ensures { IfOk result (λ text. text.items ≡ told_text (by report.entry.choice report.entry.doubts.now) listing.entry [] events.now) }
{
    let mut text = Vec::new(alloc);
    let mut counts = [0; STREAMS as usize];
    let mut number = 0;
    for event in events {
        tell_event(&mut text, &mut counts, report, listing, number, event)?;
        number += 1;
    }
    Ok(text)
}

/// Tells of one event more, on the line of this number, and counts the puts of each stream.
fn tell_event(
    text: &mut Vec<u8>,
    counts: &mut [usize; STREAMS as usize],
    report: Report<'_>,
    listing: Listing<'_>,
    number: usize,
    event: &Event,
) -> Result<(), AllocError>
    requires stream { IsStream event.now.stream }
    requires few { number + 1 < 2 ^ 64 }
    ensures { OnOk result ((past : List Event) → number ≡ length past
        → HasTold (by report.entry.choice report.entry.doubts.now) listing.entry counts.old text.old.items past
        → HasTold (by report.entry.choice report.entry.doubts.now) listing.entry counts.new text.new.items (past ++ event.now ∷ [])) }
{
    let Some(message) = message_put(event) else {
        return Ok(());
    };
    let place = event.stream as usize - 1;
    let put = counts[place];
    let outcome = listing.told_at(place, put);
    // There are fewer puts than lines.
    counts[place] = put.saturating_add(1);
    push_listed(text, report, number as u64, event.stream, message, outcome)
}

/// The message that an event puts, if it is a put that was taken.
fn message_put(event: &Event) -> Option<&[u8]>
    ensures some { IfSome result (λ message. (event.now.act ≡ Act.Put message.now) × (event.now.reply ≡ Reply.Ok)) }
    ensures none { IfNone result (is_put event.now.act event.now.reply ≡ false) }
{
    match (&event.act, &event.reply) {
        (Act::Put(message), Reply::Ok) => Some(message.bytes()),
        _ => None,
    }
}

/// Appends the line of a put, if its outcome is listed and told.
fn push_listed(
    text: &mut Vec<u8>,
    report: Report<'_>,
    number: u64,
    stream: u32,
    message: &[u8],
    outcome: Option<PutOutcome>,
) -> Result<(), AllocError>
    ensures { OnOk result (text.new.items ≡ text.old.items ++ listed_line (by report.entry.choice report.entry.doubts.now) number stream message.now outcome) }
{
    let Some(outcome) = outcome else {
        return Ok(());
    };
    let told = outcome.as_told(number, report.doubts);
    if report.choice.has(told) {
        push_outcome(text, number, stream, told, message, report.choice.json)
    } else {
        Ok(())
    }
}
