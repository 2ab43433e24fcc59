//! The explanation of a journal: of each stream the run of the at-most-once queue that its clients saw.
ghost use Rattle.std.specs.Prelude.{◌≡◌, ◌≢◌, ◌<◌, ◌↔◌, ◌⊎◌, ◌++◌, ℕ, List, IfOk, OnOk, OnErr, IfErr, IsErrOf};
ghost use Rattle.std.specs.Io.KnownBytes.{Appends, Keeps};
ghost use Rattle.std.specs.List.{flat_map};
ghost use Rattle.amo_text.specs.Hexadecimal.{hex};
ghost use Rattle.amo_text.specs.Line.{text_of};
ghost use Rattle.amo_text.specs.Side.{letter_of};
ghost use Rattle.amo_text.specs.Sink.{AppendsFront};
ghost use Rattle.amo_audit.specs.Audit.{AreGood, Judges, JudgesLines};
ghost use Rattle.amo_audit.specs.Explanation.{ExplainsIf, ExplainsLines, IsExplanation, run_text, runs_text, step_fields, step_line};

use crate::Verdict;
use crate::reading::events_of;
use crate::runs::runs_of_events;
use amo_journal::{JournalFault, Lines, open};
use amo_object::{Bytes, End};
use amo_resolve::{Run, Step};
use amo_text::{Sink, push_decimal, push_hex, push_side, write_all};
use std::alloc::{AllocError, Global};

/// Writes the run of the at-most-once queue that explains each stream of a journal, where the audit of it is a yes: a line
/// `STREAM STEP` a step, streams rising, and in each the run in its order. Which of several runs is written is open, but that a message that
/// may still be got is not lost where some run keeps all of these.
///
/// Of other bytes nothing is written. The answer is the verdict on the bytes, which [`crate::tell`] tells.
///
/// The explanation is made whole and then written. Where the sink fails, a beginning of it was appended; where memory is refused,
/// nothing was.
pub fn explain<W: Sink>(alloc: Global, bytes: &[u8], sink: &mut W) -> Result<Verdict, JournalFault>
    ensures judged { IfOk result (λ verdict. Judges bytes.now verdict × (verdict ≢ Verdict.NoMemory)) }
    ensures explained { IfOk result (λ verdict. (text : List ℕ) × ExplainsIf verdict bytes.now text
        × Appends (W.written sink.old) (W.written sink.new) text) }
    ensures begun { OnErr result (Keeps (W.written sink.old) (W.written sink.new)
        ⊎ ((text : List ℕ) × IsExplanation bytes.now text × AppendsFront (W.written sink.old) (W.written sink.new) text)) }
    ensures refused { IsErrOf result JournalFault.NoMemory → Keeps (W.written sink.old) (W.written sink.new) }
    ensures faults { IfErr result (λ fault. (fault ≡ JournalFault.NoMemory) ⊎ (fault ≡ JournalFault.Device)) }
    ensures device { IsErrOf result JournalFault.Device ↔ (W.failures sink.old < W.failures sink.new) }
{
    let lines = open(bytes);
    match explanation_of(alloc, lines) {
        Ok(text) => {
            write_all(sink, text.as_slice())?;
            Ok(Verdict::Yes)
        }
        Err(Verdict::NoMemory) => Err(JournalFault::NoMemory),
        Err(verdict) => Ok(verdict.further(lines.version.lines_before())),
    }
}

/// The text that explains the events that lines tell of, or the verdict on the lines, which it counts from 1.
fn explanation_of(alloc: Global, lines: Lines<'_>) -> Result<Vec<u8>, Verdict>
    ensures good { IfOk result (λ _. AreGood lines.entry) }
    ensures explained { IfOk result (λ text. ExplainsLines lines.entry text.items) }
    ensures judged { IfErr result (λ verdict. JudgesLines lines.entry verdict × (verdict ≢ Verdict.Yes)) }
{
    let runs = runs_of(alloc, lines)?;
    let mut text = Vec::new(alloc);
    match push_runs(&mut text, &runs) {
        Ok(()) => Ok(text),
        Err(_) => Err(Verdict::NoMemory),
    }
}

/// The runs that explain each stream of the events that lines tell of, or the verdict on the lines. No event is kept.
fn runs_of(alloc: Global, lines: Lines<'_>) -> Result<Vec<Run>, Verdict>
    ensures good { IfOk result (λ _. AreGood lines.entry) }
    ensures explained { IfOk result (λ runs. ExplainsLines lines.entry (runs_text runs.items)) }
    ensures judged { IfErr result (λ verdict. JudgesLines lines.entry verdict × (verdict ≢ Verdict.Yes)) }
{
    let events = events_of(alloc, lines)?;
    runs_of_events(alloc, events.as_slice())
}

/// Appends the lines of each run.
pub(crate) fn push_runs(text: &mut Vec<u8>, runs: &[Run]) -> Result<(), AllocError>
    ensures { OnOk result (text.new.items ≡ text.old.items ++ runs_text runs.now) }
{
    for place in 0..runs.len() {
        push_run(text, &runs[place])?;
    }
    Ok(())
}

/// Appends the lines of a run.
fn push_run(text: &mut Vec<u8>, run: &Run) -> Result<(), AllocError>
    ensures { OnOk result (text.new.items ≡ text.old.items ++ run_text run.now) }
{
    push_steps(text, run.stream, run.steps.as_slice())
}

/// Appends the lines of the steps of a stream's run.
fn push_steps(text: &mut Vec<u8>, stream: u32, steps: &[Step]) -> Result<(), AllocError>
    ensures { OnOk result (text.new.items ≡ text.old.items ++ flat_map (step_line stream) steps.now) }
{
    for place in 0..steps.len() {
        push_step(text, stream, &steps[place])?;
    }
    Ok(())
}

/// Appends the line of a step.
fn push_step(text: &mut Vec<u8>, stream: u32, step: &Step) -> Result<(), AllocError>
    ensures { OnOk result (text.new.items ≡ text.old.items ++ step_line stream step.now) }
{
    push_decimal(text, stream as u64)?;
    text.push(b' ')?;
    push_fields(text, step)?;
    text.push(b'\n')?;
    Ok(())
}

/// Appends the fields of a step.
fn push_fields(text: &mut Vec<u8>, step: &Step) -> Result<(), AllocError>
    ensures { OnOk result (text.new.items ≡ text.old.items ++ text_of (step_fields step.now)) }
{
    match step {
        Step::Put(message) => push_message(text, b"put ", message),
        Step::Get(message) => push_message(text, b"get ", message),
        Step::Ack(true) => text.extend_from_slice(b"ack yes"),
        Step::Ack(false) => text.extend_from_slice(b"ack no"),
        Step::Crash(side) => push_end(text, b"crash ", *side),
        Step::Recover(side) => push_end(text, b"recover ", *side),
        Step::DownReply(side) => push_end(text, b"down ", *side),
        Step::Lose(place) => {
            text.extend_from_slice(b"lose ")?;
            push_decimal(text, *place as u64)
        }
        Step::LoseAck => text.extend_from_slice(b"lose-ack"),
    }
}

/// Appends a step's name, with the space after it, and its message.
fn push_message(text: &mut Vec<u8>, name: &[u8], message: &Bytes) -> Result<(), AllocError>
    ensures { OnOk result (text.new.items ≡ text.old.items ++ (name.now ++ hex message.now)) }
{
    text.extend_from_slice(name)?;
    push_hex(text, message.as_slice())
}

/// Appends a step's name, with the space after it, and its side.
fn push_end(text: &mut Vec<u8>, name: &[u8], side: End) -> Result<(), AllocError>
    ensures { OnOk result (text.new.items ≡ text.old.items ++ (name.now ++ letter_of side)) }
{
    text.extend_from_slice(name)?;
    push_side(text, side)
}
