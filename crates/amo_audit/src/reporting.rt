//! The line that tells what was found.
ghost use Rattle.std.specs.Prelude.{◌≡◌, ◌≢◌, ◌<◌, ◌↔◌, ◌⊎◌, ◌++◌, IfOk, OnOk, OnErr, IfErr, IsErrOf};
ghost use Rattle.std.specs.Io.KnownBytes.{Appends, Keeps};
ghost use Rattle.amo_text.specs.Sink.{AppendsFront};
ghost use Rattle.amo_audit.specs.declared.judgement.Judgement.{Judgement};
ghost use Rattle.amo_audit.specs.Audit.{status_of};
ghost use Rattle.amo_audit.specs.Judgement.{JudgesFiles, judgement_status};
ghost use Rattle.amo_audit.specs.Report.{found_line, verdict_line, judgement_line};

use crate::Verdict;
use crate::judgement::Judgement;
use crate::judging::judge;
use amo_journal::JournalFault;
use amo_text::{Sink, push_decimal, write_all};
use std::alloc::{AllocError, Global};

/// The status where memory was refused.
const NO_MEMORY: u8 = 4;

/// Audits a journal, writes the line that tells what was found, and answers the exit status.
///
/// With a second file both are read first, and the first one's fault comes first: before the line of a file that is no journal
/// stands `file 1: ` or `file 2: `. Otherwise the events of both are merged, and judged as those of one journal: `shared` where a
/// side of a stream has events in both, `stuck` where no interleaving is honest; each line told later is one of the merged journal.
///
/// The line is made whole and then written. Where the sink fails, a beginning of it was appended; where memory is refused,
/// nothing was.
pub fn report<W: Sink>(
    alloc: Global,
    first: &[u8],
    second: Option<&[u8]>,
    sink: &mut W,
) -> Result<u8, JournalFault>
    ensures told { IfOk result (λ status. (j : Judgement) × JudgesFiles first.now second.entry j × (status ≡ judgement_status j) × (status ≢ 4)
        × Appends (W.written sink.old) (W.written sink.new) (judgement_line j)) }
    ensures begun { OnErr result ((j : Judgement) × JudgesFiles first.now second.entry j × AppendsFront (W.written sink.old) (W.written sink.new) (judgement_line j)) }
    ensures refused { IsErrOf result JournalFault.NoMemory → Keeps (W.written sink.old) (W.written sink.new) }
    ensures faults { IfErr result (λ fault. (fault ≡ JournalFault.NoMemory) ⊎ (fault ≡ JournalFault.Device)) }
    ensures device { IsErrOf result JournalFault.Device ↔ (W.failures sink.old < W.failures sink.new) }
{
    tell_judgement(alloc, judge(alloc, first, second), sink)
}

/// Writes the line that tells a verdict, and answers the exit status, as [`report`] does.
pub fn tell<W: Sink>(alloc: Global, verdict: Verdict, sink: &mut W) -> Result<u8, JournalFault>
    ensures told { IfOk result (λ status. (status ≡ status_of verdict) × (status ≢ 4)
        × Appends (W.written sink.old) (W.written sink.new) (verdict_line verdict)) }
    ensures begun { OnErr result (AppendsFront (W.written sink.old) (W.written sink.new) (verdict_line verdict)) }
    ensures refused { IsErrOf result JournalFault.NoMemory → Keeps (W.written sink.old) (W.written sink.new) }
    ensures faults { IfErr result (λ fault. (fault ≡ JournalFault.NoMemory) ⊎ (fault ≡ JournalFault.Device)) }
    ensures device { IsErrOf result JournalFault.Device ↔ (W.failures sink.old < W.failures sink.new) }
{
    tell_judgement(alloc, Judgement::Whole(verdict), sink)
}

/// Writes the line that tells what was found, and answers the exit status, as [`report`] does.
pub fn tell_judgement<W: Sink>(
    alloc: Global,
    judgement: Judgement,
    sink: &mut W,
) -> Result<u8, JournalFault>
    ensures told { IfOk result (λ status. (status ≡ judgement_status judgement) × (status ≢ 4)
        × Appends (W.written sink.old) (W.written sink.new) (judgement_line judgement)) }
    ensures begun { OnErr result (AppendsFront (W.written sink.old) (W.written sink.new) (judgement_line judgement)) }
    ensures refused { IsErrOf result JournalFault.NoMemory → Keeps (W.written sink.old) (W.written sink.new) }
    ensures faults { IfErr result (λ fault. (fault ≡ JournalFault.NoMemory) ⊎ (fault ≡ JournalFault.Device)) }
    ensures device { IsErrOf result JournalFault.Device ↔ (W.failures sink.old < W.failures sink.new) }
{
    let status = judgement.status();
    if status == NO_MEMORY {
        return Err(JournalFault::NoMemory);
    }
    let mut text = Vec::new(alloc);
    push_judgement(&mut text, judgement)?;
    write_all(sink, text.as_slice())?;
    Ok(status)
}

/// Appends the line that tells what was found of one file, or of two.
fn push_judgement(text: &mut Vec<u8>, judgement: Judgement) -> Result<(), AllocError>
    ensures { OnOk result (text.new.items ≡ text.old.items ++ judgement_line judgement) }
{
    match judgement {
        Judgement::Whole(verdict) => push_verdict(text, verdict),
        Judgement::First(verdict) => {
            text.extend_from_slice(b"file 1: ")?;
            push_verdict(text, verdict)
        }
        Judgement::Second(verdict) => {
            text.extend_from_slice(b"file 2: ")?;
            push_verdict(text, verdict)
        }
        Judgement::Shared => text.extend_from_slice(b"shared\n"),
        Judgement::Stuck => text.extend_from_slice(b"stuck\n"),
    }
}

/// Appends the line that tells a verdict; for want of memory there is none.
fn push_verdict(text: &mut Vec<u8>, verdict: Verdict) -> Result<(), AllocError>
    ensures { OnOk result (text.new.items ≡ text.old.items ++ verdict_line verdict) }
{
    match verdict {
        Verdict::Yes => text.extend_from_slice(b"yes\n"),
        Verdict::Malformed(line) => push_found(text, b"malformed", line),
        Verdict::Gap(line) => push_found(text, b"gap", line),
        Verdict::WrongReply(line) => push_found(text, b"wrong reply", line),
        Verdict::Unsent(line) => push_found(text, b"unsent", line),
        Verdict::Repeat(line) => push_found(text, b"repeat", line),
        Verdict::NoMemory => Ok(()),
    }
}

/// Appends the line that tells what was found, and at which line.
fn push_found(text: &mut Vec<u8>, what: &[u8], line: usize) -> Result<(), AllocError>
    ensures { OnOk result (text.new.items ≡ text.old.items ++ found_line what.now line) }
{
    text.extend_from_slice(what)?;
    text.extend_from_slice(b" at line ")?;
    push_decimal(text, line as u64)?;
    text.push(b'\n')?;
    Ok(())
}
