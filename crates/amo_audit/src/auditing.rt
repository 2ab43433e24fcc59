//! The audit of bytes.
ghost use Rattle.std.specs.Prelude.{◌≡◌, ◌⊎◌, List, reverse};
ghost use Rattle.amo_world.specs.declared.event.Event.{Event};
ghost use Rattle.amo_journal.specs.Journal.{IsJournal};
ghost use Rattle.amo_audit.specs.Audit.{IsSound, Judges, JudgesLines};

use crate::Verdict;
use crate::auditor::Auditor;
use crate::reading::take_told;
use amo_journal::{Lines, open};
use std::alloc::Global;

/// Judges bytes as a journal of either version, in one pass over their lines. A malformed line comes before a gap, and a gap before an event
/// at fault; of the events the first one counts. Of a line it keeps what judging later events needs, and not its text.
pub fn audit(alloc: Global, bytes: &[u8]) -> Verdict
    ensures judged { Judges bytes.now result }
    ensures complete { (events : List Event) → IsJournal events bytes.now → IsSound (reverse events)
        → (result ≡ Verdict.Yes) ⊎ (result ≡ Verdict.NoMemory) }
{
    let lines = open(bytes);
    audit_lines(alloc, lines).further(lines.version.lines_before())
}

/// Judges the lines of a journal's events, which the verdict counts from 1.
fn audit_lines(alloc: Global, lines: Lines<'_>) -> Verdict
    ensures { JudgesLines lines.entry result }
{
    let Ok(auditor) = Auditor::new(alloc) else {
        return Verdict::NoMemory;
    };
    match take_told(alloc, lines, auditor) {
        Ok(auditor) => auditor.verdict(),
        Err(verdict) => verdict,
    }
}
