//! Lines of events that come one after another, and are judged on the way.
ghost use Rattle.std.specs.Prelude.{◌≡◌, ◌+◌, ◌<◌, ◌^◌, ◌++◌, ◌∷◌, [], false, true, ℕ, List, IfOk, OnOk};
ghost use Rattle.amo_packet.specs.Stream.{IsStream};
ghost use Rattle.amo_text.specs.Line.{Lacks};
ghost use Rattle.amo_journal.specs.declared.numbered.Numbered.{Numbered};
ghost use Rattle.amo_journal.specs.declared.version.Version.{Version};
ghost use Rattle.amo_audit.specs.Audit.{line_named};
ghost use Rattle.amo_audit.specs.Parts.{GathersIn, HasJudged, IsJudgedTo, JudgesBody};

use crate::Verdict;
use crate::auditor::Auditor;
use amo_journal::{Lines, Numbered, TakeEvents, line_in_front};
use amo_text::next_line;
use amo_world::NoMemory;
use std::alloc::{AllocError, Global};

/// The most lines that are judged, so that each has a number and a place that can be told.
const MOST: usize = usize::MAX - 2;

/// Lines of events that were read and judged. Of a line nothing is kept but what judging later events needs.
#[derive(Drop)]
pub(crate) struct JudgedLines {
    auditor: Auditor,
    /// How many lines there are in front of one that is malformed.
    lines: usize,
    /// The first line whose number is not how many are in front of it. Events behind it are not judged.
    gap: Option<usize>,
    /// Whether the line behind them is malformed.
    is_malformed: bool,
}

impl JudgedLines {
    /// No line was judged yet.
    pub(crate) fn new(alloc: Global) -> Result<JudgedLines, NoMemory>
        ensures good { IfOk result (λ judged. judged.is_malformed ≡ false) }
        ensures none { IfOk result (λ judged. (version : Version) (body : List ℕ) → HasJudged judged version body body) }
    {
        Ok(JudgedLines {
            auditor: Auditor::new(alloc)?,
            lines: 0,
            gap: None,
            is_malformed: false,
        })
    }

    /// Whether a line is malformed. Those behind it are not read.
    pub(crate) fn is_malformed(&self) -> bool
        ensures { result ≡ self.now.is_malformed }
    {
        self.is_malformed
    }

    /// Judges those of these lines that are whole, and answers what is left. Where memory is refused, they are of no more use.
    pub(crate) fn read_on<'a>(
        &mut self,
        alloc: Global,
        lines: Lines<'a>,
    ) -> Result<Lines<'a>, AllocError>
        requires { self.old.is_malformed ≡ false }
        ensures rest { IfOk result (λ rest. (front : List ℕ) × (lines.entry.text.now ≡ front ++ rest.text.now)) }
        ensures judged { IfOk result (λ rest. (body : List ℕ) → HasJudged self.old lines.entry.version body lines.entry.text.now
            → IsJudgedTo self.new self.new.is_malformed lines.entry.version body rest.text.now) }
    {
        let mut rest = lines;
        while !rest.text.is_empty() {
            if self.lines >= MOST {
                return Err(AllocError);
            }
            let Some((line, more)) = line_in_front(alloc, rest)? else {
                self.is_malformed = has_end(rest.text);
                return Ok(rest);
            };
            self.take(line)?;
            rest = more;
        }
        Ok(rest)
    }

    /// Judges one line more.
    fn take(&mut self, line: Numbered) -> Result<(), AllocError>
        requires stream { IsStream line.event.stream }
        requires few { self.old.lines + 1 < 2 ^ 64 }
        ensures gathers { OnOk result ((lines : List Numbered) → GathersIn self.old lines → GathersIn self.new (lines ++ line ∷ [])) }
        ensures counted { self.new.lines ≡ self.old.lines + 1 }
        ensures well { self.new.is_malformed ≡ self.old.is_malformed }
    {
        let number = self.lines;
        self.lines += 1;
        match self.gap {
            Some(_) => Ok(()),
            None if line.number == number as u64 => self.auditor.take(number, line.event),
            None => {
                self.gap = Some(number + 1);
                Ok(())
            }
        }
    }

    /// What lines are judged to be, of which these bytes are left and no more follow.
    pub(crate) fn verdict(&self, rest: &[u8]) -> Verdict
        requires { (version : Version) × (body : List ℕ) × IsJudgedTo self.now self.now.is_malformed version body rest.now }
        ensures judged { (version : Version) (body : List ℕ) → IsJudgedTo self.now self.now.is_malformed version body rest.now → JudgesBody version body result }
        ensures few { line_named result + 1 < 2 ^ 64 }
    {
        if self.is_malformed {
            return Verdict::Malformed(self.lines + 1);
        }
        if !rest.is_empty() {
            return Verdict::Malformed(self.lines + 1);
        }
        match self.gap {
            Some(line) => Verdict::Gap(line),
            None => self.auditor.verdict(),
        }
    }
}

/// Whether a line has its end in these bytes.
pub(crate) fn has_end(bytes: &[u8]) -> bool
    ensures some { result ≡ true → (text : List ℕ) × (behind : List ℕ) × (bytes.now ≡ text ++ 10 ∷ behind) × Lacks 10 text }
    ensures none { result ≡ false → Lacks 10 bytes.now }
{
    match next_line(bytes) {
        Some(_) => true,
        None => false,
    }
}
