//! A journal whose text comes part by part, wherever the parts end.
ghost use Rattle.std.specs.Prelude.{◌≡◌, ◌≤◌, ◌-◌, ◌↔◌, ◌++◌, [], false, List, ℕ, length, drop, IfOk, IsTrue, OnOk};
ghost use Rattle.amo_pieces.specs.Journal.{IsWhole};
ghost use Rattle.amo_audit.specs.Audit.{Judges};
ghost use Rattle.amo_audit.specs.Parts.{AreLinesIn, HasCome, HasFirstLine, IsOpened, MayBeJudged};

use crate::Verdict;
use crate::judged_lines::JudgedLines;
use amo_journal::{Lines, Version, open};
use amo_text::next_line;
use amo_world::NoMemory;
use std::alloc::{AllocError, Global};

/// A journal whose text comes part by part. Of the text only the line that has not come whole is kept.
#[derive(Drop)]
pub(crate) struct TextAudit {
    alloc: Global,
    judged: JudgedLines,
    /// The version, once the first line has come.
    version: Option<Version>,
    /// What has come of the line that is to be read.
    rest: Vec<u8>,
    /// Whether each line that has come has its end.
    is_whole: bool,
}

impl TextAudit {
    /// Nothing has come yet.
    pub(crate) fn new(alloc: Global) -> Result<TextAudit, NoMemory>
        ensures { IfOk result (λ audit. HasCome audit []) }
    {
        Ok(TextAudit {
            alloc,
            judged: JudgedLines::new(alloc)?,
            version: None,
            rest: Vec::new(alloc),
            is_whole: true,
        })
    }

    /// Whether each line that has come has its end.
    pub(crate) fn is_whole(&self) -> bool
        ensures { (text : List ℕ) → HasCome self.now text → IsTrue result ↔ IsWhole text }
    {
        self.is_whole
    }

    /// The journal's version, once its first line has come.
    pub(crate) fn version(&self) -> Option<Version>
        ensures { result ≡ self.now.version }
    {
        self.version
    }

    /// Takes the next part of the text, and judges the lines that are whole now. Where memory is refused, it is of no more use.
    pub(crate) fn push(&mut self, bytes: &[u8]) -> Result<(), AllocError>
        ensures { OnOk result ((text : List ℕ) → HasCome self.old text → HasCome self.new (text ++ bytes.now)) }
    {
        if bytes.is_empty() {
            return Ok(());
        }
        self.is_whole = is_whole(bytes);
        if self.judged.is_malformed() {
            return Ok(());
        }
        self.rest.extend_from_slice(bytes)?;
        match next_line(bytes) {
            Some(_) => {
                self.judge()?;
                Ok(())
            }
            None => Ok(()),
        }
    }

    /// Judges the lines that are whole: the first one, at least.
    fn judge(&mut self) -> Result<(), AllocError>
        requires { self.old.judged.is_malformed ≡ false }
        ensures judged { OnOk result ((text : List ℕ) → HasFirstLine text → MayBeJudged self.old.judged self.old.version self.old.rest.items text
            → IsOpened self.new.judged self.new.version self.new.rest.items text) }
        ensures same { OnOk result (self.new.is_whole ≡ self.old.is_whole) }
    {
        let lines = lines_in(self.version, self.rest.as_slice());
        let version = lines.version;
        let rest = self.judged.read_on(self.alloc, lines)?;
        let left = rest.text.len();
        self.version = Some(version);
        keep_last(&mut self.rest, left);
        Ok(())
    }

    /// What the text is judged to be, if no more comes.
    pub(crate) fn verdict(&self) -> Verdict
        requires { (text : List ℕ) × HasCome self.now text }
        ensures { (text : List ℕ) → HasCome self.now text → Judges text result }
    {
        let lines = lines_in(self.version, self.rest.as_slice());
        self.judged
            .verdict(lines.text)
            .further(lines.version.lines_before())
    }
}

/// The lines of events in a text, or in what is left of one where its version is known.
fn lines_in(version: Option<Version>, text: &[u8]) -> Lines<'_>
    ensures { AreLinesIn version text.now result }
{
    match version {
        Some(version) => Lines { version, text },
        None => open(text),
    }
}

/// Whether each line of the text has its end.
pub(crate) fn is_whole(text: &[u8]) -> bool
    ensures { IsTrue result ↔ IsWhole text.now }
{
    matches!(text, [] | [.., b'\n'])
}

/// Keeps the last bytes of these, so many. It moves none where those are all, as of a line that goes on from block to block.
pub(crate) fn keep_last(bytes: &mut Vec<u8>, count: usize)
    requires { count ≤ length bytes.old.items }
    ensures { bytes.new.items ≡ drop (length bytes.old.items - count) bytes.old.items }
{
    let length = bytes.len();
    if count < length {
        bytes.copy_within(length - count..length, 0);
        bytes.truncate(count);
    }
}
