//! The lines of a journal, one at a time: for one that goes on while things happen, and for one that is read in pieces.
ghost use Rattle.std.specs.Prelude.{◌≡◌, ◌≢◌, ◌++◌, ℕ, List, IfOk, IfSome, IfNone};
ghost use Rattle.amo_journal.specs.declared.numbered.Numbered.{Numbered};
ghost use Rattle.amo_journal.specs.Version.{Opens};
ghost use Rattle.amo_journal.specs.Journal.{InRange, ReadsAsLine, line_text};

use crate::spelling::keeps_line;
use crate::{Numbered, Version};
use amo_text::{LineItem, item_in_front, next_line};
use std::alloc::{AllocError, Global};

/// The first line of a journal of version 2, without its end.
const FIRST_LINE: &[u8] = b"amo 2";

/// The lines of a journal's events, or those that are left of them, and the version of the journal.
#[derive(Clone, Copy)]
pub struct Lines<'a> {
    /// The journal's version.
    pub version: Version,
    /// The lines, each with its end.
    pub text: &'a [u8],
}

/// The version of these bytes, if they are a journal, and the lines of its events. Every file that does not begin with the first line of version 2
/// is of version 1.
pub fn open(bytes: &[u8]) -> Lines<'_>
    ensures { Opens result.version result.text.now bytes.now }
{
    let version_1 = Lines {
        version: Version::One,
        text: bytes,
    };
    let Some((first, text)) = next_line(bytes) else {
        return version_1;
    };
    if first == FIRST_LINE {
        Lines {
            version: Version::Two,
            text,
        }
    } else {
        version_1
    }
}

/// The line of a journal of this version of which this is the text, without the line's end; none where it is the line of no event.
pub fn read_line(
    alloc: Global,
    version: Version,
    text: &[u8],
) -> Result<Option<Numbered>, AllocError>
    ensures { IfOk result (ReadsAsLine version text.now) }
{
    let Some(line) = Numbered::read(alloc, text)? else {
        return Ok(None);
    };
    if keeps_line(version, &line.event) {
        Ok(Some(line))
    } else {
        Ok(None)
    }
}

/// The first of these lines, and those behind it; none where no line of a journal of their version stands in front.
// An event is some 200 bytes, and is moved once less where this is part of a loop.
#[inline(always)]
pub fn line_in_front(
    alloc: Global,
    lines: Lines<'_>,
) -> Result<Option<(Numbered, Lines<'_>)>, AllocError>
    ensures some { IfOk result (λ front. IfSome front (λ f. InRange lines.entry.version f.0 × (lines.entry.text.now ≡ line_text f.0 ++ f.1.text.now) × (f.1.version ≡ lines.entry.version))) }
    ensures none { IfOk result (λ front. IfNone front ((line : Numbered) (more : List ℕ) → InRange lines.entry.version line → lines.entry.text.now ≢ line_text line ++ more)) }
{
    let Lines { version, text } = lines;
    let Some((line, text)) = item_in_front::<Numbered>(alloc, text)? else {
        return Ok(None);
    };
    if keeps_line(version, &line.event) {
        Ok(Some((line, Lines { version, text })))
    } else {
        Ok(None)
    }
}
