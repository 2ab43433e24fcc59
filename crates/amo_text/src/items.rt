//! Files of lines: each line spells an item, as an act of a schedule or an event of a journal.
ghost use Rattle.std.specs.Prelude.{◌≡◌, ◌≢◌, ℕ, List, ◌++◌, IfOk, IfErr, IfSome, IfNone};
ghost use Rattle.amo_text.specs.Items.{item_line, ReadsAs, SpellsItems, AreLines, IsMalformedAt, Faults};

use crate::next_line;
use std::alloc::{AllocError, AllocFailed, Global};
use thiserror::Error;

/// What one line of a file spells.
pub trait LineItem: Sized {
    ghost use Rattle.std.specs.Prelude.{ℕ, List};
    ghost use Rattle.amo_text.specs.Line.{IsLine};

    /// The fields of its line.
    ghost fields_of: { Self → List (List ℕ) };

    /// Which items there are: those whose numbers and bytes are within their limits.
    ghost InRange: { Self → Type 0 };

    /// The item of which this text is the line, without the line's end; none where it is the line of no item.
    fn read(alloc: Global, text: &[u8]) -> Result<Option<Self>, AllocError>
        ensures { IfOk result (λ read. ReadsAs fields_of InRange text.now read) };

    /// The law of items: their fields are those of a line. It does nothing.
    fn fields_are_a_line()
        ensures { (item : Self) → InRange item → IsLine (fields_of item) };
}

/// What one line of a file spells, where its line is also known without being read. That takes no memory.
pub trait CheckedItem: LineItem {
    ghost use Rattle.std.specs.Prelude.{◌≡◌, ◌↔◌, IsTrue};
    ghost use Rattle.amo_text.specs.Line.{text_of};

    /// Whether this text is the line of an item, without the line's end.
    fn is_line(text: &[u8]) -> bool
        ensures { IsTrue result ↔ ((item : Self) × Self.InRange item × (text.now ≡ text_of (Self.fields_of item))) };
}

/// Why bytes are no file of such lines.
#[derive(Clone, Copy, Debug, PartialEq, Eq, Error)]
pub enum LinesFault {
    /// Memory was refused. The caller may try again later.
    #[error("out of memory")]
    NoMemory,
    /// This line, counted from 1, is the first that is malformed. The file's writer is at fault.
    #[error("line {0} is malformed")]
    Malformed(usize),
}

impl From<AllocError> for LinesFault {
    ghost use Rattle.amo_text.specs.declared.items.LinesFault.TheVariants.{NoMemory};

    ghost from_gives = { λ _ fault. fault ≡ NoMemory };

    fn from(_error: AllocError) -> LinesFault {
        LinesFault::NoMemory
    }
}

impl<T: Drop> From<AllocFailed<T>> for LinesFault {
    ghost use Rattle.amo_text.specs.declared.items.LinesFault.TheVariants.{NoMemory};

    ghost from_gives = { λ _ fault. fault ≡ NoMemory };

    fn from(_error: AllocFailed<T>) -> LinesFault {
        LinesFault::NoMemory
    }
}

/// The item whose line stands in front of these bytes, and what is behind it; none where no line does.
pub fn item_in_front<I: LineItem>(
    alloc: Global,
    bytes: &[u8],
) -> Result<Option<(I, &[u8])>, AllocError>
    ensures some { IfOk result (λ front. IfSome front (λ f. I.InRange f.0 × (bytes.now ≡ item_line I.fields_of I.InRange f.0 ++ f.1.now))) }
    ensures none { IfOk result (λ front. IfNone front (
        (item : I) (more : List ℕ) → I.InRange item → bytes.now ≢ item_line I.fields_of I.InRange item ++ more)) }
{
    I::fields_are_a_line();
    let Some((text, more)) = next_line(bytes) else {
        return Ok(None);
    };
    match I::read(alloc, text)? {
        Some(item) => Ok(Some((item, more))),
        None => Ok(None),
    }
}

/// Reads the items that bytes spell, a line each.
pub fn read_items<I: LineItem + Drop>(alloc: Global, bytes: &[u8]) -> Result<Vec<I>, LinesFault>
    ensures spelt { IfOk result (λ items. SpellsItems I.fields_of I.InRange bytes.now items.items) }
    ensures fault { IfErr result (λ fault. Faults I.fields_of I.InRange bytes.now fault) }
{
    I::fields_are_a_line();
    let mut items = Vec::new(alloc);
    let mut rest = bytes;
    while !rest.is_empty() {
        let Some((item, more)) = item_in_front::<I>(alloc, rest)? else {
            return Err(LinesFault::Malformed(items.len() + 1));
        };
        items.push(item)?;
        rest = more;
    }
    Ok(items)
}

/// The first line, counted from 1, that is malformed; none where each line is one. It takes no memory.
pub fn first_malformed<I: CheckedItem>(bytes: &[u8]) -> Option<usize>
    ensures found { IfSome result (λ number. IsMalformedAt I.fields_of I.InRange bytes.now number) }
    ensures none { IfNone result (AreLines I.fields_of I.InRange bytes.now) }
{
    I::fields_are_a_line();
    let mut rest = bytes;
    let mut number = 0;
    while !rest.is_empty() {
        number += 1;
        let Some(more) = behind_line::<I>(rest) else {
            return Some(number);
        };
        rest = more;
    }
    None
}

/// What is behind the first line, where that is the line of an item.
fn behind_line<I: CheckedItem>(bytes: &[u8]) -> Option<&[u8]>
    ensures some { IfSome result (λ more. (item : I) × I.InRange item × (bytes.now ≡ item_line I.fields_of I.InRange item ++ more.now)) }
    ensures none { IfNone result ((item : I) (more : List ℕ) → I.InRange item → bytes.now ≢ item_line I.fields_of I.InRange item ++ more) }
{
    I::fields_are_a_line();
    let (text, more) = next_line(bytes)?;
    if I::is_line(text) { Some(more) } else { None }
}
