//! Which messages of a stream lines of a journal say were got.
ghost use Rattle.std.specs.Prelude.{◌≡◌, ◌↔◌, ◌++◌, ◌∷◌, List, IfOk, IfSome, IsTrue, OnOk};
ghost use Rattle.amo_journal.specs.declared.numbered.Numbered.{Numbered};
ghost use Rattle.amo_journal.specs.Journal.{InRange, line_text};
ghost use Rattle.amo_archive.specs.Records.{BeginsWith, Follows, Tells, behind, got_at, listed};

use amo_door::{GotMessage, GotPage};
use amo_journal::{Lines, Numbered, line_in_front};
use amo_world::{Act, Reply};
use std::alloc::{AllocError, AllocFailed, Global};

/// The messages that a stream's gets answered, as the lines tell it that stand in a row in front: those of greater numbers than this one, if one is
/// given. Answers what is left behind these lines, too: nothing, or what begins with no line or with one of another number.
///
/// Whether there are more lines it does not tell.
pub fn read_gets<'a>(
    alloc: Global,
    lines: Lines<'a>,
    stream: u32,
    after: Option<u64>,
) -> Result<(GotPage, Lines<'a>), AllocError>
    ensures { IfOk result (λ read. (past : List Numbered) × BeginsWith lines.entry.version past read.1.text.now lines.entry.text.now × Tells stream after past read.0) }
{
    let mut page = GotPage {
        messages: Vec::new(alloc),
        from: None,
        next: None,
        more: false,
    };
    let mut rest = lines;
    while !rest.text.is_empty() {
        let Some((line, more)) = next_in_row(alloc, rest, page.next)? else {
            return Ok((page, rest));
        };
        take(&mut page, line, stream, after)?;
        rest = more;
    }
    Ok((page, rest))
}

/// The line in front, if there is one and it follows on the one of this number.
pub(crate) fn next_in_row<'a>(
    alloc: Global,
    lines: Lines<'a>,
    last: Option<u64>,
) -> Result<Option<(Numbered, Lines<'a>)>, AllocError>
    ensures { IfOk result (λ front. IfSome front (λ f. InRange lines.entry.version f.0 × (lines.entry.text.now ≡ line_text f.0 ++ f.1.text.now) × (f.1.version ≡ lines.entry.version) × Follows last f.0.number)) }
{
    match line_in_front(alloc, lines)? {
        Some((line, more)) if follows(last, line.number) => Ok(Some((line, more))),
        _ => Ok(None),
    }
}

/// Whether a line of this number follows on the one of that, if there is one.
fn follows(last: Option<u64>, number: u64) -> bool
    ensures { IsTrue result ↔ Follows last number }
{
    match last {
        Some(last) => last.checked_add(1) == Some(number),
        None => true,
    }
}

/// One line more was read.
fn take(
    page: &mut GotPage,
    line: Numbered,
    stream: u32,
    after: Option<u64>,
) -> Result<(), AllocError>
    ensures { OnOk result ((past : List Numbered) → Tells stream after past page.old → Tells stream after (line ∷ past) page.new) }
{
    let number = line.number;
    page.next = Some(number);
    if !is_behind(after, number) {
        return Ok(());
    }
    page.from = Some(page.from.unwrap_or(number));
    push_some(&mut page.messages, message_got(line, stream))
}

/// The message that a line says was got of a stream, if it says so.
fn message_got(line: Numbered, stream: u32) -> Option<GotMessage>
    ensures { listed result ≡ got_at stream line }
{
    let Numbered { number, event } = line;
    if event.stream != stream {
        return None;
    }
    match (event.act, event.reply) {
        (Act::Get, Reply::Got(message)) => Some(GotMessage {
            line: number,
            message,
        }),
        _ => None,
    }
}

/// Whether this number is behind that one, if there is one.
fn is_behind(after: Option<u64>, number: u64) -> bool
    ensures { result ≡ behind after number }
{
    match after {
        Some(after) => after < number,
        None => true,
    }
}

/// Puts a message at a list's end, if there is one.
fn push_some(messages: &mut Vec<GotMessage>, message: Option<GotMessage>) -> Result<(), AllocError>
    ensures { OnOk result (messages.new.items ≡ messages.old.items ++ listed message) }
{
    let Some(message) = message else {
        return Ok(());
    };
    match messages.push(message) {
        Ok(()) => Ok(()),
        Err(AllocFailed { .. }) => Err(AllocError),
    }
}
