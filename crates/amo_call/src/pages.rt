//! What a door tells of its journal.
ghost use Rattle.std.specs.Prelude.{◌≡◌, ℕ, ◌<◌, List, [], ◌++◌, ◌∷◌, true, IfNone, IfOk, IfSome, OnOk, codes};
ghost use Rattle.amo_door.specs.Answer.{got_front, got_message, line_value, more_end};
ghost use Rattle.amo_call.specs.Pages.{TellsLines, TellsNextLine, TellsPage, first_line, line_behind};

use crate::answer::Response;
use crate::scan::{before, behind, behind_number, number_before, quoted_in_front};
use amo_door::{Answer, GotMessage, GotPage};
use amo_packet::{MAX_MESSAGE, Message, MessageFault};
use amo_text::{next_line, read_decimal, read_hex};
use std::alloc::{AllocError, AllocFailed, Global};

/// The name of the measure of the number of a journal's next line, with the space behind it.
const NEXT_LINE: &[u8] = b"amo_journal_next_line ";

/// What stands behind the messages of a page that tells of no line.
const NO_LINES: &[u8] = b"],\"from\":null,\"next\":null,\"more\":false}";

/// A page of what was got of a stream, as far as it is of use to who wants the first message of it.
#[derive(Drop)]
pub struct Page {
    /// The first message.
    pub first: Option<GotMessage>,
    /// Which lines were read.
    pub lines: PageLines,
}

/// The lines that a page tells of.
#[derive(Clone, Copy, PartialEq, Eq)]
pub struct PageLines {
    /// The number of the first one that was read.
    pub from: u64,
    /// The number of the one behind those that were read.
    pub behind: u64,
    /// Whether there are more.
    pub more: bool,
}

/// The number of the journal's next line, where an answer tells what the host counted.
pub fn read_next_line(response: &Response) -> Option<u64>
    ensures found { IfSome result (λ line. TellsNextLine line response.now) }
    ensures none { IfNone result ((line : ℕ) → ¬ (TellsNextLine line response.now)) }
{
    if response.status != 200 {
        return None;
    }
    let mut rest = response.body.as_slice();
    'lines: for _line in 0..rest.len() {
        let (text, more) = next_line(rest)?;
        if let Some(digits) = behind(text, NEXT_LINE) {
            return read_decimal(digits);
        }
        rest = more;
    }
    None
}

/// The page that an answer is to who asked from this line of the journal on.
pub fn read_page(
    alloc: Global,
    response: &Response,
    stream: u32,
    from: u64,
) -> Result<Option<Page>, AllocError>
    ensures found { IfOk result (λ read. IfSome read (λ page. TellsPage stream from page response.now)) }
    ensures goes_on { IfOk result (λ read. IfSome read (λ page. page.lines.more ≡ true → from < page.lines.behind)) }
{
    if response.status != 200 {
        return Ok(None);
    }
    let body = response.body.as_slice();
    let Some(lines) = read_lines(body, from) else {
        return Ok(None);
    };
    let Some(got) = behind_front(body, stream) else {
        return Ok(None);
    };
    if let Some(_rest) = behind(got, b"]") {
        return Ok(Some(Page { first: None, lines }));
    }
    let Some(first) = read_first(alloc, got)? else {
        return Ok(None);
    };
    match as_told(alloc, body, stream, first)? {
        Some(first) => Ok(Some(Page {
            first: Some(first),
            lines,
        })),
        None => Ok(None),
    }
}

/// A message, where a page of this stream begins with it.
fn as_told(
    alloc: Global,
    body: &[u8],
    stream: u32,
    first: GotMessage,
) -> Result<Option<GotMessage>, AllocError>
    ensures { IfOk result (λ told. IfSome told (λ got. (rest : List ℕ) × (body.now ≡ got_front stream ++ got_message got ++ rest))) }
{
    let mut messages = Vec::new(alloc);
    push(&mut messages, first)?;
    let mut page = GotPage {
        messages,
        from: None,
        next: None,
        more: false,
    };
    let told = Answer::got(alloc, stream, &page)?;
    // What stands behind the messages is told of other lines.
    let Some(front) = before(told.body.as_slice(), NO_LINES) else {
        return Ok(None);
    };
    match behind(body, front) {
        Some(_rest) => Ok(page.messages.pop()),
        None => Ok(None),
    }
}

/// What stands behind the front of a page of this stream.
fn behind_front(body: &[u8], stream: u32) -> Option<&[u8]>
    ensures { IfSome result (λ rest. body.now ≡ got_front stream ++ rest.now) }
{
    let rest = behind_number(behind(body, b"{\"stream\":")?, stream as u64, b',')?;
    behind(rest, b"\"got\":[")
}

/// Which lines a page tells of, to who asked from this one on: no bracket stands behind its messages. None where it tells of more lines and of none that was
/// read: who went on behind it would ask for the same page without end.
fn read_lines(body: &[u8], from: u64) -> Option<PageLines>
    ensures tells { IfSome result (λ lines. TellsLines from lines body.now) }
    ensures goes_on { IfSome result (λ lines. lines.more ≡ true → from < lines.behind) }
{
    let parts = last_cut(body, b']')?;
    let named = read_names(parts.1)?;
    let lines = lines_of(from, named.0, named.1, named.2);
    if lines.more && lines.behind <= from {
        return None;
    }
    Some(lines)
}

/// The first line and the last one that the end of a page names, and whether it tells of more.
fn read_names(end: &[u8]) -> Option<(Option<u64>, Option<u64>, bool)>
    ensures { IfSome result (λ named. end.now ≡ codes ",\"from\":" ++ line_value named.0 ++ codes ",\"next\":" ++ line_value named.1 ++ more_end named.2) }
{
    let names = behind(end, b",\"from\":")?;
    let (first, rest) = line_before(names)?;
    let next = behind(rest, b"\"next\":")?;
    let (last, tail) = line_before(next)?;
    let more = read_more(tail)?;
    Some((first, last, more))
}

/// Whether there are more lines, in what is behind the comma at the last one.
fn read_more(text: &[u8]) -> Option<bool>
    ensures { IfSome result (λ more. 44 ∷ text.now ≡ more_end more) }
{
    match text {
        b"\"more\":true}" => Some(true),
        b"\"more\":false}" => Some(false),
        _ => None,
    }
}

/// The lines that a page tells of which names these, to who asked from this one on.
fn lines_of(from: u64, first: Option<u64>, last: Option<u64>, more: bool) -> PageLines
    ensures { result ≡ record { from = first_line first from; behind = line_behind last from; more = more } }
{
    let behind = match last {
        Some(last) => last.saturating_add(1),
        None => from,
    };
    PageLines {
        from: first.unwrap_or(from),
        behind,
        more,
    }
}

/// What stands in front of the last such byte, and behind it.
fn last_cut(text: &[u8], byte: u8) -> Option<(&[u8], &[u8])>
    ensures { IfSome result (λ parts. text.now ≡ parts.0.now ++ byte ∷ parts.1.now) }
{
    for back in 0..text.len() {
        let place = text.len() - 1 - back;
        if text[place] == byte {
            return Some((&text[..place], &text[place + 1..]));
        }
    }
    None
}

/// The number of a line, or null, in front of a text up to a comma, and what stands behind that.
fn line_before(text: &[u8]) -> Option<(Option<u64>, &[u8])>
    ensures { IfSome result (λ parts. text.now ≡ line_value parts.0 ++ 44 ∷ parts.1.now) }
{
    if let Some(rest) = behind(text, b"null,") {
        return Some((None, rest));
    }
    let (line, rest) = number_before(text, b',')?;
    Some((Some(line), rest))
}

/// The message in front of those of a page.
fn read_first(alloc: Global, got: &[u8]) -> Result<Option<GotMessage>, AllocError> {
    let Some((line, rest)) = read_line(got) else {
        return Ok(None);
    };
    let bytes = if let Some(digits) = rest.strip_prefix(b"\"hex\":\"") {
        bytes_of_hex(alloc, digits)?
    } else if let Some(text) = rest.strip_prefix(b"\"text\":\"") {
        bytes_of_text(alloc, text)?
    } else {
        None
    };
    let Some(bytes) = bytes else {
        return Ok(None);
    };
    match Message::copy(alloc, bytes.as_slice()) {
        Ok(message) => Ok(Some(GotMessage { line, message })),
        Err(MessageFault::NoMemory) => Err(AllocError),
        Err(MessageFault::TooLong) => Ok(None),
    }
}

/// The number of a message's line, and what stands behind it.
fn read_line(got: &[u8]) -> Option<(u64, &[u8])> {
    number_before(behind(got, b"{\"line\":")?, b',')
}

/// The bytes that HEX in front of a quote spells.
fn bytes_of_hex(alloc: Global, text: &[u8]) -> Result<Option<Vec<u8>>, AllocError> {
    let mut room = [0; MAX_MESSAGE];
    let Some((digits, _rest)) = quoted_in_front(text) else {
        return Ok(None);
    };
    match read_hex(digits, &mut room) {
        Some(count) => Ok(Some(Vec::from_slice(alloc, &room[..count])?)),
        None => Ok(None),
    }
}

/// The bytes that a string of JSON has, up to its quote. Of what is set off by a backslash it knows the quote and the backslash: no message that is shown
/// as a text has more.
fn bytes_of_text(alloc: Global, text: &[u8]) -> Result<Option<Vec<u8>>, AllocError> {
    let mut bytes = Vec::new(alloc);
    let mut is_set_off = false;
    for byte in text {
        if !is_set_off && *byte == b'"' {
            return Ok(Some(bytes));
        }
        is_set_off = !is_set_off && *byte == b'\\';
        if !is_set_off {
            bytes.push(*byte)?;
        }
    }
    Ok(None)
}

/// Puts a message at a list's end.
fn push(messages: &mut Vec<GotMessage>, message: GotMessage) -> Result<(), AllocError>
    ensures { OnOk result (messages.new.items ≡ messages.old.items ++ message ∷ []) }
{
    match messages.push(message) {
        Ok(()) => Ok(()),
        Err(AllocFailed { .. }) => Err(AllocError),
    }
}
