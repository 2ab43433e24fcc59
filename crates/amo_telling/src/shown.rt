//! The lines that are written.
ghost use Rattle.std.specs.Prelude.{◌≡◌, ◌++◌, OnOk};
ghost use Rattle.std.specs.List.{flat_map, list_any};
ghost use Rattle.std.specs.Str.{chars};
ghost use Rattle.amo_telling.specs.Shown.{escaped, event_shown, got_line, hex_shown, is_hidden, is_text, line_end, line_front, message_shown, outcome_field, outcome_line, outcome_members, text_shown};
ghost use Rattle.amo_telling.specs.Unanswered.{settled_line, told_field, told_front, told_line, told_member};

use crate::put_outcome::PutOutcome;
use crate::unanswered::Told;
use amo_outcomes::{Outcome, SenderOutcome};
use amo_text::{push_decimal, push_hex};
use std::alloc::AllocError;
use std::str;

/// Appends the line of a message that was got.
pub(crate) fn push_got(
    text: &mut Vec<u8>,
    number: u64,
    stream: u32,
    message: &[u8],
    json: bool,
) -> Result<(), AllocError>
    ensures { OnOk result (text.new.items ≡ text.old.items ++ got_line json number stream message.now) }
{
    push_front(text, number, stream, json)?;
    push_event(text, json)?;
    push_end(text, message, json)
}

/// Appends what happened, which a line of fields leaves out.
fn push_event(text: &mut Vec<u8>, json: bool) -> Result<(), AllocError>
    ensures { OnOk result (text.new.items ≡ text.old.items ++ event_shown json) }
{
    if json {
        text.extend_from_slice(b"\"event\":\"got\",")
    } else {
        Ok(())
    }
}

/// Appends the line of a message that was put.
pub(crate) fn push_outcome(
    text: &mut Vec<u8>,
    number: u64,
    stream: u32,
    outcome: PutOutcome,
    message: &[u8],
    json: bool,
) -> Result<(), AllocError>
    ensures { OnOk result (text.new.items ≡ text.old.items ++ outcome_line json number stream outcome message.now) }
{
    push_front(text, number, stream, json)?;
    if json {
        text.extend_from_slice(members_of(outcome).as_bytes())?;
    } else {
        text.extend_from_slice(field_of(outcome).as_bytes())?;
    }
    push_end(text, message, json)
}

/// Appends the line by which a sender that starts again tells of a message of an earlier life.
pub(crate) fn push_told(
    text: &mut Vec<u8>,
    number: u64,
    stream: u32,
    told: Told,
    message: &[u8],
    json: bool,
) -> Result<(), AllocError>
    ensures { OnOk result (text.new.items ≡ text.old.items ++ told_line json number stream told message.now) }
{
    push_told_front(text, number, stream, told, json)?;
    push_end(text, message, json)
}

/// Appends the front of such a line, up to the message.
fn push_told_front(
    text: &mut Vec<u8>,
    number: u64,
    stream: u32,
    told: Told,
    json: bool,
) -> Result<(), AllocError>
    ensures { OnOk result (text.new.items ≡ text.old.items ++ told_front json number stream told) }
{
    if json {
        text.extend_from_slice(b"{\"stream\":")?;
        push_decimal(text, stream as u64)?;
        text.extend_from_slice(told_member(told).as_bytes())?;
        push_decimal(text, number)?;
        text.extend_from_slice(b",")
    } else {
        push_decimal(text, stream as u64)?;
        text.extend_from_slice(told_field(told).as_bytes())
    }
}

/// Appends the line by which a sender that starts again tells that what became of a stream's messages is settled that were told as unknown before.
pub(crate) fn push_settled(text: &mut Vec<u8>, stream: u32, json: bool) -> Result<(), AllocError>
    ensures { OnOk result (text.new.items ≡ text.old.items ++ settled_line json stream) }
{
    if json {
        text.extend_from_slice(b"{\"stream\":")?;
        push_decimal(text, stream as u64)?;
        text.extend_from_slice(b",\"event\":\"settled\"}\n")
    } else {
        push_decimal(text, stream as u64)?;
        text.extend_from_slice(b" settled\n")
    }
}

/// What is told of a put of an earlier life, as a field of a line.
fn told_field(told: Told) -> &'static str
    ensures { result.now ≡ told_field told }
{
    match told {
        Told::Gone => " gone ",
        Told::Unknown => " unknown ",
    }
}

/// What is told of it, as members of an object, up to the number of its line.
fn told_member(told: Told) -> &'static str
    ensures { result.now ≡ told_member told }
{
    match told {
        Told::Gone => ",\"event\":\"gone\",\"line\":",
        Told::Unknown => ",\"event\":\"unknown\",\"line\":",
    }
}

/// What is told of a put, as a field of a line.
fn field_of(outcome: PutOutcome) -> &'static str
    ensures { result.now ≡ outcome_field outcome }
{
    match outcome {
        PutOutcome::ByBoth(Outcome::Got) | PutOutcome::BySender(SenderOutcome::Got) => "got ",
        PutOutcome::ByBoth(Outcome::Gone) | PutOutcome::BySender(SenderOutcome::Gone) => "gone ",
        PutOutcome::ByBoth(Outcome::Open) | PutOutcome::BySender(SenderOutcome::Open) => "open ",
        PutOutcome::BySender(SenderOutcome::Unknown { settled: true }) => "unknown,settled ",
        PutOutcome::BySender(SenderOutcome::Unknown { settled: false }) | PutOutcome::InDoubt => {
            "unknown "
        }
    }
}

/// What is told of a put, as members of an object. What a sender's journal alone tells has a member more, which says so.
fn members_of(outcome: PutOutcome) -> &'static str
    ensures { result.now ≡ outcome_members outcome }
{
    match outcome {
        PutOutcome::ByBoth(Outcome::Got) => "\"outcome\":\"got\",",
        PutOutcome::ByBoth(Outcome::Gone) => "\"outcome\":\"gone\",",
        PutOutcome::ByBoth(Outcome::Open) => "\"outcome\":\"open\",",
        PutOutcome::BySender(SenderOutcome::Got) => "\"outcome\":\"got\",\"by\":\"sender\",",
        PutOutcome::BySender(SenderOutcome::Gone) => "\"outcome\":\"gone\",\"by\":\"sender\",",
        PutOutcome::BySender(SenderOutcome::Open) => "\"outcome\":\"open\",\"by\":\"sender\",",
        PutOutcome::BySender(SenderOutcome::Unknown { settled: true }) => {
            "\"outcome\":\"unknown\",\"settled\":true,\"by\":\"sender\","
        }
        PutOutcome::BySender(SenderOutcome::Unknown { settled: false }) => {
            "\"outcome\":\"unknown\",\"settled\":false,\"by\":\"sender\","
        }
        PutOutcome::InDoubt => "\"outcome\":\"unknown\",\"settled\":false,",
    }
}

/// Appends the number and the stream of a line.
fn push_front(text: &mut Vec<u8>, number: u64, stream: u32, json: bool) -> Result<(), AllocError>
    ensures { OnOk result (text.new.items ≡ text.old.items ++ line_front json number stream) }
{
    if json {
        text.extend_from_slice(b"{\"number\":")?;
        push_decimal(text, number)?;
        text.extend_from_slice(b",\"stream\":")?;
        push_decimal(text, stream as u64)?;
        text.extend_from_slice(b",")
    } else {
        push_decimal(text, number)?;
        text.extend_from_slice(b" ")?;
        push_decimal(text, stream as u64)?;
        text.extend_from_slice(b" ")
    }
}

/// Appends the message of a line, and the line's end.
fn push_end(text: &mut Vec<u8>, message: &[u8], json: bool) -> Result<(), AllocError>
    ensures { OnOk result (text.new.items ≡ text.old.items ++ line_end json message.now) }
{
    push_shown(text, message, json)?;
    if json {
        text.extend_from_slice(b"}\n")
    } else {
        text.extend_from_slice(b"\n")
    }
}

/// Appends a message: its text, or its bytes in HEX where they are none, or one that a terminal would not just show.
fn push_shown(text: &mut Vec<u8>, message: &[u8], json: bool) -> Result<(), AllocError>
    ensures { OnOk result (text.new.items ≡ text.old.items ++ message_shown json message.now) }
{
    if is_text(message, json) {
        push_text(text, message, json)
    } else {
        push_bytes(text, message, json)
    }
}

/// Appends a message as a text.
fn push_text(text: &mut Vec<u8>, message: &[u8], json: bool) -> Result<(), AllocError>
    ensures { OnOk result (text.new.items ≡ text.old.items ++ text_shown json message.now) }
{
    if json {
        text.extend_from_slice(b"\"text\":\"")?;
        push_escaped(text, message)?;
        text.extend_from_slice(b"\"")
    } else {
        text.extend_from_slice(message)
    }
}

/// Appends a message in HEX.
fn push_bytes(text: &mut Vec<u8>, message: &[u8], json: bool) -> Result<(), AllocError>
    ensures { OnOk result (text.new.items ≡ text.old.items ++ hex_shown json message.now) }
{
    if json {
        text.extend_from_slice(b"\"hex\":\"")?;
        push_hex(text, message)?;
        text.extend_from_slice(b"\"")
    } else {
        text.extend_from_slice(b"0x")?;
        push_hex(text, message)
    }
}

/// Appends the bytes of a text, as an object spells them.
fn push_escaped(shown: &mut Vec<u8>, text: &[u8]) -> Result<(), AllocError>
    ensures { OnOk result (shown.new.items ≡ shown.old.items ++ flat_map escaped text.now) }
{
    for byte in text {
        if *byte == b'"' || *byte == b'\\' {
            shown.push(b'\\')?;
        }
        shown.push(*byte)?;
    }
    Ok(())
}

/// Whether a message is shown as a text: it is UTF-8, and each of its characters is shown as it is.
fn is_text(bytes: &[u8], json: bool) -> bool
    ensures { result ≡ is_text json bytes.now }
{
    match str::from_utf8(bytes) {
        Ok(text) => !has_hidden(text, json),
        Err(_) => false,
    }
}

/// Whether a text has a character that is not shown as it is.
fn has_hidden(text: &str, json: bool) -> bool
    ensures { result ≡ list_any (is_hidden json) (chars text.now) }
{
    text.chars().any(|character| is_hidden(character, json))
}

/// Whether a character is not shown as it is. A terminal obeys control characters, so a line has none but tabs. In an object those of one byte would
/// have to be escaped, and a tab is one of them.
fn is_hidden(character: char, json: bool) -> bool
    ensures { result ≡ is_hidden json character }
{
    if json {
        character.is_ascii_control()
    } else {
        character.is_control() && character != '\t'
    }
}
