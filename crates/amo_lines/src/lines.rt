//! The lines of a host's clients, read and spelt.
ghost use Rattle.std.specs.Prelude.{◌≡◌, ◌++◌, IfOk, OnOk};
ghost use Rattle.std.specs.List.{flat_map, list_any};
ghost use Rattle.std.specs.Str.{chars};
ghost use Rattle.amo_lines.specs.Line.{BlamesField, NamesBy, ReadsAs, ReadsPlain};
ghost use Rattle.amo_lines.specs.Spelt.{escaped, got_front, hex_line, id_member, is_hidden, is_text, message_line, object_front, ok_line, refused_front, refused_line, settled_line, text_line, word_line, word_of, word_text};

use crate::id::Id;
use crate::object::read_object;
use amo_packet::{Message, MessageFault};
use amo_text::{next_field, push_decimal, push_hex, read_decimal, read_message, read_stream};
use std::alloc::{AllocError, Global};
use std::str;
use thiserror::Error;

/// How messages and answers are spelt.
#[derive(Clone, Copy, PartialEq, Eq)]
pub struct Spelling {
    /// A client's messages come in HEX, where its lines are no JSON objects.
    pub hex: bool,
    /// Each line is a JSON object: those of a client, and those that are shown.
    pub json: bool,
}

/// Why a client's line is none. Nothing is put by it, and the lines behind it are read as ever.
#[derive(Clone, Copy, Debug, PartialEq, Eq, Error)]
pub enum LineFault {
    /// It does not begin with a number and a space.
    #[error("it begins with no stream and space")]
    NoStream,
    /// It begins with this number, which is that of no stream.
    #[error("no stream {0}")]
    Stream(u64),
    /// Its message has so many bytes, more than [`MAX_MESSAGE`](amo_packet::MAX_MESSAGE).
    #[error("{0} bytes, at most 1024")]
    TooLong(usize),
    /// Its message is no HEX of so many bytes at most, as it is to be.
    #[error("no HEX of at most 1024 bytes")]
    NoHex,
    /// It is longer than any line, and was not kept.
    #[error("longer than any line")]
    TooLongLine,
    /// It is no JSON in UTF-8.
    #[error("it is no JSON")]
    NoJson,
    /// It is no JSON: a string in it has no end, a control character, or an escape that is none.
    #[error("a string in it has a wrong escape, a control character or no end")]
    NoString,
    /// It is JSON, and no object.
    #[error("it is no object")]
    NoObject,
    /// A member comes twice in an object.
    #[error("a member comes twice")]
    Twice,
    /// It has a member of another name.
    #[error("a member is none of stream, id, text and hex")]
    Unknown,
    /// It has no stream, or one that is no whole number.
    #[error("it has no stream that is a number")]
    NoNumber,
    /// It has neither a text nor a HEX.
    #[error("it has no text and no hex")]
    NoMessage,
    /// It has a text and a HEX.
    #[error("it has a text and a hex")]
    OneMessage,
    /// Its text is no string.
    #[error("its text is no string")]
    NoText,
    /// Its id is no string.
    #[error("its id is no string")]
    NoId,
    /// Its id has so many bytes, more than 64.
    #[error("its id has {0} bytes, at most 64")]
    LongId(usize),
}

/// What became of a message that was put to a stream.
#[derive(Clone, Copy, Debug, PartialEq, Eq)]
pub enum Word {
    /// It was got.
    Yes,
    /// It was got or lost.
    No,
}

impl Word {
    /// The word about messages that were got, or of which that is not known.
    pub fn of(was_got: bool) -> Word
        ensures { result ≡ word_of was_got }
    {
        if was_got { Word::Yes } else { Word::No }
    }

    fn text(self) -> &'static str
        ensures { result.now ≡ word_text self }
    {
        match self {
            Word::Yes => "yes",
            Word::No => "no",
        }
    }
}

/// What a client's line is, without its end.
pub(crate) fn read_line(
    alloc: Global,
    line: &[u8],
    spelling: Spelling,
) -> Result<(Result<(u32, Message), LineFault>, Id), AllocError>
    ensures read { IfOk result (λ r. ReadsAs spelling line.now r.0) }
    ensures id { IfOk result (λ r. NamesBy spelling.json line.now r.0 r.1) }
{
    if spelling.json {
        read_object(alloc, line)
    } else {
        Ok((read_put(alloc, line, spelling)?, Id::none()))
    }
}

/// The stream and the message of a client's line `STREAM TEXT`, without its end; or why it is no such line.
fn read_put(
    alloc: Global,
    line: &[u8],
    spelling: Spelling,
) -> Result<Result<(u32, Message), LineFault>, AllocError>
    ensures { IfOk result (ReadsPlain spelling line.now) }
{
    let Some((field, text)) = next_field(line) else {
        return Ok(Err(LineFault::NoStream));
    };
    let Some(stream) = read_stream(field) else {
        return Ok(Err(no_stream(field)));
    };
    if spelling.hex {
        let Some(message) = read_message(alloc, text)? else {
            return Ok(Err(LineFault::NoHex));
        };
        return Ok(Ok((stream, message)));
    }
    match Message::copy(alloc, text) {
        Ok(message) => Ok(Ok((stream, message))),
        Err(MessageFault::TooLong) => Ok(Err(LineFault::TooLong(text.len()))),
        Err(MessageFault::NoMemory) => Err(AllocError),
    }
}

/// Why a field names no stream.
fn no_stream(field: &[u8]) -> LineFault
    ensures { BlamesField field.now result }
{
    match read_decimal(field) {
        Some(number) => LineFault::Stream(number),
        None => LineFault::NoStream,
    }
}

/// Appends the line that tells that a message was put to a stream, by a line of the journal of this number.
pub fn push_ok(
    shown: &mut Vec<u8>,
    stream: u32,
    id: &Id,
    line: u64,
    spelling: Spelling,
) -> Result<(), AllocError>
    ensures { OnOk result (shown.new.items ≡ shown.old.items ++ ok_line spelling stream id.now line) }
{
    if spelling.json {
        push_object_front(shown, stream, id)?;
        shown.extend_from_slice(b"ok\",\"line\":")?;
        push_decimal(shown, line)?;
        shown.extend_from_slice(b"}\n")
    } else {
        push_decimal(shown, stream as u64)?;
        shown.extend_from_slice(b" ok\n")
    }
}

/// Appends the line that tells what became of a message put to a stream.
pub fn push_word(
    shown: &mut Vec<u8>,
    stream: u32,
    id: &Id,
    word: Word,
    spelling: Spelling,
) -> Result<(), AllocError>
    ensures { OnOk result (shown.new.items ≡ shown.old.items ++ word_line spelling stream id.now word) }
{
    if spelling.json {
        push_object_front(shown, stream, id)?;
        shown.extend_from_slice(word.text().as_bytes())?;
        shown.extend_from_slice(b"\"}\n")
    } else {
        push_decimal(shown, stream as u64)?;
        shown.extend_from_slice(b" ")?;
        shown.extend_from_slice(word.text().as_bytes())?;
        shown.extend_from_slice(b"\n")
    }
}

/// Appends the line that tells that what became of a stream's earlier messages is settled.
pub fn push_settled(shown: &mut Vec<u8>, stream: u32, spelling: Spelling) -> Result<(), AllocError>
    ensures { OnOk result (shown.new.items ≡ shown.old.items ++ settled_line spelling stream) }
{
    if spelling.json {
        push_object_front(shown, stream, &Id::none())?;
        shown.extend_from_slice(b"settled\"}\n")
    } else {
        push_decimal(shown, stream as u64)?;
        shown.extend_from_slice(b" settled\n")
    }
}

/// Appends the object that tells why a line of a client is none, by the line's number.
pub fn push_refused(
    shown: &mut Vec<u8>,
    id: &Id,
    line: u64,
    reason: &[u8],
) -> Result<(), AllocError>
    ensures { OnOk result (shown.new.items ≡ shown.old.items ++ refused_line (record { id = id.now; input = line; reason = reason.now })) }
{
    push_refused_front(shown, id, line)?;
    shown.extend_from_slice(b",\"event\":\"refused\",\"reason\":\"")?;
    push_escaped(shown, reason)?;
    shown.extend_from_slice(b"\"}\n")?;
    Ok(())
}

/// Appends the front of such an object, up to what happened.
fn push_refused_front(shown: &mut Vec<u8>, id: &Id, line: u64) -> Result<(), AllocError>
    ensures { OnOk result (shown.new.items ≡ shown.old.items ++ refused_front line id.now) }
{
    shown.extend_from_slice(b"{\"input\":")?;
    push_decimal(shown, line)?;
    push_id(shown, id)
}

/// Appends the line that shows a message which was got: its text, or its bytes in HEX where they are none, or one that a terminal would not just show. An object
/// has the number of the line, too, by which it stands in the journal.
pub fn push_message(
    shown: &mut Vec<u8>,
    stream: u32,
    line: u64,
    message: &Message,
    spelling: Spelling,
) -> Result<(), AllocError>
    ensures { OnOk result (shown.new.items ≡ shown.old.items ++ message_line spelling stream line message.now) }
{
    if is_text(message.bytes(), spelling.json) {
        push_text(shown, stream, line, message.bytes(), spelling)
    } else {
        push_bytes(shown, stream, line, message.bytes(), spelling)
    }
}

/// Appends the line that shows a message as a text.
fn push_text(
    shown: &mut Vec<u8>,
    stream: u32,
    line: u64,
    text: &[u8],
    spelling: Spelling,
) -> Result<(), AllocError>
    ensures { OnOk result (shown.new.items ≡ shown.old.items ++ text_line spelling stream line text.now) }
{
    if spelling.json {
        push_got_front(shown, stream, line)?;
        shown.extend_from_slice(b"\"text\":\"")?;
        push_escaped(shown, text)?;
        shown.extend_from_slice(b"\"}\n")
    } else {
        push_decimal(shown, stream as u64)?;
        shown.extend_from_slice(b" ")?;
        shown.extend_from_slice(text)?;
        shown.extend_from_slice(b"\n")
    }
}

/// Appends the line that shows a message in HEX.
fn push_bytes(
    shown: &mut Vec<u8>,
    stream: u32,
    line: u64,
    bytes: &[u8],
    spelling: Spelling,
) -> Result<(), AllocError>
    ensures { OnOk result (shown.new.items ≡ shown.old.items ++ hex_line spelling stream line bytes.now) }
{
    if spelling.json {
        push_got_front(shown, stream, line)?;
        shown.extend_from_slice(b"\"hex\":\"")?;
        push_hex(shown, bytes)?;
        shown.extend_from_slice(b"\"}\n")
    } else {
        push_decimal(shown, stream as u64)?;
        shown.extend_from_slice(b" 0x")?;
        push_hex(shown, bytes)?;
        shown.extend_from_slice(b"\n")
    }
}

/// Appends the front of the object that shows a message, up to that: the number of its line in the journal, its stream, and that it was got.
fn push_got_front(shown: &mut Vec<u8>, stream: u32, line: u64) -> Result<(), AllocError>
    ensures { OnOk result (shown.new.items ≡ shown.old.items ++ got_front stream line) }
{
    shown.extend_from_slice(b"{\"number\":")?;
    push_decimal(shown, line)?;
    shown.extend_from_slice(b",\"stream\":")?;
    push_decimal(shown, stream as u64)?;
    shown.extend_from_slice(b",\"event\":\"got\",")
}

/// Appends the front of an object about a stream, up to what happened.
fn push_object_front(shown: &mut Vec<u8>, stream: u32, id: &Id) -> Result<(), AllocError>
    ensures { OnOk result (shown.new.items ≡ shown.old.items ++ object_front stream id.now) }
{
    shown.extend_from_slice(b"{\"stream\":")?;
    push_decimal(shown, stream as u64)?;
    push_id(shown, id)?;
    shown.extend_from_slice(b",\"event\":\"")
}

/// Appends the member of an id, if one is given.
fn push_id(shown: &mut Vec<u8>, id: &Id) -> Result<(), AllocError>
    ensures { OnOk result (shown.new.items ≡ shown.old.items ++ id_member id.now) }
{
    let Some(bytes) = id.bytes() else {
        return Ok(());
    };
    shown.extend_from_slice(b",\"id\":\"")?;
    push_escaped(shown, bytes)?;
    shown.extend_from_slice(b"\"")
}

/// Appends the bytes of a text, as an object spells them.
fn push_escaped(shown: &mut Vec<u8>, text: &[u8]) -> Result<(), AllocError>
    ensures { OnOk result (shown.new.items ≡ shown.old.items ++ flat_map escaped text.now) }
{
    for byte in text {
        push_escaped_byte(shown, *byte)?;
    }
    Ok(())
}

/// Appends a byte of a text.
fn push_escaped_byte(shown: &mut Vec<u8>, byte: u8) -> Result<(), AllocError>
    ensures { OnOk result (shown.new.items ≡ shown.old.items ++ escaped byte) }
{
    if byte == b'"' || byte == b'\\' {
        shown.push(b'\\')?;
        shown.push(byte)?;
        return Ok(());
    }
    if byte < 32 {
        shown.extend_from_slice(b"\\u00")?;
        return push_hex(shown, &[byte]);
    }
    shown.push(byte)?;
    Ok(())
}

/// Whether a message is shown as a text: it is UTF-8, and each of its characters is shown as it is.
fn is_text(bytes: &[u8], json: bool) -> bool
    ensures { result ≡ is_text json bytes.now }
{
    match str::from_utf8(bytes) {
        Ok(text) => !has_hidden(text, json),
        Err(_) => false,
    }
}

/// Whether a text has a character that is not shown as it is.
fn has_hidden(text: &str, json: bool) -> bool
    ensures { result ≡ list_any (is_hidden json) (chars text.now) }
{
    text.chars().any(|character| is_hidden(character, json))
}

/// Whether a character is not shown as it is. A terminal obeys control characters, so a line has none but tabs. In an object those of one byte would
/// have to be escaped, and a tab is one of them.
fn is_hidden(character: char, json: bool) -> bool
    ensures { result ≡ is_hidden json character }
{
    if json {
        character.is_ascii_control()
    } else {
        character.is_control() && character != '\t'
    }
}
