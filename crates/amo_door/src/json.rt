//! The members of JSON objects, each in a fixed order and with no blank between them.
ghost use Rattle.std.specs.Prelude.{◌≡◌, ◌++◌, OnOk, codes};
ghost use Rattle.std.specs.List.{flat_map, list_any};
ghost use Rattle.std.specs.Char.{is_ascii_control};
ghost use Rattle.std.specs.Str.{chars};
ghost use Rattle.amo_door.specs.Answer.{count_members, fate_word, got_end, got_front, got_list, got_message, line_value, host_body, last_value, life_member, line_front, more_end, network_members, next_got, place_members, program_members, receiver_members, refusal_body, refusal_members, sender_members, side_member, stream_members, streams_member, truth};
ghost use Rattle.amo_door.specs.declared.refusal.Refusal.TheVariants.{Conflict, OtherLife};
ghost use Rattle.amo_door.specs.Json.{escaped, is_text, message_member, quoted};

use crate::{About, Fate, GotMessage, GotPage, Last, ReceiverState, Refusal, SenderState, Word};
use amo_object::End;
use amo_text::{push_decimal, push_hex};
use std::alloc::AllocError;
use std::str;

/// Appends the member of a message: its text, or its bytes in HEX where they are none, or have a control character of one byte.
pub(crate) fn push_message(text: &mut Vec<u8>, message: &[u8]) -> Result<(), AllocError>
    ensures { OnOk result (text.new.items ≡ text.old.items ++ message_member message.now) }
{
    if is_text(message) {
        text.extend_from_slice(b"\"text\":")?;
        push_quoted(text, message)
    } else {
        text.extend_from_slice(b"\"hex\":\"")?;
        push_hex(text, message)?;
        text.extend_from_slice(b"\"")
    }
}

/// Whether a message is shown as a text.
fn is_text(message: &[u8]) -> bool
    ensures { result ≡ is_text message.now }
{
    match str::from_utf8(message) {
        Ok(text) => !has_control(text),
        Err(_) => false,
    }
}

/// Whether a text has a control character of one byte.
fn has_control(text: &str) -> bool
    ensures { result ≡ list_any is_ascii_control (chars text.now) }
{
    text.chars().any(|character| character.is_ascii_control())
}

/// Appends a string of JSON.
fn push_quoted(shown: &mut Vec<u8>, text: &[u8]) -> Result<(), AllocError>
    ensures { OnOk result (shown.new.items ≡ shown.old.items ++ quoted text.now) }
{
    shown.extend_from_slice(b"\"")?;
    push_escaped(shown, text)?;
    shown.extend_from_slice(b"\"")
}

/// Appends bytes, as a string of JSON spells them.
fn push_escaped(shown: &mut Vec<u8>, text: &[u8]) -> Result<(), AllocError>
    ensures { OnOk result (shown.new.items ≡ shown.old.items ++ flat_map escaped text.now) }
{
    for byte in text {
        push_byte(shown, *byte)?;
    }
    Ok(())
}

/// Appends a byte, as a string of JSON spells it (RFC 8259, section 7).
fn push_byte(shown: &mut Vec<u8>, byte: u8) -> Result<(), AllocError>
    ensures { OnOk result (shown.new.items ≡ shown.old.items ++ escaped byte) }
{
    if byte == b'"' || byte == b'\\' {
        shown.extend_from_slice(&[b'\\', byte])
    } else if byte < b' ' {
        shown.extend_from_slice(b"\\u00")?;
        push_hex(shown, &[byte])
    } else {
        shown.extend_from_slice(&[byte])
    }
}

/// Appends a life.
fn push_life(text: &mut Vec<u8>, life: &Word) -> Result<(), AllocError>
    ensures { OnOk result (text.new.items ≡ text.old.items ++ life_member life.now) }
{
    text.extend_from_slice(b"\"life\":\"")?;
    text.extend_from_slice(life.bytes())?;
    text.extend_from_slice(b"\"")
}

/// Appends a life and a stream.
fn push_stream(text: &mut Vec<u8>, life: &Word, stream: u32) -> Result<(), AllocError>
    ensures { OnOk result (text.new.items ≡ text.old.items ++ stream_members life.now stream) }
{
    push_life(text, life)?;
    text.extend_from_slice(b",\"stream\":")?;
    push_decimal(text, stream as u64)
}

/// Appends the front of an object about the message of a number.
pub(crate) fn push_place(
    text: &mut Vec<u8>,
    life: &Word,
    stream: u32,
    number: u64,
) -> Result<(), AllocError>
    ensures { OnOk result (text.new.items ≡ text.old.items ++ place_members life.now stream number) }
{
    text.extend_from_slice(b"{")?;
    push_stream(text, life, stream)?;
    text.extend_from_slice(b",\"number\":")?;
    push_decimal(text, number)
}

/// Appends how a stream of senders is.
pub(crate) fn push_sender(
    text: &mut Vec<u8>,
    life: &Word,
    stream: u32,
    state: SenderState,
) -> Result<(), AllocError>
    ensures { OnOk result (text.new.items ≡ text.old.items ++ sender_members life.now stream state) }
{
    push_stream(text, life, stream)?;
    push_counts(text, state)?;
    text.extend_from_slice(b",\"last\":")?;
    text.extend_from_slice(state.last.value().as_bytes())
}

/// Appends how many messages were put, and how many wait.
fn push_counts(text: &mut Vec<u8>, state: SenderState) -> Result<(), AllocError>
    ensures { OnOk result (text.new.items ≡ text.old.items ++ count_members state) }
{
    text.extend_from_slice(b",\"put\":")?;
    push_decimal(text, state.put)?;
    text.extend_from_slice(b",\"waiting\":")?;
    push_decimal(text, state.waiting)
}

/// Appends how a stream of receivers is.
pub(crate) fn push_receiver(
    text: &mut Vec<u8>,
    life: &Word,
    stream: u32,
    state: ReceiverState,
) -> Result<(), AllocError>
    ensures { OnOk result (text.new.items ≡ text.old.items ++ receiver_members life.now stream state) }
{
    push_stream(text, life, stream)?;
    text.extend_from_slice(b",\"taken\":")?;
    push_decimal(text, state.taken)?;
    text.extend_from_slice(b",\"ready\":")?;
    text.extend_from_slice(truth(state.ready).as_bytes())
}

/// A value of JSON that is true or false.
fn truth(value: bool) -> &'static str
    ensures { result.now ≡ truth value }
{
    if value { "true" } else { "false" }
}

/// Appends the front of an object about messages that were got of a stream.
pub(crate) fn push_got_front(text: &mut Vec<u8>, stream: u32) -> Result<(), AllocError>
    ensures { OnOk result (text.new.items ≡ text.old.items ++ got_front stream) }
{
    text.extend_from_slice(b"{\"stream\":")?;
    push_decimal(text, stream as u64)?;
    text.extend_from_slice(b",\"got\":[")
}

/// Appends messages that were got, with commas between them.
pub(crate) fn push_got(text: &mut Vec<u8>, messages: &[GotMessage]) -> Result<(), AllocError>
    ensures { OnOk result (text.new.items ≡ text.old.items ++ got_list messages.now) }
{
    match messages {
        [] => Ok(()),
        [first, rest @ ..] => {
            push_got_message(text, first)?;
            push_more_got(text, rest)
        }
    }
}

/// Appends messages that were got behind another one.
fn push_more_got(text: &mut Vec<u8>, messages: &[GotMessage]) -> Result<(), AllocError>
    ensures { OnOk result (text.new.items ≡ text.old.items ++ flat_map next_got messages.now) }
{
    for message in messages {
        push_next_got(text, message)?;
    }
    Ok(())
}

/// Appends a message that was got behind another one.
fn push_next_got(text: &mut Vec<u8>, message: &GotMessage) -> Result<(), AllocError>
    ensures { OnOk result (text.new.items ≡ text.old.items ++ next_got message.now) }
{
    text.extend_from_slice(b",")?;
    push_got_message(text, message)
}

/// Appends the lines that were read, whether there are more, and the end of an object about messages that were got.
pub(crate) fn push_got_end(text: &mut Vec<u8>, page: &GotPage) -> Result<(), AllocError>
    ensures { OnOk result (text.new.items ≡ text.old.items ++ got_end page.now) }
{
    text.extend_from_slice(b"],\"from\":")?;
    push_line_value(text, page.from)?;
    text.extend_from_slice(b",\"next\":")?;
    push_line_value(text, page.next)?;
    push_more(text, page.more)
}

/// Appends whether there are more lines, and the end of the object.
fn push_more(text: &mut Vec<u8>, more: bool) -> Result<(), AllocError>
    ensures { OnOk result (text.new.items ≡ text.old.items ++ more_end more) }
{
    text.extend_from_slice(b",\"more\":")?;
    text.extend_from_slice(truth(more).as_bytes())?;
    text.extend_from_slice(b"}")
}

/// Appends the number of a line, if there is one, as a value.
fn push_line_value(text: &mut Vec<u8>, line: Option<u64>) -> Result<(), AllocError>
    ensures { OnOk result (text.new.items ≡ text.old.items ++ line_value line) }
{
    match line {
        Some(line) => push_decimal(text, line),
        None => text.extend_from_slice(b"null"),
    }
}

/// Appends a message that was got.
fn push_got_message(text: &mut Vec<u8>, message: &GotMessage) -> Result<(), AllocError>
    ensures { OnOk result (text.new.items ≡ text.old.items ++ got_message message.now) }
{
    push_line(text, message.line)?;
    push_message(text, message.message.bytes())?;
    text.extend_from_slice(b"}")
}

/// Appends the front of an object about a line.
fn push_line(text: &mut Vec<u8>, line: u64) -> Result<(), AllocError>
    ensures { OnOk result (text.new.items ≡ text.old.items ++ line_front line) }
{
    text.extend_from_slice(b"{\"line\":")?;
    push_decimal(text, line)?;
    text.extend_from_slice(b",")
}

/// Appends what a host is.
pub(crate) fn push_host(
    text: &mut Vec<u8>,
    life: &Word,
    about: &About<'_>,
) -> Result<(), AllocError>
    ensures { OnOk result (text.new.items ≡ text.old.items ++ host_body life.now about.now) }
{
    text.extend_from_slice(b"{")?;
    push_life(text, life)?;
    push_program(text, about)?;
    push_network(text, about)?;
    text.extend_from_slice(b",\"since\":")?;
    push_decimal(text, about.since)?;
    text.extend_from_slice(LINKS)
}

/// Where the rest of the door is, and the end of the object about a host.
const LINKS: &[u8] =
    b",\"links\":{\"stream\":\"/v1/streams/{stream}\",\"events\":\"/v1/events\",\"metrics\":\"/metrics\",\"health\":\"/healthz\"}}";

/// Appends which program a host runs, and its side.
fn push_program(text: &mut Vec<u8>, about: &About<'_>) -> Result<(), AllocError>
    ensures { OnOk result (text.new.items ≡ text.old.items ++ program_members about.now) }
{
    text.extend_from_slice(b",\"version\":")?;
    push_quoted(text, about.version.as_bytes())?;
    push_side(text, about.side)
}

/// Appends how many streams a host has, and its peer.
fn push_network(text: &mut Vec<u8>, about: &About<'_>) -> Result<(), AllocError>
    ensures { OnOk result (text.new.items ≡ text.old.items ++ network_members about.now) }
{
    push_streams(text, about.streams)?;
    text.extend_from_slice(b",\"peer\":")?;
    push_quoted(text, about.peer.as_bytes())
}

/// Appends how many streams a host has.
fn push_streams(text: &mut Vec<u8>, streams: u32) -> Result<(), AllocError>
    ensures { OnOk result (text.new.items ≡ text.old.items ++ streams_member streams) }
{
    text.extend_from_slice(b",\"streams\":")?;
    push_decimal(text, streams as u64)
}

/// Appends the front of an object that says why a request is refused.
pub(crate) fn push_refusal(
    text: &mut Vec<u8>,
    refusal: Refusal,
    sentence: &str,
) -> Result<(), AllocError>
    ensures { OnOk result (text.new.items ≡ text.old.items ++ refusal_members refusal sentence.now) }
{
    text.extend_from_slice(b"{\"error\":\"")?;
    text.extend_from_slice(refusal.word().as_bytes())?;
    text.extend_from_slice(b"\",\"text\":")?;
    push_quoted(text, sentence.as_bytes())
}

/// Appends the object that refuses a claim for another life, with the life of the host.
pub(crate) fn push_other_life(
    text: &mut Vec<u8>,
    sentence: &str,
    life: &Word,
) -> Result<(), AllocError>
    ensures { OnOk result (text.new.items ≡ text.old.items ++ refusal_body OtherLife sentence.now (codes "," ++ life_member life.now)) }
{
    push_refusal(text, Refusal::OtherLife, sentence)?;
    text.extend_from_slice(b",")?;
    push_life(text, life)?;
    text.extend_from_slice(b"}")
}

/// Appends the object that refuses a claim to put, with how its stream is.
pub(crate) fn push_conflict_at_sender(
    text: &mut Vec<u8>,
    sentence: &str,
    life: &Word,
    stream: u32,
    state: SenderState,
) -> Result<(), AllocError>
    ensures { OnOk result (text.new.items ≡ text.old.items ++ refusal_body Conflict sentence.now (codes "," ++ sender_members life.now stream state)) }
{
    push_refusal(text, Refusal::Conflict, sentence)?;
    text.extend_from_slice(b",")?;
    push_sender(text, life, stream, state)?;
    text.extend_from_slice(b"}")
}

/// Appends the object that refuses a claim to take, with how its stream is.
pub(crate) fn push_conflict_at_receiver(
    text: &mut Vec<u8>,
    sentence: &str,
    life: &Word,
    stream: u32,
    state: ReceiverState,
) -> Result<(), AllocError>
    ensures { OnOk result (text.new.items ≡ text.old.items ++ refusal_body Conflict sentence.now (codes "," ++ receiver_members life.now stream state)) }
{
    push_refusal(text, Refusal::Conflict, sentence)?;
    text.extend_from_slice(b",")?;
    push_receiver(text, life, stream, state)?;
    text.extend_from_slice(b"}")
}

/// Appends a side.
fn push_side(text: &mut Vec<u8>, side: End) -> Result<(), AllocError>
    ensures { OnOk result (text.new.items ≡ text.old.items ++ side_member side) }
{
    match side {
        End::Sender => text.extend_from_slice(b",\"side\":\"send\""),
        End::Receiver => text.extend_from_slice(b",\"side\":\"receive\""),
    }
}

impl Last {
    /// Its value in JSON.
    fn value(self) -> &'static str
        ensures { result.now ≡ last_value self }
    {
        match self {
            Last::None => "null",
            Last::Open => "\"open\"",
            Last::Yes => "\"yes\"",
            Last::No => "\"no\"",
        }
    }
}

impl Fate {
    /// Its word.
    pub(crate) fn word(self) -> &'static str
        ensures { result.now ≡ fate_word self }
    {
        match self {
            Fate::Got => "got",
            Fate::Gone => "gone",
            Fate::Open => "open",
            Fate::Unknown => "unknown",
            Fate::Settled => "settled",
            Fate::Never => "never",
        }
    }
}
