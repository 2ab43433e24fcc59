//! What happens at a host, as it is told to those who follow.
ghost use Rattle.std.specs.Prelude.{◌≡◌, ◌++◌, OnOk};
ghost use Rattle.amo_door.specs.Event.{data_text, event_text, happening_members, id_text, message_behind, message_text, name_text, stream_front, stream_text, word_member, word_of};

use crate::json::push_message;
use amo_text::push_decimal;
use std::alloc::AllocError;

/// What happened.
#[derive(Clone, Copy)]
pub enum Happening<'a> {
    /// A message was put on a stream.
    Put(u32, &'a [u8]),
    /// The last message of a stream was got.
    Yes(u32),
    /// The last message of a stream was got or lost.
    No(u32),
    /// A message was got of a stream.
    Got(u32, &'a [u8]),
    /// The host lost what it knew of all streams.
    Crash,
    /// Something came from the host on the other side.
    Peer,
    /// The host cannot go on.
    Fault,
}

impl Happening<'_> {
    /// Its word.
    fn word(&self) -> &'static str
        ensures { result.now ≡ word_of self.now }
    {
        match self {
            Happening::Put(..) => "put",
            Happening::Yes(_) => "yes",
            Happening::No(_) => "no",
            Happening::Got(..) => "got",
            Happening::Crash => "crash",
            Happening::Peer => "peer",
            Happening::Fault => "fault",
        }
    }
}

/// Appends what happened, as a server-sent event (the HTML standard, section 9.2): its name is its word, its id the number of its line in the journal,
/// if it has one, and its data an object of JSON.
pub fn push_event(
    text: &mut Vec<u8>,
    line: Option<u64>,
    happening: &Happening<'_>,
) -> Result<(), AllocError>
    ensures { OnOk result (text.new.items ≡ text.old.items ++ event_text line happening.now) }
{
    push_name(text, happening)?;
    push_id(text, line)?;
    push_data(text, happening)
}

/// Appends the name of an event.
fn push_name(text: &mut Vec<u8>, happening: &Happening<'_>) -> Result<(), AllocError>
    ensures { OnOk result (text.new.items ≡ text.old.items ++ name_text happening.now) }
{
    text.extend_from_slice(b"event: ")?;
    text.extend_from_slice(happening.word().as_bytes())?;
    text.extend_from_slice(b"\n")
}

/// Appends the id of an event.
fn push_id(text: &mut Vec<u8>, line: Option<u64>) -> Result<(), AllocError>
    ensures { OnOk result (text.new.items ≡ text.old.items ++ id_text line) }
{
    match line {
        Some(line) => {
            text.extend_from_slice(b"id: ")?;
            push_decimal(text, line)?;
            text.extend_from_slice(b"\n")
        }
        None => Ok(()),
    }
}

/// Appends the data of an event.
fn push_data(text: &mut Vec<u8>, happening: &Happening<'_>) -> Result<(), AllocError>
    ensures { OnOk result (text.new.items ≡ text.old.items ++ data_text happening.now) }
{
    text.extend_from_slice(b"data: {")?;
    push_members(text, happening)?;
    text.extend_from_slice(b"}\n\n")
}

/// Appends the members of the data of an event.
fn push_members(text: &mut Vec<u8>, happening: &Happening<'_>) -> Result<(), AllocError>
    ensures { OnOk result (text.new.items ≡ text.old.items ++ happening_members happening.now) }
{
    push_stream(text, happening)?;
    push_word(text, happening)?;
    push_message_of(text, happening)
}

/// Appends the member of the stream, if there is one.
fn push_stream(text: &mut Vec<u8>, happening: &Happening<'_>) -> Result<(), AllocError>
    ensures { OnOk result (text.new.items ≡ text.old.items ++ stream_text happening.now) }
{
    match happening {
        Happening::Put(stream, _) | Happening::Got(stream, _) => push_stream_front(text, *stream),
        Happening::Yes(stream) | Happening::No(stream) => push_stream_front(text, *stream),
        Happening::Crash | Happening::Peer | Happening::Fault => Ok(()),
    }
}

/// Appends the member of what happened.
fn push_word(text: &mut Vec<u8>, happening: &Happening<'_>) -> Result<(), AllocError>
    ensures { OnOk result (text.new.items ≡ text.old.items ++ word_member happening.now) }
{
    text.extend_from_slice(b"\"event\":\"")?;
    text.extend_from_slice(happening.word().as_bytes())?;
    text.extend_from_slice(b"\"")
}

/// Appends the member of the message, if there is one.
fn push_message_of(text: &mut Vec<u8>, happening: &Happening<'_>) -> Result<(), AllocError>
    ensures { OnOk result (text.new.items ≡ text.old.items ++ message_text happening.now) }
{
    match happening {
        Happening::Put(_, message) | Happening::Got(_, message) => push_behind(text, message),
        _ => Ok(()),
    }
}

/// Appends the member of a message, with a comma in front.
fn push_behind(text: &mut Vec<u8>, message: &[u8]) -> Result<(), AllocError>
    ensures { OnOk result (text.new.items ≡ text.old.items ++ message_behind message.now) }
{
    text.extend_from_slice(b",")?;
    push_message(text, message)
}

/// Appends the member of a stream, with a comma behind.
fn push_stream_front(text: &mut Vec<u8>, stream: u32) -> Result<(), AllocError>
    ensures { OnOk result (text.new.items ≡ text.old.items ++ stream_front stream) }
{
    text.extend_from_slice(b"\"stream\":")?;
    push_decimal(text, stream as u64)?;
    text.extend_from_slice(b",")
}
