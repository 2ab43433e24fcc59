//! The text of a transcript: a line for each event, with its number and its reply.
ghost use Rattle.std.specs.Prelude.{◌≡◌, ◌++◌, Some, OnOk};
ghost use Rattle.std.specs.Option.{option_copied};
ghost use Rattle.amo_replay.specs.Transcript.{emission_text, event_text};

use amo_core::Reply;
use amo_text::{push_decimal, push_hex, push_reply};
use std::alloc::AllocError;

/// Appends the packet that an event emitted, with its number over all streams.
fn push_emission(text: &mut Vec<u8>, number: usize, bytes: &[u8]) -> Result<(), AllocError>
    ensures { OnOk result (text.new.items ≡ text.old.items ++ emission_text number (Some bytes.now)) }
{
    text.extend_from_slice(b" -> ")?;
    push_decimal(text, number as u64)?;
    text.push(b' ')?;
    push_hex(text, bytes)
}

/// Appends the line of the event of this number. What it emitted, if anything, has the number `emission` over all streams.
pub fn push_event(
    text: &mut Vec<u8>,
    number: usize,
    reply: &Reply,
    emission: usize,
    bytes: Option<&[u8]>,
) -> Result<(), AllocError>
    ensures { OnOk result (text.new.items ≡ text.old.items ++ event_text number reply.now emission (option_copied bytes.entry)) }
{
    push_decimal(text, number as u64)?;
    text.push(b' ')?;
    push_reply(text, reply)?;
    if let Some(bytes) = bytes {
        push_emission(text, emission, bytes)?;
    }
    text.push(b'\n')?;
    Ok(())
}
