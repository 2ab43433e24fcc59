//! Messages, in HEX.
ghost use Rattle.std.specs.Prelude.{◌≡◌, ◌≢◌, ◌↔◌, ◌≤◌, List, ℕ, length, IsTrue, IfOk, IfSome, IfNone};
ghost use Rattle.amo_text.specs.Hexadecimal.{hex};
ghost use Rattle.amo_text.specs.Message.{IsMessage};

use crate::{hex_length, read_hex};
use amo_packet::{MAX_MESSAGE, Message, MessageFault};
use std::alloc::{AllocError, Global};

/// How many bytes a short message has at most. Room for the longest one takes longer to make than a short one to read.
const SHORT: usize = 64;

/// The message that this field spells. A field of more than [`MAX_MESSAGE`] bytes spells none.
pub fn read_message(alloc: Global, field: &[u8]) -> Result<Option<Message>, AllocError>
    ensures found { IfOk result (λ read. IfSome read (λ m. IsMessage m × (field.now ≡ hex m))) }
    ensures none { IfOk result (λ read. IfNone read ((m : List ℕ) → IsMessage m → field.now ≢ hex m)) }
{
    if field.len() <= 2 * SHORT {
        let mut room = [0; SHORT];
        message_in(alloc, field, &mut room)
    } else {
        let mut room = [0; MAX_MESSAGE];
        message_in(alloc, field, &mut room)
    }
}

/// The message that this field spells, if it fits into this room.
fn message_in(alloc: Global, field: &[u8], room: &mut [u8]) -> Result<Option<Message>, AllocError>
    requires { length room.old ≤ 1024 }
    ensures found { IfOk result (λ read. IfSome read (λ m. IsMessage m × (field.now ≡ hex m))) }
    ensures none { IfOk result (λ read. IfNone read ((m : List ℕ) → IsMessage m → length m ≤ length room.old → field.now ≢ hex m)) }
{
    let Some(count) = read_hex(field, room) else {
        return Ok(None);
    };
    match Message::copy(alloc, &room[..count]) {
        Ok(message) => Ok(Some(message)),
        Err(MessageFault::NoMemory) => Err(AllocError),
        Err(MessageFault::TooLong) => Ok(None),
    }
}

/// Whether this field spells a message. It takes no memory.
pub fn is_message(field: &[u8]) -> bool
    ensures { IsTrue result ↔ ((m : List ℕ) × IsMessage m × (field.now ≡ hex m)) }
{
    match hex_length(field) {
        Some(length) => length <= MAX_MESSAGE,
        None => false,
    }
}
