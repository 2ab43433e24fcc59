//! The message of a put.
use crate::fault::ClientFault;
use amo_packet::{MAX_MESSAGE, Message, MessageFault};
use amo_text::read_message;
use std::alloc::Global;
use std::io::Read;

/// How many bytes of standard input are read at most: a longest message in HEX has fewer.
const MOST_INPUT: u64 = 4096;

/// The message of a put: this text, or else what standard input has, without a line feed at its end. None where that is no message, which is told.
pub(crate) fn message_of<R: AllocGlobal + Eprint, I: Read + Drop>(
    rt: &R,
    hex: bool,
    given: &Option<String>,
    input: I,
) -> Result<Option<Message>, ClientFault> {
    match given {
        Some(text) => message_in(rt, hex, text.as_str().as_bytes()),
        None => {
            let bytes = read_input(rt.alloc(), input)?;
            message_in(rt, hex, without_end(bytes.as_slice()))
        }
    }
}

/// What standard input has, as far as a message may reach and further.
fn read_input<I: Read + Drop>(alloc: Global, input: I) -> Result<Vec<u8>, ClientFault> {
    let mut bytes = Vec::new(alloc);
    match input.take(MOST_INPUT).read_to_end(&mut bytes) {
        Ok(_) => Ok(bytes),
        Err(error) => Err(ClientFault::of_input(error)),
    }
}

/// A text without a line feed at its end.
fn without_end(text: &[u8]) -> &[u8] {
    match text.strip_suffix(b"\n") {
        Some(front) => front,
        None => text,
    }
}

/// The message that these bytes are, or spell in HEX. None where that is no message, which is told.
fn message_in<R: AllocGlobal + Eprint>(
    rt: &R,
    hex: bool,
    text: &[u8],
) -> Result<Option<Message>, ClientFault> {
    let alloc = rt.alloc();
    if hex {
        let message = read_message(alloc, text)?;
        if message.is_none() {
            let _ = eprintln!(rt; "amo: the message is no HEX of at most {MAX_MESSAGE} bytes");
        }
        return Ok(message);
    }
    match Message::copy(alloc, text) {
        Ok(message) => Ok(Some(message)),
        Err(MessageFault::NoMemory) => Err(ClientFault::NoMemory),
        Err(MessageFault::TooLong) => {
            let _ = eprintln!(rt; "amo: the message has more than {MAX_MESSAGE} bytes");
            Ok(None)
        }
    }
}
