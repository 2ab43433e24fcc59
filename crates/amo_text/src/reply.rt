//! Replies, as transcripts and journals write them.
ghost use Rattle.std.specs.Prelude.{◌≡◌, ◌++◌, codes, OnOk, OnErr};
ghost use Rattle.amo_text.specs.Hexadecimal.{hex};
ghost use Rattle.amo_text.specs.Reply.{reply_text};

use crate::push_hex;
use amo_core::Reply;
use std::alloc::AllocError;

/// Appends a reply. Where memory is refused, the text stays as it was.
pub fn push_reply(text: &mut Vec<u8>, reply: &Reply) -> Result<(), AllocError>
    ensures ok { OnOk result (text.new.items ≡ text.old.items ++ reply_text reply.now) }
    ensures err { OnErr result (text.new.items ≡ text.old.items) }
{
    match reply {
        Reply::Ok => text.extend_from_slice(b"ok"),
        Reply::Full => text.extend_from_slice(b"full"),
        Reply::Down => text.extend_from_slice(b"down"),
        Reply::Nothing => text.extend_from_slice(b"nothing"),
        Reply::Yes => text.extend_from_slice(b"yes"),
        Reply::No => text.extend_from_slice(b"no"),
        Reply::NotYet => text.extend_from_slice(b"notyet"),
        Reply::Done => text.extend_from_slice(b"done"),
        Reply::Got(message) => push_got(text, message.bytes()),
    }
}

/// Appends the reply to a get that got these bytes. Where memory is refused, the text stays as it was.
fn push_got(text: &mut Vec<u8>, bytes: &[u8]) -> Result<(), AllocError>
    ensures ok { OnOk result (text.new.items ≡ text.old.items ++ (codes "got " ++ hex bytes.now)) }
    ensures err { OnErr result (text.new.items ≡ text.old.items) }
{
    let start = text.len();
    text.extend_from_slice(b"got ")?;
    let pushed = push_hex(text, bytes);
    if pushed.is_err() {
        text.truncate(start);
    }
    pushed
}
