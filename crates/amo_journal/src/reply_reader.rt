//! Reads the reply of a line.
ghost use Rattle.std.specs.Prelude.{◌≡◌, ◌≢◌, IfOk, IfSome, IfNone};
ghost use Rattle.amo_core.specs.declared.reply.Reply.{Reply};
ghost use Rattle.amo_text.specs.Reply.{reply_text};
ghost use Rattle.amo_journal.specs.Fields.{IsReply, IsOneField};

use amo_text::{next_field, read_message};
use amo_world::Reply;
use std::alloc::{AllocError, Global};

/// The reply that this text spells, to whichever act.
pub(crate) fn read_reply(alloc: Global, text: &[u8]) -> Result<Option<Reply>, AllocError>
    ensures found { IfOk result (λ read. IfSome read (λ r. IsReply r × (text.now ≡ reply_text r))) }
    ensures none { IfOk result (λ read. IfNone read ((r : Reply) → IsReply r → text.now ≢ reply_text r)) }
{
    let Some((field, rest)) = next_field(text) else {
        return Ok(read_one_field(text));
    };
    if field == b"got".as_slice() {
        let Some(message) = read_message(alloc, rest)? else {
            return Ok(None);
        };
        Ok(Some(Reply::Got(message)))
    } else {
        Ok(None)
    }
}

/// The reply of one field that this text spells.
fn read_one_field(text: &[u8]) -> Option<Reply>
    ensures found { IfSome result (λ r. IsOneField r × (text.now ≡ reply_text r)) }
    ensures none { IfNone result ((r : Reply) → IsOneField r → text.now ≢ reply_text r) }
{
    if text == b"ok".as_slice() {
        Some(Reply::Ok)
    } else if text == b"full".as_slice() {
        Some(Reply::Full)
    } else if text == b"down".as_slice() {
        Some(Reply::Down)
    } else if text == b"nothing".as_slice() {
        Some(Reply::Nothing)
    } else if text == b"yes".as_slice() {
        Some(Reply::Yes)
    } else if text == b"no".as_slice() {
        Some(Reply::No)
    } else if text == b"notyet".as_slice() {
        Some(Reply::NotYet)
    } else if text == b"done".as_slice() {
        Some(Reply::Done)
    } else {
        None
    }
}
