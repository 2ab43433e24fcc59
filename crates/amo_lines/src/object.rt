//! A client's line that is a JSON object: `{"stream":1,"id":"a","text":"b"}`.
ghost use Rattle.std.specs.Prelude.{◌≡◌, ◌<◌, ◌≢◌, Err, IfErr, IfNone, IfOk, IfSome, None, OnOk, Some, codes, false, true, length, option_and_then, ℕ, ◌^◌};
ghost use Rattle.std.specs.Fmt.{decimal};
ghost use Rattle.json.specs.Find.{as_number, as_object, get};
ghost use Rattle.json.specs.Json.{Members, document};
ghost use Rattle.json.specs.Value.{members_view, value_view};
ghost use Rattle.amo_packet.specs.Stream.{IsStream};
ghost use Rattle.amo_text.specs.Message.{IsMessage};
ghost use Rattle.amo_lines.specs.Object.{BlamesId, BlamesMembers, BlamesNumber, BlamesStream, MayName, Names, ReadsHex, ReadsMessage, ReadsObject, ReadsText, ReadsValue, are_members, is_member};

use crate::id::{Id, LONGEST_ID};
use crate::lines::LineFault;
use amo_packet::{Message, MessageFault};
use amo_text::{read_decimal, read_message, read_stream};
use json::{Error, Reader, Scratch, Token, Value};
use std::alloc::{AllocError, Global};
use std::str;

/// A longer text is no line, however it is spelt.
const LONGEST_LINE: usize = 4096;

/// The message of a line that is a JSON object, with its stream, or why it is none; and its id. Where it is no JSON, or has a member twice, there is none.
pub(crate) fn read_object(
    alloc: Global,
    line: &[u8],
) -> Result<(Result<(u32, Message), LineFault>, Id), AllocError>
    ensures read { IfOk result (λ r. ReadsObject line.now r.0) }
    ensures id { IfOk result (λ r. Names line.now r.0 r.1) }
{
    if line.len() > LONGEST_LINE {
        return Ok((Err(LineFault::TooLongLine), Id::none()));
    }
    let Ok(text) = str::from_utf8(line) else {
        return Ok((Err(LineFault::NoJson), Id::none()));
    };
    let mut scratch = Scratch::new(alloc);
    match Value::parse_strict(alloc, text, &mut scratch) {
        Ok(value) => {
            let id = Id::of(alloc, &value)?;
            let read = read_value(alloc, &value)?;
            Ok((read, id))
        }
        Err(Error::DuplicateKey) => Ok((Err(LineFault::Twice), Id::none())),
        Err(Error::Invalid) => Ok((Err(why_no_json(alloc, text)?), Id::none())),
        Err(_) => Err(AllocError),
    }
}

/// Why a text is no JSON: a string in it is none, or it is otherwise none.
fn why_no_json(alloc: Global, text: &str) -> Result<LineFault, AllocError>
    requires { document text.now ≡ None }
    ensures { IfOk result (λ fault. ReadsObject text.now (Err fault)) }
{
    let mut scratch = Scratch::new(alloc);
    let mut reader = Reader::new(text, &mut scratch)?;
    'tokens: for _token in 0..text.len() {
        match reader.next() {
            Some(Token::Bad) | None => break,
            Some(_) => (),
        }
    }
    match text.as_bytes().get(reader.offset()) {
        Some(b'"') => Ok(LineFault::NoString),
        _ => Ok(LineFault::NoJson),
    }
}

/// The message of an object, with its stream, or why it is none.
fn read_value(
    alloc: Global,
    value: &Value<'_>,
) -> Result<Result<(u32, Message), LineFault>, AllocError>
    ensures { IfOk result (ReadsValue (value_view value.now)) }
{
    if let Err(fault) = check_members(value) {
        return Ok(Err(fault));
    }
    if let Err(fault) = check_id(value) {
        return Ok(Err(fault));
    }
    let stream = match stream_of(value) {
        Ok(stream) => stream,
        Err(fault) => return Ok(Err(fault)),
    };
    match message_of(alloc, value)? {
        Ok(message) => Ok(Ok((stream, message))),
        Err(fault) => Ok(Err(fault)),
    }
}

/// Refuses what is no object, and a member of another name.
fn check_members(value: &Value<'_>) -> Result<(), LineFault>
    ensures ok { OnOk result ((members : Members) × (as_object (value_view value.now) ≡ Some members) × (are_members members ≡ true)) }
    ensures err { IfErr result (BlamesMembers (as_object (value_view value.now))) }
{
    let Value::Object(members) = value else {
        return Err(LineFault::NoObject);
    };
    if are_members(members.as_slice()) {
        Ok(())
    } else {
        Err(LineFault::Unknown)
    }
}

/// Whether all members have names that are known.
fn are_members(members: &[(&str, Value<'_>)]) -> bool
    ensures { result ≡ are_members (members_view members.now) }
{
    'members: for member in members {
        if !is_member(member.0) {
            return false;
        }
    }
    true
}

/// Whether a member has such a name.
fn is_member(name: &str) -> bool
    ensures { result ≡ is_member name.now }
{
    name == "stream" || name == "id" || name == "text" || name == "hex"
}

/// Refuses an id that is no string, and one that is too long.
fn check_id(value: &Value<'_>) -> Result<(), LineFault>
    ensures ok { OnOk result (MayName (get (codes "id") (value_view value.now))) }
    ensures err { IfErr result (BlamesId (get (codes "id") (value_view value.now))) }
{
    let Some(member) = value.get("id") else {
        return Ok(());
    };
    let Some(name) = member.as_str() else {
        return Err(LineFault::NoId);
    };
    if name.len() > LONGEST_ID {
        return Err(LineFault::LongId(name.len()));
    }
    Ok(())
}

/// The stream of an object.
fn stream_of(value: &Value<'_>) -> Result<u32, LineFault>
    ensures ok { IfOk result (λ stream. IsStream stream × (option_and_then as_number (get (codes "stream") (value_view value.now)) ≡ Some (decimal stream))) }
    ensures err { IfErr result (BlamesStream (option_and_then as_number (get (codes "stream") (value_view value.now)))) }
{
    let Some(member) = value.get("stream") else {
        return Err(LineFault::NoNumber);
    };
    let Some(number) = member.as_number() else {
        return Err(LineFault::NoNumber);
    };
    match read_stream(number.as_bytes()) {
        Some(stream) => Ok(stream),
        None => Err(no_stream(number.as_bytes())),
    }
}

/// Why a number is that of no stream.
fn no_stream(number: &[u8]) -> LineFault
    ensures { BlamesNumber number.now result }
{
    match read_decimal(number) {
        Some(number) => LineFault::Stream(number),
        None => LineFault::NoNumber,
    }
}

/// The message of an object.
fn message_of(alloc: Global, value: &Value<'_>) -> Result<Result<Message, LineFault>, AllocError>
    ensures { IfOk result (ReadsMessage (get (codes "text") (value_view value.now)) (get (codes "hex") (value_view value.now))) }
{
    match (value.get("text"), value.get("hex")) {
        (Some(text), None) => message_of_text(alloc, text),
        (None, Some(bytes)) => message_of_hex(alloc, bytes),
        (None, None) => Ok(Err(LineFault::NoMessage)),
        (Some(_), Some(_)) => Ok(Err(LineFault::OneMessage)),
    }
}

/// The message that is a string.
fn message_of_text(
    alloc: Global,
    value: &Value<'_>,
) -> Result<Result<Message, LineFault>, AllocError>
    ensures { IfOk result (ReadsText (value_view value.now)) }
{
    let Some(text) = value.as_str() else {
        return Ok(Err(LineFault::NoText));
    };
    match copied(alloc, text.as_bytes())? {
        Some(message) => Ok(Ok(message)),
        None => Ok(Err(LineFault::TooLong(text.len()))),
    }
}

/// A message of these bytes, unless they are too many.
fn copied(alloc: Global, bytes: &[u8]) -> Result<Option<Message>, AllocError>
    ensures some { IfOk result (λ read. IfSome read (λ message. IsMessage message × (message ≡ bytes.now))) }
    ensures none { IfOk result (λ read. IfNone read (1024 < length bytes.now)) }
{
    match Message::copy(alloc, bytes) {
        Ok(message) => Ok(Some(message)),
        Err(MessageFault::TooLong) => Ok(None),
        Err(MessageFault::NoMemory) => Err(AllocError),
    }
}

/// The message that a string spells in HEX.
fn message_of_hex(
    alloc: Global,
    value: &Value<'_>,
) -> Result<Result<Message, LineFault>, AllocError>
    ensures { IfOk result (ReadsHex (value_view value.now)) }
{
    let Some(text) = value.as_str() else {
        return Ok(Err(LineFault::NoHex));
    };
    match read_message(alloc, text.as_bytes())? {
        Some(message) => Ok(Ok(message)),
        None => Ok(Err(LineFault::NoHex)),
    }
}
