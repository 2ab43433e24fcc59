//! Spells answers for a connection.
ghost use Rattle.std.specs.Fmt.{decimal};
ghost use Rattle.std.specs.Prelude.{◌≡◌, [], ◌∷◌, ◌++◌, IfErr, IfOk, OnErr, OnOk};
ghost use Rattle.http1.specs.declared.error.WriteError.TheVariants.{OutOfMemory};
ghost use Rattle.http1.specs.Head.{pairs};
ghost use Rattle.http1.specs.Server.{with_writing, writing};
ghost use Rattle.amo_door.specs.Connection.{Extends};
ghost use Rattle.amo_door.specs.Spelling.{Writes, after_answer, after_head, answer_fault, answer_text, behind_body, body_fault, body_text, close_fields, common_fields, extra_fields, fields_of, head_fault, head_text, page_fields, place_fields, reason_of, sent_body, size_of, type_fields};

use crate::{Answer, EventPlace, Extra, Kind};
use bytes::BytesMut;
use http1::{BodySize, Header, Server, WriteError};
use itoa::Buffer;
use std::alloc::{AllocFailed, Global};

/// Appends an answer to what is to be sent, without its body where the request asked for the head alone. Where it closes, it is the last one.
pub(crate) fn write_answer(
    alloc: Global,
    server: &mut Server,
    output: &mut BytesMut,
    answer: &Answer,
    is_head: bool,
    closes: bool,
) -> Result<(), WriteError>
    ensures extends { Extends output.old.items output.new.items }
    ensures ok { OnOk result (output.new.items ≡ output.old.items ++ answer_text server.old answer.now is_head closes) }
    ensures next { OnOk result (server.new ≡ after_answer server.old answer.now closes) }
    ensures outcome { Writes (answer_fault server.old answer.now is_head closes) result }
{
    write_head(alloc, server, output, answer, closes)?;
    write_body(server, output, answer, is_head)?;
    server.write_end(output, &[])
}

/// Appends the head of an answer.
fn write_head(
    alloc: Global,
    server: &mut Server,
    output: &mut BytesMut,
    answer: &Answer,
    closes: bool,
) -> Result<(), WriteError>
    ensures ok { OnOk result (output.new.items ≡ output.old.items ++ head_text server.old answer.now closes) }
    ensures next { OnOk result (server.new ≡ after_head server.old answer.now closes) }
    ensures kept { OnErr result (output.new.items ≡ output.old.items) }
    ensures outcome { Writes (head_fault server.old answer.now closes) result }
{
    let mut digits = Digits::new();
    let fields = fields_of(alloc, answer, closes, &mut digits)?;
    let size = size_of(answer);
    let reason = reason_of(answer.status).as_bytes();
    server.write_response(output, answer.status, reason, fields.as_slice(), size)
}

/// The fields of its head.
fn fields_of<'a>(
    alloc: Global,
    answer: &'a Answer,
    closes: bool,
    digits: &'a mut Digits,
) -> Result<Vec<Header<'a>>, WriteError>
    ensures ok { IfOk result (λ fields. pairs fields.items ≡ fields_of answer.now closes) }
    ensures memory { IfErr result (λ e. e ≡ OutOfMemory) }
{
    let mut fields = Vec::new(alloc);
    push_common(&mut fields)?;
    push_type(&mut fields, answer.kind)?;
    push_page(&mut fields, answer.kind)?;
    push_extra(&mut fields, answer.extra, digits)?;
    push_close(&mut fields, closes)?;
    Ok(fields)
}

/// The size of its body, as its head says it.
fn size_of(answer: &Answer) -> BodySize
    ensures { result ≡ size_of answer.now }
{
    match answer.kind {
        Kind::None => BodySize::Empty,
        _ => BodySize::Known(answer.body.len() as u64),
    }
}

/// Appends the body of an answer, where it has one and the request asked for it.
fn write_body(
    server: &mut Server,
    output: &mut BytesMut,
    answer: &Answer,
    is_head: bool,
) -> Result<(), WriteError>
    ensures extends { Extends output.old.items output.new.items }
    ensures ok { OnOk result (output.new.items ≡ output.old.items ++ body_text (writing server.old) (sent_body is_head answer.now.body.items)) }
    ensures next { OnOk result (server.new ≡ with_writing server.old (behind_body (writing server.old) (sent_body is_head answer.now.body.items))) }
    ensures outcome { Writes (body_fault (writing server.old) (sent_body is_head answer.now.body.items)) result }
{
    if is_head || answer.body.is_empty() {
        return Ok(());
    }
    server.write_data(output, answer.body.as_slice())
}

/// The digits of the numbers that a head has.
#[derive(Drop)]
struct Digits {
    stream: Buffer,
    number: Buffer,
    position: Buffer,
    line: Buffer,
}

impl Digits {
    fn new() -> Digits {
        Digits {
            stream: Buffer::new(),
            number: Buffer::new(),
            position: Buffer::new(),
            line: Buffer::new(),
        }
    }
}

/// Appends a field.
fn push<'a>(fields: &mut Vec<Header<'a>>, name: &'a [u8], value: &'a [u8]) -> Result<(), WriteError>
    ensures ok { OnOk result (pairs fields.new.items ≡ pairs fields.old.items ++ (name.now, value.now) ∷ []) }
    ensures memory { IfErr result (λ e. e ≡ OutOfMemory) }
{
    match fields.push(Header { name, value }) {
        Ok(()) => Ok(()),
        Err(AllocFailed { .. }) => Err(WriteError::OutOfMemory),
    }
}

/// Appends a field whose value is a number, which is spelt in these digits.
fn push_number<'a>(
    fields: &mut Vec<Header<'a>>,
    name: &'a [u8],
    number: u64,
    digits: &'a mut Buffer,
) -> Result<(), WriteError>
    ensures ok { OnOk result (pairs fields.new.items ≡ pairs fields.old.items ++ (name.now, decimal number) ∷ []) }
    ensures memory { IfErr result (λ e. e ≡ OutOfMemory) }
{
    push(fields, name, digits.format(number).as_bytes())
}

/// Appends what each answer says: nobody is to keep it, nor to take it for anything but what its type says.
fn push_common(fields: &mut Vec<Header<'_>>) -> Result<(), WriteError>
    ensures ok { OnOk result (pairs fields.new.items ≡ pairs fields.old.items ++ common_fields) }
    ensures memory { IfErr result (λ e. e ≡ OutOfMemory) }
{
    push(fields, b"cache-control", b"no-store")?;
    push(fields, b"x-content-type-options", b"nosniff")
}

/// Appends the type of a body, where there is one.
fn push_type(fields: &mut Vec<Header<'_>>, kind: Kind) -> Result<(), WriteError>
    ensures ok { OnOk result (pairs fields.new.items ≡ pairs fields.old.items ++ type_fields kind) }
    ensures memory { IfErr result (λ e. e ≡ OutOfMemory) }
{
    match kind {
        Kind::None => Ok(()),
        _ => push(fields, b"content-type", kind.media_type().as_bytes()),
    }
}

/// Appends what a browser may do with a page: what it is made for, and in no frame of another page, which could have somebody click on it unseen.
fn push_page(fields: &mut Vec<Header<'_>>, kind: Kind) -> Result<(), WriteError>
    ensures ok { OnOk result (pairs fields.new.items ≡ pairs fields.old.items ++ page_fields kind) }
    ensures memory { IfErr result (λ e. e ≡ OutOfMemory) }
{
    match kind {
        Kind::Page => {
            push(fields, b"x-frame-options", b"DENY")?;
            push(
                fields,
                b"content-security-policy",
                b"default-src 'none'; script-src 'unsafe-inline'; style-src 'unsafe-inline'; connect-src 'self'; img-src data:; form-action 'none'; base-uri 'none'; frame-ancestors 'none'",
            )
        }
        _ => Ok(()),
    }
}

/// Appends that the answer is the last one, where it is.
fn push_close(fields: &mut Vec<Header<'_>>, closes: bool) -> Result<(), WriteError>
    ensures ok { OnOk result (pairs fields.new.items ≡ pairs fields.old.items ++ close_fields closes) }
    ensures memory { IfErr result (λ e. e ≡ OutOfMemory) }
{
    if closes {
        return push(fields, b"connection", b"close");
    }
    Ok(())
}

/// Appends what the head says beside the body.
fn push_extra<'a>(
    fields: &mut Vec<Header<'a>>,
    extra: Extra,
    digits: &'a mut Digits,
) -> Result<(), WriteError>
    ensures ok { OnOk result (pairs fields.new.items ≡ pairs fields.old.items ++ extra_fields extra) }
    ensures memory { IfErr result (λ e. e ≡ OutOfMemory) }
{
    match extra {
        Extra::None => Ok(()),
        Extra::Allow(place) => push(fields, b"allow", place.methods().as_bytes()),
        Extra::RetryAfter(seconds) => {
            push_number(fields, b"retry-after", seconds, &mut digits.number)
        }
        Extra::Authenticate => push(fields, b"www-authenticate", b"Bearer"),
        Extra::Message {
            stream,
            number,
            place,
        } => push_message(fields, stream, number, place, digits),
    }
}

/// Appends where the message that is the body stands.
fn push_message<'a>(
    fields: &mut Vec<Header<'a>>,
    stream: u32,
    number: u64,
    place: EventPlace,
    digits: &'a mut Digits,
) -> Result<(), WriteError>
    ensures ok { OnOk result (pairs fields.new.items ≡ pairs fields.old.items ++ place_fields stream number place.position place.line) }
    ensures memory { IfErr result (λ e. e ≡ OutOfMemory) }
{
    let Digits {
        stream: stream_digits,
        number: number_digits,
        position: position_digits,
        line: line_digits,
    } = digits;
    push_number(fields, b"amo-stream", stream as u64, stream_digits)?;
    push_number(fields, b"amo-number", number, number_digits)?;
    push_number(fields, b"amo-position", place.position, position_digits)?;
    push_number(fields, b"amo-line", place.line, line_digits)
}

/// What a status means, in a word or two (RFC 9110, section 15).
fn reason_of(status: u16) -> &'static str
    ensures { result.now ≡ reason_of status }
{
    match status {
        200 => "OK",
        201 => "Created",
        204 => "No Content",
        400 => "Bad Request",
        401 => "Unauthorized",
        403 => "Forbidden",
        404 => "Not Found",
        405 => "Method Not Allowed",
        408 => "Request Timeout",
        409 => "Conflict",
        410 => "Gone",
        413 => "Content Too Large",
        414 => "URI Too Long",
        421 => "Misdirected Request",
        431 => "Request Header Fields Too Large",
        500 => "Internal Server Error",
        501 => "Not Implemented",
        503 => "Service Unavailable",
        _ => "Unknown",
    }
}
