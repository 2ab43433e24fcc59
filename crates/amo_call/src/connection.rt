//! A request and its answer, over a connection.
ghost use Rattle.std.specs.Prelude.{◌≡◌, ◌≤◌, All, IfOk, IfSome, length};
ghost use Rattle.amo_call.specs.Answer.{IsOfDoor};
ghost use Rattle.httparse.specs.Spans.{IsHeaderWithin, IsResponseWithin};

use crate::answer::is_of_door;
use crate::{CallFault, Request, Response};
use amo_door::Method;
use amo_text::read_decimal;
use bytes::BytesMut;
use http1::{BodySize, Client, Event, Header, Limits, WriteError};
use httparse::spans::{EMPTY_HEADER_SPAN, HeaderSpan, ResponseSpans, Span};
use std::alloc::{AllocFailed, Global};
use std::io::{ErrorKind, Read, Write};
use std::mem;

/// The most fields of a head.
const MOST_FIELDS: usize = 64;

/// How much is read at once, in bytes.
const PIECE: usize = 8 * 1024;

/// The longest body, in bytes: a page of what was got has less.
const LONGEST_BODY: usize = 4 * 1024 * 1024;

/// Who asks at a door: by which name, and with which token.
#[derive(Debug, Drop)]
pub struct Asker {
    /// The address, as the field `Host` names it.
    pub host: String,
    /// The field `Authorization`, if a token is wanted.
    pub authorization: Option<String>,
}

/// What is read of an answer.
#[derive(Drop)]
pub(crate) struct Reading {
    client: Client,
    input: BytesMut,
    /// What its head tells, once that has come.
    head: Option<Head>,
    /// What came of its body, and was not taken out.
    pub(crate) body: Vec<u8>,
}

/// What the head of an answer tells.
#[derive(Clone, Copy, PartialEq, Eq)]
struct Head {
    status: u16,
    stream: Option<u64>,
    number: Option<u64>,
    line: Option<u64>,
}

/// Sends a request over a connection on which nothing was sent, and waits for the door's answer. None where none comes whole: the request may have been
/// done. What comes of a proxy between that had no answer of its door is none.
pub fn exchange<S: Read + Write>(
    alloc: Global,
    stream: &mut S,
    who: &Asker,
    request: &Request,
) -> Result<Option<Response>, CallFault>
    ensures { IfOk result (λ answer. IfSome answer IsOfDoor) }
{
    let Some(mut reading) = begin(alloc, stream, who, request)? else {
        return Ok(None);
    };
    'reads: for _read in 0..u64::MAX {
        match reading.read(stream)? {
            Came::More => {}
            Came::Whole => return Ok(of_door(reading.response(alloc))),
            Came::Nothing => return Ok(None),
        }
    }
    Ok(None)
}

/// An answer that came, where it is one of a door.
pub(crate) fn of_door(response: Option<Response>) -> Option<Response>
    ensures { IfSome result IsOfDoor }
{
    match response {
        Some(response) if is_of_door(&response) => Some(response),
        _ => None,
    }
}

/// Sends a request over a connection on which nothing was sent. None where it did not leave whole.
pub(crate) fn begin<S: Write>(
    alloc: Global,
    stream: &mut S,
    who: &Asker,
    request: &Request,
) -> Result<Option<Reading>, CallFault> {
    let mut client = Client::new(Limits::default());
    let mut output = BytesMut::new(alloc);
    match write_request(alloc, &mut client, &mut output, who, request) {
        Ok(()) => {}
        Err(WriteError::OutOfMemory) => return Err(CallFault::NoMemory),
        Err(_) => return Err(CallFault::Strange),
    }
    if stream.write_all(output.as_slice()).is_err() {
        return Ok(None);
    }
    Ok(Some(Reading {
        client,
        input: BytesMut::new(alloc),
        head: None,
        body: Vec::new(alloc),
    }))
}

/// Appends a request. It is the only one of its connection.
fn write_request(
    alloc: Global,
    client: &mut Client,
    output: &mut BytesMut,
    who: &Asker,
    request: &Request,
) -> Result<(), WriteError> {
    let mut fields = Vec::new(alloc);
    push(&mut fields, b"host", who.host.as_bytes())?;
    push(&mut fields, b"connection", b"close")?;
    if let Some(authorization) = &who.authorization {
        push(&mut fields, b"authorization", authorization.as_bytes())?;
    }
    let (method, size) = match request.method {
        Method::Put => (
            b"PUT".as_slice(),
            BodySize::Known(request.body.len() as u64),
        ),
        Method::Post => (
            b"POST".as_slice(),
            BodySize::Known(request.body.len() as u64),
        ),
        _ => (b"GET".as_slice(), BodySize::Empty),
    };
    client.write_request(
        output,
        method,
        request.target.as_slice(),
        fields.as_slice(),
        size,
    )?;
    if !request.body.is_empty() {
        client.write_data(output, request.body.as_slice())?;
    }
    client.write_end(output, &[])
}

/// Appends a field.
fn push<'a>(
    fields: &mut Vec<Header<'a>>,
    name: &'a [u8],
    value: &'a [u8],
) -> Result<(), WriteError> {
    match fields.push(Header { name, value }) {
        Ok(()) => Ok(()),
        Err(AllocFailed { .. }) => Err(WriteError::OutOfMemory),
    }
}

/// What came of an answer.
#[derive(Clone, Copy, PartialEq, Eq)]
pub(crate) enum Came {
    /// More is to come.
    More,
    /// It is whole.
    Whole,
    /// No more comes, and it is not whole.
    Nothing,
}

impl Reading {
    /// Reads once. What is no answer of a door is a fault.
    pub(crate) fn read<S: Read>(&mut self, stream: &mut S) -> Result<Came, CallFault> {
        let mut room = [0; PIECE];
        match stream.read(room.as_mut_slice()) {
            Ok(0) => return Ok(Came::Nothing),
            Ok(count) => self.input.extend_from_slice(&room[..count])?,
            Err(error) if error.kind() == ErrorKind::Interrupted => return Ok(Came::More),
            Err(_) => return Ok(Came::Nothing),
        }
        self.take_in()
    }

    /// The status, once the head has come.
    pub(crate) fn status(&self) -> Option<u16> {
        Some(self.head?.status)
    }

    /// The answer, whose head has come, with what of its body was not taken out.
    pub(crate) fn response(&mut self, alloc: Global) -> Option<Response> {
        let head = self.head?;
        let mut body = Vec::new(alloc);
        mem::swap(&mut self.body, &mut body);
        Some(Response {
            status: head.status,
            stream: head.stream,
            number: head.number,
            line: head.line,
            body,
        })
    }

    /// Takes in what came.
    fn take_in(&mut self) -> Result<Came, CallFault> {
        let mut spans = [EMPTY_HEADER_SPAN; MOST_FIELDS];
        'events: for _event in 0..u32::MAX {
            let Ok(read) = self
                .client
                .read(self.input.as_slice(), spans.as_mut_slice())
            else {
                return Err(CallFault::Strange);
            };
            match read.event {
                Event::Head(head) => {
                    self.head = Some(head_of(self.input.as_slice(), &head, spans.as_slice()));
                }
                Event::Data(piece) => self.keep(piece)?,
                Event::Informational(_) => {}
                Event::End(_) => return Ok(Came::Whole),
                Event::NeedMore => {
                    self.input.advance(read.consumed);
                    return Ok(Came::More);
                }
                Event::Paused | Event::Upgraded | Event::Closed => return Err(CallFault::Strange),
            }
            self.input.advance(read.consumed);
        }
        Err(CallFault::Strange)
    }

    /// Keeps a piece of the body, which lies so in the input.
    fn keep(&mut self, piece: Span) -> Result<(), CallFault>
        requires { (piece.start ≤ piece.end) × (piece.end ≤ length self.old.input.items) }
        ensures { self.new.input ≡ self.old.input }
    {
        let bytes = piece.of(self.input.as_slice());
        if self.body.len().saturating_add(bytes.len()) > LONGEST_BODY {
            return Err(CallFault::Strange);
        }
        self.body.extend_from_slice(bytes)?;
        Ok(())
    }
}

/// What a head tells.
fn head_of(input: &[u8], head: &ResponseSpans, spans: &[HeaderSpan]) -> Head
    requires { IsResponseWithin input.now spans.now head.now }
{
    Head {
        status: head.code,
        stream: number_in(input, head, spans, b"amo-stream"),
        number: number_in(input, head, spans, b"amo-number"),
        line: number_in(input, head, spans, b"amo-line"),
    }
}

/// The number that the field of this name has in a head, if there is one.
fn number_in(input: &[u8], head: &ResponseSpans, spans: &[HeaderSpan], name: &[u8]) -> Option<u64>
    requires { IsResponseWithin input.now spans.now head.now }
{
    for field in &spans[..head.headers] {
        if field.name.of(input).eq_ignore_ascii_case(name) {
            return read_decimal(field.value.of(input));
        }
    }
    None
}
