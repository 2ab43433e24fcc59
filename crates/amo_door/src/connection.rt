//! A connection of a client.
ghost use Rattle.std.specs.Prelude.{◌≡◌, ◌≤◌, ◌<◌, ◌↔◌, ◌⊎◌, ◌++◌, ℕ, List, [], drop, false, true, length, min, not, position, take, if◌then◌else◌, IfOk, IfSome, IsSome, IsTrue, MatchResult, OnErr, OnOk};
ghost use Rattle.amo_door.specs.Connection.{Answers, Begins, Comes, Ends, Finishes, Goes, GoesOn, PassesOver, ReadsTheSame, Extends, MayCome, Refuses, Settles, SpellsAnswer, SpellsFront, SpellsRefusal, SpellsText, Tells, begins_with_head, behind_blank, blank_length, closed, counted, is_body, knowing_method, over, phase_of, room_of, taken_at, taken_count, throws, unused, wants_input, without_sent};
ghost use Rattle.amo_door.specs.declared.connection.Stage.TheVariants as stage;
ghost use Rattle.amo_door.specs.Requests.{HasRead, MayStep, ReadsCoded, ReadsOn, Steps};
ghost use Rattle.amo_door.specs.declared.head.Reader.{Reader as AnyReader};
ghost use Rattle.http1.specs.Message.{Request};
ghost use Rattle.http1.specs.ReadError.{is_line_end};
ghost use Rattle.http1.specs.Server.{has_codings};
ghost use Rattle.http1.specs.ServerTrace.{headers_at};
ghost use Rattle.httparse.specs.Spans.{IsRequestWithin, span_bytes};

use crate::head::{read_head, refusal_of};
use crate::spelling::write_answer;
use crate::{Answer, Call, Reader, Refusal};
use amo_packet::{MAX_MESSAGE, Message, MessageFault};
use bytes::BytesMut;
use http1::{BodySize, Event, Header, Limits, Server, WriteError};
use httparse::spans::{EMPTY_HEADER_SPAN, HeaderSpan, RequestSpans, Span};
use std::alloc::{AllocError, Global};
use std::marker::Model;

/// The longest head of a request, in bytes.
pub const LONGEST_HEAD: usize = 16 * 1024;

/// The most fields of a head.
const MOST_FIELDS: usize = 64;

/// The most bytes that came and wait to be read.
pub const MOST_INPUT: usize = 17 * 1024;

/// While more bytes than these wait to be sent, no more requests are read.
pub const MOST_OUTPUT: usize = 64 * 1024;

/// The most bytes that are thrown away behind a request that was refused before it had come whole.
const MOST_THROWN: usize = 256 * 1024;

/// The most events that a read of what waits can have.
const MOST_EVENTS: usize = 4 * MOST_INPUT;

/// What a connection is at.
#[derive(Clone, Copy, PartialEq, Eq)]
enum Stage {
    /// Requests are read.
    Reading,
    /// A request came whole, and waits for its answer.
    Asked,
    /// The client is told what happens, until it goes.
    Following,
    /// What is pending is sent, and no more is read.
    Closing,
    /// There is no more to do.
    Over,
}

/// What a connection is at, for those who bound how long that may last.
#[derive(Clone, Copy, PartialEq, Eq)]
pub enum Phase {
    /// No request has begun.
    Idle,
    /// A head has begun, and has not come whole.
    Head,
    /// A body has not come whole.
    Body,
    /// A request waits for its answer.
    Asked,
    /// The client is told what happens.
    Following,
    /// What is pending is sent, and no more is read.
    Closing,
    /// There is no more to do.
    Over,
}

/// A request whose body has not come whole.
#[derive(Drop)]
struct Begun {
    call: Result<Call, Refusal>,
    /// How many bytes its body may have.
    room: usize,
}

/// What a connection waits for, or has.
#[derive(Drop)]
pub enum Step {
    /// A request that came whole, with the message that is its body. It wants an answer, and no more is read before.
    Call { call: Call, message: Message },
    /// It waits for bytes from the client, for an answer, or until what is pending is sent.
    Wait,
    /// There is no more to do: what was pending is sent, or cannot be.
    Over,
}

/// A connection of a client: bytes come in, and calls come out; answers go in, and bytes go out, in the order of the requests. It knows no socket and no
/// clock: who has these hands it what came, and sends what it has.
///
/// It wants no more memory than [`MOST_INPUT`], a message, [`MOST_OUTPUT`] and one answer.
#[derive(Drop)]
pub struct Connection {
    alloc: Global,
    server: Server,
    input: BytesMut,
    output: BytesMut,
    begun: Option<Begun>,
    body: Vec<u8>,
    is_head: bool,
    has_ended: bool,
    thrown: usize,
    answered: u64,
    stage: Stage,
}

impl Model for Connection {
    ghost use Rattle.std.specs.Prelude.{◌≤◌, is_some, length};
    ghost use Rattle.std.specs.Option.{option_map};
    ghost use Rattle.amo_door.specs.Connection.{ConnectionState};

    ghost Value = { ConnectionState };

    ghost view = { λ c. record { input = c.input.items; output = c.output.items; server = c.server; wants_head = c.is_head; stage = c.stage; has_begun = is_some c.begun; has_ended = c.has_ended; thrown = c.thrown; answered = c.answered; asks = option_map (λ begun. begun.call) c.begun; body = c.body.items } };

    ghost invariant = { λ c. length c.input.items ≤ 17408 };
}

impl Connection {
    /// A connection on which nothing came.
    pub fn new(alloc: Global) -> Connection
        ensures value { result ≡ unused }
        ensures read { (reader : AnyReader) → HasRead reader [] [] result }
    {
        let limits = Limits {
            max_head_len: LONGEST_HEAD,
            max_extensions_len: 1024,
            max_trailers_len: 1024,
        };
        Connection {
            alloc,
            server: Server::new(limits),
            input: BytesMut::new(alloc),
            output: BytesMut::new(alloc),
            begun: None,
            body: Vec::new(alloc),
            is_head: false,
            has_ended: false,
            thrown: 0,
            answered: 0,
            stage: Stage::Reading,
        }
    }

    /// The law of connections: what came and waits is bounded, whatever was called before. It does nothing.
    pub fn is_bounded(&self)
        ensures { length self.now.input ≤ MOST_INPUT }
    {
        let _input = self.input.len();
    }

    /// Whether more bytes of the client are wanted: else they are left with the system, which holds the client back.
    pub fn wants_input(&self) -> bool
        ensures { result ≡ wants_input self.now }
    {
        let has_room = match self.stage {
            Stage::Reading | Stage::Asked | Stage::Following => self.input.len() < MOST_INPUT,
            Stage::Closing => true,
            Stage::Over => false,
        };
        !self.has_ended && has_room
    }

    /// Whether a request waits for its answer.
    pub fn is_asked(&self) -> bool
        ensures { IsTrue result ↔ (self.now.stage ≡ stage.Asked) }
    {
        self.stage == Stage::Asked
    }

    /// Whether the client is told what happens.
    pub fn is_following(&self) -> bool
        ensures { IsTrue result ↔ (self.now.stage ≡ stage.Following) }
    {
        self.stage == Stage::Following
    }

    /// Whether there is no more to do.
    pub fn is_over(&self) -> bool
        ensures { IsTrue result ↔ (self.now.stage ≡ stage.Over) }
    {
        self.stage == Stage::Over
    }

    /// What it is at.
    pub fn phase(&self) -> Phase
        ensures { result ≡ phase_of self.now }
    {
        match self.stage {
            Stage::Reading if self.begun.is_some() => Phase::Body,
            Stage::Reading if self.input.is_empty() => Phase::Idle,
            Stage::Reading => Phase::Head,
            Stage::Asked => Phase::Asked,
            Stage::Following => Phase::Following,
            Stage::Closing => Phase::Closing,
            Stage::Over => Phase::Over,
        }
    }

    /// How many requests were answered, refusals among them.
    pub fn answered(&self) -> u64
        ensures { result ≡ self.now.answered }
    {
        self.answered
    }

    /// How many bytes [`Connection::take`] takes now at once.
    pub fn room(&self) -> usize
        ensures within { result ≤ MOST_INPUT }
        ensures value { result ≡ room_of self.now }
    {
        match self.stage {
            Stage::Closing => MOST_INPUT,
            _ => MOST_INPUT - self.input.len(),
        }
    }

    /// Takes as many of these bytes as there is room for, and tells how many these are. Behind a refusal they are thrown away.
    pub fn take(&mut self, bytes: &[u8]) -> Result<usize, AllocError>
        ensures within { IfOk result (λ count. count ≤ length bytes.now) }
        ensures count { IfOk result (λ count. count ≡ taken_count self.old.stage (length self.old.input) (length bytes.now)) }
        ensures taken { IfOk result (λ count. self.new ≡ taken_at self.old.stage self.old bytes.now count) }
        ensures err { OnErr result (self.new ≡ self.old) }
        // What came stands behind what came before.
        ensures read { (reader : AnyReader) (came : List ℕ) (past : List Request) → HasRead reader came past self.old → IfOk result (λ count. HasRead reader (came ++ take count bytes.now) past self.new) }
    {
        if self.stage == Stage::Closing {
            self.throw(bytes.len());
            return Ok(bytes.len());
        }
        let count = bytes.len().min(MOST_INPUT - self.input.len());
        self.input.extend_from_slice(&bytes[..count])?;
        Ok(count)
    }

    /// So many bytes were thrown away. A client that sends on and on is let go.
    fn throw(&mut self, count: usize)
        ensures { self.new ≡ throws count self.old }
    {
        self.thrown = self.thrown.saturating_add(count);
        if self.thrown > MOST_THROWN {
            self.stage = Stage::Over;
        }
    }

    /// The client sends no more. What it asked is answered all the same.
    pub fn end_input(&mut self)
        ensures { self.new ≡ record self.old { has_ended = true } }
    {
        self.has_ended = true;
    }

    /// What is to be sent to the client.
    pub fn output(&self) -> &[u8]
        ensures { result.now ≡ self.now.output }
    {
        self.output.as_slice()
    }

    /// Whether so much of it waits that no more requests are read, and who follows is not to be told more.
    pub fn has_much_to_send(&self) -> bool
        ensures { IsTrue result ↔ (MOST_OUTPUT < length self.now.output) }
    {
        self.output.len() > MOST_OUTPUT
    }

    /// So many bytes of it were sent.
    pub fn sent(&mut self, count: usize)
        requires { count ≤ length self.old.output }
        ensures { self.new ≡ without_sent count self.old }
    {
        self.output.advance(count);
        if self.stage == Stage::Closing && self.output.is_empty() {
            self.stage = Stage::Over;
        }
    }

    /// Goes on with what came. Requests that are refused it answers itself. Where memory is refused the connection is over.
    pub fn next(&mut self, reader: &Reader<'_>) -> Result<Step, AllocError>
        ensures goes { Goes self.old.stage self.old result self.new }
        // Of the bytes that came the next requests are read, as HTTP/1's grammar has them: those that are refused, and then the one that is given.
        ensures read { (came : List ℕ) (past : List Request) → HasRead reader.now came past self.old → MatchResult result (Steps reader.now came past self.new) (λ _. ReadsOn reader.now came past self.new) }
    {
        match self.stage {
            Stage::Reading => self.read_on(reader),
            Stage::Following => {
                self.end_following();
                Ok(Step::Wait)
            }
            Stage::Asked | Stage::Closing => Ok(Step::Wait),
            Stage::Over => Ok(Step::Over),
        }
    }

    /// One who follows, and sends no more, is let go.
    fn end_following(&mut self)
        ensures { self.new ≡ (if self.old.has_ended then closed self.old else self.old) }
    {
        if self.has_ended {
            self.close();
        }
    }

    /// Reads requests, until one came whole or no more can be read.
    fn read_on(&mut self, reader: &Reader<'_>) -> Result<Step, AllocError>
        requires { self.old.stage ≡ stage.Reading }
        ensures goes { MatchResult result (Comes self.old self.new) (λ _. GoesOn self.old self.new × (self.new.stage ≡ stage.Over)) }
        ensures read { (came : List ℕ) (past : List Request) → HasRead reader.now came past self.old → MatchResult result (Steps reader.now came past self.new) (λ _. ReadsOn reader.now came past self.new) }
    {
        let mut spans = [EMPTY_HEADER_SPAN; MOST_FIELDS];
        for _event in 0..MOST_EVENTS {
            match self.read(reader, &mut spans) {
                Ok(Some(step)) => return Ok(step),
                Ok(None) => {}
                Err(error) => {
                    self.stage = Stage::Over;
                    return Err(error);
                }
            }
            if self.stage != Stage::Reading {
                break;
            }
        }
        match self.stage {
            Stage::Over => Ok(Step::Over),
            _ => Ok(Step::Wait),
        }
    }

    /// One event of what came; none where there may be more.
    fn read(
        &mut self,
        reader: &Reader<'_>,
        spans: &mut [HeaderSpan],
    ) -> Result<Option<Step>, AllocError>
        requires { self.old.stage ≡ stage.Reading }
        ensures ok { IfOk result (MayCome self.old self.new) }
        ensures err { OnErr result (GoesOn self.old self.new) }
        ensures read { (came : List ℕ) (past : List Request) → HasRead reader.now came past self.old → IfOk result (MayStep reader.now came past self.new) }
    {
        if self.has_much_to_send() {
            return Ok(Some(Step::Wait));
        }
        let read = match self.server.read(self.input.as_slice(), spans) {
            Ok(read) => read,
            Err(error) => {
                self.refuse(refusal_of(error))?;
                return Ok(Some(Step::Wait));
            }
        };
        match read.event {
            Event::Head(head) => {
                self.begin(reader, &head, spans);
                self.drop_front(read.consumed);
                self.go_on()?;
                Ok(None)
            }
            Event::Data(piece) => {
                self.keep(piece)?;
                self.drop_front(read.consumed);
                Ok(None)
            }
            Event::End(_) => {
                self.drop_front(read.consumed);
                self.finish()
            }
            Event::NeedMore => {
                self.drop_front(read.consumed);
                self.need_more();
                Ok(Some(Step::Wait))
            }
            _ => {
                self.close();
                Ok(Some(Step::Wait))
            }
        }
    }

    /// Drops what was read, where it is still there: a refusal drops all.
    fn drop_front(&mut self, count: usize)
        ensures goes_on { GoesOn self.old self.new }
        ensures dropped { self.new ≡ record self.old { input = drop (min count (length self.old.input)) self.old.input } }
    {
        let count = count.min(self.input.len());
        self.input.advance(count);
    }

    /// Takes the request whose head is in front of the input.
    fn begin(&mut self, reader: &Reader<'_>, head: &RequestSpans, spans: &[HeaderSpan])
        requires { IsRequestWithin self.old.input spans.now head.now }
        ensures begun { self.new ≡ record self.old { wants_head = self.new.wants_head; has_begun = true; asks = self.new.asks; body = [] } }
        ensures asks { IfSome self.new.asks (ReadsCoded (has_codings self.old.server) reader.now (span_bytes self.old.input head.now.method) (span_bytes self.old.input head.now.path) (headers_at self.old.input spans.now head.now.headers)) × IsSome self.new.asks }
    {
        let input = self.input.as_slice();
        let call = if self.server.has_codings() {
            Err(Refusal::Coding)
        } else {
            read_head(reader, input, head, spans)
        };
        let room = match &call {
            Ok(Call::Put(_) | Call::PutNext { .. }) => MAX_MESSAGE,
            _ => 0,
        };
        self.is_head = head.method.of(input) == b"HEAD".as_slice();
        self.begun = Some(Begun { call, room });
        self.body.clear();
    }

    /// Goes on behind a head: a body that is not to be read refuses the request, and one that the client holds back is asked for.
    fn go_on(&mut self) -> Result<(), AllocError>
        ensures goes_on { GoesOn self.old self.new }
        ensures reads { OnOk result (Ends self.new.stage ⊎ ReadsTheSame self.old self.new) }
    {
        let Some(begun) = &self.begun else {
            return Ok(());
        };
        let size = self.server.unread_size();
        let is_too_long = match size {
            BodySize::Known(size) => size > begun.room as u64,
            BodySize::Empty | BodySize::Unknown => false,
        };
        match begun.call {
            Err(refusal) if is_body(size) => self.refuse(refusal),
            Err(_) => Ok(()),
            Ok(_) if is_too_long => self.refuse(Refusal::TooLong),
            Ok(_) => self.ask_on(),
        }
    }

    /// Asks for the body where the client waits to be asked.
    fn ask_on(&mut self) -> Result<(), AllocError>
        ensures output { Extends self.old.output self.new.output }
        ensures kept { self.new ≡ record self.old { output = self.new.output; server = self.new.server } }
        ensures reads { OnOk result (ReadsTheSame self.old self.new) }
    {
        if !self.server.expects_continue() {
            return Ok(());
        }
        match self
            .server
            .write_informational(&mut self.output, 100, b"Continue", &[])
        {
            Err(WriteError::OutOfMemory) => Err(AllocError),
            Ok(()) | Err(_) => Ok(()),
        }
    }

    /// Keeps a piece of the body, which lies so in the input.
    fn keep(&mut self, piece: Span) -> Result<(), AllocError>
        requires { (piece.start ≤ piece.end) × (piece.end ≤ length self.old.input) }
        ensures goes_on { GoesOn self.old self.new }
        ensures kept { OnOk result (Ends self.new.stage ⊎ (self.new ≡ record self.old { body = self.old.body ++ span_bytes self.old.input piece })) }
    {
        let bytes = piece.of(self.input.as_slice());
        let room = match &self.begun {
            Some(begun) => begun.room,
            None => 0,
        };
        if self.body.len().saturating_add(bytes.len()) > room {
            return self.refuse(Refusal::TooLong);
        }
        self.body.extend_from_slice(bytes)
    }

    /// The request came whole.
    fn finish(&mut self) -> Result<Option<Step>, AllocError>
        ensures ok { length self.old.output ≤ MOST_OUTPUT → IfOk result (MayCome self.old self.new) }
        ensures err { OnErr result (GoesOn self.old self.new) }
        ensures finished { IfOk result (Finishes self.old self.new) }
    {
        let Some(begun) = self.begun.take() else {
            return Ok(None);
        };
        let call = match begun.call {
            Ok(call) => call,
            Err(refusal) => {
                self.pass_over(refusal)?;
                return Ok(None);
            }
        };
        match Message::copy(self.alloc, self.body.as_slice()) {
            Ok(message) => {
                self.stage = Stage::Asked;
                Ok(Some(Step::Call { call, message }))
            }
            Err(MessageFault::NoMemory) => Err(AllocError),
            Err(MessageFault::TooLong) => {
                self.refuse(Refusal::TooLong)?;
                Ok(Some(Step::Wait))
            }
        }
    }

    /// Refuses a request that has come whole. The next one is read.
    fn pass_over(&mut self, refusal: Refusal) -> Result<(), AllocError>
        ensures goes_on { GoesOn self.old self.new }
        ensures passed { OnOk result (Ends self.new.stage ⊎ PassesOver self.old self.new) }
    {
        let answer = Answer::refusal(self.alloc, refusal)?;
        self.write(&answer, false)
    }

    /// No whole event is there. Where the client sends no more, there will be none.
    fn need_more(&mut self)
        ensures { self.new ≡ (if self.old.has_ended then closed self.old else self.old) }
    {
        if self.has_ended {
            self.close();
        }
    }

    /// Reads no more. What is pending is sent.
    fn close(&mut self)
        ensures { self.new ≡ closed self.old }
    {
        self.input.clear();
        self.begun = None;
        self.stage = if self.output.is_empty() {
            Stage::Over
        } else {
            Stage::Closing
        };
    }

    /// Refuses the request that has begun, and reads no more: the rest of it may still come, and is thrown away. Where no head has come there is nothing
    /// to answer, and what is pending is sent.
    pub fn refuse(&mut self, refusal: Refusal) -> Result<(), AllocError>
        ensures refused { Refuses self.old result self.new }
        ensures spelt { OnOk result (SpellsRefusal refusal self.old self.new) }
        ensures goes_on { GoesOn self.old self.new }
    {
        let answer = Answer::refusal(self.alloc, refusal)?;
        self.note_method();
        self.write(&answer, true)?;
        self.close();
        Ok(())
    }

    /// Where no whole head has come, what came of it tells whether the request wants the head of its answer alone.
    fn note_method(&mut self)
        ensures { self.new ≡ knowing_method self.old }
    {
        if self.stage == Stage::Reading && self.begun.is_none() {
            self.is_head = begins_with_head(self.input.as_slice());
        }
    }

    /// Answers the request that waits for it. Where none does, or it cannot be spelt, the connection is over.
    pub fn answer(&mut self, answer: &Answer) -> Result<(), AllocError>
        ensures answered { Answers self.old.stage self.old result self.new }
        ensures spelt { OnOk result (self.old.stage ≡ stage.Asked → SpellsAnswer answer.now false self.old self.new) }
        ensures read { (reader : AnyReader) (came : List ℕ) (past : List Request) → HasRead reader came past self.old → HasRead reader came past self.new }
    {
        if self.stage != Stage::Asked {
            self.stage = Stage::Over;
            return Ok(());
        }
        self.stage = Stage::Reading;
        self.write(answer, false)?;
        if self.server.is_closed() {
            self.close();
        }
        Ok(())
    }

    /// Answers the request that waits for it with what happens from now on (server-sent events, of the HTML standard): [`Connection::tell`] goes on.
    pub fn follow(&mut self) -> Result<(), AllocError>
        ensures begun { Begins self.old.stage self.old result self.new }
        ensures spelt { OnOk result (self.old.stage ≡ stage.Asked → SpellsFront self.old self.new) }
    {
        if self.stage != Stage::Asked {
            self.stage = Stage::Over;
            return Ok(());
        }
        let fields = [
            Header {
                name: b"cache-control",
                value: b"no-store",
            },
            Header {
                name: b"x-content-type-options",
                value: b"nosniff",
            },
            Header {
                name: b"content-type",
                value: b"text/event-stream",
            },
        ];
        let written = self
            .server
            .write_response(&mut self.output, 200, b"OK", &fields, BodySize::Unknown);
        self.stage = Stage::Following;
        self.settle(written)
    }

    /// Tells a client that follows what happened, in the text of such events. One that lags too far behind is let go.
    pub fn tell(&mut self, text: &[u8]) -> Result<(), AllocError>
        ensures told { Tells self.old.stage self.old result self.new }
        ensures spelt { OnOk result (self.old.stage ≡ stage.Following → length self.old.output ≤ MOST_OUTPUT → SpellsText text.now self.old self.new) }
    {
        if self.stage != Stage::Following {
            return Ok(());
        }
        if self.has_much_to_send() {
            self.stage = Stage::Over;
            return Ok(());
        }
        let written = self.server.write_data(&mut self.output, text);
        self.settle(written)
    }

    /// What could not be written whole ends the connection.
    fn settle(&mut self, written: Result<(), WriteError>) -> Result<(), AllocError>
        ensures { Settles self.old written result self.new }
    {
        match written {
            Ok(()) => Ok(()),
            Err(WriteError::OutOfMemory) => {
                self.stage = Stage::Over;
                Err(AllocError)
            }
            Err(_) => {
                self.stage = Stage::Over;
                Ok(())
            }
        }
    }

    /// Appends an answer to what is to be sent.
    fn write(&mut self, answer: &Answer, closes: bool) -> Result<(), AllocError>
        ensures output { Extends self.old.output self.new.output }
        ensures ok { OnOk result ((self.new ≡ counted self.old self.new.output self.new.server) ⊎ (self.new ≡ over (counted self.old self.new.output self.new.server))) }
        ensures err { OnErr result (self.new ≡ over (counted self.old self.new.output self.new.server)) }
        ensures spelt { OnOk result (SpellsAnswer answer.now closes self.old self.new) }
        ensures counts { self.old.answered ≤ self.new.answered }
    {
        let written = write_answer(
            self.alloc,
            &mut self.server,
            &mut self.output,
            answer,
            self.is_head,
            closes,
        );
        self.is_head = false;
        self.answered = self.answered.saturating_add(1);
        self.settle(written)
    }
}

/// Whether a request begins so that wants the head of its answer alone.
fn begins_with_head(input: &[u8]) -> bool
    ensures { result ≡ begins_with_head input.now }
{
    let request = behind_blank(input);
    let front = &request[..5.min(request.len())];
    front == b"HEAD ".as_slice()
}

/// What stands behind the empty lines that may stand in front of a request.
fn behind_blank(input: &[u8]) -> &[u8]
    ensures { result.now ≡ behind_blank input.now }
{
    &input[blank_length(input)..]
}

/// The length of these lines.
fn blank_length(input: &[u8]) -> usize
    ensures value { result ≡ blank_length input.now }
    ensures within { result ≤ length input.now }
{
    match first_other(input) {
        Some(place) => place,
        None => input.len(),
    }
}

/// The place of the first byte that belongs to no such line.
fn first_other(input: &[u8]) -> Option<usize>
    ensures value { result ≡ position (λ byte. not (is_line_end byte)) input.now }
    ensures within { IfSome result (λ place. place < length input.now) }
{
    input.iter().position(|byte| !is_line_end(*byte))
}

/// Whether HTTP/1 takes this for the end of a line, or a part of it.
fn is_line_end(byte: u8) -> bool
    ensures { result ≡ is_line_end byte }
{
    byte == b'\r' || byte == b'\n'
}

/// Whether a body of this size is still to come. Behind a head without one HTTP/1 says that 0 bytes are.
fn is_body(size: BodySize) -> bool
    ensures { result ≡ is_body size }
{
    !matches!(size, BodySize::Empty | BodySize::Known(0))
}
