//! What a request is answered.
ghost use Rattle.std.specs.Prelude.{◌≡◌, ◌++◌, [], IfOk, codes};
ghost use Rattle.amo_door.specs.declared.answer.Extra.TheVariants as AnyExtra;
ghost use Rattle.amo_door.specs.declared.answer.Kind.TheVariants as AnyKind;
ghost use Rattle.amo_door.specs.declared.refusal.Refusal.TheVariants.{Conflict, OtherLife};
ghost use Rattle.amo_door.specs.Answer.{IsRefusal, extra_of, got_body, host_body, life_member, outcome_body, put_body, receiver_members, sender_members, status_of_put, type_of};
ghost use Rattle.amo_door.specs.Refusal.{status_of};

use crate::json::{
    push_conflict_at_receiver, push_conflict_at_sender, push_got, push_got_end, push_got_front,
    push_host, push_other_life, push_place, push_receiver, push_refusal, push_sender,
};
use crate::{EventPlace, Made, Place, Refusal, Word};
use amo_object::End;
use amo_packet::Message;
use amo_text::push_decimal;
use std::alloc::{AllocError, Global};

/// What the body of an answer is.
#[derive(Clone, Copy, Debug, PartialEq, Eq)]
pub enum Kind {
    /// There is none.
    None,
    /// One JSON object (RFC 8259).
    Json,
    /// The bytes of a message.
    Bytes,
    /// A text for people.
    Text,
    /// A page of HTML.
    Page,
    /// Prometheus's text format.
    Metrics,
}

impl Kind {
    /// The type of such a body, as the field `Content-Type` spells it.
    pub fn media_type(self) -> &'static str
        ensures { result.now ≡ type_of self }
    {
        match self {
            Kind::None => "",
            Kind::Json => "application/json",
            Kind::Bytes => "application/octet-stream",
            Kind::Text => "text/plain; charset=utf-8",
            Kind::Page => "text/html; charset=utf-8",
            Kind::Metrics => "text/plain; version=0.0.4; charset=utf-8",
        }
    }
}

/// What the head of an answer says beside its body.
#[derive(Clone, Copy, PartialEq, Eq)]
pub enum Extra {
    /// Nothing.
    None,
    /// `Allow`: the methods that this place takes.
    Allow(Place),
    /// `Retry-After`: in how many seconds it may be asked again.
    RetryAfter(u64),
    /// `WWW-Authenticate`: that a token is wanted.
    Authenticate,
    /// Where the message that is the body stands: `Amo-Stream`, `Amo-Number`, `Amo-Position` and `Amo-Line`.
    Message {
        stream: u32,
        number: u64,
        place: EventPlace,
    },
}

/// An answer, before it is spelt for a connection.
#[derive(Drop)]
pub struct Answer {
    /// Its status (RFC 9110, section 15).
    pub status: u16,
    /// What its body is.
    pub kind: Kind,
    /// What its head says beside.
    pub extra: Extra,
    /// The body.
    pub body: Vec<u8>,
}

/// Whether something was made for a claim now, or before.
#[derive(Clone, Copy, PartialEq, Eq)]
pub enum When {
    /// It was made now.
    Now,
    /// It was made before, and nothing happened now.
    Before,
}

/// What is known of the last message that was put on a stream.
#[derive(Clone, Copy, PartialEq, Eq)]
pub enum Last {
    /// None was put in this life.
    None,
    /// It is on its way.
    Open,
    /// It was got.
    Yes,
    /// It was got or lost.
    No,
}

/// How a stream of senders is.
#[derive(Clone, Copy, PartialEq, Eq)]
pub struct SenderState {
    /// The number of the last message that was put in this life, or 0.
    pub put: u64,
    /// How many messages wait.
    pub waiting: u64,
    /// What is known of the last one.
    pub last: Last,
}

/// How a stream of receivers is.
#[derive(Clone, Copy, PartialEq, Eq)]
pub struct ReceiverState {
    /// The number of the last message that was taken in this life, or 0.
    pub taken: u64,
    /// Whether another one is there to be taken.
    pub ready: bool,
}

/// What became of a message.
#[derive(Clone, Copy, Debug, PartialEq, Eq)]
pub enum Fate {
    /// It was got.
    Got,
    /// It was not got, and will not be.
    Gone,
    /// It is on its way.
    Open,
    /// It was got or lost, and this host cannot know which.
    Unknown,
    /// It was got, is gone or is unknown; what of these, the journal does not tell any more.
    Settled,
    /// It was never put, and will not be.
    Never,
}

/// What a host is.
#[derive(Clone, Copy)]
pub struct About<'a> {
    /// The version of the program.
    pub version: &'a str,
    /// Its side.
    pub side: End,
    /// How many streams it has.
    pub streams: u32,
    /// The address of the host on the other side.
    pub peer: &'a str,
    /// Since when it lives, in seconds from 1970 on.
    pub since: u64,
}

/// A message that was got, as its receiver's journal tells it.
#[derive(Drop)]
pub struct GotMessage {
    /// The number of its line.
    pub line: u64,
    /// The message.
    pub message: Message,
}

/// Messages that were got of a stream, as some lines of its receiver's journal tell it.
#[derive(Drop)]
pub struct GotPage {
    /// The messages, in the order of their lines.
    pub messages: Vec<GotMessage>,
    /// The number of the first of those lines; none where there are no more.
    pub from: Option<u64>,
    /// The number of the last line that was read, behind which to go on; none where none is there.
    pub next: Option<u64>,
    /// Whether there are lines behind that.
    pub more: bool,
}

impl Answer {
    /// An answer with this body, and nothing beside.
    pub fn new(status: u16, kind: Kind, body: Vec<u8>) -> Answer
        ensures { result ≡ record { status = status; kind = kind; extra = AnyExtra.None; body = body } }
    {
        Answer {
            status,
            kind,
            extra: Extra::None,
            body,
        }
    }

    /// What was made for a claim to put a message, or for one without a number.
    pub fn put(
        alloc: Global,
        when: When,
        life: &Word,
        stream: u32,
        made: &Made,
    ) -> Result<Answer, AllocError>
        ensures head { IfOk result (λ answer. (answer.status ≡ status_of_put when) × (answer.kind ≡ AnyKind.Json) × (answer.extra ≡ AnyExtra.None)) }
        ensures body { IfOk result (λ answer. answer.body.items ≡ put_body life.now stream made.now) }
    {
        let mut body = Vec::new(alloc);
        push_place(&mut body, life, stream, made.number)?;
        body.extend_from_slice(b",\"position\":")?;
        push_decimal(&mut body, made.place.position)?;
        body.extend_from_slice(b",\"line\":")?;
        push_decimal(&mut body, made.place.line)?;
        body.extend_from_slice(b"}")?;
        let status = match when {
            When::Now => 201,
            When::Before => 200,
        };
        Ok(Answer::new(status, Kind::Json, body))
    }

    /// A message that was taken, now or before: a copy of its bytes.
    pub fn taken(alloc: Global, stream: u32, made: &Made) -> Result<Answer, AllocError>
        ensures head { IfOk result (λ answer. (answer.status ≡ 200) × (answer.kind ≡ AnyKind.Bytes) × (answer.extra ≡ AnyExtra.Message stream made.now.number made.now.place)) }
        ensures body { IfOk result (λ answer. answer.body.items ≡ made.now.message) }
    {
        let body = Vec::from_slice(alloc, made.message.bytes())?;
        Ok(Answer {
            status: 200,
            kind: Kind::Bytes,
            extra: Extra::Message {
                stream,
                number: made.number,
                place: made.place,
            },
            body,
        })
    }

    /// No message came in time.
    pub fn nothing(alloc: Global) -> Answer
        ensures head { (result.status ≡ 204) × (result.kind ≡ AnyKind.None) × (result.extra ≡ AnyExtra.None) }
        ensures body { result.body.items ≡ [] }
    {
        Answer::new(204, Kind::None, Vec::new(alloc))
    }

    /// What became of the message of a number.
    pub fn outcome(
        alloc: Global,
        life: &Word,
        stream: u32,
        number: u64,
        fate: Fate,
    ) -> Result<Answer, AllocError>
        ensures head { IfOk result (λ answer. (answer.status ≡ 200) × (answer.kind ≡ AnyKind.Json) × (answer.extra ≡ AnyExtra.None)) }
        ensures body { IfOk result (λ answer. answer.body.items ≡ outcome_body life.now stream number fate) }
    {
        let mut body = Vec::new(alloc);
        push_place(&mut body, life, stream, number)?;
        body.extend_from_slice(b",\"outcome\":\"")?;
        body.extend_from_slice(fate.word().as_bytes())?;
        body.extend_from_slice(b"\"}")?;
        Ok(Answer::new(200, Kind::Json, body))
    }

    /// How a stream of senders is.
    pub fn sender(
        alloc: Global,
        life: &Word,
        stream: u32,
        state: SenderState,
    ) -> Result<Answer, AllocError>
        ensures head { IfOk result (λ answer. (answer.status ≡ 200) × (answer.kind ≡ AnyKind.Json) × (answer.extra ≡ AnyExtra.None)) }
        ensures body { IfOk result (λ answer. answer.body.items ≡ codes "{" ++ sender_members life.now stream state ++ codes "}") }
    {
        let mut body = Vec::new(alloc);
        body.extend_from_slice(b"{")?;
        push_sender(&mut body, life, stream, state)?;
        body.extend_from_slice(b"}")?;
        Ok(Answer::new(200, Kind::Json, body))
    }

    /// How a stream of receivers is.
    pub fn receiver(
        alloc: Global,
        life: &Word,
        stream: u32,
        state: ReceiverState,
    ) -> Result<Answer, AllocError>
        ensures head { IfOk result (λ answer. (answer.status ≡ 200) × (answer.kind ≡ AnyKind.Json) × (answer.extra ≡ AnyExtra.None)) }
        ensures body { IfOk result (λ answer. answer.body.items ≡ codes "{" ++ receiver_members life.now stream state ++ codes "}") }
    {
        let mut body = Vec::new(alloc);
        body.extend_from_slice(b"{")?;
        push_receiver(&mut body, life, stream, state)?;
        body.extend_from_slice(b"}")?;
        Ok(Answer::new(200, Kind::Json, body))
    }

    /// Which messages were got of a stream, as some lines tell it.
    pub fn got(alloc: Global, stream: u32, page: &GotPage) -> Result<Answer, AllocError>
        ensures head { IfOk result (λ answer. (answer.status ≡ 200) × (answer.kind ≡ AnyKind.Json) × (answer.extra ≡ AnyExtra.None)) }
        ensures body { IfOk result (λ answer. answer.body.items ≡ got_body stream page.now) }
    {
        let mut body = Vec::new(alloc);
        push_got_front(&mut body, stream)?;
        push_got(&mut body, page.messages.as_slice())?;
        push_got_end(&mut body, page)?;
        Ok(Answer::new(200, Kind::Json, body))
    }

    /// What the host is.
    pub fn host(alloc: Global, life: &Word, about: &About<'_>) -> Result<Answer, AllocError>
        ensures head { IfOk result (λ answer. (answer.status ≡ 200) × (answer.kind ≡ AnyKind.Json) × (answer.extra ≡ AnyExtra.None)) }
        ensures body { IfOk result (λ answer. answer.body.items ≡ host_body life.now about.now) }
    {
        let mut body = Vec::new(alloc);
        push_host(&mut body, life, about)?;
        Ok(Answer::new(200, Kind::Json, body))
    }

    /// Why a request is refused.
    pub fn refusal(alloc: Global, refusal: Refusal) -> Result<Answer, AllocError>
        ensures head { IfOk result (λ answer. (answer.status ≡ status_of refusal) × (answer.kind ≡ AnyKind.Json) × (answer.extra ≡ extra_of refusal)) }
        ensures body { IfOk result (λ answer. IsRefusal refusal [] answer.body.items) }
    {
        let text = sentence_of(alloc, refusal)?;
        let mut body = Vec::new(alloc);
        push_refusal(&mut body, refusal, text.as_str())?;
        body.extend_from_slice(b"}")?;
        Ok(refused(refusal, body))
    }

    /// That a claim is for another life, and which one the host lives.
    pub fn other_life(alloc: Global, life: &Word) -> Result<Answer, AllocError>
        ensures head { IfOk result (λ answer. (answer.status ≡ 410) × (answer.kind ≡ AnyKind.Json) × (answer.extra ≡ AnyExtra.None)) }
        ensures body { IfOk result (λ answer. IsRefusal OtherLife (codes "," ++ life_member life.now) answer.body.items) }
    {
        let text = sentence_of(alloc, Refusal::OtherLife)?;
        let mut body = Vec::new(alloc);
        push_other_life(&mut body, text.as_str(), life)?;
        Ok(refused(Refusal::OtherLife, body))
    }

    /// That a claim to put is for no number that is next or last, and how its stream is.
    pub fn conflict_at_sender(
        alloc: Global,
        life: &Word,
        stream: u32,
        state: SenderState,
    ) -> Result<Answer, AllocError>
        ensures head { IfOk result (λ answer. (answer.status ≡ 409) × (answer.kind ≡ AnyKind.Json) × (answer.extra ≡ AnyExtra.None)) }
        ensures body { IfOk result (λ answer. IsRefusal Conflict (codes "," ++ sender_members life.now stream state) answer.body.items) }
    {
        let text = sentence_of(alloc, Refusal::Conflict)?;
        let mut body = Vec::new(alloc);
        push_conflict_at_sender(&mut body, text.as_str(), life, stream, state)?;
        Ok(refused(Refusal::Conflict, body))
    }

    /// That a claim to take is for no number that is next or last, and how its stream is.
    pub fn conflict_at_receiver(
        alloc: Global,
        life: &Word,
        stream: u32,
        state: ReceiverState,
    ) -> Result<Answer, AllocError>
        ensures head { IfOk result (λ answer. (answer.status ≡ 409) × (answer.kind ≡ AnyKind.Json) × (answer.extra ≡ AnyExtra.None)) }
        ensures body { IfOk result (λ answer. IsRefusal Conflict (codes "," ++ receiver_members life.now stream state) answer.body.items) }
    {
        let text = sentence_of(alloc, Refusal::Conflict)?;
        let mut body = Vec::new(alloc);
        push_conflict_at_receiver(&mut body, text.as_str(), life, stream, state)?;
        Ok(refused(Refusal::Conflict, body))
    }
}

/// The sentence of a refusal.
fn sentence_of(alloc: Global, refusal: Refusal) -> Result<String, AllocError> {
    format!(in alloc; "{refusal}")
}

/// An answer that refuses a request.
fn refused(refusal: Refusal, body: Vec<u8>) -> Answer
    ensures { result ≡ record { status = status_of refusal; kind = AnyKind.Json; extra = extra_of refusal; body = body } }
{
    Answer {
        status: refusal.status(),
        kind: Kind::Json,
        extra: extra_of(refusal),
        body,
    }
}

/// What the head of an answer that refuses says beside its body.
fn extra_of(refusal: Refusal) -> Extra
    ensures { result ≡ extra_of refusal }
{
    match refusal {
        Refusal::Method(place) => Extra::Allow(place),
        Refusal::Token => Extra::Authenticate,
        _ => match refusal.retry_after() {
            Some(seconds) => Extra::RetryAfter(seconds),
            None => Extra::None,
        },
    }
}
