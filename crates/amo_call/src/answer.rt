//! What the answers of a door tell.
ghost use Rattle.std.specs.Prelude.{◌≡◌, ◌≢◌, ◌↔◌, ℕ, ◌<◌, ◌^◌, ◌++◌, ◌∷◌, List, IfNone, IfSome, IsTrue, codes};
ghost use Rattle.std.specs.Fmt.{decimal};
ghost use Rattle.amo_door.specs.Answer.{fate_word, place_members};
ghost use Rattle.amo_door.specs.declared.answer.Fate.{Fate};
ghost use Rattle.amo_door.specs.declared.claim.EventPlace.{EventPlace};
ghost use Rattle.amo_door.specs.Word.{IsWord};
ghost use Rattle.amo_call.specs.declared.answer.StreamState.{StreamState};
ghost use Rattle.amo_call.specs.Answer.{Begins, HasWord, IsEventPlace, IsOfDoor, event_members, is_door_status, last_name, TellsConflict, TellsFate, TellsPut, TellsRefusal, TellsState, TellsUnput};
ghost use Rattle.amo_text.specs.Line.{Lacks};

use crate::scan::{behind, behind_number, number_before, quoted_in_front, word_before};
use amo_door::{Claim, EventPlace, Fate, Word};

/// What a door answers.
#[derive(Drop)]
pub struct Response {
    /// The status (RFC 9110, section 15).
    pub status: u16,
    /// The stream that the head names, if it names one: that of the message that is the body.
    pub stream: Option<u64>,
    /// The number of that message, in the same way.
    pub number: Option<u64>,
    /// The line of the journal by which it was got, in the same way.
    pub line: Option<u64>,
    /// The body.
    pub body: Vec<u8>,
}

/// How a stream is: the host's life, and the number of the last message that was put or taken in it.
#[derive(Drop)]
pub struct StreamState {
    pub life: Word,
    pub last: u64,
}

/// Where the put of the message of a claim stands, where an answer tells that it was put.
pub fn read_put(response: &Response, claim: &Claim) -> Option<EventPlace>
    ensures found { IfSome result (λ place. TellsPut claim.now place response.now) }
    ensures none { IfNone result ((place : EventPlace) → ¬ (TellsPut claim.now place response.now)) }
{
    if response.status != 200 && response.status != 201 {
        return None;
    }
    let rest = behind_place(response.body.as_slice(), claim)?;
    place_in(rest)
}

/// Where a put stands, in what is behind the place of its message.
fn place_in(text: &[u8]) -> Option<EventPlace>
    ensures found { IfSome result (λ place. IsEventPlace place × (44 ∷ text.now ≡ event_members place)) }
    ensures none { IfNone result ((place : EventPlace) → IsEventPlace place → 44 ∷ text.now ≢ event_members place) }
{
    let digits = behind(text, b"\"position\":")?;
    let (position, rest) = number_before(digits, b',')?;
    let line = line_in(rest)?;
    Some(EventPlace { position, line })
}

/// The number of a line, in what is behind a position.
fn line_in(text: &[u8]) -> Option<u64>
    ensures found { IfSome result (λ line. (line < 2 ^ 64) × (text.now ≡ codes "\"line\":" ++ (decimal line ++ codes "}"))) }
    ensures none { IfNone result ((line : ℕ) → line < 2 ^ 64 → text.now ≢ codes "\"line\":" ++ (decimal line ++ codes "}")) }
{
    let digits = behind(text, b"\"line\":")?;
    let (line, rest) = number_before(digits, b'}')?;
    if rest.is_empty() { Some(line) } else { None }
}

/// What became of the message of a claim, where an answer tells it.
pub fn read_fate(response: &Response, claim: &Claim) -> Option<Fate>
    ensures found { IfSome result (λ what. TellsFate claim.now what response.now) }
    ensures none { IfNone result ((what : Fate) → ¬ (TellsFate claim.now what response.now)) }
{
    if response.status != 200 {
        return None;
    }
    let rest = behind_place(response.body.as_slice(), claim)?;
    fate_in(rest)
}

/// What became of a message, in what is behind its place.
fn fate_in(text: &[u8]) -> Option<Fate>
    ensures found { IfSome result (λ what. text.now ≡ codes "\"outcome\":\"" ++ fate_word what ++ codes "\"}") }
    ensures none { IfNone result ((what : Fate) → text.now ≢ codes "\"outcome\":\"" ++ fate_word what ++ codes "\"}") }
{
    match text {
        b"\"outcome\":\"got\"}" => Some(Fate::Got),
        b"\"outcome\":\"gone\"}" => Some(Fate::Gone),
        b"\"outcome\":\"open\"}" => Some(Fate::Open),
        b"\"outcome\":\"unknown\"}" => Some(Fate::Unknown),
        b"\"outcome\":\"settled\"}" => Some(Fate::Settled),
        b"\"outcome\":\"never\"}" => Some(Fate::Never),
        _ => None,
    }
}

/// How a stream is, where an answer tells it: its side puts, or takes.
pub fn read_state(response: &Response, stream: u32, puts: bool) -> Option<StreamState>
    ensures found { IfSome result (λ state. TellsState stream puts state response.now) }
    ensures none { IfNone result ((state : StreamState) → ¬ (TellsState stream puts state response.now)) }
{
    if response.status != 200 {
        return None;
    }
    let (life, rest) = life_in_front(response.body.as_slice())?;
    let last = last_behind(rest, stream, puts)?;
    Some(StreamState { life, last })
}

/// The number of the last message that was put, or taken, on the stream of a claim in its life; where an answer tells that nothing happened, as that is not
/// the one before the claim's.
pub fn read_conflict(response: &Response, claim: &Claim, puts: bool) -> Option<u64>
    ensures found { IfSome result (λ last. TellsConflict claim.now puts last response.now) }
    ensures none { IfNone result ((last : ℕ) → ¬ (TellsConflict claim.now puts last response.now)) }
{
    if response.status != 409 {
        return None;
    }
    let state = behind_sentence(response.body.as_slice())?;
    let after_life = behind_life(state, b",\"life\":\"", &claim.life)?;
    last_behind(after_life, claim.stream, puts)
}

/// The word for programs of an answer that refuses a request.
pub fn read_refusal(response: &Response) -> Option<Word>
    ensures found { IfSome result (λ word. TellsRefusal word response.now) }
    ensures none { IfNone result ((word : List ℕ) → ¬ (TellsRefusal word response.now)) }
{
    let word = behind(response.body.as_slice(), b"{\"error\":\"")?;
    let (word, _rest) = word_before(word, b'"')?;
    Some(word)
}

/// Whether an answer is one that a door gives.
pub(crate) fn is_of_door(response: &Response) -> bool
    ensures { IsTrue result ↔ IsOfDoor response.now }
{
    is_door_status(response.status) && (response.status < 500 || has_word(response))
}

/// Whether a door answers with this status.
fn is_door_status(status: u16) -> bool
    ensures { result ≡ is_door_status status }
{
    matches!(
        status,
        200 | 201
            | 204
            | 400
            | 401
            | 403
            | 404
            | 405
            | 408
            | 409
            | 410
            | 413
            | 414
            | 421
            | 431
            | 500
            | 501
            | 503
    )
}

/// Whether an answer has the word of a refusal.
fn has_word(response: &Response) -> bool
    ensures { IsTrue result ↔ HasWord response.now }
{
    match read_refusal(response) {
        Some(_word) => true,
        None => false,
    }
}

/// Whether an answer says that the message of a call was not put: a host that has no room, or comes to its end, looks first whether it was. Another one that
/// puts a call off, as a door at which too many ask, may say so of a call whose message was put before.
pub(crate) fn tells_unput(response: &Response) -> bool
    ensures { IsTrue result ↔ TellsUnput response.now }
{
    let body = response.body.as_slice();
    response.status == 503
        && (begins(body, b"{\"error\":\"full\"") || begins(body, b"{\"error\":\"ending\""))
}

/// Whether a text has this front.
fn begins(text: &[u8], front: &[u8]) -> bool
    ensures { IsTrue result ↔ Begins front.now text.now }
{
    match behind(text, front) {
        Some(_rest) => true,
        None => false,
    }
}

/// What stands behind the sentence of an answer that tells of a conflict: a sentence has no quote.
fn behind_sentence(body: &[u8]) -> Option<&[u8]>
    ensures found { IfSome result (λ rest. (sentence : List ℕ) × Lacks 34 sentence × (body.now ≡ codes "{\"error\":\"conflict\",\"text\":\"" ++ (sentence ++ 34 ∷ rest.now))) }
    ensures none { IfNone result ((sentence rest : List ℕ) → Lacks 34 sentence → body.now ≢ codes "{\"error\":\"conflict\",\"text\":\"" ++ (sentence ++ 34 ∷ rest)) }
{
    let sentence = behind(body, b"{\"error\":\"conflict\",\"text\":\"")?;
    let (_sentence, rest) = quoted_in_front(sentence)?;
    Some(rest)
}

/// The life in front of an object, and what stands behind that.
fn life_in_front(body: &[u8]) -> Option<(Word, &[u8])>
    ensures found { IfSome result (λ parts. IsWord parts.0 × (body.now ≡ codes "{\"life\":\"" ++ (parts.0 ++ 34 ∷ parts.1.now))) }
    ensures none { IfNone result ((life rest : List ℕ) → IsWord life → body.now ≢ codes "{\"life\":\"" ++ (life ++ 34 ∷ rest)) }
{
    let word = behind(body, b"{\"life\":\"")?;
    word_before(word, b'"')
}

/// The number of the last message that was put, or taken, behind the life of this stream.
fn last_behind(text: &[u8], stream: u32, puts: bool) -> Option<u64>
    ensures found { IfSome result (λ last. (last < 2 ^ 64) × ((rest : List ℕ) × (text.now ≡ codes ",\"stream\":" ++ (decimal stream ++ (last_name puts ++ (decimal last ++ 44 ∷ rest)))))) }
    ensures none { IfNone result ((last : ℕ) (rest : List ℕ) → last < 2 ^ 64 → text.now ≢ codes ",\"stream\":" ++ (decimal stream ++ (last_name puts ++ (decimal last ++ 44 ∷ rest)))) }
{
    let rest = behind_stream(text, stream)?;
    let digits = behind(rest, last_front(puts))?;
    let (last, _rest) = number_before(digits, b',')?;
    Some(last)
}

/// What stands in front of the number of the last message that was put, or taken.
fn last_front(puts: bool) -> &'static [u8]
    ensures { 44 ∷ result.now ≡ last_name puts }
{
    if puts { b"\"put\":" } else { b"\"taken\":" }
}

/// What stands behind the place of the message of a claim, and the comma there.
fn behind_place<'a>(body: &'a [u8], claim: &Claim) -> Option<&'a [u8]>
    ensures found { IfSome result (λ rest. body.now ≡ place_members claim.now.life claim.now.stream claim.now.number ++ 44 ∷ rest.now) }
    ensures none { IfNone result ((rest : List ℕ) → body.now ≢ place_members claim.now.life claim.now.stream claim.now.number ++ 44 ∷ rest) }
{
    let after_life = behind_life(body, b"{\"life\":\"", &claim.life)?;
    let member = behind_stream(after_life, claim.stream)?;
    let digits = behind(member, b"\"number\":")?;
    behind_number(digits, claim.number, b',')
}

/// What stands behind this front, this life and a quote.
fn behind_life<'a>(text: &'a [u8], front: &[u8], life: &Word) -> Option<&'a [u8]>
    ensures found { IfSome result (λ rest. text.now ≡ front.now ++ (life.now ++ 34 ∷ rest.now)) }
    ensures none { IfNone result ((rest : List ℕ) → text.now ≢ front.now ++ (life.now ++ 34 ∷ rest)) }
{
    let word = behind(text, front)?;
    let quote = behind(word, life.bytes())?;
    let rest = behind(quote, b"\"")?;
    Some(rest)
}

/// What stands behind the member of this stream, and the comma there.
fn behind_stream(text: &[u8], stream: u32) -> Option<&[u8]>
    ensures found { IfSome result (λ rest. text.now ≡ codes ",\"stream\":" ++ (decimal stream ++ 44 ∷ rest.now)) }
    ensures none { IfNone result ((rest : List ℕ) → text.now ≢ codes ",\"stream\":" ++ (decimal stream ++ 44 ∷ rest)) }
{
    let digits = behind(text, b",\"stream\":")?;
    behind_number(digits, stream as u64, b',')
}
