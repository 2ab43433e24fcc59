//! What a request asks of the host.
ghost use Rattle.std.specs.Prelude.{◌≡◌, ◌↔◌, ℕ, List, Some, false, IfErr, IfNone, IfOk, IfSome, IsTrue, IsUtf8, OnOk, option_copied};
ghost use Rattle.std.specs.Fmt.{decimal};
ghost use Rattle.matchit.specs.Seek.{first};
ghost use Rattle.amo_object.specs.declared.step.End.{End};
ghost use Rattle.amo_door.specs.declared.call.Served.{Served as AnyServed};
ghost use Rattle.amo_door.specs.declared.place.Method.{Method as AnyMethod};
ghost use Rattle.amo_door.specs.declared.place.Method.TheVariants.{Get, Put};
ghost use Rattle.amo_door.specs.declared.place.Place.TheVariants.{Events, Got, Message, Stream, Take};
ghost use Rattle.amo_door.specs.declared.query.Parameter.{Parameter as AnyParameter};
ghost use Rattle.amo_door.specs.declared.query.Parameter.TheVariants.{After, Number, Until, Wait};
ghost use Rattle.amo_door.specs.Call.{Asks, AsksAt, Blames, BlamesNumber, BlamesOption, BlamesStream, BlamesValue, HasPlace, IsLine, IsServed, IsStray, IsTarget, IsUntil, IsWait, IsWordly, Refuses, RefusesAt, Says, allows, strays, until_of};
ghost use Rattle.amo_door.specs.Query.{given_of};
ghost use Rattle.amo_door.specs.Routes.{IsFound};

use crate::{Claim, Found, Method, Parameter, Place, Query, Refusal, Routes, Word};
use amo_object::End;
use amo_text::{cut, read_decimal, read_stream};
use std::str;

/// The longest that an answer may be waited for, in seconds.
pub const LONGEST_WAIT: u64 = 60;

/// What a host serves, as far as it decides what can be asked of it.
#[derive(Clone, Copy, PartialEq, Eq)]
pub struct Served {
    /// Its side.
    pub side: End,
    /// How many streams it has, numbered from 1.
    pub streams: u32,
}

/// What a request asks of the host.
#[derive(Drop)]
pub enum Call {
    /// What the host is.
    Host,
    /// How a stream is: at once, or in so many seconds at most, once its last message has settled or its next one is ready.
    State {
        stream: u32,
        wait: u64,
    },
    /// To put the body as a message under a number.
    Put(Claim),
    /// To put the body as the stream's next message, whatever its number is.
    PutNext {
        stream: u32,
    },
    /// What became of the message of this number of a life.
    Outcome {
        stream: u32,
        number: u64,
        life: Word,
    },
    /// To take the message of a number, in so many seconds at most.
    Take {
        claim: Claim,
        wait: u64,
    },
    /// Which messages were got, behind this line of the journal if one is given.
    Got {
        stream: u32,
        after: Option<u64>,
    },
    /// What happens, from behind this line of the journal on if one is given.
    Events {
        after: Option<u64>,
    },
    /// What the host counted.
    Metrics,
    /// Whether the host can work.
    Health,
    /// The page.
    Page,
}

impl Call {
    /// The call that a request makes by this method of this target, at a host that serves so.
    pub fn read(
        routes: &Routes,
        served: Served,
        method: Method,
        target: &[u8],
    ) -> Result<Call, Refusal>
        ensures ok { IfOk result (Asks routes.now served method target.now) }
        ensures refused { IfErr result (Refuses routes.now served method target.now) }
    {
        let (path, query) = split(target);
        match find(routes, path) {
            Some(found) => read_at(served, method, &found, query),
            None => Err(Refusal::NoPlace),
        }
    }
}

/// The path of a target, and its query.
fn split(target: &[u8]) -> (&[u8], &[u8])
    ensures { IsTarget target.now result.0.now result.1.now }
{
    match cut(target, b'?') {
        Some((path, query)) => (path, query),
        None => (target, &[]),
    }
}

/// The call that a request makes by this method of a place, with this query.
fn read_at(served: Served, method: Method, found: &Found<'_>, query: &[u8]) -> Result<Call, Refusal>
    ensures ok { IfOk result (AsksAt served method found.now query.now) }
    ensures refused { IfErr result (RefusesAt served method found.now query.now) }
{
    if !found.place.takes(method) {
        return Err(Refusal::Method(found.place));
    }
    if !has_place(served, found.place) {
        return Err(Refusal::OtherSide);
    }
    let query = Query::read(query)?;
    check_strays(method, found.place, &query)?;
    read_found(served, method, found, &query)
}

/// What a path names, if it is that of a place.
fn find<'a>(routes: &Routes, path: &'a [u8]) -> Option<Found<'a>>
    ensures some { IfSome result (IsFound routes.now path.now) }
    ensures none { IfNone result (IsUtf8 path.now → first routes.now path.now ≡ None) }
{
    match str::from_utf8(path) {
        Ok(path) => routes.find(path),
        Err(_) => None,
    }
}

/// Whether a host that serves so has a place.
fn has_place(served: Served, place: Place) -> bool
    ensures { IsTrue result ↔ HasPlace served.side place }
{
    match place.side() {
        Some(side) => side == served.side,
        None => true,
    }
}

/// All parameters.
const PARAMETERS: [Parameter; 6] = [
    Parameter::Life,
    Parameter::By,
    Parameter::Number,
    Parameter::Wait,
    Parameter::Until,
    Parameter::After,
];

/// Sees that nothing is given but what the place takes.
fn check_strays(method: Method, place: Place, query: &Query<'_>) -> Result<(), Refusal>
    ensures ok { OnOk result ((parameter : AnyParameter) → strays method place (given_of query.now) parameter ≡ false) }
    ensures refused { IfErr result (IsStray method place (given_of query.now)) }
{
    for parameter in PARAMETERS {
        if is_stray(method, place, query, parameter) {
            return Err(Refusal::Stray(parameter));
        }
    }
    Ok(())
}

/// Whether this is given, and the place does not take it.
fn is_stray(method: Method, place: Place, query: &Query<'_>, parameter: Parameter) -> bool
    ensures { result ≡ strays method place (given_of query.now) parameter }
{
    query.has(parameter) && !allows(method, place, parameter)
}

/// Whether a place takes a parameter.
fn allows(method: Method, place: Place, parameter: Parameter) -> bool
    ensures { result ≡ allows method place parameter }
{
    match (place, parameter) {
        (Place::Stream, Parameter::Wait | Parameter::Until) => true,
        (Place::Message, Parameter::Life) => true,
        (Place::Message, Parameter::By) => method == Method::Put,
        (Place::Take, Parameter::Life | Parameter::By | Parameter::Number | Parameter::Wait) =>
            true,
        (Place::Got | Place::Events, Parameter::After) => true,
        _ => false,
    }
}

/// The call that a place says, with what was given.
fn read_found(
    served: Served,
    method: Method,
    found: &Found<'_>,
    query: &Query<'_>,
) -> Result<Call, Refusal>
    ensures ok { IfOk result (Says served method found.now.place found.now.stream.now found.now.number.now (given_of query.now)) }
    ensures refused { IfErr result (Blames served method found.now.place found.now.stream.now found.now.number.now (given_of query.now)) }
{
    match found.place {
        Place::Page => Ok(Call::Page),
        Place::Health => Ok(Call::Health),
        Place::Metrics => Ok(Call::Metrics),
        Place::Host => Ok(Call::Host),
        Place::Events => read_events(query),
        Place::Stream => read_state(served, found.stream, query),
        Place::Messages => Ok(Call::PutNext {
            stream: read_served(served, found.stream)?,
        }),
        Place::Message => match method {
            Method::Put => read_put(served, found, query),
            _ => read_outcome(served, found, query),
        },
        Place::Take => read_take(served, found.stream, query),
        Place::Got => read_got(served, found.stream, query),
    }
}

fn read_events(query: &Query<'_>) -> Result<Call, Refusal>
    ensures ok { IfOk result (λ call. (served : AnyServed) (method : AnyMethod) (stream number : List ℕ) → Says served method Events stream number (given_of query.now) call) }
    ensures refused { IfErr result (λ reason. (served : AnyServed) (method : AnyMethod) (stream number : List ℕ) → Blames served method Events stream number (given_of query.now) reason) }
{
    let after = read_line(query)?;
    Ok(Call::Events { after })
}

fn read_got(served: Served, stream: &str, query: &Query<'_>) -> Result<Call, Refusal>
    ensures ok { IfOk result (λ call. (method : AnyMethod) (number : List ℕ) → Says served method Got stream.now number (given_of query.now) call) }
    ensures refused { IfErr result (λ reason. (method : AnyMethod) (number : List ℕ) → Blames served method Got stream.now number (given_of query.now) reason) }
{
    let stream = read_served(served, stream)?;
    let after = read_line(query)?;
    Ok(Call::Got { stream, after })
}

fn read_state(served: Served, stream: &str, query: &Query<'_>) -> Result<Call, Refusal>
    ensures ok { IfOk result (λ call. (method : AnyMethod) (number : List ℕ) → Says served method Stream stream.now number (given_of query.now) call) }
    ensures refused { IfErr result (λ reason. (method : AnyMethod) (number : List ℕ) → Blames served method Stream stream.now number (given_of query.now) reason) }
{
    let stream = read_served(served, stream)?;
    check_until(served, query)?;
    let wait = read_wait(query)?;
    Ok(Call::State { stream, wait })
}

fn read_put(served: Served, found: &Found<'_>, query: &Query<'_>) -> Result<Call, Refusal>
    ensures ok { IfOk result (Says served Put Message found.now.stream.now found.now.number.now (given_of query.now)) }
    ensures refused { IfErr result (Blames served Put Message found.now.stream.now found.now.number.now (given_of query.now)) }
{
    let stream = read_served(served, found.stream)?;
    let number = read_number(found.number)?;
    let life = read_word(query.life, Parameter::Life)?;
    let by = read_word(query.by, Parameter::By)?;
    Ok(Call::Put(Claim {
        stream,
        number,
        life,
        by,
    }))
}

fn read_outcome(served: Served, found: &Found<'_>, query: &Query<'_>) -> Result<Call, Refusal>
    ensures ok { IfOk result (Says served Get Message found.now.stream.now found.now.number.now (given_of query.now)) }
    ensures refused { IfErr result (Blames served Get Message found.now.stream.now found.now.number.now (given_of query.now)) }
{
    let stream = read_served(served, found.stream)?;
    let number = read_number(found.number)?;
    let life = read_word(query.life, Parameter::Life)?;
    Ok(Call::Outcome {
        stream,
        number,
        life,
    })
}

fn read_take(served: Served, stream: &str, query: &Query<'_>) -> Result<Call, Refusal>
    ensures ok { IfOk result (λ call. (method : AnyMethod) (number : List ℕ) → Says served method Take stream.now number (given_of query.now) call) }
    ensures refused { IfErr result (λ reason. (method : AnyMethod) (number : List ℕ) → Blames served method Take stream.now number (given_of query.now) reason) }
{
    let stream = read_served(served, stream)?;
    let number = read_claimed(query)?;
    let life = read_word(query.life, Parameter::Life)?;
    let by = read_word(query.by, Parameter::By)?;
    let wait = read_wait(query)?;
    let claim = Claim {
        stream,
        number,
        life,
        by,
    };
    Ok(Call::Take { claim, wait })
}

/// The stream that this text names, of those that the host has.
fn read_served(served: Served, text: &str) -> Result<u32, Refusal>
    ensures ok { IfOk result (λ stream. IsServed served stream × (text.now ≡ decimal stream)) }
    ensures refused { IfErr result (BlamesStream served text.now) }
{
    match read_stream(text.as_bytes()) {
        Some(stream) if stream <= served.streams => Ok(stream),
        _ => Err(Refusal::NoStream),
    }
}

/// The number that this text names.
fn read_number(text: &str) -> Result<u64, Refusal>
    ensures ok { IfOk result (λ number. text.now ≡ decimal number) }
    ensures refused { IfErr result (BlamesNumber text.now) }
{
    match read_decimal(text.as_bytes()) {
        Some(number) => Ok(number),
        None => Err(Refusal::NoNumber),
    }
}

/// The word that is given for a parameter.
fn read_word(value: Option<&[u8]>, parameter: Parameter) -> Result<Word, Refusal>
    requires { IsWordly parameter }
    ensures ok { IfOk result (λ word. option_copied value.entry ≡ Some word) }
    ensures refused { IfErr result (λ reason. (side : End) → BlamesValue side parameter (option_copied value.entry) reason) }
{
    let Some(text) = value else {
        return Err(Refusal::Missing(parameter));
    };
    match Word::read(text) {
        Some(word) => Ok(word),
        None => Err(Refusal::Wrong(parameter)),
    }
}

/// The number that is claimed.
fn read_claimed(query: &Query<'_>) -> Result<u64, Refusal>
    ensures ok { IfOk result (λ number. option_copied query.now.number ≡ Some (decimal number)) }
    ensures refused { IfErr result (λ reason. (side : End) → BlamesValue side Number (option_copied query.now.number) reason) }
{
    let Some(text) = query.number else {
        return Err(Refusal::Missing(Parameter::Number));
    };
    match read_decimal(text) {
        Some(number) => Ok(number),
        None => Err(Refusal::Wrong(Parameter::Number)),
    }
}

/// How many seconds the answer may take.
fn read_wait(query: &Query<'_>) -> Result<u64, Refusal>
    ensures ok { IfOk result (IsWait (option_copied query.now.wait)) }
    ensures refused { IfErr result (λ reason. (side : End) → BlamesOption side Wait (option_copied query.now.wait) reason) }
{
    let Some(text) = query.wait else {
        return Ok(0);
    };
    match read_decimal(text) {
        Some(wait) if wait <= LONGEST_WAIT => Ok(wait),
        Some(_) | None => Err(Refusal::Wrong(Parameter::Wait)),
    }
}

/// The number of the line behind which to begin.
fn read_line(query: &Query<'_>) -> Result<Option<u64>, Refusal>
    ensures ok { IfOk result (IsLine (option_copied query.now.after)) }
    ensures refused { IfErr result (λ reason. (side : End) → BlamesOption side After (option_copied query.now.after) reason) }
{
    let Some(text) = query.after else {
        return Ok(None);
    };
    match read_decimal(text) {
        Some(line) => Ok(Some(line)),
        None => Err(Refusal::Wrong(Parameter::After)),
    }
}

/// Sees that what is waited for is what such a host waits for, where it is given.
fn check_until(served: Served, query: &Query<'_>) -> Result<(), Refusal>
    ensures ok { OnOk result (IsUntil served.side (option_copied query.now.until)) }
    ensures refused { IfErr result (BlamesOption served.side Until (option_copied query.now.until)) }
{
    let Some(text) = query.until else {
        return Ok(());
    };
    if text == until_of(served.side) {
        Ok(())
    } else {
        Err(Refusal::Wrong(Parameter::Until))
    }
}

/// What a host of this side waits for at a stream.
fn until_of(side: End) -> &'static [u8]
    ensures { result.now ≡ until_of side }
{
    match side {
        End::Sender => b"settled",
        End::Receiver => b"ready",
    }
}
