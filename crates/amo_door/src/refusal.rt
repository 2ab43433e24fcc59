//! Why a request is refused.
ghost use Rattle.std.specs.Prelude.{◌≡◌, ◌≤◌, ◌<◌, option_copied};
ghost use Rattle.amo_door.specs.Refusal.{allow_of, retry_of, status_of, word_of};

use crate::{Parameter, Place, QueryFault};
use std::alloc::AllocError;
use std::fmt;

/// Why a request is refused. Its text is a sentence for a person, and its word is for a program. Nothing was put or got by it.
#[derive(Clone, Copy, PartialEq, Eq)]
pub enum Refusal {
    /// It is no request of HTTP/1.0 or 1.1, or it brings a part of a message.
    Unreadable,
    /// Its query gives something under a name that no place takes.
    Unknown,
    /// Its query gives this twice.
    Repeated(Parameter),
    /// Its query does not give this, which the place needs.
    Missing(Parameter),
    /// What its query gives here is none.
    Wrong(Parameter),
    /// Its query gives this, which the place does not take.
    Stray(Parameter),
    /// It lacks the token that the host wants, or has another one.
    Token,
    /// It comes from a page of another origin.
    Origin,
    /// It names no place of the door.
    NoPlace,
    /// It names a stream that the host does not have.
    NoStream,
    /// It names a message by what is no number.
    NoNumber,
    /// It names a place that hosts of the other side have.
    OtherSide,
    /// It asks this place by a method that it does not take.
    Method(Place),
    /// It did not come whole in time.
    Slow,
    /// It claims another number than the next one of its stream, or the last one for another caller or with another message.
    Conflict,
    /// It means another life of the host.
    OtherLife,
    /// It asks what became of a message of a life that the host does not know.
    UnknownLife,
    /// It asks what was got behind a line that the host's journal does not have.
    UnknownLine,
    /// Its body is longer than a message may be, or than the place takes.
    TooLong,
    /// Its target is longer than any.
    LongTarget,
    /// It names another host than this one.
    Host,
    /// Its head is longer than any.
    LongHead,
    /// What the host's own journal tells cannot be read.
    Journal,
    /// Its body has a coding that is not known here.
    Coding,
    /// The stream has no room for one message more.
    Full,
    /// The host cannot do it now.
    NotNow,
    /// The host comes to its end, and takes nothing more.
    Ending,
    /// Too many connections ask at once.
    Crowded,
}

impl Refusal {
    /// The status of its answer (RFC 9110, section 15).
    pub fn status(self) -> u16
        ensures value { result ≡ status_of self }
        ensures failure { (400 ≤ result) × (result < 600) }
    {
        match self {
            Refusal::Unreadable
            | Refusal::Unknown
            | Refusal::Repeated(_)
            | Refusal::Missing(_)
            | Refusal::Wrong(_)
            | Refusal::Stray(_) => 400,
            Refusal::Token => 401,
            Refusal::Origin => 403,
            Refusal::NoPlace | Refusal::NoStream | Refusal::NoNumber | Refusal::OtherSide => 404,
            Refusal::Method(_) => 405,
            Refusal::Slow => 408,
            Refusal::Conflict => 409,
            Refusal::OtherLife | Refusal::UnknownLife | Refusal::UnknownLine => 410,
            Refusal::TooLong => 413,
            Refusal::LongTarget => 414,
            Refusal::Host => 421,
            Refusal::LongHead => 431,
            Refusal::Journal => 500,
            Refusal::Coding => 501,
            Refusal::Full | Refusal::NotNow | Refusal::Ending | Refusal::Crowded => 503,
        }
    }

    /// Its word, by which a program tells it from others.
    pub fn word(self) -> &'static str
        ensures { result.now ≡ word_of self }
    {
        match self {
            Refusal::Unreadable => "unreadable",
            Refusal::Unknown => "unknown_parameter",
            Refusal::Repeated(_) => "repeated_parameter",
            Refusal::Missing(_) => "missing_parameter",
            Refusal::Wrong(_) => "wrong_parameter",
            Refusal::Stray(_) => "stray_parameter",
            Refusal::Token => "token",
            Refusal::Origin => "origin",
            Refusal::NoPlace => "no_place",
            Refusal::NoStream => "no_stream",
            Refusal::NoNumber => "no_number",
            Refusal::OtherSide => "other_side",
            Refusal::Method(_) => "method",
            Refusal::Slow => "slow",
            Refusal::Conflict => "conflict",
            Refusal::OtherLife => "other_life",
            Refusal::UnknownLife => "unknown_life",
            Refusal::UnknownLine => "unknown_line",
            Refusal::TooLong => "too_long",
            Refusal::LongTarget => "long_target",
            Refusal::Host => "host",
            Refusal::LongHead => "long_head",
            Refusal::Journal => "journal",
            Refusal::Coding => "coding",
            Refusal::Full => "full",
            Refusal::NotNow => "not_now",
            Refusal::Ending => "ending",
            Refusal::Crowded => "crowded",
        }
    }

    /// Its sentence; nothing where that names a parameter.
    fn text(self) -> &'static str {
        match self {
            Refusal::Unreadable =>
                "this is no request of HTTP/1.1, or one with a part of a message",
            Refusal::Unknown => "the query has a name that is not known here",
            Refusal::Token => "the host wants its token, as `Authorization: Bearer TOKEN`",
            Refusal::Origin => "pages of another origin may not ask here",
            Refusal::NoPlace => "there is no such place",
            Refusal::NoStream => "the host has no such stream",
            Refusal::NoNumber => "a message is named by its number",
            Refusal::OtherSide => "that is asked of the host on the other side",
            Refusal::Method(_) => "this place takes other methods",
            Refusal::Slow => "the request did not come in time",
            Refusal::Conflict =>
                "another number of this stream is next, or the last one is another caller's or has other bytes",
            Refusal::OtherLife => "the host lives another life now",
            Refusal::UnknownLife => "the host knows of no such life",
            Refusal::UnknownLine =>
                "the host's journal has no such line: it is not the one of which that was a line",
            Refusal::TooLong =>
                "the body is too long: a message has 1024 bytes at most, and only a put has one",
            Refusal::LongTarget => "the target is too long",
            Refusal::Host => "the request is for another host",
            Refusal::LongHead => "the head is too long",
            Refusal::Journal => "the host cannot read its own journal",
            Refusal::Coding => "the body has a coding that is not known here",
            Refusal::Full => "the stream is full: ask again",
            Refusal::NotNow => "the host cannot do this now: ask again",
            Refusal::Ending => "the host comes to its end, and takes nothing more",
            Refusal::Crowded => "too many ask at once: ask again",
            _ => "",
        }
    }

    /// The methods that the place takes, where it was asked by another one.
    pub fn allow(self) -> Option<&'static str>
        ensures { option_copied result ≡ allow_of self }
    {
        match self {
            Refusal::Method(place) => Some(place.methods()),
            _ => None,
        }
    }

    /// In how many seconds it may be asked again, where that helps.
    pub fn retry_after(self) -> Option<u64>
        ensures { result ≡ retry_of self }
    {
        match self {
            Refusal::Full | Refusal::NotNow | Refusal::Crowded => Some(1),
            _ => None,
        }
    }
}

impl fmt::Display for Refusal {
    fn fmt<W: fmt::Write>(&self, f: &mut fmt::Formatter<W>) -> fmt::Result {
        match self {
            Refusal::Repeated(parameter) => write!(f, "the query gives `{parameter}` twice"),
            Refusal::Missing(parameter) => write!(f, "the query lacks `{parameter}`"),
            Refusal::Wrong(parameter) => write!(
                f,
                "`{parameter}` is to be {}",
                kind_of(*parameter)
            ),
            Refusal::Stray(parameter) => write!(f, "`{parameter}` means nothing here"),
            _ => f.write_str(self.text()),
        }
    }
}

/// What is taken where the query gives this, as the end of a sentence.
fn kind_of(parameter: Parameter) -> &'static str {
    match parameter {
        Parameter::Life | Parameter::By =>
            "a word of 1 to 32 letters, digits, dashes and underscores",
        Parameter::Number => "a number, in digits and without zeros in front",
        Parameter::Wait => "a number of seconds, 60 at most, without zeros in front",
        Parameter::Until => "`settled` at a sender and `ready` at a receiver",
        Parameter::After => "the number of a line, in digits and without zeros in front",
    }
}

impl fmt::Display for Parameter {
    fn fmt<W: fmt::Write>(&self, f: &mut fmt::Formatter<W>) -> fmt::Result {
        f.write_str(self.name())
    }
}

impl From<QueryFault> for Refusal {
    ghost use Rattle.std.specs.Prelude.{◌≡◌};
    ghost use Rattle.amo_door.specs.Refusal.{of_query};

    ghost from_gives = { λ fault refusal. refusal ≡ of_query fault };

    fn from(fault: QueryFault) -> Refusal {
        match fault {
            QueryFault::Unknown => Refusal::Unknown,
            QueryFault::Repeated(parameter) => Refusal::Repeated(parameter),
        }
    }
}

/// Where memory is refused the host cannot do it now.
impl From<AllocError> for Refusal {
    ghost use Rattle.std.specs.Prelude.{◌≡◌};
    ghost use Rattle.amo_door.specs.declared.refusal.Refusal.TheVariants.{NotNow};

    ghost from_gives = { λ _ refusal. refusal ≡ NotNow };

    fn from(_error: AllocError) -> Refusal {
        Refusal::NotNow
    }
}
