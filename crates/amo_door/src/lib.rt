//! The door of a host: what programs ask of it over HTTP/1.1, as calls, and what they are answered.
//! It opens no socket, and knows no host and no clock: who has these hands it bytes and answers, and takes calls and bytes.
//!
//! ```text
//!   bytes from a client                                                                bytes to the client
//!        |                                                                                      ^
//!        v                                                                                      |
//!   Connection --- the head of a request ---> Guard, Call::read ---> a call, or a Refusal       |
//!        |                                                                 |                    |
//!        | Connection::next: a request that came whole                     +---> its answer ----+
//!        v                                                                                      |
//!   the host:  Numbers::decide_put ---> Next ---------> the host puts, and its journal has it   |
//!                                  |                    Numbers::note_put                       |
//!                                  +--> Again --------> what was made before                    |
//!                                  +--> Conflict -----> how the stream is                       |
//!                                  +--> OtherLife ----> which life it is                        |
//!                                                            |                                  |
//!                                                            v                                  |
//!                                                         Answer --- Connection::answer --------+
//! ```
//!
//! **The way between a program and its host loses answers too.** A program that was cut off cannot know whether its message was put. So each call that
//! changes something may be made again: it is a [`Claim`], which names a number of a stream, a life of the host, and its caller. [`Numbers`] keep what
//! was made last on each stream, and decide of each claim whether it is next, comes again, conflicts, or means another life. Their contracts speak of
//! turns, what was asked and answered, and [`laws`] say what follows of all turns: numbers are made in their order and each once, whoever is told that
//! something was made is told the truth, two callers are never both told that one number is theirs, and whoever asks again is known.
//!
//! - [`Routes`] lead a path to its [`Place`], and [`Query`] reads what is behind the `?`: each parameter once at most, and none that is not known.
//! - [`Call::read`] takes a method and a target to a call of the host, or to the [`Refusal`] that is true of it.
//! - [`Guard`] sees that a request names this door, that no page of another origin makes it, and that it brings the token, if one is wanted.
//! - [`Answer`] is what a call is answered: objects of JSON in a fixed order of members, the bytes of a message, texts. A refusal has a status, a word
//!   for programs and a sentence for people.
//! - [`Connection`] reads requests by `http1` and writes answers in their order. One request of a connection is out at a time. What it keeps is bounded:
//!   a client that sends without end, or takes nothing, slows itself alone.
//! - [`Happening`] is what those who follow are told, and [`push_event`] spells it: a connection that follows has [`Connection::tell`].
//!
//! A message is put or got by the host, and only once its journal has the event may the answer be handed in: that is the host's part.
//!
//! What a path leads to is defined in `specs/Routes.antt`, calls in `specs/Call.antt`, claims and turns in `specs/Numbers.antt` and `specs/Turns.antt`,
//! answers in `specs/Answer.antt`.
#![tactic(auto)]

mod answer;
mod call;
mod claim;
mod connection;
mod event;
mod guard;
mod head;
mod json;
pub mod laws;
mod numbers;
mod place;
mod query;
mod refusal;
mod routes;
mod spelling;
mod word;

pub use answer::{
    About, Answer, Extra, Fate, GotMessage, GotPage, Kind, Last, ReceiverState, SenderState, When,
};
pub use call::{Call, LONGEST_WAIT, Served};
pub use claim::{Claim, Decision, EventPlace, Made};
pub use connection::{Connection, LONGEST_HEAD, MOST_INPUT, MOST_OUTPUT, Phase, Step};
pub use event::{Happening, push_event};
pub use guard::{Credentials, Guard};
pub use head::Reader;
pub use numbers::Numbers;
pub use place::{Method, Place};
pub use query::{Parameter, Query, QueryFault};
pub use refusal::Refusal;
pub use routes::{Found, Routes};
pub use word::{MAX_WORD, Word};
