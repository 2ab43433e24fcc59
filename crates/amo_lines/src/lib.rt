//! The lines of a host's clients: what they say, and what clients are shown.
//! It puts nothing, and knows no host: whole lines come out of it, and texts to be shown.
//!
//! A client's line is `STREAM TEXT`, `STREAM HEX` or a JSON object, as `{"stream":1,"id":"a","text":"b"}`; which of them is a matter of the
//! [`Spelling`]. A line that is none of these puts nothing, and a [`LineFault`] tells why.
//!
//! - [`Input`] is what a reader brought and nobody took: it hands on a [`Line`] only once its end has come.
//! - [`NamedMessage`] is a message with its line's [`Id`]: in an object a client may give its line a name, and answers have it.
//! - [`Backlog`] has the messages that wait, since their streams take no more for now.
//! - [`Ids`] has the ids of the messages that have no answer yet, of each stream in their order.
//! - [`push_ok`], [`push_word`], [`push_settled`], [`push_message`] and [`push_refused`] append a line that is to be shown. A message is shown as a text
//!   only where a terminal would show it as it is, and else in HEX.
//!
//! What a line reads as stands in `specs/Line.antt`, and what an object does in `specs/Object.antt`; what came and was not taken in `specs/Input.antt`, what
//! waits in `specs/Backlog.antt`, ids in `specs/Owed.antt`, and how lines are spelt in `specs/Spelt.antt`.
#![tactic(auto)]

mod backlog;
mod id;
mod ids;
mod input;
mod lines;
mod named;
mod object;

pub use backlog::Backlog;
pub use id::Id;
pub use ids::Ids;
pub use input::{Input, Line};
pub use lines::{
    LineFault, Spelling, Word, push_message, push_ok, push_refused, push_settled, push_word,
};
pub use named::NamedMessage;
