//! Events, histories, and what they mean: when a history is right, honest and fresh, and when it serves a stream.
//! A [`World`] keeps such a history: it accepts an event exactly where the history with it is right, honest and fresh.
//!
//! ```text
//!   Event      what happened at one side of a stream, under whose pass, and the reply
//!   history    a list of events; the definitions read it newest first, so that each has two cases,
//!              nothing yet and one event more
//!   right      every reply is the one of the tables, after all earlier events
//!   honest     every packet delivered was emitted before, by the other side of its stream
//!   fresh      no side of a stream uses up a word twice
//!   served     some run of the at-most-once queue has, with its losses left out, exactly the stream's calls
//!   in doubt   what a crash may have lost, and may still arrive: it leaves later, or stays
//! ```
//!
//! **Each right, honest and fresh history serves each of its streams** ([`laws::histories_serve`]). Between the protocol and
//! the queue stands a queue in doubt. Each event moves it ([`laws::events_move_the_queue_in_doubt`]), and what it may stand
//! for after an event comes by steps of the queue from what it may have stood for before ([`laws::doubts_resolve`]).
//!
//! A world keeps both sides of streams 1 to [`STREAMS`]: of each side its automaton, and an index of the packets that it
//! emitted, each stored once. So it judges an event without reading the history again, and no event lies in memory: the
//! history is there for contracts alone. It judges in the order of [`WorldFault`]'s three causes, the reply first; that
//! memory ran out is the answer only for an event without a fault. It numbers the packets emitted over all streams, from
//! 0, and gives each with its side.
//!
//! [`laws`] says besides what one event more changes and what a client may rely on where its stream is served; [`examples`]
//! tells worked stories, among them one for each premise that shows what goes wrong without it.
//!
//! A slice or a vector of events is in the order of time. Where one meets a definition it is reversed; the two laws
//! that this needs are [`laws::in_order_of_time`].
#![tactic(auto)]

mod emission;
mod event;
pub mod examples;
mod fault;
mod history;
mod index;
mod kept_side;
mod kept_stream;
mod key;
pub mod laws;
mod log;
mod row;
mod world;

pub use amo_core::{Act, Reply};
pub use amo_object::End;
pub use amo_packet::STREAMS;
pub use event::Event;
pub use fault::{NoMemory, WorldFault};
pub use world::World;
