//! A book: one history of all that threads do at the sides of many streams.
//! It knows no socket and no clock, starts no thread and never waits: threads, words and packets are handed in.
//!
//! ```text
//!   Book      what threads share: of each side a gate and an automaton, and one count of events
//!   Pass      a caller's token: its number, and all that stood in the history when its last call answered
//!   Charge    the right to drive one side: starts, resends, deliveries, crashes, recoveries
//!   Closed    what is left at the end: how many events there were, and each side's last mode
//! ```
//!
//! **Whatever threads call on one book at the same time, it has one history.** Each [`Book::put`], [`Book::get`] and
//! [`Book::get_ack`] that answers stands in it once, after everything that its pass had seen, with the reply that the tables
//! give there; and where the history is honest and fresh, each of its streams is served. The contracts of these three
//! say so, in four clauses:
//!
//! ```text
//!   grown      what the pass had seen, what others did since, and then this call; or no event at all
//!   answered   the position that was answered is the event's place in the history
//!   right      every reply in what was seen is the tables'
//!   served     where that is honest and fresh, each stream is served
//! ```
//!
//! A call tries the gate of its side once. It moves the automaton out of its slot, lets it act, adds 1 to the count, which
//! is where the event takes its place, moves the automaton home and opens the gate. Where the gate is held it answers
//! Busy, and nothing has happened. Calls on two sides never find each other's gate held. [`Book::foresee`] opens the gate again with no
//! event: it tells what an act would do, for a host that has to know before. So does [`Book::look`], which tells how a side stands.
//!
//! Histories are newest first, as in `amo_world`.
#![tactic(auto)]

mod answer;
mod board;
mod book;
mod charge;
mod client;
mod closed;
mod drive;
mod fault;
mod foresee;
mod index;
mod look;
mod pass;
mod plays;
mod site;
mod slot;
mod stride;
mod view;
mod whole;

pub use answer::{reply_to_ack, reply_to_get, reply_to_put};
pub use book::Book;
pub use charge::Charge;
pub use closed::{CloseFault, Closed};
pub use drive::Done;
pub use fault::{AckFault, DriveFault, GetFault, OpenFault, PutFault};
pub use foresee::Foreseen;
pub use pass::Pass;
