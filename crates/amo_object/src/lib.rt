//! The at-most-once queue: what the clients of one stream may see, whatever its channels and hosts do.
//! It keeps no packets, identifiers or retries, and moves no message between hosts: it is what such a
//! protocol is measured by.
//!
//! A sender puts messages, a receiver gets them in the order put, and each is got at most once. A message
//! may be lost instead, but only while a host is down. The sender may ask what became of its last message:
//! it was got (yes), a host crashed and it may or may not have been got (no), or it still waits, and there is no reply yet.
//! The object is that of Lampson, Lynch and Søgaard-Andersen, "Correctness of At-Most-Once
//! Message Delivery Protocols" (1993); Lynch, "Distributed Algorithms" (1996), chapter 22, presents the
//! protocols that implement it.
//!
//! - [`Step`] is one step: a client's call with its reply, a crash or recovery of a host, or a loss. A loss
//!   is a choice of the queue's own, which no client sees.
//! - [`Queue`] is the queue itself, as a plain program: it says which steps it allows and takes one.
//! - A list of steps is a *run* if each is allowed where it stands (`specs/Run.antt`). A history of calls is
//!   explained by the queue if it is some run with its losses left out.
//! - [`laws`] states what every run promises.
#![tactic(auto)]

mod bytes;
pub mod laws;
mod queue;
mod status;
mod step;

pub use bytes::Bytes;
pub use queue::{Queue, QueueFault};
pub use status::Status;
pub use step::{End, Step};
