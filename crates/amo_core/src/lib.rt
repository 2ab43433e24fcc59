//! The two automata of the five-packet handshake, one sender and one receiver a stream.
//! They know no socket, no clock and no other stream: whoever drives them hands in calls, words and packets.
//!
//! Each automaton is a table: a row for each act, which says what the act leaves, replies and emits. The tables are
//! the definitions in `specs/`, for every act; a call's contract is one equation, that the call is its row.
//!
//! ```text
//!   put, get, get_ack        the client's calls
//!   start, batch             what the host makes happen: a handshake begins, for one message or for those that wait;
//!   resend, deliver          the mode's packet is emitted; one comes
//!   crash, recover           all is forgotten; the side comes back
//! ```
//!
//! A [`Sender`] and a [`Receiver`] can be driven by hand, call by call. Whoever keeps sides of both kinds keeps an
//! [`Automaton`], either of the two. It steps by any act: it writes what it emits into a buffer, and becomes what the row
//! says. The two halves, emission and advance, can be had apart. A [`Summary`] tells how it is: its mode, and how many messages it has.
//!
//! The method is Belsnes's (1976) as presented by Lynch, *Distributed Algorithms*, chapter 22. A message travels under an
//! identifier that the receiver made for this one handshake; the receiver takes a message only under the identifier
//! that it accepted last, and says "got" only once its client has the message. So a repeated packet finds its
//! identifier used up, and no message is got twice. Up to four messages may travel under one identifier, as a batch: a
//! sender holds a [`Payload`], either, and a receiver the [`Messages`] that its client did not get yet. It says "got" once
//! its client has the last of them.
#![tactic(auto)]

mod act;
mod automaton;
mod laws;
mod messages;
mod mode;
mod outcome;
mod payload;
mod receiver;
mod reply;
mod sender;
mod summary;

pub use act::Act;
pub use automaton::Automaton;
pub use laws::{
    acks_end_sending, cleanups_end_handshakes, copies_without_bytes_take_no_memory,
    sends_are_held_only_where_accepted,
};
pub use messages::Messages;
pub use mode::Mode;
pub use outcome::{Advanced, Outcome};
pub use payload::Payload;
pub use receiver::{GetRefusal, Receiver, ReceiverMode};
pub use reply::Reply;
pub use sender::{AckReply, MAX_WAITING, PutRefusal, Sender, SenderMode};
pub use summary::Summary;
