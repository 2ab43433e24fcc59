//! A live host with a door: programs put and take messages over HTTP/1.1, beside the datagrams of the other host, in one thread.
//! It reads no request and spells no answer itself, which `amo_door` does; and it authenticates nobody but by the door's guard.
//!
//! ```text
//!   a turn:   wait for the socket, the listener and the clients, until a stream sends again or a client's time is over    door.rt
//!             deliver each datagram; resend what is due                                            turns.rt, amo_live
//!             read what clients sent                                                               door.rt, client.rt
//!             each request that came whole:  a put or a take is an event, and its line is written  responder.rt
//!                                            its answer is made, and kept back
//!             who asks of the journal is told: it is read, some lines a turn                       seeking.rt, amo_archive
//!             the journal on its disk, where that is asked for                                     turns.rt
//!             the answers, to the clients                                                          door.rt
//!             the packets, to the link                                                             amo_live
//! ```
//!
//! **An answer is handed to a connection only once the journal has the line of every event so far**: [`Door`] asks for that where it hands answers out,
//! as the host does where it sends packets.
//!
//! **A turn looks at the clients that are awake**, and its cost does not grow with those at rest: who something came to wakes, and who is told something, is
//! late, or has asked more than was answered.
//!
//! **A put is done once, however often it is asked for**: [`Responder`] decides of each claim by the numbers of its life, and its contracts say that the
//! turns of callers are right and that what they put is what the host put, each once and with its bytes.
//!
//! The definitions stand in `specs/Serving.antt`.
#![tactic(auto)]

mod client;
mod counts;
mod door;
mod ending;
mod fault;
mod news;
mod page;
mod process;
mod responder;
mod seeking;
mod turns;
mod waiting;

pub use door::Door;
pub use fault::DoorFault;
pub use process::run_door;
pub use responder::{Identity, Reply, Responder, Taken};
pub use turns::serve_door;
