//! Links between two hosts: a lossy channel in memory, and sockets.
//! They carry datagrams, and give them no meaning.
//!
//! - [`Link`] is one end of a way on which datagrams go in both directions. Some may be lost, repeated or put in another
//!   order. Contracts see how often its device has failed, and [`LinkFault::Device`] is answered nowhere else.
//! - [`Lossy`] is a channel in memory with a list of datagrams for each direction. A word says what happens to each one
//!   that is sent or received, so whoever hands in the words decides what is lost, repeated and put in another order.
//! - [`LossyEnd`] is one end of a [`Lossy`] that two threads share under a lock.
//! - [`UdpPort`] is a socket at an address of this machine, and [`UdpLink`] one that is connected to its peer. No clause
//!   says which bytes a socket takes or gives: contracts see how often it has failed.
//! - [`FailOnce`] is a link, one call of which fails, for tests of whoever uses a link.
//!
//! - [`laws`]: what the words of a [`Lossy`] do, and that without words it is two queues.
//!
//! The definitions stand in `specs/`: what a send and a receive do to a direction in `Lossy.antt`.
#![tactic(auto)]

mod burst;
mod direction;
mod fail_once;
mod fault;
mod kept_back;
pub mod laws;
mod link;
mod lossy;
mod lossy_end;
mod udp;

pub use direction::MAX_QUEUED;
pub use fail_once::FailOnce;
pub use fault::LinkFault;
pub use link::{Link, MAX_DATAGRAM};
pub use lossy::Lossy;
pub use lossy_end::LossyEnd;
pub use udp::{UdpLink, UdpPort};
