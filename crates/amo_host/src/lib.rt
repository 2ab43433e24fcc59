//! One host's turns: a datagram or a moment comes in, at most one event happens, and a packet may go out.
//! It has no socket, no clock and no thread: datagrams, moments and words are handed in.
//!
//! A [`Pump`] drives the charges of one side of many streams. Each [`Pump::turn`] does one thing:
//!
//! ```text
//!   with a datagram      read it; it is no packet (Unread), or for none of the charges (Stranger), or it is delivered
//!   without              the first stream that is due is resent; else, for a sender with a permit free, the next quiet
//!                        charge is started; else nothing (Idle)
//! ```
//!
//! What it knows of its charges is an agenda: of each stream the mode that its charge answered last, the permits of the
//! handshakes that are open, and the timers. An event that changes the kind of a mode stops the timer of its stream,
//! and sets it anew in a mode that waits for an answer; a resend that changes nothing lets the next one come twice as late.
//!
//! [`Pump::crash`] and [`Pump::recover`] are a host's own events, one stream at a time; [`Pump::renew`] hands in the words of the
//! next incarnation, and [`Pump::finish`] gives the charges back. After [`Pump::batches`] a start takes as many messages as
//! wait, up to four, which travel together.
//!
//! A host that decides itself what is an event calls no turn. It asks when a stream is due ([`Pump::next_due`], [`Pump::is_due`]), sends again without
//! an event what was sent before ([`Pump::repeat`]), and delivers, resends or begins a handshake at the stream that it names. Such a pump may count
//! time at another [`Pace`].
#![tactic(auto)]

mod agenda;
mod at_stream;
mod charges;
mod division;
mod fault;
mod handshakes;
mod modes;
mod pump;
mod room;
mod turn;
mod turned;

pub use amo_window::Pace;
pub use division::{MAX_PUMPS, divide};
pub use fault::{DivideFault, NewPumpFault, PumpFault};
pub use pump::Pump;
pub use turned::{Kind, Turned};
