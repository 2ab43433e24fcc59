//! What a host with a door tells of messages out of its own journal, of the present life and of earlier ones.
//! It knows no host, no client and no door, and it writes nothing: whoever has them asks here between two turns.
//!
//! ```text
//!   what was got of a stream, behind a line?    the lines from there on                  records.rt
//!                                               a page of the messages that they tell    gets.rt
//!   what became of a message of an              the lines that were not read yet         records.rt
//!   earlier life?                               whose each put is                        past.rt, lane.rt
//!                                               what became of it                        past.rt
//!   either is answered                                                                   archive.rt
//! ```
//!
//! - [`Records`] find a line in the pieces of the journal, by halving, and read 64 KiB from there.
//! - [`read_gets`] makes a page of lines that stand in a row: what they say was got of a stream, all of it, in its order, and nothing else.
//! - [`Past`] follows a sender's own events from the journal's first line on, and whose life each put is of. What no line tells is unknown.
//! - [`Archive`] reads by these, some lines at a time, and answers.
//! - [`Handshakes`] keep how the handshakes of the present life ended, by the numbers of the messages that travelled in them. No journal is read for that.
//!
//! The definitions stand in `specs/`: what a page tells in `Records.antt`, what is told of earlier lives in `Past.antt`, and of the present one in `Handshakes.antt`.
#![tactic(auto)]

mod archive;
mod gets;
mod handshakes;
mod lane;
mod lists;
mod past;
mod records;

pub use archive::Archive;
pub use gets::read_gets;
pub use handshakes::Handshakes;
pub use past::Past;
pub use records::Records;
