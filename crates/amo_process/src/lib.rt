//! A host in a process of its own: what it opens, and one for clients whose lines come at standard input.
//!
//! - [`send_lines`] and [`receive_lines`] are a host of either side for lines, until its clients are done.
//! - [`stop_host`] asks the host of a journal to come to its end, by the bell beside it ([`hang_bell`], [`Nail`]).
//! - [`open_socket`], [`open_lives`], [`hold_numbers`] and the others of `opening` are what every host opens before it is at work, also one with a door, and
//!   what it tells of that: [`Prepared`] is what it has then.
//! - [`HostFailure`] is why a host cannot go on, with the file or the address that failed.
//!
//! `marking` keeps, while a sender is at work, from where its next start is to tell.
#![tactic(auto)]

mod failure;
mod lines;
mod marking;
mod opening;
mod stopping;

pub use failure::HostFailure;
pub use lines::{ON_ITS_WAY, receive_lines, send_lines};
pub use opening::{
    Prepared, hold_numbers, host_of, open_lives, open_socket, path_of_lives, tell_of_start,
    tell_of_zeros,
};
pub use stopping::{Nail, hang_bell, stop_host};
