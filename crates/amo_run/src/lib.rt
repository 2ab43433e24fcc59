//! A whole run: two hosts whose pumps are at work on threads of their own, clients on others, and packets in between.
//!
//! - [`client`] is the body of a client's thread. It makes the calls of a [`Script`], and answers the events that they made.
//! - [`run`] starts the pumps of two hosts and their clients, joins them all, and answers the whole history of what they did.
//! - [`run_watched`] does the same, and counts in a [`Progress`] meanwhile, for whoever looks on.
//! - [`version_of`] tells the version of journals in which the history has a line for each event: batches want the second.
#![tactic(auto)]

mod calls;
mod clock;
mod crew;
mod engine;
mod fault;
mod home;
mod host;
mod opening;
mod part;
mod plan;
mod progress;
mod ran;
mod report;
mod roster;
mod script;
mod source;
mod threads;
mod two_books;
mod version;
mod whole_run;
mod wire;
mod work;
mod workload;
mod workplace;

pub use amo_settings::{LinkKind, RunSettings};
pub use amo_world::NoMemory;
pub use calls::client;
pub use fault::RunFault;
pub use progress::Progress;
pub use ran::Ran;
pub use script::{ClientCall, ClientReply, Script};
pub use version::version_of;
pub use whole_run::{run, run_watched};
