//! A live host whose clients are lines: those that it reads are messages to be put, and those that it shows are answers, and messages that were got.
//!
//! - [`run_process`] is such a host from its start to its end: a [`Desk`], where its clients are, a host of `amo_live`, and [`serve`], which makes one turn
//!   after another.
//! - **A turn** waits for what comes first: datagrams, lines, an output that takes more, a bell. It hears datagrams, sends again what is due, puts what
//!   the lines brought, has all lines of that in the journal, and then shows what is to be shown and hands over the packets that are to leave.
//! - **A line is put once, or kept, or refused.** What a stream is not given yet waits in the desk's backlog, in the order of its stream. Lines are read no
//!   further than that holds them, and none before those that came are taken. Nobody is shown what has no line in the journal, and no ack leaves before its
//!   message was shown.
//! - **Where answers wait that nobody reads**, no more lines are read, but the host goes on, and sees the end of its lines ([`Ahead`]). A start that tells of
//!   earlier lives is not at work yet, and sees that too ([`Telling`]).
//! - A [`Keeper`] looks at the host behind each turn, when all its lines are with the system.
//!
//! What serves a line is told in `specs/Serving.antt`, and what clients are shown in `Shown.antt` of `amo_live`.
#![tactic(auto)]

mod ahead;
mod clock;
mod ending;
mod fault;
mod keeper;
mod process;
mod putting;
mod ready;
mod stats;
mod telling;
mod turns;

pub use ahead::Ahead;
pub use fault::{ProcessFault, ServeFault};
pub use keeper::Keeper;
pub use process::run_process;
pub use telling::Telling;
pub use turns::{Desk, serve};
