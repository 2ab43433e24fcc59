//! The commands of the program that need no other process: they read files, or run the service within themselves, tell what there is to tell,
//! and end. Each answers the status to end with, or an [`OfflineFault`].
//!
//! - [`replay_file`] replays a schedule, [`run_to_file`] runs the service between two hosts of this process, and keeps what happened.
//! - [`audit_files`] and [`explain_files`] judge and explain the journals of two names at most, each of one file or of pieces.
//! - [`tell_outcomes_of`] tells by journals what became of each put, [`tell_or_follow_got`] which messages were got, also while a journal grows.
//! - [`tell_untold`] is what a sender that starts again tells of its earlier lives. How far that was told stands in a file beside its journal, which
//!   a sender at work writes anew as pieces fill ([`push_told`], [`write_told`], [`numbered_line`]).
//!
//! What they say is not made here: `amo_replay`, `amo_run`, `amo_audit` and `amo_telling` make it of bytes. Here files are found, opened and read, a
//! block at a time where nothing is kept of them, and a write that fails is told with its cause (`fault`, `watched`).
#![tactic(auto)]

mod doubts;
mod fault;
mod followed;
mod following;
mod got;
mod identity;
mod judging;
mod line_place;
mod names;
mod pair;
mod pieces;
mod progress;
mod replaying;
mod retelling;
mod running;
mod telling;
mod told_file;
mod watched;

pub use doubts::boot_id;
pub use fault::OfflineFault;
pub use following::tell_or_follow_got;
pub use judging::{audit_files, explain_files};
pub use replaying::replay_file;
pub use retelling::{Retold, numbered_line, tell_untold};
pub use running::run_to_file;
pub use telling::tell_outcomes_of;
pub use told_file::{push_told, write_told};
