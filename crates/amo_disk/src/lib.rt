//! A host's journal on its disk, in pieces: files that are locked, read at their end, cut behind the last whole line, and appended to.
//! It makes no lines: what it is handed it writes, and of what was there it reads only the end.
//!
//! A journal has a name, F. The host writes the file F; where that is long enough, and its last line is whole, it gets the next number as its name,
//! as F.000001, and a new F is begun. A piece of a journal of version 2 begins with the heading of that version.
//!
//! - A [`Roll`] is the writer that does so. What it was written is what it was handed: nobody above sees that there are pieces.
//! - A [`Folder`] has the pieces, and keeps count of what of them is on the disk, as a [`Standing`]. [`Directory`] is one of files, and [`Shelf`] one in memory.
//! - What is handed to a writer that [`Syncs`] can be put on its disk.
//! - A [`Disk`] is a sink over a roll, or any other writer, and keeps why a call failed. [`Gathered`] hands on together what it was handed one by one.
//! - [`open`] opens a journal at its end, and tells the number of the next line. It costs the same behind ten lines and behind a million.
//! - [`laws`]: read as one, the pieces are the text that was written.
//! - [`read_tail`] reads lines at the end of a journal, and [`Ending`] tells what that of a file says.
//! - [`write_beside`], [`put_in_place`], [`remove_if_there`] and [`sync_entry`] keep small files whole: those that stand beside a journal, and those of calls.
//!
//! **Two hosts have no journal together.** A host has the lock of F; while F has another name, and none is there, it has that of the highest piece.
//! One that opens the journal asks for both. **A host that is killed** at any moment leaves files with which the next one goes on: all pieces with
//! their numbers, and F, which may be missing, or have no whole line. A piece that is closed is on the disk before it gets its number, so that a
//! loss of power leaves a beginning of the journal.
//!
//! What a tail tells stands in `specs/Tail.antt`, what a folder does in `specs/Folder.antt` and `specs/Standing.antt`, and what is kept of its pieces in
//! `specs/Kept.antt`.
//! Lists of pieces have the newest first.
#![tactic(auto)]

mod beginning;
mod directory;
mod disk;
mod durable;
mod ending;
mod fault;
mod folder;
mod gathered;
mod hold;
pub mod laws;
mod names;
mod newest;
mod opening;
mod returns;
mod roll;
mod shelf;
mod standing;
mod start;
mod syncs;
mod tail;
mod whole_file;

pub use directory::Directory;
pub use disk::Disk;
pub use durable::Durable;
pub use ending::Ending;
pub use fault::{Cause, OpenFault};
pub use folder::Folder;
pub use gathered::Gathered;
pub use opening::{Opened, Wanted, open};
pub use roll::Roll;
pub use shelf::Shelf;
pub use standing::Standing;
pub use start::Start;
pub use syncs::Syncs;
pub use tail::{Tail, TailFault, read_tail};
pub use whole_file::{put_in_place, remove_if_there, sync_entry, write_beside};
