//! Journals: what happened at both sides of every stream, as a text that anyone can keep, and that a host writes while things happen.
//! It says nothing of whether what a journal tells can have happened: that is for an auditor to judge.
//!
//! A journal is lines `number pass side stream act reply`, as `5 0 r 1 get got 61`, numbered from 0 without a gap. There are two versions.
//! One of version 2 begins with the line `amo 2`, which has no number. Any other file is of version 1, which tells of no batches.
//!
//! - [`open`] tells the [`Version`] of a file, and the [`Lines`] of its events.
//! - [`read_journal`] reads the events that bytes spell; [`read_events`] those of the lines behind a heading;
//!   [`read_into`] has them taken one by one, by whatever a [`TakeEvents`] is.
//! - [`write_journal`] and [`write_journal_2`] write the one spelling of events in their version.
//! - [`push_line`] appends the line of one event, and [`read_line`] reads one, for a journal that goes on while things happen;
//!   [`line_in_front`] reads the first of several.
//! - [`can_spell`] and [`can_spell_2`] tell which events have a line. Reading asks the same of each line, so one table says which acts a side
//!   has and which replies an act has.
//! - [`laws`]: a journal is that of one list of events, and what is wrong with bytes is a matter of them alone.
//!
//! A line is read as one of version 2, and then asked whether version 1 has it where the journal is of that. So there is one reader.
//!
//! The grammar stands in `specs/Journal.antt`, what the versions differ in in `specs/Version.antt`, and faults in `specs/Fault.antt`.
#![tactic(auto)]

mod act_reader;
mod fault;
pub mod laws;
mod line_reader;
mod lines;
mod numbered;
mod prepended;
mod reading;
mod reply_reader;
mod spelling;
mod taking;
mod version;
mod writing;

pub use amo_text::{Out, Sink};
pub use fault::JournalFault;
pub use lines::{Lines, line_in_front, open, read_line};
pub use numbered::Numbered;
pub use reading::{read_events, read_into, read_journal};
pub use spelling::{can_spell, can_spell_2};
pub use taking::TakeEvents;
pub use version::Version;
pub use writing::{push_line, write_journal, write_journal_2};
