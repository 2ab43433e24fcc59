//! Replays schedules on a book with both sides of every stream, with a world beside it, into the bytes of a transcript.
//! It opens no file and knows no program: the bytes are handed in, and a sink takes what is written.
//!
//! - [`replay`] reads a schedule whole, applies its lines in order, and writes a line for each event.
//! - [`Ending`] is how that ended; [`ending`] writes the line of its fault and answers a status.
//! - [`ToolFault`] is why neither came to its end.
//!
//! What a transcript is stands in `specs/Transcript.antt`, and how an ending is put into words in `specs/Ending.antt`.
#![tactic(auto)]

mod endings;
mod fault;
mod hosts;
mod replies;
mod runner;
mod sides;
mod stop;
mod tell;
mod transcript;

pub use endings::Ending;
pub use fault::ToolFault;
pub use runner::replay;
pub use tell::ending;
