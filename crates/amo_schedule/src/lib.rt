//! Schedules: what happens at both sides of every stream, a line for each event.
//! It makes nothing happen: it knows no history, no automaton and no transcript.
//!
//! - [`ScheduleLine`] is a line.
//! - [`Schedule`] reads the lines that bytes spell one by one, and [`read_schedule`] all of them.
//! - [`laws`]: each line has one spelling, and where a schedule is malformed is a matter of its bytes alone.
//!
//! The grammar stands in `specs/Schedule.antt`.
#![tactic(auto)]

mod fault;
pub mod laws;
mod line;
mod reader;
mod schedule;

pub use fault::ScheduleFault;
pub use line::ScheduleLine;
pub use schedule::{Schedule, read_schedule};
