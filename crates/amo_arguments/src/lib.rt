//! Reads the program's arguments: the commands, as they are described to `clap`, and what a match of them chooses.
//! It does nothing of what is chosen, and knows no book, no host and no journal.
//!
//! - [`settings`] reads arguments. What it answers is proved to be what `clap` defines as their match, within its limits; and it refuses only what has none.
//! - [`command`] describes the program, for whoever writes of it, as the manual page does.
#![tactic(auto)]

mod arguments;
mod commands;
mod description;
mod fault;
mod refusal;
mod texts;
mod values;
mod version;

pub use arguments::settings;
pub use commands::{NAME, command};
pub use fault::ArgumentsFault;
pub use refusal::not_text;
pub use version::VERSION;
