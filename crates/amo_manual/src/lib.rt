//! What the program writes of itself: its manual page, and what shells need to complete its words.
//! Both are made from the commands as they are described to `clap`, so they cannot tell of others. Nothing is proved of their texts.
#![tactic(auto)]

mod completions;
mod manual;
mod outline;

pub use completions::script;
pub use manual::page;
