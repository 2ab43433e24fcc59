//! What the program is asked to do, as values: a run, a host of a pair, an audit, a page.
//! It reads no arguments and does nothing of what it names; the crates that do so share these types and their limits.
#![tactic(auto)]

mod run;
mod settings;

pub use run::{LinkKind, RunSettings};
pub use settings::{
    CallSettings, DoorCall, GotSettings, HostSettings, OutcomesSettings, ReceiveSettings,
    SendSettings, ServeSettings, ServedSide, Settings, Shell,
};
