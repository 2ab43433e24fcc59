//! Lines of journals.
use amo_world::Event;

/// A line of a journal: its number and its event.
#[derive(Drop)]
pub struct Numbered {
    /// How many events are before it, if the journal has no gap.
    pub number: u64,
    /// What happened, and what it was answered.
    pub event: Event,
}
