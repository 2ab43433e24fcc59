//! Whose events a journal has.
ghost use Rattle.std.specs.Prelude.{◌≡◌, ◌↔◌, IsTrue};
ghost use Rattle.amo_world.specs.History.{is_same_side};
ghost use Rattle.amo_audit.specs.Alone.{HasEvents, IsWhose};

use amo_object::End;
use amo_world::Event;

/// Whose events a journal has.
#[derive(Clone, Copy, PartialEq, Eq)]
pub enum Whose {
    /// A sender's alone, or none.
    Sender,
    /// A receiver's alone.
    Receiver,
    /// Of both sides.
    Both,
}

/// Whose events these are. Where there are none they are taken for a sender's.
pub fn whose_are(events: &[Event]) -> Whose
    ensures { IsWhose events.now result }
{
    if !has_events(events, End::Receiver) {
        return Whose::Sender;
    }
    if has_events(events, End::Sender) {
        Whose::Both
    } else {
        Whose::Receiver
    }
}

/// Whether some event is one at this side.
fn has_events(events: &[Event], side: End) -> bool
    ensures { IsTrue result ↔ HasEvents side events.now }
{
    events.iter().any(|event| is_at(event, side))
}

/// Whether an event is one at this side.
fn is_at(event: &Event, side: End) -> bool
    ensures { result ≡ is_same_side side event.now.side }
{
    matches!(
        (side, event.side),
        (End::Sender, End::Sender) | (End::Receiver, End::Receiver)
    )
}
