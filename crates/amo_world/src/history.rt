//! A history that contracts alone see.
ghost use Rattle.std.specs.Prelude.{◌≡◌, [], ◌∷◌};

use crate::Event;
use std::marker::Model;
use std::snapshot::Snapshot;

/// A list of events, the newest first. No event lies in memory: nothing reads one back, and a snapshot has no bytes.
#[cycle(history)]
#[derive(Drop)]
pub(crate) struct History {
    newest: Newest,
}

/// The newest event, if there is one, and the history before it.
#[cycle(history)]
#[derive(Drop)]
enum Newest {
    Nothing,
    Event(Snapshot<Event>, Snapshot<History>),
}

impl Model for History {
    ghost use Rattle.std.specs.Prelude.{List, length};
    ghost use Rattle.amo_world.specs.declared.event.Event.{Event};

    ghost Value = { List Event };

    ghost use Rattle.amo_world.specs.Newest.{events};

    ghost view = { λ h. events h.newest };

    ghost size = { length };

    ghost use Rattle.std.proofs.Common.{arith};

    ghost size_decreases = { λ h invariant. Prim.grind (arith) };
}

impl History {
    /// No events.
    pub(crate) fn new() -> History
        ensures { result ≡ [] }
    {
        History {
            newest: Newest::Nothing,
        }
    }

    /// Adds an event.
    pub(crate) fn push(&mut self, event: &Event)
        ensures { self.new ≡ event.now ∷ self.old }
    {
        let past = Snapshot::of(self);
        self.newest = Newest::Event(Snapshot::of(event), past);
    }
}
