//! What is kept of all events, in their order.
ghost use Rattle.std.specs.Prelude.{◌≡◌, ◌+◌, [], ◌∷◌, ◌++◌, length, OnOk, slice_get};
ghost use Rattle.std.specs.Option.{option_copied};
ghost use Rattle.amo_world.specs.Log.{first_of, at_place, place_of};
ghost use Rattle.amo_world.specs.LogRoom.{IsSameLog, HasRoom};

use crate::Event;
use crate::emission::{Emission, Emitted};
use crate::history::History;
use amo_object::End;
use std::alloc::{AllocError, Global};

/// The most events of a log, so that each count of them fits. No run gets there: one event a nanosecond would take three centuries.
const MAX_EVENTS: usize = (1 << 63) - 1;

/// How many events there were, and all that they emitted. A packet that was emitted again is stored once, and counted
/// each time. The events themselves are there for contracts alone.
#[derive(Drop)]
pub(crate) struct Log {
    history: History,
    events: usize,
    stored: Vec<Emission>,
    order: Vec<usize>,
}

impl Log {
    /// Nothing happened yet.
    pub(crate) fn new(alloc: Global) -> Log
        ensures history { result.history ≡ [] }
        ensures events { result.events ≡ 0 }
        ensures stored { result.stored.items ≡ [] }
        ensures order { result.order.items ≡ [] }
    {
        Log {
            history: History::new(),
            events: 0,
            stored: Vec::new(alloc),
            order: Vec::new(alloc),
        }
    }

    /// How many events there were.
    pub(crate) fn event_count(&self) -> usize
        ensures { result ≡ self.now.events }
    {
        self.events
    }

    /// How many packets were emitted.
    pub(crate) fn emission_count(&self) -> usize
        ensures { result ≡ length self.now.order.items }
    {
        self.order.len()
    }

    /// Where the next packet that was not emitted before will stand.
    pub(crate) fn next_place(&self) -> usize
        ensures { result ≡ length self.now.stored.items }
    {
        self.stored.len()
    }

    /// The emission at this place.
    pub(crate) fn at(&self, place: usize) -> Option<&Emission>
        ensures { option_copied result ≡ slice_get self.now.stored.items place }
    {
        self.stored.get(place)
    }

    /// The emission of this number, counted from 0.
    pub(crate) fn emitted(&self, number: usize) -> Option<&Emission>
        ensures { option_copied result ≡ at_place self.now.stored.items (slice_get self.now.order.items number) }
    {
        let place = self.order.get(number)?;
        self.stored.get(*place)
    }

    /// Makes room for one event more.
    pub(crate) fn reserve(&mut self) -> Result<(), AllocError>
        ensures same { IsSameLog self.old self.new }
        ensures room { OnOk result (HasRoom self.new) }
    {
        if self.events >= MAX_EVENTS {
            return Err(AllocError);
        }
        self.stored.reserve(1)?;
        self.order.reserve(1)
    }

    /// Adds an event of this side with what it emitted. There is room for it.
    pub(crate) fn push(&mut self, event: &Event, emitted: Emitted)
        requires { HasRoom self.old }
        ensures history { self.new.history ≡ event.now ∷ self.old.history }
        ensures events { self.new.events ≡ self.old.events + 1 }
        ensures stored { self.new.stored.items ≡ self.old.stored.items ++ first_of event.now.side emitted }
        ensures order { self.new.order.items ≡ self.old.order.items ++ place_of (length self.old.stored.items) emitted }
    {
        self.push_emission(event.side, emitted);
        self.history.push(event);
        self.events += 1;
    }

    fn push_emission(&mut self, side: End, emitted: Emitted)
        requires { HasRoom self.old }
        ensures history { self.new.history ≡ self.old.history }
        ensures events { self.new.events ≡ self.old.events }
        ensures stored { self.new.stored.items ≡ self.old.stored.items ++ first_of side emitted }
        ensures order { self.new.order.items ≡ self.old.order.items ++ place_of (length self.old.stored.items) emitted }
    {
        let place = match emitted {
            Emitted::Nothing => return,
            Emitted::Again(place) => place,
            Emitted::First(packet) => {
                let place = self.stored.len();
                self.stored.push_reserved(Emission { side, packet });
                place
            }
        };
        self.order.push_reserved(place);
    }
}
