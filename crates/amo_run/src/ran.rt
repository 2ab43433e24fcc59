//! What a run answers.
ghost use Rattle.std.specs.Prelude.{◌≡◌, ◌+◌, [], Some, min};

use crate::report::Chronicle;
use amo_book::Closed;
use amo_world::Event;
use std::alloc::Global;
use std::fmt;

/// What a run did.
#[derive(Drop)]
pub struct Ran {
    /// The events of its book in the order of positions, or those of the senders' book.
    pub events: Vec<Event>,
    /// What the end of that book told.
    pub closed: Closed,
    /// The events of the receivers' book in the order of its positions. There are none where a run has one book.
    pub receivers: Vec<Event>,
    /// What the end of the receivers' book told.
    pub receivers_closed: Option<Closed>,
    /// How often the links failed.
    pub link_faults: u64,
    /// How many turns met Busy.
    pub busy: u64,
}

impl Ran {
    /// A run on one book.
    pub(crate) fn of_one(alloc: Global, book: Chronicle) -> Ran
        ensures events { (result.events ≡ book.events) × (result.closed ≡ book.closed) }
        ensures none { result.receivers.items ≡ [] }
        ensures counts { (result.link_faults ≡ book.link_faults) × (result.busy ≡ book.busy) }
    {
        Ran {
            events: book.events,
            closed: book.closed,
            receivers: Vec::new(alloc),
            receivers_closed: None,
            link_faults: book.link_faults,
            busy: book.busy,
        }
    }

    /// A run on two books, the senders' and the receivers'.
    pub(crate) fn of_two(senders: Chronicle, receivers: Chronicle) -> Ran
        ensures senders { (result.events ≡ senders.events) × (result.closed ≡ senders.closed) }
        ensures receivers { (result.receivers ≡ receivers.events) × (result.receivers_closed ≡ Some receivers.closed) }
        ensures counts { (result.link_faults ≡ min (senders.link_faults + receivers.link_faults) u64.MAX) × (result.busy ≡ min (senders.busy + receivers.busy) u64.MAX) }
    {
        Ran {
            events: senders.events,
            closed: senders.closed,
            receivers: receivers.events,
            receivers_closed: Some(receivers.closed),
            link_faults: senders.link_faults.saturating_add(receivers.link_faults),
            busy: senders.busy.saturating_add(receivers.busy),
        }
    }
}

/// How many events the books of the run have, and how often its links failed.
impl fmt::Display for Ran {
    ghost use Rattle.std.specs.Prelude.{Some};
    ghost use Rattle.amo_run.specs.Ran.{ran_text};

    ghost output = { λ ran. Some (ran_text ran) };

    fn fmt<W: fmt::Write>(&self, f: &mut fmt::Formatter<W>) -> fmt::Result {
        let events = self.events.len() + self.receivers.len();
        let faults = self.link_faults;
        write!(f, "events {events}, link faults {faults}")
    }
}
