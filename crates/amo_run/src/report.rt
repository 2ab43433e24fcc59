//! The end of a run.
ghost use Rattle.std.specs.Prelude.{◌≡◌, All, IfOk, IsErrOf, IsTrue, map};
ghost use Rattle.amo_book.specs.Book.{IsLawful};
ghost use Rattle.amo_journal.specs.Journal.{CanSpell};
ghost use Rattle.amo_run.specs.Whole.{Ends, IsWhole};

use crate::RunFault;
use crate::home::Home;
use crate::roster::Roster;
use amo_book::{Book, Closed};
use amo_journal::Version;
use amo_world::Event;
use std::alloc::{AllocError, Global};

/// What is left of a book: its history, in the order of positions, and what its end told.
#[derive(Drop)]
pub struct Chronicle {
    pub events: Vec<Event>,
    pub closed: Closed,
    /// How often the links failed.
    pub link_faults: u64,
    /// How many turns met Busy.
    pub busy: u64,
}

/// Closes the book, from which nothing is missing, and puts the events in order. They have lines in a journal of this version.
pub fn settle(
    alloc: Global,
    roster: Roster,
    version: Version,
    book: Book,
    home: Home,
) -> Result<Chronicle, RunFault>
    requires ends { Ends roster version book home }
    requires lawful { IsLawful book.sides book.passes }
    ensures whole { IfOk result (λ r. IsWhole book.sides book.passes roster r.closed r.events.items) }
    ensures spelt { IfOk result (λ r. All (CanSpell version) r.events.items) }
    ensures counts { IfOk result (λ r. (r.link_faults ≡ home.link_faults) × (r.busy ≡ home.busy)) }
    ensures cut_off { IsTrue home.is_cut_off → IsErrOf result RunFault.Device }
{
    let _ = roster;
    let _ = version;
    let Home {
        passes,
        charges,
        mut events,
        is_short,
        is_cut_off,
        link_faults,
        busy,
    } = home;
    if is_cut_off {
        return Err(RunFault::Device);
    }
    if is_short {
        return Err(RunFault::NoMemory);
    }
    let Ok(closed) = book.close(passes, charges) else {
        unreachable!()
    };
    let Ok(()) = events.sort_by_key(|one: &(u64, Event)| one.0) else {
        return Err(RunFault::NoMemory);
    };
    let Ok(events) = bare(alloc, events) else {
        return Err(RunFault::NoMemory);
    };
    Ok(Chronicle {
        events,
        closed,
        link_faults,
        busy,
    })
}

/// The events without their positions.
fn bare(alloc: Global, placed: Vec<(u64, Event)>) -> Result<Vec<Event>, AllocError>
    ensures { IfOk result (λ events. events.items ≡ map (λ one. one.1) placed.items) }
{
    let mut events = Vec::with_capacity(alloc, placed.len())?;
    'events: for (_position, event) in placed {
        events.push(event)?;
    }
    Ok(events)
}
