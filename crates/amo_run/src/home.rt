//! What has come back from the threads of a run.
ghost use Rattle.std.specs.Prelude.{◌≡◌, ◌↔◌, ◌+◌, ◌<◌, ◌++◌, true, false, length, min, vec_len, vec_capacity};
ghost use Rattle.amo_book.specs.Book.{first_pass};
ghost use Rattle.amo_run.specs.Crew.{Made, Adds, SoFar};
ghost use Rattle.amo_run.specs.Roster.{IsWhose};

use crate::roster::Roster;
use amo_book::{Book, Charge, Pass};
use amo_journal::Version;
use amo_world::{Event, NoMemory};

/// The passes and the charges, and the events that the passes made, each with its position.
#[derive(Drop)]
pub struct Home {
    pub passes: Vec<Pass>,
    pub charges: Vec<Charge>,
    pub events: Vec<(u64, Event)>,
    /// Memory was refused, so events or charges are lacking.
    pub is_short: bool,
    /// A pump's socket did not connect.
    pub is_cut_off: bool,
    /// How often the links failed.
    pub link_faults: u64,
    /// How many turns met Busy.
    pub busy: u64,
}

impl Home {
    /// The next pass comes back, with its events, which have lines in a journal of this version, and are such as its thread makes.
    pub fn take(
        &mut self,
        roster: Roster,
        version: Version,
        book: &Book,
        pass: Pass,
        made: Result<Vec<(u64, Event)>, NoMemory>,
    )
        requires room { vec_len self.old.passes < vec_capacity self.old.passes }
        requires so_far { SoFar roster version book.now self.old }
        requires made { Made version book.now.sides (IsWhose roster) (first_pass book.now.id (length self.old.passes.items)) pass made }
        ensures so_far { SoFar roster version book.now self.new }
        ensures count { length self.new.passes.items ≡ length self.old.passes.items + 1 }
        ensures room { vec_capacity self.new.passes ≡ vec_capacity self.old.passes }
        ensures charges { (self.new.charges ≡ self.old.charges) × (self.new.is_short ≡ false → self.old.is_short ≡ false) }
        ensures counts { (self.new.is_cut_off ≡ self.old.is_cut_off) × (self.new.link_faults ≡ self.old.link_faults) × (self.new.busy ≡ self.old.busy) }
    {
        let _ = roster;
        let _ = version;
        let _ = book;
        let is_kept = add_events(&mut self.events, made);
        self.is_short = is_short(self.is_short, is_kept);
        self.passes.push_reserved(pass);
    }

    /// Charges come back.
    pub fn take_charges(&mut self, charges: Vec<Charge>)
        ensures passes { (self.new.passes ≡ self.old.passes) × (self.new.events ≡ self.old.events) }
        ensures kept { self.new.is_short ≡ false → (self.old.is_short ≡ false) × (self.new.charges.items ≡ self.old.charges.items ++ charges.items) }
        ensures counts { (self.new.is_cut_off ≡ self.old.is_cut_off) × (self.new.link_faults ≡ self.old.link_faults) × (self.new.busy ≡ self.old.busy) }
    {
        let mut charges = charges;
        let is_kept = self.charges.append(&mut charges).is_ok();
        self.is_short = is_short(self.is_short, is_kept);
    }

    /// Adds what a pump counted.
    pub fn count(&mut self, is_cut_off: bool, link_faults: u64, busy: u64)
        ensures same { (self.new.passes ≡ self.old.passes) × (self.new.events ≡ self.old.events) × (self.new.charges ≡ self.old.charges) × (self.new.is_short ≡ self.old.is_short) }
        ensures cut_off { (self.new.is_cut_off ≡ false) ↔ ((self.old.is_cut_off ≡ false) × (is_cut_off ≡ false)) }
        ensures counts { (self.new.link_faults ≡ min (self.old.link_faults + link_faults) u64.MAX) × (self.new.busy ≡ min (self.old.busy + busy) u64.MAX) }
    {
        self.is_cut_off = self.is_cut_off || is_cut_off;
        self.link_faults = self.link_faults.saturating_add(link_faults);
        self.busy = self.busy.saturating_add(busy);
    }
}

fn is_short(was_short: bool, is_kept: bool) -> bool
    ensures { result ≡ false → (was_short ≡ false) × (is_kept ≡ true) }
{
    was_short || !is_kept
}

/// Whether there was a list, and memory for it.
fn add_events(events: &mut Vec<(u64, Event)>, made: Result<Vec<(u64, Event)>, NoMemory>) -> bool
    ensures { result ≡ true → Adds made events.old.items events.new.items }
{
    match made {
        Ok(made) => {
            let mut made = made;
            events.append(&mut made).is_ok()
        }
        Err(_) => false,
    }
}
