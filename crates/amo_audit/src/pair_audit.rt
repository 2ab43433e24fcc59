//! The audit of two journals in pieces, each of which is read once, a block at a time.
ghost use Rattle.std.specs.Prelude.{◌≡◌, ◌+◌, ◌<◌, ◌^◌, ◌∷◌, [], true, List, ℕ, length, IfOk, IfSome, OnOk};
ghost use Rattle.std.specs.Io.KnownBytes.{Consumes};
ghost use Rattle.amo_world.specs.declared.event.Event.{Event};
ghost use Rattle.amo_world.specs.Stream.{IsStream};
ghost use Rattle.amo_audit.specs.Audit.{IsSound};
ghost use Rattle.amo_audit.specs.Pair.{HaveCome, HaveComeOf, Offers, Steps, Tells};
ghost use Rattle.amo_audit.specs.Reader.{HasCome, grown};

use crate::journal_reader::{JournalReader, Sight};
use crate::site::{Offered, Site};
use amo_world::{NoMemory, World};
use std::alloc::{AllocError, Global};
use std::io;
use std::io::Read;

/// The most events that are merged, so that each has a number.
const MOST: usize = usize::MAX - 2;

/// One of two journals.
#[derive(Clone, Copy, PartialEq, Eq)]
pub enum Which {
    /// The first.
    First,
    /// The second.
    Second,
}

/// How far an audit of two journals has come.
#[derive(Clone, Copy, PartialEq, Eq)]
pub enum Progress {
    /// More of this one is to be read first.
    Wants(Which),
    /// Both are journals without a side in common, and their events, merged, are judged yes.
    Yes,
    /// They are not judged so, or were not read to their ends.
    Other,
}

/// An audit of two journals in pieces, which come one after another. Each is read once, a block at a time, when the merge wants more of it. Beside what was
/// read and not taken it keeps the next event of each, and a world, which knows what was emitted.
///
/// It tells whether they are judged yes: what else is found of them, and at which line, is for [`crate::report`] to tell, which has both whole.
#[derive(Drop)]
pub struct PairAudit {
    world: World,
    /// How many events were taken.
    taken: usize,
    first: JournalReader,
    second: JournalReader,
}

/// What became of the next event of a journal.
#[derive(Clone, Copy, PartialEq, Eq)]
pub(crate) enum Offer {
    /// It was taken.
    Taken,
    /// There is none, or it delivers a packet that was not emitted so far.
    Waits,
    /// It is at fault.
    GivenUp,
}

impl PairAudit {
    /// No piece has come yet.
    pub fn new(alloc: Global) -> Result<PairAudit, NoMemory>
        ensures { IfOk result (λ audit. HaveCome audit [] []) }
    {
        Ok(PairAudit {
            world: World::new(alloc)?,
            taken: 0,
            first: JournalReader::new(alloc),
            second: JournalReader::new(alloc),
        })
    }

    /// Begins the next piece of a journal, which a reader has. It answers no where the text in front of the piece ends within a line, or is of another version:
    /// then they are no journal.
    ///
    /// Where memory or the reader fails, or it answers no, the audit is of no more use.
    pub fn begin<R: Read>(&mut self, which: Which, reader: &mut R) -> io::Result<bool>
        ensures { IfOk result (λ is_piece. is_piece ≡ true → (begun : List ℕ) × Consumes (R.remaining reader.old) (R.remaining reader.new) begun
            × ((pieces others : List (List ℕ)) → HaveComeOf which self.old pieces others → HaveComeOf which self.new (begun ∷ pieces) others)) }
    {
        match which {
            Which::First => self.first.begin(reader),
            Which::Second => self.second.begin(reader),
        }
    }

    /// Reads a block more of the newest piece of a journal. It answers no at its end.
    ///
    /// Where memory or the reader fails, the audit is of no more use.
    pub fn read_on<R: Read>(&mut self, which: Which, reader: &mut R) -> io::Result<bool>
        ensures { OnOk result ((more : List ℕ) × Consumes (R.remaining reader.old) (R.remaining reader.new) more
            × ((pieces others : List (List ℕ)) → HaveComeOf which self.old pieces others → HaveComeOf which self.new (grown more pieces) others)) }
    {
        match which {
            Which::First => self.first.read_on(reader),
            Which::Second => self.second.read_on(reader),
        }
    }

    /// All pieces of a journal have come.
    pub fn end(&mut self, which: Which)
        ensures { (pieces pieces' : List (List ℕ)) → HaveCome self.old pieces pieces' → HaveCome self.new pieces pieces' }
    {
        match which {
            Which::First => self.first.end(),
            Which::Second => self.second.end(),
        }
    }

    /// Merges what has come, as far as it goes, and judges it.
    ///
    /// Where memory fails, or it answers other than what is to be read, the audit is of no more use.
    pub fn go_on(&mut self) -> Result<Progress, AllocError>
        requires { (pieces : List (List ℕ)) × (pieces' : List (List ℕ)) × HaveCome self.old pieces pieces' }
        ensures { IfOk result (λ progress. (pieces pieces' : List (List ℕ)) → HaveCome self.old pieces pieces' → Tells progress self.new pieces pieces') }
    {
        'events: for _event in 0..u64::MAX {
            if let Some(progress) = self.step()? {
                return Ok(progress);
            }
        }
        Ok(Progress::Other)
    }

    /// Takes one event more, the first journal's next one if it may go, else the second's; or tells why it takes none.
    fn step(&mut self) -> Result<Option<Progress>, AllocError>
        requires { (pieces : List (List ℕ)) × (pieces' : List (List ℕ)) × HaveCome self.old pieces pieces' }
        ensures { IfOk result (λ step. (pieces pieces' : List (List ℕ)) → HaveCome self.old pieces pieces' → Steps step self.new pieces pieces') }
    {
        if self.taken >= MOST {
            return Err(AllocError);
        }
        match self.first.look()? {
            Sight::Clear => {}
            Sight::Waits => return Ok(Some(Progress::Wants(Which::First))),
            Sight::Fault => return Ok(Some(Progress::Other)),
        }
        match offer_next(&mut self.world, self.taken, &mut self.first)? {
            Offer::Taken => {
                self.taken += 1;
                return Ok(None);
            }
            Offer::Waits => {}
            Offer::GivenUp => return Ok(Some(Progress::Other)),
        }
        match self.second.look()? {
            Sight::Clear => {}
            Sight::Waits => return Ok(Some(Progress::Wants(Which::Second))),
            Sight::Fault => return Ok(Some(Progress::Other)),
        }
        match offer_next(&mut self.world, self.taken, &mut self.second)? {
            Offer::Taken => {
                self.taken += 1;
                Ok(None)
            }
            Offer::Waits => Ok(Some(self.found())),
            Offer::GivenUp => Ok(Some(Progress::Other)),
        }
    }

    /// What is found where no event is taken more.
    fn found(&self) -> Progress
        ensures { (pieces pieces' : List (List ℕ)) → HaveCome self.now pieces pieces' → Tells result self.now pieces pieces' }
    {
        if self.first.is_all_taken()
            && self.second.is_all_taken()
            && !self.first.sides.meets(&self.second.sides)
        {
            Progress::Yes
        } else {
            Progress::Other
        }
    }
}

/// Offers the next event of a journal, if there is one, to a world that has taken so many.
fn offer_next(
    world: &mut World,
    taken: usize,
    journal: &mut JournalReader,
) -> Result<Offer, AllocError>
    requires taken { (taken ≡ length world.old) × IsSound world.old }
    requires stream { IfSome journal.old.next (λ e. IsStream e.stream) }
    requires few { taken + 1 < 2 ^ 64 }
    ensures offers { IfOk result (λ offer. Offers offer world.old journal.old world.new journal.new) }
    ensures come { OnOk result ((pieces : List (List ℕ)) (events : List Event) → HasCome journal.old pieces events → HasCome journal.new pieces events) }
    ensures over { OnOk result (journal.new.is_over ≡ journal.old.is_over) }
{
    let Some(event) = journal.next.take() else {
        return Ok(Offer::Waits);
    };
    match world.offer(taken, event)? {
        Offered::Taken => Ok(Offer::Taken),
        Offered::Unsent(event) => {
            journal.next = Some(event);
            Ok(Offer::Waits)
        }
        Offered::GivenUp => Ok(Offer::GivenUp),
    }
}
