//! Which sides of which streams have events.
ghost use Rattle.std.specs.Prelude.{◌≡◌, ◌↔◌, ◌<◌, ◌++◌, ◌∷◌, [], List, IfErr, IfOk, IsTrue};
ghost use Rattle.std.specs.List.{All};
ghost use Rattle.amo_world.specs.declared.event.Event.{Event};
ghost use Rattle.amo_world.specs.Stream.{IsStream};
ghost use Rattle.amo_journal.specs.Lines.{Tell};
ghost use Rattle.amo_audit.specs.Judgement.{TellNone};
ghost use Rattle.amo_audit.specs.Marks.{Marks, MarksAll, place_of};
ghost use Rattle.amo_audit.specs.Merge.{SharesSide};

use crate::Verdict;
use crate::reading::take_told;
use amo_journal::{Lines, TakeEvents};
use amo_object::End;
use amo_world::Event;
use std::alloc::{AllocError, Global};

/// How many sides the streams of a host have.
const SIDES: usize = 512;

/// A set of sides of streams.
#[derive(Drop)]
pub(crate) struct SideSet {
    has: [bool; SIDES],
}

impl SideSet {
    /// No side.
    pub(crate) fn new() -> SideSet
        ensures { MarksAll result.has [] }
    {
        SideSet {
            has: [false; SIDES],
        }
    }

    /// The sides of these events.
    fn of(events: &[Event]) -> SideSet
        requires { All (λ e. IsStream e.stream) events.now }
        ensures { Marks result.has events.now }
    {
        let mut sides = SideSet::new();
        for event in events {
            sides.add(event);
        }
        sides
    }

    /// Adds the side of an event.
    pub(crate) fn add(&mut self, event: &Event)
        requires { IsStream event.now.stream }
        ensures { (past : List Event) → MarksAll self.old.has past → MarksAll self.new.has (past ++ event.now ∷ []) }
    {
        self.has[place(event)] = true;
    }

    /// Whether a side is in both.
    pub(crate) fn meets(&self, other: &SideSet) -> bool
        ensures { (x y : List Event) → Marks self.now.has x → Marks other.now.has y → All (λ e. IsStream e.stream) x → All (λ e. IsStream e.stream) y
            → IsTrue result ↔ SharesSide x y }
    {
        for place in 0..SIDES {
            if self.has[place] && other.has[place] {
                return true;
            }
        }
        false
    }
}

impl TakeEvents for SideSet {
    ghost use Rattle.amo_audit.specs.Marks.{MarksAll};

    ghost HasTaken = { λ sides past. MarksAll sides.has past };

    fn take(&mut self, _before: usize, event: Event) -> Result<(), AllocError> {
        self.add(&event);
        Ok(())
    }
}

/// The sides of the events that lines tell of, or why they tell of none.
pub(crate) fn sides_of(alloc: Global, lines: Lines<'_>) -> Result<SideSet, Verdict>
    ensures marks { IfOk result (λ sides. (events : List Event) × Tell events lines.entry × Marks sides.has events) }
    ensures found { IfErr result (TellNone lines.entry) }
{
    take_told(alloc, lines, SideSet::new())
}

/// Whether some side of a stream has events in both lists.
pub(crate) fn shares_side(first: &[Event], second: &[Event]) -> bool
    requires first { All (λ e. IsStream e.stream) first.now }
    requires second { All (λ e. IsStream e.stream) second.now }
    ensures { IsTrue result ↔ SharesSide first.now second.now }
{
    SideSet::of(first).meets(&SideSet::of(second))
}

/// The place of an event's side among all sides of all streams.
fn place(event: &Event) -> usize
    requires { IsStream event.now.stream }
    ensures value { result ≡ place_of event.now }
    ensures small { result < 512 }
{
    let side = match event.side {
        End::Sender => 0,
        End::Receiver => 1,
    };
    2 * (event.stream as usize - 1) + side
}
