//! Where two journals stop, as far as they merge.
ghost use Rattle.std.specs.Prelude.{◌≡◌, ◌+◌, ◌<◌, ◌^◌, IfErr, IfOk, IfSome};
ghost use Rattle.amo_audit.specs.Judgement.{AreApart, JudgesBoth, JudgesTwo, OfBoth};
ghost use Rattle.amo_audit.specs.Stops.{AreUnmerged, StopAt, StopBoth, of_reach, on_by};

use crate::coming::Source;
use crate::judging::check_apart;
use crate::merging::{Ending, merge_into};
use crate::site::Hosted;
use crate::{Judgement, Reach, Verdict};
use amo_journal::{Lines, TakeEvents, Version, open};
use amo_world::Event;
use std::alloc::{AllocError, Global};

/// Where two journals stop: behind their greatest beginnings that merge. Lines count from 1.
#[derive(Clone, Copy, PartialEq, Eq)]
pub struct Stops {
    /// The first line of the first that is left out, since it delivers a packet that the second has not emitted so far; none where it has no more lines.
    pub first: Option<usize>,
    /// The same of the second.
    pub second: Option<usize>,
}

impl Stops {
    ghost use Rattle.amo_audit.specs.Stops.{counted};

    /// The same, where each line is counted from the first of its file.
    fn counted(self, first: Version, second: Version) -> Stops
        requires first { IfSome self.first (λ line. line + 1 < 2 ^ 64) }
        requires second { IfSome self.second (λ line. line + 1 < 2 ^ 64) }
        ensures { result ≡ counted first second self }
    {
        Stops {
            first: on_by(first.lines_before(), self.first),
            second: on_by(second.lines_before(), self.second),
        }
    }
}

/// So many lines further on than a line, if there is one.
fn on_by(more: usize, line: Option<usize>) -> Option<usize>
    requires { IfSome line (λ at. at + more < 2 ^ 64) }
    ensures { result ≡ on_by more line }
{
    match line {
        Some(line) => Some(line + more),
        None => None,
    }
}

/// Where two journals stop, as far as they merge, whatever is wrong with the replies and words of their events. Both do where [`crate::outcomes_of`] finds
/// [`Judgement::Stuck`].
///
/// Otherwise why they are not merged at all: a file that is no journal, or a side with events in both.
///
/// Each line is read twice, and none is kept.
pub fn stops_of(alloc: Global, first: &[u8], second: &[u8]) -> Result<Stops, Judgement>
    ensures stop { IfOk result (StopBoth first.now second.now) }
    ensures found { IfErr result (λ judgement. JudgesBoth first.now second.now judgement × AreUnmerged judgement) }
{
    let ours = open(first);
    let theirs = open(second);
    match stops_of_lines(alloc, ours, theirs) {
        Ok(stops) => Ok(stops.counted(ours.version, theirs.version)),
        Err(judgement) => Err(judgement.counted(ours.version, theirs.version)),
    }
}

/// The same of the lines of two journals.
fn stops_of_lines(alloc: Global, first: Lines<'_>, second: Lines<'_>) -> Result<Stops, Judgement>
    ensures stop { IfOk result (λ stops. OfBoth first.entry second.entry (StopAt stops)) }
    ensures found { IfErr result (λ judgement. JudgesTwo first.entry second.entry judgement × AreUnmerged judgement) }
{
    check_apart(alloc, first, second)?;
    match stops_of_merged(alloc, first, second) {
        Ok(stops) => Ok(stops),
        Err(AllocError) => Err(Judgement::Whole(Verdict::NoMemory)),
    }
}

/// Where the merge of two journals stops.
fn stops_of_merged(alloc: Global, first: Lines<'_>, second: Lines<'_>) -> Result<Stops, AllocError>
    requires { OfBoth first second AreApart }
    ensures { IfOk result (λ stops. OfBoth first.entry second.entry (StopAt stops)) }
{
    let site = Hosted::new(alloc, Passed)?;
    match merge_into(alloc, Source::Journal(first), Source::Journal(second), site)? {
        Ending::Whole(_) => Ok(of_reach(Reach::Whole)),
        Ending::Early(_, reach) => Ok(of_reach(reach)),
        Ending::Stuck(first, second) => Ok(Stops {
            first: Some(first),
            second: Some(second),
        }),
        Ending::GivenUp => unreachable!(),
    }
}

/// Where two journals stop of which one at most goes on.
fn of_reach(reach: Reach) -> Stops
    ensures { result ≡ of_reach reach }
{
    let (first, second) = match reach {
        Reach::Whole => (None, None),
        Reach::First(line) => (Some(line), None),
        Reach::Second(line) => (None, Some(line)),
    };
    Stops { first, second }
}

/// Takes events, of which it keeps nothing.
#[derive(Drop)]
struct Passed;

impl TakeEvents for Passed {
    ghost HasTaken = { λ _ _. Unit {0} };

    fn take(&mut self, _before: usize, _event: Event) -> Result<(), AllocError> {
        Ok(())
    }
}
