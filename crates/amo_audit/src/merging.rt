//! The preferred interleaving of two lists of events, or of the events of two journals.
ghost use Rattle.std.specs.Prelude.{◌≡◌, ◌↔◌, ◌+◌, ◌<◌, ◌^◌, [], List, length, reverse, IfOk, IfSome, IsErrOf, IsTrue};
ghost use Rattle.std.specs.List.{All};
ghost use Rattle.amo_world.specs.declared.event.Event.{Event};
ghost use Rattle.amo_world.specs.Stream.{IsStream};
ghost use Rattle.amo_world.specs.History.{IsHonest};
ghost use Rattle.amo_audit.specs.Coming.{AreOnStreams, size_of};
ghost use Rattle.amo_audit.specs.Judgement.{AreApart};
ghost use Rattle.amo_audit.specs.Merge.{IsPreferred, IsStuck, SharesSide};
ghost use Rattle.amo_audit.specs.Merging.{Ends, OfSources, Steps, stopped_at};

use crate::coming::{Coming, Source};
use crate::marking::shares_side;
use crate::site::{Hosted, Offered, Site};
use crate::{MergeFault, Reach};
use amo_world::Event;
use std::alloc::{AllocError, Global};

/// Merges two lists of events, each in the order of time: at each place the first list's next event, unless that delivers a
/// packet which was not emitted in what was taken so far; else the second's, by the same test. What the events reply is not
/// looked at, and words may repeat.
pub fn merge(alloc: Global, first: &[Event], second: &[Event]) -> Result<Vec<Event>, MergeFault>
    requires first { All (λ e. IsStream e.stream) first.now }
    requires second { All (λ e. IsStream e.stream) second.now }
    ensures preferred { IfOk result (λ merged. IsPreferred first.now second.now merged.items) }
    ensures honest { IfOk result (λ merged. IsHonest (reverse merged.items)) }
    ensures shared { IsErrOf result MergeFault.Shared ↔ SharesSide first.now second.now }
    ensures stuck { IsErrOf result MergeFault.Stuck → IsStuck first.now second.now }
{
    if shares_side(first, second) {
        return Err(MergeFault::Shared);
    }
    let site = Hosted::new(alloc, Vec::new(alloc))?;
    match merge_into(alloc, Source::Events(first), Source::Events(second), site)? {
        Ending::Whole(site) => Ok(site.into_taker()),
        Ending::Early(..) | Ending::Stuck(..) => Err(MergeFault::Stuck),
        Ending::GivenUp => unreachable!(),
    }
}

/// How a merge ended.
#[derive(Drop)]
pub(crate) enum Ending<S> {
    /// All events were taken.
    Whole(S),
    /// As many as this were taken. One source has no more, and the next of the other delivers a packet that was not emitted so far.
    Early(S, Reach),
    /// The next of each, which has this place in it, counted from 1, delivers a packet that was not emitted so far: no interleaving is honest, whatever follows.
    Stuck(usize, usize),
    /// The site was given up.
    GivenUp,
}

/// Hands the events of two sources to a site, in their preferred interleaving. Each is read when its turn comes.
pub(crate) fn merge_into<S: Site + Drop>(
    alloc: Global,
    first: Source<'_>,
    second: Source<'_>,
    site: S,
) -> Result<Ending<S>, AllocError>
    requires site { S.HasTaken site [] }
    requires first_streams { AreOnStreams first }
    requires second_streams { AreOnStreams second }
    requires apart { OfSources first second AreApart }
    requires few { size_of first + size_of second < 2 ^ 64 }
    ensures { IfOk result (Ends S.HasTaken S.MayEnd first.entry second.entry) }
{
    let mut site = site;
    let mut taken = 0;
    let mut of_first = 0;
    let mut left = Coming::read(alloc, first)?;
    let mut right = Coming::read(alloc, second)?;
    while left.next.is_some() || right.next.is_some() {
        match offer(alloc, &mut site, taken, left)? {
            Step::Taken(now) => {
                left = now;
                of_first += 1;
            }
            Step::GivenUp => return Ok(Ending::GivenUp),
            Step::Waits(same) => {
                left = same;
                match offer(alloc, &mut site, taken, right)? {
                    Step::Taken(now) => right = now,
                    Step::GivenUp => return Ok(Ending::GivenUp),
                    Step::Waits(same) => {
                        let has_next = (left.next.is_some(), same.next.is_some());
                        return Ok(stopped(site, has_next, of_first, taken - of_first));
                    }
                }
            }
        }
        taken += 1;
    }
    Ok(Ending::Whole(site))
}

/// How a merge ends where neither next event may go, if each source has one, behind so many of each.
fn stopped<S: Drop>(site: S, has_next: (bool, bool), first: usize, second: usize) -> Ending<S>
    requires first { first + 1 < 2 ^ 64 }
    requires second { second + 1 < 2 ^ 64 }
    ensures { result ≡ stopped_at site has_next.0 has_next.1 first second }
{
    match has_next {
        (true, true) => Ending::Stuck(first + 1, second + 1),
        (true, false) => Ending::Early(site, Reach::First(first + 1)),
        (false, _) => Ending::Early(site, Reach::Second(second + 1)),
    }
}

/// What became of the next of the events that are to come.
#[derive(Drop)]
pub(crate) enum Step<'a> {
    /// It was taken. The others are still to come.
    Taken(Coming<'a>),
    /// There is none, or it delivers a packet that was not emitted so far. All are still to come.
    Waits(Coming<'a>),
    /// The site was given up.
    GivenUp,
}

/// Offers the next of the events that are to come to a site, which has taken so many.
fn offer<'a, S: Site>(
    alloc: Global,
    site: &mut S,
    taken: usize,
    coming: Coming<'a>,
) -> Result<Step<'a>, AllocError>
    requires taken { (past : List Event) × (taken ≡ length past) × S.HasTaken site.old past }
    requires stream { IfSome coming.next (λ e. IsStream e.stream) }
    requires streams { AreOnStreams coming.rest }
    requires few { taken + 1 < 2 ^ 64 }
    ensures { IfOk result (λ step. (past : List Event) → taken ≡ length past → S.HasTaken site.old past
        → Steps S.HasTaken S.MayEnd site.new past coming.entry.next coming.entry.rest step) }
{
    let Coming { next, rest } = coming;
    let Some(event) = next else {
        return Ok(Step::Waits(Coming { next: None, rest }));
    };
    match site.offer(taken, event)? {
        Offered::Taken => Ok(Step::Taken(Coming::read(alloc, rest)?)),
        Offered::Unsent(event) => Ok(Step::Waits(Coming {
            next: Some(event),
            rest,
        })),
        Offered::GivenUp => Ok(Step::GivenUp),
    }
}
