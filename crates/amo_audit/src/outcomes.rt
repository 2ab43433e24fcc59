//! What became of each put of two journals, as far as they merge.
ghost use Rattle.std.specs.Prelude.{◌≡◌, ◌≢◌, ◌∷◌, List, IfErr, IfOk, OnOk, map, reverse};
ghost use Rattle.amo_world.specs.declared.event.Event.{Event};
ghost use Rattle.amo_world.specs.Stream.{IsStream};
ghost use Rattle.amo_outcomes.specs.Followers.{HaveFollowed};
ghost use Rattle.amo_outcomes.specs.Told.{StreamsTold};
ghost use Rattle.amo_journal.specs.Lines.{Tell};
ghost use Rattle.amo_audit.specs.Alone.{IsSoundAlone};
ghost use Rattle.amo_audit.specs.Audit.{Finds, IsSound, JudgesEvents};
ghost use Rattle.amo_audit.specs.Judgement.{AreApart, OfBoth, TellSome};
ghost use Rattle.amo_audit.specs.Outcomes.{FindsBoth, FindsTwo, FollowsIfSound, GoesOnSoundly, IsAtFault, TellMerge, TellOutcomes, TellOutcomesOfBoth};

use crate::auditor::Auditor;
use crate::coming::Source;
use crate::judging::check_apart;
use crate::lone_auditor::LoneAuditor;
use crate::merging::{Ending, merge_into};
use crate::reading::take_told;
use crate::site::{Hosted, Offered, Site};
use crate::{Judgement, Reach, Verdict};
use amo_journal::{Lines, TakeEvents, open};
use amo_outcomes::{Followers, Outcome};
use amo_world::{Event, NoMemory, World, WorldFault};
use std::alloc::{AllocError, Global};

/// What became of the puts of two journals.
#[derive(Drop)]
pub struct PutOutcomes {
    /// That of each put that was judged: those of stream 1 first, and of each stream in their order.
    pub all: Vec<Vec<Outcome>>,
    /// How far the journals were judged.
    pub reach: Reach,
}

/// What became of each put of two journals, as [`amo_outcomes::outcomes`] tells it of the merged events of their greatest beginnings that
/// merge. So they may be of hosts at work, and one may end earlier than the other: what is final in their beginnings stays so.
///
/// Otherwise what is found of them, whatever follows in either: a file that is no journal; an event with a wrong reply or a word that is used
/// again, also behind what was judged; a side with events in both; or both [`Judgement::Stuck`], where the next event of each delivers a packet
/// that the other did not emit before.
///
/// Each line is read twice, as for an audit, and none is kept; those of a journal that goes on behind what is judged are read once more.
pub fn outcomes_of(alloc: Global, first: &[u8], second: &[u8]) -> Result<PutOutcomes, Judgement>
    ensures told { IfOk result (λ told. TellOutcomesOfBoth first.now second.now told.reach (map (λ outcomes. outcomes.items) told.all.items)) }
    ensures found { IfErr result (FindsBoth first.now second.now) }
{
    let ours = open(first);
    let theirs = open(second);
    match outcomes_of_lines(alloc, ours, theirs) {
        Ok(PutOutcomes { all, reach }) => Ok(PutOutcomes {
            all,
            reach: reach.counted(ours.version, theirs.version),
        }),
        Err(judgement) => Err(judgement.counted(ours.version, theirs.version)),
    }
}

/// The same of the lines of two journals.
fn outcomes_of_lines(
    alloc: Global,
    first: Lines<'_>,
    second: Lines<'_>,
) -> Result<PutOutcomes, Judgement>
    ensures told { IfOk result (λ told. TellOutcomes first.entry second.entry told.reach (map (λ outcomes. outcomes.items) told.all.items)) }
    ensures found { IfErr result (FindsTwo first.entry second.entry) }
{
    check_apart(alloc, first, second)?;
    let told = match outcomes_of_merged(alloc, first, second) {
        Ok(told) => told?,
        Err(NoMemory) => return Err(Judgement::Whole(Verdict::NoMemory)),
    };
    check_further(alloc, first, second, told.reach)?;
    Ok(told)
}

/// Merges the greatest beginnings of two journals, judges them, and follows their streams. A world judges, as in an audit.
fn outcomes_of_merged(
    alloc: Global,
    first: Lines<'_>,
    second: Lines<'_>,
) -> Result<Result<PutOutcomes, Judgement>, NoMemory>
    requires { OfBoth first second AreApart }
    ensures told { IfOk result (λ found. IfOk found (λ told. TellMerge first.entry second.entry told.reach (map (λ outcomes. outcomes.items) told.all.items))) }
    ensures found { IfOk result (λ found. IfErr found (FindsTwo first.entry second.entry)) }
{
    let site = Followed {
        world: World::new(alloc)?,
        followers: Followers::new(alloc)?,
    };
    match merge_into(alloc, Source::Journal(first), Source::Journal(second), site)? {
        Ending::Whole(site) => Ok(Ok(site.outcomes(alloc, Reach::Whole)?)),
        Ending::Early(site, reach) => Ok(Ok(site.outcomes(alloc, reach)?)),
        Ending::Stuck(..) => Ok(Err(Judgement::Stuck)),
        Ending::GivenUp => outcomes_at_fault(alloc, first, second),
    }
}

/// The same, also past an event at fault, and judged on the way.
fn outcomes_at_fault(
    alloc: Global,
    first: Lines<'_>,
    second: Lines<'_>,
) -> Result<Result<PutOutcomes, Judgement>, NoMemory>
    requires { OfBoth first second AreApart }
    ensures told { IfOk result (λ found. IfOk found (λ told. TellMerge first.entry second.entry told.reach (map (λ outcomes. outcomes.items) told.all.items))) }
    ensures found { IfOk result (λ found. IfErr found (FindsTwo first.entry second.entry)) }
{
    let taker = Audited {
        auditor: Auditor::new(alloc)?,
        followers: Followers::new(alloc)?,
    };
    let site = Hosted::new(alloc, taker)?;
    match merge_into(alloc, Source::Journal(first), Source::Journal(second), site)? {
        Ending::Whole(site) => site.into_taker().outcomes(alloc, Reach::Whole),
        Ending::Early(site, reach) => site.into_taker().outcomes(alloc, reach),
        Ending::Stuck(..) => Ok(Err(Judgement::Stuck)),
        Ending::GivenUp => unreachable!(),
    }
}

/// Sees that the journal that goes on behind what was judged is right and fresh to its end: what follows in the other does not change that.
fn check_further(
    alloc: Global,
    first: Lines<'_>,
    second: Lines<'_>,
    reach: Reach,
) -> Result<(), Judgement>
    requires { OfBoth first second AreApart }
    ensures sound { OnOk result (OfBoth first.entry second.entry (GoesOnSoundly reach)) }
    ensures found { IfErr result (FindsTwo first.entry second.entry) }
{
    match reach {
        Reach::Whole => Ok(()),
        Reach::First(_) => match check_alone(alloc, first) {
            Ok(()) => Ok(()),
            Err(verdict) => Err(Judgement::First(verdict)),
        },
        Reach::Second(_) => match check_alone(alloc, second) {
            Ok(()) => Ok(()),
            Err(verdict) => Err(Judgement::Second(verdict)),
        },
    }
}

/// Sees that a journal by itself is right and fresh. No event is kept.
fn check_alone(alloc: Global, lines: Lines<'_>) -> Result<(), Verdict>
    requires { TellSome lines }
    ensures sound { OnOk result ((events : List Event) × Tell events lines.entry × IsSoundAlone (reverse events)) }
    ensures found { IfErr result (λ verdict. (verdict ≢ Verdict.Yes) × IsAtFault lines.entry verdict) }
{
    let Ok(auditor) = LoneAuditor::new(alloc) else {
        return Err(Verdict::NoMemory);
    };
    match take_told(alloc, lines, auditor)?.verdict() {
        Verdict::Yes => Ok(()),
        verdict => Err(verdict),
    }
}

/// A world, which takes what is right, honest and fresh and no more, and followers of what it took.
#[derive(Drop)]
struct Followed {
    world: World,
    followers: Followers,
}

impl Followed {
    ghost use Rattle.amo_outcomes.specs.Followers.{HaveFollowed};

    /// What became of each put of what was taken, which reaches so far.
    fn outcomes(self, alloc: Global, reach: Reach) -> Result<PutOutcomes, NoMemory>
        ensures { IfOk result (λ told. (told.reach ≡ reach) × ((past : List Event) → IsSound past → HaveFollowed self.followers past
            → StreamsTold past 256 (map (λ outcomes. outcomes.items) told.all.items))) }
    {
        Ok(PutOutcomes {
            all: self.followers.outcomes(alloc)?,
            reach,
        })
    }
}

impl Site for Followed {
    ghost use Rattle.std.specs.Prelude.{◌≡◌};
    ghost use Rattle.amo_outcomes.specs.Followers.{HaveFollowed};
    ghost use Rattle.amo_audit.specs.Audit.{IsSound};

    ghost HasTaken = { λ site past. (site.world ≡ past) × IsSound past × HaveFollowed site.followers past };

    ghost MayEnd = { Unit {0} };

    fn offer(&mut self, _before: usize, event: Event) -> Result<Offered, AllocError> {
        let Ok(copy) = event.copy() else {
            return Err(AllocError);
        };
        match self.world.apply(event) {
            Ok(()) => {
                self.followers.follow(copy)?;
                Ok(Offered::Taken)
            }
            Err(WorldFault::Unsent) => Ok(Offered::Unsent(copy)),
            Err(WorldFault::NoMemory) => Err(AllocError),
            Err(WorldFault::WrongReply) | Err(WorldFault::Repeat) => Ok(Offered::GivenUp),
        }
    }
}

/// An auditor, and followers of what it is told.
#[derive(Drop)]
struct Audited {
    auditor: Auditor,
    followers: Followers,
}

impl Audited {
    /// What became of each put of what was taken, which reaches so far, where the auditor found nothing; else what it found.
    fn outcomes(
        self,
        alloc: Global,
        reach: Reach,
    ) -> Result<Result<PutOutcomes, Judgement>, NoMemory>
        ensures told { IfOk result (λ found. IfOk found (λ told. (told.reach ≡ reach) × ((events : List Event) → Finds self.auditor.world self.auditor.finding events
            → FollowsIfSound self.followers events → IsSound (reverse events) × StreamsTold (reverse events) 256 (map (λ outcomes. outcomes.items) told.all.items)))) }
        ensures judged { IfOk result (λ found. IfErr found (λ judgement. (events : List Event) → Finds self.auditor.world self.auditor.finding events
            → (verdict : Verdict) × (judgement ≡ Judgement.Whole verdict) × (verdict ≢ Verdict.Yes) × JudgesEvents events verdict)) }
    {
        match self.auditor.verdict() {
            Verdict::Yes => Ok(Ok(PutOutcomes {
                all: self.followers.outcomes(alloc)?,
                reach,
            })),
            verdict => Ok(Err(Judgement::Whole(verdict))),
        }
    }
}

impl TakeEvents for Audited {
    ghost use Rattle.amo_audit.specs.Audit.{Finds};
    ghost use Rattle.amo_audit.specs.Outcomes.{FollowsIfSound};

    ghost HasTaken = { λ taker past. Finds taker.auditor.world taker.auditor.finding past × FollowsIfSound taker.followers past };

    fn take(&mut self, before: usize, event: Event) -> Result<(), AllocError> {
        follow_copy(&mut self.followers, &event)?;
        self.auditor.take(before, event)
    }
}

/// Has a copy of an event followed.
fn follow_copy(followers: &mut Followers, event: &Event) -> Result<(), AllocError>
    requires { IsStream event.now.stream }
    ensures { OnOk result ((past : List Event) → IsSound (event.now ∷ past) → HaveFollowed followers.old past → HaveFollowed followers.new (event.now ∷ past)) }
{
    let Ok(copy) = event.copy() else {
        return Err(AllocError);
    };
    followers.follow(copy)
}
