//! The judgement of one journal, or of two that are merged.
ghost use Rattle.std.specs.Prelude.{◌≢◌, IfErr, IfOk, OnOk};
ghost use Rattle.amo_audit.specs.Judgement.{AreApart, AreNotMerged, JudgesBoth, JudgesFiles, JudgesTwo, OfBoth};

use crate::auditor::Auditor;
use crate::coming::Source;
use crate::judgement::Judgement;
use crate::marking::sides_of;
use crate::merging::{Ending, merge_into};
use crate::site::Hosted;
use crate::{Verdict, audit};
use amo_journal::{Lines, open};
use amo_world::{NoMemory, World};
use std::alloc::Global;

/// Judges a journal; or two, of which none has events of a side that the other has.
pub(crate) fn judge(alloc: Global, first: &[u8], second: Option<&[u8]>) -> Judgement
    ensures { JudgesFiles first.now second.entry result }
{
    match second {
        None => Judgement::Whole(audit(alloc, first)),
        Some(second) => judge_both(alloc, first, second),
    }
}

/// Judges two journals.
fn judge_both(alloc: Global, first: &[u8], second: &[u8]) -> Judgement
    ensures { JudgesBoth first.now second.now result }
{
    let ours = open(first);
    let theirs = open(second);
    judge_lines(alloc, ours, theirs).counted(ours.version, theirs.version)
}

/// Judges the lines of two journals. Each is read twice: first it is seen that both tell of events and have no side in common, then the
/// events are merged and judged. So no list of events is kept.
fn judge_lines(alloc: Global, first: Lines<'_>, second: Lines<'_>) -> Judgement
    ensures { JudgesTwo first.entry second.entry result }
{
    if let Err(judgement) = check_apart(alloc, first, second) {
        return judgement;
    }
    match judge_merged(alloc, first, second) {
        Ok(judgement) => judgement,
        Err(NoMemory) => Judgement::Whole(Verdict::NoMemory),
    }
}

/// Sees that the lines of two journals tell of events, and have no side in common.
pub(crate) fn check_apart(
    alloc: Global,
    first: Lines<'_>,
    second: Lines<'_>,
) -> Result<(), Judgement>
    ensures apart { OnOk result (OfBoth first.entry second.entry AreApart) }
    ensures judged { IfErr result (λ judgement. JudgesTwo first.entry second.entry judgement × (judgement ≢ Judgement.Whole Verdict.Yes)) }
    ensures not_merged { IfErr result (AreNotMerged first.entry second.entry) }
{
    let ours = match sides_of(alloc, first) {
        Ok(sides) => sides,
        Err(verdict) => return Err(Judgement::First(verdict)),
    };
    let theirs = match sides_of(alloc, second) {
        Ok(sides) => sides,
        Err(verdict) => return Err(Judgement::Second(verdict)),
    };
    if ours.meets(&theirs) {
        return Err(Judgement::Shared);
    }
    Ok(())
}

/// Merges the events of two journals and judges them. Only where an event is at fault is more kept than a world: it goes no further.
fn judge_merged(alloc: Global, first: Lines<'_>, second: Lines<'_>) -> Result<Judgement, NoMemory>
    requires { OfBoth first second AreApart }
    ensures { IfOk result (JudgesTwo first.entry second.entry) }
{
    let world = World::new(alloc)?;
    match merge_into(
        alloc,
        Source::Journal(first),
        Source::Journal(second),
        world,
    )? {
        Ending::Whole(_) => Ok(Judgement::Whole(Verdict::Yes)),
        Ending::Early(..) | Ending::Stuck(..) => Ok(Judgement::Stuck),
        Ending::GivenUp => judge_at_fault(alloc, first, second),
    }
}

/// Merges the events of two journals, also past one at fault, and judges them on the way.
fn judge_at_fault(alloc: Global, first: Lines<'_>, second: Lines<'_>) -> Result<Judgement, NoMemory>
    requires { OfBoth first second AreApart }
    ensures { IfOk result (JudgesTwo first.entry second.entry) }
{
    let site = Hosted::new(alloc, Auditor::new(alloc)?)?;
    match merge_into(alloc, Source::Journal(first), Source::Journal(second), site)? {
        Ending::Whole(site) => Ok(Judgement::Whole(site.into_taker().verdict())),
        Ending::Early(..) | Ending::Stuck(..) => Ok(Judgement::Stuck),
        Ending::GivenUp => unreachable!(),
    }
}
