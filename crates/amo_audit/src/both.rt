//! The explanation of two journals.
ghost use Rattle.std.specs.Prelude.{◌≡◌, ◌≢◌, ◌<◌, ◌↔◌, ◌⊎◌, ℕ, List, IfErr, IfNone, IfOk, IfSome, IsErrOf, OnErr};
ghost use Rattle.std.specs.Io.KnownBytes.{Appends, Keeps};
ghost use Rattle.amo_text.specs.Sink.{AppendsFront};
ghost use Rattle.amo_audit.specs.Judgement.{AreApart, JudgesBoth, JudgesTwo, OfBoth, judgement_status};
ghost use Rattle.amo_audit.specs.Explanation.{ExplainsBothIf, ExplainsTwo, IsExplanationOfBoth, IsMerged, MergeIsResolved, runs_text};

use crate::coming::Source;
use crate::explaining::push_runs;
use crate::judging::check_apart;
use crate::merging::{Ending, merge_into};
use crate::runs::runs_of_events;
use crate::site::Hosted;
use crate::{Judgement, Verdict};
use amo_journal::{JournalFault, Lines, open};
use amo_resolve::Run;
use amo_text::{Sink, write_all};
use amo_world::Event;
use std::alloc::{AllocError, Global};

/// The status where memory was refused.
const NO_MEMORY: u8 = 4;

/// Writes, as [`crate::explain`] does, the run of the at-most-once queue that explains each stream of two journals, where the audit of both is a yes:
/// of their merged events.
///
/// Of other files nothing is written. The answer is what is found of both, which [`crate::tell_judgement`] tells.
///
/// The explanation is made whole and then written. Where the sink fails, a beginning of it was appended; where memory is refused,
/// nothing was.
pub fn explain_both<W: Sink>(
    alloc: Global,
    first: &[u8],
    second: &[u8],
    sink: &mut W,
) -> Result<Judgement, JournalFault>
    ensures judged { IfOk result (λ judgement. JudgesBoth first.now second.now judgement × (judgement_status judgement ≢ 4)) }
    ensures explained { IfOk result (λ judgement. (text : List ℕ) × ExplainsBothIf judgement first.now second.now text
        × Appends (W.written sink.old) (W.written sink.new) text) }
    ensures begun { OnErr result (Keeps (W.written sink.old) (W.written sink.new)
        ⊎ ((text : List ℕ) × IsExplanationOfBoth first.now second.now text × AppendsFront (W.written sink.old) (W.written sink.new) text)) }
    ensures refused { IsErrOf result JournalFault.NoMemory → Keeps (W.written sink.old) (W.written sink.new) }
    ensures faults { IfErr result (λ fault. (fault ≡ JournalFault.NoMemory) ⊎ (fault ≡ JournalFault.Device)) }
    ensures device { IsErrOf result JournalFault.Device ↔ (W.failures sink.old < W.failures sink.new) }
{
    match explanation_of_both(alloc, first, second) {
        Ok(text) => {
            write_all(sink, text.as_slice())?;
            Ok(Judgement::Whole(Verdict::Yes))
        }
        Err(judgement) => {
            if judgement.status() == NO_MEMORY {
                return Err(JournalFault::NoMemory);
            }
            Ok(judgement)
        }
    }
}

/// The text that explains two journals, or what is found of them.
fn explanation_of_both(alloc: Global, first: &[u8], second: &[u8]) -> Result<Vec<u8>, Judgement>
    ensures good { IfOk result (λ _. JudgesBoth first.now second.now (Judgement.Whole Verdict.Yes)) }
    ensures explained { IfOk result (λ text. IsExplanationOfBoth first.now second.now text.items) }
    ensures judged { IfErr result (λ judgement. JudgesBoth first.now second.now judgement × (judgement ≢ Judgement.Whole Verdict.Yes)) }
{
    let ours = open(first);
    let theirs = open(second);
    match explanation_of_lines(alloc, ours, theirs) {
        Ok(text) => Ok(text),
        Err(judgement) => Err(judgement.counted(ours.version, theirs.version)),
    }
}

/// The same of the lines of two journals.
fn explanation_of_lines(
    alloc: Global,
    first: Lines<'_>,
    second: Lines<'_>,
) -> Result<Vec<u8>, Judgement>
    ensures good { IfOk result (λ _. JudgesTwo first.entry second.entry (Judgement.Whole Verdict.Yes)) }
    ensures explained { IfOk result (λ text. ExplainsTwo first.entry second.entry text.items) }
    ensures judged { IfErr result (λ judgement. JudgesTwo first.entry second.entry judgement × (judgement ≢ Judgement.Whole Verdict.Yes)) }
{
    check_apart(alloc, first, second)?;
    let runs = runs_of_both(alloc, first, second)?;
    let mut text = Vec::new(alloc);
    match push_runs(&mut text, &runs) {
        Ok(()) => Ok(text),
        Err(_) => Err(Judgement::Whole(Verdict::NoMemory)),
    }
}

/// The runs that explain each stream of the merged events of two journals, or what is found of them.
fn runs_of_both(alloc: Global, first: Lines<'_>, second: Lines<'_>) -> Result<Vec<Run>, Judgement>
    requires { OfBoth first second AreApart }
    ensures good { IfOk result (λ _. JudgesTwo first.entry second.entry (Judgement.Whole Verdict.Yes)) }
    ensures explained { IfOk result (λ runs. OfBoth first.entry second.entry (MergeIsResolved runs.items)) }
    ensures judged { IfErr result (λ judgement. JudgesTwo first.entry second.entry judgement × (judgement ≢ Judgement.Whole Verdict.Yes)) }
{
    let events = match merged_of(alloc, first, second) {
        Ok(Some(events)) => events,
        Ok(None) => return Err(Judgement::Stuck),
        Err(AllocError) => return Err(Judgement::Whole(Verdict::NoMemory)),
    };
    match runs_of_events(alloc, events.as_slice()) {
        Ok(runs) => Ok(runs),
        Err(verdict) => Err(Judgement::Whole(verdict)),
    }
}

/// The merged events of two journals, if some interleaving is honest.
fn merged_of(
    alloc: Global,
    first: Lines<'_>,
    second: Lines<'_>,
) -> Result<Option<Vec<Event>>, AllocError>
    requires { OfBoth first second AreApart }
    ensures merged { IfOk result (λ found. IfSome found (λ events. OfBoth first.entry second.entry (IsMerged events.items))) }
    ensures stuck { IfOk result (λ found. IfNone found (JudgesTwo first.entry second.entry Judgement.Stuck)) }
{
    let site = Hosted::new(alloc, Vec::new(alloc))?;
    match merge_into(alloc, Source::Journal(first), Source::Journal(second), site)? {
        Ending::Whole(site) => Ok(Some(site.into_taker())),
        Ending::Early(..) | Ending::Stuck(..) => Ok(None),
        Ending::GivenUp => unreachable!(),
    }
}
