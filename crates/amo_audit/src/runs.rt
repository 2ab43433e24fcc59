//! The runs of the at-most-once queue that explain events.
ghost use Rattle.std.specs.Prelude.{◌≢◌, IfErr, IfOk, reverse};
ghost use Rattle.std.specs.List.{All};
ghost use Rattle.amo_resolve.specs.Resolved.{IsResolved};
ghost use Rattle.amo_world.specs.Stream.{IsStream};
ghost use Rattle.amo_audit.specs.Audit.{IsSound, JudgesEvents};

use crate::Verdict;
use crate::keeping::keep_open;
use amo_resolve::{ResolveFault, Run, resolve};
use amo_world::{Event, NoMemory};
use std::alloc::Global;

/// A run for each stream of these events that explains it, or the verdict on them. No message that is open is lost, wherever some run of
/// the stream's calls keeps all that are.
pub(crate) fn runs_of_events(alloc: Global, events: &[Event]) -> Result<Vec<Run>, Verdict>
    requires { All (λ e. IsStream e.stream) events.now }
    ensures sound { IfOk result (λ _. IsSound (reverse events.now)) }
    ensures explained { IfOk result (λ runs. IsResolved runs.items events.now) }
    ensures judged { IfErr result (λ verdict. JudgesEvents events.now verdict × (verdict ≢ Verdict.Yes)) }
{
    let mut runs = resolved(alloc, events)?;
    match keep_open(alloc, events, &mut runs) {
        Ok(()) => Ok(runs),
        Err(NoMemory) => Err(Verdict::NoMemory),
    }
}

/// The same, whichever messages are lost.
fn resolved(alloc: Global, events: &[Event]) -> Result<Vec<Run>, Verdict>
    requires { All (λ e. IsStream e.stream) events.now }
    ensures sound { IfOk result (λ _. IsSound (reverse events.now)) }
    ensures explained { IfOk result (λ runs. IsResolved runs.items events.now) }
    ensures judged { IfErr result (λ verdict. JudgesEvents events.now verdict × (verdict ≢ Verdict.Yes)) }
{
    match resolve(alloc, events) {
        Ok(runs) => Ok(runs),
        Err(ResolveFault::NoMemory) => Err(Verdict::NoMemory),
        Err(ResolveFault::WrongReply(place)) => Err(Verdict::WrongReply(place + 1)),
        Err(ResolveFault::Unsent(place)) => Err(Verdict::Unsent(place + 1)),
        Err(ResolveFault::Repeat(place)) => Err(Verdict::Repeat(place + 1)),
    }
}
