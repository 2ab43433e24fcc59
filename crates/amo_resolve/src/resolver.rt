//! Runs of the queue for all streams of a history.
ghost use Rattle.std.specs.Prelude.{◌≡◌, ℕ, IfOk, IfErr, OnOk, reverse};
ghost use Rattle.std.specs.List.{All};
ghost use Rattle.amo_world.specs.Stream.{IsStream};
ghost use Rattle.amo_world.specs.History.{IsRight, IsHonest, IsFresh};
ghost use Rattle.amo_resolve.specs.Fault.{IsFault};
ghost use Rattle.amo_resolve.specs.Resolved.{IsResolved};

use crate::explanation::explained;
use crate::judge::judge;
use crate::{Event, ResolveFault, Step};
use amo_world::STREAMS;
use std::alloc::Global;

/// A run of the queue that explains the calls of a stream.
#[derive(Drop)]
pub struct Run {
    /// The stream.
    pub stream: u32,
    /// The steps, in the order of time.
    pub steps: Vec<Step>,
}

/// Runs that explain a history, the events of which stand in the order of time: one for each stream that an event names,
/// rising. Which of several runs is given is open. A stream that is named without a call has an empty run.
///
/// # Errors
///
/// The first event that a world refuses, by its place, and why; or memory was refused, and the caller may try again later.
pub fn resolve(alloc: Global, events: &[Event]) -> Result<Vec<Run>, ResolveFault>
    requires { All (λ e. IsStream e.stream) events.now }
    ensures resolved { IfOk result (λ runs. IsResolved runs.items events.now) }
    ensures sound { OnOk result (IsRight (reverse events.now) × IsHonest (reverse events.now) × IsFresh (reverse events.now)) }
    ensures fault { IfErr result (λ fault. IsFault events.now fault) }
{
    let streams = judge(alloc, events)?;
    let mut runs = Vec::new(alloc);
    for (place, seen) in (0..STREAMS).zip(streams) {
        if seen.is_named {
            let stream = place + 1;
            let steps = explained(alloc, seen.calls)?;
            match runs.push(Run { stream, steps }) {
                Ok(()) => {}
                Err(_) => return Err(ResolveFault::NoMemory),
            }
        }
    }
    Ok(runs)
}
