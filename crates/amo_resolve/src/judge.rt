//! Whether a history is right, honest and fresh, and what is seen of its streams.
ghost use Rattle.std.specs.Prelude.{◌≡◌, ℕ, ◌+◌, ◌<◌, OnOk, IfOk, IfErr, length, take, reverse};
ghost use Rattle.std.specs.List.{All};
ghost use Rattle.amo_world.specs.Stream.{IsStream};
ghost use Rattle.amo_world.specs.History.{IsRight, IsHonest, IsFresh};
ghost use Rattle.amo_resolve.specs.Fault.{IsFault};
ghost use Rattle.amo_resolve.specs.Seen.{AreSeen};

use crate::calls::{Seen, nothing_seen, see};
use crate::{Event, ResolveFault};
use amo_world::{World, WorldFault};
use std::alloc::Global;

/// Hands each event in to a world, and tells the first fault, or what is seen of each stream. Each event is looked at once: the one
/// that the world has just taken is at hand.
pub(crate) fn judge(alloc: Global, events: &[Event]) -> Result<Vec<Seen>, ResolveFault>
    requires { All (λ e. IsStream e.stream) events.now }
    ensures seen { IfOk result (λ streams. AreSeen streams.items events.now) }
    ensures sound { OnOk result (IsRight (reverse events.now) × IsHonest (reverse events.now) × IsFresh (reverse events.now)) }
    ensures fault { IfErr result (λ fault. IsFault events.now fault) }
{
    let mut world = World::new(alloc)?;
    let mut streams = nothing_seen(alloc)?;
    for place in 0..events.len() {
        hand_in(alloc, &mut world, &mut streams, events, place)?;
    }
    Ok(streams)
}

/// Hands the event at a place in to a world that has taken all before it, and sees it once it is taken.
fn hand_in(
    alloc: Global,
    world: &mut World,
    streams: &mut Vec<Seen>,
    events: &[Event],
    place: usize,
) -> Result<(), ResolveFault>
    requires within { place < length events.now }
    requires streams { All (λ e. IsStream e.stream) events.now }
    requires history { world.old ≡ reverse (take place events.now) }
    requires sound { IsRight world.old × IsHonest world.old × IsFresh world.old }
    requires seen { AreSeen streams.old.items (take place events.now) }
    ensures history { OnOk result (world.new ≡ reverse (take (place + 1) events.now)) }
    ensures sound { OnOk result (IsRight world.new × IsHonest world.new × IsFresh world.new) }
    ensures seen { OnOk result (AreSeen streams.new.items (take (place + 1) events.now)) }
    ensures fault { IfErr result (λ fault. IsFault events.now fault) }
{
    let event = &events[place];
    match world.apply(event.copy()?) {
        Ok(()) => {}
        Err(WorldFault::NoMemory) => return Err(ResolveFault::NoMemory),
        Err(WorldFault::WrongReply) => return Err(ResolveFault::WrongReply(place)),
        Err(WorldFault::Unsent) => return Err(ResolveFault::Unsent(place)),
        Err(WorldFault::Repeat) => return Err(ResolveFault::Repeat(place)),
    }
    see(alloc, streams, event)?;
    Ok(())
}
