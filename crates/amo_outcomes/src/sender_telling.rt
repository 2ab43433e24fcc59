//! Outcomes of all puts, as senders' own events tell them.
ghost use Rattle.std.specs.Prelude.{◌≡◌, ◌∷◌, List, [], IfOk, length, map, reverse};
ghost use Rattle.std.specs.List.{All};
ghost use Rattle.amo_world.specs.declared.event.Event.{Event};
ghost use Rattle.amo_world.specs.Stream.{IsStream};
ghost use Rattle.amo_world.specs.History.{IsRight};
ghost use Rattle.amo_outcomes.specs.RightPuts.{HasRightPut};
ghost use Rattle.amo_outcomes.specs.SenderOutcome.{SendersTold};
ghost use Rattle.amo_outcomes.specs.SenderFollower.{SendersFollowed};

use crate::SenderOutcome;
use crate::sender_follower::SenderFollower;
use amo_world::{Event, NoMemory, STREAMS};
use std::alloc::{AllocError, Global};

/// What the senders' own events of a right history tell of each put, the events in the order of time: for each of the streams 1 to 256, that
/// of stream 1 first, of the puts that it took, in their order. A journal of a host of senders is such a history; of any other one, the
/// receivers' events tell nothing. Each event is looked at once, at a cost that grows as the logarithm of the puts.
pub fn outcomes_of_sender(
    alloc: Global,
    events: &[Event],
) -> Result<Vec<Vec<SenderOutcome>>, NoMemory>
    requires streams { All (λ e. IsStream e.stream) events.now }
    requires right { IsRight (reverse events.now) }
    ensures { IfOk result (λ all. SendersTold (reverse events.now) 256 (map (λ told. told.items) all.items)) }
{
    let followers = followed(alloc, events)?;
    Ok(tell(alloc, followers.as_slice())?)
}

/// What followers tell, in their order.
fn tell(alloc: Global, followers: &[SenderFollower]) -> Result<Vec<Vec<SenderOutcome>>, AllocError>
    ensures { IfOk result (λ all. (past : List Event) → SendersFollowed followers.now past
        → SendersTold past 256 (map (λ told. told.items) all.items)) }
{
    let mut all = Vec::with_capacity(alloc, followers.len())?;
    for follower in followers {
        all.push(follower.outcomes(alloc)?)?;
    }
    Ok(all)
}

/// A follower of the sender of each stream after these events, that of stream 1 first.
fn followed(alloc: Global, events: &[Event]) -> Result<Vec<SenderFollower>, AllocError>
    requires streams { All (λ e. IsStream e.stream) events.now }
    requires right { IsRight (reverse events.now) }
    ensures { IfOk result (λ followers. SendersFollowed followers.items (reverse events.now)) }
{
    let mut followers = nothing_followed(alloc)?;
    for event in events {
        follow(&mut followers, event)?;
    }
    Ok(followers)
}

/// One event more.
pub(crate) fn follow(followers: &mut Vec<SenderFollower>, event: &Event) -> Result<(), AllocError>
    requires stream { IsStream event.now.stream }
    requires followers { length followers.old.items ≡ 256 }
    ensures all { length followers.new.items ≡ 256 }
    ensures followed { IfOk result (λ _. (past : List Event) → HasRightPut past event.now → SendersFollowed followers.old.items past
        → SendersFollowed followers.new.items (event.now ∷ past)) }
{
    let follower = &mut followers[event.stream as usize - 1];
    follower.follow(event)?;
    Ok(())
}

/// A follower of the sender of each stream of hosts where nothing happened, that of stream 1 first.
pub(crate) fn nothing_followed(alloc: Global) -> Result<Vec<SenderFollower>, AllocError>
    ensures { IfOk result (λ followers. SendersFollowed followers.items []) }
{
    let mut followers = Vec::with_capacity(alloc, STREAMS as usize)?;
    for place in 0..STREAMS {
        followers.push(SenderFollower::new(alloc, place + 1))?;
    }
    Ok(followers)
}
