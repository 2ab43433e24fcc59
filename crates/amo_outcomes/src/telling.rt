//! Outcomes of all puts of a history.
ghost use Rattle.std.specs.Prelude.{◌≡◌, ◌∷◌, List, [], IfOk, length, map, reverse};
ghost use Rattle.std.specs.List.{All};
ghost use Rattle.amo_world.specs.declared.event.Event.{Event};
ghost use Rattle.amo_world.specs.Stream.{IsStream};
ghost use Rattle.amo_world.specs.History.{IsRight, IsHonest, IsFresh};
ghost use Rattle.amo_outcomes.specs.Told.{AreFollowed, StreamsTold};

use crate::Outcome;
use crate::follower::Follower;
use amo_world::{Event, NoMemory, STREAMS};
use std::alloc::{AllocError, Global};

/// What became of each put of a right, honest and fresh history, the events of which stand in the order of time: for each of the streams 1 to
/// 256, that of stream 1 first, the outcomes of the puts that it took, in their order. Each event is looked at once, at a cost that does not
/// grow with the history. Whether a history is so, [`World`](amo_world::World) tells.
pub fn outcomes(alloc: Global, events: &[Event]) -> Result<Vec<Vec<Outcome>>, NoMemory>
    requires streams { All (λ e. IsStream e.stream) events.now }
    requires right { IsRight (reverse events.now) }
    requires honest { IsHonest (reverse events.now) }
    requires fresh { IsFresh (reverse events.now) }
    ensures { IfOk result (λ all. StreamsTold (reverse events.now) 256 (map (λ told. told.items) all.items)) }
{
    let followers = followed(alloc, events)?;
    Ok(tell(alloc, followers.as_slice())?)
}

/// What followers tell, in their order.
pub(crate) fn tell(alloc: Global, followers: &[Follower]) -> Result<Vec<Vec<Outcome>>, AllocError>
    ensures { IfOk result (λ all. (past : List Event) → IsRight past → IsHonest past → IsFresh past → AreFollowed followers.now past
        → StreamsTold past 256 (map (λ told. told.items) all.items)) }
{
    let mut all = Vec::with_capacity(alloc, followers.len())?;
    for follower in followers {
        all.push(follower.outcomes(alloc)?)?;
    }
    Ok(all)
}

/// A follower of each stream after these events, that of stream 1 first.
fn followed(alloc: Global, events: &[Event]) -> Result<Vec<Follower>, NoMemory>
    requires streams { All (λ e. IsStream e.stream) events.now }
    requires right { IsRight (reverse events.now) }
    requires honest { IsHonest (reverse events.now) }
    requires fresh { IsFresh (reverse events.now) }
    ensures { IfOk result (λ followers. AreFollowed followers.items (reverse events.now)) }
{
    let mut followers = nothing_followed(alloc)?;
    for event in events {
        follow(&mut followers, event.copy()?)?;
    }
    Ok(followers)
}

/// One event more.
pub(crate) fn follow(followers: &mut Vec<Follower>, event: Event) -> Result<(), AllocError>
    requires stream { IsStream event.stream }
    requires followers { length followers.old.items ≡ 256 }
    ensures followed { IfOk result (λ _. (past : List Event) → IsRight (event ∷ past) → IsHonest (event ∷ past) → IsFresh (event ∷ past)
        → AreFollowed followers.old.items past → AreFollowed followers.new.items (event ∷ past)) }
    ensures count { length followers.new.items ≡ 256 }
{
    let follower = &mut followers[event.stream as usize - 1];
    follower.follow(event)?;
    Ok(())
}

/// A follower of each stream of hosts where nothing happened, that of stream 1 first.
pub(crate) fn nothing_followed(alloc: Global) -> Result<Vec<Follower>, AllocError>
    ensures { IfOk result (λ followers. AreFollowed followers.items []) }
{
    let mut followers = Vec::with_capacity(alloc, STREAMS as usize)?;
    for place in 0..STREAMS {
        followers.push(Follower::new(alloc, place + 1))?;
    }
    Ok(followers)
}
