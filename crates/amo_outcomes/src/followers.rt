//! A history, followed event by event.
ghost use Rattle.std.specs.Prelude.{◌≡◌, ◌∷◌, List, [], IfOk, OnOk, length, map};
ghost use Rattle.amo_world.specs.declared.event.Event.{Event};
ghost use Rattle.amo_world.specs.Stream.{IsStream};
ghost use Rattle.amo_world.specs.History.{IsRight, IsHonest, IsFresh};
ghost use Rattle.amo_outcomes.specs.Told.{StreamsTold};

use crate::Outcome;
use crate::follower::Follower;
use crate::telling::{follow, nothing_followed, tell};
use amo_world::Event;
use std::alloc::{AllocError, Global};

/// A follower of each stream, for events that come one by one. Of an event nothing is kept but what became of puts.
#[derive(Drop)]
pub struct Followers {
    /// That of stream 1 first.
    of_streams: Vec<Follower>,
    ghost all: { length of_streams.items ≡ 256 },
}

impl Followers {
    ghost use Rattle.amo_outcomes.specs.Followers.{HaveFollowed};

    /// Nothing happened yet.
    pub fn new(alloc: Global) -> Result<Followers, AllocError>
        ensures { IfOk result (λ followers. HaveFollowed followers []) }
    {
        Ok(Followers {
            of_streams: nothing_followed(alloc)?,
        })
    }

    /// One event more.
    pub fn follow(&mut self, event: Event) -> Result<(), AllocError>
        requires stream { IsStream event.stream }
        ensures { OnOk result ((past : List Event) → IsRight (event ∷ past) → IsHonest (event ∷ past) → IsFresh (event ∷ past)
            → HaveFollowed self.old past → HaveFollowed self.new (event ∷ past)) }
    {
        follow(&mut self.of_streams, event)
    }

    /// What became of each put so far, as [`outcomes`](crate::outcomes) tells it.
    pub fn outcomes(&self, alloc: Global) -> Result<Vec<Vec<Outcome>>, AllocError>
        ensures { IfOk result (λ all. (past : List Event) → IsRight past → IsHonest past → IsFresh past → HaveFollowed self.now past
            → StreamsTold past 256 (map (λ told. told.items) all.items)) }
    {
        tell(alloc, self.of_streams.as_slice())
    }
}
