//! Senders' own events, followed one by one.
ghost use Rattle.std.specs.Prelude.{◌≡◌, ◌≤◌, ◌∷◌, List, [], IfOk, IfSome, IsNone, OnOk, length};
ghost use Rattle.amo_world.specs.declared.event.Event.{Event};
ghost use Rattle.amo_world.specs.Stream.{IsStream};
ghost use Rattle.amo_outcomes.specs.RightPuts.{HasRightPut};
ghost use Rattle.amo_outcomes.specs.Puts.{puts_after};
ghost use Rattle.amo_outcomes.specs.SenderOutcome.{HasSenderOutcome};

use crate::SenderOutcome;
use crate::sender_follower::SenderFollower;
use crate::sender_telling::{follow, nothing_followed};
use amo_world::Event;
use std::alloc::{AllocError, Global};

/// A follower of the sender of each stream, for events that come one by one. Of an event nothing is kept but what became of puts.
#[derive(Drop)]
pub struct SenderFollowers {
    /// That of stream 1 first.
    of_streams: Vec<SenderFollower>,
    ghost all: { length of_streams.items ≡ 256 },
}

impl SenderFollowers {
    ghost use Rattle.amo_outcomes.specs.SenderFollowers.{HaveFollowedSenders};

    /// Nothing happened yet.
    pub fn new(alloc: Global) -> Result<SenderFollowers, AllocError>
        ensures { IfOk result (λ followers. HaveFollowedSenders followers []) }
    {
        Ok(SenderFollowers {
            of_streams: nothing_followed(alloc)?,
        })
    }

    /// One event more. Of replies those to puts alone count.
    pub fn follow(&mut self, event: &Event) -> Result<(), AllocError>
        requires stream { IsStream event.now.stream }
        ensures { OnOk result ((past : List Event) → HasRightPut past event.now → HaveFollowedSenders self.old past → HaveFollowedSenders self.new (event.now ∷ past)) }
    {
        follow(&mut self.of_streams, event)
    }

    /// What became of a put that a stream took, by its number, counted from 0 on each stream, as [`outcomes_of_sender`](crate::outcomes_of_sender)
    /// tells it. None where it took none of that number.
    pub fn outcome(&self, stream: u32, put: usize) -> Option<SenderOutcome>
        requires stream { IsStream stream }
        ensures none { IsNone result → (past : List Event) → HaveFollowedSenders self.now past → (puts_after stream past).count ≤ put }
        ensures some { IfSome result (λ outcome. (past : List Event) → HaveFollowedSenders self.now past → HasSenderOutcome stream past put outcome) }
    {
        self.of_streams[stream as usize - 1].told(put)
    }
}
