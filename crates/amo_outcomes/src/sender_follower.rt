//! A stream, followed by its sender's own events.
ghost use Rattle.std.specs.Prelude.{◌≡◌, ◌∷◌, ◌<◌, ◌≤◌, ℕ, length, List, [], IfOk, IfSome, IsNone};
ghost use Rattle.amo_core.specs.Sender.{row, kind};
ghost use Rattle.amo_world.specs.declared.event.Event.{Event};
ghost use Rattle.amo_outcomes.specs.RightPuts.{HasRightPut};
ghost use Rattle.amo_outcomes.specs.Puts.{puts_after};
ghost use Rattle.amo_outcomes.specs.SenderOutcome.{HasSenderOutcome, AreSenderOutcomes};
ghost use Rattle.amo_outcomes.specs.SenderPlaces.{Acts};
ghost use Rattle.amo_outcomes.specs.SenderFollower.{IsSenderFollowed};

use crate::SenderOutcome;
use crate::follower::asks;
use crate::sender_places::SenderPlaces;
use amo_core::{Act, Mode, Sender};
use amo_object::End;
use amo_world::Event;
use std::alloc::{AllocError, Global};

/// The sender of a stream, and where its puts are as far as it knows.
#[derive(Drop)]
pub(crate) struct SenderFollower {
    sender: Sender,
    places: SenderPlaces,
}

impl SenderFollower {
    /// Of a stream in which nothing happened yet.
    pub(crate) fn new(alloc: Global, number: u32) -> SenderFollower
        ensures { IsSenderFollowed result number [] }
    {
        SenderFollower {
            sender: Sender::new(number),
            places: SenderPlaces::new(alloc),
        }
    }

    /// One event more, which is one of the stream. One of the receiver's tells nothing, nor does a reply, but for that to a put.
    pub(crate) fn follow(&mut self, event: &Event) -> Result<(), AllocError>
        ensures { IfOk result (λ _. (past : List Event) → HasRightPut past event.now → IsSenderFollowed self.old event.now.stream past
            → IsSenderFollowed self.new event.now.stream (event.now ∷ past)) }
    {
        match event.side {
            End::Sender => self.act(event)?,
            End::Receiver => {}
        }
        Ok(())
    }

    /// What became of each put that was taken, in order.
    pub(crate) fn outcomes(&self, alloc: Global) -> Result<Vec<SenderOutcome>, AllocError>
        ensures { IfOk result (λ told. (number : ℕ) (past : List Event) → IsSenderFollowed self.now number past
            → AreSenderOutcomes number past told.items) }
    {
        let count = self.places.count();
        let mut told = Vec::with_capacity(alloc, count)?;
        for put in 0..count {
            told.push(self.outcome(put))?;
        }
        Ok(told)
    }

    /// What became of the put of this number, if so many were taken.
    pub(crate) fn told(&self, put: usize) -> Option<SenderOutcome>
        ensures none { IsNone result → (number : ℕ) (past : List Event) → IsSenderFollowed self.now number past → (puts_after number past).count ≤ put }
        ensures some { IfSome result (λ outcome. (number : ℕ) (past : List Event) → IsSenderFollowed self.now number past → HasSenderOutcome number past put outcome) }
    {
        if put < self.places.count() {
            Some(self.outcome(put))
        } else {
            None
        }
    }

    /// What became of a put that was taken.
    fn outcome(&self, put: usize) -> SenderOutcome
        requires { put < length self.now.places.marks.items }
        ensures { (number : ℕ) (past : List Event) → IsSenderFollowed self.now number past → HasSenderOutcome number past put result }
    {
        self.places.outcome(put, asks(self.sender.mode()))
    }

    /// An act of the sender, which is the event's.
    fn act(&mut self, event: &Event) -> Result<(), AllocError>
        ensures sender { IfOk result (λ _. self.new.sender ≡ (row self.old.sender event.now.act).state) }
        ensures places { IfOk result (λ _. Acts (kind self.old.sender.mode) (kind self.new.sender.mode) event.now.act event.now.reply
            self.old.places self.new.places) }
    {
        let act = act_of(event)?;
        let before = self.sender.mode();
        self.sender.advance(act);
        match (before, self.sender.mode()) {
            (Mode::Quiet, Mode::NeedId) => self.places.begin(&event.act),
            (Mode::NeedId, Mode::Send) => self.places.send(&event.act)?,
            (_, Mode::Down) => self.places.forget(),
            (Mode::Down, _) => {}
            _ => self.places.hear(&event.act, &event.reply)?,
        }
        Ok(())
    }
}

/// The act of an event, copied.
fn act_of(event: &Event) -> Result<Act, AllocError>
    ensures { IfOk result (λ act. act ≡ event.now.act) }
{
    event.act.clone()
}
