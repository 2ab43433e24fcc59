//! What is told of the puts of a journal that goes on where the other side's lacks lines.
ghost use Rattle.std.specs.Prelude.{◌≡◌, ◌<◌, List, IfOk, length, map, reverse};
ghost use Rattle.amo_world.specs.declared.event.Event.{Event};
ghost use Rattle.amo_world.specs.History.{IsRight};
ghost use Rattle.amo_world.specs.Stream.{IsStream};
ghost use Rattle.amo_outcomes.specs.Puts.{puts_after};
ghost use Rattle.amo_outcomes.specs.SenderFollowers.{HaveFollowedSenders};
ghost use Rattle.amo_journal.specs.Lines.{Tell};
ghost use Rattle.amo_telling.specs.Outcomes.{IsToldFurther};
ghost use Rattle.amo_telling.specs.Told.{AreToldFurther, StreamsToldFurther};

use crate::put_outcome::PutOutcome;
use amo_journal::{Lines, TakeEvents, read_into};
use amo_outcomes::{Outcome, SenderFollowers};
use amo_world::{Event, STREAMS};
use std::alloc::{AllocError, Global};

/// What is told of each put by both sides as far as they merge, and by the senders' own events: that of stream 1 first.
pub(crate) fn told_further(
    alloc: Global,
    all: &[Vec<Outcome>],
    own: &SenderFollowers,
) -> Result<Vec<Vec<PutOutcome>>, AllocError>
    requires { length all.now ≡ 256 }
    ensures { IfOk result (λ listed. (past : List Event) → HaveFollowedSenders own.now past
        → StreamsToldFurther past (map (λ told. told.items) all.now) 256 (map (λ told. told.items) listed.items)) }
{
    let mut listed = Vec::with_capacity(alloc, STREAMS as usize)?;
    for place in 0..STREAMS {
        let outcomes = all[place as usize].as_slice();
        listed.push(told_of_stream(alloc, place + 1, outcomes, own)?)?;
    }
    Ok(listed)
}

/// The same of the puts of one stream.
fn told_of_stream(
    alloc: Global,
    stream: u32,
    outcomes: &[Outcome],
    own: &SenderFollowers,
) -> Result<Vec<PutOutcome>, AllocError>
    requires { IsStream stream }
    ensures { IfOk result (λ told. (past : List Event) → HaveFollowedSenders own.now past → AreToldFurther past stream outcomes.now (length outcomes.now) told.items) }
{
    let mut told = Vec::with_capacity(alloc, outcomes.len())?;
    for put in 0..outcomes.len() {
        told.push(told_of_put(stream, put, outcomes[put], own))?;
    }
    Ok(told)
}

/// The same of one put.
fn told_of_put(stream: u32, put: usize, outcome: Outcome, own: &SenderFollowers) -> PutOutcome
    requires { IsStream stream }
    ensures { (past : List Event) → HaveFollowedSenders own.now past → put < (puts_after stream past).count → IsToldFurther past stream put outcome result }
{
    match own.outcome(stream, put) {
        Some(alone) => PutOutcome::further(outcome, alone),
        None => PutOutcome::ByBoth(outcome),
    }
}

/// Follows the senders of a journal's events to its end. Its lines tell of some, so only memory can be refused.
pub(crate) fn follow_senders(alloc: Global, lines: Lines<'_>) -> Result<SenderFollowers, AllocError>
    ensures { IfOk result (λ own. (events : List Event) × Tell events lines.entry × (IsRight (reverse events) → HaveFollowedSenders own (reverse events))) }
{
    let taker = Senders {
        followers: SenderFollowers::new(alloc)?,
    };
    match read_into(alloc, lines, taker) {
        Ok(taker) => Ok(taker.followers),
        Err(_) => Err(AllocError),
    }
}

/// The senders of the events that were taken.
#[derive(Drop)]
struct Senders {
    followers: SenderFollowers,
}

impl TakeEvents for Senders {
    ghost use Rattle.std.specs.Prelude.{reverse};
    ghost use Rattle.amo_world.specs.History.{IsRight};
    ghost use Rattle.amo_outcomes.specs.SenderFollowers.{HaveFollowedSenders};

    ghost HasTaken = { λ taker past. IsRight (reverse past) → HaveFollowedSenders taker.followers (reverse past) };

    fn take(&mut self, _before: usize, event: Event) -> Result<(), AllocError> {
        self.followers.follow(&event)
    }
}
