//! What a merge hands its events to: it takes them in turn, and knows whether the next one may go.
ghost use Rattle.std.specs.Prelude.{◌≡◌, ◌+◌, ◌<◌, ◌^◌, ◌∷◌, [], List, length, reverse, IfNone, IfOk, IfSome};
ghost use Rattle.amo_world.specs.declared.event.Event.{Event};
ghost use Rattle.amo_world.specs.History.{DeliversEmitted};
ghost use Rattle.amo_world.specs.Stream.{IsStream};
ghost use Rattle.amo_audit.specs.Hosts.{Represents};
ghost use Rattle.amo_audit.specs.Site.{Answers};

use crate::hosts::Hosts;
use amo_journal::TakeEvents;
use amo_world::{Act, Event, NoMemory, World, WorldFault};
use std::alloc::{AllocError, Global};

/// What became of an event that was offered.
#[derive(Drop)]
pub(crate) enum Offered {
    /// It was taken.
    Taken,
    /// It delivers a packet that was not emitted in what was taken so far, and is handed back.
    Unsent(Event),
    /// The site is of no more use.
    GivenUp,
}

/// What takes the events of a merge.
pub(crate) trait Site {
    ghost use Rattle.std.specs.Prelude.{List};
    ghost use Rattle.amo_world.specs.declared.event.Event.{Event};

    /// It has taken these events, the newest first, and no others.
    ghost HasTaken: { Self → List Event → Type 0 };

    /// It may be given up.
    ghost MayEnd: { Type 0 };

    /// Takes an event, unless it delivers a packet that was not emitted in what was taken so far. So many were taken before it.
    fn offer(&mut self, before: usize, event: Event) -> Result<Offered, AllocError>
        requires taken { (past : List Event) × (before ≡ length past) × HasTaken self.old past }
        requires stream { IsStream event.stream }
        requires few { before + 1 < 2 ^ 64 }
        ensures { IfOk result (λ offered. (past : List Event) → before ≡ length past → HasTaken self.old past → Answers HasTaken MayEnd self.new past event offered) };
}

/// A world tells of a delivery whether its packet was emitted, so that nothing else is kept. It goes no further than an event with another
/// fault.
impl Site for World {
    ghost use Rattle.std.specs.Prelude.{◌≡◌};
    ghost use Rattle.amo_audit.specs.Audit.{IsSound};

    ghost HasTaken = { λ world past. (world ≡ past) × IsSound past };

    ghost MayEnd = { Unit {0} };

    fn offer(&mut self, _before: usize, event: Event) -> Result<Offered, AllocError> {
        let Ok(copy) = copy_of_delivery(&event) else {
            return Err(AllocError);
        };
        match self.apply(event) {
            Ok(()) => Ok(Offered::Taken),
            Err(WorldFault::Unsent) => match copy {
                Some(event) => Ok(Offered::Unsent(event)),
                None => unreachable!(),
            },
            Err(WorldFault::NoMemory) => Err(AllocError),
            Err(WorldFault::WrongReply) | Err(WorldFault::Repeat) => Ok(Offered::GivenUp),
        }
    }
}

/// A copy of an event that delivers a packet: no other has to wait for one.
fn copy_of_delivery(event: &Event) -> Result<Option<Event>, NoMemory>
    ensures copy { IfOk result (λ copy. IfSome copy (λ e. e ≡ event.now)) }
    ensures none { IfOk result (λ copy. IfNone copy ((past : List Event) → DeliversEmitted past event.now)) }
{
    match &event.act {
        Act::Deliver(..) => Ok(Some(event.copy()?)),
        _ => Ok(None),
    }
}

/// Both hosts, which tell what was emitted whatever else is wrong, and beside them what takes the events.
#[derive(Drop)]
pub(crate) struct Hosted<T> {
    alloc: Global,
    hosts: Hosts,
    taker: T,
}

impl<T: TakeEvents + Drop> Hosted<T> {
    /// Nothing was taken yet.
    pub(crate) fn new(alloc: Global, taker: T) -> Result<Hosted<T>, AllocError>
        requires { T.HasTaken taker [] }
        ensures { IfOk result (λ site. Represents site.hosts.streams.items [] × T.HasTaken site.taker []) }
    {
        Ok(Hosted {
            alloc,
            hosts: Hosts::new(alloc)?,
            taker,
        })
    }

    /// What took the events.
    pub(crate) fn into_taker(self) -> T
        ensures { result ≡ self.taker }
    {
        self.taker
    }
}

impl<T: TakeEvents + Drop> Site for Hosted<T> {
    ghost use Rattle.std.specs.Prelude.{reverse};
    ghost use Rattle.amo_audit.specs.Hosts.{Represents};

    ghost HasTaken = { λ site past. Represents site.hosts.streams.items past × T.HasTaken site.taker (reverse past) };

    ghost MayEnd = { ⊥ };

    fn offer(&mut self, before: usize, event: Event) -> Result<Offered, AllocError> {
        if !self.hosts.delivers_emitted(&event) {
            return Ok(Offered::Unsent(event));
        }
        self.hosts.make(self.alloc, &event)?;
        self.taker.take(before, event)?;
        Ok(Offered::Taken)
    }
}
