//! The ids of messages that have no answer yet.
ghost use Rattle.std.specs.Prelude.{◌≡◌, ◌+◌, ◌<◌, ℕ, [], IfOk, IfSome, IfNone, OnOk, length};
ghost use Rattle.amo_lines.specs.Backlog.{kept_on};
ghost use Rattle.amo_lines.specs.Owed.{answered, first_id, owing};

use crate::id::Id;
use std::alloc::{AllocError, Global};
use std::collections::VecDeque;
use std::marker::Model;

/// The ids of messages that were put and have no answer, of each stream in the order in which they were put. Contracts see the ids of each stream.
#[derive(Drop)]
pub struct Ids {
    streams: Vec<VecDeque<Id>>,
}

impl Model for Ids {
    ghost use Rattle.std.specs.Prelude.{map};
    ghost use Rattle.amo_lines.specs.Owed.{Owed};

    ghost Value = { Owed };

    ghost view = { λ i. map (λ q. q.items) i.streams.items };
}

impl Ids {
    /// None is owed an answer, of so many streams.
    pub fn new(alloc: Global, streams: u32) -> Result<Ids, AllocError>
        ensures { IfOk result (λ ids. (stream : ℕ) → kept_on stream ids ≡ []) }
    {
        let mut queues = Vec::new(alloc);
        'streams: for _stream in 0..streams {
            queues.push(VecDeque::new(alloc))?;
        }
        Ok(Ids { streams: queues })
    }

    /// A message with this id was put on a stream. It is refused, as memory is, where there is no such stream.
    pub fn owe(&mut self, stream: u32, id: Id) -> Result<(), AllocError>
        ensures { OnOk result (self.new ≡ owing stream id self.old) }
    {
        let Some(place) = self.place_of(stream) else {
            return Err(AllocError);
        };
        self.streams[place].push_back(id)?;
        Ok(())
    }

    /// The first of a stream's messages has its answer: this was its id.
    pub fn answer(&mut self, stream: u32) -> Id
        ensures id { result ≡ first_id stream self.old }
        ensures rest { self.new ≡ answered stream self.old }
    {
        let Some(place) = self.place_of(stream) else {
            return Id::none();
        };
        let Some(id) = self.streams[place].pop_front() else {
            return Id::none();
        };
        id
    }

    /// The place of a stream's ids, if it has one.
    fn place_of(&self, stream: u32) -> Option<usize>
        ensures some { IfSome result (λ place. (place < length self.now) × (stream ≡ place + 1)) }
        ensures none { IfNone result (kept_on stream self.now ≡ []) }
    {
        let place = (stream as usize).checked_sub(1)?;
        if place < self.streams.len() {
            Some(place)
        } else {
            None
        }
    }
}
