//! Messages that wait to be put, since their streams take no more for now.
ghost use Rattle.std.specs.Prelude.{◌≡◌, ◌+◌, ◌<◌, ℕ, [], ◌++◌, false, IfOk, IfSome, IfNone, OnOk, length};
ghost use Rattle.amo_lines.specs.Backlog.{kept_on, message_on};

use crate::NamedMessage;
use std::alloc::{AllocError, Global};
use std::collections::VecDeque;
use std::marker::Model;

/// How many messages wait at most before no line is read: a megabyte, and some memory for each.
const MOST: usize = 1024;

/// Messages that wait, on each stream in the order in which they came. Contracts see the messages of each stream.
#[derive(Drop)]
pub struct Backlog {
    streams: Vec<VecDeque<NamedMessage>>,
    count: usize,
}

impl Model for Backlog {
    ghost use Rattle.std.specs.Prelude.{map};
    ghost use Rattle.amo_lines.specs.Backlog.{BacklogState};

    ghost Value = { BacklogState };

    ghost view = { λ b. map (λ q. q.items) b.streams.items };
}

impl Backlog {
    /// Nothing waits, on so many streams.
    pub fn new(alloc: Global, streams: u32) -> Result<Backlog, AllocError>
        ensures { IfOk result (λ backlog. (stream : ℕ) → kept_on stream backlog ≡ []) }
    {
        let mut queues = Vec::new(alloc);
        'streams: for _stream in 0..streams {
            queues.push(VecDeque::new(alloc))?;
        }
        Ok(Backlog {
            streams: queues,
            count: 0,
        })
    }

    /// On how many streams messages may wait, from stream 1 on.
    pub fn streams(&self) -> u32 {
        u32::try_from(self.streams.len()).unwrap_or(u32::MAX)
    }

    /// How many messages wait.
    pub fn len(&self) -> usize {
        self.count
    }

    /// Whether none waits.
    pub fn is_empty(&self) -> bool {
        self.count == 0
    }

    /// Whether as many wait as may.
    pub fn is_full(&self) -> bool {
        self.count >= MOST
    }

    /// Whether some wait on this stream.
    pub fn has(&self, stream: u32) -> bool
        ensures { result ≡ false → kept_on stream self.now ≡ [] }
    {
        match self.place_of(stream) {
            Some(place) => !self.streams[place].is_empty(),
            None => false,
        }
    }

    /// Takes out the first that waits on this stream, if one does.
    pub fn take(&mut self, stream: u32) -> Option<NamedMessage>
        ensures some { IfSome result (λ message. (at : ℕ) → kept_on at self.old ≡ message_on at (stream, message) ++ kept_on at self.new) }
        ensures none { IfNone result (self.new ≡ self.old) }
    {
        let place = self.place_of(stream)?;
        let message = self.streams[place].pop_front()?;
        self.count = self.count.saturating_sub(1);
        Some(message)
    }

    /// It waits again on this stream, in front of those that do. It is refused, as memory is, where there is no such stream.
    pub fn put_back(&mut self, stream: u32, message: NamedMessage) -> Result<(), AllocError>
        ensures { OnOk result ((at : ℕ) → kept_on at self.new ≡ message_on at (stream, message) ++ kept_on at self.old) }
    {
        let Some(place) = self.place_of(stream) else {
            return Err(AllocError);
        };
        self.streams[place].push_front(message)?;
        self.count = self.count.saturating_add(1);
        Ok(())
    }

    /// It waits on this stream, behind those that do. It is refused, as memory is, where there is no such stream.
    pub fn keep(&mut self, stream: u32, message: NamedMessage) -> Result<(), AllocError>
        ensures { OnOk result ((at : ℕ) → kept_on at self.new ≡ kept_on at self.old ++ message_on at (stream, message)) }
    {
        let Some(place) = self.place_of(stream) else {
            return Err(AllocError);
        };
        self.streams[place].push_back(message)?;
        self.count = self.count.saturating_add(1);
        Ok(())
    }

    /// The place of a stream's messages, if it has one.
    fn place_of(&self, stream: u32) -> Option<usize>
        ensures some { IfSome result (λ place. (place < length self.now) × (stream ≡ place + 1)) }
        ensures none { IfNone result (kept_on stream self.now ≡ []) }
    {
        let place = (stream as usize).checked_sub(1)?;
        if place < self.streams.len() {
            Some(place)
        } else {
            None
        }
    }
}
