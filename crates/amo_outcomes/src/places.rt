//! Where the puts of a stream are.
ghost use Rattle.std.specs.Prelude.{◌≡◌, ◌↔◌, ◌<◌, Some, IfOk, IsTrue, length, slice_get};
ghost use Rattle.std.specs.List.{Contains};
ghost use Rattle.amo_outcomes.specs.Places as places;

use amo_core::Act;
use amo_packet::MAX_BATCH;
use std::alloc::{AllocError, Global};
use std::collections::VecDeque;
use std::marker::Model;
use std::mem;

/// The puts of a stream, by their numbers. Contracts see lists.
#[derive(Drop)]
pub(crate) struct Places {
    /// Those that wait at the sender.
    waiting: VecDeque<usize>,
    /// Those for which the sender asks for an identifier.
    asked: VecDeque<usize>,
    /// Those that travel under the identifier that the receiver accepts, or that it holds.
    arriving: VecDeque<usize>,
    /// Of each put, whether it was got.
    got: Vec<bool>,
}

impl Model for Places {
    ghost use Rattle.amo_outcomes.specs.Places.{Kept};

    ghost Value = { Kept };

    ghost view = { λ p. record { waiting = p.waiting.items; asked = p.asked.items; arriving = p.arriving.items; got = p.got.items } };
}

impl Places {
    /// Of a stream to which nothing was put.
    pub(crate) fn new(alloc: Global) -> Places
        ensures { result ≡ places.empty }
    {
        Places {
            waiting: VecDeque::new(alloc),
            asked: VecDeque::new(alloc),
            arriving: VecDeque::new(alloc),
            got: Vec::new(alloc),
        }
    }

    /// How many puts were taken.
    pub(crate) fn count(&self) -> usize
        ensures { result ≡ length self.now.got }
    {
        self.got.len()
    }

    /// Whether a put was got.
    pub(crate) fn was_got(&self, put: usize) -> bool
        requires { put < length self.now.got }
        ensures { slice_get self.now.got put ≡ Some result }
    {
        self.got[put]
    }

    /// Whether a put arrives.
    pub(crate) fn arrives(&self, put: usize) -> bool
        ensures { IsTrue result ↔ Contains self.now.arriving put }
    {
        has(&self.arriving, put)
    }

    /// Whether an identifier is asked for a put, if the sender asks for one.
    pub(crate) fn is_asked(&self, put: usize, asks: bool) -> bool
        ensures { IsTrue result ↔ Contains (places.asked_if asks self.now) put }
    {
        asks && has(&self.asked, put)
    }

    /// Whether a put waits.
    pub(crate) fn waits(&self, put: usize) -> bool
        ensures { IsTrue result ↔ Contains self.now.waiting put }
    {
        has(&self.waiting, put)
    }

    /// A put that was taken waits after the others, if one was.
    pub(crate) fn put_if(&mut self, puts: bool) -> Result<(), AllocError>
        ensures { IfOk result (λ _. self.new ≡ places.if_put puts self.old) }
    {
        if puts {
            self.waiting.push_back(self.got.len())?;
            self.got.push(false)?;
        }
        Ok(())
    }

    /// The sender asks for an identifier for the first ones that wait, for so many at most.
    pub(crate) fn begin(&mut self, most: usize) -> Result<(), AllocError>
        ensures { IfOk result (λ _. self.new ≡ places.begun most self.old) }
    {
        let rest = self.waiting.split_off(most.min(self.waiting.len()))?;
        self.asked = mem::replace(&mut self.waiting, rest);
        Ok(())
    }

    /// What was asked for is sent, under the identifier that the receiver accepts if it arrives.
    pub(crate) fn arrive_if(&mut self, arrives: bool)
        ensures { self.new ≡ places.if_arrived arrives self.old }
    {
        if arrives {
            mem::swap(&mut self.arriving, &mut self.asked);
        }
    }

    /// The sender forgets what waits.
    pub(crate) fn forget(&mut self)
        ensures { self.new ≡ places.forgotten self.old }
    {
        self.waiting.clear();
    }

    /// The first one that is held is got, if a get gives it.
    pub(crate) fn give_if(&mut self, gives: bool)
        ensures { self.new ≡ places.if_given gives self.old }
    {
        if gives {
            self.give();
        }
    }

    /// The first one that is held is got.
    fn give(&mut self)
        ensures { self.new ≡ places.given self.old }
    {
        if let Some(first) = self.arriving.pop_front()
            && first < self.got.len()
        {
            self.got[first] = true;
        }
    }

    /// Nothing arrives any more, if it is lost.
    pub(crate) fn lose_if(&mut self, loses: bool)
        ensures { self.new ≡ places.if_lost loses self.old }
    {
        if loses {
            self.arriving.clear();
        }
    }
}

/// How many puts a start carries at most.
pub(crate) fn most_of(act: &Act) -> usize
    ensures { result ≡ places.most_of act.now }
{
    match act {
        Act::Batch(_) => MAX_BATCH,
        _ => 1,
    }
}

/// Whether a put is one of these.
fn has(puts: &VecDeque<usize>, put: usize) -> bool
    ensures { IsTrue result ↔ Contains puts.now.items put }
{
    puts.contains(&put)
}
