//! Messages by reference, so that none is copied while a run is looked for.
ghost use Rattle.std.specs.Prelude.{◌≡◌, ◌↔◌, ◌+◌, ◌-◌, List, Option, ◌<◌, ◌≤◌, ◌^◌, ℕ, [], ◌∷◌, ◌++◌, map, take, drop, remove, length, slice_get, slice_index_or, get_or, Some, IsTrue, IfOk, true, false};
ghost use Rattle.std.specs.Option.{option_map};
ghost use Rattle.amo_object.specs.Delivery.{messages_got, message_got};

use crate::Step;
use std::alloc::{AllocError, Global};
use std::collections::VecDeque;
use std::marker::Model;

/// The messages that calls get, in order.
#[derive(Drop)]
pub(crate) struct Got<'a> {
    messages: Vec<&'a [u8]>,
}

impl<'a> Model for Got<'a> {
    ghost use Rattle.std.specs.Prelude.{List, ℕ, map};

    ghost Value = { List (List ℕ) };

    ghost view = { λ g. map (λ m. m.now) g.messages.items };
}

impl<'a> Got<'a> {
    /// The messages that these calls get.
    pub(crate) fn by(alloc: Global, calls: &'a [Step]) -> Result<Got<'a>, AllocError>
        ensures { IfOk result (λ got. got ≡ messages_got calls.now) }
    {
        let mut messages = Vec::with_capacity(alloc, calls.len())?;
        for call in calls {
            match got_by(call) {
                Some(message) => messages.push(message)?,
                None => {}
            }
        }
        Ok(Got { messages })
    }

    /// How many they are.
    pub(crate) fn len(&self) -> usize
        ensures length { result ≡ length self.now }
        ensures small { result < 2 ^ 63 }
    {
        self.messages.len()
    }

    /// The message at a place.
    pub(crate) fn at(&self, place: usize) -> &'a [u8]
        requires { place < length self.now }
        ensures { result.now ≡ slice_index_or self.now place result.now }
    {
        self.messages[place]
    }

    /// How many of them stand from one place on up to another.
    pub(crate) fn between(&self, first: usize, end: usize) -> usize
        requires { first < end → end ≤ length self.now }
        ensures length { result ≡ end - first }
        ensures small { result < 2 ^ 63 }
    {
        end.min(self.len()).saturating_sub(first)
    }

    /// Whether a part of them that begins at one place and ends at another has this message at its end.
    pub(crate) fn ends_with(&self, first: usize, end: usize, message: &[u8]) -> bool
        requires { first < end → end ≤ length self.now }
        ensures { IsTrue result ↔ (first < end) × (get_or self.now (end - 1) [] ≡ message.now) }
    {
        first < end && is_same(self.at(end - 1), message)
    }

    /// Where a part of them ends that begins at a place and has at most `count`.
    pub(crate) fn part_end(&self, first: usize, count: usize) -> usize
        ensures whole { take count (drop first self.now) ≡ take (result - first) (drop first self.now) }
        ensures within { (first ≤ result) × (first < result → result ≤ length self.now) }
    {
        let len = self.len();
        if first >= len {
            return first;
        }
        if count < len - first {
            first + count
        } else {
            len
        }
    }
}

/// Whether two messages are the same.
pub(crate) fn is_same(one: &[u8], other: &[u8]) -> bool
    ensures { IsTrue result ↔ (one.now ≡ other.now) }
{
    one == other
}

/// The message that a call gets, if it gets one.
fn got_by(call: &Step) -> Option<&[u8]>
    ensures { option_map (λ m. m.now) result ≡ message_got call.now }
{
    match call {
        Step::Get(message) => Some(message.as_slice()),
        _ => None,
    }
}

/// Messages that wait, the first one first.
#[derive(Drop)]
pub(crate) struct Waiting<'a> {
    messages: VecDeque<&'a [u8]>,
}

impl<'a> Model for Waiting<'a> {
    ghost use Rattle.std.specs.Prelude.{List, ℕ, map};

    ghost Value = { List (List ℕ) };

    ghost view = { λ w. map (λ m. m.now) w.messages.items };
}

impl<'a> Waiting<'a> {
    /// None yet.
    pub(crate) fn new(alloc: Global) -> Waiting<'a>
        ensures { result ≡ [] }
    {
        Waiting {
            messages: VecDeque::new(alloc),
        }
    }

    /// How many wait.
    pub(crate) fn len(&self) -> usize
        ensures length { result ≡ length self.now }
        ensures small { result < 2 ^ 63 }
    {
        self.messages.len()
    }

    /// The message at a place.
    pub(crate) fn at(&self, place: usize) -> &'a [u8]
        requires { place < length self.now }
        ensures { result.now ≡ slice_index_or self.now place result.now }
    {
        self.messages[place]
    }

    /// One more, at the end.
    pub(crate) fn push(&mut self, message: &'a [u8]) -> Result<(), AllocError>
        ensures { IfOk result (λ _. self.new ≡ self.old ++ message.now ∷ []) }
    {
        match self.messages.push_back(message) {
            Ok(()) => Ok(()),
            Err(_) => Err(AllocError),
        }
    }

    /// The message at a place leaves.
    pub(crate) fn remove(&mut self, place: usize)
        requires { place < length self.old }
        ensures { self.new ≡ remove self.old place }
    {
        match self.messages.remove(place) {
            Some(_message) => {}
            None => unreachable!(),
        }
    }
}
