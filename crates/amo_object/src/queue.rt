//! The queue as a plain program.
ghost use Rattle.std.specs.Prelude.{◌≡◌, ◌↔◌, IsTrue, OnOk, OnErr, IsOk, IsErrOf, ◌<◌, length, slice_get};

use crate::{Bytes, End, Status, Step};
use std::alloc::Global;
use std::collections::VecDeque;
use std::marker::Model;
use thiserror::Error;

/// Why the queue did not take a step.
#[derive(Clone, Copy, Debug, PartialEq, Eq, Error)]
pub enum QueueFault {
    /// The caller's fault: the queue does not allow this step as it stands. It stays as it was.
    #[error("the queue does not allow this step")]
    NotAllowed,
    /// The machine's fault: no memory for one more message. Only a put that is allowed meets it. The queue
    /// stays as it was.
    #[error("out of memory")]
    NoMemory,
}

impl QueueFault {
    ghost use Rattle.amo_object.specs.Fault.{fault_code};

    /// The number of this fault: 1 for a step that is not allowed, 9 for no memory.
    pub fn code(&self) -> u8
        ensures { result ≡ fault_code self.now }
    {
        match self {
            QueueFault::NotAllowed => 1,
            QueueFault::NoMemory => 9,
        }
    }
}

/// An at-most-once queue. A contract sees its state: the messages, first one first, the status of the last
/// one put, and which sides are down.
///
/// A put and a get cost a constant (a put on average, since the room doubles when it is full). A `Lose` in
/// the middle moves the messages before or after it, whichever are fewer, by one place, and not their bytes.
#[derive(Drop)]
pub struct Queue {
    messages: VecDeque<Bytes>,
    status: Status,
    sender_down: bool,
    receiver_down: bool,
}

impl Model for Queue {
    ghost use Rattle.amo_object.specs.Queue.{QueueState};

    ghost Value = { QueueState };

    ghost view = { λ q. record {
      messages = q.messages.items;
      status = q.status;
      sender_down = q.sender_down;
      receiver_down = q.receiver_down;
    } };
}

impl Queue {
    ghost use Rattle.amo_object.specs.Queue.{start, Allows, after, IsPut, without};

    /// An empty queue with both sides up. It takes no memory.
    pub fn new(alloc: Global) -> Queue
        ensures { result ≡ start }
    {
        Queue {
            messages: VecDeque::new(alloc),
            status: Status::Yes,
            sender_down: false,
            receiver_down: false,
        }
    }

    /// Whether the queue may take this step.
    pub fn allows(&self, step: &Step) -> bool
        ensures { IsTrue result ↔ Allows self.now step.now }
    {
        let down = self.sender_down || self.receiver_down;
        match step {
            Step::Put(_) => !self.sender_down,
            Step::Get(message) => !self.receiver_down && self.begins_with(message),
            Step::Ack(true) => !self.sender_down && self.status == Status::Yes,
            Step::Ack(false) => !self.sender_down && self.status == Status::No,
            Step::Crash(_) | Step::Recover(_) => true,
            Step::DownReply(End::Sender) => self.sender_down,
            Step::DownReply(End::Receiver) => self.receiver_down,
            Step::Lose(place) => down && *place < self.messages.len(),
            Step::LoseAck => down,
        }
    }

    /// Takes a step. Only a put may run out of memory. A step that is not taken is dropped with its message.
    pub fn take(&mut self, step: Step) -> Result<(), QueueFault>
        ensures taken { OnOk result (Allows self.old step × (self.new ≡ after self.old step)) }
        ensures succeeds { Allows self.old step → (¬ (IsPut step)) → IsOk result }
        ensures refused { IsErrOf result QueueFault.NotAllowed ↔ (¬ (Allows self.old step)) }
        ensures out_of_memory { IsErrOf result QueueFault.NoMemory → Allows self.old step × IsPut step }
        ensures unchanged { OnErr result (self.new ≡ self.old) }
    {
        if !self.allows(&step) {
            return Err(QueueFault::NotAllowed);
        }
        match step {
            Step::Put(message) => {
                self.messages
                    .push_back(message)
                    .map_err(|_| QueueFault::NoMemory)?;
                self.status = Status::Open;
            }
            Step::Get(_message) => self.leave(0, Status::Yes),
            Step::Crash(End::Sender) => self.sender_down = true,
            Step::Crash(End::Receiver) => self.receiver_down = true,
            Step::Recover(End::Sender) => self.sender_down = false,
            Step::Recover(End::Receiver) => self.receiver_down = false,
            Step::Lose(place) => self.leave(place, Status::No),
            Step::LoseAck => self.status = Status::No,
            Step::Ack(_got) => {}
            Step::DownReply(_side) => {}
        }
        Ok(())
    }

    /// Whether this message is the first.
    fn begins_with(&self, message: &Bytes) -> bool
        ensures { IsTrue result ↔ (slice_get self.now.messages 0 ≡ Some message.now) }
    {
        match self.messages.front() {
            None => false,
            Some(first) => first.as_slice() == message.as_slice(),
        }
    }

    /// The message at a place leaves. If it was the last of the queue, an open status becomes `known`.
    fn leave(&mut self, place: usize, known: Status)
        requires { place < length self.old.messages }
        ensures { self.new ≡ without self.old place known }
    {
        self.messages.remove(place);
        if place == self.messages.len() && self.status == Status::Open {
            self.status = known;
        }
    }
}
