//! The queue that a run leads to, with its messages by reference, so that none is copied while a run is looked for.
ghost use Rattle.std.specs.Prelude.{◌≡◌, ◌↔◌, ◌+◌, ◌-◌, ◌<◌, ◌≤◌, ◌||◌, ℕ, List, [], ◌∷◌, Some, drop, remove, length, slice_get, false, IsTrue, IfOk};
ghost use Rattle.amo_object.specs.declared.step.Step.{Step};
ghost use Rattle.amo_object.specs.declared.status.Status.TheVariants.{Yes};
ghost use Rattle.amo_object.specs.Queue.{start, Allows, after, settled, without};
ghost use Rattle.amo_object.specs.Run.{is_loss};
ghost use Rattle.amo_object.specs.Delivery.{messages_got};
ghost use Rattle.amo_resolve.specs.Telling.{known_of, state_of, Moves};

use crate::Step;
use crate::waiting::{Got, Waiting, is_same};
use amo_object::{End, Status};
use std::alloc::{AllocError, Global};

/// A queue. The messages that are got next wait before all others: once losses have left just these, the calls that come take
/// from this part and put behind it, so it is never gone through again.
#[derive(Drop)]
pub(crate) struct Replica<'a> {
    /// How many messages were got.
    pub(crate) first: usize,
    /// Those got from there on up to this place wait first.
    pub(crate) known: usize,
    /// The others that wait.
    pub(crate) others: Waiting<'a>,
    pub(crate) status: Status,
    pub(crate) sender_down: bool,
    pub(crate) receiver_down: bool,
}

impl<'a> Replica<'a> {
    /// An empty queue with both sides up.
    pub(crate) fn new(alloc: Global) -> Replica<'a>
        ensures start { (got : List (List ℕ)) → state_of got result ≡ start }
        ensures parts { (result.first ≡ 0) × (result.known ≡ 0) × (result.others ≡ []) }
    {
        Replica {
            first: 0,
            known: 0,
            others: Waiting::new(alloc),
            status: Status::Yes,
            sender_down: false,
            receiver_down: false,
        }
    }

    /// Whether some side is down.
    pub(crate) fn is_any_down(&self) -> bool
        ensures { result ≡ self.now.sender_down || self.now.receiver_down }
    {
        self.sender_down || self.receiver_down
    }

    /// Whether this message is the first.
    fn begins_with(&self, got: &Got<'a>, message: &[u8]) -> bool
        requires { self.now.first < self.now.known → self.now.known ≤ length got.now }
        ensures { IsTrue result ↔ (slice_get (state_of got.now self.now).messages 0 ≡ Some message.now) }
    {
        if self.first < self.known {
            return is_same(got.at(self.first), message);
        }
        self.others.len() > 0 && is_same(self.others.at(0), message)
    }

    /// Whether the queue may take this step, and it is no loss.
    pub(crate) fn allows(&self, got: &Got<'a>, step: &Step) -> bool
        requires { self.now.first < self.now.known → self.now.known ≤ length got.now }
        ensures { IsTrue result ↔ Allows (state_of got.now self.now) step.now × (is_loss step.now ≡ false) }
    {
        match step {
            Step::Put(_) => !self.sender_down,
            Step::Get(message) => !self.receiver_down && self.begins_with(got, message.as_slice()),
            Step::Ack(true) => !self.sender_down && self.status == Status::Yes,
            Step::Ack(false) => !self.sender_down && self.status == Status::No,
            Step::Crash(_) | Step::Recover(_) => true,
            Step::DownReply(End::Sender) => self.sender_down,
            Step::DownReply(End::Receiver) => self.receiver_down,
            Step::Lose(_) | Step::LoseAck => false,
        }
    }

    /// Takes the call that comes next, which it allows.
    pub(crate) fn take(&mut self, got: &Got<'a>, call: &'a Step) -> Result<(), AllocError>
        requires within { self.old.first < self.old.known → self.old.known ≤ length got.now }
        requires allowed { Allows (state_of got.now self.old) call.now }
        requires seen { is_loss call.now ≡ false }
        ensures after { IfOk result (λ _. state_of got.now self.new ≡ after (state_of got.now self.old) call.now) }
        ensures moved { IfOk result (λ _. Moves call.now (known_of got.now self.old) self.old.others (known_of got.now self.new) self.new.others) }
        ensures within { IfOk result (λ _. self.new.first < self.new.known → self.new.known ≤ length got.now) }
        ensures later { IfOk result (λ _. (later : List Step) → drop self.old.first got.now ≡ messages_got (call.now ∷ later)
            → drop self.new.first got.now ≡ messages_got later) }
    {
        match call {
            Step::Put(message) => {
                self.others.push(message.as_slice())?;
                self.status = Status::Open;
            }
            Step::Get(_) => self.leave(got),
            Step::Crash(End::Sender) => self.sender_down = true,
            Step::Crash(End::Receiver) => self.receiver_down = true,
            Step::Recover(End::Sender) => self.sender_down = false,
            Step::Recover(End::Receiver) => self.receiver_down = false,
            _ => {}
        }
        Ok(())
    }

    /// The first message leaves, which was got.
    fn leave(&mut self, got: &Got<'a>)
        requires within { self.old.first < self.old.known → self.old.known ≤ length got.now }
        requires some { 0 < length (state_of got.now self.old).messages }
        ensures left { state_of got.now self.new ≡ without (state_of got.now self.old) 0 Yes }
        ensures known { self.new.known ≡ self.old.known }
        ensures next { self.old.first < length got.now → self.new.first ≡ self.old.first + 1 }
        ensures past { length got.now ≤ self.old.first → self.new.first ≡ self.old.first }
        ensures others { self.old.first < self.old.known → self.new.others ≡ self.old.others }
    {
        self.pass(got);
        if self.is_empty() {
            self.settle(Status::Yes);
        }
    }

    /// The first message leaves, and nothing is learned of it.
    fn pass(&mut self, got: &Got<'a>)
        requires { self.old.known ≤ self.old.first → 0 < length self.old.others }
        ensures next { self.old.first < length got.now → self.new.first ≡ self.old.first + 1 }
        ensures past { length got.now ≤ self.old.first → self.new.first ≡ self.old.first }
        ensures others { self.old.first < self.old.known → self.new.others ≡ self.old.others }
        ensures removed { self.old.known ≤ self.old.first → self.new.others ≡ remove self.old.others 0 }
        ensures known { self.new.known ≡ self.old.known }
        ensures status { self.new.status ≡ self.old.status }
        ensures sides { (self.new.sender_down ≡ self.old.sender_down) × (self.new.receiver_down ≡ self.old.receiver_down) }
    {
        if self.known <= self.first {
            self.others.remove(0);
        }
        if self.first < got.len() {
            self.first += 1;
        }
    }

    /// Whether nothing waits.
    fn is_empty(&self) -> bool
        ensures { IsTrue result ↔ (self.now.known ≤ self.now.first) × (length self.now.others ≡ 0) }
    {
        self.known <= self.first && self.others.len() == 0
    }

    /// The last message put has left.
    pub(crate) fn settle(&mut self, known: Status)
        ensures { self.new ≡ record self.old { status = settled self.old.status known } }
    {
        if self.status == Status::Open {
            self.status = known;
        }
    }
}
