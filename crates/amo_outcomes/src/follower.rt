//! A stream, followed event by event.
ghost use Rattle.std.specs.Prelude.{◌≡◌, ◌∷◌, ◌&&◌, ◌<◌, ℕ, length, List, [], IfOk, if◌then◌else◌};
ghost use Rattle.std.specs.Option.{unwrap_or};
ghost use Rattle.amo_core.specs.Automaton.{row, mode_of, used_word};
ghost use Rattle.amo_world.specs.declared.event.Event.{Event};
ghost use Rattle.amo_world.specs.History.{IsRight, IsHonest, IsFresh};
ghost use Rattle.amo_outcomes.specs.Outcome.{HasOutcome};
ghost use Rattle.amo_outcomes.specs.Told.{AreOutcomes};
ghost use Rattle.amo_outcomes.specs.Places.{at_sender, at_receiver, is_get, is_put, takes_in, asks};
ghost use Rattle.amo_outcomes.specs.Follower.{IsFollowed, brings, brings_body, is_accept};

use crate::Outcome;
use crate::places::{Places, most_of};
use amo_core::{Act, Automaton, Mode, Receiver, Reply, Sender};
use amo_object::End;
use amo_packet::OwnedBody;
use amo_world::Event;
use std::alloc::{AllocError, Global};

/// Both automata of a stream, and where its puts are.
#[derive(Drop)]
pub(crate) struct Follower {
    sender: Automaton,
    receiver: Automaton,
    /// The identifier that the receiver accepted last.
    accepted: u64,
    places: Places,
}

impl Follower {
    /// A stream in which nothing happened yet.
    pub(crate) fn new(alloc: Global, number: u32) -> Follower
        ensures { IsFollowed result number [] }
    {
        Follower {
            sender: Automaton::Sender(Sender::new(number)),
            receiver: Automaton::Receiver(Receiver::new(number)),
            accepted: 0,
            places: Places::new(alloc),
        }
    }

    /// One event more, which is one of the stream.
    pub(crate) fn follow(&mut self, event: Event) -> Result<(), AllocError>
        ensures { IfOk result (λ _. (past : List Event) → IsRight (event ∷ past) → IsHonest (event ∷ past) → IsFresh (event ∷ past)
            → IsFollowed self.old event.stream past → IsFollowed self.new event.stream (event ∷ past)) }
    {
        let Event {
            side,
            act,
            reply,
            ..
        } = event;
        match side {
            End::Sender => self.act_at_sender(act, &reply)?,
            End::Receiver => self.act_at_receiver(act),
        }
        Ok(())
    }

    /// What became of each put that was taken, in order.
    pub(crate) fn outcomes(&self, alloc: Global) -> Result<Vec<Outcome>, AllocError>
        ensures { IfOk result (λ told. (number : ℕ) (past : List Event) → IsRight past → IsHonest past → IsFresh past
            → IsFollowed self.now number past → AreOutcomes number past told.items) }
    {
        let count = self.places.count();
        let mut told = Vec::with_capacity(alloc, count)?;
        for put in 0..count {
            told.push(self.outcome(put))?;
        }
        Ok(told)
    }

    /// What became of a put that was taken.
    fn outcome(&self, put: usize) -> Outcome
        requires { put < length self.now.places.got }
        ensures { (number : ℕ) (past : List Event) → IsRight past → IsHonest past → IsFresh past → IsFollowed self.now number past
            → HasOutcome number past put result }
    {
        if self.places.was_got(put) {
            return Outcome::Got;
        }
        if self.places.arrives(put) {
            return Outcome::Open;
        }
        if self.places.waits(put) {
            return Outcome::Open;
        }
        if self.places.is_asked(put, asks(self.sender.mode())) {
            return Outcome::Open;
        }
        Outcome::Gone
    }

    /// An act at the sender, with its reply.
    fn act_at_sender(&mut self, act: Act, reply: &Reply) -> Result<(), AllocError>
        ensures sender { IfOk result (λ _. self.new.sender ≡ (row self.old.sender act).state) }
        ensures receiver { IfOk result (λ _. self.new.receiver ≡ self.old.receiver) }
        ensures accepted { IfOk result (λ _. self.new.accepted ≡ self.old.accepted) }
        ensures places { IfOk result (λ _. self.new.places ≡ at_sender (mode_of self.old.sender) (mode_of (row self.old.sender act).state) act reply.now
            (is_accept (mode_of self.old.receiver) && brings act self.old.accepted) self.old.places) }
    {
        let most = most_of(&act);
        let puts = is_put(&act, reply);
        let arrives = self.receiver.mode() == Mode::Accept && brings(&act, self.accepted);
        let before = self.sender.mode();
        self.sender.advance(act);
        match (before, self.sender.mode()) {
            (Mode::Quiet, Mode::NeedId) => self.places.begin(most)?,
            (Mode::NeedId, Mode::Send) => self.places.arrive_if(arrives),
            (_, Mode::Down) => self.places.forget(),
            _ => self.places.put_if(puts)?,
        }
        Ok(())
    }

    /// An act at the receiver.
    fn act_at_receiver(&mut self, act: Act)
        ensures sender { self.new.sender ≡ self.old.sender }
        ensures receiver { self.new.receiver ≡ (row self.old.receiver act).state }
        ensures accepted { self.new.accepted ≡ unwrap_or (used_word self.old.receiver act) self.old.accepted }
        ensures places { self.new.places ≡ at_receiver (mode_of self.old.receiver) (mode_of (row self.old.receiver act).state)
            act self.old.places }
    {
        let used = self.receiver.used_word(&act);
        let gives = is_get(&act) && self.receiver.mode() == Mode::Rcvd;
        self.accepted = used.unwrap_or(self.accepted);
        self.receiver.advance(act);
        self.places.give_if(gives);
        self.places.lose_if(!takes_in(self.receiver.mode()));
    }
}

/// Whether an act brings a sender this identifier. What it sends under the one that the receiver accepts arrives.
fn brings(act: &Act, accepted: u64) -> bool
    ensures { result ≡ brings act.now accepted }
{
    match act {
        Act::Deliver(packet, _) => brings_body(&packet.body, accepted),
        _ => false,
    }
}

/// Whether a packet brings a sender this identifier.
fn brings_body(body: &OwnedBody, accepted: u64) -> bool
    ensures { result ≡ brings_body body.now accepted }
{
    match body {
        OwnedBody::Accept(_, id) => *id == accepted,
        _ => false,
    }
}

/// Whether an act is a put that was taken.
fn is_put(act: &Act, reply: &Reply) -> bool
    ensures { result ≡ is_put act.now reply.now }
{
    matches!((act, reply), (Act::Put(_), Reply::Ok))
}

/// Whether the act is a get.
fn is_get(act: &Act) -> bool
    ensures { result ≡ is_get act.now }
{
    matches!(act, Act::Get)
}

/// Whether a sender of this mode asks for an identifier.
pub(crate) fn asks(mode: Mode) -> bool
    ensures { result ≡ asks mode }
{
    mode == Mode::NeedId
}

/// Whether puts may arrive at a receiver of this mode.
fn takes_in(mode: Mode) -> bool
    ensures { result ≡ takes_in mode }
{
    matches!(mode, Mode::Accept | Mode::Rcvd)
}
