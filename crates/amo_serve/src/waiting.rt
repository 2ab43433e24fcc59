//! Clients' requests, and those who wait for what they asked.
ghost use Rattle.std.specs.Prelude.{◌≡◌, IfOk, IsTrue, OnOk, false};
ghost use Rattle.amo_live.specs.Host.{IsNoted};
ghost use Rattle.amo_live.specs.Service.{words_of};
ghost use Rattle.amo_live.specs.Words.{BearsNew};
ghost use Rattle.amo_serve.specs.Serving.{MovesAs, Serves};
ghost use Rattle.amo_serve.specs.States.{HasLooked};
ghost use Rattle.amo_serve.specs.Waiting.{IsNext, MayWait};

use crate::client::Client;
use crate::door::{Door, push};
use crate::responder::{Reply, Responder, Taken};
use amo_door::{Answer, Claim, Decision, Reader, Step};
use amo_live::{Durable, Lineage, LiveFault};
use amo_net::Link;
use amo_object::End;
use std::alloc::{AllocError, AllocFailed};
use std::collections::VecDeque;

/// How many microseconds a second has.
const SECOND: u64 = 1_000_000;

/// What a client waits for.
#[derive(Drop)]
pub(crate) enum Awaited {
    /// That the last message of this stream has settled, or that its next one is ready.
    State(u32),
    /// That the message that it claims is there.
    Take(Claim),
}

/// A client that waits.
#[derive(Drop)]
pub(crate) struct Waiter {
    /// The number of the client.
    client: u64,
    awaited: Awaited,
    /// Until when, in microseconds.
    pub(crate) until: u64,
}

/// Where a client is that waits.
#[derive(Clone, Copy, PartialEq, Eq)]
enum Presence {
    /// It waits still.
    There,
    /// It has hung up, or sends no more: what it would get now might be lost.
    Ended,
    /// There is no such client any more.
    Gone,
}

/// What comes of a wait.
#[derive(Drop)]
enum Waited {
    /// It is over.
    Answer(Answer),
    /// It goes on.
    Still(Awaited),
}

impl Door {
    /// Whether a client that waits has hung up. Who has is awake.
    fn has_hung_up(&self) -> bool {
        let clients = self.clients.as_slice();
        self.awake.iter().any(|place| match clients.get(*place) {
            Some(client) => client.waits_in_vain(),
            None => false,
        })
    }

    /// Where the client of this number is.
    fn presence(&self, number: u64) -> Presence {
        for client in &self.clients {
            if client.number == number {
                return if client.has_ended() {
                    Presence::Ended
                } else {
                    Presence::There
                };
            }
        }
        Presence::Gone
    }

    /// The client of this number is to be answered so.
    fn reply_to(&mut self, number: u64, answer: Answer) -> Result<(), AllocError> {
        for (place, client) in self.clients.iter_mut().enumerate() {
            if client.number == number {
                client.waits = false;
                client.reply = Some(Reply::Answer(answer));
                if client.wakes() {
                    push(&mut self.awake, place)?;
                }
                return Ok(());
            }
        }
        Ok(())
    }
}

/// A client waits, behind those who wait already.
fn push_waiter(waiters: &mut VecDeque<Waiter>, waiter: Waiter) -> Result<(), AllocError> {
    match waiters.push_back(waiter) {
        Ok(()) => Ok(()),
        Err(AllocFailed { .. }) => Err(AllocError),
    }
}

impl<L: Link, S: Durable, W: Lineage> Responder<L, S, W> {
    /// Answers the clients whose wait is over, in the order in which they came.
    #[tactic(auto, using(crate::proofs::Served::serves_still, crate::proofs::Sides::moves_still))]
    pub(crate) fn serve_waiters(&mut self, door: &mut Door, now: u64) -> Result<(), LiveFault>
        requires { IsNoted S.written self.old.service.host }
        ensures noted { OnOk result (IsNoted S.written self.new.service.host) }
        ensures serves { OnOk result (Serves self.old.numbers self.new.numbers self.old.service.host.pass self.new.service.host.pass self.old.service.host.journal self.new.service.host.journal) }
        ensures words { OnOk result (BearsNew W.is_drawn (words_of self.old.service) (words_of self.new.service) self.old.service.host.pass self.new.service.host.pass) }
        ensures side { self.new.side ≡ self.old.side }
        ensures alone { OnOk result (MovesAs self.old.side self.old.service.host.pass self.new.service.host.pass) }
    {
        let count = door.waiters.len();
        if count == 0 {
            return Ok(());
        }
        let has_hung_up = door.has_hung_up();
        // Who waits on stands behind all others again: at the end they stand in their order.
        'waiters: for _waiter in 0..count {
            let Some(waiter) = door.waiters.pop_front() else {
                break;
            };
            self.serve_waiter(door, waiter, has_hung_up, now)?;
        }
        Ok(())
    }

    /// Answers a client whose wait is over: what it waits for is so, its time is over, or it has hung up. Else it waits on.
    #[tactic(auto, using(crate::proofs::Served::serves_still, crate::proofs::Served::each_serves, crate::proofs::Sides::moves_still, crate::proofs::Sides::each_moves))]
    fn serve_waiter(
        &mut self,
        door: &mut Door,
        waiter: Waiter,
        has_hung_up: bool,
        now: u64,
    ) -> Result<(), LiveFault>
        requires { IsNoted S.written self.old.service.host }
        ensures noted { OnOk result (IsNoted S.written self.new.service.host) }
        ensures serves { OnOk result (Serves self.old.numbers self.new.numbers self.old.service.host.pass self.new.service.host.pass self.old.service.host.journal self.new.service.host.journal) }
        ensures words { OnOk result (BearsNew W.is_drawn (words_of self.old.service) (words_of self.new.service) self.old.service.host.pass self.new.service.host.pass) }
        ensures side { self.new.side ≡ self.old.side }
        ensures alone { OnOk result (MovesAs self.old.side self.old.service.host.pass self.new.service.host.pass) }
    {
        let Waiter {
            client,
            awaited,
            until,
        } = waiter;
        let is_late = until <= now || self.ends;
        let waited = if is_late || has_hung_up || self.is_over(&awaited)? {
            self.look_at_wait(door.presence(client), awaited, is_late, now)?
        } else {
            Waited::Still(awaited)
        };
        match waited {
            Waited::Answer(answer) => door.reply_to(client, answer)?,
            Waited::Still(awaited) => push_waiter(
                &mut door.waiters,
                Waiter {
                    client,
                    awaited,
                    until,
                },
            )?,
        }
        Ok(())
    }

    /// Whether a wait is over, whatever its time: what is waited for is so, or nothing is to come for its claim, since that message was taken meanwhile.
    fn is_over(&mut self, awaited: &Awaited) -> Result<bool, LiveFault>
        ensures waits { IfOk result (λ over. over ≡ false → MayWait self.old awaited.now) }
        ensures looked { HasLooked self.old self.new }
    {
        match awaited {
            Awaited::State(stream) => {
                let summary = self.look(*stream)?;
                Ok(self.is_reached(&summary))
            }
            Awaited::Take(claim) => {
                let summary = self.look(claim.stream)?;
                Ok(self.is_reached(&summary) || !self.is_next(claim))
            }
        }
    }

    /// Whether a claim to take is for the next message of its stream.
    fn is_next(&self, claim: &Claim) -> bool
        ensures { IsTrue result → IsNext self.now.numbers claim.now }
    {
        self.has_stream(claim.stream) && self.numbers.decide_take(claim) == Decision::Next
    }

    /// What comes of a wait now, whose client is there or not, and whose time is over or not. Who has hung up takes nothing.
    #[tactic(auto, using(crate::proofs::Served::serves_still, crate::proofs::Served::each_serves, crate::proofs::Sides::moves_still, crate::proofs::Sides::each_moves))]
    fn look_at_wait(
        &mut self,
        presence: Presence,
        awaited: Awaited,
        is_late: bool,
        now: u64,
    ) -> Result<Waited, LiveFault>
        requires { IsNoted S.written self.old.service.host }
        ensures noted { OnOk result (IsNoted S.written self.new.service.host) }
        ensures serves { OnOk result (Serves self.old.numbers self.new.numbers self.old.service.host.pass self.new.service.host.pass self.old.service.host.journal self.new.service.host.journal) }
        ensures words { OnOk result (BearsNew W.is_drawn (words_of self.old.service) (words_of self.new.service) self.old.service.host.pass self.new.service.host.pass) }
        ensures side { self.new.side ≡ self.old.side }
        ensures alone { OnOk result (MovesAs self.old.side self.old.service.host.pass self.new.service.host.pass) }
    {
        if presence != Presence::There {
            return Ok(Waited::Answer(Answer::nothing(self.alloc)));
        }
        match awaited {
            Awaited::State(stream) => self.look_at_state(stream, is_late),
            Awaited::Take(claim) => self.look_at_take(claim, is_late, now),
        }
    }

    /// What comes now of a wait for a stream's state.
    fn look_at_state(&mut self, stream: u32, is_late: bool) -> Result<Waited, LiveFault>
        ensures { HasLooked self.old self.new }
    {
        if !self.has_stream(stream) {
            return Ok(Waited::Answer(Answer::nothing(self.alloc)));
        }
        let summary = self.look(stream)?;
        if !is_late && !self.is_reached(&summary) {
            return Ok(Waited::Still(Awaited::State(stream)));
        }
        Ok(Waited::Answer(self.state(stream, &summary)?))
    }

    /// What comes now of a wait for a message.
    #[tactic(auto, using(crate::proofs::Served::take_serves, crate::proofs::Served::serves_still, crate::proofs::Served::each_serves, crate::proofs::Sides::moves_still, crate::proofs::Sides::each_moves))]
    fn look_at_take(&mut self, claim: Claim, is_late: bool, now: u64) -> Result<Waited, LiveFault>
        requires { IsNoted S.written self.old.service.host }
        ensures noted { OnOk result (IsNoted S.written self.new.service.host) }
        ensures serves { OnOk result (Serves self.old.numbers self.new.numbers self.old.service.host.pass self.new.service.host.pass self.old.service.host.journal self.new.service.host.journal) }
        ensures words { OnOk result (BearsNew W.is_drawn (words_of self.old.service) (words_of self.new.service) self.old.service.host.pass self.new.service.host.pass) }
        ensures side { self.new.side ≡ self.old.side }
        ensures alone { OnOk result (MovesAs self.old.side self.old.service.host.pass self.new.service.host.pass) }
    {
        if self.side == End::Sender || !self.has_stream(claim.stream) {
            return Ok(Waited::Answer(Answer::nothing(self.alloc)));
        }
        match self.take(claim, now)? {
            Taken::Answer(answer) => Ok(Waited::Answer(answer)),
            Taken::NotYet(_) if is_late => Ok(Waited::Answer(Answer::nothing(self.alloc))),
            Taken::NotYet(claim) => Ok(Waited::Still(Awaited::Take(claim))),
        }
    }

    /// Takes the next request of each client that is awake, if it has come whole, and does what it asks. Its answer is kept back.
    pub(crate) fn ask_clients(&mut self, door: &mut Door, now: u64) -> Result<(), LiveFault>
        requires { IsNoted S.written self.old.service.host }
        ensures noted { OnOk result (IsNoted S.written self.new.service.host) }
        ensures serves { OnOk result (Serves self.old.numbers self.new.numbers self.old.service.host.pass self.new.service.host.pass self.old.service.host.journal self.new.service.host.journal) }
        ensures words { OnOk result (BearsNew W.is_drawn (words_of self.old.service) (words_of self.new.service) self.old.service.host.pass self.new.service.host.pass) }
        ensures side { self.new.side ≡ self.old.side }
        ensures alone { OnOk result (MovesAs self.old.side self.old.service.host.pass self.new.service.host.pass) }
    {
        self.counts.accepted = door.accepted;
        self.counts.crowded = door.crowded;
        self.counts.open = door.clients.len() as u64;
        self.counts.pieces = self.service.host.pieces_begun();
        let reader = Reader {
            routes: &door.routes,
            guard: &door.guard,
            served: door.served,
        };
        let waiters = &mut door.waiters;
        'clients: for place in &door.awake {
            self.ask(door.clients.get_mut(*place), &reader, waiters, now)?;
        }
        Ok(())
    }

    /// Takes a client's next request, if there is the client and that has come whole, and does what it asks.
    #[tactic(auto, using(crate::proofs::Served::serves_still, crate::proofs::Served::each_serves, crate::proofs::Sides::moves_still, crate::proofs::Sides::each_moves))]
    fn ask(
        &mut self,
        client: Option<&mut Client>,
        reader: &Reader<'_>,
        waiters: &mut VecDeque<Waiter>,
        now: u64,
    ) -> Result<(), LiveFault>
        requires { IsNoted S.written self.old.service.host }
        ensures noted { OnOk result (IsNoted S.written self.new.service.host) }
        ensures serves { OnOk result (Serves self.old.numbers self.new.numbers self.old.service.host.pass self.new.service.host.pass self.old.service.host.journal self.new.service.host.journal) }
        ensures words { OnOk result (BearsNew W.is_drawn (words_of self.old.service) (words_of self.new.service) self.old.service.host.pass self.new.service.host.pass) }
        ensures side { self.new.side ≡ self.old.side }
        ensures alone { OnOk result (MovesAs self.old.side self.old.service.host.pass self.new.service.host.pass) }
    {
        let Some(client) = client else {
            return Ok(());
        };
        let Step::Call { call, message } = client.next(reader, now) else {
            return Ok(());
        };
        let reply = self.respond(call, message, now)?;
        keep_reply(client, waiters, reply, now)?;
        Ok(())
    }
}

/// Keeps what a client is answered, or that it waits.
fn keep_reply(
    client: &mut Client,
    waiters: &mut VecDeque<Waiter>,
    reply: Reply,
    now: u64,
) -> Result<(), AllocError> {
    let (awaited, wait) = match reply {
        Reply::State { stream, wait } => (Awaited::State(stream), wait),
        Reply::Take { claim, wait } => (Awaited::Take(claim), wait),
        Reply::Answer(_) | Reply::Follow { .. } | Reply::Got { .. } | Reply::Fate { .. } => {
            client.reply = Some(reply);
            return Ok(());
        }
    };
    client.waits = true;
    push_waiter(
        waiters,
        Waiter {
            client: client.number,
            awaited,
            until: now.saturating_add(wait.saturating_mul(SECOND)),
        },
    )
}
