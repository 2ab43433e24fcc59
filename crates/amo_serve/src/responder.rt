//! What callers are answered, by the host and by what was made for them in its life.
ghost use Rattle.std.specs.Prelude.{◌≡◌, ◌↔◌, [], IfOk, IsTrue, OnOk};
ghost use Rattle.amo_live.specs.Host.{IsNoted};
ghost use Rattle.amo_live.specs.Service as live;
ghost use Rattle.amo_live.specs.Service.{words_of};
ghost use Rattle.amo_live.specs.Words.{BearsNew};
ghost use Rattle.amo_door.specs.Numbers.{HasStream};
ghost use Rattle.amo_door.specs.Turns.{Keeps};
ghost use Rattle.amo_serve.specs.Calls.{AnswersCall, IsFor};
ghost use Rattle.amo_serve.specs.Serving.{IsAtOnce, MovesAs, Serves};
ghost use Rattle.amo_serve.specs.States.{IsJournalLine, IsQuestion, IsRefused, TellsCall};
ghost use Rattle.amo_door.specs.declared.refusal.Refusal.TheVariants.{UnknownLine};
ghost use Rattle.amo_serve.specs.declared.responder.Reply.TheVariants.{Got};

mod putting;
mod states;
mod taking;

use crate::counts::Counts;
use crate::news::News;
use crate::page::PAGE;
use amo_archive::Handshakes;
use amo_door::{About, Answer, Call, Claim, Happening, Kind, Numbers, Refusal, Word};
use amo_live::{Lineage, LiveFault, Service};
use amo_net::Link;
use amo_object::End;
use amo_packet::Message;
use amo_text::Sink;
use std::alloc::{AllocError, Global};
pub use taking::Taken;

/// What is told of the host beside its life and streams.
#[derive(Drop)]
pub struct Identity {
    /// The version of the program.
    pub version: String,
    /// The address of the host on the other side.
    pub peer: String,
    /// Since when it lives, in seconds from 1970 on.
    pub since: u64,
}

/// A host at work, and what was made for callers in its life.
#[derive(Drop)]
pub struct Responder<L, S, W> {
    /// The host.
    pub service: Service<L, S, W>,
    /// What was made for callers.
    pub numbers: Numbers,
    pub(crate) alloc: Global,
    /// The side of its host: at a sender's it puts, and at a receiver's it takes.
    pub(crate) side: End,
    pub(crate) identity: Identity,
    /// How many streams it has.
    pub(crate) streams: u32,
    /// How the handshakes of its life ended.
    pub(crate) handshakes: Handshakes,
    /// What happened of late.
    pub(crate) news: News,
    /// When the other host was heard last, in microseconds.
    pub(crate) heard_at: Option<u64>,
    pub(crate) counts: Counts,
    /// It was asked to come to its end: it takes nothing more to put, and nobody waits.
    pub(crate) ends: bool,
}

/// What comes of a request now.
#[derive(Drop)]
pub enum Reply {
    /// It is answered.
    Answer(Answer),
    /// It waits for so many seconds at most, until the last message of this stream has settled, or its next one is ready.
    State {
        stream: u32,
        wait: u64,
    },
    /// It waits for so many seconds at most, until the message that it claims is there.
    Take {
        claim: Claim,
        wait: u64,
    },
    /// The journal tells which messages of this stream were got, behind this line if one is given.
    Got {
        stream: u32,
        after: Option<u64>,
    },
    /// The journal tells what became of the message of this number of a life before this one.
    Fate {
        stream: u32,
        number: u64,
        life: Word,
    },
    /// Its client is told what happens from now on, or from behind this line on.
    Follow {
        after: Option<u64>,
    },
}

impl<L: Link + Drop, S: Sink + Drop, W: Lineage + Drop> Responder<L, S, W> {
    /// What answers callers of this host, which has made nothing for any, in this life. Its journal has so many lines.
    pub fn new(
        alloc: Global,
        service: Service<L, S, W>,
        identity: Identity,
        life: Word,
        streams: u32,
        lines: u64,
    ) -> Result<Responder<L, S, W>, AllocError>
        ensures service { IfOk result (λ responder. responder.service ≡ service) }
        ensures side { IfOk result (λ responder. responder.side ≡ service.host.side) }
        // Nothing was made yet for a caller, in this life.
        ensures made { IfOk result (λ responder. Keeps [] responder.numbers) }
        ensures life { IfOk result (λ responder. responder.numbers.life ≡ life) }
    {
        let (numbers, handshakes, news) = nothing_made(alloc, life, streams, lines)?;
        let side = service.host.side();
        Ok(Responder {
            service,
            numbers,
            alloc,
            side,
            identity,
            streams,
            handshakes,
            news,
            heard_at: None,
            counts: Counts::new(),
            ends: false,
        })
    }
}

/// What was made for callers in a life that begins, how its handshakes ended, and what happened: nothing yet, but a crash where its journal has lines.
fn nothing_made(
    alloc: Global,
    life: Word,
    streams: u32,
    lines: u64,
) -> Result<(Numbers, Handshakes, News), AllocError>
    ensures made { IfOk result (λ made. Keeps [] made.0) }
    ensures life { IfOk result (λ made. made.0.life ≡ life) }
{
    let mut news = News::new(alloc);
    if lines > 0 {
        news.add(Some(lines), &Happening::Crash)?;
    }
    let numbers = Numbers::new(alloc, life, streams)?;
    let handshakes = Handshakes::new(alloc, streams)?;
    Ok((numbers, handshakes, news))
}

impl<L: Link, S: Sink, W: Lineage> Responder<L, S, W> {
    /// What comes of this call of a client, with the message that its request brought.
    #[tactic(auto, using(crate::proofs::Served::serves_still, crate::proofs::Served::each_serves, crate::proofs::Sides::each_moves))]
    pub fn respond(&mut self, call: Call, message: Message, now: u64) -> Result<Reply, LiveFault>
        requires { IsNoted S.written self.old.service.host }
        ensures noted { OnOk result (IsNoted S.written self.new.service.host) }
        ensures serves { OnOk result (Serves self.old.numbers self.new.numbers self.old.service.host.pass self.new.service.host.pass self.old.service.host.journal self.new.service.host.journal) }
        ensures words { OnOk result (BearsNew W.is_drawn (words_of self.old.service) (words_of self.new.service) self.old.service.host.pass self.new.service.host.pass) }
        ensures side { self.new.side ≡ self.old.side }
        // At a sender's host nothing is got for it, and at a receiver's nothing is put.
        ensures alone { OnOk result (MovesAs self.old.side self.old.service.host.pass self.new.service.host.pass) }
        // A question is answered by the host as it is, or waits, or goes to the journal.
        ensures told { IfOk result (TellsCall self.old call) }
        // A call to put or to take is answered as its own turn was, or its own claim waits; one of the other side is refused.
        ensures answered { IfOk result (AnswersCall self.old self.new call message) }
        // Nothing happens at the host for it.
        ensures quiet { IsQuestion call → live.HasLooked self.old.service self.new.service }
    {
        self.counts.requests = self.counts.requests.saturating_add(1);
        if !self.does(&call) {
            return self.refuse(Refusal::OtherSide);
        }
        match call {
            Call::Put(claim) => self.respond_to_put(claim, message, now),
            Call::PutNext { stream } => self.respond_to_next(stream, message, now),
            Call::Take { claim, wait } => self.respond_to_take(claim, wait, now),
            Call::Events { after } => Ok(Reply::Follow { after }),
            Call::State { stream, wait } => self.respond_to_state(stream, wait),
            Call::Outcome {
                stream,
                number,
                life,
            } => self.respond_to_outcome(stream, number, life),
            Call::Host => self.respond_of_host(),
            Call::Metrics => self.respond_of_counts(),
            Call::Health => self.respond_of_health(),
            Call::Page => self.respond_with_page(),
            Call::Got { stream, after } => self.respond_to_got(stream, after),
        }
    }

    /// Whether a call is for hosts of its side: one to put for a sender's, one to take for a receiver's, and any other for both.
    fn does(&self, call: &Call) -> bool
        ensures { IsTrue result ↔ IsFor self.now.side call.now }
    {
        match call {
            Call::Put(_) | Call::PutNext { .. } => self.side == End::Sender,
            Call::Take { .. } => self.side == End::Receiver,
            _ => true,
        }
    }

    /// Whether there is such a stream.
    pub(crate) fn has_stream(&self, stream: u32) -> bool
        ensures { IsTrue result ↔ HasStream self.now.numbers stream }
    {
        self.numbers.has_stream(stream)
    }

    /// What comes of a question which messages of a stream were got, behind this line if one is given. Behind a line that its journal does not have the host
    /// knows of nothing, now or later: whoever asks means another journal.
    fn respond_to_got(&self, stream: u32, after: Option<u64>) -> Result<Reply, LiveFault>
        ensures at_once { IfOk result IsAtOnce }
        ensures known { IsJournalLine self.now.service.host.journal.next after → IfOk result (λ reply. reply ≡ Got stream after) }
        ensures unknown { ¬ (IsJournalLine self.now.service.host.journal.next after) → IfOk result (IsRefused UnknownLine) }
    {
        match after {
            Some(line) if line >= self.service.host.next_line() => {
                self.refuse(Refusal::UnknownLine)
            }
            _ => Ok(Reply::Got { stream, after }),
        }
    }

    /// A refusal, for this reason.
    fn refuse(&self, refusal: Refusal) -> Result<Reply, LiveFault>
        ensures at_once { IfOk result IsAtOnce }
        ensures refused { IfOk result (IsRefused refusal) }
    {
        Ok(Reply::Answer(Answer::refusal(self.alloc, refusal)?))
    }

    /// What the host is.
    fn respond_of_host(&self) -> Result<Reply, LiveFault> {
        let about = About {
            version: self.identity.version.as_str(),
            side: self.service.host.side(),
            streams: self.streams,
            peer: self.identity.peer.as_str(),
            since: self.identity.since,
        };
        Ok(Reply::Answer(Answer::host(self.alloc, self.numbers.life(), &about)?))
    }

    /// That the host can work: it ends where it cannot.
    fn respond_of_health(&self) -> Result<Reply, LiveFault> {
        let body = Vec::from_slice(self.alloc, b"ok\n")?;
        Ok(Reply::Answer(Answer::new(200, Kind::Text, body)))
    }

    /// The page.
    fn respond_with_page(&self) -> Result<Reply, LiveFault> {
        let body = Vec::from_slice(self.alloc, PAGE.as_bytes())?;
        Ok(Reply::Answer(Answer::new(200, Kind::Page, body)))
    }

    /// What the host counted.
    fn respond_of_counts(&self) -> Result<Reply, LiveFault> {
        let body = self.counts_text()?;
        Ok(Reply::Answer(Answer::new(200, Kind::Metrics, body)))
    }
}
