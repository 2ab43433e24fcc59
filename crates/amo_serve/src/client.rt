//! A client: its connection, and the socket that carries it.
use crate::responder::Reply;
use amo_door::{Answer, Connection, Phase, Reader, Refusal, Step};
use libc::net;
use libc::types::pollfd;
use std::alloc::{AllocError, Global};
use std::io::{ErrorKind, Read, Write};
use std::net::{Shutdown, TcpStream};
use std::os::fd::AsRawFd;

/// How long a head may take to come, in microseconds.
const HEAD_TIME: u64 = 10_000_000;

/// How long a body may take.
const BODY_TIME: u64 = 30_000_000;

/// How long a client may say nothing between two requests.
const IDLE_TIME: u64 = 60_000_000;

/// How long a client may take nothing of what is sent to it.
const SEND_TIME: u64 = 30_000_000;

/// After how long a silence one who follows is sent an empty line, which tells whether it is still there.
const QUIET_TIME: u64 = 15_000_000;

/// How long what a client still sends behind the last answer is thrown away. One that it did not read could be lost else.
const DRAIN_TIME: u64 = 2_000_000;

/// How many bytes are thrown away then.
const MOST_DRAINED: usize = 256 * 1024;

/// What a client is answered whose head did not come in time. It is no request's answer, so no connection spells it.
const SLOW: &[u8] =
    b"HTTP/1.1 408 Request Timeout\r\ncache-control: no-store\r\nx-content-type-options: nosniff\r\ncontent-type: application/json\r\nconnection: close\r\ncontent-length: 58\r\n\r\n{\"error\":\"slow\",\"text\":\"the request did not come in time\"}";

/// A line of an event stream that tells nothing.
const NOTHING: &[u8] = b":\n\n";

/// What a client's socket is at.
#[derive(Clone, Copy, PartialEq, Eq)]
enum Stage {
    /// It carries requests and answers.
    Open,
    /// All was sent, and what still comes is thrown away.
    Draining,
    /// It is to be dropped.
    Gone,
}

/// A client.
#[derive(Drop)]
pub(crate) struct Client {
    /// By which it is known to those who wait.
    pub(crate) number: u64,
    stream: TcpStream,
    connection: Connection,
    /// What its request is answered, once the journal has all that this tells of.
    pub(crate) reply: Option<Reply>,
    /// Its request waits.
    pub(crate) waits: bool,
    /// What it follows is told from this number on.
    pub(crate) told: u64,
    /// It was not told all of it yet: more would have waited to be sent than may.
    pub(crate) is_behind: bool,
    stage: Stage,
    /// What its connection was at when it was looked at last, and how many requests were answered then.
    phase: Phase,
    answered: u64,
    /// Since when it has been at that, in microseconds.
    since: u64,
    /// Since when it has taken nothing of what is to be sent.
    lags_since: Option<u64>,
    drained: usize,
    /// It sends no more.
    has_ended: bool,
    /// Something came or was sent since its connection was asked for a request.
    is_active: bool,
    /// It is among those that its door looks at in this turn.
    pub(crate) is_awake: bool,
}

impl Client {
    /// A client that has asked nothing.
    pub(crate) fn new(alloc: Global, number: u64, stream: TcpStream, now: u64) -> Client {
        Client {
            number,
            stream,
            connection: Connection::new(alloc),
            reply: None,
            waits: false,
            told: 0,
            is_behind: false,
            stage: Stage::Open,
            phase: Phase::Idle,
            answered: 0,
            since: now,
            lags_since: None,
            drained: 0,
            has_ended: false,
            is_active: false,
            is_awake: false,
        }
    }

    /// Wakes it. Answers whether it was at rest.
    pub(crate) fn wakes(&mut self) -> bool {
        let was_at_rest = !self.is_awake;
        self.is_awake = true;
        was_at_rest
    }

    /// It rests until something comes, if it has nothing to ask by now.
    pub(crate) fn rest(&mut self) {
        self.is_awake = !self.is_gone() && (self.is_active || self.is_pressing());
    }

    /// Whether it is to be looked at again at once: it may have asked already, is to be told what the journal tells or what else happened, or has hung up
    /// and waits.
    pub(crate) fn is_pressing(&self) -> bool {
        let lacks_news = self.is_behind && self.takes_news();
        self.may_have_more() || self.seeks() || lacks_news || self.waits_in_vain()
    }

    /// Whether it waits, and has hung up.
    pub(crate) fn waits_in_vain(&self) -> bool {
        self.waits && self.has_ended()
    }

    /// Whether it is to be dropped.
    pub(crate) fn is_gone(&self) -> bool {
        self.stage == Stage::Gone
    }

    /// Whether it has hung up, or may have: it sends no more.
    pub(crate) fn has_ended(&self) -> bool {
        self.has_ended || self.stage != Stage::Open
    }

    /// Whether it asks which messages were got.
    pub(crate) fn seeks_gets(&self) -> bool {
        matches!(self.reply, Some(Reply::Got { .. }))
    }

    /// Whether it asks what became of a message of an earlier life.
    pub(crate) fn seeks_fate(&self) -> bool {
        matches!(self.reply, Some(Reply::Fate { .. }))
    }

    /// Whether it waits for what the journal tells.
    pub(crate) fn seeks(&self) -> bool {
        self.seeks_gets() || self.seeks_fate()
    }

    /// Whether it is told what happens.
    pub(crate) fn is_following(&self) -> bool {
        self.stage == Stage::Open && self.connection.is_following()
    }

    /// Whether it may be told what happens: no more waits to be sent to it than may.
    pub(crate) fn takes_news(&self) -> bool {
        self.is_following() && !self.connection.has_much_to_send()
    }

    /// It is to be dropped.
    pub(crate) fn let_go(&mut self) {
        self.stage = Stage::Gone;
    }

    /// What the system is to wait for.
    pub(crate) fn interest(&self) -> pollfd {
        let mut events = 0;
        if self.wants_input() {
            events |= net::POLLIN;
        }
        if self.has_unsent() {
            events |= net::POLLOUT;
        }
        pollfd {
            fd: self.stream.as_raw_fd(),
            events,
            revents: 0,
        }
    }

    /// Whether it has not taken yet all that is to be sent.
    pub(crate) fn has_unsent(&self) -> bool {
        self.stage == Stage::Open && !self.connection.output().is_empty()
    }

    /// What the system is to wait for until it takes more.
    pub(crate) fn interest_in_room(&self) -> pollfd {
        pollfd {
            fd: self.stream.as_raw_fd(),
            events: net::POLLOUT,
            revents: 0,
        }
    }

    fn wants_input(&self) -> bool {
        match self.stage {
            Stage::Open => !self.has_ended && self.connection.wants_input(),
            Stage::Draining => true,
            Stage::Gone => false,
        }
    }

    /// When it is to be looked at, whatever comes.
    pub(crate) fn deadline(&self) -> u64 {
        if let Some(since) = self.lags_since {
            return since.saturating_add(SEND_TIME);
        }
        let time = match (self.stage, self.phase) {
            (Stage::Draining, _) => DRAIN_TIME,
            (_, Phase::Idle) => IDLE_TIME,
            (_, Phase::Head) => HEAD_TIME,
            (_, Phase::Body) => BODY_TIME,
            (_, Phase::Following) => QUIET_TIME,
            (_, Phase::Asked | Phase::Closing | Phase::Over) => return u64::MAX,
        };
        self.since.saturating_add(time)
    }

    /// Does what the system told of: it reads what came. The room is where it is read.
    pub(crate) fn hear(&mut self, told: i16, room: &mut [u8], now: u64) {
        if told & (net::POLLERR | net::POLLHUP) != 0 {
            self.stage = Stage::Gone;
        } else if told & net::POLLIN != 0 {
            self.read(room);
        }
        self.look(now);
    }

    /// Reads once.
    fn read(&mut self, room: &mut [u8]) {
        let most = match self.stage {
            Stage::Open => self.connection.room(),
            Stage::Draining => room.len(),
            Stage::Gone => 0,
        };
        let count = most.min(room.len());
        if count == 0 {
            return;
        }
        match self.stream.read(&mut room[..count]) {
            Ok(0) => self.end_input(),
            Ok(count) => self.take(&room[..count.min(room.len())]),
            Err(error) => match error.kind() {
                ErrorKind::WouldBlock | ErrorKind::Interrupted => {}
                _ => self.stage = Stage::Gone,
            },
        }
    }

    /// It sends no more.
    fn end_input(&mut self) {
        self.has_ended = true;
        self.is_active = true;
        self.connection.end_input();
        if self.stage == Stage::Draining {
            self.stage = Stage::Gone;
        }
    }

    /// Takes what came.
    fn take(&mut self, bytes: &[u8]) {
        self.is_active = true;
        if self.stage == Stage::Draining {
            self.drained = self.drained.saturating_add(bytes.len());
            if self.drained > MOST_DRAINED {
                self.stage = Stage::Gone;
            }
        } else if self.connection.take(bytes).is_err() {
            self.stage = Stage::Gone;
        }
    }

    /// Ends what lasts too long.
    pub(crate) fn tick(&mut self, now: u64) {
        if now < self.deadline() {
            return;
        }
        match self.phase {
            Phase::Head if self.stage == Stage::Open && self.lags_since.is_none() => {
                let _ = self.stream.write(SLOW);
                self.drain(now);
            }
            Phase::Body if self.stage == Stage::Open && self.lags_since.is_none() => {
                if self.connection.refuse(Refusal::Slow).is_err() {
                    self.stage = Stage::Gone;
                }
            }
            Phase::Following if self.stage == Stage::Open && self.lags_since.is_none() => {
                self.since = now;
                self.tell(NOTHING);
            }
            _ => self.stage = Stage::Gone,
        }
        self.look(now);
    }

    /// Its next request, if it has come whole.
    pub(crate) fn next(&mut self, reader: &Reader<'_>, now: u64) -> Step {
        if self.stage != Stage::Open || !self.is_active {
            return Step::Wait;
        }
        self.is_active = false;
        let step = match self.connection.next(reader) {
            Ok(step) => step,
            Err(AllocError) => Step::Over,
        };
        self.look(now);
        step
    }

    /// Its request is answered.
    pub(crate) fn answer(&mut self, answer: &Answer, now: u64) {
        if self.connection.answer(answer).is_err() {
            self.stage = Stage::Gone;
        }
        self.is_active = true;
        self.look(now);
    }

    /// It is told what happens, from this number on.
    pub(crate) fn follow(&mut self, number: u64, now: u64) {
        if self.connection.follow().is_err() {
            self.stage = Stage::Gone;
        }
        self.told = number;
        self.look(now);
    }

    /// Whether its next request may have come already, or none comes any more.
    fn may_have_more(&self) -> bool {
        let has_more = match self.phase {
            Phase::Head => true,
            Phase::Idle => self.has_ended,
            _ => false,
        };
        self.stage == Stage::Open && self.is_active && has_more
    }

    /// Tells it what happens, where it follows.
    pub(crate) fn tell(&mut self, text: &[u8]) {
        if self.connection.tell(text).is_err() {
            self.stage = Stage::Gone;
        }
    }

    /// Sends what is to be sent, as far as it is taken.
    pub(crate) fn flush(&mut self, now: u64) {
        if self.has_unsent() {
            self.send(now);
        }
        self.look(now);
    }

    /// Sends once.
    fn send(&mut self, now: u64) {
        match self.stream.write(self.connection.output()) {
            Ok(0) => self.stage = Stage::Gone,
            Ok(count) => {
                let count = count.min(self.connection.output().len());
                self.connection.sent(count);
                self.is_active = true;
                self.lags_since = if self.connection.output().is_empty() {
                    None
                } else {
                    Some(now)
                };
            }
            Err(error) => match error.kind() {
                ErrorKind::WouldBlock | ErrorKind::Interrupted => {
                    self.lags_since = Some(self.lags_since.unwrap_or(now));
                }
                _ => self.stage = Stage::Gone,
            },
        }
    }

    /// Sees what its connection is at now.
    fn look(&mut self, now: u64) {
        let phase = self.connection.phase();
        let answered = self.connection.answered();
        if phase != self.phase || answered != self.answered {
            self.since = now;
        }
        self.phase = phase;
        self.answered = answered;
        if phase == Phase::Over && self.stage == Stage::Open {
            self.drain(now);
        }
    }

    /// There is no more to send. What the client still sends is thrown away for a while.
    fn drain(&mut self, now: u64) {
        self.since = now;
        self.lags_since = None;
        let is_shut = self.stream.shutdown(Shutdown::Write).is_ok();
        self.stage = if is_shut && !self.has_ended {
            Stage::Draining
        } else {
            Stage::Gone
        };
    }
}
