//! The door: a listener, and the clients that came through it.
ghost use Rattle.std.specs.Prelude.{◌≡◌, ◌++◌, ◌∷◌, [], OnOk, pos};
ghost use Rattle.amo_live.specs.Service.{Listened};
ghost use Rattle.amo_serve.specs.Waiting.{milliseconds_until};

use crate::DoorFault;
use crate::client::Client;
use crate::waiting::Waiter;
use amo_door::{Guard, Routes, Served};
use amo_live::{Lineage, MOST_DATAGRAMS, Service};
use amo_net::Link;
use amo_text::Sink;
use libc::net;
use libc::types::pollfd;
use std::alloc::{AllocError, AllocFailed, Global};
use std::collections::VecDeque;
use std::io::{ErrorKind, Write};
use std::net::{TcpListener, TcpStream};
use std::os::fd::AsRawFd;
use std::rt::Clock;
use std::thread;
use std::time::{Duration, Instant};

/// How many clients there are at most.
const MOST_CLIENTS: usize = 512;

/// How many clients are taken in a turn at most.
const MOST_TAKEN: usize = 64;

/// How much is read at once, in bytes.
const PIECE: usize = 16 * 1024;

/// The longest that it waits without looking up, in microseconds.
const LONGEST: u64 = 60_000_000;

/// How often a host listens before it looks whether anything else has come; how often it does that before it lets others run, how often that before it sleeps,
/// and for how many microseconds at most: who answers at once does so sooner than a sleeper wakes. Where it waits for many it does not look.
const LISTENS: u32 = 2;

const LOOKS: u32 = 4;

const ROUNDS: u32 = 24;

const LOOKING: u64 = 50;

const FEW: usize = 16;

/// For how many microseconds no client is taken where the system has no room for one, as where the process has as many files open as it may.
const CROWDED_OUT: u64 = 100_000;

/// So many of what the system waits for are the host's own. The clients stand behind them.
const HOSTS_OWN: usize = 3;

/// The place of the bell among these.
const BELL: usize = 2;

/// What a client beyond the bound is answered, whatever it asks. It is no request's answer, so no connection spells it.
const CROWDED: &[u8] =
    b"HTTP/1.1 503 Service Unavailable\r\ncache-control: no-store\r\nx-content-type-options: nosniff\r\ncontent-type: application/json\r\nretry-after: 1\r\nconnection: close\r\ncontent-length: 60\r\n\r\n{\"error\":\"crowded\",\"text\":\"too many ask at once: ask again\"}";

/// The listener and its clients.
#[derive(Drop)]
pub struct Door {
    pub(crate) alloc: Global,
    listener: TcpListener,
    pub(crate) clients: Vec<Client>,
    /// The places of the clients that this turn looks at: something came to them, they are told something, or they may have asked more.
    pub(crate) awake: Vec<usize>,
    /// When the others are to be looked at, whatever comes, in microseconds.
    deadline: u64,
    /// Whether something had come before it waited, or may have.
    came_at_once: bool,
    /// Whether some client cannot wait until something comes.
    is_pressed: bool,
    /// Whether some client may be following.
    is_followed: bool,
    /// Up to which number those who follow were told what happened.
    followed: u64,
    /// Those who wait, in the order in which they came.
    pub(crate) waiters: VecDeque<Waiter>,
    /// What the system is to wait for: the listener, the host's socket, its bell, and each client in its place. Empty where clients have gone.
    pub(crate) waited: Vec<pollfd>,
    room: Vec<u8>,
    pub(crate) routes: Routes,
    pub(crate) guard: Guard,
    pub(crate) served: Served,
    /// The number of the next client.
    next: u64,
    /// The number of the client who was told last what was got.
    pub(crate) told: u64,
    pub(crate) accepted: u64,
    pub(crate) crowded: u64,
}

impl Door {
    /// A door at this listener, to a host that serves so, for those whom the guard lets in.
    pub fn open(
        alloc: Global,
        listener: TcpListener,
        guard: Guard,
        served: Served,
    ) -> Result<Door, DoorFault> {
        listener.set_nonblocking(true)?;
        Ok(Door {
            alloc,
            listener,
            clients: Vec::new(alloc),
            awake: Vec::new(alloc),
            deadline: u64::MAX,
            came_at_once: false,
            is_pressed: false,
            is_followed: false,
            followed: 0,
            waiters: VecDeque::new(alloc),
            waited: Vec::new(alloc),
            room: vec![in alloc; 0u8; PIECE]?,
            routes: Routes::new(alloc)?,
            guard,
            served,
            next: 0,
            told: 0,
            accepted: 0,
            crowded: 0,
        })
    }

    /// Waits until something has come, or until a time. The system waits for the host's socket by this number, and for its bell by that. For a while the
    /// service listens itself: it hears a datagram sooner than the system tells that there is one.
    pub(crate) fn wait<C: Clock, L: Link, S: Sink, W: Lineage>(
        &mut self,
        rt: &C,
        service: &mut Service<L, S, W>,
        socket: i32,
        bell: i32,
        due: Option<u64>,
        now: u64,
    ) -> Result<(), AllocError>
        ensures { Listened service.old service.new }
    {
        if self.waited.is_empty() {
            self.watch(socket, bell)?;
        }
        if let Some(waited) = self.waited.get_mut(BELL) {
            waited.fd = bell;
        }
        let mut until = due.unwrap_or(u64::MAX).min(self.deadline);
        for waiter in &self.waiters {
            until = until.min(waiter.until);
        }
        if self.is_pressed {
            until = now;
        }
        self.wait_for(rt, service, milliseconds(until, now));
        Ok(())
    }

    /// Waits until something has come, or for so many milliseconds. Of many it is not asked whether something had come before, and where it does not wait
    /// it looks again soon.
    fn wait_for<C: Clock, L: Link, S: Sink, W: Lineage>(
        &mut self,
        rt: &C,
        service: &mut Service<L, S, W>,
        limit: i32,
    )
        ensures { Listened service.old service.new }
    {
        self.came_at_once = self.waited.len() > FEW;
        if limit != 0 && !self.came_at_once {
            self.came_at_once = net::poll(self.waited.as_mut_slice(), 0) != 0;
            if self.came_at_once || self.comes_soon(rt, service) {
                return;
            }
        }
        net::poll(self.waited.as_mut_slice(), limit);
    }

    /// Tells anew what the system is to wait for.
    fn watch(&mut self, socket: i32, bell: i32) -> Result<(), AllocError> {
        push(&mut self.waited, watched(self.listener.as_raw_fd()))?;
        push(&mut self.waited, watched(socket))?;
        push(&mut self.waited, watched(bell))?;
        for client in &self.clients {
            push(&mut self.waited, client.interest())?;
        }
        Ok(())
    }

    /// Whether somebody rings the host's bell.
    pub(crate) fn hears_bell(&self) -> bool {
        match self.waited.get(BELL) {
            Some(bell) => bell.revents != 0,
            None => false,
        }
    }

    /// How many datagrams are to be taken: none where none has come. Behind a wait it is one, since looking for another in vain takes as long as taking one.
    /// One that was heard meanwhile has come, too.
    pub(crate) fn datagrams(&self, was_heard: bool) -> u32 {
        let has_come = match self.waited.get(1) {
            Some(socket) => socket.revents != 0,
            None => false,
        };
        match (was_heard || has_come, self.came_at_once) {
            (false, _) => 0,
            (true, false) => 1,
            (true, true) => MOST_DATAGRAMS,
        }
    }

    /// Whether something comes while the host looks.
    fn comes_soon<C: Clock, L: Link, S: Sink, W: Lineage>(
        &mut self,
        rt: &C,
        service: &mut Service<L, S, W>,
    ) -> bool
        ensures { Listened service.old service.new }
    {
        let Ok(since) = Instant::now(rt) else {
            return false;
        };
        let limit = Duration::from_micros(LOOKING);
        'rounds: for _round in 0..ROUNDS {
            if self.has_come(service) {
                return true;
            }
            match since.elapsed(rt) {
                Ok(looked) if looked < limit => thread::yield_now(),
                _ => return false,
            }
        }
        false
    }

    /// Whether something has come at one of some looks.
    fn has_come<L: Link, S: Sink, W: Lineage>(&mut self, service: &mut Service<L, S, W>) -> bool
        ensures { Listened service.old service.new }
    {
        'looks: for _look in 0..LOOKS {
            if service.listen(LISTENS) || net::poll(self.waited.as_mut_slice(), 0) != 0 {
                return true;
            }
        }
        false
    }

    /// Reads what clients sent, ends what lasts too long, and takes the clients that came.
    pub(crate) fn hear(&mut self, now: u64) -> Result<(), AllocError> {
        self.wake(now)?;
        let room = self.room.as_mut_slice();
        for place in &self.awake {
            if let (Some(client), Some(waited)) = (
                self.clients.get_mut(*place),
                self.waited.get(place.saturating_add(HOSTS_OWN)),
            ) {
                client.hear(waited.revents, room, now);
                client.tick(now);
            }
        }
        match self.waited.first() {
            Some(waited) if waited.revents != 0 => self.accept(now),
            _ => Ok(()),
        }
    }

    /// Wakes the clients to which something came; and all, if it is time to look at them.
    fn wake(&mut self, now: u64) -> Result<(), AllocError> {
        let is_time = self.deadline <= now;
        if is_time {
            self.deadline = u64::MAX;
            self.is_followed = false;
            self.attend(net::POLLIN);
        }
        let comings = self.waited.iter().skip(HOSTS_OWN);
        for (place, (client, waited)) in self.clients.iter_mut().zip(comings).enumerate() {
            if (is_time || waited.revents != 0) && client.wakes() {
                push(&mut self.awake, place)?;
            }
        }
        Ok(())
    }

    /// Wakes those who follow, if anything happened since they were told last. What happens next has this number.
    pub(crate) fn wake_followers(&mut self, next: u64) -> Result<(), AllocError> {
        let is_new = self.followed < next;
        self.followed = next;
        if !is_new || !self.is_followed {
            return Ok(());
        }
        for (place, client) in self.clients.iter_mut().enumerate() {
            if client.is_following() && client.wakes() {
                push(&mut self.awake, place)?;
            }
        }
        Ok(())
    }

    /// Takes the clients that have come.
    fn accept(&mut self, now: u64) -> Result<(), AllocError> {
        for _client in 0..MOST_TAKEN {
            match self.listener.accept() {
                Ok((stream, _address)) => self.let_in(stream, now)?,
                Err(error) if error.kind() == ErrorKind::WouldBlock => break,
                Err(_) => {
                    // The listener would go on to be ready, and the host would never rest.
                    self.attend(0);
                    self.deadline = self.deadline.min(now.saturating_add(CROWDED_OUT));
                    break;
                }
            }
        }
        Ok(())
    }

    /// Waits for this at the listener from now on.
    fn attend(&mut self, events: i16) {
        if let Some(listener) = self.waited.first_mut() {
            listener.events = events;
        }
    }

    /// Takes a client; or tells it that there are too many.
    fn let_in(&mut self, stream: TcpStream, now: u64) -> Result<(), AllocError> {
        let mut stream = stream;
        if stream.set_nonblocking(true).is_err() || stream.set_nodelay(true).is_err() {
            return Ok(());
        }
        if self.clients.len() >= MOST_CLIENTS {
            self.crowded = self.crowded.saturating_add(1);
            let _ = stream.write(CROWDED);
            return Ok(());
        }
        self.accepted = self.accepted.saturating_add(1);
        let number = self.next;
        self.next = self.next.saturating_add(1);
        let client = Client::new(self.alloc, number, stream, now);
        self.deadline = self.deadline.min(client.deadline());
        push(&mut self.waited, client.interest())?;
        push(&mut self.clients, client)
    }

    /// Sends those who are awake what is to be sent, lets those rest who have no more to ask, and drops the clients that are gone.
    pub(crate) fn flush(&mut self, now: u64) -> Result<(), AllocError> {
        let mut is_any_gone = false;
        self.is_pressed = false;
        for place in &self.awake {
            if let Some(client) = self.clients.get_mut(*place) {
                client.flush(now);
                client.rest();
                self.deadline = self.deadline.min(client.deadline());
                self.is_pressed = self.is_pressed || client.is_pressing();
                self.is_followed = self.is_followed || client.is_following();
                is_any_gone = is_any_gone || client.is_gone();
                if let Some(waited) = self.waited.get_mut(place.saturating_add(HOSTS_OWN)) {
                    *waited = client.interest();
                }
            }
        }
        if is_any_gone {
            self.drop_gone();
            return self.find_awake();
        }
        let clients = self.clients.as_slice();
        self.awake.retain(|place| is_awake(clients, *place));
        Ok(())
    }

    /// Sends all clients what is to be sent, and drops those that are gone.
    pub(crate) fn flush_all(&mut self, now: u64) {
        for client in self.clients.iter_mut() {
            client.flush(now);
        }
        self.drop_gone();
    }

    /// Drops the clients that are gone. The others have other places then.
    fn drop_gone(&mut self) {
        self.clients.retain(|client| !client.is_gone());
        self.waited.clear();
    }

    /// Finds the places of those who do not rest.
    fn find_awake(&mut self) -> Result<(), AllocError> {
        self.awake.clear();
        for (place, client) in self.clients.iter().enumerate() {
            if client.is_awake {
                push(&mut self.awake, place)?;
            }
        }
        Ok(())
    }

    /// Whether somebody waits for what the journal tells. Who does is awake.
    pub(crate) fn has_seekers(&self) -> bool {
        let clients = self.clients.as_slice();
        self.awake.iter().any(|place| match clients.get(*place) {
            Some(client) => client.seeks(),
            None => false,
        })
    }
}

/// Whether the client at this place does not rest.
fn is_awake(clients: &[Client], place: usize) -> bool {
    match clients.get(place) {
        Some(client) => client.is_awake,
        None => false,
    }
}

/// That number, for what comes there.
fn watched(number: i32) -> pollfd {
    pollfd {
        fd: number,
        events: net::POLLIN,
        revents: 0,
    }
}

/// Puts a value at a list's end.
pub(crate) fn push<T: Drop>(list: &mut Vec<T>, value: T) -> Result<(), AllocError>
    ensures { OnOk result (list.new.items ≡ list.old.items ++ value ∷ []) }
{
    match list.push(value) {
        Ok(()) => Ok(()),
        Err(AllocFailed { .. }) => Err(AllocError),
    }
}

/// How many milliseconds there are until a time, rounded up, as the system counts them.
fn milliseconds(until: u64, now: u64) -> i32
    ensures { result ≡ pos (milliseconds_until until now) }
{
    let left = until.saturating_sub(now).min(LONGEST);
    left.div_ceil(1000) as i32
}
