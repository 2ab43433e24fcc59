//! Waiting for what comes first.
ghost use Rattle.amo_live.specs.Service.{Listened};

use amo_live::{Lineage, Service};
use amo_net::Link;
use amo_text::Sink;
use libc::net;
use libc::types::pollfd;
use std::rt::Clock;
use std::thread;
use std::time::{Duration, Instant};

/// How often a host listens before it looks whether anything else has come, and lets others run: to do so each time would take as long again.
const LOOKS: u32 = 8;

/// How often it does that before it sleeps. A peer that answers at once does so sooner than a sleeper wakes.
const ROUNDS: u32 = 24;

/// How long it looks at most, in microseconds. On a busy machine others run first, which could take as long as a sleep.
const LOOKING: u64 = 50;

/// What a host waits for, by the numbers that the system has for them. A negative number is not waited for.
#[derive(Clone, Copy)]
pub struct Waited {
    /// Where lines come from: it is waited for to have no writer any more.
    pub lines: i32,
    /// And also for lines.
    pub reads: bool,
    /// Where datagrams come from.
    pub socket: i32,
    /// Where messages go: it is waited for to be gone, as a pipe that nobody will read any more.
    pub output: i32,
    /// And also to take more.
    pub takes: bool,
    /// Where the host is asked to come to its end.
    pub bell: i32,
}

/// What there was when a host had waited.
#[derive(Clone, Copy)]
pub struct Ready {
    /// Lines may have come, or their end.
    pub lines: bool,
    /// No more lines come than have: nobody writes any more.
    pub is_last: bool,
    /// Datagrams may have come.
    pub socket: bool,
    /// There was something before it waited.
    pub at_once: bool,
    /// The output is gone.
    pub is_gone: bool,
    /// Somebody may ask the host to come to its end.
    pub bell: bool,
}

impl Ready {
    /// A datagram has come. What else has was not asked.
    pub const OF_DATAGRAMS: Ready = Ready {
        lines: false,
        is_last: false,
        socket: true,
        at_once: true,
        is_gone: false,
        bell: false,
    };
}

/// Waits until something has come or the output is gone, or for so many milliseconds; without a limit where that is negative. For a while the service
/// listens itself: it hears a datagram sooner than the system tells that there is one.
pub fn wait<C: Clock, L: Link, S: Sink, W: Lineage>(
    rt: &C,
    service: &mut Service<L, S, W>,
    what: Waited,
    limit: i32,
) -> Ready
    ensures { Listened service.old service.new }
{
    let mut waited = all_of(what);
    let at_once = net::poll(&mut waited, 0) != 0;
    if !at_once && limit != 0 && !comes_soon(rt, service, &mut waited) {
        net::poll(&mut waited, limit);
    }
    found_in(&waited, at_once, service.has_come())
}

/// The same without a host: until what is waited for has come, or for so many milliseconds.
pub fn wait_alone(what: Waited, limit: i32) -> Ready {
    let mut waited = all_of(what);
    net::poll(&mut waited, limit);
    found_in(&waited, true, false)
}

/// What is waited for, as the system is asked for it.
fn all_of(what: Waited) -> [pollfd; 4] {
    let lines = if what.reads { net::POLLIN } else { 0 };
    let output = if what.takes { net::POLLOUT } else { 0 };
    [
        watched(what.lines, lines | net::POLLRDHUP),
        watched(what.socket, net::POLLIN),
        watched(what.output, output),
        watched(what.bell, net::POLLIN),
    ]
}

/// Whether something comes while the host looks.
fn comes_soon<C: Clock, L: Link, S: Sink, W: Lineage>(
    rt: &C,
    service: &mut Service<L, S, W>,
    waited: &mut [pollfd; 4],
) -> bool
    ensures { Listened service.old service.new }
{
    let Ok(since) = Instant::now(rt) else {
        return false;
    };
    let limit = Duration::from_micros(LOOKING);
    'rounds: for _round in 0..ROUNDS {
        if service.listen(LOOKS) || net::poll(waited, 0) != 0 {
            return true;
        }
        match since.elapsed(rt) {
            Ok(looked) if looked < limit => thread::yield_now(),
            _ => return false,
        }
    }
    false
}

/// That number, for these events and for faults.
fn watched(number: i32, events: i16) -> pollfd {
    pollfd {
        fd: number,
        events,
        revents: 0,
    }
}

/// What was found, and whether a datagram was heard.
fn found_in(waited: &[pollfd; 4], at_once: bool, heard: bool) -> Ready {
    Ready {
        lines: waited[0].revents != 0,
        is_last: waited[0].revents & !net::POLLIN != 0,
        socket: heard || waited[1].revents != 0,
        at_once,
        is_gone: waited[2].revents & !net::POLLOUT != 0,
        bell: waited[3].revents != 0,
    }
}

/// Whether an output takes more now. A pipe says so where it takes 4,096 bytes without a wait.
pub fn takes_more(output: i32) -> bool {
    let mut waited = [watched(output, net::POLLOUT)];
    net::poll(&mut waited, 0);
    waited[0].revents != 0
}
