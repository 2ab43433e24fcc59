//! Standard error, as a host tells something there while it works.
use libc::net;
use libc::types::pollfd;
use std::cell::Cell;
use std::fmt::Display;
use std::io::{self, ErrorKind};
use std::rt::Clock;
use std::time::Duration;

/// The number of standard error.
const STANDARD_ERROR: i32 = 2;

/// How many milliseconds a host waits for room, where somebody read by then.
const PATIENCE: i32 = 1000;

/// A runtime whose standard error does not hold its host up: where nobody reads there, what is told is dropped, and how much that was is told once
/// somebody reads again. Who waited for a reader that hangs would answer nobody any more.
#[derive(Drop)]
pub struct Aside<'a, R> {
    rt: &'a R,
    /// How many lines were dropped since somebody read.
    dropped: Cell<u64>,
}

impl<'a, R: Eprint> Aside<'a, R> {
    /// This runtime, with such a standard error.
    pub fn new(rt: &'a R) -> Aside<'a, R> {
        Aside {
            rt,
            dropped: Cell::new(0),
        }
    }

    /// Waits for room, but not behind what was dropped. Refused where there is none.
    fn check_room(&self) -> io::Result<()> {
        let dropped = self.dropped.get();
        let limit = if dropped == 0 { PATIENCE } else { 0 };
        if !has_room(limit) {
            self.dropped.set(dropped.saturating_add(1));
            return Err(io::Error::from(ErrorKind::WouldBlock));
        }
        if dropped > 0 {
            self.dropped.set(0);
            eprintln!(self.rt; "amo: {dropped} lines were not told here, as nobody read them")?;
        }
        Ok(())
    }
}

impl<R: Eprint> Eprint for Aside<'_, R> {
    fn eprint<D: Display + Drop>(&self, value: D) -> io::Result<()> {
        self.check_room()?;
        self.rt.eprint(value)
    }

    fn eprintln<D: Display + Drop>(&self, value: D) -> io::Result<()> {
        self.check_room()?;
        self.rt.eprintln(value)
    }
}

impl<R: Clock> Clock for Aside<'_, R> {
    fn monotonic(&self) -> io::Result<Duration> {
        self.rt.monotonic()
    }

    fn since_1970(&self) -> io::Result<Duration> {
        self.rt.since_1970()
    }

    fn sleep(&self, duration: Duration) {
        self.rt.sleep(duration)
    }
}

/// Whether standard error takes something within so many milliseconds. A pipe that takes anything takes 4,096 bytes: more than two lines that a host tells
/// have, where each path in them has less than 1,500.
fn has_room(limit: i32) -> bool {
    let mut waited = [pollfd {
        fd: STANDARD_ERROR,
        events: net::POLLOUT,
        revents: 0,
    }];
    net::poll(&mut waited, limit);
    waited[0].revents & net::POLLOUT != 0
}
