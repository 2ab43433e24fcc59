//! How far a run is.

use crate::{ClientCall, ClientReply, Script};
use amo_book::{AckFault, GetFault, PutFault};
use amo_world::NoMemory;
use std::sync::Wait;
use std::sync::atomic::{AtomicU32, AtomicU64, Ordering};
use std::time::Duration;

/// How far a run is. Its threads count here, and whoever looks on reads it meanwhile. Each run has one of its own.
#[derive(Drop)]
pub struct Progress {
    events: AtomicU64,
    got: AtomicU64,
    crashes: AtomicU64,
    /// How many books have clients that are not done yet.
    at_work: AtomicU32,
    /// 1 once the run is over.
    over: AtomicU64,
}

impl Progress {
    /// Of a run that has not begun.
    pub fn new() -> Progress {
        Progress {
            events: AtomicU64::new(0),
            got: AtomicU64::new(0),
            crashes: AtomicU64::new(0),
            at_work: AtomicU32::new(0),
            over: AtomicU64::new(0),
        }
    }

    /// How many events there are so far. Those of a pump's last turns may not be counted yet.
    pub fn events(&self) -> u64 {
        self.events.load(Ordering::SeqCst)
    }

    /// How many messages clients have got so far.
    pub fn got(&self) -> u64 {
        self.got.load(Ordering::SeqCst)
    }

    /// How often sides have crashed so far: a host's crash is one of each of its streams.
    pub fn crashes(&self) -> u64 {
        self.crashes.load(Ordering::SeqCst)
    }

    /// Whether the run is over.
    pub fn is_over(&self) -> bool {
        self.over.load(Ordering::SeqCst) != 0
    }

    /// Waits until the run is over, at most so long, or a little less. Whether it is.
    pub fn wait_for_end<R: Wait>(&self, rt: &R, at_most: Duration) -> bool {
        if !self.is_over() {
            self.over.park_timeout(rt, 0, at_most);
        }
        self.is_over()
    }

    /// The run is over.
    pub(crate) fn end(&self) {
        self.over.store(1, Ordering::SeqCst);
        self.over.wake_all();
    }

    /// The clients of so many books are at work from now on.
    pub(crate) fn begin(&self, books: u32) {
        self.at_work.store(books, Ordering::SeqCst);
    }

    /// The clients of a book are done.
    pub(crate) fn end_of_clients(&self) {
        self.at_work.fetch_sub(1, Ordering::SeqCst);
    }

    /// Whether no book has clients at work.
    pub(crate) fn has_no_clients(&self) -> bool {
        self.at_work.load(Ordering::SeqCst) == 0
    }

    /// So many events more, and so many of them crashes.
    pub(crate) fn add(&self, events: u64, crashes: u64) {
        self.events.fetch_add(events, Ordering::SeqCst);
        if crashes > 0 {
            self.crashes.fetch_add(crashes, Ordering::SeqCst);
        }
    }
}

/// A script, the calls of which are counted.
#[derive(Drop)]
pub(crate) struct Counted<'a, S> {
    pub(crate) script: S,
    pub(crate) progress: &'a Progress,
}

impl<S: Script> Script for Counted<'_, S> {
    fn next(&mut self) -> Result<Option<ClientCall>, NoMemory> {
        self.script.next()
    }

    fn told(&mut self, reply: &ClientReply) {
        if is_event(reply) {
            self.progress.add(1, 0);
        }
        if let ClientReply::Get(Ok(_)) = reply {
            self.progress.got.fetch_add(1, Ordering::SeqCst);
        }
        self.script.told(reply);
    }
}

/// Whether a call that was answered like this is an event: one that met Busy, or no such stream, is none.
fn is_event(reply: &ClientReply) -> bool {
    match reply {
        ClientReply::Put(Err(PutFault::Busy(_))) | ClientReply::Put(Err(PutFault::NoStream(_))) => {
            false
        }
        ClientReply::Get(Err(GetFault::Busy)) | ClientReply::Get(Err(GetFault::NoStream)) => false,
        ClientReply::Ack(Err(AckFault::Busy)) | ClientReply::Ack(Err(AckFault::NoStream)) => false,
        _ => true,
    }
}
