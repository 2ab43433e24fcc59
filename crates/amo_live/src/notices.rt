//! What a host tells its operator on standard error, each once.
ghost use Rattle.std.specs.Prelude.{◌≡◌, ◌&&◌, ◌||◌, None, Some, false, not, unwrap_or, if◌then◌else◌};
ghost use Rattle.amo_live.specs.Notices.{is_long};

use crate::{Lineage, Service};
use amo_net::Link;
use amo_text::Sink;

/// How long a peer is silent before that is told, in microseconds.
const TEN_SECONDS: u64 = 10_000_000;

/// Since when a peer that was to be heard is silent, in microseconds, and whether that was told.
#[derive(Clone, Copy)]
pub struct Silence {
    /// It was looked at first then, since it was heard or something was begun.
    pub since: Option<u64>,
    /// It was told that the peer is silent.
    pub told: bool,
}

impl Silence {
    /// None yet.
    pub fn new() -> Silence
        ensures { result ≡ record { since = None; told = false } }
    {
        Silence {
            since: None,
            told: false,
        }
    }

    /// The peer is heard. Whether that is to be told: its silence was.
    pub fn end(&mut self) -> bool
        ensures back { result ≡ self.old.told }
        ensures anew { self.new ≡ record { since = None; told = false } }
    {
        let told = self.told;
        *self = Silence::new();
        told
    }

    /// The peer is not heard. Whether that is to be told: something waits for it, nothing was heard for ten seconds of that, and it was not told.
    pub fn last(&mut self, waits: bool, now: u64) -> bool
        ensures tells { result ≡ (waits && not self.old.told && is_long self.old.since now) }
        ensures once { self.new.told ≡ (self.old.told || result) }
        ensures since { self.new.since ≡ (if waits then Some (unwrap_or self.old.since now) else None) }
    {
        let tells = waits && !self.told && is_long(self.since, now);
        self.since = if waits {
            Some(self.since.unwrap_or(now))
        } else {
            None
        };
        self.told = self.told || tells;
        tells
    }
}

/// Whether a silence that began then, if one did, has lasted for ten seconds.
fn is_long(since: Option<u64>, now: u64) -> bool
    ensures { result ≡ is_long since now }
{
    match since {
        Some(since) => TEN_SECONDS <= now.saturating_sub(since),
        None => false,
    }
}

/// What was told.
#[derive(Clone, Copy)]
pub struct Notices {
    silence: Silence,
    batch: bool,
    streams: bool,
    stray: bool,
}

impl Notices {
    /// Nothing was told yet.
    pub fn new() -> Notices {
        Notices {
            silence: Silence::new(),
            batch: false,
            streams: false,
            stray: false,
        }
    }

    /// Tells what is new since the last turn.
    pub fn tell<C: Eprint, L: Link, S: Sink, W: Lineage>(
        &mut self,
        rt: &C,
        service: &Service<L, S, W>,
        now: u64,
    ) {
        self.tell_of_peer(rt, service.has_heard(), !service.is_at_rest(), now);
        self.tell_of_batch(rt, service.has_missed_batch());
        self.tell_of_streams(rt, service.foreign_stream(), service.streams());
        self.tell_of_stray(rt, service.has_stray());
    }

    /// Tells that the peer is silent, or that it is heard again.
    fn tell_of_peer<C: Eprint>(&mut self, rt: &C, is_heard: bool, waits: bool, now: u64) {
        if is_heard {
            if self.silence.end() {
                let _ = eprintln!(rt; "amo: the peer is heard again");
            }
        } else if self.silence.last(waits, now) {
            let _ = eprintln!(rt; "amo: nothing was heard of the peer for 10 seconds");
        }
    }

    /// Tells that a batch came for which the journal has no line.
    fn tell_of_batch<C: Eprint>(&mut self, rt: &C, is_missed: bool) {
        if is_missed && !self.batch {
            self.batch = true;
            let _ = eprintln!(rt;
                "amo: a batch came, and a journal of version 1 tells of none: begin new journals at both hosts, or send without --batch"
            );
        }
    }

    /// Tells that a packet came for a stream that this host has not, of so many.
    fn tell_of_streams<C: Eprint>(&mut self, rt: &C, foreign: Option<u32>, streams: usize) {
        let Some(stream) = foreign else {
            return;
        };
        if !self.streams {
            self.streams = true;
            let _ = eprintln!(rt;
                "amo: a packet came for stream {stream}, and this host has {streams}: give both hosts as many --streams"
            );
        }
    }

    /// Tells that a packet came for the other side.
    fn tell_of_stray<C: Eprint>(&mut self, rt: &C, is_stray: bool) {
        if is_stray && !self.stray {
            self.stray = true;
            let _ = eprintln!(rt;
                "amo: a packet came that is for the other side: of two hosts one has to send, and the other to receive"
            );
        }
    }
}
