//! What a host has done since its start, for those who watch it. No contract speaks of these figures.

/// How many parts a power of two has among times.
const PARTS: usize = 4;

/// How many spans of time are counted apart: for each power of two that a number of microseconds may have, its parts.
const SPANS: usize = 256;

/// What has gone through a host's link.
#[derive(Clone, Copy, Default)]
pub struct Traffic {
    /// Packets that left, or were to leave and met a fault of the link.
    pub sent: u64,
    /// Those of them that had left before: nothing had answered them in time.
    pub again: u64,
    /// Datagrams that came from the peer's address.
    pub received: u64,
    /// Calls of the link that failed.
    pub faults: u64,
}

/// Datagrams that came and did nothing, each counted in one place.
#[derive(Clone, Copy, Default)]
pub struct Dropped {
    /// They are no packets for which the journal has lines.
    pub unread: u64,
    /// They are for streams that the host has not.
    pub foreign: u64,
    /// They came again, or too late, or for the other side: they would have changed nothing.
    pub idle: u64,
}

/// How a host is, and what it has done since its start.
#[derive(Clone, Copy, Default)]
pub struct Figures {
    /// Messages that were put.
    pub put: u64,
    /// Messages that were got.
    pub got: u64,
    /// Messages of which it was told that they were got.
    pub yes: u64,
    /// Messages of which it was told that they may or may not have been got.
    pub no: u64,
    /// Messages that wait for a handshake now.
    pub waiting: u64,
    /// Messages that have come and were not got yet.
    pub held: u64,
    /// Handshakes that are open now.
    pub open: u64,
    /// Handshakes that ended.
    pub ended: u64,
    /// What went through the link.
    pub traffic: Traffic,
    /// What was dropped.
    pub dropped: Dropped,
    /// The number of the journal's next line.
    pub line: u64,
    /// Bytes of lines that the journal got.
    pub bytes: u64,
}

/// How long handshakes took. Times are kept as spans, each a fourth of a power of two.
#[derive(Clone, Copy)]
pub struct Times {
    ended: [u64; SPANS],
    all: u64,
}

impl Times {
    /// None ended yet.
    pub fn new() -> Times {
        Times {
            ended: [0; SPANS],
            all: 0,
        }
    }

    /// One more ended, after so many microseconds.
    pub fn note(&mut self, micros: u64) {
        let span = span_of(micros);
        if span < SPANS {
            self.ended[span] = self.ended[span].saturating_add(1);
            self.all = self.all.saturating_add(1);
        }
    }

    /// How many ended.
    pub fn ended(&self) -> u64 {
        self.all
    }

    /// The time within which so many of a thousand ended, in microseconds, and at most a fourth above it; none where none ended.
    pub fn within(&self, of_thousand: u64) -> Option<u64> {
        if self.all == 0 {
            return None;
        }
        let wanted = self.all.saturating_mul(of_thousand).div_ceil(1000).max(1);
        let mut so_far = 0u64;
        'spans: for span in 0..SPANS {
            so_far = so_far.saturating_add(self.ended[span]);
            if wanted <= so_far {
                return Some(end_of(span));
            }
        }
        None
    }
}

/// The span of so many microseconds.
fn span_of(micros: u64) -> usize {
    if micros < PARTS as u64 {
        return micros as usize;
    }
    let power = micros.ilog2();
    let part = (micros >> power.saturating_sub(2)) & 3;
    (power as usize)
        .saturating_sub(1)
        .saturating_mul(PARTS)
        .saturating_add(part as usize)
}

/// The longest time of a span, in microseconds.
fn end_of(span: usize) -> u64 {
    if span < PARTS {
        return span as u64;
    }
    let power = (span / PARTS).saturating_add(1);
    let part = (span % PARTS) as u64;
    let first = part.saturating_add(PARTS as u64);
    let wide = power.saturating_sub(2).min(61) as u32;
    first
        .saturating_add(1)
        .saturating_mul(1 << wide)
        .saturating_sub(1)
}
