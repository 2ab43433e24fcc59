//! What a host tells of its figures, where it is to.
use amo_live::{Durable, Figures, Lineage, Service};
use amo_net::Link;

const SECOND: u64 = 1_000_000;

/// When a host tells its figures.
#[derive(Clone, Copy)]
pub(crate) struct Stats {
    /// Each time that so many microseconds have passed; never, where it is none.
    each: Option<u64>,
    /// When it does so next.
    next: u64,
}

impl Stats {
    /// Each time that so many microseconds have passed, if it is to tell them.
    pub(crate) fn each(each: Option<u64>) -> Stats {
        Stats {
            each,
            next: each.unwrap_or(0),
        }
    }

    /// The time until which a host may wait, where that without figures is this.
    pub(crate) fn until(&self, until: Option<u64>) -> Option<u64> {
        match (self.each, until) {
            (Some(_), Some(until)) => Some(until.min(self.next)),
            (Some(_), None) => Some(self.next),
            (None, until) => until,
        }
    }

    /// Tells them, if it is time.
    pub(crate) fn tell<C: Eprint, L: Link, S: Durable, W: Lineage>(
        &mut self,
        rt: &C,
        service: &Service<L, S, W>,
        now: u64,
    ) {
        let Some(each) = self.each else {
            return;
        };
        if self.next <= now {
            tell_figures(rt, service, now);
            self.next = now.saturating_add(each);
        }
    }

    /// Tells them at the end.
    pub(crate) fn tell_last<C: Eprint, L: Link, S: Durable, W: Lineage>(
        &self,
        rt: &C,
        service: &Service<L, S, W>,
        now: u64,
    ) {
        if self.each.is_some() {
            tell_figures(rt, service, now);
        }
    }
}

/// Tells a host's figures, so long after its start.
fn tell_figures<C: Eprint, L: Link, S: Durable, W: Lineage>(
    rt: &C,
    service: &Service<L, S, W>,
    now: u64,
) {
    let Figures {
        put,
        got,
        yes,
        no,
        waiting,
        held,
        open,
        ended,
        traffic,
        dropped,
        line,
        bytes,
    } = service.figures();
    let pieces = service.host.pieces_begun();
    let times = service.times();
    let half = times.within(500).unwrap_or(0);
    let most = times.within(990).unwrap_or(0);
    let seconds = now / SECOND;
    let _ = eprintln!(rt;
        "amo: stats: seconds={seconds} put={put} got={got} yes={yes} no={no} waiting={waiting} held={held} open={open} handshakes={ended} p50_us={half} p99_us={most} sent={} again={} received={} unread={} foreign={} idle={} faults={} line={line} bytes={bytes} pieces={pieces}",
        traffic.sent,
        traffic.again,
        traffic.received,
        dropped.unread,
        dropped.foreign,
        dropped.idle,
        traffic.faults
    );
}
