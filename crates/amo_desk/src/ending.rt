//! When a live host ends, and how.

use crate::Desk;
use amo_live::{Durable, Ended, Limits, Lineage, Service};
use amo_net::Link;
use std::io::{Read, Write};

/// How long a receiver waits at its end for what is still on its way, in microseconds, where it was not told; and a sender, at least, for who reads.
pub(crate) const LINGER: u64 = 1_000_000;

/// When the host ends at the latest, if it does. Since a time it takes no line, if so. Who reads its answers is given a moment at least.
pub(crate) fn end_of(limits: Limits, has_answers: bool, since: Option<u64>) -> Option<u64> {
    let limit = match limits.wait {
        Some(wait) if has_answers => wait.max(LINGER),
        Some(wait) => wait,
        None if limits.lingers => LINGER,
        None => return None,
    };
    Some(since?.saturating_add(limit))
}

/// How the host ends, if it does now, where it takes no line any more or still does, and ends then at the latest, if it does.
pub(crate) fn ending_now<L: Link, S: Durable, W: Lineage, I: Read, O: Write>(
    service: &Service<L, S, W>,
    desk: &Desk<I, O>,
    limits: Limits,
    takes_none: bool,
    end: Option<u64>,
    now: u64,
) -> Option<Ended> {
    let is_shown = service.shown().is_empty() && !service.has_unread();
    let is_at_rest = service.is_at_rest() && is_shown && desk.keeps_none();
    let holds = desk.bell.was_rung() && service.figures().held > 0;
    ending(limits, takes_none && is_at_rest, holds, end, now)
}

/// How the host ends, if it does now: it takes no line any more and is at rest, or this is when it ends at the latest. One that was asked to come to its
/// end and holds messages which were not got does not end at rest.
fn ending(
    limits: Limits,
    is_at_rest: bool,
    holds: bool,
    end: Option<u64>,
    now: u64,
) -> Option<Ended> {
    if is_at_rest {
        return Some(Ended::AtRest);
    }
    if now < end? {
        return None;
    }
    if holds || limits.wait.is_some() {
        Some(Ended::OnItsWay)
    } else {
        Some(Ended::AtRest)
    }
}

/// When it looks up at the latest: where something is to be sent again, or where it ends.
pub(crate) fn until(due: Option<u64>, end: Option<u64>) -> Option<u64> {
    match (due, end) {
        (Some(due), Some(end)) => Some(due.min(end)),
        (due, None) => due,
        (None, end) => end,
    }
}
