//! The time since a host's turns, or its start, began.
use crate::ServeFault;
use std::rt::Clock;
use std::time::Instant;

/// The longest that a host waits without looking up, in microseconds.
const LONGEST: u64 = 60_000_000;

/// When they begin: now.
pub(crate) fn started<C: Clock>(rt: &C) -> Result<Instant, ServeFault> {
    match Instant::now(rt) {
        Ok(start) => Ok(start),
        Err(_) => Err(ServeFault::Clock),
    }
}

/// How many microseconds have passed.
pub(crate) fn microseconds<C: Clock>(rt: &C, start: &Instant) -> Result<u64, ServeFault> {
    match start.elapsed(rt) {
        Ok(passed) => Ok(u64::try_from(passed.as_micros()).unwrap_or(u64::MAX)),
        Err(_) => Err(ServeFault::Clock),
    }
}

/// How many milliseconds there are until a time, rounded up, as the system counts them. Without a time there is no limit.
pub(crate) fn milliseconds(until: Option<u64>, now: u64) -> i32 {
    match until {
        None => -1,
        Some(until) => {
            let left = until.saturating_sub(now).min(LONGEST);
            left.div_ceil(1000) as i32
        }
    }
}
