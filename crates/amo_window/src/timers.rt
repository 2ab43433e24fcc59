//! Timers: when each stream is to be sent again.
ghost use Rattle.std.specs.Prelude.{◌≡◌, ◌≢◌, ◌↔◌, ◌≤◌, ◌<◌, [], Some, IsTrue, IsOk, IfOk, IfSome, IfNone, IsErrOf, map, length, slice_get, Contains};
ghost use Rattle.std.specs.Bool.{OnFalse};
ghost use Rattle.std.specs.List.Sorted.{IsStrictlyIncreasing};
ghost use Rattle.amo_window.specs.Timers.{resting};

use crate::spacing::Spacing;
use crate::{Due, Pace, WindowFault};
use std::alloc::{AllocError, Global};
use std::marker::Model;

/// The greatest number of streams that timers are kept for.
pub const MAX_TIMERS: usize = 256;

/// When a stream is due, if a time is set, and the interval that its next sending sets.
#[derive(Clone, Copy)]
pub(crate) struct Timer {
    pub stream: u32,
    pub next: Option<u64>,
    pub interval: u64,
    pub pace: Pace,
}

impl Timer {
    ghost use Rattle.amo_window.specs.Timers.{resting, sent, stopped, hastened, has_come};

    fn new(pace: Pace, stream: u32) -> Timer
        ensures { result ≡ resting pace stream }
    {
        Timer {
            stream,
            next: None,
            interval: pace.first,
            pace,
        }
    }

    fn sent(&mut self, now: u64)
        ensures { self.new ≡ sent now self.old }
    {
        self.next = Some(now.saturating_add(self.interval));
        self.interval = self.interval.saturating_mul(2).min(self.pace.most);
    }

    fn stop(&mut self)
        ensures { self.new ≡ stopped self.old }
    {
        *self = Timer::new(self.pace, self.stream);
    }

    fn hasten(&mut self, now: u64)
        ensures { self.new ≡ hastened now self.old }
    {
        if self.next.is_some() {
            self.stop();
            self.sent(now);
        }
    }

    pub fn is_due(&self, now: u64) -> bool
        ensures { result ≡ has_come now self.now.next }
    {
        matches!(self.next, Some(next) if next <= now)
    }
}

/// A timer for each of some streams. Contracts see the list of the timers, by rising stream.
///
/// Times are ticks, counted from wherever the caller likes. A stream is due 1 tick after the first sending, 2 ticks
/// after the next, then 4, and so on up to 64, which then stays; or at another [`Pace`]. It starts anew once it is stopped.
///
/// The room is made once, by [`Timers::new`] or [`Timers::paced`]; no other call takes memory. [`Timers::sent`] and [`Timers::stop`] find
/// their stream at once where all follow at equal distances, else by a binary search, and [`Timers::due`] goes over the streams once.
#[derive(Drop)]
pub struct Timers {
    spacing: Spacing,
    timers: Vec<Timer>,
}

impl Model for Timers {
    ghost use Rattle.std.specs.Prelude.{List};
    ghost use Rattle.amo_window.specs.declared.timers.Timer.{Timer};

    ghost Value = { List Timer };

    ghost use Rattle.amo_window.specs.Timers.{streams_of, CanBeTimed};

    ghost view = { λ t. t.timers.items };

    ghost invariant = { λ t. CanBeTimed (streams_of t.timers.items) };
}

impl Timers {
    ghost use Rattle.amo_window.specs.Timers.{most_timers, streams_of, CanBeTimed, unset, resting, sent, stopped, hastened, changed, due};
    ghost use Rattle.amo_window.specs.declared.timers.Timer.{Timer};

    /// Timers for these streams, with no time set. The streams are at most [`MAX_TIMERS`], and each is greater than
    /// the one before it. There may be none.
    pub fn new(alloc: Global, streams: &[u32]) -> Result<Timers, WindowFault>
        ensures ok { IfOk result (λ timers. (timers ≡ map unset streams.now) × CanBeTimed streams.now) }
        ensures limits { IsErrOf result WindowFault.Limits ↔ (¬ (CanBeTimed streams.now)) }
        ensures memory { IsErrOf result WindowFault.NoMemory → CanBeTimed streams.now × (streams.now ≢ []) }
    {
        Timers::paced(alloc, Pace::in_ticks(), streams)
    }

    /// The same, with intervals of this pace.
    pub fn paced(alloc: Global, pace: Pace, streams: &[u32]) -> Result<Timers, WindowFault>
        ensures ok { IfOk result (λ timers. (timers ≡ map (resting pace) streams.now) × CanBeTimed streams.now) }
        ensures limits { IsErrOf result WindowFault.Limits ↔ (¬ (CanBeTimed streams.now)) }
        ensures memory { IsErrOf result WindowFault.NoMemory → CanBeTimed streams.now × (streams.now ≢ []) }
    {
        if streams.len() > MAX_TIMERS || !is_rising(streams) {
            return Err(WindowFault::Limits);
        }
        let timers = unset_timers(alloc, pace, streams)?;
        Ok(Timers {
            spacing: Spacing::of(streams),
            timers,
        })
    }

    /// Something was sent on this stream at this time: the stream is due again one interval later, or at `u64::MAX`
    /// where that is past it, and its interval is twice as long, up to the longest of its pace. False, and nothing changed, for a
    /// stream that has no timer here.
    pub fn sent(&mut self, stream: u32, now: u64) -> bool
        ensures found { IsTrue result ↔ Contains (streams_of self.old) stream }
        ensures timers { self.new ≡ changed (sent now) stream self.old }
        ensures streams { streams_of self.new ≡ streams_of self.old }
        ensures unchanged { OnFalse result (self.new ≡ self.old) }
    {
        match self.find(stream) {
            None => false,
            Some(place) => {
                self.timers[place].sent(now);
                true
            }
        }
    }

    /// Nothing is to be sent again on this stream: no time is set, and the first interval comes next. False, and
    /// nothing changed, for a stream that has no timer here.
    pub fn stop(&mut self, stream: u32) -> bool
        ensures found { IsTrue result ↔ Contains (streams_of self.old) stream }
        ensures timers { self.new ≡ changed stopped stream self.old }
        ensures streams { streams_of self.new ≡ streams_of self.old }
        ensures unchanged { OnFalse result (self.new ≡ self.old) }
    {
        match self.find(stream) {
            None => false,
            Some(place) => {
                self.timers[place].stop();
                true
            }
        }
    }

    /// Each stream that has a time set begins anew, as if something was sent on it now for the first time.
    pub fn hasten(&mut self, now: u64)
        ensures timers { self.new ≡ map (hastened now) self.old }
        ensures streams { streams_of self.new ≡ streams_of self.old }
    {
        for place in 0..self.timers.len() {
            self.timers[place].hasten(now);
        }
    }

    /// The time that is set for the stream in this place, if one is.
    pub fn next_at(&self, place: usize) -> Option<u64>
        requires { place < length self.now }
        ensures { (t : Timer) → slice_get self.now place ≡ Some t → result ≡ t.next }
    {
        self.timers[place].next
    }

    /// The streams whose time is set and is `now` or earlier, in their order.
    pub fn due(&self, now: u64) -> Due<'_>
        ensures streams { result ≡ due now self.now }
        ensures rising { IsStrictlyIncreasing result }
        ensures few { length result ≤ most_timers }
    {
        Due {
            timers: self.timers.as_slice(),
            time: now,
        }
    }

    /// The place of the timer of this stream.
    fn find(&self, stream: u32) -> Option<usize>
        ensures found { IfSome result (λ place. slice_get (streams_of self.now) place ≡ Some stream) }
        ensures absent { IfNone result (¬ (Contains (streams_of self.now) stream)) }
    {
        let first = self.timers.first()?.stream;
        if first == stream {
            return Some(0);
        }
        let place = self.spacing.places_between(first, stream);
        match self.timers.get(place) {
            Some(timer) if timer.stream == stream => Some(place),
            _ => self.search(stream),
        }
    }

    /// The place, wherever it is.
    fn search(&self, stream: u32) -> Option<usize>
        ensures found { IfSome result (λ place. slice_get (streams_of self.now) place ≡ Some stream) }
        ensures absent { IfNone result (¬ (Contains (streams_of self.now) stream)) }
    {
        self.timers
            .binary_search_by_key(&stream, |timer| timer.stream)
            .ok()
    }
}

/// A timer for each stream, with no time set. It takes memory once, and none for no streams.
fn unset_timers(alloc: Global, pace: Pace, streams: &[u32]) -> Result<Vec<Timer>, AllocError>
    ensures each { IfOk result (λ timers. timers.items ≡ map (resting pace) streams.now) }
    ensures none { streams.now ≡ [] → IsOk result }
{
    let mut timers = Vec::with_capacity(alloc, streams.len())?;
    for stream in streams {
        timers.push_reserved(Timer::new(pace, *stream));
    }
    Ok(timers)
}

/// Whether each number is greater than the one before it.
fn is_rising(streams: &[u32]) -> bool
    ensures { IsTrue result ↔ IsStrictlyIncreasing streams.now }
{
    streams.is_sorted_by(|before, after| before < after)
}
