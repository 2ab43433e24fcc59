//! How far the last events are those by which a host came back.
ghost use Rattle.std.specs.Prelude.{◌≡◌, ◌≤◌};
ghost use Rattle.amo_disk.specs.Back.{back_of, returns_after};

use amo_core::Act;
use amo_world::Event;

/// The number of the pass under which a live host's events are.
const PASS: usize = 1;

/// The last events are the crashes and recoveries of streams from 1 to this one, in order; and behind them may stand the crash of the next.
#[derive(Clone, Copy, PartialEq, Eq)]
pub(crate) struct Returns {
    streams: u32,
    has_crash: bool,
}

impl Returns {
    /// The last events are no such ones.
    pub(crate) const NONE: Returns = Returns {
        streams: 0,
        has_crash: false,
    };

    /// How many streams came back by the last events.
    pub(crate) fn streams(self) -> u32
        ensures { result ≡ back_of self }
    {
        if self.has_crash { 0 } else { self.streams }
    }

    /// What is so behind one event more.
    pub(crate) fn after(self, event: &Event) -> Returns
        requires { 1 ≤ event.now.stream }
        ensures { result ≡ returns_after self event.now }
    {
        if event.pass != PASS {
            return Returns::NONE;
        }
        let is_next = event.stream - 1 == self.streams;
        match event.act {
            Act::Crash if event.stream == 1 => Returns {
                streams: 0,
                has_crash: true,
            },
            Act::Crash if is_next && !self.has_crash => Returns {
                streams: self.streams,
                has_crash: true,
            },
            Act::Recover if is_next && self.has_crash => Returns {
                streams: event.stream,
                has_crash: false,
            },
            _ => Returns::NONE,
        }
    }
}
