//! What a process is to do, by what it was told.
ghost use Rattle.std.specs.Prelude.{◌≡◌, ◌≤◌, IfSome};
ghost use Rattle.amo_settings.specs.Limits.{IsHostWithin};
ghost use Rattle.amo_live.specs.Plans.{microseconds, pace_of, receives, sends, wanted};

use crate::{Limits, Setup, Spelling};
use amo_disk::Wanted;
use amo_object::End;
use amo_settings::{ReceiveSettings, SendSettings};
use amo_window::Pace;

const SECOND: u64 = 1_000_000;

/// How many bytes a piece of a journal has where that was not told: 64 MiB.
const PIECE: u64 = 67_108_864;

/// What a process is to do.
#[derive(Clone, Copy)]
pub struct Plan {
    /// How its host is set up.
    pub setup: Setup,
    /// When it ends.
    pub limits: Limits,
    /// How many bytes a piece of its journal has before another one is begun.
    pub piece: u64,
}

impl Plan {
    /// What a host that sends is to do.
    pub fn to_send(settings: &SendSettings) -> Plan
        requires { IsHostWithin settings.now.host }
        ensures { result ≡ sends settings.now }
    {
        let host = &settings.host;
        Plan {
            setup: Setup {
                side: End::Sender,
                streams: host.streams,
                pace: pace_of(host.tick, host.tick_most),
                each: settings.each,
                batch: settings.batch,
                most: u64::MAX,
                spelling: Spelling {
                    hex: settings.hex,
                    json: host.json,
                },
            },
            limits: Limits {
                count: None,
                wait: in_microseconds(host.wait),
                lingers: false,
                sync: host.sync,
                stats: in_microseconds(host.stats),
            },
            piece: host.piece.unwrap_or(PIECE),
        }
    }

    /// What a host that receives is to do. It has no last packet of its own: at its end it waits a moment for its peer's.
    pub fn to_receive(settings: &ReceiveSettings) -> Plan
        requires { IsHostWithin settings.now.host }
        ensures { result ≡ receives settings.now }
    {
        let host = &settings.host;
        Plan {
            setup: Setup {
                side: End::Receiver,
                streams: host.streams,
                pace: pace_of(host.tick, host.tick_most),
                each: false,
                batch: false,
                most: settings.count.unwrap_or(u64::MAX),
                spelling: Spelling {
                    hex: false,
                    json: host.json,
                },
            },
            limits: Limits {
                count: settings.count,
                wait: in_microseconds(host.wait),
                lingers: true,
                sync: host.sync,
                stats: in_microseconds(host.stats),
            },
            piece: host.piece.unwrap_or(PIECE),
        }
    }
}

impl Plan {
    /// What its host wants of its journal.
    pub fn wanted(&self) -> Wanted
        ensures { result ≡ wanted self.now }
    {
        Wanted {
            side: self.setup.side,
            version: self.setup.new_version(),
            batch: self.setup.batch,
            sync: self.limits.sync,
            piece: self.piece,
        }
    }
}

/// The intervals of a host whose tick has so many microseconds: the first is one; the longest is 64, where it was not told.
fn pace_of(tick: u32, most: Option<u64>) -> Pace
    ensures { result ≡ pace_of tick most }
{
    let first = u64::from(tick);
    Pace {
        first,
        most: most.unwrap_or(first * 64),
    }
}

fn in_microseconds(seconds: Option<u64>) -> Option<u64>
    requires { IfSome seconds (λ s. s ≤ 1000000) }
    ensures { result ≡ microseconds seconds }
{
    match seconds {
        Some(seconds) => Some(seconds * SECOND),
        None => None,
    }
}
