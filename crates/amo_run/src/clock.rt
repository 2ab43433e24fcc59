//! The moments at which a pump turns.
ghost use Rattle.std.specs.Prelude.{◌≡◌, ◌↔◌, ◌+◌, ◌⊎◌, ◌≢◌, IsTrue};
ghost use Rattle.amo_run.specs.Engine.{EndsMoment};

use crate::engine::Turn;
use amo_host::PumpFault;

/// So many datagrams a pump takes at one moment at most: as many as an end of a channel takes out at once.
pub const MOST_TAKEN: u32 = 16;

/// The clock of a pump. At one moment the pump takes datagrams that have come, so many at most, and then turns without any until no stream is
/// due. Only then the clock moves on. So neither datagrams nor the number of its streams keep one from being sent again.
#[derive(Clone, Copy, PartialEq, Eq)]
pub struct Clock {
    /// The moment, counted from 0.
    moment: u64,
    /// How many datagrams may still be taken at this moment.
    left: u32,
}

impl Clock {
    /// A clock at this moment.
    pub fn at(moment: u64) -> Clock
        ensures { result ≡ record { moment = moment; left = MOST_TAKEN } }
    {
        Clock {
            moment,
            left: MOST_TAKEN,
        }
    }

    /// The moment.
    pub fn moment(&self) -> u64
        ensures { result ≡ self.now.moment }
    {
        self.moment
    }

    /// Whether a datagram may be taken.
    pub fn may_take(&self) -> bool
        ensures { IsTrue result ↔ (self.now.left ≢ 0) }
    {
        self.left > 0
    }

    /// A datagram was taken.
    pub fn take(&mut self)
        ensures moment { self.new.moment ≡ self.old.moment }
        ensures fewer { self.old.left ≢ 0 → self.new.left + 1 ≡ self.old.left }
    {
        self.left = self.left.saturating_sub(1);
    }

    /// What came of a turn without a datagram.
    pub fn note(&mut self, turned: &Result<Turn, PumpFault>)
        ensures { (self.new.moment ≡ self.old.moment) ⊎ EndsMoment turned.now }
    {
        match turned {
            // More streams may be due.
            Ok(Turn { resent: true, .. }) => self.left = 0,
            // The side that is due, or is to start, is busy. Datagrams are taken meanwhile.
            Err(PumpFault::Busy) | Err(PumpFault::NoMemory) => self.left = MOST_TAKEN,
            Ok(_) | Err(PumpFault::NoWord) => *self = Clock::at(self.moment.saturating_add(1)),
        }
    }
}
