//! How soon a stream is sent again.
ghost use Rattle.std.specs.Prelude.{◌≡◌};

/// The intervals between one sending and the next, in the unit in which its caller counts time: the first, and the one up to which each is twice
/// as long as the one before.
#[derive(Clone, Copy, PartialEq, Eq)]
pub struct Pace {
    /// The first interval.
    pub first: u64,
    /// The longest interval.
    pub most: u64,
}

impl Pace {
    ghost use Rattle.amo_window.specs.Timers.{in_ticks};

    /// 1, then 2, 4, and so on up to 64.
    pub fn in_ticks() -> Pace
        ensures { result ≡ in_ticks }
    {
        Pace { first: 1, most: 64 }
    }
}
