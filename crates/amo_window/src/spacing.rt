//! Where the timer of a stream is looked for first.

/// The number of which a place has so many parts.
const PARTS: u64 = 1 << 32;

/// How far apart some streams are, as the second is from the first. Those of a host, and those that one of its pumps has, are at equal distances: so the
/// place of each is known, and no search for it has branches that a processor foresees only by chance.
#[derive(Clone, Copy)]
pub(crate) struct Spacing {
    /// How many of its parts a place gets for each number. One more than a quotient: what that cuts off would else add up to a part too few.
    parts: u64,
}

impl Spacing {
    /// The spacing of the first two of these streams.
    pub fn of(streams: &[u32]) -> Spacing {
        let distance = match streams {
            [first, second, ..] => second.saturating_sub(*first).max(1),
            _ => 1,
        };
        Spacing {
            parts: PARTS / u64::from(distance) + 1,
        }
    }

    /// How many places a stream is behind another, if all follow at this distance. Otherwise it is any number.
    pub fn places_between(self, first: u32, stream: u32) -> usize {
        let distance = u64::from(stream.wrapping_sub(first));
        (distance.wrapping_mul(self.parts) / PARTS) as usize
    }
}
