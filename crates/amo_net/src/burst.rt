//! Datagrams that are taken out of a channel at once.
ghost use Rattle.std.specs.Prelude.{◌≡◌, ◌≤◌, nat_lt, false, IfSome};

use crate::{Lossy, MAX_DATAGRAM};
use amo_object::End;
use amo_word::Words;

/// How many datagrams a burst holds at most.
const AT_ONCE: usize = 16;

/// How many bytes they have at most: those of four of the longest.
const ROOM: usize = 4 * MAX_DATAGRAM;

/// At most sixteen datagrams, in the order in which they are to be handed out. A datagram takes as much room as it has bytes.
#[derive(Drop)]
pub(crate) struct Burst {
    /// The bytes of all of them, one datagram behind the other.
    bytes: [u8; ROOM],
    /// How many of these bytes are taken.
    taken: usize,
    /// How many bytes each datagram has.
    lengths: [usize; AT_ONCE],
    /// How many datagrams there are.
    count: usize,
    /// How many datagrams were handed out.
    gone: usize,
    /// How many bytes those have.
    passed: usize,
}

impl Burst {
    pub(crate) fn new() -> Burst
        ensures { nat_lt result.gone result.count ≡ false }
    {
        Burst {
            bytes: [0; ROOM],
            taken: 0,
            lengths: [0; AT_ONCE],
            count: 0,
            gone: 0,
            passed: 0,
        }
    }

    /// Whether there are more to hand out.
    pub(crate) fn has_more(&self) -> bool
        ensures { result ≡ nat_lt self.now.gone self.now.count }
    {
        self.gone < self.count
    }

    /// Takes out of the channel what has come at this end, in place of what was there.
    pub(crate) fn refill<W: Words>(&mut self, channel: &mut Lossy<W>, at: End) {
        self.clear();
        'places: for place in &mut self.lengths {
            let Some(free) = self.bytes.get_mut(self.taken..) else {
                break;
            };
            let Some(room) = free.get_mut(..MAX_DATAGRAM) else {
                break;
            };
            let Ok(buffer) = <&mut [u8; MAX_DATAGRAM]>::try_from(room) else {
                break;
            };
            let Some(length) = channel.receive(at, buffer) else {
                break;
            };
            *place = length;
            self.taken = self.taken.saturating_add(length);
            self.count = self.count.saturating_add(1);
        }
    }

    /// The length of the next one, which now stands at the front of the buffer.
    pub(crate) fn hand_out(&mut self, buffer: &mut [u8; MAX_DATAGRAM]) -> Option<usize>
        ensures { IfSome result (λ n. n ≤ MAX_DATAGRAM) }
    {
        let bytes = self.next()?;
        let length = MAX_DATAGRAM.min(bytes.len());
        buffer[..length].copy_from_slice(&bytes[..length]);
        self.pass(length);
        Some(length)
    }

    /// The bytes of the next one.
    fn next(&self) -> Option<&[u8]> {
        if !self.has_more() {
            return None;
        }
        let length = self.lengths.get(self.gone)?;
        self.bytes.get(self.passed..)?.get(..*length)
    }

    /// The next one, of this length, was handed out.
    fn pass(&mut self, length: usize) {
        self.gone = self.gone.saturating_add(1);
        self.passed = self.passed.saturating_add(length);
    }

    fn clear(&mut self) {
        self.taken = 0;
        self.count = 0;
        self.gone = 0;
        self.passed = 0;
    }
}
