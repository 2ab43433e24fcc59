//! Short texts that grow at their front.
ghost use Rattle.std.specs.Prelude.{◌≡◌, ◌++◌, [], IfSome};
ghost use Rattle.std.specs.Fmt.{decimal};
ghost use Rattle.amo_text.specs.Hexadecimal.{hex};

use itoa::write_digits;
use std::marker::Model;

/// How many bytes there is room for: most lines are half as long.
const ROOM: usize = 256;

/// How many digits a number has at most.
const DIGITS: usize = 20;

/// A short text whose end is made first. So a number is written where it stays, and none of its parts takes a look whether there is memory. Contracts see its
/// bytes.
#[derive(Drop)]
pub(crate) struct Prepended {
    room: [u8; ROOM],
    start: usize,
}

impl Model for Prepended {
    ghost use Rattle.std.specs.Prelude.{List, ℕ, ◌≤◌, drop};

    ghost Value = { List ℕ };

    ghost invariant = { λ p. p.start ≤ 256 };

    ghost view = { λ p. drop p.start p.room };
}

impl Prepended {
    /// There is nothing yet.
    #[inline(always)]
    pub(crate) fn new() -> Prepended
        ensures { result ≡ [] }
    {
        Prepended {
            room: [0; ROOM],
            start: ROOM,
        }
    }

    /// Its bytes.
    #[inline(always)]
    pub(crate) fn bytes(&self) -> &[u8]
        ensures { result.now ≡ self.now }
    {
        &self.room[self.start..]
    }

    /// Puts these bytes in front, if there is room for them.
    #[inline(always)]
    pub(crate) fn put(&mut self, bytes: &[u8]) -> Option<()>
        ensures { IfSome result (λ _. self.new ≡ bytes.now ++ self.old) }
    {
        let start = self.start.checked_sub(bytes.len())?;
        self.room[start..self.start].copy_from_slice(bytes);
        self.start = start;
        Some(())
    }

    /// Puts the digits of this number in front, if there is room for the longest.
    #[inline(always)]
    pub(crate) fn put_decimal(&mut self, number: u64) -> Option<()>
        ensures { IfSome result (λ _. self.new ≡ decimal number ++ self.old) }
    {
        if self.start < DIGITS {
            return None;
        }
        self.start = write_digits(number, &mut self.room, self.start);
        Some(())
    }

    /// Puts the HEX of these bytes in front, if there is room for it.
    pub(crate) fn put_hex(&mut self, bytes: &[u8]) -> Option<()>
        ensures { IfSome result (λ _. self.new ≡ hex bytes.now ++ self.old) }
    {
        if bytes.is_empty() {
            return self.put(b"-");
        }
        let digits = bytes.len().checked_mul(2)?;
        let start = self.start.checked_sub(digits)?;
        // It fits, two digits a byte, and so does not fail.
        let _ = hex::encode_to_slice(bytes, &mut self.room[start..self.start]);
        self.start = start;
        Some(())
    }
}
