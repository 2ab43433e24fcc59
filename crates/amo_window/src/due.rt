//! The streams that are due.
ghost use Rattle.std.specs.Prelude.{◌≡◌};
ghost use Rattle.std.specs.Iterator.{YieldsFirst, item_count};

use crate::timers::Timer;
use std::iter::FusedIterator;
use std::marker::Model;

/// The streams whose time is set and has come, in their order. Contracts see the list of those that are left.
///
/// It goes over the timers once at most, as far as it is asked, and takes no memory.
#[derive(Drop)]
pub struct Due<'a> {
    pub(crate) timers: &'a [Timer],
    pub(crate) time: u64,
}

impl<'a> Model for Due<'a> {
    ghost use Rattle.std.specs.Prelude.{ℕ, List};

    ghost Value = { List ℕ };

    ghost use Rattle.amo_window.specs.Timers.{due};

    ghost view = { λ d. due d.time d.timers.now };
}

impl<'a> Iterator for Due<'a> {
    type Item = u32;

    ghost next_gives = { YieldsFirst (λ rest. rest) };

    ghost remaining = { item_count (λ rest. rest) };

    fn next(&mut self) -> Option<u32> {
        while let Some((timer, rest)) = self.timers.split_first() {
            self.timers = rest;
            if timer.is_due(self.time) {
                return Some(timer.stream);
            }
        }
        None
    }
}

impl<'a> FusedIterator for Due<'a> {}
