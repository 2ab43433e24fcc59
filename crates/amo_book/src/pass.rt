//! Passes.
ghost use Rattle.std.specs.Prelude.{◌≡◌};
ghost use Rattle.amo_world.specs.History.{IsRight};

use crate::board::Chair;
use std::marker::Model;

/// A caller's token, which has no bytes but its number. Contracts see its book, its number, and the history that it has seen:
/// all that stood in the book's history when its last call answered. Its own events are those that bear its number.
#[derive(Drop)]
pub struct Pass {
    pub(crate) number: usize,
    pub(crate) seat: Chair,
}

impl Model for Pass {
    ghost use Rattle.amo_book.specs.Pass.{PassState};
    ghost use Rattle.amo_book.specs.Steps.{IsPass};

    ghost Value = { PassState };

    ghost view = { λ p. record { book = p.seat.table_id; number = p.number; seen = p.seat.me.0.seen } };

    ghost invariant = { λ p. IsPass p.number p.seat.me };
}

impl Pass {
    /// Its number, from 0. What it has seen is a right history.
    pub fn number(&self) -> usize
        ensures number { result ≡ self.now.number }
        ensures right { IsRight self.now.seen }
    {
        self.number
    }

    /// What holds of every pass: it has seen a right history. It does nothing.
    pub(crate) fn right(&self)
        ensures { IsRight self.now.seen }
    {
        // What holds of every value is known once a field of it is read.
        let _number = self.number;
    }
}
