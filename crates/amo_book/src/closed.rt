//! How a book ends.
ghost use Rattle.std.specs.Prelude.{◌≡◌, ◌<◌, IfOk, IfErr, Some, length, slice_get};
ghost use Rattle.amo_core.specs.declared.automaton.Automaton.{Automaton};
ghost use Rattle.amo_core.specs.Automaton.{mode_of};
ghost use Rattle.amo_book.specs.Book.{Each};
ghost use Rattle.amo_book.specs.Charge.{IsChargeOf};
ghost use Rattle.amo_book.specs.Closed.{IsOf, AreAll, Closes};

use crate::slot::Housed;
use crate::whole::are_all;
use crate::{Book, Charge, Pass};
use amo_core::Mode;
use std::marker::Model;

/// What is left of a book. Contracts see the count of its events and each side's last state.
#[derive(Drop)]
pub struct Closed {
    count: u64,
    states: Vec<Housed>,
}

impl Model for Closed {
    ghost use Rattle.amo_book.specs.Closed.{ClosedState};

    ghost Value = { ClosedState };

    ghost view = { λ c. record { count = c.count; states = c.states.items } };
}

/// Why a book was not closed: a pass or a charge of it is missing. All that was handed over comes back.
#[derive(Drop)]
pub struct CloseFault {
    pub book: Book,
    pub passes: Vec<Pass>,
    pub charges: Vec<Charge>,
}

impl CloseFault {
    /// The number of this fault.
    pub fn code(&self) -> u8
        ensures { result ≡ 32 }
    {
        32
    }
}

impl Book {
    /// Ends the book, once all its passes and charges are back.
    pub fn close(self, passes: Vec<Pass>, charges: Vec<Charge>) -> Result<Closed, CloseFault>
        requires passes { Each (IsOf self.id) passes.items }
        requires charges { Each (IsChargeOf self.id self.sides) charges.items }
        ensures closed { IfOk result (λ closed. Closes self passes.items closed × AreAll self passes.items charges.items) }
        ensures missing { IfErr result (λ fault. (AreAll self passes.items charges.items → ⊥) × (fault.book ≡ self) × (fault.passes ≡ passes) × (fault.charges ≡ charges)) }
    {
        let numbers = self.board.setup.passes;
        let sides = self.board.setup.sides.as_slice();
        if !are_all(passes.as_slice(), numbers, charges.as_slice(), sides) {
            return Err(CloseFault {
                book: self,
                passes,
                charges,
            });
        }
        let Book {
            board,
            index: _,
            room,
        } = self;
        let root = board.gather(passes);
        let (count, states) = board.end(root, room);
        Ok(Closed { count, states })
    }
}

impl Closed {
    /// How many events the history has, modulo 2^64.
    pub fn count(&self) -> u64
        ensures { result ≡ self.now.count }
    {
        self.count
    }

    /// The kind of the last mode of the side at a place, from 0, in the order of the book's sides. There is such a side.
    pub fn mode(&self, place: usize) -> Mode
        requires { place < length self.now.states }
        ensures { (state : Automaton) × (slice_get self.now.states place ≡ Some state) × (result ≡ mode_of state) }
    {
        self.states[place].mode()
    }
}
