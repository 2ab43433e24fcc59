//! How a side stands: looked up, with nothing done.
ghost use Rattle.std.specs.Prelude.{◌≡◌, IfOk, IfErr};
ghost use Rattle.amo_world.specs.History.{IsRight};
ghost use Rattle.amo_book.specs.Charge.{IsChargeOf};
ghost use Rattle.amo_book.specs.Look.{Finds};

use crate::{Book, Charge, DriveFault, Pass};
use amo_core::Summary;

impl Book {
    /// How the charge's side stands after all that the pass has seen then. No event is made, and nothing changes.
    pub fn look(&self, pass: &mut Pass, charge: &Charge) -> Result<Summary, DriveFault>
        requires book { (pass.old.book ≡ self.now.id) × IsChargeOf self.now.id self.now.sides charge.now }
        ensures finds { IfOk result (Finds pass.old pass.new charge.now) }
        ensures right { IsRight pass.new.seen }
        ensures busy { IfErr result (λ fault. (fault ≡ DriveFault.Busy) × (pass.new ≡ pass.old)) }
    {
        let number = pass.number;
        let seat = &mut pass.seat;
        let Some(automaton) = self.board.take_as_held(seat, charge.site, charge.mode) else {
            return Err(DriveFault::Busy);
        };
        self.board.study(seat, number, charge.site);
        let summary = automaton.summary();
        self.board.put_back(seat, charge.site.place, automaton);
        Ok(summary)
    }
}
