//! What an act of a host would do: looked up, with nothing done.
ghost use Rattle.std.specs.Prelude.{◌≡◌, IfOk, IfErr};
ghost use Rattle.amo_world.specs.History.{IsRight};
ghost use Rattle.amo_book.specs.Charge.{IsChargeOf};
ghost use Rattle.amo_book.specs.Foresee.{Foresees};

use crate::{Book, Charge, DriveFault, Pass};
use amo_core::{Act, Summary};
use amo_packet::MAX_PACKET;

/// What an act would do.
#[derive(Clone, Copy, Debug, PartialEq, Eq)]
pub enum Foreseen {
    /// It would leave the side in another state. So it stands now.
    Changes(Summary),
    /// It would leave the side as it is, and emit the packet that is so many bytes at the front of the buffer; or nothing.
    Keeps(Option<usize>),
}

impl Book {
    /// What an act would do at the charge's side, as it is after all that the pass has seen then. No event is made, and nothing changes.
    pub fn foresee(
        &self,
        pass: &mut Pass,
        charge: &Charge,
        act: &Act,
        out: &mut [u8; MAX_PACKET],
    ) -> Result<Foreseen, DriveFault>
        requires book { (pass.old.book ≡ self.now.id) × IsChargeOf self.now.id self.now.sides charge.now }
        ensures foreseen { IfOk result (Foresees pass.old pass.new charge.now act.now out.old out.new) }
        ensures right { IsRight pass.new.seen }
        ensures busy { IfErr result (λ fault. (fault ≡ DriveFault.Busy) × (pass.new ≡ pass.old) × (out.new ≡ out.old)) }
    {
        let number = pass.number;
        let seat = &mut pass.seat;
        let Some(automaton) = self.board.take_as_held(seat, charge.site, charge.mode) else {
            return Err(DriveFault::Busy);
        };
        self.board.study(seat, number, charge.site);
        let foreseen = automaton.foresee(act, out);
        self.board.put_back(seat, charge.site.place, automaton);
        Ok(foreseen)
    }
}
