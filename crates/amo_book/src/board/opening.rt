//! How the table is made, and dealt out.
ghost use Rattle.std.specs.Prelude.{◌≡◌, ◌+◌, ◌^◌, ◌<◌, ◌≤◌, [], ◌∷◌, ℕ, IfOk, None, Some, length, slice_get, vec_capacity};
ghost use Rattle.amo_book.specs.Pass.{automaton_after};
ghost use Rattle.amo_book.specs.Rule.{Slot, fresh, first_view, first_slot, share, stride, Spaced};
ghost use Rattle.amo_book.specs.Plays.{view};
ghost use Rattle.amo_book.specs.Steps.{IsSame};
ghost use Rattle.amo_book.specs.Book.{Apart, AreLawful, Lists, AreFirstCharges, first_mode, first_pass};

use super::{Board, Chair};
use crate::index::site_at;
use crate::plays::Deal;
use crate::site::Site;
use crate::slot::Housed;
use crate::stride::{STRIDE, gate_of, slot_of};
use crate::view::Setup;
use crate::{Charge, Pass};
use amo_core::{Automaton, Mode, Receiver, Sender};
use amo_object::End;
use atomic_table::{Refused, Table};
use std::alloc::{AllocError, Global};

/// The automaton of a side at which nothing happened yet.
fn initial(site: Site) -> Automaton
    ensures { result ≡ automaton_after site.side site.stream [] }
{
    match site.side {
        End::Sender => Automaton::Sender(Sender::new(site.stream)),
        End::Receiver => Automaton::Receiver(Receiver::new(site.stream)),
    }
}

/// The mode of a side at which nothing happened yet.
fn first_mode(side: End) -> Mode
    ensures { result ≡ first_mode side }
{
    match side {
        End::Sender => Mode::Quiet,
        End::Receiver => Mode::Idle,
    }
}

/// Leaves the slots up to the next one that is used empty.
fn leave_room(slots: &mut Vec<Option<Housed>>)
    requires { length slots.old.items + stride ≤ vec_capacity slots.old + 1 }
    ensures long { length slots.new.items + 1 ≡ length slots.old.items + stride }
    ensures kept { (k : ℕ) (slot : Slot) → slice_get slots.old.items k ≡ Some slot → slice_get slots.new.items k ≡ Some slot }
    ensures room { vec_capacity slots.new ≡ vec_capacity slots.old }
{
    for _added in 1..STRIDE {
        slots.push_reserved(None);
    }
}

/// What the slots hold at first: each side's automaton, and nothing between.
fn slots(alloc: Global, sides: &[(End, u32)]) -> Result<Vec<Option<Housed>>, AllocError>
    requires { length sides.now < 2 ^ 60 }
    ensures { IfOk result (λ slots. Spaced (first_slot sides.now) (length sides.now) slots.items) }
{
    let n = sides.len();
    let mut slots = Vec::with_capacity(alloc, slot_of(n))?;
    for place in 0..n {
        let housed = Housed::new(alloc, initial(site_at(sides, place)))?;
        slots.push_reserved(Some(housed));
        leave_room(&mut slots);
    }
    Ok(slots)
}

impl Board {
    /// The board, and the seat that has the share of every pass.
    pub fn open(alloc: Global, setup: Setup) -> Result<(Board, Chair), AllocError>
        requires { Apart setup.sides.items }
        ensures { IfOk result (λ t. (t.0.setup ≡ setup) × (t.1.table_id ≡ t.0.table.shared.table_id) × (t.1.me ≡ (first_view setup.passes, []))) }
    {
        let slots = slots(alloc, setup.sides.as_slice())?;
        let words = vec![in alloc; 0u64; gate_of(setup.sides.len())]?;
        match Table::new(alloc, words.as_slice(), slots, &setup) {
            Ok((table, seat)) => Ok((Board { table, setup }, seat)),
            Err(Refused { slots: _ }) => Err(AllocError),
        }
    }

    /// Deals the passes, in the order of their numbers, into the room for them.
    pub fn deal_passes(&self, root: &mut Chair, passes: &mut Vec<Pass>)
        requires own { root.old.table_id ≡ self.now.table.shared.table_id }
        requires fresh { root.old.me ≡ (first_view self.now.setup.passes, []) }
        requires room { (passes.old.items ≡ []) × (self.now.setup.passes ≤ vec_capacity passes.old) }
        ensures same { IsSame root.old root.new }
        ensures dealt { Lists (first_pass self.now.table.shared.table_id) self.now.setup.passes passes.new.items }
    {
        for number in 0..self.setup.passes {
            let seat = self.deal(root, number, self.setup.passes - number - 1);
            passes.push_reserved(Pass { number, seat });
        }
    }

    /// Deals the charges, in the order of the sides, into the room for them.
    pub fn deal_charges(&self, root: &mut Chair, charges: &mut Vec<Charge>)
        requires own { root.old.table_id ≡ self.now.table.shared.table_id }
        requires room { (charges.old.items ≡ []) × (length self.now.setup.sides.items ≤ vec_capacity charges.old) }
        requires streams { AreLawful self.now.setup.sides.items }
        ensures same { IsSame root.old root.new }
        ensures dealt { AreFirstCharges self.now.table.shared.table_id self.now.setup.sides.items charges.new.items }
    {
        for place in 0..self.setup.sides.len() {
            let site = site_at(self.setup.sides.as_slice(), place);
            let seat = self.witness(root);
            charges.push_reserved(Charge {
                site,
                mode: first_mode(site.side),
                seat,
            });
        }
    }

    /// The first share that the opening's seat has left, in a seat of its own.
    fn deal(&self, seat: &mut Chair, pass: usize, left: usize) -> Chair
        requires own { seat.old.table_id ≡ self.now.table.shared.table_id }
        requires fresh { seat.old.me ≡ (view [] [] (fresh pass (left + 1)) None, []) }
        ensures same { IsSame seat.old seat.new × (seat.new.me ≡ (view [] [] (fresh (pass + 1) left) None, [])) }
        ensures dealt { (result.table_id ≡ seat.old.table_id) × (result.me ≡ (view [] [] (share pass [] ∷ []) None, [])) }
    {
        // They are for the proof: which share goes, and how many are left.
        let _ = (pass, left);
        self.table.shared.split_seat::<Deal>(seat)
    }
}
