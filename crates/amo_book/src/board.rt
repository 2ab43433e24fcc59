//! The table of a book, and the steps of its calls.
//! The atomic word 0 is the count. Each side has an atomic word that is its gate, and a slot that holds its automaton.
ghost use Rattle.std.specs.Prelude.{◌≡◌, ◌≢◌, ◌↔◌, ℕ, List, ◌+◌, ◌%◌, ◌^◌, ◌<◌, true, false, [], ◌∷◌, length, Some, None, IsTrue, IfSome, IfNone, slice_get};
ghost use Rattle.amo_core.specs.declared.automaton.Automaton.{Automaton};
ghost use Rattle.amo_core.specs.Automaton.{row, mode_of};
ghost use Rattle.amo_object.specs.declared.step.End.TheVariants as end_of;
ghost use Rattle.amo_world.specs.declared.event.Event.{Event};
ghost use Rattle.amo_book.specs.Pass.{event};
ghost use Rattle.amo_book.specs.Rule.{AllBelow, share, gate_of, slot_of};
ghost use Rattle.amo_book.specs.Plays.{Sat, IsAtRest, Took, Looks, Sees, Counts, view, witness, joined};
ghost use Rattle.amo_book.specs.Steps.{IsSame, IsPass, IsStateOf, Made, Studied, holding, released};
ghost use Rattle.amo_book.specs.Book.{Apart};
ghost use Rattle.amo_book.specs.Site.{IsSite};

use crate::plays::{Count, Counted, Free, Gather, Law, Look, Peopled, See, Tried, Try, Witness};
use crate::site::Site;
use crate::slot::Housed;
use crate::stride::{self, COUNT};
use crate::view::{Setup, View};
use amo_core::{Act, Mode, Reply};
use amo_object::End;
use atomic_table::{Seat, Table};
use std::alloc::Global;
use std::marker::Brand;
use std::snapshot::Snapshot;

mod closing;
mod opening;

/// A token of the table: what a pass or a charge steps with.
pub type Chair = Seat<Option<Housed>, View>;

/// The table, with what it was made of.
#[derive(Drop)]
pub struct Board {
    pub table: Table<Option<Housed>, View, Setup, Law, Global>,
    pub setup: Setup,
    pub ghost keyed: { table.shared.key ≡ setup },
    pub ghost sized: { (table.shared.table_id.words ≡ gate_of (length setup.sides.items)) × (table.shared.table_id.slots ≡ slot_of (length setup.sides.items)) },
    pub ghost few: { length setup.sides.items < 2 ^ 60 },
    pub ghost apart: { Apart setup.sides.items },
}

// The seven kinds of atomic step.
impl Board {
    /// Loads the count: the seat has then seen all that it had met.
    fn load_count<E: Peopled>(&self, seat: &mut Chair) -> u64
        requires own { seat.old.table_id ≡ self.now.table.shared.table_id }
        requires passes { E.passes ≡ self.now.setup.passes }
        ensures same { IsSame seat.old seat.new }
        ensures looks { Looks seat.old.me seat.new.me result }
        ensures ours { AllBelow E.passes seat.new.me.0.seen }
    {
        self.table.shared.load::<Look<E>>(seat, COUNT)
    }

    /// Loads the count while a side is held: the seat has then seen the history that left the side as it is.
    fn see<E: Tried>(&self, seat: &mut Chair, site: Site) -> u64
        requires own { seat.old.table_id ≡ self.now.table.shared.table_id }
        requires place { IsSite self.now.setup.sides.items site }
        requires side { (E.side ≡ site.side) × (E.stream ≡ site.stream) }
        requires held { (x : Automaton) × (seat.old.me.0.held ≡ Some (site.place, x)) }
        ensures same { IsSame seat.old seat.new }
        ensures sees { Sees E.side E.stream seat.old.me seat.new.me result }
    {
        self.table.shared.load::<See<E>>(seat, COUNT)
    }

    /// Tries the gate of a side once.
    fn try_gate<E: Tried>(&self, seat: &mut Chair, site: Site) -> bool
        requires own { seat.old.table_id ≡ self.now.table.shared.table_id }
        requires place { IsSite self.now.setup.sides.items site }
        requires side { (E.side ≡ site.side) × (E.stream ≡ site.stream) }
        requires rests { IsAtRest seat.old.me }
        ensures same { IsSame seat.old seat.new }
        ensures won { result ≡ true → Took E.side E.stream site.place seat.old.me seat.new.me }
        ensures lost { result ≡ false → seat.new.me ≡ seat.old.me }
    {
        self.table
            .shared
            .compare_exchange::<Try<E>>(seat, stride::gate_of(site.place), 0, 1)
            == 0
    }

    /// Moves the automaton out of its slot.
    fn take_state(&self, seat: &mut Chair, place: usize) -> Housed
        requires own { seat.old.table_id ≡ self.now.table.shared.table_id }
        requires place { place < length self.now.setup.sides.items }
        requires held { (x : Automaton) × (seat.old.me.1 ≡ (slot_of place, Some x) ∷ []) }
        ensures same { IsSame seat.old seat.new }
        ensures moved { (seat.old.me.1 ≡ (slot_of place, Some result) ∷ []) × (seat.new.me ≡ (seat.old.me.0, (slot_of place, None) ∷ [])) }
    {
        self.table
            .shared
            .exchange(seat, stride::slot_of(place), None)
            .unwrap()
    }

    /// Adds the event to the history, and 1 to the count.
    fn count<E: Counted>(
        &self,
        seat: &mut Chair,
        pass: usize,
        site: Site,
        act: &Snapshot<Act>,
        reply: &Reply,
    ) -> u64
        requires own { seat.old.table_id ≡ self.now.table.shared.table_id }
        requires place { IsSite self.now.setup.sides.items site }
        requires event { E.event ≡ event pass site.side site.stream act.now.value reply.now }
        requires held { (x : Automaton) × (made : List Event) × (seat.old.me.0.held ≡ Some (site.place, x)) × (seat.old.me.0.shares ≡ share pass made ∷ []) × ((row x act.now.value).reply ≡ Some reply.now) }
        ensures same { IsSame seat.old seat.new }
        ensures counts { Counts E.event seat.old.me seat.new.me result }
    {
        self.table.shared.fetch_add::<Count<E>>(seat, COUNT, 1)
    }

    /// Moves the automaton back into its slot.
    fn give_state(&self, seat: &mut Chair, place: usize, state: Housed)
        requires own { seat.old.table_id ≡ self.now.table.shared.table_id }
        requires place { place < length self.now.setup.sides.items }
        requires held { seat.old.me.1 ≡ (slot_of place, None) ∷ [] }
        ensures same { IsSame seat.old seat.new }
        ensures moved { seat.new.me ≡ (seat.old.me.0, (slot_of place, Some state) ∷ []) }
    {
        drop(
            self.table
                .shared
                .exchange(seat, stride::slot_of(place), Some(state)),
        );
    }

    /// Opens the gate.
    fn free_gate(&self, seat: &mut Chair, place: usize)
        requires own { seat.old.table_id ≡ self.now.table.shared.table_id }
        requires place { place < length self.now.setup.sides.items }
        requires held { (x : Automaton) × (seat.old.me.1 ≡ (slot_of place, Some x) ∷ []) × (seat.old.me.0.held ≡ Some (place, x)) }
        ensures same { IsSame seat.old seat.new }
        ensures freed { seat.new.me ≡ (view seat.old.me.0.seen seat.old.me.0.met seat.old.me.0.shares None, []) }
    {
        self.table
            .shared
            .store::<Free>(seat, stride::gate_of(place), 0);
    }
}

// What the calls are made of.
impl Board {
    /// Loads the count: the seat has then seen all that it had met, which are events of the book's passes.
    pub fn look(&self, seat: &mut Chair) -> u64
        requires { seat.old.table_id ≡ self.now.table.shared.table_id }
        ensures same { IsSame seat.old seat.new }
        ensures looks { Looks seat.old.me seat.new.me result }
        ensures ours { AllBelow self.now.setup.passes seat.new.me.0.seen }
    {
        self.load_count::<Brand>(seat)
    }

    /// Takes the automaton of a side, if its gate is free.
    pub fn take(&self, seat: &mut Chair, site: Site) -> Option<Housed>
        requires own { seat.old.table_id ≡ self.now.table.shared.table_id }
        requires place { IsSite self.now.setup.sides.items site }
        requires rests { IsAtRest seat.old.me }
        ensures same { IsSame seat.old seat.new }
        ensures taken { IfSome result (λ x. (seat.new.me ≡ holding site.place x seat.old.me) × IsStateOf site.side site.stream x) }
        ensures busy { IfNone result (seat.new.me ≡ seat.old.me) }
    {
        if !self.try_gate::<Brand>(seat, site) {
            return None;
        }
        Some(self.take_state(seat, site.place))
    }

    /// The same for a charge, which holds the mode that its side was left in. No client's call changes a sender's mode, so a
    /// sender is in it; that is looked at, since the rule of the table does not say it. A receiver may be in another, since a get changes its
    /// mode.
    pub fn take_as_held(&self, seat: &mut Chair, site: Site, held: Mode) -> Option<Housed>
        requires own { seat.old.table_id ≡ self.now.table.shared.table_id }
        requires place { IsSite self.now.setup.sides.items site }
        requires rests { IsAtRest seat.old.me }
        ensures same { IsSame seat.old seat.new }
        ensures taken { IfSome result (λ x. (seat.new.me ≡ holding site.place x seat.old.me) × IsStateOf site.side site.stream x) }
        ensures held { IfSome result (λ x. site.side ≡ end_of.Sender → mode_of x ≡ held) }
        ensures busy { IfNone result (seat.new.me ≡ seat.old.me) }
    {
        let automaton = self.take(seat, site)?;
        if !may_drive(site.side, held, automaton.mode()) {
            self.put_back(seat, site.place, automaton);
            return None;
        }
        Some(automaton)
    }

    /// Looks at the automaton of a side that is held: all that has happened to it was seen then.
    pub fn study(&self, seat: &mut Chair, pass: usize, site: Site)
        requires own { seat.old.table_id ≡ self.now.table.shared.table_id }
        requires place { IsSite self.now.setup.sides.items site }
        requires held { (x : Automaton) × (m : Sat) × IsPass pass m × (seat.old.me ≡ holding site.place x m) }
        ensures same { IsSame seat.old seat.new }
        ensures studied { (x : Automaton) (m : Sat) → IsPass pass m → seat.old.me ≡ holding site.place x m → Studied pass site.side site.stream site.place x m seat.new.me }
    {
        self.see::<Brand>(seat, site);
    }

    /// Gives the automaton home, and opens the gate.
    pub fn put_back(&self, seat: &mut Chair, place: usize, state: Housed)
        requires own { seat.old.table_id ≡ self.now.table.shared.table_id }
        requires place { place < length self.now.setup.sides.items }
        requires held { (seat.old.me.1 ≡ (slot_of place, None) ∷ []) × (seat.old.me.0.held ≡ Some (place, state)) }
        ensures same { IsSame seat.old seat.new }
        ensures released { seat.new.me ≡ released seat.old.me.0 }
    {
        self.give_state(seat, place, state);
        self.free_gate(seat, place);
    }

    /// Makes the event of an act that the automaton has done, and gives it home. The answer is the event's position.
    pub fn settle(
        &self,
        seat: &mut Chair,
        pass: usize,
        site: Site,
        act: &Snapshot<Act>,
        reply: &Reply,
        state: Housed,
    ) -> u64
        requires own { seat.old.table_id ≡ self.now.table.shared.table_id }
        requires place { IsSite self.now.setup.sides.items site }
        requires held { (x : Automaton) × (m : Sat) × IsPass pass m × (seat.old.me ≡ holding site.place x m)
            × (state ≡ (row x act.now.value).state) × ((row x act.now.value).reply ≡ Some reply.now) }
        ensures same { IsSame seat.old seat.new }
        ensures rests { IsPass pass seat.new.me }
        ensures made { (x : Automaton) (m : Sat) → IsPass pass m → seat.old.me ≡ holding site.place x m
            → Made pass m seat.new.me (event pass site.side site.stream act.now.value reply.now) x result }
    {
        let position = self.count::<Brand>(seat, pass, site, act, reply);
        self.put_back(seat, site.place, state);
        position
    }

    /// The seat looks, and has then seen all that the other had seen too.
    pub fn learn(&self, seat: &mut Chair, other: &mut Chair)
        requires { (seat.old.table_id ≡ self.now.table.shared.table_id) × (other.old.table_id ≡ self.now.table.shared.table_id) }
        ensures same { IsSame seat.old seat.new × IsSame other.old other.new × (other.new.me ≡ other.old.me) }
        ensures looks { (r : ℕ) × Looks (joined seat.old.me.0 (witness other.old.me.0), seat.old.me.1) seat.new.me r }
        ensures ours { AllBelow self.now.setup.passes seat.new.me.0.seen }
    {
        let note = self.witness(other);
        self.join(seat, note);
        self.look(seat);
    }

    /// A seat that has seen what this one has.
    pub fn witness(&self, seat: &mut Chair) -> Chair
        requires own { seat.old.table_id ≡ self.now.table.shared.table_id }
        ensures same { IsSame seat.old seat.new × (seat.new.me ≡ seat.old.me) }
        ensures witness { (result.table_id ≡ seat.old.table_id) × (result.me ≡ (witness seat.old.me.0, [])) }
    {
        self.table.shared.split_seat::<Witness>(seat)
    }

    /// The seat takes in another's shares, and meets what it had seen.
    pub fn join(&self, seat: &mut Chair, other: Chair)
        requires own { (seat.old.table_id ≡ self.now.table.shared.table_id) × (other.table_id ≡ self.now.table.shared.table_id) }
        requires rests { (other.me.1 ≡ []) × (other.me.0.held ≡ None) }
        ensures same { IsSame seat.old seat.new × (seat.new.me ≡ (joined seat.old.me.0 other.me.0, seat.old.me.1)) }
    {
        self.table.shared.join_seat::<Gather>(seat, other);
    }
}

/// Whether a charge that holds a mode may drive its side, which is found in this one.
fn may_drive(side: End, held: Mode, found: Mode) -> bool
    ensures { IsTrue result ↔ (side ≡ end_of.Sender → found ≡ held) }
{
    side == End::Receiver || found == held
}
