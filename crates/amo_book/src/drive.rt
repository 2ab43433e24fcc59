//! The acts of hosts: each drives the side of a charge.
ghost use Rattle.std.specs.Prelude.{◌≡◌, ℕ, List, Some, None, IfOk, IfErr, IsErrOf};
ghost use Rattle.amo_object.specs.declared.step.End.TheVariants as end_of;
ghost use Rattle.amo_packet.specs.Packet.{packet_of, body_of};
ghost use Rattle.amo_packet.specs.Grammar.{CanBeWritten, CarriesNoBytes};
ghost use Rattle.amo_core.specs.declared.act.Act.TheVariants as act;
ghost use Rattle.amo_core.specs.declared.reply.Reply.TheVariants as reply;
ghost use Rattle.amo_core.specs.declared.automaton.Automaton.{Automaton};
ghost use Rattle.amo_core.specs.Automaton.{row, mode_of, Writes};
ghost use Rattle.amo_world.specs.History.{IsRight};
ghost use Rattle.amo_book.specs.Charge.{IsChargeOf};
ghost use Rattle.amo_book.specs.Plays.{Sat};
ghost use Rattle.amo_book.specs.Steps.{IsSame, IsPass, IsStateOf, holding, pass_of};
ghost use Rattle.amo_book.specs.Drive.{Suits, Driven, DrivenSilently, Unchanged};

use crate::board::Chair;
use crate::slot::Housed;
use crate::{Book, Charge, DriveFault, Pass};
use amo_core::{Act, Mode, Outcome, Reply};
use amo_packet::{MAX_PACKET, Packet};
use std::alloc::Global;
use std::snapshot::Snapshot;

/// What an act of a host did.
#[derive(Clone, Copy, Debug, PartialEq, Eq)]
pub struct Done {
    /// The event's place in the history, from 0 and modulo 2^64.
    pub position: u64,
    /// How many bytes at the front of the buffer are the emitted packet, or none where nothing is emitted.
    pub length: Option<usize>,
    /// The kind of the side's mode after the event.
    pub mode: Mode,
}

impl Book {
    /// Begins a handshake under a word, if the sender is at rest and a message waits.
    pub fn start(
        &self,
        pass: &mut Pass,
        charge: &mut Charge,
        word: u64,
        out: &mut [u8; MAX_PACKET],
    ) -> Result<Done, DriveFault>
        requires book { (pass.old.book ≡ self.now.id) × IsChargeOf self.now.id self.now.sides charge.old }
        requires sender { charge.old.side ≡ end_of.Sender }
        ensures driven { IfOk result (Driven pass.old pass.new charge.old charge.new (act.Start word) out.old out.new) }
        ensures right { IsRight pass.new.seen }
        ensures busy { IfErr result (λ fault. (fault ≡ DriveFault.Busy) × Unchanged pass.old pass.new charge.old charge.new out.old out.new) }
    {
        self.perform(pass, charge, Act::Start(word), out)
    }

    /// Begins a handshake under a word for the first messages that wait, at most [`MAX_BATCH`](amo_packet::MAX_BATCH), which travel together, if
    /// the sender is at rest and a message waits.
    pub fn start_batch(
        &self,
        pass: &mut Pass,
        charge: &mut Charge,
        word: u64,
        out: &mut [u8; MAX_PACKET],
    ) -> Result<Done, DriveFault>
        requires book { (pass.old.book ≡ self.now.id) × IsChargeOf self.now.id self.now.sides charge.old }
        requires sender { charge.old.side ≡ end_of.Sender }
        ensures driven { IfOk result (Driven pass.old pass.new charge.old charge.new (act.Batch word) out.old out.new) }
        ensures right { IsRight pass.new.seen }
        ensures busy { IfErr result (λ fault. (fault ≡ DriveFault.Busy) × Unchanged pass.old pass.new charge.old charge.new out.old out.new) }
    {
        self.perform(pass, charge, Act::Batch(word), out)
    }

    /// Emits the packet of the mode, if it has one.
    pub fn resend(
        &self,
        pass: &mut Pass,
        charge: &mut Charge,
        out: &mut [u8; MAX_PACKET],
    ) -> Result<Done, DriveFault>
        requires book { (pass.old.book ≡ self.now.id) × IsChargeOf self.now.id self.now.sides charge.old }
        ensures driven { IfOk result (Driven pass.old pass.new charge.old charge.new act.Resend out.old out.new) }
        ensures right { IsRight pass.new.seen }
        ensures busy { IfErr result (λ fault. (fault ≡ DriveFault.Busy) × Unchanged pass.old pass.new charge.old charge.new out.old out.new) }
    {
        self.perform(pass, charge, Act::Resend, out)
    }

    /// Delivers a packet of the charge's stream, with the word for an accept. Memory is asked for only where a message of the packet has a
    /// byte, for all its messages, and before anything happens.
    pub fn deliver(
        &self,
        alloc: Global,
        pass: &mut Pass,
        charge: &mut Charge,
        packet: &Packet<'_>,
        word: u64,
        out: &mut [u8; MAX_PACKET],
    ) -> Result<Done, DriveFault>
        requires book { (pass.old.book ≡ self.now.id) × IsChargeOf self.now.id self.now.sides charge.old }
        requires stream { packet.now.stream ≡ charge.old.stream }
        requires fits { CanBeWritten (body_of packet.now.body) }
        ensures driven { IfOk result (Driven pass.old pass.new charge.old charge.new (act.Deliver (packet_of packet.now) word) out.old out.new) }
        ensures right { IsRight pass.new.seen }
        ensures refused { IfErr result (λ fault. Unchanged pass.old pass.new charge.old charge.new out.old out.new) }
        ensures memory { IsErrOf result DriveFault.NoMemory → ¬ (CarriesNoBytes (body_of packet.now.body)) }
    {
        pass.right();
        let Ok(owned) = packet.copied(alloc) else {
            return Err(DriveFault::NoMemory);
        };
        self.perform(pass, charge, Act::Deliver(owned, word), out)
    }

    /// The side's host goes down, and forgets everything.
    pub fn crash(&self, pass: &mut Pass, charge: &mut Charge) -> Result<Done, DriveFault>
        requires book { (pass.old.book ≡ self.now.id) × IsChargeOf self.now.id self.now.sides charge.old }
        ensures driven { IfOk result (DrivenSilently pass.old pass.new charge.old charge.new act.Crash) }
        ensures right { IsRight pass.new.seen }
        ensures busy { IfErr result (λ fault. (fault ≡ DriveFault.Busy) × (pass.new ≡ pass.old) × (charge.new ≡ charge.old)) }
    {
        self.perform_silently(pass, charge, Act::Crash)
    }

    /// The side's host is up again.
    pub fn recover(&self, pass: &mut Pass, charge: &mut Charge) -> Result<Done, DriveFault>
        requires book { (pass.old.book ≡ self.now.id) × IsChargeOf self.now.id self.now.sides charge.old }
        ensures driven { IfOk result (DrivenSilently pass.old pass.new charge.old charge.new act.Recover) }
        ensures right { IsRight pass.new.seen }
        ensures busy { IfErr result (λ fault. (fault ≡ DriveFault.Busy) × (pass.new ≡ pass.old) × (charge.new ≡ charge.old)) }
    {
        self.perform_silently(pass, charge, Act::Recover)
    }

    /// Does an act of a host at the charge's side, if its gate is free. Each call above is this one with its act.
    pub fn perform(
        &self,
        pass: &mut Pass,
        charge: &mut Charge,
        act: Act,
        out: &mut [u8; MAX_PACKET],
    ) -> Result<Done, DriveFault>
        requires book { (pass.old.book ≡ self.now.id) × IsChargeOf self.now.id self.now.sides charge.old }
        requires suits { Suits charge.old act }
        ensures driven { IfOk result (Driven pass.old pass.new charge.old charge.new act out.old out.new) }
        ensures right { IsRight pass.new.seen }
        ensures busy { IfErr result (λ fault. (fault ≡ DriveFault.Busy) × Unchanged pass.old pass.new charge.old charge.new out.old out.new) }
    {
        let number = pass.number;
        let seat = &mut pass.seat;
        let Some(mut automaton) = self.board.take_as_held(seat, charge.site, charge.mode) else {
            return Err(DriveFault::Busy);
        };
        let told = Snapshot::of(&act);
        let Outcome { length, .. } = automaton.step(act, out);
        Ok(self.finish(number, seat, charge, &told, automaton, length))
    }

    /// Does an act that emits nothing, and so needs no buffer.
    #[inline(always)]
    fn perform_silently(
        &self,
        pass: &mut Pass,
        charge: &mut Charge,
        act: Act,
    ) -> Result<Done, DriveFault>
        requires book { (pass.old.book ≡ self.now.id) × IsChargeOf self.now.id self.now.sides charge.old }
        requires suits { Suits charge.old act }
        requires silent { (x : Automaton) → (row x act).emitted ≡ None }
        ensures driven { IfOk result (DrivenSilently pass.old pass.new charge.old charge.new act) }
        ensures right { IsRight pass.new.seen }
        ensures busy { IfErr result (λ fault. (fault ≡ DriveFault.Busy) × (pass.new ≡ pass.old) × (charge.new ≡ charge.old)) }
    {
        let number = pass.number;
        let seat = &mut pass.seat;
        let Some(mut automaton) = self.board.take_as_held(seat, charge.site, charge.mode) else {
            return Err(DriveFault::Busy);
        };
        let told = Snapshot::of(&act);
        automaton.advance(act);
        Ok(self.finish(number, seat, charge, &told, automaton, None))
    }

    /// Makes the event of an act that the automaton has done, gives it home, and leaves the charge its mode.
    fn finish(
        &self,
        number: usize,
        seat: &mut Chair,
        charge: &mut Charge,
        act: &Snapshot<Act>,
        automaton: Housed,
        length: Option<usize>,
    ) -> Done
        requires own { (seat.old.table_id ≡ self.now.id) × IsChargeOf self.now.id self.now.sides charge.old }
        requires held { (x : Automaton) × (m : Sat) × IsPass number m × (seat.old.me ≡ holding charge.old.place x m)
            × (automaton ≡ (row x act.now.value).state) × ((row x act.now.value).reply ≡ Some reply.Done) }
        ensures same { IsSame seat.old seat.new }
        ensures rests { IsPass number seat.new.me }
        ensures length { result.length ≡ length }
        ensures driven { (x : Automaton) (m : Sat) (old new : List ℕ) → IsPass number m → seat.old.me ≡ holding charge.old.place x m
            → automaton ≡ (row x act.now.value).state → Writes (row x act.now.value).emitted old new length
            → (charge.old.side ≡ end_of.Sender → mode_of x ≡ charge.old.mode)
            → Driven (pass_of seat.old.table_id number m) (pass_of seat.new.table_id number seat.new.me) charge.old charge.new act.now.value old new result }
    {
        let mode = automaton.mode();
        let position = self
            .board
            .settle(seat, number, charge.site, act, &Reply::Done, automaton);
        charge.mode = mode;
        Done {
            position,
            length,
            mode,
        }
    }
}
