//! Pumps: how one is made, crashes and recovers, and ends.
ghost use Rattle.std.specs.Prelude.{◌≡◌, ◌≢◌, ◌<◌, ℕ, IfOk, IfErr, IsErrOf, IfSome, IfNone, Some, length, map, slice_get, Contains};
ghost use Rattle.amo_core.specs.declared.mode.Mode.{Mode};
ghost use Rattle.amo_core.specs.declared.act.Act.TheVariants as act;
ghost use Rattle.amo_book.specs.Book.{Each};
ghost use Rattle.amo_book.specs.Charge.{ChargeState, IsChargeOf};
ghost use Rattle.amo_book.specs.Drive.{DrivenSilently, Suits};
ghost use Rattle.amo_host.specs.declared.turned.Kind.TheVariants as kind;
ghost use Rattle.amo_host.specs.Charges.{CanBeDriven, IsAtRest, IsOfSide, stream_mode_of};
ghost use Rattle.amo_host.specs.Handshakes.{open_count};
ghost use Rattle.amo_host.specs.Host.{IsHost, paced, streams_of};
ghost use Rattle.amo_host.specs.Kind.{IsKindOf, IsDownOrUp};
ghost use Rattle.amo_host.specs.Modes.{MayOpen};
ghost use Rattle.amo_host.specs.Station.{IsStation, BelongTogether, Begins, BeginsPaced, Refuses};
ghost use Rattle.amo_host.specs.Turn.{Nothing, Performed, GoesDownOrUp};

use crate::agenda::Agenda;
use crate::charges::{can_be_driven, modes_of};
use crate::turned::is_resend;
use crate::{Kind, NewPumpFault, PumpFault, Turned};
use amo_book::{Book, Charge, Done, DriveFault, Pass};
use amo_core::Act;
use amo_packet::MAX_PACKET;
use amo_window::{Pace, WindowFault};
use amo_word::Words;
use std::alloc::Global;
use std::marker::Model;

/// Drives the charges of one host. Contracts see the host, the charges, and the words that are still to come.
///
/// The room is made once, by [`Pump::new`]. Only a delivery of a message with a byte takes memory later.
#[derive(Drop)]
pub struct Pump<W> {
    pub(crate) alloc: Global,
    pub(crate) charges: Vec<Charge>,
    pub(crate) agenda: Agenda,
    pub(crate) words: W,
    pub(crate) batches: bool,
}

impl<W> Model for Pump<W> {
    ghost use Rattle.amo_host.specs.Station.{Station, IsStation};

    ghost Value = { Station W };

    ghost view = { λ p. record { host = p.agenda; charges = p.charges.items; words = p.words; batches = p.batches } };

    ghost invariant = { λ p. IsStation (record { host = p.agenda; charges = p.charges.items; words = p.words; batches = p.batches }) };
}

impl<W: Words + Drop> Pump<W> {
    /// A pump of these charges, which are as their book gave them out. They are of one side, and rise by stream; the window is 1
    /// to 64. A fault hands charges and words back.
    pub fn new(
        alloc: Global,
        charges: Vec<Charge>,
        window: usize,
        words: W,
    ) -> Result<Pump<W>, NewPumpFault<W>>
        requires { Each IsAtRest charges.items }
        ensures begins { IfOk result (Begins charges.items window words) }
        ensures refused { IfErr result (Refuses charges.items window words) }
    {
        Pump::paced(alloc, charges, window, words, Pace::in_ticks())
    }

    /// The same, with timers of this pace. Times are of the unit in which it is counted.
    pub fn paced(
        alloc: Global,
        charges: Vec<Charge>,
        window: usize,
        words: W,
        pace: Pace,
    ) -> Result<Pump<W>, NewPumpFault<W>>
        requires { Each IsAtRest charges.items }
        ensures begins { IfOk result (BeginsPaced pace charges.items window words) }
        ensures refused { IfErr result (Refuses charges.items window words) }
    {
        if !can_be_driven(&charges, window) {
            return Err(NewPumpFault::Limits(charges, words));
        }
        match agenda_of(alloc, &charges, window, pace) {
            Ok(agenda) => Ok(Pump {
                alloc,
                charges,
                agenda,
                words,
                batches: false,
            }),
            Err(WindowFault::NoMemory) => Err(NewPumpFault::NoMemory(charges, words)),
            Err(WindowFault::Limits) => unreachable!(),
        }
    }

    /// The side of this stream goes down, and forgets everything.
    pub fn crash(
        &mut self,
        book: &Book,
        pass: &mut Pass,
        now: u64,
        stream: u32,
    ) -> Result<Turned, PumpFault>
        requires { BelongTogether book.now pass.old self.old }
        ensures ok { IfOk result (GoesDownOrUp act.Crash kind.Crash stream now self.old self.new pass.old pass.new) }
        ensures busy { IfErr result (λ fault. (self.new ≡ self.old) × (pass.new ≡ pass.old) × (fault ≡ PumpFault.Busy)) }
        ensures station { IsStation self.new × BelongTogether book.now pass.new self.new }
    {
        self.go(book, pass, now, stream, Act::Crash)
    }

    /// The side of this stream is up again.
    pub fn recover(
        &mut self,
        book: &Book,
        pass: &mut Pass,
        now: u64,
        stream: u32,
    ) -> Result<Turned, PumpFault>
        requires { BelongTogether book.now pass.old self.old }
        ensures ok { IfOk result (GoesDownOrUp act.Recover kind.Recover stream now self.old self.new pass.old pass.new) }
        ensures busy { IfErr result (λ fault. (self.new ≡ self.old) × (pass.new ≡ pass.old) × (fault ≡ PumpFault.Busy)) }
        ensures station { IsStation self.new × BelongTogether book.now pass.new self.new }
    {
        self.go(book, pass, now, stream, Act::Recover)
    }

    /// From now on the words are these: those of the next incarnation.
    pub fn renew(&mut self, words: W)
        ensures renewed { self.new ≡ record self.old { words = words } }
        ensures station { IsStation self.new }
    {
        self.words = words;
    }

    /// From now on a start is for as many messages as wait, at most [`MAX_BATCH`](amo_packet::MAX_BATCH), which travel together; or for one
    /// message again.
    pub fn batches(&mut self, together: bool)
        ensures set { self.new ≡ record self.old { batches = together } }
        ensures station { IsStation self.new }
    {
        self.batches = together;
    }

    /// Gives all permits back, and hands the charges out, in their order.
    pub fn finish(self) -> Vec<Charge>
        ensures { result.items ≡ self.charges }
    {
        let Pump {
            alloc: _,
            charges,
            agenda,
            words,
            batches: _,
        } = self;
        drop(agenda);
        drop(words);
        charges
    }

    /// Does this act, a crash or a recovery, at the charge of this stream.
    fn go(
        &mut self,
        book: &Book,
        pass: &mut Pass,
        now: u64,
        stream: u32,
        act: Act,
    ) -> Result<Turned, PumpFault>
        requires together { BelongTogether book.now pass.old self.old }
        requires act { IsDownOrUp act }
        ensures ok { (k : Kind) → IsKindOf act k → IfOk result (GoesDownOrUp act k stream now self.old self.new pass.old pass.new) }
        ensures busy { IfErr result (λ fault. (self.new ≡ self.old) × (pass.new ≡ pass.old) × (fault ≡ PumpFault.Busy)) }
        ensures station { IsStation self.new × BelongTogether book.now pass.new self.new }
    {
        let Some(place) = self.place_of(stream) else {
            return Ok(Turned::Stranger);
        };
        let charge = &mut self.charges[place];
        let side = charge.side();
        let kind = Kind::of(&act);
        let done = go_down_or_up(book, pass, charge, act)?;
        self.agenda.note(place, false, done.mode, now);
        Ok(Turned::Did(side, stream, kind, done))
    }

    // It reaches one field and tells that the pump is still one, so that its callers speak of whole pumps alone.
    /// The place of the charge of this stream.
    pub(crate) fn place_of(&self, stream: u32) -> Option<usize>
        ensures found { IfSome result (λ place. slice_get (streams_of self.now.host.modes) place ≡ Some stream) }
        ensures within { IfSome result (λ place. place < length self.now.charges) }
        ensures absent { IfNone result (¬ (Contains (streams_of self.now.host.modes) stream)) }
        ensures station { IsStation self.now }
    {
        self.agenda.place_of(stream)
    }

    /// Performs this act at the charge in this place, and notes what it answered.
    pub(crate) fn perform(
        &mut self,
        book: &Book,
        pass: &mut Pass,
        now: u64,
        place: usize,
        act: Act,
        out: &mut [u8; MAX_PACKET],
    ) -> Result<Turned, PumpFault>
        requires together { BelongTogether book.now pass.old self.old }
        requires place { place < length self.old.charges }
        requires suits { (c : ChargeState) → slice_get self.old.charges place ≡ Some c → Suits c act }
        requires free { (was : Mode) → MayOpen act was → open_count self.old.host.permits < self.old.host.limit }
        ensures done { IfOk result (Performed self.old self.new pass.old pass.new out.old out.new place now act) }
        ensures busy { IfErr result (λ fault. Nothing self.old self.new pass.old pass.new out.old out.new × (fault ≡ PumpFault.Busy)) }
        ensures words { self.new.words ≡ self.old.words }
        ensures station { IsStation self.new × BelongTogether book.now pass.new self.new }
    {
        let charge = &mut self.charges[place];
        let side = charge.side();
        let stream = charge.stream();
        let kind = Kind::of(&act);
        let resent = is_resend(&act);
        let done = book.perform(pass, charge, act, out)?;
        self.agenda.note(place, resent, done.mode, now);
        Ok(Turned::Did(side, stream, kind, done))
    }
}

/// Does this act, a crash or a recovery, at a charge. It emits nothing, so no buffer is made.
fn go_down_or_up(
    book: &Book,
    pass: &mut Pass,
    charge: &mut Charge,
    act: Act,
) -> Result<Done, DriveFault>
    requires book { (pass.old.book ≡ book.now.id) × IsChargeOf book.now.id book.now.sides charge.old }
    requires act { IsDownOrUp act }
    ensures driven { IfOk result (DrivenSilently pass.old pass.new charge.old charge.new act) }
    ensures busy { IfErr result (λ fault. (fault ≡ DriveFault.Busy) × (pass.new ≡ pass.old) × (charge.new ≡ charge.old)) }
{
    match act {
        Act::Crash => book.crash(pass, charge),
        Act::Recover => book.recover(pass, charge),
        _ => unreachable!(),
    }
}

/// What a host knows of these charges at first.
fn agenda_of(
    alloc: Global,
    charges: &[Charge],
    window: usize,
    pace: Pace,
) -> Result<Agenda, WindowFault>
    requires lawful { CanBeDriven charges.now window }
    requires rest { Each IsAtRest charges.now }
    ensures begins { IfOk result (λ h. (h ≡ paced pace h.side (map stream_mode_of charges.now) window) × IsHost h) }
    ensures side { IfOk result (λ h. Each (IsOfSide h.side) charges.now) }
    ensures limits { ¬ (IsErrOf result WindowFault.Limits) }
{
    let side = charges[0].side();
    let modes = modes_of(alloc, charges)?;
    Agenda::paced(alloc, side, modes, window, pace)
}
