//! A pump's calls that name a stream, or hand in a packet that was read. They are for a host that decides itself what is an event: it asks when a
//! stream is due, sends again without one what was sent before, and begins a handshake only where a message waits.
ghost use Rattle.std.specs.Prelude.{◌≡◌, ◌≢◌, ◌↔◌, ◌<◌, IsTrue, IfOk, IfErr, IsErrOf, IfSome, IfNone, OnErr, Contains, length, slice_get, Some};
ghost use Rattle.std.specs.Bool.{OnFalse};
ghost use Rattle.amo_packet.specs.Packet.{packet_of, body_of};
ghost use Rattle.amo_packet.specs.Grammar.{CanBeWritten, CarriesNoBytes};
ghost use Rattle.amo_world.specs.History.{IsRight};
ghost use Rattle.amo_host.specs.AtStream.{AreCalm, Delivers, FailsToDeliver, FindsAt, Foretells, HasMode, IsDue, IsNextDue, MayBegin, ResendsAt, StartFails, StartsAt, hastened, repeated};
ghost use Rattle.amo_host.specs.Host.{streams_of};
ghost use Rattle.amo_host.specs.Station.{IsStation, BelongTogether};
ghost use Rattle.amo_host.specs.Turn.{NoEvent, Nothing};

use crate::{Pump, PumpFault, Turned};
use amo_book::{Book, Foreseen, Pass};
use amo_core::{Act, Mode, Summary};
use amo_packet::{MAX_PACKET, Packet};
use amo_word::Words;

impl<W: Words + Drop> Pump<W> {
    /// The mode that the charge of this stream answered last, if there is one.
    pub fn mode_of(&self, stream: u32) -> Option<Mode>
        ensures found { IfSome result (HasMode self.now.host stream) }
        ensures absent { IfNone result (¬ (Contains (streams_of self.now.host.modes) stream)) }
    {
        let place = self.place_of(stream)?;
        Some(self.agenda.mode_in(place))
    }

    /// Whether no side waits for its peer.
    pub fn are_calm(&self) -> bool
        ensures { IsTrue result ↔ AreCalm self.now.host }
    {
        self.agenda.are_calm()
    }

    /// When a stream is to be sent again next. A side that holds a message waits for its client, and has nothing to send.
    pub fn next_due(&self) -> Option<u64>
        ensures { IsNextDue self.now.host result }
    {
        self.agenda.next_due()
    }

    /// Whether this stream is to be sent again now.
    pub fn is_due(&self, stream: u32, now: u64) -> bool
        ensures { IsTrue result ↔ IsDue self.now.host stream now }
    {
        let Some(place) = self.place_of(stream) else {
            return false;
        };
        match self.agenda.time_in(place) {
            Some(time) => time <= now,
            None => false,
        }
    }

    /// The packet of this stream's mode was sent again now, without an event: the next time comes twice as late. False, and nothing changed, where
    /// no charge is of this stream.
    pub fn repeat(&mut self, stream: u32, now: u64) -> bool
        ensures found { IsTrue result ↔ Contains (streams_of self.old.host.modes) stream }
        ensures repeated { IsTrue result → self.new ≡ repeated stream now self.old }
        ensures unchanged { OnFalse result (self.new ≡ self.old) }
        ensures station { IsStation self.new }
    {
        match self.place_of(stream) {
            Some(place) => {
                self.agenda.repeat(place, now);
                true
            }
            None => false,
        }
    }

    /// A peer is heard again: each stream that is to be sent again is so after its first interval, as if it had been sent now for the first time.
    pub fn hasten(&mut self, now: u64)
        ensures hastened { self.new ≡ hastened now self.old }
        ensures station { IsStation self.new }
    {
        self.agenda.hasten(now);
    }

    /// What an act would do at the charge of this stream, as [`Book::foresee`] tells it. No event is made.
    pub fn foresee(
        &self,
        book: &Book,
        pass: &mut Pass,
        stream: u32,
        act: &Act,
        out: &mut [u8; MAX_PACKET],
    ) -> Result<Option<Foreseen>, PumpFault>
        requires { BelongTogether book.now pass.old self.now }
        ensures foretold { IfOk result (Foretells self.now stream act.now pass.old pass.new out.old out.new) }
        ensures busy { IfErr result (λ fault. (fault ≡ PumpFault.Busy) × (pass.new ≡ pass.old) × (out.new ≡ out.old)) }
        ensures together { BelongTogether book.now pass.new self.now }
    {
        let Some(place) = self.place_of(stream) else {
            return Ok(None);
        };
        let foreseen = book.foresee(pass, &self.charges[place], act, out)?;
        Ok(Some(foreseen))
    }

    /// How this stream's side stands after all that the pass has seen then, if there is a charge of it. No event is made.
    pub fn look(
        &self,
        book: &Book,
        pass: &mut Pass,
        stream: u32,
    ) -> Result<Option<Summary>, PumpFault>
        requires { BelongTogether book.now pass.old self.now }
        ensures found { IfOk result (FindsAt self.now stream pass.old pass.new) }
        ensures busy { IfErr result (λ fault. (fault ≡ PumpFault.Busy) × (pass.new ≡ pass.old)) }
        ensures together { BelongTogether book.now pass.new self.now }
    {
        let Some(place) = self.place_of(stream) else {
            return Ok(None);
        };
        let summary = book.look(pass, &self.charges[place])?;
        Ok(Some(summary))
    }

    /// Emits the packet of this stream's mode again.
    pub fn resend(
        &mut self,
        book: &Book,
        pass: &mut Pass,
        now: u64,
        stream: u32,
        out: &mut [u8; MAX_PACKET],
    ) -> Result<Turned, PumpFault>
        requires { BelongTogether book.now pass.old self.old }
        ensures ok { IfOk result (ResendsAt stream now self.old self.new pass.old pass.new out.old out.new) }
        ensures busy { IfErr result (λ fault. Nothing self.old self.new pass.old pass.new out.old out.new × (fault ≡ PumpFault.Busy)) }
        ensures station { IsStation self.new × BelongTogether book.now pass.new self.new }
    {
        match self.place_of(stream) {
            None => Ok(Turned::Stranger),
            Some(place) => self.perform(book, pass, now, place, Act::Resend, out),
        }
    }

    /// Begins a handshake on this stream under the next word, if its sender is at rest and a permit is free; else there is nothing to do (Idle). That a
    /// message waits, its caller sees to: without one the event changes nothing. Where it fails no event was made, and its word is gone.
    pub fn start(
        &mut self,
        book: &Book,
        pass: &mut Pass,
        now: u64,
        stream: u32,
        out: &mut [u8; MAX_PACKET],
    ) -> Result<Turned, PumpFault>
        requires { BelongTogether book.now pass.old self.old }
        ensures ok { IfOk result (StartsAt W.to_come stream now self.old self.new pass.old pass.new out.old out.new) }
        ensures no_event { OnErr result (NoEvent self.old self.new pass.old pass.new out.old out.new) }
        ensures failed { IfErr result (StartFails W.to_come stream self.old self.new) }
        ensures station { IsStation self.new × BelongTogether book.now pass.new self.new }
    {
        let Some(place) = self.place_of(stream) else {
            return Ok(Turned::Stranger);
        };
        if !self.may_begin(place) {
            return Ok(Turned::Idle);
        }
        let word = self.draw()?;
        let start = self.start_under(word);
        self.perform(book, pass, now, place, start, out)
    }

    /// Delivers a packet, if it is for one of the charges: a needuid with the next word, any other with the word 0. Where it fails no event was
    /// made, and the word of a needuid is gone.
    #[tactic(auto, using(crate::proofs::StationLemmas::short_of_memory))]
    pub fn deliver(
        &mut self,
        book: &Book,
        pass: &mut Pass,
        now: u64,
        packet: &Packet<'_>,
        out: &mut [u8; MAX_PACKET],
    ) -> Result<Turned, PumpFault>
        requires together { BelongTogether book.now pass.old self.old }
        requires fits { CanBeWritten (body_of packet.now.body) }
        ensures ok { IfOk result (Delivers W.to_come (packet_of packet.now) now self.old self.new pass.old pass.new out.old out.new) }
        ensures no_event { OnErr result (NoEvent self.old self.new pass.old pass.new out.old out.new) }
        ensures failed { IfErr result (FailsToDeliver W.to_come (packet_of packet.now) self.old self.new) }
        ensures memory { IsErrOf result PumpFault.NoMemory → ¬ (CarriesNoBytes (body_of packet.now.body)) }
        ensures station { IsStation self.new × BelongTogether book.now pass.new self.new }
    {
        let Some(place) = self.addressed(packet) else {
            return Ok(Turned::Stranger);
        };
        let Ok(owned) = packet.copied(self.alloc) else {
            return Err(PumpFault::NoMemory);
        };
        let word = self.word_for(packet)?;
        self.perform(book, pass, now, place, Act::Deliver(owned, word), out)
    }

    // As in a turn: it reaches one field and tells that the pump is still one.

    /// Whether a handshake may begin in this place.
    fn may_begin(&self, place: usize) -> bool
        requires { place < length self.now.charges }
        ensures begin { IsTrue result ↔ MayBegin self.now.host place }
        ensures station { IsStation self.now }
    {
        self.agenda.may_begin(place)
    }
}
