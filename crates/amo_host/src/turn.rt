//! A pump's turns.
ghost use Rattle.std.specs.Prelude.{◌≡◌, ◌≢◌, ◌<◌, ◌+◌, ℕ, IfOk, IfErr, OnErr, IfSome, IfNone, Some, None, length};
ghost use Rattle.std.specs.Borrow.{Bor};
ghost use Rattle.amo_packet.specs.Packet.{packet_of, body_of};
ghost use Rattle.amo_host.specs.Host.{IsNext, IsFor};
ghost use Rattle.amo_host.specs.Kind.{start_under};
ghost use Rattle.amo_host.specs.Station.{IsStation, BelongTogether, moved_past};
ghost use Rattle.amo_host.specs.Turn.{Turns, TurnsAlone, TurnsWith, Fails, FailsAlone, FailsWith, DeliveryFails, NoEvent, Drew, DrewFor, Lacks, BringsBytes};

use crate::agenda::Task;
use crate::{Pump, PumpFault, Turned};
use amo_book::{Book, Pass};
use amo_core::Act;
use amo_packet::{Body, MAX_PACKET, NEWEST_VERSION, Packet, read};
use amo_word::Words;

impl<W: Words + Drop> Pump<W> {
    /// One turn, which makes at most one event. With a datagram, it is read, and delivered if it is a packet for one of the charges:
    /// a needuid with the next word, any other packet with the word 0. Without one, the first stream that is due is resent, or
    /// else the next quiet charge is started with the next word, if a permit is free. What is emitted stands at the front of the buffer.
    ///
    /// A turn with a datagram resends nothing, and one without resends for the first stream that is due, and no other. So a caller turns without
    /// input at one `now` until nothing is due before its clock moves on, and lets due resends go between datagrams too; else later streams
    /// wait for ever, and all of them in a flood.
    ///
    /// Where the turn fails no event was made, and there was something to do. A start that failed is not the next one any more, and its word
    /// is gone, as is a needuid's; without a word, and at any other failure, all is as before. Only the message of a packet for one of the
    /// charges needs memory, if it has a byte.
    pub fn turn(
        &mut self,
        book: &Book,
        pass: &mut Pass,
        now: u64,
        input: Option<&[u8]>,
        out: &mut [u8; MAX_PACKET],
    ) -> Result<Turned, PumpFault>
        requires { BelongTogether book.now pass.old self.old }
        ensures turned { IfOk result (Turns W.to_come NEWEST_VERSION input.entry now self.old self.new pass.old pass.new out.old out.new) }
        ensures no_event { OnErr result (NoEvent self.old self.new pass.old pass.new out.old out.new) }
        ensures failed { IfErr result (Fails W.to_come NEWEST_VERSION input.entry now self.old self.new) }
        ensures memory { IfErr result (λ fault. fault ≡ PumpFault.NoMemory → BringsBytes NEWEST_VERSION self.old.host input.entry) }
        ensures station { IsStation self.new × BelongTogether book.now pass.new self.new }
    {
        match input {
            None => self.turn_alone(book, pass, now, out),
            Some(bytes) => self.turn_with(book, pass, now, bytes, out),
        }
    }

    /// A turn without input.
    fn turn_alone(
        &mut self,
        book: &Book,
        pass: &mut Pass,
        now: u64,
        out: &mut [u8; MAX_PACKET],
    ) -> Result<Turned, PumpFault>
        requires { BelongTogether book.now pass.old self.old }
        ensures turned { IfOk result (TurnsAlone W.to_come now self.old self.new pass.old pass.new out.old out.new) }
        ensures no_event { OnErr result (NoEvent self.old self.new pass.old pass.new out.old out.new) }
        ensures failed { IfErr result (FailsAlone W.to_come now self.old self.new) }
        ensures memory { IfErr result (λ fault. fault ≢ PumpFault.NoMemory) }
        ensures station { IsStation self.new × BelongTogether book.now pass.new self.new }
    {
        match self.next(now) {
            Task::Idle => Ok(Turned::Idle),
            Task::Resend(place) => self.perform(book, pass, now, place, Act::Resend, out),
            Task::Start(place) => {
                let word = self.draw()?;
                self.move_past(place);
                let start = self.start_under(word);
                self.perform(book, pass, now, place, start, out)
            }
        }
    }

    /// A turn with a datagram.
    fn turn_with(
        &mut self,
        book: &Book,
        pass: &mut Pass,
        now: u64,
        bytes: &[u8],
        out: &mut [u8; MAX_PACKET],
    ) -> Result<Turned, PumpFault>
        requires { BelongTogether book.now pass.old self.old }
        ensures turned { IfOk result (TurnsWith W.to_come NEWEST_VERSION bytes.now now self.old self.new pass.old pass.new out.old out.new) }
        ensures no_event { OnErr result (NoEvent self.old self.new pass.old pass.new out.old out.new) }
        ensures failed { IfErr result (FailsWith W.to_come NEWEST_VERSION bytes.now self.old self.new) }
        ensures memory { IfErr result (λ fault. fault ≡ PumpFault.NoMemory → BringsBytes NEWEST_VERSION self.old.host (Some bytes.entry)) }
        ensures station { IsStation self.new × BelongTogether book.now pass.new self.new }
    {
        // What holds of every pump is known once a field of it is read.
        let _agenda = &self.agenda;
        let packet = match read(bytes) {
            Err(fault) => return Ok(Turned::Unread(fault)),
            Ok(packet) => packet,
        };
        self.deliver(book, pass, now, &packet, out)
    }

    // Each of these reaches one field and tells that the pump is still one, so that a turn speaks of whole pumps alone.

    /// What to do next without input.
    fn next(&self, now: u64) -> Task
        ensures next { IsNext self.now.host now result }
        ensures station { IsStation self.now }
    {
        self.agenda.next(now)
    }

    /// The place of the charge that a packet is for.
    pub(crate) fn addressed(&self, packet: &Packet<'_>) -> Option<usize>
        ensures found { IfSome result (λ place. IsFor self.now.host place (packet_of packet.now)) }
        ensures absent { IfNone result ((place : ℕ) → ¬ (IsFor self.now.host place (packet_of packet.now))) }
        ensures station { IsStation self.now }
    {
        self.agenda.addressed(packet)
    }

    /// A start of the charge in this place was chosen.
    fn move_past(&mut self, place: usize)
        requires { place < length self.old.host.modes }
        ensures moved { self.new ≡ moved_past self.old place }
        ensures station { IsStation self.new }
    {
        self.agenda.move_past(place);
    }

    /// The next word.
    pub(crate) fn draw(&mut self) -> Result<u64, PumpFault>
        ensures drawn { IfOk result (Drew W.to_come self.old.words self.new.words) }
        ensures lacks { IfErr result (λ fault. (fault ≡ PumpFault.NoWord) × Lacks W.to_come self.old self.new) }
        ensures rest { self.new ≡ record self.old { words = self.new.words } }
        ensures station { IsStation self.new }
    {
        self.words.next().ok_or(PumpFault::NoWord)
    }

    /// The act that begins a handshake under this word.
    pub(crate) fn start_under(&self, word: u64) -> Act
        ensures { result ≡ start_under self.now.batches word }
    {
        if self.batches {
            Act::Batch(word)
        } else {
            Act::Start(word)
        }
    }

    /// The word that a packet is delivered with.
    pub(crate) fn word_for(&mut self, packet: &Packet<'_>) -> Result<u64, PumpFault>
        ensures drawn { IfOk result (DrewFor W.to_come (body_of packet.now.body) self.old.words self.new.words) }
        ensures lacks { IfErr result (λ fault. (fault ≡ PumpFault.NoWord) × DeliveryFails W.to_come (body_of packet.now.body) self.old self.new fault) }
        ensures rest { self.new ≡ record self.old { words = self.new.words } }
        ensures station { IsStation self.new }
    {
        // As above: what holds of every pump.
        let _words = &self.words;
        match packet.body {
            Body::NeedUid(_) => self.draw(),
            _ => Ok(0),
        }
    }
}
