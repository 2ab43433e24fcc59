//! What a sender's host makes happen: a handshake begins, an accept or an ack comes; a crash and a recovery.
ghost use Rattle.std.specs.Prelude.{◌≡◌, IfSome, None};
ghost use Rattle.std.specs.Option.{option_map};
ghost use Rattle.std.specs.Borrow.{sem};
ghost use Rattle.std.specs.Io.BufRead.{Rests};
ghost use Rattle.amo_core.specs.Sender as table;
ghost use Rattle.amo_core.specs.declared.act.Act.TheVariants as act;

use crate::sender::{Sender, SenderMode};
use amo_packet::Packet;

impl Sender {
    ghost use Rattle.amo_core.specs.Row.{done};
    ghost use Rattle.amo_core.specs.contracts.sender.Sender.{the_row};
    ghost use Rattle.amo_packet.specs.Packet.{body_of, packet_of};
    ghost use Rattle.amo_packet.specs.Grammar.{CanBeWritten};

    /// Begins a handshake for the first message that waits, if the sender is at rest, and emits needuid. The word becomes
    /// the identifier that the sender asks under.
    pub fn start(&mut self, word: u64) -> Option<Packet<'_>>
        ensures* row { sem 𝓛 (Rests the_row self.entry (λ new. table.row self.old (act.Start word) ≡ done new (option_map packet_of result))) }
        ensures fits { IfSome result (λ p. CanBeWritten (body_of p.body)) }
    {
        if self.advance_on_start(word) {
            self.resend()
        } else {
            None
        }
    }

    /// Begins a handshake for the first messages that wait, at most [`MAX_BATCH`](amo_packet::MAX_BATCH), if the sender is at rest, and emits
    /// needuid. They travel together, in a batch. The word becomes the identifier that the sender asks under.
    pub fn start_batch(&mut self, word: u64) -> Option<Packet<'_>>
        ensures* row { sem 𝓛 (Rests the_row self.entry (λ new. table.row self.old (act.Batch word) ≡ done new (option_map packet_of result))) }
        ensures fits { IfSome result (λ p. CanBeWritten (body_of p.body)) }
    {
        if self.advance_on_batch(word) {
            self.resend()
        } else {
            None
        }
    }

    /// Takes an accept of the identifier that the sender asks under, and emits the send or the batch. Any other accept emits a
    /// cleanup, unless the sender sends under its identifier already, or is down.
    pub fn accept(&mut self, jd: u64, id: u64) -> Option<Packet<'_>>
        ensures* row { sem 𝓛 (Rests the_row self.entry (λ new. table.accept self.old self.old.mode jd id ≡ done new (option_map packet_of result))) }
        ensures fits { IfSome result (λ p. CanBeWritten (body_of p.body)) }
    {
        if self.advance_on_accept(jd, id) {
            self.resend()
        } else {
            self.cleanup_on_accept(jd, id)
        }
    }

    /// Takes an ack, which says that the message of an identifier was got, or that the receiver does not know it. The
    /// sender comes to rest, if it sends under it. An ack that says "got" emits a cleanup, in every mode but down.
    pub fn ack(&mut self, id: u64, got: bool) -> Option<Packet<'_>>
        ensures* row { sem 𝓛 (Rests the_row self.entry (λ new. table.ack self.old self.old.mode id got ≡ done new (option_map packet_of result))) }
        ensures fits { IfSome result (λ p. CanBeWritten (body_of p.body)) }
    {
        self.advance_on_ack(id, got);
        self.cleanup_on_ack(id, got)
    }

    /// Goes down, and forgets everything.
    pub fn crash(&mut self)
        ensures row { table.row self.old act.Crash ≡ done self.new None }
    {
        self.mode = SenderMode::Down;
        self.waiting.clear();
    }

    /// Comes up again, with nothing known of what was put before. Nothing happens to a sender that is up.
    pub fn recover(&mut self)
        ensures row { table.row self.old act.Recover ≡ done self.new None }
    {
        if let SenderMode::Down = self.mode {
            self.mode = SenderMode::Quiet(false);
            self.waiting.clear();
        }
    }
}
