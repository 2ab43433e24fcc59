//! What a receiver's host makes happen: a needuid, a send or a cleanup comes; a crash and a recovery.
ghost use Rattle.std.specs.Prelude.{◌≡◌, ◌≤◌, length, IfSome, None};
ghost use Rattle.std.specs.Option.{option_map};
ghost use Rattle.std.specs.Borrow.{sem};
ghost use Rattle.std.specs.Io.BufRead.{Rests};
ghost use Rattle.amo_packet.specs.Batch.{batch_from};
ghost use Rattle.amo_core.specs.Receiver as table;
ghost use Rattle.amo_core.specs.declared.act.Act.TheVariants as act;

use crate::Messages;
use crate::receiver::{Receiver, ReceiverMode};
use amo_packet::{MAX_BATCH, Message, Packet};
use arrayvec::ArrayVec;

impl Receiver {
    ghost use Rattle.amo_core.specs.Row.{done};
    ghost use Rattle.amo_core.specs.contracts.receiver.Receiver.{the_row};
    ghost use Rattle.amo_packet.specs.Packet.{body_of, packet_of};
    ghost use Rattle.amo_packet.specs.Grammar.{CanBeWritten};

    /// Takes a needuid. At rest, the word becomes the identifier that the receiver accepts for it. A needuid that was
    /// accepted already emits its accept again.
    pub fn needuid(&mut self, jd: u64, word: u64) -> Option<Packet<'_>>
        ensures* row { sem 𝓛 (Rests the_row self.entry (λ new. table.needuid self.old self.old.mode jd word ≡ done new (option_map packet_of result))) }
        ensures fits { IfSome result (λ p. CanBeWritten (body_of p.body)) }
    {
        if self.advance_on_needuid(jd, word) {
            self.resend()
        } else {
            None
        }
    }

    /// Takes a send under the identifier that is accepted, and holds its message for the client. Every other send is dropped:
    /// while the receiver is down, or holds the message of this identifier, nothing is emitted; otherwise an ack, which
    /// says yes under the identifier whose message the client got, and no under any other.
    pub fn send(&mut self, id: u64, message: Message) -> Option<Packet<'_>>
        ensures* row { sem 𝓛 (Rests the_row self.entry (λ new. table.send self.old self.old.mode id message ≡ done new (option_map packet_of result))) }
        ensures fits { IfSome result (λ p. CanBeWritten (body_of p.body)) }
    {
        if self.advance_on_send(id, message) {
            None
        } else {
            self.ack_on_batch(id)
        }
    }

    /// Takes a batch, as a send, with one to [`MAX_BATCH`](amo_packet::MAX_BATCH) messages to hold for the client.
    pub fn batch(&mut self, id: u64, messages: ArrayVec<Message, MAX_BATCH>) -> Option<Packet<'_>>
        requires { 1 ≤ length messages.items }
        ensures* row { sem 𝓛 (Rests the_row self.entry (λ new. table.batch self.old self.old.mode id (batch_from messages.items) ≡ done new (option_map packet_of result))) }
        ensures fits { IfSome result (λ p. CanBeWritten (body_of p.body)) }
    {
        if self.advance_on_batch(id, Messages::of(messages)) {
            None
        } else {
            self.ack_on_batch(id)
        }
    }

    /// Takes a cleanup: the sender is done with an identifier. A message that the client has not got yet stays.
    pub fn cleanup(&mut self, id: u64) -> Option<Packet<'_>>
        ensures* row { sem 𝓛 (Rests the_row self.entry (λ new. table.cleanup self.old self.old.mode id ≡ done new (option_map packet_of result))) }
        ensures fits { IfSome result (λ p. CanBeWritten (body_of p.body)) }
    {
        self.advance_on_cleanup(id);
        None
    }

    /// Goes down, and forgets everything.
    pub fn crash(&mut self)
        ensures row { table.row self.old act.Crash ≡ done self.new None }
    {
        self.mode = ReceiverMode::Down;
    }

    /// Comes up again, at rest. Nothing happens to a receiver that is up.
    pub fn recover(&mut self)
        ensures row { table.row self.old act.Recover ≡ done self.new None }
    {
        if let ReceiverMode::Down = self.mode {
            self.mode = ReceiverMode::Idle;
        }
    }
}
