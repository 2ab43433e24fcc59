//! What holds of acts and of both tables. A law is a function that does nothing: its contract is the law, and is proved
//! like any other.
ghost use Rattle.std.specs.Prelude.{◌≡◌, ℕ, Bool, List, [], ◌∷◌, true, false};
ghost use Rattle.amo_core.specs.declared.act.Act.{Act};
ghost use Rattle.amo_core.specs.declared.mode.Mode.TheVariants as mode;
ghost use Rattle.amo_core.specs.declared.reply.Reply.{Reply};
ghost use Rattle.amo_packet.specs.Batch.{Batch, messages};
ghost use Rattle.amo_core.specs.Act.{brought_by, got_by, AreEmpty};
ghost use Rattle.amo_core.specs.Receiver.{ReceiverState};
ghost use Rattle.amo_core.specs.Receiver as receiver;
ghost use Rattle.amo_core.specs.Sender.{SenderState};
ghost use Rattle.amo_core.specs.Sender as sender;

use crate::{Act, Reply};

/// A copy of an act or of a reply takes memory only for a message with a byte.
pub fn copies_without_bytes_take_no_memory()
    ensures act { (a : Act) → AreEmpty (brought_by a) → ⟦<Act as Clone>⟧.is_infallible a }
    ensures reply { (r : Reply) → AreEmpty (got_by r) → ⟦<Reply as Clone>⟧.is_infallible r }
{}

/// A cleanup ends the receiver's part in a handshake that it accepted or acknowledged, and takes no message from it.
pub fn cleanups_end_handshakes()
    ensures accepted { (s : ReceiverState) (id : ℕ) → receiver.is_accepting s.mode id ≡ true →
        receiver.kind (receiver.cleanup s s.mode id).state.mode ≡ mode.Idle }
    ensures acknowledged { (s : ReceiverState) (id : ℕ) → receiver.is_acking s.mode id ≡ true →
        receiver.kind (receiver.cleanup s s.mode id).state.mode ≡ mode.Idle }
    ensures held { (s : ReceiverState) (id : ℕ) → receiver.held_by (receiver.cleanup s s.mode id).state.mode ≡ receiver.held_by s.mode }
{}

/// A send under the identifier that the receiver accepts brings its message, and a batch its messages, in order; under any other identifier
/// they leave the receiver as it is.
pub fn sends_are_held_only_where_accepted()
    ensures held { (s : ReceiverState) (id : ℕ) (m : List ℕ) → receiver.is_accepting s.mode id ≡ true →
        receiver.held_by (receiver.send s s.mode id m).state.mode ≡ m ∷ [] }
    ensures held_batch { (s : ReceiverState) (id : ℕ) (b : Batch) → receiver.is_accepting s.mode id ≡ true →
        receiver.held_by (receiver.batch s s.mode id b).state.mode ≡ messages b }
    ensures other { (s : ReceiverState) (id : ℕ) (m : List ℕ) → receiver.is_accepting s.mode id ≡ false →
        (receiver.send s s.mode id m).state ≡ s }
    ensures other_batch { (s : ReceiverState) (id : ℕ) (b : Batch) → receiver.is_accepting s.mode id ≡ false →
        (receiver.batch s s.mode id b).state ≡ s }
{}

/// An ack under the identifier that the sender sends under ends the sending; an ack under any other leaves the sender as it is.
/// No accept takes a message from the sender.
pub fn acks_end_sending()
    ensures ended { (s : SenderState) (id : ℕ) (got : Bool) → sender.is_sending s.mode id ≡ true →
        sender.kind (sender.ack s s.mode id got).state.mode ≡ mode.Quiet }
    ensures other { (s : SenderState) (id : ℕ) (got : Bool) → sender.is_sending s.mode id ≡ false →
        (sender.ack s s.mode id got).state ≡ s }
    ensures accepted { (s : SenderState) (jd id : ℕ) → sender.held_by (sender.accept s s.mode jd id).state.mode ≡ sender.held_by s.mode }
{}
