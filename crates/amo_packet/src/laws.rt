//! What holds of every packet and its spelling. A law is a function that does nothing: its contract is the law,
//! and is proved like any other.
ghost use Rattle.std.specs.Prelude.{◌≡◌, ◌≤◌, ◌<◌, ◌+◌, ◌↔◌, ℕ, List, ◌++◌, length, None, All};
ghost use Rattle.std.specs.List.{AllByRecursion, sum_by};
ghost use Rattle.std.specs.declared.cmp.Ordering.TheVariants.{Equal};
ghost use Rattle.amo_packet.specs.declared.packet.OwnedBody.{OwnedBody};
ghost use Rattle.amo_packet.specs.declared.packet.OwnedPacket.{OwnedPacket};
ghost use Rattle.amo_packet.specs.Grammar.{version_of, kind_of, messages_of, spelling, CanBeWritten, CarriesNoBytes, IsSpellable, Spells};
ghost use Rattle.amo_packet.specs.Fault.{fixed_length, length_in, first_fault};
ghost use Rattle.amo_packet.specs.Stream.{IsStream};

use crate::{
    MAX_MESSAGE, MAX_PACKET, MAX_PACKET_1, NEWEST_VERSION, OwnedBody, OwnedPacket, STREAMS,
};

/// No packet's spelling begins another's: of two that begin the same bytes the packets are one, and so is what follows.
pub fn no_spelling_begins_another()
    ensures { (p q : OwnedPacket) (x y : List ℕ) → IsSpellable p → IsSpellable q →
        spelling p ++ x ≡ spelling q ++ y → (p ≡ q) × (x ≡ y) }
{}

/// Bytes spell one packet at most, and each packet has one spelling, whichever versions are known.
pub fn spellings_are_unique()
    ensures packet { (v w : ℕ) (bytes : List ℕ) (p q : OwnedPacket) → Spells v bytes p → Spells w bytes q → p ≡ q }
    ensures spelling { (v w : ℕ) (a b : List ℕ) (p : OwnedPacket) → Spells v a p → Spells w b p → a ≡ b }
{}

/// Reading what was written gives the packet back: its spelling has no fault, and spells no other packet.
pub fn what_is_written_is_read()
    ensures no_fault { (newest : ℕ) (p : OwnedPacket) → version_of p.body ≤ newest → IsSpellable p →
        first_fault newest (spelling p) ≡ None }
    ensures same { (newest : ℕ) (p q : OwnedPacket) → IsSpellable p → Spells newest (spelling p) q → q ≡ p }
    ensures known { (p : OwnedPacket) → version_of p.body ≤ NEWEST_VERSION }
{}

/// Bytes have no fault exactly where they spell a packet.
pub fn bytes_without_a_fault_spell_a_packet()
    ensures spelt { (newest : ℕ) (bytes : List ℕ) → All (λ b. b < 256) bytes → first_fault newest bytes ≡ None →
        (p : OwnedPacket) × Spells newest bytes p }
    ensures no_fault { (newest : ℕ) (bytes : List ℕ) (p : OwnedPacket) → Spells newest bytes p →
        first_fault newest bytes ≡ None }
{}

/// A spelling is as long as its kind's fixed part and what its messages take. A message is within [`MAX_MESSAGE`], so a
/// spelling is within [`MAX_PACKET`], and one of the first version within [`MAX_PACKET_1`]. These are 1024, 4121 and 1042.
pub fn spellings_are_bounded()
    ensures length_of { (p : OwnedPacket) →
        length (spelling p) ≡ fixed_length (kind_of p.body) + sum_by (length_in (kind_of p.body)) (messages_of p.body) }
    ensures messages { (p : OwnedPacket) → CanBeWritten p.body → AllByRecursion (λ m. length m ≤ MAX_MESSAGE) (messages_of p.body) }
    ensures bounded { (p : OwnedPacket) → IsSpellable p → length (spelling p) ≤ MAX_PACKET }
    ensures bounded_1 { (p : OwnedPacket) → version_of p.body ≤ 1 → IsSpellable p → length (spelling p) ≤ MAX_PACKET_1 }
    ensures limits { (MAX_MESSAGE ≡ 1024) × (MAX_PACKET ≡ 4121) × (MAX_PACKET_1 ≡ 1042) }
{}

/// A spelling consists of bytes, where its messages do.
pub fn spellings_are_bytes()
    ensures { (p : OwnedPacket) → AllByRecursion (All (λ b. b < 256)) (messages_of p.body) → All (λ b. b < 256) (spelling p) }
{}

/// The order of packets distinguishes them: two that compare equal are one.
pub fn packets_that_tie_are_one()
    ensures { (p q : OwnedPacket) → ⟦<OwnedPacket as Ord>⟧.cmp p q ≡ Equal → p ≡ q }
{}

/// A copy of what carries no message byte takes no memory, so it is never refused.
pub fn copies_without_bytes_take_no_memory()
    ensures body { (b : OwnedBody) → CarriesNoBytes b → ⟦<OwnedBody as Clone>⟧.is_infallible b }
    ensures packet { (p : OwnedPacket) → CarriesNoBytes p.body → ⟦<OwnedPacket as Clone>⟧.is_infallible p }
{}

/// A host's streams are 1 to [`STREAMS`], which is 256.
pub fn streams_are_numbered_from_one()
    ensures numbers { (stream : ℕ) → IsStream stream ↔ ((1 ≤ stream) × (stream ≤ STREAMS)) }
    ensures count { STREAMS ≡ 256 }
{}
