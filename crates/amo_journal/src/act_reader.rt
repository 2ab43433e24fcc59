//! Reads the act of a line.
ghost use Rattle.std.specs.Prelude.{◌≡◌, ◌≢◌, ℕ, ◌<◌, ◌≤◌, ◌^◌, ◌∷◌, ◌++◌, List, codes, length, IfOk, IfSome, IfNone};
ghost use Rattle.amo_packet.specs.declared.packet.OwnedPacket.{OwnedPacket};
ghost use Rattle.amo_packet.specs.Grammar.{spelling};
ghost use Rattle.amo_core.specs.declared.act.Act.{Act};
ghost use Rattle.amo_text.specs.Hexadecimal.{hex};
ghost use Rattle.amo_journal.specs.Fields.{IsAct, IsPacket, act_and};

use amo_packet::{MAX_PACKET, MAX_PACKET_1, OwnedPacket, read};
use amo_text::{
    ActName, next_decimal, next_field, next_long_field, read_act_name, read_hex, read_message,
};
use amo_world::Act;
use std::alloc::{AllocError, Global};

/// How many bytes a short packet has at most. Room for a longer one takes longer to make than a short one to read.
const SHORT: usize = 64;

/// The act in front, at whichever side, and what stands behind the space after it.
pub(crate) fn next_act(alloc: Global, text: &[u8]) -> Result<Option<(Act, &[u8])>, AllocError>
    ensures found { IfOk result (λ read. IfSome read (λ a. IsAct a.0 × (text.now ≡ act_and a.0 a.1.now))) }
    ensures none { IfOk result (λ read. IfNone read ((a : Act) (rest : List ℕ) → IsAct a → text.now ≢ act_and a rest)) }
{
    let Some((field, rest)) = next_field(text) else {
        return Ok(None);
    };
    let Some(name) = read_act_name(field) else {
        return Ok(None);
    };
    match name {
        ActName::Put => next_put(alloc, rest),
        ActName::Get => Ok(Some((Act::Get, rest))),
        ActName::Ack => Ok(Some((Act::Ack, rest))),
        ActName::Start => Ok(next_start(rest)),
        ActName::Batch => Ok(next_batch(rest)),
        ActName::Resend => Ok(Some((Act::Resend, rest))),
        ActName::Deliver => next_delivery(alloc, rest),
        ActName::Crash => Ok(Some((Act::Crash, rest))),
        ActName::Recover => Ok(Some((Act::Recover, rest))),
    }
}

/// The put of which these are the fields after the first, and what stands behind it.
fn next_put(alloc: Global, text: &[u8]) -> Result<Option<(Act, &[u8])>, AllocError>
    ensures found { IfOk result (λ read. IfSome read (λ a. IsAct a.0 × (codes "put" ++ 32 ∷ text.now ≡ act_and a.0 a.1.now))) }
    ensures none { IfOk result (λ read. IfNone read ((a : Act) (rest : List ℕ) → IsAct a → codes "put" ++ 32 ∷ text.now ≢ act_and a rest)) }
{
    let Some((field, rest)) = next_long_field(text) else {
        return Ok(None);
    };
    let Some(message) = read_message(alloc, field)? else {
        return Ok(None);
    };
    Ok(Some((Act::Put(message), rest)))
}

/// The start of which these are the fields after the first, and what stands behind it.
fn next_start(text: &[u8]) -> Option<(Act, &[u8])>
    ensures found { IfSome result (λ a. IsAct a.0 × (codes "start" ++ 32 ∷ text.now ≡ act_and a.0 a.1.now)) }
    ensures none { IfNone result ((a : Act) (rest : List ℕ) → IsAct a → codes "start" ++ 32 ∷ text.now ≢ act_and a rest) }
{
    let (word, rest) = next_decimal(text)?;
    Some((Act::Start(word), rest))
}

/// The start of a batch of which these are the fields after the first, and what stands behind it.
fn next_batch(text: &[u8]) -> Option<(Act, &[u8])>
    ensures found { IfSome result (λ a. IsAct a.0 × (codes "batch" ++ 32 ∷ text.now ≡ act_and a.0 a.1.now)) }
    ensures none { IfNone result ((a : Act) (rest : List ℕ) → IsAct a → codes "batch" ++ 32 ∷ text.now ≢ act_and a rest) }
{
    let (word, rest) = next_decimal(text)?;
    Some((Act::Batch(word), rest))
}

/// The delivery of which these are the fields after the first, and what stands behind it.
fn next_delivery(alloc: Global, text: &[u8]) -> Result<Option<(Act, &[u8])>, AllocError>
    ensures found { IfOk result (λ read. IfSome read (λ a. IsAct a.0 × (codes "deliver" ++ 32 ∷ text.now ≡ act_and a.0 a.1.now))) }
    ensures none { IfOk result (λ read. IfNone read ((a : Act) (rest : List ℕ) → IsAct a → codes "deliver" ++ 32 ∷ text.now ≢ act_and a rest)) }
{
    let Some((field, rest)) = next_long_field(text) else {
        return Ok(None);
    };
    let Some((word, rest)) = next_decimal(rest) else {
        return Ok(None);
    };
    let Some(packet) = read_packet(alloc, field)? else {
        return Ok(None);
    };
    Ok(Some((Act::Deliver(packet, word), rest)))
}

/// The packet that this field spells.
fn read_packet(alloc: Global, field: &[u8]) -> Result<Option<OwnedPacket>, AllocError>
    ensures found { IfOk result (λ read. IfSome read (λ p. IsPacket p × (field.now ≡ hex (spelling p)))) }
    ensures none { IfOk result (λ read. IfNone read ((p : OwnedPacket) → IsPacket p → field.now ≢ hex (spelling p))) }
{
    if field.len() <= 2 * SHORT {
        let mut room = [0; SHORT];
        return packet_in(alloc, field, &mut room);
    }
    if field.len() <= 2 * MAX_PACKET_1 {
        let mut room = [0; MAX_PACKET_1];
        return packet_in(alloc, field, &mut room);
    }
    let mut room = [0; MAX_PACKET];
    packet_in(alloc, field, &mut room)
}

/// The packet that this field spells, if its bytes fit into this room.
fn packet_in(
    alloc: Global,
    field: &[u8],
    room: &mut [u8],
) -> Result<Option<OwnedPacket>, AllocError>
    ensures found { IfOk result (λ read. IfSome read (λ p. IsPacket p × (field.now ≡ hex (spelling p)))) }
    ensures none { IfOk result (λ read. IfNone read ((p : OwnedPacket) → IsPacket p → length (spelling p) ≤ length room.old → field.now ≢ hex (spelling p))) }
{
    let Some(count) = read_hex(field, room) else {
        return Ok(None);
    };
    owned_packet(alloc, &room[..count])
}

/// The packet that these bytes spell, with its messages copied.
fn owned_packet(alloc: Global, bytes: &[u8]) -> Result<Option<OwnedPacket>, AllocError>
    ensures found { IfOk result (λ made. IfSome made (λ p. IsPacket p × (bytes.now ≡ spelling p))) }
    ensures none { IfOk result (λ made. IfNone made ((p : OwnedPacket) → IsPacket p → bytes.now ≢ spelling p)) }
{
    let Ok(packet) = read(bytes) else {
        return Ok(None);
    };
    Ok(Some(packet.copied(alloc)?))
}
