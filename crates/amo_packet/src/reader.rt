//! Bytes into packets.
#![tactic(auto, using(std::proofs::lemmas::Bool::Decides::nat_tests), unfolding(crate::specs::Fault::first_fault))]

ghost use Rattle.std.specs.Prelude.{◌≡◌, ◌<◌, ◌≤◌, ◌^◌, ◌++◌, ◌↔◌, ◌⊎◌, ℕ, List, suc, length, drop, get_or, None, Err, OnOk, IfOk, IfErr, IfSome, IfNone, IsOkAnd, IsErrOf};
ghost use Rattle.byteorder.specs.Endian.{big_bytes};
ghost use Rattle.amo_packet.specs.declared.fault.ReadFault.{ReadFault};
ghost use Rattle.amo_packet.specs.declared.packet.OwnedPacket.{OwnedPacket};
ghost use Rattle.amo_packet.specs.Packet.{packet_of, body_of};
ghost use Rattle.amo_packet.specs.Grammar.{CanBeWritten, Spells};
ghost use Rattle.amo_packet.specs.Fault.{first_of, message_faults, first_fault};
ghost use Rattle.amo_packet.specs.Reading.{IsNoStart, IsSent, IsUnsent, IsReading, IsReadingUpTo};

use crate::layout::{
    ACCEPT, ACCEPT_LENGTH, ACCEPT_START, ACK, ACK_LENGTH, ACK_START, BATCH, BATCH_LENGTH,
    BATCH_START, BATCH_VERSION, CLEANUP, CLEANUP_LENGTH, CLEANUP_START, FIRST_VERSION,
    HEADER_LENGTH, LENGTH_LENGTH, MAGIC, NEEDUID, NEEDUID_LENGTH, NEEDUID_START, NEWEST_VERSION,
    SEND, SEND_LENGTH, SEND_START,
};
use crate::{Body, MAX_BATCH, MAX_MESSAGE, Packet, Parts, ReadFault};
use byteorder::{BigEndian, ByteOrder};
use std::cmp::Ordering;

/// The packet that all of the bytes spell, or their first fault in the order that [`ReadFault`] gives. A message is
/// borrowed from where it lies in them.
#[inline(always)]
pub fn read(bytes: &[u8]) -> Result<Packet<'_>, ReadFault>
    // What is read is what the bytes spell, and what they spell is read.
    ensures found { IfOk result (λ p. Spells NEWEST_VERSION bytes.now (packet_of p)) }
    ensures complete { (p : OwnedPacket) → Spells NEWEST_VERSION bytes.now p → IsOkAnd result (λ found. packet_of found ≡ p) }
    ensures fits { IfOk result (λ p. CanBeWritten (body_of p.body)) }

    // A fault is the first in the order of faults.
    ensures fault { (f : ReadFault) → IsErrOf result f ↔ (first_fault NEWEST_VERSION bytes.now ≡ Some f) }
{
    read_up_to(NEWEST_VERSION, bytes)
}

/// The same for a reader that knows version 01 alone, and so no batch.
pub fn read_1(bytes: &[u8]) -> Result<Packet<'_>, ReadFault>
    ensures found { IfOk result (λ p. Spells FIRST_VERSION bytes.now (packet_of p)) }
    ensures complete { (p : OwnedPacket) → Spells FIRST_VERSION bytes.now p → IsOkAnd result (λ found. packet_of found ≡ p) }
    ensures fits { IfOk result (λ p. CanBeWritten (body_of p.body)) }
    ensures fault { (f : ReadFault) → IsErrOf result f ↔ (first_fault FIRST_VERSION bytes.now ≡ Some f) }
{
    read_up_to(FIRST_VERSION, bytes)
}

/// The same for a reader that knows the versions up to the newest.
#[inline(always)]
fn read_up_to(newest: u8, bytes: &[u8]) -> Result<Packet<'_>, ReadFault>
    requires newest { (FIRST_VERSION ≤ newest) × (newest ≤ NEWEST_VERSION) }
    ensures found { IfOk result (λ p. Spells newest bytes.now (packet_of p)) }
    ensures complete { (p : OwnedPacket) → Spells newest bytes.now p → IsOkAnd result (λ found. packet_of found ≡ p) }
    ensures fits { IfOk result (λ p. CanBeWritten (body_of p.body)) }
    ensures fault { (f : ReadFault) → IsErrOf result f ↔ (first_fault newest bytes.now ≡ Some f) }
{
    if bytes.len() < HEADER_LENGTH {
        return Err(ReadFault::Short);
    }
    let stream = BigEndian::read_u32(&bytes[4..]);
    let body = read_body(newest, bytes)?;
    Ok(Packet { stream, body })
}

/// What the packet says.
// One comparison tells the magic, the version and the kind; what is wrong with another start is asked behind that. Each arm
// takes the fields itself, so that their length costs nothing.
#[inline(always)]
fn read_body(newest: u8, bytes: &[u8]) -> Result<Body<'_>, ReadFault>
    requires newest { (FIRST_VERSION ≤ newest) × (newest ≤ NEWEST_VERSION) }
    requires long { HEADER_LENGTH ≤ length bytes.now }
    ensures { IsReadingUpTo newest bytes.now result }
{
    let start = BigEndian::read_u32(bytes);
    match start {
        NEEDUID_START => read_needuid(&bytes[HEADER_LENGTH..]),
        ACCEPT_START => read_accept(&bytes[HEADER_LENGTH..]),
        SEND_START => read_send(&bytes[HEADER_LENGTH..]),
        ACK_START => read_ack(&bytes[HEADER_LENGTH..]),
        CLEANUP_START => read_cleanup(&bytes[HEADER_LENGTH..]),
        BATCH_START if newest >= BATCH_VERSION => read_batch(&bytes[HEADER_LENGTH..]),
        _ => Err(start_fault(newest, start)),
    }
}

/// What is wrong with a start that a reader of the versions up to the newest does not know.
#[inline(always)]
fn start_fault(newest: u8, start: u32) -> ReadFault
    requires newest { (FIRST_VERSION ≤ newest) × (newest ≤ NEWEST_VERSION) }
    requires unknown { IsNoStart newest start }
    ensures { (stream : ℕ) (fields : List ℕ) → first_fault newest (big_bytes 4 start ++ big_bytes 4 stream ++ fields) ≡ Some result }
{
    let bytes = start.to_be_bytes();
    if bytes[0] != MAGIC[0] || bytes[1] != MAGIC[1] {
        return ReadFault::Magic;
    }
    if bytes[2] < FIRST_VERSION || bytes[2] > newest {
        return ReadFault::Version;
    }
    ReadFault::Kind
}

#[inline(always)]
fn read_needuid(fields: &[u8]) -> Result<Body<'_>, ReadFault>
    ensures { IsReading FIRST_VERSION NEEDUID fields.now result }
{
    expect_length(fields, NEEDUID_LENGTH)?;
    Ok(Body::NeedUid(BigEndian::read_u64(fields)))
}

#[inline(always)]
fn read_accept(fields: &[u8]) -> Result<Body<'_>, ReadFault>
    ensures { IsReading FIRST_VERSION ACCEPT fields.now result }
{
    expect_length(fields, ACCEPT_LENGTH)?;
    let jd = BigEndian::read_u64(fields);
    let id = BigEndian::read_u64(&fields[8..]);
    Ok(Body::Accept(jd, id))
}

#[inline(always)]
fn read_send(fields: &[u8]) -> Result<Body<'_>, ReadFault>
    ensures { IsReading FIRST_VERSION SEND fields.now result }
{
    match sent_message(fields) {
        Some(message) => Ok(Body::Send(BigEndian::read_u64(fields), message)),
        None => Err(send_fault(fields)),
    }
}

/// The message that these fields of a send spell, if they spell one.
#[inline(always)]
fn sent_message(fields: &[u8]) -> Option<&[u8]>
    ensures some { IfSome result (λ message. IsSent fields.now message.now) }
    ensures none { IfNone result (IsUnsent fields.now) }
{
    // Where the fields are not all there the length wraps, and is too long: one comparison tells both.
    let length = fields.len().wrapping_sub(SEND_LENGTH);
    if length > MAX_MESSAGE || BigEndian::read_u16(&fields[8..]) != length as u16 {
        return None;
    }
    Some(&fields[SEND_LENGTH..])
}

/// What is wrong with the fields of a send that spell no message.
#[inline(always)]
fn send_fault(fields: &[u8]) -> ReadFault
    requires { IsUnsent fields.now }
    ensures { IsReading FIRST_VERSION SEND fields.now (Err result) }
{
    if fields.len() < SEND_LENGTH {
        return ReadFault::Short;
    }
    let length = usize::from(BigEndian::read_u16(&fields[8..]));
    if length > MAX_MESSAGE {
        ReadFault::Length
    } else if fields.len() < SEND_LENGTH + length {
        ReadFault::Short
    } else {
        ReadFault::Long
    }
}

#[inline(always)]
fn read_ack(fields: &[u8]) -> Result<Body<'_>, ReadFault>
    ensures { IsReading FIRST_VERSION ACK fields.now result }
{
    if fields.len() < ACK_LENGTH {
        return Err(ReadFault::Short);
    }
    let got = match fields[8] {
        0 => false,
        1 => true,
        _ => return Err(ReadFault::Flag),
    };
    if fields.len() > ACK_LENGTH {
        return Err(ReadFault::Long);
    }
    Ok(Body::Ack(BigEndian::read_u64(fields), got))
}

#[inline(always)]
fn read_cleanup(fields: &[u8]) -> Result<Body<'_>, ReadFault>
    ensures { IsReading FIRST_VERSION CLEANUP fields.now result }
{
    expect_length(fields, CLEANUP_LENGTH)?;
    Ok(Body::Cleanup(BigEndian::read_u64(fields)))
}

#[inline(always)]
fn read_batch(fields: &[u8]) -> Result<Body<'_>, ReadFault>
    ensures { IsReading BATCH_VERSION BATCH fields.now result }
{
    let count = expect_batch(fields)?;
    let batch = Parts::spelt(count, &fields[BATCH_LENGTH..]);
    Ok(Body::Batch(BigEndian::read_u64(fields), batch))
}

/// How many messages these fields of a batch spell.
#[inline(always)]
fn expect_batch(fields: &[u8]) -> Result<u8, ReadFault>
    ensures long { OnOk result (BATCH_LENGTH ≤ length fields.now) }
    ensures count { IfOk result (λ count. (count ≡ get_or fields.now 8 0) × (1 ≤ count) × (count ≤ MAX_BATCH)) }
    ensures messages { IfOk result (λ count. first_of (message_faults count (drop BATCH_LENGTH fields.now)) ≡ None) }
    ensures fault { IfErr result (λ fault. IsReading BATCH_VERSION BATCH fields.now (Err fault)) }
{
    if fields.len() < BATCH_LENGTH {
        return Err(ReadFault::Short);
    }
    let count = fields[8];
    if count == 0 || usize::from(count) > MAX_BATCH {
        return Err(ReadFault::Count);
    }
    expect_messages(count, &fields[BATCH_LENGTH..])?;
    Ok(count)
}

/// Whether the bytes spell as many messages, each behind its length, and nothing behind them.
#[inline(always)]
fn expect_messages(count: u8, bytes: &[u8]) -> Result<(), ReadFault>
    ensures ok { OnOk result (first_of (message_faults count bytes.now) ≡ None) }
    ensures err { IfErr result (λ f. first_of (message_faults count bytes.now) ≡ Some f) }
{
    let mut rest = bytes;
    for _ in 0..count {
        rest = after_message(rest)?;
    }
    if rest.is_empty() {
        Ok(())
    } else {
        Err(ReadFault::Long)
    }
}

/// The bytes after the message that these begin with, behind its length.
#[inline(always)]
fn after_message(bytes: &[u8]) -> Result<&[u8], ReadFault>
    ensures ok { IfOk result (λ rest. (more : ℕ) → first_of (message_faults (suc more) bytes.now) ≡ first_of (message_faults more rest.now)) }
    ensures err { IfErr result (λ f. (more : ℕ) → first_of (message_faults (suc more) bytes.now) ≡ Some f) }
{
    if bytes.len() < LENGTH_LENGTH {
        return Err(ReadFault::Short);
    }
    let given = usize::from(BigEndian::read_u16(bytes));
    if given > MAX_MESSAGE {
        return Err(ReadFault::Length);
    }
    let message = &bytes[LENGTH_LENGTH..];
    if message.len() < given {
        return Err(ReadFault::Short);
    }
    Ok(&message[given..])
}

/// Whether there are as many bytes as wanted: fewer are cut short, and more follow the packet.
#[inline(always)]
fn expect_length(bytes: &[u8], wanted: usize) -> Result<(), ReadFault>
    ensures ok { OnOk result (length bytes.now ≡ wanted) }
    ensures err { IfErr result (λ f. ((f ≡ ReadFault.Short) × (length bytes.now < wanted))
        ⊎ ((f ≡ ReadFault.Long) × (wanted < length bytes.now))) }
{
    match bytes.len().cmp(&wanted) {
        Ordering::Less => Err(ReadFault::Short),
        Ordering::Equal => Ok(()),
        Ordering::Greater => Err(ReadFault::Long),
    }
}
