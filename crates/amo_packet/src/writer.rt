//! Packets into bytes.
ghost use Rattle.std.specs.Prelude.{◌≡◌, ◌<◌, ◌≤◌, ◌+◌, ◌*◌, ◌++◌, ◌↔◌, length, drop, OnOk, OnErr, IfOk, IsErr};
ghost use Rattle.byteorder.specs.Endian.{big_bytes};
ghost use Rattle.amo_packet.specs.Message.{IsShort};
ghost use Rattle.amo_packet.specs.Batch.{messages, AreShort};
ghost use Rattle.amo_packet.specs.Packet.{packet_of, body_of, batch_of};
ghost use Rattle.amo_packet.specs.Grammar.{header, version_of, kind_of, parts, fields_of, spelling, CanBeWritten, FitsFields, IsSpellable};

use crate::layout::{
    ACCEPT, ACCEPT_LENGTH, ACK, ACK_LENGTH, BATCH, BATCH_LENGTH, BATCH_VERSION, CLEANUP,
    CLEANUP_LENGTH, FIRST_VERSION, HEADER_LENGTH, LENGTH_LENGTH, MAGIC, NEEDUID, NEEDUID_LENGTH,
    SEND, SEND_LENGTH,
};
use crate::{Body, MAX_BATCH, MAX_MESSAGE, NoRoom, Packet, Parts};
use byteorder::{BigEndian, ByteOrder};

/// The greatest length of a packet's spelling, in bytes.
pub const MAX_PACKET: usize = HEADER_LENGTH
    + BATCH_LENGTH
    + MAX_BATCH * (LENGTH_LENGTH + MAX_MESSAGE);

/// The greatest length of the spelling of a packet of the first version, which is no batch, in bytes.
pub const MAX_PACKET_1: usize = HEADER_LENGTH + SEND_LENGTH + MAX_MESSAGE;

/// Writes the packet's spelling at the front of the buffer, and returns its length in bytes. What is behind it stays.
///
/// A message is at most [`MAX_MESSAGE`] bytes. [`NoRoom`] comes where the buffer is shorter than the spelling. A buffer of
/// [`MAX_PACKET`] bytes always has room.
#[tactic(auto, unfolding(crate::specs::Grammar::spelling))]
// Inlined with what it calls, a caller that knows the kind tests nothing of the others.
#[inline(always)]
pub fn write(packet: &Packet<'_>, buffer: &mut [u8]) -> Result<usize, NoRoom>
    requires { CanBeWritten (body_of packet.now.body) }

    ensures answer { IfOk result (λ n. n ≡ length (spelling (packet_of packet.now))) }
    ensures written { IfOk result (λ n. buffer.new ≡ spelling (packet_of packet.now) ++ drop n buffer.old) }

    // No other packet has the spelling that was written, so reading it gives this packet back.
    ensures spellable { OnOk result (IsSpellable (packet_of packet.now)) }

    ensures no_room { IsErr result ↔ (length buffer.old < length (spelling (packet_of packet.now))) }
    ensures unchanged { OnErr result (buffer.new ≡ buffer.old) }
    ensures bounded { length (spelling (packet_of packet.now)) ≤ MAX_PACKET }
{
    let body = &packet.body;
    let length = HEADER_LENGTH + fields_length(body);
    if buffer.len() < length {
        return Err(NoRoom);
    }
    write_header(version(body), kind(body), packet.stream, buffer);
    write_fields(body, &mut buffer[HEADER_LENGTH..]);
    Ok(length)
}

/// The version under which the kind is spelt.
#[inline(always)]
fn version(body: &Body<'_>) -> u8
    ensures { result ≡ version_of (body_of body.now) }
{
    match body {
        Body::Batch(_, _) => BATCH_VERSION,
        _ => FIRST_VERSION,
    }
}

/// The number of the kind.
#[inline(always)]
fn kind(body: &Body<'_>) -> u8
    ensures { result ≡ kind_of (body_of body.now) }
{
    match body {
        Body::NeedUid(_) => NEEDUID,
        Body::Accept(_, _) => ACCEPT,
        Body::Send(_, _) => SEND,
        Body::Ack(_, _) => ACK,
        Body::Cleanup(_) => CLEANUP,
        Body::Batch(_, _) => BATCH,
    }
}

/// How many bytes the fields take.
#[inline(always)]
fn fields_length(body: &Body<'_>) -> usize
    requires { CanBeWritten (body_of body.now) }
    ensures { result ≡ length (fields_of (body_of body.now)) }
{
    match body {
        Body::NeedUid(_) => NEEDUID_LENGTH,
        Body::Accept(_, _) => ACCEPT_LENGTH,
        Body::Send(_, message) => SEND_LENGTH + message.len(),
        Body::Ack(_, _) => ACK_LENGTH,
        Body::Cleanup(_) => CLEANUP_LENGTH,
        Body::Batch(_, batch) => BATCH_LENGTH + messages_length(batch),
    }
}

/// How many bytes the messages take with their lengths.
fn messages_length(batch: &Parts<'_>) -> usize
    requires { AreShort (batch_of batch.now) }
    ensures value { result ≡ length (parts (messages (batch_of batch.now))) }
    ensures bounded { result ≤ 1026 * length (messages (batch_of batch.now)) }
{
    let (first, rest) = batch.split_first();
    let length = LENGTH_LENGTH + first.len();
    match rest {
        None => length,
        Some(rest) => length + messages_length(&rest),
    }
}

/// Writes the header at the front.
#[inline(always)]
fn write_header(version: u8, kind: u8, stream: u32, buffer: &mut [u8])
    requires { HEADER_LENGTH ≤ length buffer.old }
    ensures { buffer.new ≡ header version kind stream ++ drop HEADER_LENGTH buffer.old }
{
    buffer[0] = MAGIC[0];
    buffer[1] = MAGIC[1];
    buffer[2] = version;
    buffer[3] = kind;
    BigEndian::write_u32(&mut buffer[4..], stream);
}

/// Writes the fields at the front.
#[inline(always)]
fn write_fields(body: &Body<'_>, buffer: &mut [u8])
    requires fits { CanBeWritten (body_of body.now) }
    requires room { length (fields_of (body_of body.now)) ≤ length buffer.old }
    ensures written { buffer.new ≡ fields_of (body_of body.now) ++ drop (length (fields_of (body_of body.now))) buffer.old }
    ensures identifiers { FitsFields (body_of body.now) }
{
    match body {
        Body::NeedUid(jd) => BigEndian::write_u64(buffer, *jd),
        Body::Accept(jd, id) => {
            BigEndian::write_u64(buffer, *jd);
            BigEndian::write_u64(&mut buffer[8..], *id);
        }
        Body::Send(id, message) => {
            BigEndian::write_u64(buffer, *id);
            write_message(message, &mut buffer[8..]);
        }
        Body::Ack(id, got) => {
            BigEndian::write_u64(buffer, *id);
            buffer[8] = u8::from(*got);
        }
        Body::Cleanup(id) => BigEndian::write_u64(buffer, *id),
        Body::Batch(id, batch) => {
            BigEndian::write_u64(buffer, *id);
            buffer[8] = batch.len() as u8;
            write_messages(batch, &mut buffer[BATCH_LENGTH..]);
        }
    }
}

/// Writes the messages at the front, each behind its length.
fn write_messages(batch: &Parts<'_>, buffer: &mut [u8])
    requires fits { AreShort (batch_of batch.now) }
    requires room { length (parts (messages (batch_of batch.now))) ≤ length buffer.old }
    ensures { buffer.new ≡ parts (messages (batch_of batch.now))
        ++ drop (length (parts (messages (batch_of batch.now)))) buffer.old }
{
    let (first, rest) = batch.split_first();
    write_message(first, buffer);
    if let Some(rest) = rest {
        write_messages(&rest, &mut buffer[LENGTH_LENGTH + first.len()..]);
    }
}

/// Writes the message at the front, behind its length.
#[inline(always)]
fn write_message(message: &[u8], buffer: &mut [u8])
    requires fits { IsShort message.now }
    requires room { LENGTH_LENGTH + length message.now ≤ length buffer.old }
    ensures { buffer.new ≡ big_bytes LENGTH_LENGTH (length message.now) ++ message.now
        ++ drop (LENGTH_LENGTH + length message.now) buffer.old }
{
    BigEndian::write_u16(buffer, message.len() as u16);
    buffer[LENGTH_LENGTH..LENGTH_LENGTH + message.len()].copy_from_slice(message);
}
