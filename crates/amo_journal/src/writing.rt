//! Writes journals.
ghost use Rattle.std.specs.Prelude.{◌≡◌, ◌<◌, ◌↔◌, ◌⊎◌, ◌++◌, ◌∷◌, [], ℕ, List, All, OnOk, OnErr, IfErr, IfSome, IsErrOf};
ghost use Rattle.std.specs.Io.KnownBytes.{Appends};
ghost use Rattle.amo_packet.specs.Grammar.{spelling};
ghost use Rattle.amo_text.specs.Hexadecimal.{hex};
ghost use Rattle.amo_text.specs.Line.{text_of};
ghost use Rattle.amo_text.specs.Reply.{reply_text};
ghost use Rattle.amo_text.specs.Side.{letter_of};
ghost use Rattle.amo_text.specs.Sink.{AppendsFront};
ghost use Rattle.amo_journal.specs.declared.version.Version.{Version};
ghost use Rattle.amo_journal.specs.Journal.{CanSpell, IsJournalOf, act_fields, line_text};

use crate::prepended::Prepended;
use crate::{JournalFault, Version};
use amo_object::End;
use amo_packet::{MAX_PACKET, MAX_PACKET_1, OwnedPacket, write};
use amo_text::{Sink, push_decimal, push_hex, push_reply, push_side, write_all};
use amo_world::{Act, Event, Reply};
use std::alloc::{AllocError, Global};

/// How many bytes a short packet has at most.
const SHORT: usize = 64;

/// Writes the journal of version 1 of these events, in the order of time, each of which has a line there ([`crate::can_spell`]).
///
/// A line is made whole and then written. Where memory or the sink fails, a beginning of the journal was appended.
pub fn write_journal<W: Sink>(
    alloc: Global,
    events: &[Event],
    sink: &mut W,
) -> Result<(), JournalFault>
    requires { All (CanSpell Version.One) events.now }
    ensures written { OnOk result ((bytes : List ℕ) × IsJournalOf Version.One events.now bytes × Appends (W.written sink.old) (W.written sink.new) bytes) }
    ensures begun { OnErr result ((bytes : List ℕ) × IsJournalOf Version.One events.now bytes × AppendsFront (W.written sink.old) (W.written sink.new) bytes) }
    ensures faults { IfErr result (λ fault. (fault ≡ JournalFault.NoMemory) ⊎ (fault ≡ JournalFault.Device)) }
    ensures device { IsErrOf result JournalFault.Device ↔ (W.failures sink.old < W.failures sink.new) }
{
    write_events(alloc, Version::One, events, sink)
}

/// Writes the journal of version 2 of these events, as [`write_journal`] does that of version 1; each of them has a line there
/// ([`crate::can_spell_2`]).
pub fn write_journal_2<W: Sink>(
    alloc: Global,
    events: &[Event],
    sink: &mut W,
) -> Result<(), JournalFault>
    requires { All (CanSpell Version.Two) events.now }
    ensures written { OnOk result ((bytes : List ℕ) × IsJournalOf Version.Two events.now bytes × Appends (W.written sink.old) (W.written sink.new) bytes) }
    ensures begun { OnErr result ((bytes : List ℕ) × IsJournalOf Version.Two events.now bytes × AppendsFront (W.written sink.old) (W.written sink.new) bytes) }
    ensures faults { IfErr result (λ fault. (fault ≡ JournalFault.NoMemory) ⊎ (fault ≡ JournalFault.Device)) }
    ensures device { IsErrOf result JournalFault.Device ↔ (W.failures sink.old < W.failures sink.new) }
{
    write_events(alloc, Version::Two, events, sink)
}

/// Writes the journal of this version of these events.
fn write_events<W: Sink>(
    alloc: Global,
    version: Version,
    events: &[Event],
    sink: &mut W,
) -> Result<(), JournalFault>
    requires { All (CanSpell version) events.now }
    ensures written { OnOk result ((bytes : List ℕ) × IsJournalOf version events.now bytes × Appends (W.written sink.old) (W.written sink.new) bytes) }
    ensures begun { OnErr result ((bytes : List ℕ) × IsJournalOf version events.now bytes × AppendsFront (W.written sink.old) (W.written sink.new) bytes) }
    ensures faults { IfErr result (λ fault. (fault ≡ JournalFault.NoMemory) ⊎ (fault ≡ JournalFault.Device)) }
    ensures device { IsErrOf result JournalFault.Device ↔ (W.failures sink.old < W.failures sink.new) }
{
    write_all(sink, version.heading())?;
    let mut text = Vec::new(alloc);
    for number in 0..events.len() {
        text.clear();
        push_line(&mut text, number as u64, &events[number])?;
        write_all(sink, text.as_slice())?;
    }
    Ok(())
}

/// Appends the line of the event of this number.
pub fn push_line(text: &mut Vec<u8>, number: u64, event: &Event) -> Result<(), AllocError>
    ensures { OnOk result (text.new.items ≡ text.old.items ++ line_text (record { number = number; event = event.now })) }
{
    let mut line = Prepended::new();
    match put_line(&mut line, number, event) {
        Some(()) => text.extend_from_slice(line.bytes()),
        None => push_long_line(text, number, event),
    }
}

/// Puts the line of the event of this number in front, if it is short.
fn put_line(line: &mut Prepended, number: u64, event: &Event) -> Option<()>
    ensures { IfSome result (λ _. line.new ≡ line_text (record { number = number; event = event.now }) ++ line.old) }
{
    line.put(b"\n")?;
    put_reply(line, &event.reply)?;
    line.put(b" ")?;
    put_act(line, &event.act)?;
    line.put(b" ")?;
    line.put_decimal(event.stream as u64)?;
    line.put(b" ")?;
    line.put(letter(event.side))?;
    line.put(b" ")?;
    line.put_decimal(event.pass as u64)?;
    line.put(b" ")?;
    line.put_decimal(number)
}

/// The letter of a side.
fn letter(side: End) -> &'static [u8]
    ensures { result.now ≡ letter_of side }
{
    match side {
        End::Sender => b"s",
        End::Receiver => b"r",
    }
}

/// Puts a reply in front.
fn put_reply(line: &mut Prepended, reply: &Reply) -> Option<()>
    ensures { IfSome result (λ _. line.new ≡ reply_text reply.now ++ line.old) }
{
    match reply {
        Reply::Ok => line.put(b"ok"),
        Reply::Full => line.put(b"full"),
        Reply::Down => line.put(b"down"),
        Reply::Nothing => line.put(b"nothing"),
        Reply::Yes => line.put(b"yes"),
        Reply::No => line.put(b"no"),
        Reply::NotYet => line.put(b"notyet"),
        Reply::Done => line.put(b"done"),
        Reply::Got(message) => {
            line.put_hex(message.bytes())?;
            line.put(b"got ")
        }
    }
}

/// Puts the fields of an act in front.
fn put_act(line: &mut Prepended, act: &Act) -> Option<()>
    ensures { IfSome result (λ _. line.new ≡ text_of (act_fields act.now) ++ line.old) }
{
    match act {
        Act::Put(message) => {
            line.put_hex(message.bytes())?;
            line.put(b"put ")
        }
        Act::Get => line.put(b"get"),
        Act::Ack => line.put(b"ack"),
        Act::Start(word) => {
            line.put_decimal(*word)?;
            line.put(b"start ")
        }
        Act::Batch(word) => {
            line.put_decimal(*word)?;
            line.put(b"batch ")
        }
        Act::Resend => line.put(b"resend"),
        Act::Deliver(packet, word) => {
            line.put_decimal(*word)?;
            line.put(b" ")?;
            put_packet(line, packet)?;
            line.put(b"deliver ")
        }
        Act::Crash => line.put(b"crash"),
        Act::Recover => line.put(b"recover"),
    }
}

/// Puts the spelling of a packet in front, in HEX, if it is short.
fn put_packet(line: &mut Prepended, packet: &OwnedPacket) -> Option<()>
    ensures { IfSome result (λ _. line.new ≡ hex (spelling packet.now) ++ line.old) }
{
    let mut short = [0; SHORT];
    match write(&packet.as_packet(), &mut short) {
        Ok(length) => line.put_hex(&short[..length]),
        Err(_) => None,
    }
}

/// The same as [`push_line`], whatever the line's length.
fn push_long_line(text: &mut Vec<u8>, number: u64, event: &Event) -> Result<(), AllocError>
    ensures { OnOk result (text.new.items ≡ text.old.items ++ line_text (record { number = number; event = event.now })) }
{
    push_decimal(text, number)?;
    text.push(b' ')?;
    push_decimal(text, event.pass as u64)?;
    text.push(b' ')?;
    push_side(text, event.side)?;
    text.push(b' ')?;
    push_decimal(text, event.stream as u64)?;
    text.push(b' ')?;
    push_act(text, &event.act)?;
    text.push(b' ')?;
    push_reply(text, &event.reply)?;
    text.push(b'\n')?;
    Ok(())
}

/// Appends the fields of an act.
fn push_act(text: &mut Vec<u8>, act: &Act) -> Result<(), AllocError>
    ensures { OnOk result (text.new.items ≡ text.old.items ++ text_of (act_fields act.now)) }
{
    match act {
        Act::Put(message) => {
            text.extend_from_slice(b"put ")?;
            push_hex(text, message.bytes())
        }
        Act::Get => text.extend_from_slice(b"get"),
        Act::Ack => text.extend_from_slice(b"ack"),
        Act::Start(word) => {
            text.extend_from_slice(b"start ")?;
            push_decimal(text, *word)
        }
        Act::Batch(word) => {
            text.extend_from_slice(b"batch ")?;
            push_decimal(text, *word)
        }
        Act::Resend => text.extend_from_slice(b"resend"),
        Act::Deliver(packet, word) => push_delivery(text, packet, *word),
        Act::Crash => text.extend_from_slice(b"crash"),
        Act::Recover => text.extend_from_slice(b"recover"),
    }
}

/// Appends the fields of a delivery.
fn push_delivery(text: &mut Vec<u8>, packet: &OwnedPacket, word: u64) -> Result<(), AllocError>
    ensures { OnOk result (text.new.items ≡ text.old.items ++ text_of (act_fields (Act.Deliver packet.now word))) }
{
    text.extend_from_slice(b"deliver ")?;
    push_packet(text, packet)?;
    text.push(b' ')?;
    push_decimal(text, word)
}

/// Appends the spelling of a packet, in HEX. Most packets are short, and the room for a long one costs more to make than they take.
fn push_packet(text: &mut Vec<u8>, packet: &OwnedPacket) -> Result<(), AllocError>
    ensures { OnOk result (text.new.items ≡ text.old.items ++ hex (spelling packet.now)) }
{
    let mut short = [0; MAX_PACKET_1];
    match write(&packet.as_packet(), &mut short) {
        Ok(length) => push_hex(text, &short[..length]),
        Err(_) => push_long_packet(text, packet),
    }
}

/// The same, where it may be long. Its room stays out of the callers, which would make it for each line.
#[inline(never)]
fn push_long_packet(text: &mut Vec<u8>, packet: &OwnedPacket) -> Result<(), AllocError>
    ensures { OnOk result (text.new.items ≡ text.old.items ++ hex (spelling packet.now)) }
{
    let mut long = [0; MAX_PACKET];
    let Ok(length) = write(&packet.as_packet(), &mut long) else {
        unreachable!()
    };
    push_hex(text, &long[..length])
}
