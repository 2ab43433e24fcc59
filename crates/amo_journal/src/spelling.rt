//! Which events have a line in a journal.
ghost use Rattle.std.specs.Prelude.{◌≡◌, ◌↔◌, ◌<◌, ◌≤◌, ◌^◌, IsTrue, All, length};
ghost use Rattle.std.specs.List.{AllByRecursion};
ghost use Rattle.amo_packet.specs.Batch.{messages};
ghost use Rattle.hex.specs.Hex.{IsBytes};
ghost use Rattle.amo_packet.specs.Grammar.{IsSpellable, messages_of};
ghost use Rattle.amo_text.specs.Message.{IsMessage};
ghost use Rattle.amo_journal.specs.Journal.{CanSpell, HasAct, HasReply, IsPacketOf, TellsOfBatch};
ghost use Rattle.amo_journal.specs.Version.{HasBatches};

use crate::Version;
use amo_object::End;
use amo_packet::{Batch, MAX_MESSAGE, OwnedBody, OwnedPacket, STREAMS};
use amo_world::{Act, Event, Reply};

/// How many passes there are: a journal's are numbered below this.
pub(crate) const PASSES: usize = 64;

/// Whether each of these events has a line in a journal of version 1.
///
/// Its pass is below 64, its stream is one of a host's, its act is one of its side's and no start of a batch, its reply one of its act's, and
/// the packet of a delivery is one of its stream and no batch.
pub fn can_spell(events: &[Event]) -> bool
    ensures { IsTrue result ↔ All (CanSpell Version.One) events.now }
{
    have_lines(Version::One, events)
}

/// Whether each of these events has a line in a journal of version 2: as [`can_spell`], but a start of a batch has one, and the delivery of a batch.
pub fn can_spell_2(events: &[Event]) -> bool
    ensures { IsTrue result ↔ All (CanSpell Version.Two) events.now }
{
    have_lines(Version::Two, events)
}

/// Whether each of these events has a line in a journal of this version.
fn have_lines(version: Version, events: &[Event]) -> bool
    ensures { IsTrue result ↔ All (CanSpell version) events.now }
{
    for event in events {
        if !has_line(version, event) {
            return false;
        }
    }
    true
}

/// Whether the event has a line in a journal of this version.
#[inline(always)]
pub(crate) fn has_line(version: Version, event: &Event) -> bool
    ensures { IsTrue result ↔ CanSpell version event.now }
{
    event.pass < PASSES
        && 1 <= event.stream
        && event.stream <= STREAMS
        && has_act(version, event.side, event.stream, &event.act)
        && has_reply(&event.act, &event.reply)
}

/// Whether an event that has a line in a journal of version 2 has one in a journal of this version, too.
#[inline(always)]
pub(crate) fn keeps_line(version: Version, event: &Event) -> bool
    requires { CanSpell Version.Two event.now }
    ensures { IsTrue result ↔ CanSpell version event.now }
{
    has_batches(version) || !tells_of_batch(&event.act)
}

/// Whether the act is the start of a batch or the delivery of one.
fn tells_of_batch(act: &Act) -> bool
    ensures { IsTrue result ↔ TellsOfBatch act.now }
{
    match act {
        Act::Batch(_) => true,
        Act::Deliver(packet, _) => match packet.body {
            OwnedBody::Batch(_, _) => true,
            _ => false,
        },
        _ => false,
    }
}

/// Whether the act is one of this side of this stream.
#[inline(always)]
fn has_act(version: Version, side: End, stream: u32, act: &Act) -> bool
    ensures { IsTrue result ↔ HasAct version side stream act.now }
{
    match (side, act) {
        (End::Sender, Act::Put(message)) => is_message(message.bytes()),
        (End::Sender, Act::Ack) | (End::Receiver, Act::Get) => true,
        (End::Sender, Act::Start(word)) => *word <= u64::MAX,
        (End::Sender, Act::Batch(word)) => has_batches(version) && *word <= u64::MAX,
        (_, Act::Deliver(packet, word)) => {
            is_packet_of(version, stream, packet) && *word <= u64::MAX
        }
        (_, Act::Resend | Act::Crash | Act::Recover) => true,
        _ => false,
    }
}

/// Whether the reply is one of this act's.
#[inline(always)]
fn has_reply(act: &Act, reply: &Reply) -> bool
    ensures { IsTrue result ↔ HasReply act.now reply.now }
{
    match (act, reply) {
        (Act::Get, Reply::Got(message)) => is_message(message.bytes()),
        (Act::Put(_), Reply::Ok | Reply::Full | Reply::Down) => true,
        (Act::Ack, Reply::Yes | Reply::No | Reply::NotYet | Reply::Down) => true,
        (Act::Get, Reply::Nothing | Reply::Down) => true,
        (Act::Start(_) | Act::Batch(_), Reply::Done) => true,
        (Act::Resend | Act::Deliver(..) | Act::Crash | Act::Recover, Reply::Done) => true,
        _ => false,
    }
}

/// Whether these bytes keep to a message's limit.
fn is_message(bytes: &[u8]) -> bool
    ensures { IsTrue result ↔ IsMessage bytes.now }
{
    bytes.len() <= MAX_MESSAGE
}

/// Whether starts of batches have lines.
fn has_batches(version: Version) -> bool
    ensures { IsTrue result ↔ HasBatches version }
{
    version == Version::Two
}

/// Whether it is a packet of this stream, and of a version that has lines.
#[inline(always)]
fn is_packet_of(version: Version, stream: u32, packet: &OwnedPacket) -> bool
    ensures { IsTrue result ↔ IsPacketOf version stream packet.now }
{
    let fits = match &packet.body {
        OwnedBody::NeedUid(id) | OwnedBody::Cleanup(id) | OwnedBody::Ack(id, _) => *id <= u64::MAX,
        OwnedBody::Accept(jd, id) => *jd <= u64::MAX && *id <= u64::MAX,
        OwnedBody::Send(id, message) => *id <= u64::MAX && is_message(message.bytes()),
        OwnedBody::Batch(id, batch) => {
            has_batches(version) && *id <= u64::MAX && are_messages(batch)
        }
    };
    fits && packet.stream == stream
}

/// Whether a batch keeps to its limits, and each of its messages to a message's.
fn are_messages(batch: &Batch) -> bool
    ensures { IsTrue result ↔ ((length batch.now.rest ≤ 3) × AllByRecursion IsMessage (messages batch.now)) }
{
    let parts = batch.as_parts();
    for index in 0..parts.len() {
        let Some(message) = parts.get(index) else {
            unreachable!()
        };
        if !is_message(message) {
            return false;
        }
    }
    true
}
