//! The messages of a batch, where they lie.
ghost use Rattle.std.specs.Prelude.{◌≡◌, ◌≤◌, length, None};
ghost use Rattle.amo_packet.specs.Batch.{max_batch};
ghost use Rattle.amo_packet.specs.Lent.{lent_messages, lent_fault};

use crate::layout::LENGTH_LENGTH;
use crate::{MAX_BATCH, Message};
use byteorder::{BigEndian, ByteOrder};

/// One to [`MAX_BATCH`] messages, each where it lies. It takes no memory.
#[derive(Clone, Copy)]
pub struct Parts<'a> {
    lent: Lent<'a>,
    ghost some: { 1 ≤ length (lent_messages lent) },
    ghost most: { length (lent_messages lent) ≤ max_batch },
    ghost faultless: { lent_fault lent ≡ None },
}

#[derive(Clone, Copy)]
enum Lent<'a> {
    /// These messages.
    Held(&'a [Message]),
    /// As many messages as the bytes spell, each behind its length.
    Spelt(u8, &'a [u8]),
}

impl<'a> Parts<'a> {
    ghost use Rattle.std.specs.Prelude.{◌≡◌, ◌≤◌, length, [], ◌∷◌, replicate, None, MatchOption, slice_get};
    ghost use Rattle.std.specs.Option.{option_copied};
    ghost use Rattle.amo_packet.specs.Batch.{messages, AreShort, batch_from};
    ghost use Rattle.amo_packet.specs.Fault.{first_of, message_faults};
    ghost use Rattle.amo_packet.specs.Lent.{split};
    ghost use Rattle.amo_packet.specs.Packet.{batch_of};

    /// The messages where they are held.
    pub fn of(held: &'a [Message]) -> Parts<'a>
        requires some { 1 ≤ length held.now }
        requires most { length held.now ≤ MAX_BATCH }
        ensures value { messages (batch_of result) ≡ held.now }
        ensures fits { AreShort (batch_of result) }
    {
        for message in held {
            // Looking at a message tells that it keeps to its limit.
            let _bytes = message.bytes();
        }
        Parts {
            lent: Lent::Held(held),
        }
    }

    /// As many messages as the bytes spell, each behind its length.
    pub(crate) fn spelt(count: u8, bytes: &'a [u8]) -> Parts<'a>
        requires some { 1 ≤ count }
        requires most { count ≤ MAX_BATCH }
        requires faultless { first_of (message_faults count bytes.now) ≡ None }
        ensures { batch_of result ≡ batch_from (split count bytes.now) }
    {
        Parts {
            lent: Lent::Spelt(count, bytes),
        }
    }

    /// As many messages without a byte.
    pub(crate) fn blank(count: u8) -> Parts<'a>
        requires some { 1 ≤ count }
        requires most { count ≤ MAX_BATCH }
        ensures { messages (batch_of result) ≡ replicate count [] }
    {
        match count {
            1 => Parts::spelt(1, &[0, 0]),
            2 => Parts::spelt(2, &[0, 0, 0, 0]),
            3 => Parts::spelt(3, &[0, 0, 0, 0, 0, 0]),
            _ => Parts::spelt(4, &[0, 0, 0, 0, 0, 0, 0, 0]),
        }
    }

    /// How many messages there are.
    pub fn len(&self) -> usize
        ensures value { result ≡ length (messages (batch_of self.now)) }
        ensures bounded { result ≤ MAX_BATCH }
    {
        match self.lent {
            Lent::Held(held) => held.len(),
            Lent::Spelt(count, _) => usize::from(count),
        }
    }

    /// The message at the index, counted from 0.
    pub fn get(&self, index: usize) -> Option<&'a [u8]>
        ensures { option_copied result ≡ slice_get (messages (batch_of self.now)) index }
    {
        let (first, rest) = self.split_first();
        if index == 0 {
            return Some(first);
        }
        rest?.get(index - 1)
    }

    /// The first message, and those after it, if there are any.
    pub(crate) fn split_first(&self) -> (&'a [u8], Option<Parts<'a>>)
        ensures first { result.0.now ≡ (batch_of self.now).first }
        ensures rest { MatchOption result.1 ((batch_of self.now).rest ≡ []) (λ rest. (batch_of self.now).rest ≡ messages (batch_of rest)) }
    {
        match self.lent {
            Lent::Held(held) => Parts::split_held(held),
            Lent::Spelt(count, bytes) => Parts::split_spelt(count, bytes),
        }
    }

    /// The first of the messages that are held, and those after it.
    fn split_held(held: &'a [Message]) -> (&'a [u8], Option<Parts<'a>>)
        requires some { 1 ≤ length held.now }
        requires most { length held.now ≤ MAX_BATCH }
        ensures { MatchOption result.1 (held.now ≡ result.0.now ∷ []) (λ rest. held.now ≡ result.0.now ∷ messages (batch_of rest)) }
    {
        let first = held[0].bytes();
        if held.len() == 1 {
            return (first, None);
        }
        let rest = Parts {
            lent: Lent::Held(&held[1..]),
        };
        (first, Some(rest))
    }

    /// The first of the messages that are spelt, and those after it.
    fn split_spelt(count: u8, bytes: &'a [u8]) -> (&'a [u8], Option<Parts<'a>>)
        requires some { 1 ≤ count }
        requires most { count ≤ MAX_BATCH }
        requires faultless { first_of (message_faults count bytes.now) ≡ None }
        ensures { MatchOption result.1 (split count bytes.now ≡ result.0.now ∷ [])
            (λ rest. split count bytes.now ≡ result.0.now ∷ messages (batch_of rest)) }
    {
        let length = usize::from(BigEndian::read_u16(bytes));
        let (first, rest) = bytes[LENGTH_LENGTH..].split_at(length);
        if count == 1 {
            return (first, None);
        }
        (first, Some(Parts::spelt(count - 1, rest)))
    }
}
