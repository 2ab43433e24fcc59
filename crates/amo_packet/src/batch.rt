//! Batches: one to four messages.
ghost use Rattle.std.specs.Prelude.{◌≡◌, ◌↔◌, ◌≤◌, ◌+◌, ◌++◌, [], length, replicate, IfOk, IfErr, IsErrOf, OnOk, IsTrue};
ghost use Rattle.std.specs.Ordering.{nat_cmp};
ghost use Rattle.std.specs.Cmp.Lexicographic.{slice_cmp};
ghost use Rattle.arrayvec.specs.ArrayVec.{array_vec_len};
ghost use Rattle.amo_packet.specs.Batch.{messages, AreShort, AreBlank};
ghost use Rattle.amo_packet.specs.Held.{held_messages, IsHeld};
ghost use Rattle.amo_packet.specs.Packet.{batch_of};

use crate::{MAX_MESSAGE, Message, MessageFault, Parts};
use arrayvec::ArrayVec;
use std::alloc::{AllocError, Global};
use std::cmp::Ordering;
use std::marker::Model;

/// The greatest number of messages in a batch. The least is one.
pub const MAX_BATCH: usize = 4;

/// One to [`MAX_BATCH`] messages. Contracts see the first of them, and the list of those after it.
///
/// A batch without a byte holds no memory, so it can always be made.
#[derive(Debug, Drop)]
pub struct Batch {
    held: Held,
}

/// A batch needs no box for messages without a byte.
#[derive(Debug, Drop)]
enum Held {
    /// As many messages without a byte.
    Blank(u8),
    /// The messages, of which one at least has a byte.
    Full(Box<ArrayVec<Message, MAX_BATCH>>),
}

impl Model for Batch {
    ghost use Rattle.amo_packet.specs.Batch.{Batch as Messages};

    ghost Value = { Messages };

    ghost use Rattle.amo_packet.specs.Batch.{batch_from};
    ghost use Rattle.amo_packet.specs.Held.{held_messages, IsHeld};

    ghost view = { λ b. batch_from (held_messages b.held) };

    ghost invariant = { λ b. IsHeld b.held };
}

impl Batch {
    /// A batch of these messages, copied. Each length is judged before memory is asked for, and memory is taken only
    /// where there is a byte to copy.
    pub fn copy(alloc: Global, parts: &Parts<'_>) -> Result<Batch, MessageFault>
        ensures ok { IfOk result (λ b. (b ≡ batch_of parts.now) × AreShort b) }
        ensures too_long { IsErrOf result MessageFault.TooLong ↔ (¬ AreShort (batch_of parts.now)) }
        ensures memory { IsErrOf result MessageFault.NoMemory → (¬ AreBlank (batch_of parts.now)) × AreShort (batch_of parts.now) }
    {
        if !are_short(parts) {
            return Err(MessageFault::TooLong);
        }
        if are_blank(parts) {
            return Ok(Batch {
                held: Held::Blank(parts.len() as u8),
            });
        }
        let mut messages = ArrayVec::new();
        push_copies(alloc, parts, &mut messages)?;
        match Box::new(alloc, messages) {
            Ok(messages) => Ok(Batch {
                held: Held::Full(messages),
            }),
            Err(_) => Err(MessageFault::NoMemory),
        }
    }

    /// The messages, where they are held.
    pub fn as_parts(&self) -> Parts<'_>
        ensures value { batch_of result ≡ self.now }
        ensures fits { AreShort self.now }
    {
        match &self.held {
            Held::Blank(count) => Parts::blank(*count),
            Held::Full(messages) => Parts::of(messages.as_slice()),
        }
    }

    /// The messages, in order. It takes no memory.
    pub fn into_messages(self) -> ArrayVec<Message, MAX_BATCH>
        ensures { result.items ≡ messages self }
    {
        let Batch { held } = self;
        match held {
            Held::Blank(count) => blanks(count),
            Held::Full(messages) => Box::into_inner(messages),
        }
    }
}

/// As many messages without a byte.
fn blanks(count: u8) -> ArrayVec<Message, MAX_BATCH>
    requires { count ≤ MAX_BATCH }
    ensures { result.items ≡ replicate count [] }
{
    let mut messages = ArrayVec::new();
    for _ in 0..count {
        messages.push(Message::default());
    }
    messages
}

/// Whether each message keeps to its limit.
fn are_short(parts: &Parts<'_>) -> bool
    ensures { IsTrue result ↔ AreShort (batch_of parts.now) }
{
    let (first, rest) = parts.split_first();
    if first.len() > MAX_MESSAGE {
        return false;
    }
    match rest {
        None => true,
        Some(rest) => are_short(&rest),
    }
}

/// Whether no message has a byte.
fn are_blank(parts: &Parts<'_>) -> bool
    ensures { IsTrue result ↔ AreBlank (batch_of parts.now) }
{
    let (first, rest) = parts.split_first();
    if !first.is_empty() {
        return false;
    }
    match rest {
        None => true,
        Some(rest) => are_blank(&rest),
    }
}

/// Copies the messages, behind those that are there.
fn push_copies(
    alloc: Global,
    parts: &Parts<'_>,
    copies: &mut ArrayVec<Message, MAX_BATCH>,
) -> Result<(), MessageFault>
    requires fits { AreShort (batch_of parts.now) }
    requires room { array_vec_len copies.old + length (messages (batch_of parts.now)) ≤ MAX_BATCH }
    ensures ok { OnOk result (copies.new.items ≡ copies.old.items ++ messages (batch_of parts.now)) }
    ensures err { IfErr result (λ f. f ≡ MessageFault.NoMemory) }
{
    let (first, rest) = parts.split_first();
    copies.push(Message::copy(alloc, first)?);
    match rest {
        None => Ok(()),
        Some(rest) => push_copies(alloc, &rest, copies),
    }
}

/// A copy takes memory only where there is a byte to copy.
impl Clone for Batch {
    ghost use Rattle.std.specs.Prelude.{◌≡◌};
    ghost use Rattle.amo_packet.specs.Batch.{AreBlank};

    ghost is_clone = { λ batch copy. copy ≡ batch };

    ghost is_infallible = { AreBlank };

    fn clone(&self) -> Result<Batch, AllocError> {
        let held = match &self.held {
            Held::Blank(count) => Held::Blank(*count),
            Held::Full(messages) => Held::Full(messages.clone()?),
        };
        Ok(Batch { held })
    }
}

impl PartialEq for Batch {
    ghost use Rattle.std.specs.Prelude.{bytes_eq};
    ghost use Rattle.std.specs.Cmp.{on_per, partial_equiv_from_equiv};
    ghost use Rattle.std.specs.Cmp.Lexicographic.{pointwise, lists_per, nat_list_eq_equiv};
    ghost use Rattle.amo_packet.specs.Batch.{messages};

    ghost eq = { λ a b. pointwise bytes_eq (messages a) (messages b) };

    ghost laws = { on_per messages (lists_per (partial_equiv_from_equiv nat_list_eq_equiv)) };

    fn eq(&self, other: &Batch) -> bool {
        self.cmp(other).is_eq()
    }
}

impl Eq for Batch {
    ghost use Rattle.std.specs.Cmp.{on_equiv};
    ghost use Rattle.std.specs.Cmp.Lexicographic.{lists_equiv, nat_list_eq_equiv};
    ghost use Rattle.amo_packet.specs.Batch.{messages};

    ghost laws = { on_equiv messages (lists_equiv nat_list_eq_equiv) };
}

impl PartialOrd for Batch {
    ghost use Rattle.std.specs.Prelude.{Some};
    ghost use Rattle.std.specs.Ordering.{nat_cmp};
    ghost use Rattle.std.specs.Cmp.{po, on_total};
    ghost use Rattle.std.specs.Cmp.Lexicographic.{slice_cmp, lists_total, lists_ties, nat_list_cmp_total, texts_ties};
    ghost use Rattle.amo_packet.specs.Batch.{messages};

    ghost partial_cmp = { λ a b. Some (slice_cmp (slice_cmp nat_cmp) (messages a) (messages b)) };

    ghost laws = { po (on_total messages (lists_total nat_list_cmp_total)) (λ a b. lists_ties (slice_cmp nat_cmp) texts_ties (messages a) (messages b)) };

    fn partial_cmp(&self, other: &Batch) -> Option<Ordering> {
        Some(self.cmp(other))
    }
}

/// Batches stand in the order of their messages, as lists of words in a dictionary.
impl Ord for Batch {
    ghost use Rattle.std.specs.Prelude.{refl};
    ghost use Rattle.std.specs.Ordering.{nat_cmp};
    ghost use Rattle.std.specs.Cmp.{on_total};
    ghost use Rattle.std.specs.Cmp.Lexicographic.{slice_cmp, lists_total, lists_ties, nat_list_cmp_total, texts_ties};
    ghost use Rattle.amo_packet.specs.Batch.{messages};

    ghost cmp = { λ a b. slice_cmp (slice_cmp nat_cmp) (messages a) (messages b) };

    ghost total = { on_total messages (lists_total nat_list_cmp_total) };

    ghost matches_partial_cmp = { λ a b. refl };

    ghost matches_eq = { λ a b. lists_ties (slice_cmp nat_cmp) texts_ties (messages a) (messages b) };

    fn cmp(&self, other: &Batch) -> Ordering {
        compare(&self.as_parts(), &other.as_parts())
    }
}

/// The order of two batches.
fn compare(batch: &Parts<'_>, other: &Parts<'_>) -> Ordering
    ensures { result ≡ slice_cmp (slice_cmp nat_cmp) (messages (batch_of batch.now)) (messages (batch_of other.now)) }
{
    let (first, rest) = batch.split_first();
    let (its_first, its_rest) = other.split_first();
    match (first.cmp(its_first), rest, its_rest) {
        (Ordering::Equal, Some(rest), Some(its_rest)) => compare(&rest, &its_rest),
        (Ordering::Equal, Some(_), None) => Ordering::Greater,
        (Ordering::Equal, None, Some(_)) => Ordering::Less,
        (order, _, _) => order,
    }
}
