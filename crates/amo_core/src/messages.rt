//! Messages that travel together.
ghost use Rattle.std.specs.Prelude.{◌≡◌, ◌↔◌, ◌≤◌, ◌⊎◌, [], length, IsTrue};
ghost use Rattle.amo_packet.specs.Batch.{Batch, AreShort, alone, batch_from, messages};
ghost use Rattle.amo_packet.specs.Packet.{batch_of};

use amo_packet::{MAX_BATCH, Message, Parts};
use arrayvec::ArrayVec;
use std::marker::Model;
use std::mem;

/// One to [`MAX_BATCH`] messages, in order, which take no memory beside their own. Contracts see a list that is never empty.
#[derive(Drop)]
pub struct Messages {
    items: ArrayVec<Message, MAX_BATCH>,
}

impl Model for Messages {
    ghost Value = { Batch };

    ghost view = { λ m. batch_from m.items.items };

    ghost invariant = { λ m. 1 ≤ length m.items.items };
}

impl From<Message> for Messages {
    ghost from_gives = { λ message alone_now. alone_now ≡ alone message };

    #[inline(always)]
    fn from(message: Message) -> Messages {
        let mut items = ArrayVec::new();
        items.push(message);
        Messages::of(items)
    }
}

impl Messages {
    /// These messages.
    pub fn of(items: ArrayVec<Message, MAX_BATCH>) -> Messages
        requires { 1 ≤ length items.items }
        ensures { result ≡ batch_from items.items }
    {
        Messages { items }
    }

    /// The first message.
    pub fn first(&self) -> &Message
        ensures { result.now ≡ self.now.first }
    {
        &self.items[0]
    }

    /// Whether there is one message only.
    pub fn is_alone(&self) -> bool
        ensures { IsTrue result ↔ (self.now.rest ≡ []) }
    {
        self.items.len() == 1
    }

    /// How many messages there are.
    pub fn len(&self) -> usize
        ensures { result ≡ length (messages self.now) }
    {
        self.items.len()
    }

    /// Takes the first message, and leaves those after it. Where there are none, a message without a byte is left.
    pub(crate) fn take_first(&mut self) -> Message
        ensures first { result ≡ self.old.first }
        ensures rest { (self.old.rest ≡ []) ⊎ (messages self.new ≡ self.old.rest) }
    {
        if self.is_alone() {
            mem::take(&mut self.items[0])
        } else {
            self.items.remove(0)
        }
    }

    /// The messages, borrowed.
    pub fn as_parts(&self) -> Parts<'_>
        ensures value { batch_of result ≡ self.now }
        ensures fits { AreShort self.now }
    {
        Parts::of(self.items.as_slice())
    }
}
