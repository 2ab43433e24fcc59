//! Messages: bytes of bounded length.
ghost use Rattle.std.specs.Prelude.{◌≡◌, ◌≢◌, ◌↔◌, ◌<◌, ◌≤◌, [], length, IfOk, IsErrOf};

use std::alloc::{AllocError, Global};
use std::cmp::Ordering;
use std::marker::Model;
use thiserror::Error;

/// The greatest length of a message, in bytes.
pub const MAX_MESSAGE: usize = 1024;

/// Why bytes did not become a message. Nothing was taken or changed.
#[derive(Clone, Copy, Debug, PartialEq, Eq, Error)]
pub enum MessageFault {
    /// Memory for the copy was refused. The caller may try again later.
    #[error("out of memory")]
    NoMemory,
    /// The caller handed in more than [`MAX_MESSAGE`] bytes.
    #[error("the message is too long")]
    TooLong,
}

impl MessageFault {
    ghost use Rattle.amo_packet.specs.Message.{fault_code};

    /// The number of this fault.
    pub fn code(&self) -> u8
        ensures { result ≡ fault_code self.now }
    {
        match self {
            MessageFault::NoMemory => 9,
            MessageFault::TooLong => 19,
        }
    }
}

impl From<AllocError> for MessageFault {
    ghost use Rattle.amo_packet.specs.declared.message.MessageFault.TheVariants.{NoMemory};

    ghost from_gives = { λ error fault. fault ≡ NoMemory };

    fn from(_error: AllocError) -> MessageFault {
        MessageFault::NoMemory
    }
}

/// A message of 0 to [`MAX_MESSAGE`] bytes. Contracts see the list of its bytes.
///
/// The message of no bytes holds no memory, so it can always be made.
#[derive(Debug, Default, Drop)]
pub struct Message {
    bytes: Option<Vec<u8>>,
}

impl Model for Message {
    ghost use Rattle.std.specs.Prelude.{List, ℕ};
    ghost use Rattle.amo_packet.specs.Message.{bytes_of, IsShort};

    ghost Value = { List ℕ };

    ghost view = { λ m. bytes_of m.bytes };

    ghost invariant = { λ m. IsShort (bytes_of m.bytes) };
}

impl Message {
    /// A message of these bytes, copied. It takes memory only where there is a byte to copy.
    pub fn copy(alloc: Global, bytes: &[u8]) -> Result<Message, MessageFault>
        ensures ok { IfOk result (λ m. (m ≡ bytes.now) × (length m ≤ MAX_MESSAGE)) }
        ensures too_long { IsErrOf result MessageFault.TooLong ↔ (MAX_MESSAGE < length bytes.now) }
        ensures memory { IsErrOf result MessageFault.NoMemory → (bytes.now ≢ []) × (length bytes.now ≤ MAX_MESSAGE) }
    {
        if bytes.len() > MAX_MESSAGE {
            return Err(MessageFault::TooLong);
        }
        if bytes.is_empty() {
            return Ok(Message::default());
        }
        let copy = Vec::from_slice(alloc, bytes)?;
        Ok(Message { bytes: Some(copy) })
    }

    /// The bytes, in order.
    pub fn bytes(&self) -> &[u8]
        ensures value { result.now ≡ self.now }
        ensures bounded { length self.now ≤ MAX_MESSAGE }
    {
        match &self.bytes {
            None => &[],
            Some(bytes) => bytes.as_slice(),
        }
    }
}

/// A copy takes memory only where there is a byte to copy.
impl Clone for Message {
    ghost is_clone = { λ message copy. copy ≡ message };

    ghost is_infallible = { λ message. message ≡ [] };

    fn clone(&self) -> Result<Message, AllocError> {
        match &self.bytes {
            Some(bytes) if !bytes.is_empty() => Ok(Message {
                bytes: Some(bytes.clone()?),
            }),
            _ => Ok(Message::default()),
        }
    }
}

impl PartialEq for Message {
    ghost use Rattle.std.specs.Prelude.{bytes_eq};
    ghost use Rattle.std.specs.Cmp.{partial_equiv_from_equiv};
    ghost use Rattle.std.specs.Cmp.Lexicographic.{nat_list_eq_equiv};

    ghost eq = { bytes_eq };

    ghost laws = { partial_equiv_from_equiv nat_list_eq_equiv };

    fn eq(&self, other: &Message) -> bool {
        self.bytes() == other.bytes()
    }
}

impl Eq for Message {
    ghost use Rattle.std.specs.Cmp.Lexicographic.{nat_list_eq_equiv};

    ghost laws = { nat_list_eq_equiv };
}

impl PartialOrd for Message {
    ghost use Rattle.std.specs.Prelude.{Some};
    ghost use Rattle.std.specs.Ordering.{nat_cmp};
    ghost use Rattle.std.specs.Cmp.Lexicographic.{slice_cmp, texts_po};

    ghost partial_cmp = { λ a b. Some (slice_cmp nat_cmp a b) };

    ghost laws = { texts_po };

    fn partial_cmp(&self, other: &Message) -> Option<Ordering> {
        Some(self.cmp(other))
    }
}

/// Messages stand in the order of their bytes, as words in a dictionary.
impl Ord for Message {
    ghost use Rattle.std.specs.Prelude.{refl};
    ghost use Rattle.std.specs.Ordering.{nat_cmp};
    ghost use Rattle.std.specs.Cmp.Lexicographic.{slice_cmp, nat_list_cmp_total, texts_ties};

    ghost cmp = { slice_cmp nat_cmp };

    ghost total = { nat_list_cmp_total };

    ghost matches_partial_cmp = { λ a b. refl };

    ghost matches_eq = { texts_ties };

    fn cmp(&self, other: &Message) -> Ordering {
        self.bytes().cmp(other.bytes())
    }
}
