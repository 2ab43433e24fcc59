//! A packet that a host keeps.
ghost use Rattle.std.specs.Prelude.{◌≡◌, ◌≤◌, length, take, IfOk};

use amo_packet::MAX_PACKET;
use std::alloc::{AllocError, Global};
use std::marker::Model;

/// A packet. Contracts see its bytes.
#[derive(Drop)]
pub struct Parcel {
    bytes: Vec<u8>,
}

impl Model for Parcel {
    ghost use Rattle.std.specs.Prelude.{List, ℕ};

    ghost Value = { List ℕ };

    ghost view = { λ p. p.bytes.items };
}

impl Parcel {
    /// The packet at the front of this buffer, in the room of one that is kept no more, if there is one. Most packets are much shorter than the longest one.
    #[tactic(auto, using(std::proofs::lemmas::List::take_min))]
    pub fn copy(
        alloc: Global,
        spare: Option<Parcel>,
        buffer: &[u8; MAX_PACKET],
        count: usize,
    ) -> Result<Parcel, AllocError>
        ensures { IfOk result (λ parcel. parcel ≡ take count buffer.now) }
    {
        let mut bytes = match spare {
            Some(parcel) => parcel.bytes,
            None => Vec::new(alloc),
        };
        bytes.clear();
        bytes.extend_from_slice(&buffer[..count.min(MAX_PACKET)])?;
        Ok(Parcel { bytes })
    }

    /// Its bytes.
    pub fn bytes(&self) -> &[u8]
        ensures { result.now ≡ self.now }
    {
        self.bytes.as_slice()
    }

    /// For how many bytes it has room.
    pub fn room(&self) -> usize
        ensures { length self.now ≤ result }
    {
        self.bytes.capacity()
    }
}
