//! The datagrams on their way from one end to the other.
ghost use Rattle.std.specs.Prelude.{◌≡◌, ◌↔◌, IsTrue, ◌≢◌, ◌≤◌, ◌++◌, ◌%◌, ◌-◌, [], min, take, drop, length, Some, IfOk, OnOk, OnErr, slice_get, remove};
ghost use Rattle.arrayvec.specs.ArrayVec.{array_vec_len};
ghost use Rattle.amo_net.specs.Lossy.{copies, queued_copies, sent};

use crate::MAX_DATAGRAM;
use arrayvec::ArrayVec;
use std::alloc::{AllocError, Global};
use std::default::MadeWith;
use std::marker::Model;

/// The most datagrams that a direction of a channel holds.
pub const MAX_QUEUED: usize = 64;

/// Contracts see a datagram as its bytes.
#[derive(Drop)]
pub(crate) struct Datagram {
    bytes: Vec<u8>,
}

impl Model for Datagram {
    ghost use Rattle.std.specs.Prelude.{List, ℕ, ◌≤◌, length};
    ghost use Rattle.amo_net.specs.declared.link.TheConstants.{MAX_DATAGRAM};

    ghost Value = { List ℕ };

    ghost view = { λ d. d.bytes.items };

    ghost invariant = { λ d. length d.bytes.items ≤ MAX_DATAGRAM };
}

impl MadeWith<Global> for Datagram {
    fn made_with(alloc: Global) -> Datagram {
        Datagram::empty(alloc)
    }
}

impl Datagram {
    /// A datagram without bytes, which takes no memory yet.
    pub(crate) fn empty(alloc: Global) -> Datagram {
        Datagram {
            bytes: Vec::new(alloc),
        }
    }

    /// A datagram of these bytes, or of as many at their front as a buffer holds, in the room of this one.
    #[tactic(auto, using(std::proofs::lemmas::List::take_min))]
    pub(crate) fn copy(self, bytes: &[u8]) -> Result<Datagram, AllocError>
        ensures { IfOk result (λ d. d ≡ take MAX_DATAGRAM bytes.now) }
    {
        let length = MAX_DATAGRAM.min(bytes.len());
        let mut room = self.bytes;
        room.clear();
        room.extend_from_slice(&bytes[..length])?;
        Ok(Datagram { bytes: room })
    }

    /// Puts it at the front of the buffer, and answers its length.
    pub(crate) fn fill(&self, buffer: &mut [u8; MAX_DATAGRAM]) -> usize
        ensures length { (result ≡ length self.now) × (result ≤ MAX_DATAGRAM) }
        ensures front { buffer.new ≡ self.now ++ drop result buffer.old }
    {
        let length = self.bytes.len();
        buffer[..length].copy_from_slice(self.bytes.as_slice());
        length
    }
}

/// A datagram before its word is drawn, which may ask for two copies: here both are made. Contracts see its bytes.
#[derive(Drop)]
pub(crate) struct Twins {
    first: Datagram,
    second: Datagram,
}

impl Model for Twins {
    ghost use Rattle.std.specs.Prelude.{List, ℕ, ◌≡◌, ◌≤◌, length};
    ghost use Rattle.amo_net.specs.declared.link.TheConstants.{MAX_DATAGRAM};

    ghost Value = { List ℕ };

    ghost view = { λ t. t.first };

    ghost invariant = { λ t. (t.second ≡ t.first) × (length t.first ≤ MAX_DATAGRAM) };
}

impl Twins {
    /// Both copies of these bytes, or of as many at their front as a buffer holds, in these rooms.
    pub(crate) fn of(rooms: (Datagram, Datagram), bytes: &[u8]) -> Result<Twins, AllocError>
        ensures { IfOk result (λ t. t ≡ take MAX_DATAGRAM bytes.now) }
    {
        let (one, other) = rooms;
        Ok(Twins {
            first: one.copy(bytes)?,
            second: other.copy(bytes)?,
        })
    }
}

/// At most [`MAX_QUEUED`] datagrams. Contracts see their list, the one that was sent first at the front.
#[derive(Drop)]
pub(crate) struct Direction {
    alloc: Global,
    datagrams: ArrayVec<Datagram, MAX_QUEUED, Global>,
    /// What was received. Its room is used again, so that not each datagram takes memory.
    spare: ArrayVec<Datagram, MAX_QUEUED, Global>,
}

impl Model for Direction {
    ghost use Rattle.std.specs.Prelude.{List, ℕ, ◌≤◌, length};
    ghost use Rattle.amo_net.specs.declared.direction.TheConstants.{MAX_QUEUED};

    ghost Value = { List (List ℕ) };

    ghost view = { λ d. d.datagrams.items };

    ghost invariant = { λ d. length d.datagrams.items ≤ MAX_QUEUED };
}

impl Direction {
    pub(crate) fn new(alloc: Global) -> Direction
        ensures { result ≡ [] }
    {
        Direction {
            alloc,
            datagrams: ArrayVec::new_in(alloc),
            spare: ArrayVec::new_in(alloc),
        }
    }

    pub(crate) fn is_empty(&self) -> bool
        ensures { IsTrue result ↔ (self.now ≡ []) }
    {
        self.datagrams.is_empty()
    }

    /// How many datagrams it has room for.
    fn room(&self) -> usize
        ensures { result ≡ MAX_QUEUED - length self.now }
    {
        MAX_QUEUED - self.datagrams.len()
    }

    /// Does with a datagram of these bytes what the word says.
    pub(crate) fn send(&mut self, word: u64, bytes: &[u8]) -> Result<(), AllocError>
        ensures ok { OnOk result (self.new ≡ sent word bytes.now self.old) }
        ensures memory { OnErr result (self.new ≡ self.old) }
        ensures needed { OnErr result (queued_copies word self.old ≢ 0) }
    {
        match copies(word).min(self.room()) {
            0 => Ok(()),
            1 => {
                let only = self.copy(bytes)?;
                self.datagrams.push(only);
                Ok(())
            }
            _ => {
                let first = self.copy(bytes)?;
                let second = self.copy(bytes)?;
                self.datagrams.push(first);
                self.datagrams.push(second);
                Ok(())
            }
        }
    }

    /// Does with a datagram what the word says. Its copies are made, so that this takes no memory.
    pub(crate) fn queue(&mut self, word: u64, twins: Twins)
        ensures { self.new ≡ sent word twins self.old }
    {
        let Twins { first, second } = twins;
        match copies(word).min(self.room()) {
            0 => {
                self.keep_room(first);
                self.keep_room(second);
            }
            1 => {
                self.datagrams.push(first);
                self.keep_room(second);
            }
            _ => {
                self.datagrams.push(first);
                self.datagrams.push(second);
            }
        }
    }

    /// A copy of these bytes, in spare room if there is some.
    fn copy(&mut self, bytes: &[u8]) -> Result<Datagram, AllocError>
        ensures copy { IfOk result (λ d. d ≡ take MAX_DATAGRAM bytes.now) }
        ensures same { self.new ≡ self.old }
    {
        let room = self.spare.pop();
        room.unwrap_or(Datagram::empty(self.alloc)).copy(bytes)
    }

    /// Keeps the room of a datagram that is not used any more, if there are not enough of them.
    pub(crate) fn keep_room(&mut self, datagram: Datagram)
        ensures { self.new ≡ self.old }
    {
        if !self.spare.is_full() {
            self.spare.push(datagram);
        }
    }

    /// Room that is kept, if there is some.
    pub(crate) fn room_kept(&mut self) -> Option<Datagram>
        ensures { self.new ≡ self.old }
    {
        self.spare.pop()
    }

    /// Takes out the datagram that the word names.
    pub(crate) fn pick(&mut self, word: u64) -> Datagram
        requires { self.old ≢ [] }
        ensures one { slice_get self.old (word % length self.old) ≡ Some result }
        ensures rest { self.new ≡ remove self.old (word % length self.old) }
    {
        let place = (word % self.datagrams.len() as u64) as usize;
        match self.datagrams.pop_at(place) {
            Some(datagram) => datagram,
            None => unreachable!(),
        }
    }
}

/// How many copies of a datagram a word asks for.
fn copies(word: u64) -> usize
    ensures { result ≡ copies word }
{
    match word % 8 {
        0 => 0,
        1 => 2,
        _ => 1,
    }
}
