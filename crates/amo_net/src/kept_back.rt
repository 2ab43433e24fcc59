//! Datagrams that an end keeps back until it is at the channel again.
ghost use Rattle.std.specs.Prelude.{◌≡◌, ◌↔◌, ◌++◌, ◌∷◌, [], take, IsTrue, OnErr, OnOk};
ghost use Rattle.amo_net.specs.Lossy.{SendsAll};

use crate::direction::{Datagram, Twins};
use crate::{Lossy, MAX_DATAGRAM};
use amo_object::End;
use amo_word::Words;
use arrayvec::ArrayVec;
use std::alloc::{AllocError, Global};
use std::collections::VecDeque;
use std::marker::Model;

/// How many datagrams are kept back at most.
const MOST_KEPT: usize = 16;

/// How many rooms for copies are kept at most.
const ROOMS: usize = 2 * MOST_KEPT;

/// At most sixteen datagrams, copied as they were kept back, so that letting them go takes no memory. Contracts see their list, the one that
/// is to go first at the front.
#[derive(Drop)]
pub(crate) struct KeptBack {
    alloc: Global,
    datagrams: VecDeque<Twins>,
    /// Rooms for those that come next, so that not each of them takes memory.
    rooms: ArrayVec<Datagram, ROOMS, Global>,
}

impl Model for KeptBack {
    ghost use Rattle.std.specs.Prelude.{List, ℕ};

    ghost Value = { List (List ℕ) };

    ghost view = { λ k. k.datagrams.items };
}

impl KeptBack {
    pub(crate) fn new(alloc: Global) -> KeptBack
        ensures { result ≡ [] }
    {
        KeptBack {
            alloc,
            datagrams: VecDeque::new(alloc),
            rooms: ArrayVec::new_in(alloc),
        }
    }

    /// Whether nothing is kept back.
    pub(crate) fn is_empty(&self) -> bool
        ensures { IsTrue result ↔ (self.now ≡ []) }
    {
        self.datagrams.is_empty()
    }

    /// Whether no more is kept back.
    pub(crate) fn is_full(&self) -> bool {
        self.datagrams.len() >= MOST_KEPT
    }

    /// Keeps a datagram of these bytes back, or of as many at their front as a buffer holds. Where memory is refused it is not kept.
    pub(crate) fn push(&mut self, bytes: &[u8]) -> Result<(), AllocError>
        ensures kept { OnOk result (self.new ≡ self.old ++ take MAX_DATAGRAM bytes.now ∷ []) }
        ensures refused { OnErr result (self.new ≡ self.old) }
    {
        let rooms = (self.room(), self.room());
        let twins = Twins::of(rooms, bytes)?;
        self.datagrams.reserve(1)?;
        self.datagrams.push_back_reserved(twins);
        Ok(())
    }

    /// Room for a copy.
    fn room(&mut self) -> Datagram
        ensures { self.new ≡ self.old }
    {
        let kept = self.rooms.pop();
        kept.unwrap_or(Datagram::empty(self.alloc))
    }

    /// Sends them on the channel from this end, and takes rooms for the next ones from there.
    pub(crate) fn go<W: Words>(&mut self, channel: &mut Lossy<W>, from: End)
        ensures over { self.new ≡ [] }
        ensures sent { SendsAll W.to_come from self.old channel.old channel.new }
    {
        send_all(&mut self.datagrams, channel, from);
        take_rooms(&mut self.rooms, channel, from);
    }
}

/// Takes rooms from the channel, as many as it has and as find a place.
fn take_rooms<W>(rooms: &mut ArrayVec<Datagram, ROOMS, Global>, channel: &mut Lossy<W>, from: End)
    ensures { channel.new ≡ channel.old }
{
    'rooms: for _place in rooms.len()..ROOMS {
        let Some(room) = channel.room_kept(from) else {
            break;
        };
        let _ = rooms.try_push(room);
    }
}

/// Sends all of these datagrams on the channel from this end, in their order.
fn send_all<W: Words>(datagrams: &mut VecDeque<Twins>, channel: &mut Lossy<W>, from: End)
    ensures over { datagrams.new.items ≡ [] }
    ensures sent { SendsAll W.to_come from datagrams.old.items channel.old channel.new }
{
    'datagrams: while let Some(twins) = datagrams.pop_front() {
        channel.queue(from, twins);
    }
}
