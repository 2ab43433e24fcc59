//! Packets that are to leave, and those that may leave again.
ghost use Rattle.std.specs.Prelude.{◌≡◌, ◌<◌, ◌≤◌, ◌+◌, ◌++◌, ◌∷◌, [], take, length, slice_get, Some, true, false, IfOk, OnOk, OnErr};
ghost use Rattle.amo_book.specs.Book.{Each};
ghost use Rattle.amo_live.specs.Emitted.{IsRecent, Learns, RecentState, nothing_recent, packet_in};

use crate::parcel::Parcel;
use crate::recent::Recent;
use amo_net::Link;
use amo_packet::MAX_PACKET;
use std::alloc::{AllocError, Global};
use std::marker::Model;

/// How many packets that are kept no more wait for others: as many as a turn of all streams lets leave.
const MOST_SPARE: usize = 256;

/// The most bytes for which one has room that waits. So none that was long keeps its room.
const MOST_ROOM: usize = 256;

/// The packets that are to leave, in their order, and for each place those that its side emitted of late. Contracts see the bytes of each.
#[derive(Drop)]
pub struct Outbox {
    alloc: Global,
    parcels: Vec<Parcel>,
    recent: Vec<Recent>,
    // Packets that are kept no more, whose room waits for others.
    spare: Vec<Parcel>,
}

impl Model for Outbox {
    ghost use Rattle.amo_live.specs.Emitted.{OutboxState};

    ghost Value = { OutboxState };

    ghost view = { λ o. record { leaving = o.parcels.items; recent = o.recent.items } };
}

impl Outbox {
    /// Nothing is to leave, and in none of so many places anything was emitted.
    pub fn new(alloc: Global, places: usize) -> Result<Outbox, AllocError>
        ensures leaving { IfOk result (λ outbox. outbox.leaving ≡ []) }
        ensures places { IfOk result (λ outbox. length outbox.recent ≡ places) }
        ensures nothing { IfOk result (λ outbox. Each (λ r. r ≡ nothing_recent) outbox.recent) }
    {
        let mut recent = Vec::new(alloc);
        'places: for _place in 0..places {
            recent.push(Recent::new())?;
        }
        Ok(Outbox {
            alloc,
            parcels: Vec::new(alloc),
            recent,
            spare: Vec::new(alloc),
        })
    }

    /// Adds the packet at the front of this buffer, if there is one: the side in this place emitted it, as an answer or as a packet of its
    /// mode.
    pub fn push(
        &mut self,
        place: usize,
        is_answer: bool,
        buffer: &[u8; MAX_PACKET],
        count: Option<usize>,
    ) -> Result<(), AllocError>
        requires { place < length self.old.recent }
        ensures leaving { OnOk result (self.new.leaving ≡ self.old.leaving ++ packet_in buffer.now count) }
        ensures recent { OnOk result (Learns place is_answer self.old.recent self.new.recent (packet_in buffer.now count)) }
        ensures unchanged { OnErr result (self.new ≡ self.old) }
    {
        let Some(count) = count else {
            return Ok(());
        };
        let kept = Parcel::copy(self.alloc, self.spare.pop(), buffer, count)?;
        self.add(buffer, count)?;
        if let Some(parcel) = self.recent[place].keep(is_answer, kept) {
            give_back(&mut self.spare, parcel);
        }
        Ok(())
    }

    /// Adds the packet at the front of this buffer again, if the side in this place emitted it of late. Answers whether it did.
    pub fn repeat(
        &mut self,
        place: usize,
        buffer: &[u8; MAX_PACKET],
        count: usize,
    ) -> Result<bool, AllocError>
        requires { place < length self.old.recent }
        ensures again { IfOk result (λ known. known ≡ true → self.new.leaving ≡ self.old.leaving ++ take count buffer.now ∷ []) }
        ensures known { IfOk result (λ known. known ≡ true → (r : RecentState) → slice_get self.old.recent place ≡ Some r → IsRecent r (take count buffer.now)) }
        ensures other { IfOk result (λ known. known ≡ false → self.new.leaving ≡ self.old.leaving) }
        ensures unknown { IfOk result (λ known. known ≡ false → (r : RecentState) → slice_get self.old.recent place ≡ Some r → ¬ (IsRecent r (take count buffer.now))) }
        ensures recent { self.new.recent ≡ self.old.recent }
        ensures unchanged { OnErr result (self.new ≡ self.old) }
    {
        let is_known = self.recent[place].knows(&buffer[..count.min(MAX_PACKET)]);
        if is_known {
            self.add(buffer, count)?;
        }
        Ok(is_known)
    }

    /// The packet at the front of this buffer is to leave too.
    fn add(&mut self, buffer: &[u8; MAX_PACKET], count: usize) -> Result<(), AllocError>
        ensures leaving { OnOk result (self.new.leaving ≡ self.old.leaving ++ take count buffer.now ∷ []) }
        ensures recent { self.new.recent ≡ self.old.recent }
        ensures unchanged { OnErr result (self.new ≡ self.old) }
    {
        let parcel = Parcel::copy(self.alloc, self.spare.pop(), buffer, count)?;
        self.parcels.push(parcel)?;
        Ok(())
    }

    /// How many packets are to leave.
    pub fn leaving(&self) -> usize
        ensures { result ≡ length self.now.leaving }
    {
        self.parcels.len()
    }

    /// Hands all packets that are to leave to a link, in their order, and answers how often it failed: its device did so no more often. Then there are none.
    pub fn send<L: Link>(&mut self, link: &mut L) -> u64
        ensures none { self.new ≡ record self.old { leaving = [] } }
        ensures counted { L.failures link.new ≤ L.failures link.old + result }
        ensures few { result ≤ length self.old.leaving }
    {
        let mut failed = 0usize;
        'parcels: for place in 0..self.parcels.len() {
            if link.send(self.parcels[place].bytes()).is_err() {
                failed += 1;
            }
        }
        give_back_all(&mut self.spare, &mut self.parcels);
        failed as u64
    }
}

/// None of these packets is kept any more.
fn give_back_all(spare: &mut Vec<Parcel>, parcels: &mut Vec<Parcel>)
    ensures { parcels.new.items ≡ [] }
{
    'parcels: while let Some(parcel) = parcels.pop() {
        give_back(spare, parcel);
    }
}

/// The room of a packet that is kept no more waits for another one, unless it is large, or enough do.
fn give_back(spare: &mut Vec<Parcel>, parcel: Parcel) {
    if spare.len() < MOST_SPARE && parcel.room() <= MOST_ROOM {
        let _ = spare.push(parcel);
    }
}
