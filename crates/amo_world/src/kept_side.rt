//! A side of a stream, with all that judging its next act needs.
ghost use Rattle.std.specs.Prelude.{◌≡◌, ◌↔◌, List, [], length, IfOk, OnOk, IsTrue};
ghost use Rattle.std.specs.List.{Contains};
ghost use Rattle.amo_object.specs.declared.step.End.{End};
ghost use Rattle.amo_packet.specs.declared.packet.OwnedPacket.{OwnedPacket};
ghost use Rattle.amo_packet.specs.Packet.{packet_of, body_of};
ghost use Rattle.amo_packet.specs.Grammar.{CanBeWritten};
ghost use Rattle.amo_core.specs.declared.automaton.Automaton.{Automaton};
ghost use Rattle.amo_core.specs.Automaton.{row};
ghost use Rattle.amo_world.specs.declared.emission.Emission.{Emission};
ghost use Rattle.amo_world.specs.KeptSide.{Represents, Notes};
ghost use Rattle.amo_world.specs.LogRoom.{IsSameLog, HasRoom};

use crate::WorldFault;
use crate::emission::Emitted;
use crate::index::PacketIndex;
use crate::key::key_of;
use crate::log::Log;
use amo_core::{Act, Automaton};
use amo_packet::{OwnedPacket, Packet};
use std::alloc::{AllocError, Global};

/// One side of a stream: its automaton, and an index of the packets that it emitted.
#[derive(Drop)]
pub(crate) struct KeptSide {
    pub(crate) automaton: Automaton,
    index: PacketIndex,
}

impl KeptSide {
    /// A side at which nothing happened yet.
    pub(crate) fn new(alloc: Global, automaton: Automaton) -> KeptSide
        ensures { (side : End) (stored : List Emission) → Represents result side stored automaton [] }
    {
        KeptSide {
            automaton,
            index: PacketIndex::new(alloc),
        }
    }

    /// Whether this side emitted the packet.
    pub(crate) fn has_emitted(&self, packet: &OwnedPacket, log: &Log) -> bool
        ensures { (side : End) (automaton : Automaton) (emitted : List OwnedPacket)
            → Represents self.now side log.now.stored.items automaton emitted → IsTrue result ↔ Contains emitted packet.now }
    {
        let key = key_of(packet.as_packet().body);
        let Some(place) = self.index.get(&key) else {
            return false;
        };
        match log.at(place) {
            Some(emission) => emission.packet == *packet,
            None => false,
        }
    }

    /// Notes what the act will emit, unless the act would use up a word again. A packet that this side did not emit before
    /// gets the next place of the log, which has room for it then. Where it is refused nothing has changed.
    // Inlined up to the world's calls, as all that an event passes through: what is noted does not travel through memory.
    #[inline(always)]
    pub(crate) fn note(
        &mut self,
        alloc: Global,
        act: &Act,
        log: &mut Log,
    ) -> Result<Emitted, WorldFault>
        ensures noted { Notes self.old self.new (length log.old.stored.items) act.now result }
        ensures log { IsSameLog log.old log.new }
        ensures room { OnOk result (HasRoom log.new) }
    {
        let Some(packet) = self.automaton.emission(act) else {
            log.reserve()?;
            return Ok(Emitted::Nothing);
        };
        let key = key_of(packet.body);
        if let Some(place) = self.index.get(&key) {
            if self.automaton.used_word(act).is_some() {
                return Err(WorldFault::Repeat);
            }
            log.reserve()?;
            return Ok(Emitted::Again(place));
        }
        let packet = first(alloc, packet, log)?;
        self.index.put(alloc, key, log.next_place())?;
        Ok(Emitted::First(packet))
    }

    /// Makes the act, whose emission was noted.
    // Inlined up to the world's calls: the act is not copied at each call between.
    #[inline(always)]
    pub(crate) fn advance(&mut self, act: Act)
        ensures state { self.new.automaton ≡ (row self.old.automaton act).state }
        ensures index { self.new.index ≡ self.old.index }
    {
        self.automaton.advance(act);
    }
}

/// A packet of its own, with room for it in the log.
fn first(alloc: Global, packet: Packet<'_>, log: &mut Log) -> Result<OwnedPacket, AllocError>
    requires { CanBeWritten (body_of packet.body) }
    ensures value { IfOk result (λ owned. owned ≡ packet_of packet.entry) }
    ensures log { IsSameLog log.old log.new }
    ensures room { OnOk result (HasRoom log.new) }
{
    log.reserve()?;
    packet.copied(alloc)
}
