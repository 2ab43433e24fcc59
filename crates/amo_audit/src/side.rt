//! A side of a stream, as far as a merge has to know it: what it emitted depends on its own events alone.
ghost use Rattle.std.specs.Prelude.{◌≡◌, ◌↔◌, ◌++◌, List, [], IfOk, IsTrue};
ghost use Rattle.std.specs.Option.{option_to_list};
ghost use Rattle.std.specs.List.{Contains};
ghost use Rattle.amo_packet.specs.declared.packet.OwnedPacket.{OwnedPacket};
ghost use Rattle.amo_core.specs.declared.automaton.Automaton.{Automaton};
ghost use Rattle.amo_core.specs.Automaton.{row};
ghost use Rattle.amo_audit.specs.Side.{Represents};

use amo_core::{Act, Automaton};
use amo_packet::OwnedPacket;
use std::alloc::{AllocError, Global};
use std::collections::BTreeSet;

/// One side of a stream: its automaton, and the packets that it emitted.
#[derive(Drop)]
pub(crate) struct Side {
    automaton: Automaton,
    emitted: BTreeSet<OwnedPacket>,
}

impl Side {
    /// A side at which nothing happened yet.
    pub(crate) fn new(alloc: Global, automaton: Automaton) -> Side
        ensures { Represents result automaton [] }
    {
        Side {
            automaton,
            emitted: BTreeSet::new(alloc),
        }
    }

    /// Whether this side emitted the packet.
    pub(crate) fn has_emitted(&self, packet: &OwnedPacket) -> bool
        ensures { (automaton : Automaton) (emitted : List OwnedPacket) → Represents self.now automaton emitted
            → IsTrue result ↔ Contains emitted packet.now }
    {
        self.emitted.contains(packet)
    }

    /// Makes an act and notes what it emits, whatever the reply. Where memory runs out the side is lost.
    pub(crate) fn make(&mut self, alloc: Global, act: Act) -> Result<(), AllocError>
        ensures { IfOk result (λ _. (automaton : Automaton) (emitted : List OwnedPacket) → Represents self.old automaton emitted
            → Represents self.new (row automaton act).state (option_to_list (row automaton act).emitted ++ emitted)) }
    {
        let emitted = self.emission(alloc, &act)?;
        self.note(emitted)?;
        self.automaton.advance(act);
        Ok(())
    }

    /// The packet that the act will emit, if any.
    fn emission(&self, alloc: Global, act: &Act) -> Result<Option<OwnedPacket>, AllocError>
        ensures { IfOk result (λ packet. packet ≡ (row self.now.automaton act.now).emitted) }
    {
        let Some(packet) = self.automaton.emission(act) else {
            return Ok(None);
        };
        Ok(Some(packet.copied(alloc)?))
    }

    /// Adds a packet, if there is one, to those that the side emitted.
    fn note(&mut self, packet: Option<OwnedPacket>) -> Result<(), AllocError>
        ensures state { self.new.automaton ≡ self.old.automaton }
        ensures known { IfOk result (λ _. (automaton : Automaton) (emitted : List OwnedPacket) → Represents self.old automaton emitted
            → Represents self.new automaton (option_to_list packet ++ emitted)) }
    {
        if let Some(packet) = packet {
            self.emitted.insert(packet)?;
        }
        Ok(())
    }
}
