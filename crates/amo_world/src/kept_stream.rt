//! Both sides of a stream: whether an event may happen there, and what it changes.
ghost use Rattle.std.specs.Prelude.{◌≡◌, ◌↔◌, List, Some, length, OnOk, IsTrue};
ghost use Rattle.amo_object.specs.End.{other};
ghost use Rattle.amo_core.specs.Automaton.{row};
ghost use Rattle.amo_world.specs.declared.emission.Emission.{Emission};
ghost use Rattle.amo_world.specs.Stream.{Stream, reply_of};
ghost use Rattle.amo_world.specs.KeptSide.{Notes};
ghost use Rattle.amo_world.specs.KeptStream.{side_of, Represents};
ghost use Rattle.amo_world.specs.LogRoom.{IsSameLog, HasRoom};
ghost use Rattle.amo_world.specs.History.{WasEmitted};

use crate::emission::Emitted;
use crate::kept_side::KeptSide;
use crate::log::Log;
use crate::{Event, WorldFault};
use amo_core::{Act, Automaton, Receiver, Sender};
use amo_object::End;
use std::alloc::Global;

/// Both sides of a stream.
#[derive(Drop)]
pub(crate) struct KeptStream {
    sender: KeptSide,
    receiver: KeptSide,
}

impl KeptStream {
    ghost use Rattle.std.specs.Borrow.{sem};
    ghost use Rattle.amo_world.specs.Stream.{initial};
    ghost use Rattle.amo_world.specs.KeptStream.{LendsSide};

    /// The stream of this number, with nothing done yet.
    pub(crate) fn new(alloc: Global, number: u32) -> KeptStream
        ensures { (stored : List Emission) → Represents result stored (initial number) }
    {
        KeptStream {
            sender: KeptSide::new(alloc, Automaton::Sender(Sender::new(number))),
            receiver: KeptSide::new(alloc, Automaton::Receiver(Receiver::new(number))),
        }
    }

    fn side(&self, side: End) -> &KeptSide
        ensures { result.now ≡ side_of self.now side }
    {
        match side {
            End::Sender => &self.sender,
            End::Receiver => &self.receiver,
        }
    }

    // Inlined, as what passes through it.
    #[inline(always)]
    fn side_mut(&mut self, side: End) -> &mut KeptSide
        ensures* writes_back { sem 𝓛 (LendsSide self.entry side result) }
        ensures value { result.now ≡ side_of self.old side }
    {
        match side {
            End::Sender => &mut self.sender,
            End::Receiver => &mut self.receiver,
        }
    }

    /// Whether the event's reply is the one of the row of its act.
    pub(crate) fn has_right_reply(&self, event: &Event) -> bool
        ensures { (stored : List Emission) (s : Stream) → Represents self.now stored s
            → IsTrue result ↔ (reply_of s event.now.side event.now.act ≡ Some event.now.reply) }
    {
        let side = self.side(event.side);
        side.automaton.replies(&event.act, &event.reply)
    }

    /// Whether the event delivers no packet, or one that the other side emitted before.
    pub(crate) fn delivers_emitted(&self, event: &Event, log: &Log) -> bool
        ensures { (s : Stream) → Represents self.now log.now.stored.items s → IsTrue result ↔ WasEmitted s event.now.side event.now.act }
    {
        match &event.act {
            Act::Deliver(packet, _) => self.side(event.side.other()).has_emitted(packet, log),
            _ => true,
        }
    }

    /// Notes what the act will emit, unless the act would use up a word again; see [`KeptSide::note`].
    #[inline(always)]
    pub(crate) fn note(
        &mut self,
        alloc: Global,
        side: End,
        act: &Act,
        log: &mut Log,
    ) -> Result<Emitted, WorldFault>
        ensures noted { Notes (side_of self.old side) (side_of self.new side) (length log.old.stored.items) act.now result }
        ensures other { side_of self.new (other side) ≡ side_of self.old (other side) }
        ensures log { IsSameLog log.old log.new }
        ensures room { OnOk result (HasRoom log.new) }
    {
        self.side_mut(side).note(alloc, act, log)
    }

    /// Makes the act of an event, whose emission was noted.
    #[inline(always)]
    pub(crate) fn advance(&mut self, side: End, act: Act)
        ensures state { (side_of self.new side).automaton ≡ (row (side_of self.old side).automaton act).state }
        ensures index { (side_of self.new side).index ≡ (side_of self.old side).index }
        ensures other { side_of self.new (other side) ≡ side_of self.old (other side) }
    {
        self.side_mut(side).advance(act);
    }
}
