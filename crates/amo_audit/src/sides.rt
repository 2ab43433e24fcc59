//! Both sides of a stream, as far as a merge has to know them.
ghost use Rattle.std.specs.Prelude.{◌≡◌, ◌↔◌, IfOk, IsTrue};
ghost use Rattle.amo_world.specs.Stream.{Stream, initial, after};
ghost use Rattle.amo_world.specs.History.{WasEmitted};
ghost use Rattle.amo_audit.specs.Sides.{side_of, Represents};

use crate::side::Side;
use amo_core::{Act, Automaton, Receiver, Sender};
use amo_object::End;
use amo_world::Event;
use std::alloc::{AllocError, Global};

/// Both sides of a stream.
#[derive(Drop)]
pub(crate) struct Sides {
    sender: Side,
    receiver: Side,
}

impl Sides {
    /// The stream of this number, with nothing done yet.
    pub(crate) fn new(alloc: Global, number: u32) -> Sides
        ensures { Represents result (initial number) }
    {
        Sides {
            sender: Side::new(alloc, Automaton::Sender(Sender::new(number))),
            receiver: Side::new(alloc, Automaton::Receiver(Receiver::new(number))),
        }
    }

    fn side(&self, side: End) -> &Side
        ensures { result.now ≡ side_of self.now side }
    {
        match side {
            End::Sender => &self.sender,
            End::Receiver => &self.receiver,
        }
    }

    /// Whether the event delivers no packet, or one that the other side emitted before.
    pub(crate) fn delivers_emitted(&self, event: &Event) -> bool
        ensures { (s : Stream) → Represents self.now s → IsTrue result ↔ WasEmitted s event.now.side event.now.act }
    {
        match &event.act {
            Act::Deliver(packet, _) => self.side(event.side.other()).has_emitted(packet),
            _ => true,
        }
    }

    /// Makes an act of a side.
    pub(crate) fn make(&mut self, alloc: Global, side: End, act: Act) -> Result<(), AllocError>
        ensures { IfOk result (λ _. (s : Stream) → Represents self.old s → Represents self.new (after s side act)) }
    {
        match side {
            End::Sender => self.sender.make(alloc, act),
            End::Receiver => self.receiver.make(alloc, act),
        }
    }
}
