//! Both sides of a stream, of which each is judged without the other.
ghost use Rattle.std.specs.Prelude.{◌≡◌, Some, IfErr, OnOk};
ghost use Rattle.amo_world.specs.Stream.{Stream, initial, after, automaton_of, reply_of, words_of};
ghost use Rattle.amo_world.specs.History.{IsNewWord};
ghost use Rattle.amo_audit.specs.Alone.{AreLone, RefusesAct};

use crate::lone_side::LoneSide;
use amo_core::{Automaton, Receiver, Sender};
use amo_object::End;
use amo_world::{Event, WorldFault};
use std::alloc::Global;

/// Both sides of a stream.
#[derive(Drop)]
pub(crate) struct LoneSides {
    sender: LoneSide,
    receiver: LoneSide,
}

impl LoneSides {
    /// The stream of this number, with nothing done yet.
    pub(crate) fn new(alloc: Global, number: u32) -> LoneSides
        ensures { AreLone result (initial number) }
    {
        LoneSides {
            sender: LoneSide::new(alloc, Automaton::Sender(Sender::new(number))),
            receiver: LoneSide::new(alloc, Automaton::Receiver(Receiver::new(number))),
        }
    }

    /// One event of the stream, unless it is refused.
    pub(crate) fn take(&mut self, event: &Event) -> Result<(), WorldFault>
        ensures taken { OnOk result ((s : Stream) → AreLone self.old s → (reply_of s event.now.side event.now.act ≡ Some event.now.reply)
            × IsNewWord s event.now.side event.now.act × AreLone self.new (after s event.now.side event.now.act)) }
        ensures refused { IfErr result (λ fault. (s : Stream) → AreLone self.old s
            → RefusesAct (automaton_of s event.now.side) (words_of s event.now.side) event.now.act event.now.reply fault) }
    {
        match event.side {
            End::Sender => self.sender.take(&event.act, &event.reply),
            End::Receiver => self.receiver.take(&event.act, &event.reply),
        }
    }
}
