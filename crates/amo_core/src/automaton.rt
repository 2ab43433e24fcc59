//! Either automaton of a stream, with one step over both tables.
ghost use Rattle.std.specs.Prelude.{◌≡◌, ◌↔◌, Some, IsTrue, false};
ghost use Rattle.std.specs.Option.{option_map, ForSome};
ghost use Rattle.amo_packet.specs.Packet.{packet_of, body_of};
ghost use Rattle.amo_packet.specs.Grammar.{CanBeWritten};
ghost use Rattle.amo_core.specs.Automaton.{row, mode_of, used_word, handed_back, Writes};

use crate::outcome::write_emission;
use crate::{Act, Advanced, Mode, Outcome, Receiver, Reply, Sender};
use amo_packet::{MAX_PACKET, Packet};

/// The automaton of one side of a stream, for whoever keeps sides of both kinds.
#[derive(Drop)]
pub enum Automaton {
    /// The stream's sender.
    Sender(Sender),
    /// The stream's receiver.
    Receiver(Receiver),
}

impl Automaton {
    /// Makes an act, exactly as its row says. What it emits is written at the front of the buffer.
    pub fn step(&mut self, act: Act, buffer: &mut [u8; MAX_PACKET]) -> Outcome
        ensures state { self.new ≡ (row self.old act).state }
        ensures reply { result.reply ≡ (row self.old act).reply }
        ensures handed_back { result.handed_back ≡ handed_back act result.reply }
        ensures emitted { Writes (row self.old act).emitted buffer.old buffer.new result.length }
    {
        let length = self.write_emission(&act, buffer);
        Outcome::new(self.advance(act), length)
    }

    /// Becomes what the act's row says, and replies. It writes nothing: ask [`emission`](Automaton::emission) before for what
    /// the row emits.
    // Inlined, a caller that names its act moves and tests nothing of the other acts.
    #[inline(always)]
    pub fn advance(&mut self, act: Act) -> Advanced
        ensures state { self.new ≡ (row self.old act).state }
        ensures reply { result.reply ≡ (row self.old act).reply }
        ensures handed_back { result.handed_back ≡ handed_back act result.reply }
    {
        match self {
            Automaton::Sender(sender) => sender.advance(act),
            Automaton::Receiver(receiver) => receiver.advance(act),
        }
    }

    /// The packet that the act would emit, if any.
    pub fn emission(&self, act: &Act) -> Option<Packet<'_>>
        ensures value { option_map packet_of result ≡ (row self.now act.now).emitted }
        ensures fits { ForSome result (λ p. CanBeWritten (body_of p.body)) }
    {
        match self {
            Automaton::Sender(sender) => sender.emission(act),
            Automaton::Receiver(receiver) => receiver.emission(act),
        }
    }

    /// Writes the packet that the act would emit at the front of the buffer, and answers its length. Nothing changes.
    pub fn write_emission(&self, act: &Act, buffer: &mut [u8; MAX_PACKET]) -> Option<usize>
        ensures { Writes (row self.now act.now).emitted buffer.old buffer.new result }
    {
        write_emission(self.emission(act), buffer)
    }

    /// Whether this is the reply of the act's row. A reply to an act that the side does not have never is.
    pub fn replies(&self, act: &Act, reply: &Reply) -> bool
        ensures { IsTrue result ↔ ((row self.now act.now).reply ≡ Some reply.now) }
    {
        match self {
            Automaton::Sender(sender) => sender.replies(act, reply),
            Automaton::Receiver(receiver) => receiver.replies(act, reply),
        }
    }

    /// Whether the act would leave another state than this one.
    pub fn is_changed_by(&self, act: &Act) -> bool
        ensures { (result ≡ false) ↔ ((row self.now act.now).state ≡ self.now) }
    {
        match self {
            Automaton::Sender(sender) => sender.is_changed_by(act),
            Automaton::Receiver(receiver) => receiver.is_changed_by(act),
        }
    }

    /// The word that the act would use up, if it would use one up: of a start that emits a needuid, or of a needuid that
    /// finds a receiver at rest.
    pub fn used_word(&self, act: &Act) -> Option<u64>
        ensures { result ≡ used_word self.now act.now }
    {
        match self {
            Automaton::Sender(sender) => sender.used_word(act),
            Automaton::Receiver(receiver) => receiver.used_word(act),
        }
    }

    /// The kind of the mode.
    pub fn mode(&self) -> Mode
        ensures { result ≡ mode_of self.now }
    {
        match self {
            Automaton::Sender(sender) => sender.mode(),
            Automaton::Receiver(receiver) => receiver.mode(),
        }
    }
}
