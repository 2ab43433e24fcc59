//! How a side of a stream stands: looked up, with nothing changed.
ghost use Rattle.std.specs.Prelude.{◌≡◌};
ghost use Rattle.amo_core.specs.Summary.{summary_of};

use crate::{Automaton, Mode};

/// How a side of a stream stands.
#[derive(Clone, Copy, Debug, PartialEq, Eq)]
pub struct Summary {
    /// The kind of the mode.
    pub mode: Mode,
    /// How many messages wait for their handshake. At a receiver none does.
    pub waiting: usize,
    /// How many messages are of the handshake that is open: at a sender those that travel in it, at a receiver those that came in it and were not
    /// got.
    pub held: usize,
    /// Whether the last message put was got, where a sender is at rest and none waits.
    pub known: Option<bool>,
}

impl Automaton {
    /// How the side stands.
    pub fn summary(&self) -> Summary
        ensures { result ≡ summary_of self.now }
    {
        match self {
            Automaton::Sender(sender) => sender.summary(),
            Automaton::Receiver(receiver) => receiver.summary(),
        }
    }
}
