//! How a receiver stands.
ghost use Rattle.std.specs.Prelude.{◌≡◌, length};
ghost use Rattle.amo_core.specs.Receiver as table;
ghost use Rattle.amo_core.specs.Summary.{summary_of};
ghost use Rattle.amo_core.specs.declared.automaton.Automaton.TheVariants as side;

use crate::Summary;
use crate::receiver::{Receiver, ReceiverMode};

impl Receiver {
    /// How the receiver stands.
    pub fn summary(&self) -> Summary
        ensures { result ≡ summary_of (side.Receiver self.now) }
    {
        Summary {
            mode: self.mode(),
            waiting: 0,
            held: self.held(),
            known: None,
        }
    }

    fn held(&self) -> usize
        ensures { result ≡ length (table.held_by self.now.mode) }
    {
        match &self.mode {
            ReceiverMode::Rcvd(_, messages) => messages.len(),
            ReceiverMode::Idle
            | ReceiverMode::Accept(_, _)
            | ReceiverMode::Ack(_)
            | ReceiverMode::Down => 0,
        }
    }
}
