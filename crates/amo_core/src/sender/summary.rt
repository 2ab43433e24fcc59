//! How a sender stands.
ghost use Rattle.std.specs.Prelude.{◌≡◌, length};
ghost use Rattle.amo_core.specs.Sender as table;
ghost use Rattle.amo_core.specs.Summary.{known_of, summary_of};
ghost use Rattle.amo_core.specs.declared.automaton.Automaton.TheVariants as side;

use crate::Summary;
use crate::sender::{Sender, SenderMode};

impl Sender {
    /// How the sender stands.
    pub fn summary(&self) -> Summary
        ensures { result ≡ summary_of (side.Sender self.now) }
    {
        Summary {
            mode: self.mode(),
            waiting: self.waiting.len(),
            held: self.held(),
            known: self.known(),
        }
    }

    fn held(&self) -> usize
        ensures { result ≡ length (table.held_by self.now.mode) }
    {
        match &self.mode {
            SenderMode::NeedId(_, load) | SenderMode::Send(_, load) => load.len(),
            SenderMode::Quiet(_) | SenderMode::Down => 0,
        }
    }

    fn known(&self) -> Option<bool>
        ensures { result ≡ known_of self.now.mode self.now.waiting }
    {
        match self.mode {
            SenderMode::Quiet(got) if self.waiting.is_empty() => Some(got),
            _ => None,
        }
    }
}
