//! What is known of a stream's puts at a start.
ghost use Rattle.std.specs.Prelude.{◌≡◌, ◌||◌};
ghost use Rattle.amo_telling.specs.Untold.{no_puts};
ghost use Rattle.amo_telling.specs.Unanswered.{is_sent, is_settled_by_now, is_unsettled};

use crate::unanswered::{Told, is_sent, is_settled};
use amo_outcomes::SenderOutcome;

/// What is known of those puts of a stream that no ack answered.
#[derive(Clone, Copy)]
pub(crate) struct Tally {
    /// One was sent.
    pub(crate) is_sent: bool,
    /// It is not settled what became of one that is told as unknown.
    pub(crate) is_unsettled: bool,
    /// It is settled what became of one that is told as unknown.
    pub(crate) is_settled: bool,
}

impl Tally {
    /// There are none.
    pub(crate) fn new() -> Tally
        ensures { result ≡ no_puts }
    {
        Tally {
            is_sent: false,
            is_unsettled: false,
            is_settled: false,
        }
    }

    /// One more, which became this, and is told so.
    pub(crate) fn note(&mut self, outcome: Option<SenderOutcome>, told: Option<Told>)
        ensures { self.new ≡ record { is_sent = self.old.is_sent || is_sent outcome; is_unsettled = self.old.is_unsettled || is_unsettled outcome told; is_settled = self.old.is_settled || is_settled_by_now outcome told } }
    {
        self.is_sent = self.is_sent || is_sent(outcome);
        self.is_unsettled = self.is_unsettled || is_unsettled(outcome, told);
        self.is_settled = self.is_settled || is_settled_by_now(outcome, told);
    }
}

/// Whether a put that became this, and is told so, is told as unknown, and may still be got.
fn is_unsettled(outcome: Option<SenderOutcome>, told: Option<Told>) -> bool
    ensures { result ≡ is_unsettled outcome told }
{
    match told {
        Some(Told::Unknown) => !is_settled(outcome),
        Some(Told::Gone) | None => false,
    }
}

/// Whether a put that became this, and is told so, is told as unknown, and will not be got any more if it was not.
fn is_settled_by_now(outcome: Option<SenderOutcome>, told: Option<Told>) -> bool
    ensures { result ≡ is_settled_by_now outcome told }
{
    match told {
        Some(Told::Unknown) => is_settled(outcome),
        Some(Told::Gone) | None => false,
    }
}
