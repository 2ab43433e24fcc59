//! What is told of a put.
ghost use Rattle.std.specs.Prelude.{◌≡◌};
ghost use Rattle.std.specs.List.{list_any};
ghost use Rattle.amo_telling.specs.Outcomes.{holds};

use amo_lives::Span;
use amo_outcomes::{Outcome, SenderOutcome};

/// What is told of a put, by the journals of both sides, or by its sender's alone.
#[derive(Clone, Copy, PartialEq, Eq)]
pub(crate) enum PutOutcome {
    ByBoth(Outcome),
    BySender(SenderOutcome),
    /// It was not got by the journals of both sides, but they lack lines, or a loss of power may have taken some.
    InDoubt,
}

impl PutOutcome {
    ghost use Rattle.amo_telling.specs.Outcomes.{as_told, doubted, told_further};

    /// What is told of a put where the other side lacks lines, by both sides as far as they merge and by its sender alone: what an ack says was
    /// got, was got; and of what was sent, the lines that are lacking may tell so.
    pub(crate) fn further(outcome: Outcome, alone: SenderOutcome) -> PutOutcome
        ensures { result ≡ told_further outcome alone }
    {
        match (outcome, alone) {
            (Outcome::Got, _) => PutOutcome::ByBoth(Outcome::Got),
            (_, SenderOutcome::Got) => PutOutcome::BySender(SenderOutcome::Got),
            (Outcome::Gone, SenderOutcome::Unknown { settled: _ }) => PutOutcome::InDoubt,
            _ => PutOutcome::ByBoth(outcome),
        }
    }

    /// What is told of a put on a doubtful line: what a loss of power may have changed is not known.
    fn doubted(self) -> PutOutcome
        ensures { result ≡ doubted self }
    {
        match self {
            PutOutcome::ByBoth(Outcome::Gone) => PutOutcome::InDoubt,
            PutOutcome::BySender(SenderOutcome::Gone | SenderOutcome::Open) => {
                PutOutcome::BySender(SenderOutcome::Unknown { settled: false })
            }
            other => other,
        }
    }

    /// What is told of a put on the line of this number, where these lines are doubtful.
    pub(crate) fn as_told(self, number: u64, doubts: &[Span]) -> PutOutcome
        ensures { result ≡ as_told doubts.now number self }
    {
        if is_doubtful(doubts, number) {
            self.doubted()
        } else {
            self
        }
    }
}

/// Whether the line of this number is one of these.
fn is_doubtful(doubts: &[Span], number: u64) -> bool
    ensures { result ≡ list_any (holds number) doubts.now }
{
    doubts.iter().any(|span| holds(span, number))
}

/// Whether a span has the line of this number.
fn holds(span: &Span, number: u64) -> bool
    ensures { result ≡ holds number span.now }
{
    span.first <= number && number < span.end
}
