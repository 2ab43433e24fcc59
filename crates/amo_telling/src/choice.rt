//! Which outcomes are told, and how.
ghost use Rattle.std.specs.Prelude.{◌≡◌};

use crate::put_outcome::PutOutcome;
use amo_outcomes::{Outcome, SenderOutcome};

/// Which outcomes are told, and how. Where neither `open` nor `gone` is chosen, all are told.
#[derive(Clone, Copy, PartialEq, Eq)]
pub struct Choice {
    /// Those of puts that are open.
    pub open: bool,
    /// Those of puts that are gone.
    pub gone: bool,
    /// Each line is a JSON object.
    pub json: bool,
}

impl Choice {
    ghost use Rattle.amo_telling.specs.Outcomes.{is_chosen};

    /// Whether this outcome is told.
    pub(crate) fn has(self, outcome: PutOutcome) -> bool
        ensures { result ≡ is_chosen self outcome }
    {
        if !self.open && !self.gone {
            return true;
        }
        match outcome {
            PutOutcome::ByBoth(Outcome::Gone) | PutOutcome::BySender(SenderOutcome::Gone) => {
                self.gone
            }
            PutOutcome::ByBoth(Outcome::Open) | PutOutcome::BySender(SenderOutcome::Open) => {
                self.open
            }
            _ => false,
        }
    }
}
