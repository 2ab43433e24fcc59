//! Losses among calls. But for the calls that it explains a run has losses alone, so these tell it, and no call is copied.
ghost use Rattle.std.specs.Prelude.{◌≡◌, ◌+◌, ◌<◌, ◌^◌, ◌++◌, [], ◌∷◌, IfOk};
ghost use Rattle.amo_resolve.specs.Weaving.{step_of};

use crate::Step;
use std::alloc::{AllocError, Global};

/// A loss.
#[derive(Clone, Copy)]
pub(crate) enum Loss {
    /// The message at a place, counted from 0.
    Message(usize),
    /// What was known of the last message put.
    Answer,
}

impl Loss {
    /// The step that it is.
    pub(crate) fn step(self) -> Step
        ensures { result ≡ step_of self }
    {
        match self {
            Loss::Message(place) => Step::Lose(place),
            Loss::Answer => Step::LoseAck,
        }
    }
}

/// So many calls, and then a loss.
#[derive(Clone, Copy)]
pub(crate) struct Mark {
    pub(crate) calls: usize,
    pub(crate) loss: Loss,
}

/// A run, so far.
#[derive(Drop)]
pub(crate) struct Draft {
    /// Its losses, each with the calls that come between the loss before and it.
    pub(crate) marks: Vec<Mark>,
    /// How many calls come after the last loss.
    pub(crate) since: usize,
}

impl Draft {
    /// Of no step.
    pub(crate) fn new(alloc: Global) -> Draft
        ensures marks { result.marks.items ≡ [] }
        ensures since { result.since ≡ 0 }
    {
        Draft {
            marks: Vec::new(alloc),
            since: 0,
        }
    }

    /// A call comes next.
    pub(crate) fn add_call(&mut self)
        requires { self.old.since + 1 < 2 ^ 64 }
        ensures { self.new ≡ record self.old { since = self.old.since + 1 } }
    {
        self.since += 1;
    }

    /// A loss comes next.
    pub(crate) fn add_loss(&mut self, loss: Loss) -> Result<(), AllocError>
        ensures marks { IfOk result (λ _. self.new.marks.items ≡ self.old.marks.items ++ record { calls = self.old.since; loss = loss } ∷ []) }
        ensures since { IfOk result (λ _. self.new.since ≡ 0) }
    {
        let calls = self.since;
        self.marks.push(Mark { calls, loss })?;
        self.since = 0;
        Ok(())
    }
}
