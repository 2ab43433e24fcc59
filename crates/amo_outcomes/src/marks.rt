//! What is known of each put of a sender.
ghost use Rattle.std.specs.Prelude.{◌≡◌, ◌<◌, Some, length, slice_get};
ghost use Rattle.amo_outcomes.specs.declared.marks.Mark.TheVariants.{Settled};
ghost use Rattle.amo_outcomes.specs.Marks.{AreRaised, raised};

use std::marker::Copy;

/// What is known of a put, the more the later.
#[derive(Clone, Copy, PartialEq, Eq)]
pub(crate) enum Mark {
    /// It was not sent.
    Unsent,
    /// It was sent.
    Sent,
    /// It is settled what became of it.
    Settled,
    /// It was got.
    Got,
}

/// Puts in a row, from the first one to before an end.
#[derive(Clone, Copy)]
pub(crate) struct Run {
    pub(crate) first: usize,
    pub(crate) end: usize,
}

/// Each put of the run has this mark, unless more was known of it.
pub(crate) fn raise(marks: &mut Vec<Mark>, run: Run, mark: Mark)
    ensures { AreRaised mark run marks.old.items marks.new.items }
{
    for put in run.first..run.end.min(marks.len()) {
        marks[put] = raised(mark, marks[put]);
    }
}

/// It is settled what became of each put of the run.
pub(crate) fn settle(marks: &mut Vec<Mark>, run: Run)
    ensures { AreRaised Settled run marks.old.items marks.new.items }
{
    raise(marks, run, Mark::Settled);
}

/// The mark that says more.
fn raised(one: Mark, other: Mark) -> Mark
    ensures { result ≡ raised one other }
{
    match (one, other) {
        (Mark::Got, _) | (_, Mark::Got) => Mark::Got,
        (Mark::Settled, _) | (_, Mark::Settled) => Mark::Settled,
        (Mark::Sent, _) | (_, Mark::Sent) => Mark::Sent,
        _ => Mark::Unsent,
    }
}
