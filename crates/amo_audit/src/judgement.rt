//! What is found of one journal, or of two.
ghost use Rattle.std.specs.Prelude.{◌≡◌, ◌+◌, ◌<◌, ◌^◌};
ghost use Rattle.amo_audit.specs.Judgement.{merged_before};

use crate::Verdict;
use amo_journal::Version;

/// What is found of one journal, or of two.
#[derive(Clone, Copy, PartialEq, Eq)]
pub enum Judgement {
    /// Of the one journal, or of the events of both, merged.
    Whole(Verdict),
    /// The first of two is no journal.
    First(Verdict),
    /// The first of two is a journal, and the second is none.
    Second(Verdict),
    /// A side of a stream has events in both.
    Shared,
    /// No interleaving of both is honest.
    Stuck,
}

impl Judgement {
    ghost use Rattle.amo_audit.specs.Judgement.{counted, judgement_status, line_named};

    /// The same, where each line that it names is counted from the first of its file, or of the merged journal. That has a line in front of
    /// its first event where either journal is of version 2.
    pub(crate) fn counted(self, first: Version, second: Version) -> Judgement
        requires { line_named self + 1 < 2 ^ 64 }
        ensures { result ≡ counted first second self }
    {
        match self {
            Judgement::First(verdict) => Judgement::First(verdict.further(first.lines_before())),
            Judgement::Second(verdict) => {
                Judgement::Second(verdict.further(second.lines_before()))
            }
            Judgement::Whole(verdict) => {
                Judgement::Whole(verdict.further(merged_before(first, second)))
            }
            other => other,
        }
    }

    /// The exit status: that of the verdict, else 2 where both have events of a side, and 3 where they do not merge.
    pub fn status(&self) -> u8
        ensures { result ≡ judgement_status self.now }
    {
        match self {
            Judgement::Whole(verdict) | Judgement::First(verdict) | Judgement::Second(verdict) => {
                verdict.status()
            }
            Judgement::Shared => 2,
            Judgement::Stuck => 3,
        }
    }
}

/// How many lines stand in front of a merged journal's first event.
fn merged_before(first: Version, second: Version) -> usize
    ensures { result ≡ merged_before first second }
{
    match (first, second) {
        (Version::One, Version::One) => 0,
        _ => 1,
    }
}
