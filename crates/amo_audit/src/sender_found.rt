//! What is found of one journal that is to be a sender's.
ghost use Rattle.std.specs.Prelude.{◌≡◌, ◌+◌, ◌<◌, ◌^◌};

use crate::Verdict;
use amo_journal::Version;

/// What is found of one journal that is to be a sender's.
#[derive(Clone, Copy, PartialEq, Eq)]
pub enum SenderFound {
    /// It is a sender's, each reply is right, and no word is used twice.
    Good,
    /// It is no journal, or a sender's with an event at fault.
    Wrong(Verdict),
    /// It is a receiver's.
    OfReceiver,
    /// It has events of both sides.
    OfBoth,
}

impl SenderFound {
    ghost use Rattle.amo_journal.specs.Version.{lines_before};
    ghost use Rattle.amo_audit.specs.Sender.{counted, line_named};

    /// The same, where the line that it names is counted from the first of a file of this version.
    pub(crate) fn counted(self, version: Version) -> SenderFound
        requires { line_named self + 1 < 2 ^ 64 }
        ensures { result ≡ counted (lines_before version) self }
    {
        match self {
            SenderFound::Wrong(verdict) => {
                SenderFound::Wrong(verdict.further(version.lines_before()))
            }
            other => other,
        }
    }
}
