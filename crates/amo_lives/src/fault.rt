//! Why bytes are no file of lives, and why no life begins.
ghost use Rattle.std.specs.Prelude.{◌≡◌};

use amo_text::SinkFault;
use std::alloc::AllocError;
use thiserror::Error;

/// Why bytes are no file of lives of a side. Lines are counted from 1.
#[derive(Clone, Copy, Debug, PartialEq, Eq, Error)]
pub enum LivesFault {
    /// Memory was refused. The caller may try again later.
    #[error("out of memory")]
    NoMemory,
    /// It has nothing, or a beginning of the heading of this side alone. It is new or was torn there, and may be begun again: no life drew a word.
    #[error("it has no whole line")]
    NoHeading,
    /// The first line is no heading of lives, or, where no line has an end, no beginning of one of this side.
    #[error("line 1 is no heading of lives")]
    Foreign,
    /// The first line is the heading of lives of the other side.
    #[error("line 1 says that it is of the other side")]
    OtherSide,
    /// This line is the first that is that of no life.
    #[error("line {0} is that of no life")]
    Malformed(usize),
    /// This line is the first with the tag of an earlier one.
    #[error("line {0} has the tag of an earlier line")]
    SameTag(usize),
    /// This line is the first that begins in the journal before an earlier one does.
    #[error("line {0} begins in the journal before an earlier line does")]
    Falls(usize),
}

impl From<AllocError> for LivesFault {
    ghost use Rattle.amo_lives.specs.declared.fault.LivesFault.TheVariants.{NoMemory};

    ghost from_gives = { λ _ fault. fault ≡ NoMemory };

    fn from(_error: AllocError) -> LivesFault {
        LivesFault::NoMemory
    }
}

/// Why no tag was drawn.
#[derive(Clone, Copy, Debug, PartialEq, Eq, Error)]
pub enum TagFault {
    /// The source has no more words.
    #[error("the source of tags has an end")]
    NoWord,
    /// The source gave many tags, and each was that of a life.
    #[error("the source of tags repeats itself")]
    Repeats,
}

/// Why a heading was not written whole, or no life began.
#[derive(Clone, Copy, Debug, PartialEq, Eq, Error)]
pub enum BeginFault {
    /// Memory was refused, and nothing happened. The caller may try again later.
    #[error("out of memory")]
    NoMemory,
    /// The sink failed: the device's fault. The file may have a beginning of the line.
    #[error("a write failed")]
    Device,
}

impl From<AllocError> for BeginFault {
    ghost use Rattle.amo_lives.specs.declared.fault.BeginFault.TheVariants.{NoMemory};

    ghost from_gives = { λ _ fault. fault ≡ NoMemory };

    fn from(_error: AllocError) -> BeginFault {
        BeginFault::NoMemory
    }
}

impl From<SinkFault> for BeginFault {
    ghost use Rattle.amo_lives.specs.declared.fault.BeginFault.TheVariants.{Device};

    ghost from_gives = { λ _ fault. fault ≡ Device };

    fn from(_error: SinkFault) -> BeginFault {
        BeginFault::Device
    }
}

/// A life begins beyond the end of a journal, so that this is not the journal of these lives, or has lost its end.
#[derive(Clone, Copy, Debug, PartialEq, Eq, Error)]
#[error("line {line} says that a life began at line number {first_line} of the journal, which has not so many")]
pub struct BeyondJournal {
    /// The line of the life in the file of lives, counted from 1.
    pub line: usize,
    /// The number of the life's first line in the journal.
    pub first_line: u64,
}
