//! How far two journals were judged.
ghost use Rattle.std.specs.Prelude.{◌≡◌, ◌+◌, ◌<◌, ◌^◌};

use amo_journal::Version;

/// How far two journals were judged. Lines count from 1.
#[derive(Clone, Copy, PartialEq, Eq)]
pub enum Reach {
    /// Both to their ends.
    Whole,
    /// The second to its end, and the first up to this line, which delivers a packet that the second has not emitted.
    First(usize),
    /// The first to its end, and the second up to this line, which delivers a packet that the first has not emitted.
    Second(usize),
}

impl Reach {
    ghost use Rattle.amo_audit.specs.Reach.{counted, line_named};

    /// The same, where the line that it names is counted from the first of its file.
    pub(crate) fn counted(self, first: Version, second: Version) -> Reach
        requires { line_named self + 1 < 2 ^ 64 }
        ensures { result ≡ counted first second self }
    {
        match self {
            Reach::Whole => Reach::Whole,
            Reach::First(line) => Reach::First(line + first.lines_before()),
            Reach::Second(line) => Reach::Second(line + second.lines_before()),
        }
    }
}
