//! How a replay ends.
ghost use Rattle.std.specs.Prelude.{◌≡◌};

/// How a replay ended. A line is counted from 1.
#[derive(Clone, Copy, Debug, PartialEq, Eq)]
pub enum Ending {
    /// Every line was replayed.
    Done,
    /// This line is the first that is malformed; nothing was replayed.
    Malformed(usize),
    /// This line delivers a packet that was not emitted before; the lines before it were replayed.
    Unsent(usize),
    /// This line uses a word up a second time; the lines before it were replayed.
    Repeat(usize),
}

impl Ending {
    ghost use Rattle.amo_replay.specs.Ending.{status_of};

    /// The status that a program ends with: 0 for a replay that is done, 2 for a malformed schedule, 3 for a broken premise.
    pub fn status(&self) -> u8
        ensures { result ≡ status_of self.now }
    {
        match self {
            Ending::Done => 0,
            Ending::Malformed(_) => 2,
            Ending::Unsent(_) | Ending::Repeat(_) => 3,
        }
    }
}
