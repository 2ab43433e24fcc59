//! The two versions of journals, and what tells them apart.
ghost use Rattle.std.specs.Prelude.{◌≡◌};

/// The version of a journal, which the file's first line tells.
#[derive(Clone, Copy, Debug, PartialEq, Eq)]
pub enum Version {
    /// The first line is the first event's. No start of a batch has a line, and of deliveries those of the first version of packets.
    One,
    /// The first line is `amo 2`. Starts of batches and deliveries of every packet have lines, too.
    Two,
}

impl Version {
    ghost use Rattle.amo_journal.specs.Version.{heading, lines_before};

    /// What stands in front of the first event's line, with its end: nothing in version 1.
    pub fn heading(self) -> &'static [u8]
        ensures { result.now ≡ heading self }
    {
        match self {
            Version::One => b"",
            Version::Two => b"amo 2\n",
        }
    }

    /// How many lines stand in front of the first event's.
    pub fn lines_before(self) -> usize
        ensures { result ≡ lines_before self }
    {
        match self {
            Version::One => 0,
            Version::Two => 1,
        }
    }
}
