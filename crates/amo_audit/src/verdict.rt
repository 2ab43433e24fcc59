//! Verdicts.
ghost use Rattle.std.specs.Prelude.{◌≡◌, ◌+◌, ◌<◌, ◌^◌};

/// What bytes are judged to be. Lines count from 1.
#[derive(Clone, Copy, Debug, PartialEq, Eq)]
pub enum Verdict {
    /// They are a journal, its history is right, honest and fresh, and it serves each stream.
    Yes,
    /// This line is the first that is malformed.
    Malformed(usize),
    /// Each line reads, and this one is the first whose number is not how many events are before it.
    Gap(usize),
    /// The event of this line is the first at fault: its reply is wrong.
    WrongReply(usize),
    /// The event of this line is the first at fault: the packet that it delivers was not emitted before.
    Unsent(usize),
    /// The event of this line is the first at fault: it uses up a word again.
    Repeat(usize),
    /// Memory was refused. The caller may try again later.
    NoMemory,
}

impl Verdict {
    ghost use Rattle.amo_audit.specs.Audit.{further, line_named, status_of};

    /// The same verdict, where so many lines more stand in front of the line that it names.
    pub(crate) fn further(self, lines: usize) -> Verdict
        requires { line_named self + lines < 2 ^ 64 }
        ensures { result ≡ further lines self }
    {
        match self {
            Verdict::Malformed(line) => Verdict::Malformed(line + lines),
            Verdict::Gap(line) => Verdict::Gap(line + lines),
            Verdict::WrongReply(line) => Verdict::WrongReply(line + lines),
            Verdict::Unsent(line) => Verdict::Unsent(line + lines),
            Verdict::Repeat(line) => Verdict::Repeat(line + lines),
            other => other,
        }
    }

    /// The exit status: 0 for yes, 1 for a wrong reply, 2 for what is no journal, 3 for a broken premise, 4 for want of
    /// memory.
    pub fn status(&self) -> u8
        ensures { result ≡ status_of self.now }
    {
        match self {
            Verdict::Yes => 0,
            Verdict::WrongReply(_) => 1,
            Verdict::Malformed(_) | Verdict::Gap(_) => 2,
            Verdict::Unsent(_) | Verdict::Repeat(_) => 3,
            Verdict::NoMemory => 4,
        }
    }
}
