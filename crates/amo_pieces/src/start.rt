//! Where pieces start.
ghost use Rattle.std.specs.Prelude.{◌<◌, ◌≤◌, ◌↔◌, IsTrue};

/// Where a piece starts in the text.
#[derive(Clone, Copy)]
pub(crate) struct Start {
    /// Whether it goes on behind whole lines.
    pub(crate) goes_on: bool,
    /// How many lines end in front of it.
    pub(crate) ends: usize,
    /// How many lines of the piece are not in the text.
    pub(crate) left_out: usize,
    ghost few: { left_out ≤ ends },
}

impl Start {
    /// Whether this line, counted from 1, does not begin in front of it.
    pub(crate) fn is_before(&self, line: usize) -> bool
        ensures { IsTrue result ↔ (IsTrue self.now.goes_on × (self.now.ends < line)) }
    {
        self.goes_on && self.ends < line
    }
}
