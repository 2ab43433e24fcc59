//! A journal of which puts are told.
use amo_audit::Reach;
use amo_lives::Span;

/// A journal of which puts are told.
#[derive(Clone, Copy)]
pub struct Asked<'a> {
    /// Its bytes.
    pub bytes: &'a [u8],
    /// Those of its lines, by their numbers, on which a loss of power makes puts doubtful: that one is gone, or waits, is not told there. Those
    /// of its lives are [`Lives::doubts`](amo_lives::Lives::doubts).
    pub doubts: &'a [Span],
    /// The doubtful lines where the other one of two journals goes on behind this one. One that was read later than the other has lost lines then, as
    /// where it was restored from a copy: what became of its puts stands in none of those that are left.
    pub if_short: &'a [Span],
}

impl<'a> Asked<'a> {
    ghost use Rattle.std.specs.Prelude.{◌≡◌};
    ghost use Rattle.amo_telling.specs.Outcomes.{first_doubts, second_doubts};

    /// The doubtful lines of the first of two journals that were judged so far.
    pub(crate) fn doubts_of_first(self, reach: Reach) -> &'a [Span]
        ensures { result.now ≡ first_doubts reach self.entry.doubts.now self.entry.if_short.now }
    {
        match reach {
            Reach::Second(_) => self.if_short,
            Reach::Whole | Reach::First(_) => self.doubts,
        }
    }

    /// The doubtful lines of the second of them.
    pub(crate) fn doubts_of_second(self, reach: Reach) -> &'a [Span]
        ensures { result.now ≡ second_doubts reach self.entry.doubts.now self.entry.if_short.now }
    {
        match reach {
            Reach::First(_) => self.if_short,
            Reach::Whole | Reach::Second(_) => self.doubts,
        }
    }
}
