//! Where a host's next words come from.
ghost use Rattle.std.specs.Prelude.{IfOk, IfSome, OnOk};
ghost use Rattle.amo_live.specs.Words.{IsNew, StaysDrawn};

use crate::LiveFault;

/// Words that come in lives: each life has some, and where they are at their end another life begins. No word comes twice, in one life or in two.
///
/// Contracts see whether a word was drawn, in this life or in an earlier one. The word 0 is none, as it stands for none where a packet needs none.
pub trait Lineage {
    ghost use Rattle.std.specs.Prelude.{ℕ};

    /// Whether this word was drawn, or was left out.
    ghost is_drawn: { Self → ℕ → Type 0 };

    /// The next word of this life. None where it has no more, or no life has begun.
    fn next(&mut self) -> Option<u64>
        ensures new { IfSome result (IsNew (is_drawn self.old) (is_drawn self.new)) }
        ensures stays { StaysDrawn (is_drawn self.old) (is_drawn self.new) };

    /// Begins one life more, whose next line in the journal has this number, and draws its first word.
    fn begin(&mut self, next_line: u64) -> Result<u64, LiveFault>
        ensures new { IfOk result (IsNew (is_drawn self.old) (is_drawn self.new)) }
        ensures stays { OnOk result (StaysDrawn (is_drawn self.old) (is_drawn self.new)) };
}
