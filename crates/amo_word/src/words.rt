//! Where words come from.
ghost use Rattle.std.specs.Prelude.{◌≡◌, ◌+◌, ℕ};

/// Words of 64 bits, one after another.
///
/// Those still to come stand at places 0, 1, 2, .. A place has a word, or none, as past the end of a list.
pub trait Words {
    ghost use Rattle.std.specs.Prelude.{ℕ, Option};

    /// The word still to come at each place, or none.
    ghost to_come: { Self → ℕ → Option ℕ };

    /// The word at place 0, or none. Afterwards each place has what the place after it had.
    fn next(&mut self) -> Option<u64>
        ensures first { result ≡ to_come self.old 0 }
        ensures rest { (k : ℕ) → to_come self.new k ≡ to_come self.old (k + 1) };
}
