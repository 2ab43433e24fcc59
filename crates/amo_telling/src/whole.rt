//! The whole lines of a file that somebody may be writing.
ghost use Rattle.std.specs.Prelude.{◌≡◌, ◌⊎◌, ◌++◌, ◌∷◌, [], List, ℕ};
ghost use Rattle.amo_text.specs.Line.{Lacks};
ghost use Rattle.amo_telling.specs.Whole.{AreWhole};

/// The lines of a file, without a last one that has no end: a host at work may be writing it, and has done nothing yet that it tells of.
pub fn whole_lines(bytes: &[u8]) -> &[u8]
    ensures { AreWhole result.now bytes.now }
{
    let mut end = bytes.len();
    while end > 0 && bytes[end - 1] != b'\n' {
        end -= 1;
    }
    &bytes[..end]
}
