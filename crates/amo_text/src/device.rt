//! What is handed bytes and answers.
ghost use Rattle.std.specs.Io.{WritesAtMost};
ghost use Rattle.std.specs.Io.KnownBytes.{WriteAppends};

use std::io::{self, Write};

/// What is handed bytes and answers how many of them it took, as a file or any other writer.
///
/// Contracts of code over any device speak of its answers, of which they know only by a call.
pub trait Device {
    ghost use Rattle.std.specs.Prelude.{ℕ, List, Option, Result};
    ghost use Rattle.std.specs.declared.io.Error.{Error};

    /// The bytes that it holds, where they are known.
    ghost contents: { Self → Option (List ℕ) };

    /// How it may answer where it is handed these bytes, and how that leaves it.
    ghost answers: { Self → List ℕ → Result ℕ Error → Self → Type 0 };

    /// Hands it the bytes. It answers how many of the first it took.
    ///
    /// Where it answers an error it took none.
    fn offer(&mut self, bytes: &[u8]) -> io::Result<usize>
        ensures bound { WritesAtMost result bytes.now }
        ensures bytes { WriteAppends (contents self.old) (contents self.new) result bytes.now }
        ensures answers { answers self.old bytes.now result self.new };
}

impl<W: Write> Device for W {
    ghost contents = { W.contents };

    ghost answers = { λ old bytes answer new. WritesAtMost answer bytes × WriteAppends (W.contents old) (W.contents new) answer bytes };

    fn offer(&mut self, bytes: &[u8]) -> io::Result<usize> {
        self.write(bytes)
    }
}
