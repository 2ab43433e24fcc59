//! A writer that tells why it failed.
ghost use Rattle.std.specs.Prelude.{◌≡◌};

use amo_disk::Cause;
use std::cell::Cell;
use std::io;
use std::io::Write;

/// A writer, of which a cell of whoever made it keeps why the last call that failed did. Whatever writes through it counts failures, and forgets why.
#[derive(Drop)]
pub(crate) struct Watched<'a, W> {
    writer: W,
    cause: &'a Cell<Option<Cause>>,
}

impl<'a, W> Watched<'a, W> {
    /// This writer, watched.
    pub(crate) fn new(writer: W, cause: &'a Cell<Option<Cause>>) -> Watched<'a, W>
        ensures { result.writer ≡ writer }
    {
        Watched { writer, cause }
    }
}

impl<W: Write> Write for Watched<'_, W> {
    ghost contents = { λ w. W.contents w.writer };

    fn write(&mut self, bytes: &[u8]) -> io::Result<usize> {
        match self.writer.write(bytes) {
            Ok(count) => Ok(count),
            Err(error) => {
                self.cause.set(Some(Cause::from(error)));
                Err(error)
            }
        }
    }

    fn flush(&mut self) -> io::Result<()> {
        match self.writer.flush() {
            Ok(()) => Ok(()),
            Err(error) => {
                self.cause.set(Some(Cause::from(error)));
                Err(error)
            }
        }
    }
}
