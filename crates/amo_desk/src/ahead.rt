//! Looking for the end of lines, where no more of them is to be read.
ghost use Rattle.std.specs.Prelude.{ℕ, List, OnOk};
ghost use Rattle.std.specs.Io.KnownBytes.{Consumes};
ghost use Rattle.amo_lines.specs.Input.{Fills};

use amo_lines::Input;
use std::io::{self, ErrorKind, Read};

/// What is known of lines behind those that were read last, where none is read as answers wait.
#[derive(Clone, Copy, PartialEq, Eq)]
pub enum Ahead {
    /// Nothing.
    Unseen,
    /// They were not at their end: a byte more was read.
    More,
    /// Nobody writes any more: what stands there is all that comes.
    Last,
}

/// Reads a byte behind what the input has, or finds that there is none.
pub(crate) fn read_byte<I: Read>(input: &mut Input, reader: &mut I) -> io::Result<()>
    ensures { OnOk result ((bytes : List ℕ) × Consumes (I.remaining reader.old) (I.remaining reader.new) bytes × Fills input.old input.new bytes) }
{
    let mut byte = [0u8; 1];
    let count = reader.read(&mut byte)?;
    let mut rest = &byte[..count];
    input.fill(&mut rest)?;
    if rest.is_empty() {
        Ok(())
    } else {
        // An input has room for a byte, but no clause says so.
        Err(io::Error::from(ErrorKind::Other))
    }
}
