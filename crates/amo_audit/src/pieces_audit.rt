//! The audit of a journal in pieces that are read once, part by part.
ghost use Rattle.std.specs.Prelude.{◌≡◌, ◌≤◌, ◌<◌, ◌∷◌, ◌++◌, [], List, ℕ, length, take, IfNone, IfOk, IfSome, OnOk};
ghost use Rattle.std.specs.Io.KnownBytes.{Consumes, IsAtEnd};
ghost use Rattle.amo_audit.specs.Audit.{Judges};
ghost use Rattle.amo_audit.specs.Parts.{HasCome};
ghost use Rattle.amo_audit.specs.Pieces.{HaveCome, LeavesOut};
ghost use Rattle.amo_pieces.specs.Text.{IsTextOf};

use crate::Verdict;
use crate::text_audit::TextAudit;
use amo_journal::{Version, open};
use amo_world::NoMemory;
use std::alloc::Global;
use std::io;
use std::io::{ErrorKind, Read};

/// How many bytes of a piece are read at once.
pub(crate) const BLOCK: usize = 64 * 1024;

/// How many bytes tell whether a piece begins with a heading.
pub(crate) const HEADING: usize = 6;

/// An audit of a journal in pieces, which come one after another. Each is read once, a block at a time; beside that it keeps what judging later
/// events needs, and a line that has not come whole.
#[derive(Drop)]
pub struct PiecesAudit {
    alloc: Global,
    text: TextAudit,
}

impl PiecesAudit {
    /// No piece has come yet.
    pub fn new(alloc: Global) -> Result<PiecesAudit, NoMemory>
        ensures { IfOk result (λ audit. HaveCome audit []) }
    {
        Ok(PiecesAudit {
            alloc,
            text: TextAudit::new(alloc)?,
        })
    }

    /// Takes the next piece: all that a reader has left. Behind a line without its end nothing more is read, since that line is malformed.
    ///
    /// Where memory or the reader fails, the audit is of no more use.
    pub fn add<R: Read>(&mut self, reader: &mut R) -> io::Result<()>
        ensures { OnOk result ((piece : List ℕ) × IfSome (R.remaining reader.old) (λ bytes. piece ≡ bytes)
            × ((pieces : List (List ℕ)) → HaveCome self.old pieces → HaveCome self.new (piece ∷ pieces))) }
    {
        if !self.text.is_whole() {
            return Ok(());
        }
        let mut room = [0; BLOCK];
        let begun = beginning(self.alloc, reader, &mut room)?;
        match left_out(self.text.version(), begun.as_slice()) {
            Some(count) => {
                self.text.push(&begun.as_slice()[count..])?;
                if begun.len() < HEADING {
                    return Ok(());
                }
                take_rest(&mut self.text, reader, &mut room)
            }
            None => {
                self.text.push(&begun.as_slice()[..1])?;
                Ok(())
            }
        }
    }

    /// What the journal is judged to be, if no piece more comes.
    pub fn verdict(&self) -> Verdict
        requires { (pieces : List (List ℕ)) × HaveCome self.now pieces }
        ensures { (pieces : List (List ℕ)) → HaveCome self.now pieces → (text : List ℕ) × IsTextOf pieces text × Judges text result }
    {
        self.text.verdict()
    }
}

/// How many bytes of a piece that begins so are left out behind a text of this version: those of its heading. None where it is of another version.
pub(crate) fn left_out(version: Option<Version>, begun: &[u8]) -> Option<usize>
    ensures leaves { LeavesOut version begun.now result }
    ensures within { IfSome result (λ count. count ≤ length begun.now) }
    ensures some { IfNone result (0 < length begun.now) }
{
    let Some(version) = version else {
        return Some(0);
    };
    if begun.is_empty() {
        return Some(0);
    }
    if open(begun).version == version {
        Some(version.heading().len())
    } else {
        None
    }
}

/// Takes all that a reader has left behind a text.
fn take_rest<R: Read>(text: &mut TextAudit, reader: &mut R, room: &mut [u8]) -> io::Result<()>
    requires { 0 < length room.old }
    ensures { OnOk result ((more : List ℕ) × IfSome (R.remaining reader.old) (λ bytes. more ≡ bytes)
        × ((front : List ℕ) → HasCome text.old front → HasCome text.new (front ++ more))) }
{
    'parts: for _part in 0..u64::MAX {
        let count = read_part(reader, room)?;
        if count == 0 {
            return Ok(());
        }
        text.push(&room[..count])?;
    }
    Err(io::Error::from(ErrorKind::Interrupted))
}

/// The first bytes that a reader has left: as many as a heading has, or more, or all.
pub(crate) fn beginning<R: Read>(
    alloc: Global,
    reader: &mut R,
    room: &mut [u8],
) -> io::Result<Vec<u8>>
    requires { 0 < length room.old }
    ensures bytes { IfOk result (λ begun. Consumes (R.remaining reader.old) (R.remaining reader.new) begun.items) }
    ensures end { IfOk result (λ begun. length begun.items < 6 → IsAtEnd (R.remaining reader.new)) }
{
    let mut begun = Vec::new(alloc);
    'parts: for _part in 0..u64::MAX {
        if begun.len() >= HEADING {
            return Ok(begun);
        }
        let count = read_part(reader, room)?;
        if count == 0 {
            return Ok(begun);
        }
        begun.extend_from_slice(&room[..count])?;
    }
    Err(io::Error::from(ErrorKind::Interrupted))
}

/// The next bytes that a reader has left, which come into the room. Answers how many; at its end, none.
pub(crate) fn read_part<R: Read>(reader: &mut R, room: &mut [u8]) -> io::Result<usize>
    requires { 0 < length room.old }
    ensures within { IfOk result (λ count. count ≤ length room.new) }
    ensures bytes { IfOk result (λ count. Consumes (R.remaining reader.old) (R.remaining reader.new) (take count room.new)) }
    ensures end { IfOk result (λ count. count ≡ 0 → IsAtEnd (R.remaining reader.new)) }
{
    'tries: for _try in 0..u64::MAX {
        match reader.read(room) {
            Ok(count) => return Ok(count),
            Err(error) if error.kind() == ErrorKind::Interrupted => {}
            Err(error) => return Err(error),
        }
    }
    Err(io::Error::from(ErrorKind::Interrupted))
}
