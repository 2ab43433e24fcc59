//! Where a journal goes on.
ghost use Rattle.std.specs.Prelude.{◌≡◌, ◌≢◌, ◌↔◌, IfErr, IfOk, IsOk, true};
ghost use Rattle.amo_disk.specs.Start.{GoesOn, StartFaults, start_alone};

use crate::{Ending, OpenFault};
use amo_journal::Version;

/// Where a journal goes on.
#[derive(Clone, Copy, PartialEq, Eq)]
pub struct Start {
    /// Its version. None where it has no whole line: it is new, or was torn in its first line.
    pub version: Option<Version>,
    /// The number of the next line: how many lines of events there are.
    pub lines: u64,
    /// The last lines are the crashes and recoveries of streams from 1 to this one, in order.
    pub back: u32,
    /// How many bytes of the newest piece are whole lines.
    pub(crate) whole: u64,
    /// Whether the newest piece is to get its heading first, since it has no whole line and stands behind another piece.
    pub(crate) lacks_heading: bool,
}

impl Start {
    /// Behind the newest piece, and the one before it, if there is one, which end so.
    pub(crate) fn behind(before: Option<Ending>, newest: Ending) -> Result<Start, OpenFault>
        ensures goes_on { IfOk result (GoesOn before newest) }
        ensures fault { IfErr result (StartFaults before newest) }
    {
        let Some(piece) = before else {
            return Ok(Start::alone(newest));
        };
        if piece.first.is_none() {
            return Err(OpenFault::BadPiece);
        }
        if newest.version.is_some() && newest.version != piece.version {
            return Err(OpenFault::OtherVersion);
        }
        match newest.first {
            Some(first) if first != piece.next => Err(OpenFault::Apart),
            Some(_) => Ok(Start::alone(newest)),
            None => Ok(Start {
                version: piece.version,
                lines: piece.next,
                back: piece.back,
                whole: newest.whole,
                lacks_heading: newest.version.is_none(),
            }),
        }
    }

    /// Behind the newest piece alone.
    pub fn alone(newest: Ending) -> Start
        ensures { result ≡ start_alone newest }
    {
        Start {
            version: newest.version,
            lines: newest.next,
            back: newest.back,
            whole: newest.whole,
            lacks_heading: false,
        }
    }

    /// Refuses the journal where starts of batches are wanted, and its version has no lines for them.
    pub fn admit(&self, batch: bool) -> Result<(), OpenFault>
        ensures ok { IsOk result ↔ (batch ≡ true → self.now.version ≢ Some Version.One) }
        ensures fault { IfErr result (λ fault. fault ≡ OpenFault.NoBatches) }
    {
        match self.version {
            Some(Version::One) if batch => Err(OpenFault::NoBatches),
            _ => Ok(()),
        }
    }
}
