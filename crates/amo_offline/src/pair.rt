//! Audits two journals while they are read: each is read once, a block at a time, and neither is kept.
ghost use Rattle.std.specs.Prelude.{◌≡◌, true, IfOk};
ghost use Rattle.amo_offline.specs.Pair.{HaveGoneOn};

use crate::fault::OfflineFault;
use crate::names::{Names, open_piece};
use amo_audit::{PairAudit, Progress, Which};
use std::fs::File;
use std::io;
use std::rt::Files;

/// Two journals, of which nothing was read yet, or so much as an audit wanted.
#[derive(Drop)]
pub(crate) struct Pair {
    first: Reading,
    second: Reading,
}

/// A journal in files, which are read one after another.
#[derive(Drop)]
struct Reading {
    names: Names,
    /// The last piece, where it was opened as it was found.
    newest: Option<File>,
    /// How many pieces were begun.
    begun: usize,
    /// The piece that is being read.
    file: Option<File>,
}

impl Pair {
    /// The journals in these files.
    pub(crate) fn new(first: Names, second: Names) -> Pair {
        Pair {
            first: Reading::new(first),
            second: Reading::new(second),
        }
    }

    /// Reads both, and answers whether they are judged yes. Where it answers no, they may have been read in part.
    pub(crate) fn is_judged_yes<R: AllocGlobal + Files<File = File>>(
        &mut self,
        rt: &R,
    ) -> Result<bool, OfflineFault> {
        let Ok(mut audit) = PairAudit::new(rt.alloc()) else {
            return Err(OfflineFault::NoMemory);
        };
        'rounds: for _round in 0..u64::MAX {
            match audit.go_on()? {
                Progress::Wants(which) => {
                    if !self.journal(which).read_on(rt, &mut audit, which)? {
                        return Ok(false);
                    }
                }
                Progress::Yes => return Ok(true),
                Progress::Other => return Ok(false),
            }
        }
        Ok(false)
    }

    /// This one of them.
    fn journal(&mut self, which: Which) -> &mut Reading {
        match which {
            Which::First => &mut self.first,
            Which::Second => &mut self.second,
        }
    }

    /// Tells on standard error of each which of its pieces is missing between the others, if one is.
    pub(crate) fn tell_missing<R: Eprint>(&self, rt: &R) {
        self.first.names.tell_missing(rt);
        self.second.names.tell_missing(rt);
    }
}

impl Reading {
    /// Nothing of it was read yet.
    fn new(names: Names) -> Reading {
        let mut names = names;
        let newest = names.take_newest();
        Reading {
            names,
            newest,
            begun: 0,
            file: None,
        }
    }

    /// Has the audit read a block more of it, or its next piece begun, or hear that there is none. It answers no where it is no journal.
    fn read_on<R: AllocGlobal + Files<File = File>>(
        &mut self,
        rt: &R,
        audit: &mut PairAudit,
        which: Which,
    ) -> Result<bool, OfflineFault>
        ensures { IfOk result (λ goes_on. goes_on ≡ true → HaveGoneOn audit.old audit.new) }
    {
        match self.file.take() {
            Some(file) => self.read_file(rt, file, audit, which),
            None => self.begin_next(rt, audit, which),
        }
    }

    /// Has the audit read a block more of this file; at its end, begins the next one.
    fn read_file<R: AllocGlobal + Files<File = File>>(
        &mut self,
        rt: &R,
        file: File,
        audit: &mut PairAudit,
        which: Which,
    ) -> Result<bool, OfflineFault>
        ensures { IfOk result (λ goes_on. goes_on ≡ true → HaveGoneOn audit.old audit.new) }
    {
        let mut file = file;
        match audit.read_on(which, &mut file) {
            Ok(true) => {
                self.file = Some(file);
                Ok(true)
            }
            Ok(false) => self.begin_next(rt, audit, which),
            Err(error) => Err(self.fault(rt, error)),
        }
    }

    /// Begins its next piece, or tells the audit that there is none.
    fn begin_next<R: AllocGlobal + Files<File = File>>(
        &mut self,
        rt: &R,
        audit: &mut PairAudit,
        which: Which,
    ) -> Result<bool, OfflineFault>
        ensures { IfOk result (λ goes_on. goes_on ≡ true → HaveGoneOn audit.old audit.new) }
    {
        match self.open_next(rt)? {
            Some(file) => self.begin(rt, file, audit, which),
            None => {
                audit.end(which);
                Ok(true)
            }
        }
    }

    /// Has the audit begin the piece in this file.
    fn begin<R: AllocGlobal>(
        &mut self,
        rt: &R,
        file: File,
        audit: &mut PairAudit,
        which: Which,
    ) -> Result<bool, OfflineFault>
        ensures { IfOk result (λ goes_on. goes_on ≡ true → HaveGoneOn audit.old audit.new) }
    {
        let mut file = file;
        match audit.begin(which, &mut file) {
            Ok(is_piece) => {
                self.file = Some(file);
                Ok(is_piece)
            }
            Err(error) => Err(self.fault(rt, error)),
        }
    }

    /// Opens its next piece, if there is one.
    fn open_next<R: AllocGlobal + Files<File = File>>(
        &mut self,
        rt: &R,
    ) -> Result<Option<File>, OfflineFault> {
        let place = self.begun;
        let Some(name) = self.names.pieces().get(place) else {
            return Ok(None);
        };
        self.begun = place.saturating_add(1);
        let is_last = self.begun >= self.names.pieces().len();
        let file = open_piece(rt, name.as_str(), is_last, &mut self.newest)?;
        Ok(Some(file))
    }

    /// The piece that was begun last failed so.
    fn fault<R: AllocGlobal>(&self, rt: &R, error: io::Error) -> OfflineFault {
        match self.names.pieces().get(self.begun.saturating_sub(1)) {
            Some(name) => OfflineFault::of_file(rt.alloc(), name.as_str(), error),
            None => OfflineFault::Device,
        }
    }
}
