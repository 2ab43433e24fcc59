//! What has the pieces of a journal.
ghost use Rattle.std.specs.Prelude.{◌≡◌, IfOk, OnOk, OnErr, take};
ghost use Rattle.std.specs.Io.{WritesAtMost};

use std::io;

/// The pieces of a journal: the newest one, which grows, and those before it.
pub trait Folder {
    ghost use Rattle.std.specs.Prelude.{ℕ, List, Option, None};
    ghost use Rattle.amo_disk.specs.Folder.{Begins, Grows, Stays};
    ghost use Rattle.amo_disk.specs.Standing.{Began, Closed, Grew, StandsStill, Synced, SyncedNames};
    ghost use Rattle.amo_disk.specs.declared.standing.Standing.{Standing};

    /// The pieces from the one that was the newest when it was opened, where the folder tells them. The newest comes first.
    ghost pieces: { Self → Option (List (List ℕ)) };

    /// How they stand, where the folder tells that. One of files does; one in memory has nothing to lose.
    ghost standing: { Self → Option Standing } = { λ _. None };

    /// Appends the first `n` of the bytes to the newest piece, and answers `n`. A call that fails appends nothing.
    fn append(&mut self, bytes: &[u8]) -> io::Result<usize>
        ensures bound { WritesAtMost result bytes.now }
        ensures appended { IfOk result (λ n. Grows (pieces self.old) (pieces self.new) (take n bytes.now)) }
        ensures kept { OnErr result (Stays (pieces self.old) (pieces self.new)) }
        ensures grew { OnOk result (Grew (standing self.old) (standing self.new)) }
        ensures still { OnErr result (StandsStill (standing self.old) (standing self.new)) };

    /// Puts the bytes of the pieces on the disk. A call that fails leaves there what was there.
    fn sync(&mut self) -> io::Result<()>
        ensures kept { Stays (pieces self.old) (pieces self.new) }
        ensures synced { OnOk result (Synced (standing self.old) (standing self.new)) }
        ensures still { OnErr result (StandsStill (standing self.old) (standing self.new)) };

    /// Gives the newest piece, the bytes of which are on the disk, its number. Behind it a new one can be begun.
    fn close(&mut self) -> io::Result<()>
        ensures kept { Stays (pieces self.old) (pieces self.new) }
        ensures closed { OnOk result (Closed (standing self.old) (standing self.new)) }
        ensures still { OnErr result (StandsStill (standing self.old) (standing self.new)) };

    /// Begins a piece, without bytes, behind one that is closed. A call that fails begins none.
    fn begin(&mut self) -> io::Result<()>
        ensures begun { OnOk result (Begins (pieces self.old) (pieces self.new)) }
        ensures kept { OnErr result (Stays (pieces self.old) (pieces self.new)) }
        ensures began { OnOk result (Began (standing self.old) (standing self.new)) }
        ensures still { OnErr result (StandsStill (standing self.old) (standing self.new)) };

    /// Puts the names of the pieces on the disk. A call that fails leaves there those that were there.
    fn sync_names(&mut self) -> io::Result<()>
        ensures kept { Stays (pieces self.old) (pieces self.new) }
        ensures synced { OnOk result (SyncedNames (standing self.old) (standing self.new)) }
        ensures still { OnErr result (StandsStill (standing self.old) (standing self.new)) };
}
