//! Writers that can be put on their disk.
ghost use Rattle.std.specs.Prelude.{◌≡◌, OnOk};
ghost use Rattle.std.specs.Io.KnownBytes.{Keeps};

use crate::{Folder, Roll};
use std::fs::File;
use std::io::{self, Write};

/// A writer that can be put on its disk. Each of its writes is a call of the system.
pub trait Syncs: Write {
    ghost use Rattle.std.specs.Prelude.{ℕ, List, Option};

    /// What of it a loss of power leaves, where the writer tells that.
    ghost on_disk: { Self → Option (List ℕ) };

    /// Puts what was written on the disk, all of it.
    fn put_on_disk(&mut self) -> io::Result<()>
        ensures kept { Keeps (Self.contents self.old) (Self.contents self.new) }
        ensures on_disk { OnOk result (on_disk self.new ≡ Self.contents self.new) };

    /// How many pieces it has begun, if it has pieces. It is a figure, of which no contract speaks.
    fn pieces_begun(&self) -> u64;
}

/// What a loss of power leaves of a folder's pieces.
impl<F: Folder> Syncs for Roll<F> {
    ghost use Rattle.amo_disk.specs.Kept.{spelt_known};
    ghost use Rattle.amo_disk.specs.Standing.{left_of};

    ghost on_disk = { λ r. left_of (F.standing r.folder) (spelt_known r.version (F.pieces r.folder)) };

    #[tactic(auto, using(crate::proofs::Standings::all_left))]
    fn put_on_disk(&mut self) -> io::Result<()> {
        self.sync()?;
        Ok(())
    }

    fn pieces_begun(&self) -> u64 {
        self.begun()
    }
}

/// The system's word for it: nobody tells what is in a file.
impl Syncs for File {
    ghost use Rattle.std.specs.Prelude.{None};

    ghost on_disk = { λ _. None };

    fn put_on_disk(&mut self) -> io::Result<()> {
        self.sync_data()?;
        Ok(())
    }

    fn pieces_begun(&self) -> u64 {
        0
    }
}
