//! Pieces of a journal in memory.
ghost use Rattle.std.specs.Prelude.{◌≡◌, ℕ, List, [], ◌∷◌};
ghost use Rattle.amo_disk.specs.Shelf.{texts};

use crate::Folder;
use std::alloc::Global;
use std::marker::Model;
use std::{io, mem};

/// Pieces of a journal in memory, as a folder has them in files. Contracts see them, the newest first.
#[derive(Drop)]
pub struct Shelf {
    alloc: Global,
    newest: Vec<u8>,
    earlier: Vec<Vec<u8>>,
}

impl Model for Shelf {
    ghost use Rattle.std.specs.Prelude.{ℕ, List, ◌∷◌};
    ghost use Rattle.amo_disk.specs.Shelf.{texts};

    ghost Value = { List (List ℕ) };

    ghost view = { λ s. s.newest.items ∷ texts s.earlier.items };
}

impl Shelf {
    /// One piece, without bytes.
    pub fn new(alloc: Global) -> Shelf
        ensures { result ≡ [] ∷ [] }
    {
        Shelf {
            alloc,
            newest: Vec::new(alloc),
            earlier: Vec::new(alloc),
        }
    }

    /// The newest piece.
    pub fn newest(&self) -> &[u8]
        ensures { (earlier : List (List ℕ)) × (self.now ≡ result.now ∷ earlier) }
    {
        self.newest.as_slice()
    }

    /// The pieces before it, in the order of time.
    pub fn earlier(&self) -> &[Vec<u8>]
        ensures { (newest : List ℕ) × (self.now ≡ newest ∷ texts result.now) }
    {
        self.earlier.as_slice()
    }
}

impl Folder for Shelf {
    ghost use Rattle.std.specs.Prelude.{Some};

    ghost pieces = { λ s. Some s };

    fn append(&mut self, bytes: &[u8]) -> io::Result<usize> {
        self.newest.extend_from_slice(bytes)?;
        Ok(bytes.len())
    }

    fn sync(&mut self) -> io::Result<()> {
        Ok(())
    }

    fn close(&mut self) -> io::Result<()> {
        Ok(())
    }

    fn begin(&mut self) -> io::Result<()> {
        self.earlier.reserve(1)?;
        let closed = mem::replace(&mut self.newest, Vec::new(self.alloc));
        self.earlier.push(closed)?;
        Ok(())
    }

    fn sync_names(&mut self) -> io::Result<()> {
        Ok(())
    }
}
