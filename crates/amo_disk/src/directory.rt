//! Pieces of a journal in files.
ghost use Rattle.std.specs.Prelude.{◌≡◌, true, OnOk};
ghost use Rattle.amo_disk.specs.Standing.{is_on_disk};

use crate::hold::begin_behind;
use crate::names::{piece_name, sync_names};
use crate::{Folder, Standing};
use std::alloc::Global;
use std::fs::File;
use std::io::{self, ErrorKind, Seek, SeekFrom, Write};
use std::os::unix::fs::MetadataExt;
use std::rt::{Clock, Files};
use std::time::{Duration, Instant};
use std::{fs, mem};

/// How many numbers are tried for a piece, where files have them.
const MOST_NUMBERS: u32 = 1000;

/// How long the name of a piece is not looked up again, in microseconds: the system takes longer for that than to write a line.
const LOOKS_APART: u64 = 10_000;

/// Pieces of a journal in files of one directory: the newest has the journal's name, and those before it have numbers behind that. How they stand is
/// noted behind each call of the system that succeeds: contracts see that count, and not the files.
#[derive(Drop)]
pub struct Directory<'r, R: Clock + Files<File = File>> {
    rt: &'r R,
    alloc: Global,
    path: String,
    // The highest number of a piece, or 0.
    highest: u64,
    newest: File,
    written: Written,
    standing: Standing,
    // How long the newest piece was when it was on the disk last, where nobody hears of lines before they are there.
    on_disk: Option<u64>,
    // Open for nothing but to be closed: so a new piece can be opened, and the names be synced, where others have opened all that the process may.
    spares: Option<(File, File)>,
}

/// Two more handles of a file, where the process may have them.
fn spares_of(file: &File) -> Option<(File, File)> {
    match (file.try_clone(), file.try_clone()) {
        (Ok(first), Ok(second)) => Some((first, second)),
        _ => None,
    }
}

/// The file that was written, and how long it is, if nobody else changed it.
#[derive(Clone, Copy)]
struct Written {
    device: u64,
    inode: u64,
    length: u64,
    // When its name was looked up last.
    looked: Option<Instant>,
}

impl Written {
    /// This file, of so many bytes.
    fn of(file: &File, length: u64) -> io::Result<Written> {
        let found = file.metadata()?;
        Ok(Written {
            device: found.dev(),
            inode: found.ino(),
            length,
            looked: None,
        })
    }

    /// Whether the newest piece, which this file is, is as it was written: nobody cut it or added to it, and it had its name, which is this path, a moment
    /// ago.
    fn is_as_written<R: Clock + Files<File = File>>(
        &mut self,
        rt: &R,
        file: &mut File,
        path: &str,
    ) -> io::Result<bool> {
        let now = Instant::now(rt)?;
        let apart = Duration::from_micros(LOOKS_APART);
        match self.looked {
            Some(looked) if now.duration_since(looked) < apart => self.is_whole(file),
            _ => {
                self.looked = Some(now);
                self.is_at(rt, path)
            }
        }
    }

    /// Whether this, which is that file, is as long. The system tells where its end is in half the time that it takes to tell all of a file.
    fn is_whole(self, file: &mut File) -> io::Result<bool> {
        Ok(file.seek(SeekFrom::End(0))? == self.length)
    }

    /// Whether what has this name is that file, and as long.
    fn is_at<R: Files<File = File>>(self, rt: &R, path: &str) -> io::Result<bool> {
        match fs::metadata(rt, path) {
            Ok(found) => Ok(
                found.dev() == self.device
                    && found.ino() == self.inode
                    && found.len() == self.length,
            ),
            Err(error) if error.kind() == ErrorKind::NotFound => Ok(false),
            Err(error) => Err(error),
        }
    }
}

impl<'r, R: Clock + Files<File = File>> Directory<'r, R> {
    /// The journal of this name, of which these are the highest number of a piece, and the newest one, which is locked and has so many bytes. With `sync`
    /// nobody hears of lines before they are on the disk.
    pub(crate) fn new(
        rt: &'r R,
        alloc: Global,
        path: String,
        highest: u64,
        newest: File,
        length: u64,
        sync: bool,
    ) -> io::Result<Directory<'r, R>> {
        let written = Written::of(&newest, length)?;
        let spares = spares_of(&newest);
        Ok(Directory {
            rt,
            alloc,
            path,
            highest,
            newest,
            written,
            on_disk: if sync { Some(length) } else { None },
            spares,
            standing: Standing {
                bytes: false,
                names: false,
                is_closed: false,
            },
        })
    }

    /// Puts the newest piece on the disk, with all that the system keeps of a file, and the names.
    pub(crate) fn settle(&mut self) -> io::Result<()>
        ensures { OnOk result (is_on_disk (⟦<Directory<'r, R> as Folder>⟧.standing self.new) ≡ true) }
    {
        self.newest.sync_all()?;
        self.standing.bytes = true;
        self.sync_names()?;
        Ok(())
    }

    /// Puts the bytes of the newest piece on the disk. Where that fails the system counts them as kept all the same, and a next host would go on behind them.
    /// So those that nobody heard of are cut off.
    fn put_on_disk(&mut self) -> io::Result<()>
        ensures { self.new.standing ≡ self.old.standing }
    {
        match self.newest.sync_data() {
            Ok(()) => {
                self.on_disk = self.on_disk.and(Some(self.written.length));
                Ok(())
            }
            Err(error) => {
                if let Some(length) = self.on_disk {
                    let _ = self.newest.set_len(length);
                }
                Err(error)
            }
        }
    }
}

impl<R: Clock + Files<File = File>> Folder for Directory<'_, R> {
    ghost use Rattle.std.specs.Prelude.{None, Some};

    ghost pieces = { λ _. None };

    ghost standing = { λ d. Some d.standing };

    /// Where somebody else cut the piece, added to it, removed or moved it, as a rotation of logs does, the next host would not find there what was written:
    /// nothing more is appended. Under load it is noticed some milliseconds later that a piece was moved or removed, and at once that it was cut.
    ///
    /// Where it is put on the disk nothing is appended behind bytes that are not there yet: a reader may have put them there and told of them, and a sync of
    /// more that fails would take them back.
    fn append(&mut self, bytes: &[u8]) -> io::Result<usize> {
        if self.on_disk.is_some() && !self.standing.bytes {
            self.put_on_disk()?;
        }
        if !self
            .written
            .is_as_written(self.rt, &mut self.newest, self.path.as_str())?
        {
            return Err(io::Error::from(ErrorKind::InvalidData));
        }
        let count = self.newest.write(bytes)?;
        self.written.length = self.written.length.saturating_add(count as u64);
        self.standing.bytes = false;
        Ok(count)
    }

    /// Where all are there, nothing is asked of the system.
    fn sync(&mut self) -> io::Result<()> {
        if !self.standing.bytes {
            self.put_on_disk()?;
            self.standing.bytes = true;
        }
        Ok(())
    }

    /// Where some of its bytes are not on the disk, it is refused; and where somebody else changed it, whenever it was looked at last: it would get its number
    /// so.
    fn close(&mut self) -> io::Result<()> {
        if !self.standing.bytes {
            return Err(io::Error::from(ErrorKind::InvalidInput));
        }
        if !self.written.is_at(self.rt, self.path.as_str())? {
            return Err(io::Error::from(ErrorKind::InvalidData));
        }
        self.highest = give_number(self.rt, self.alloc, self.path.as_str(), self.highest)?;
        self.standing.names = false;
        self.standing.is_closed = true;
        Ok(())
    }

    /// The file before keeps its lock until the new one has its own: it is closed last. Where it was not closed, or some of its bytes are not on the
    /// disk, a new one is refused.
    fn begin(&mut self) -> io::Result<()> {
        if !self.standing.is_closed || !self.standing.bytes {
            return Err(io::Error::from(ErrorKind::InvalidInput));
        }
        self.spares = None;
        let newest = begin_behind(self.rt, self.path.as_str())?;
        self.written = Written::of(&newest, 0)?;
        drop(mem::replace(&mut self.newest, newest));
        self.on_disk = self.on_disk.and(Some(0));
        self.spares = spares_of(&self.newest);
        self.standing.names = false;
        self.standing.is_closed = false;
        Ok(())
    }

    /// Where they are there, nothing is asked of the system.
    fn sync_names(&mut self) -> io::Result<()> {
        if !self.standing.names {
            self.spares = None;
            sync_names(self.rt, self.alloc, self.path.as_str())?;
            self.spares = spares_of(&self.newest);
            self.standing.names = true;
        }
        Ok(())
    }
}

/// Gives the newest piece of a journal a number above this one, which no file has. Answers it.
fn give_number<R: Files<File = File>>(
    rt: &R,
    alloc: Global,
    path: &str,
    highest: u64,
) -> io::Result<u64> {
    let mut number = highest;
    'numbers: for _ in 0..MOST_NUMBERS {
        number = number.saturating_add(1);
        let name = piece_name(alloc, path, number)?;
        match fs::symlink_metadata(rt, name.as_str()) {
            Ok(_) => (),
            Err(error) if error.kind() == ErrorKind::NotFound => {
                fs::rename(rt, path, name.as_str())?;
                return Ok(number);
            }
            Err(error) => return Err(error),
        }
    }
    Err(io::Error::from(ErrorKind::AlreadyExists))
}
