//! The files of a journal that no other host has.
use crate::OpenFault;
use crate::names::{highest_number, piece_name};
use std::alloc::Global;
use std::fs::{File, OpenOptions, TryLockError};
use std::io::ErrorKind;
use std::os::unix::fs::{MetadataExt, OpenOptionsExt};
use std::rt::Files;
use std::{fs, io};

/// Messages stand in a journal in clear: its owner alone reads and writes a new one.
pub(crate) const MODE: u32 = 0o600;

/// How often files are looked for again where they got other names meanwhile.
const MOST_LOOKS: u32 = 100;

/// The files at the end of a journal. Nobody else has it while both are open.
#[derive(Drop)]
pub(crate) struct Held {
    /// The newest piece.
    pub(crate) newest: File,
    /// Whether it was begun just now.
    pub(crate) is_new: bool,
    /// The piece before it, if there is one.
    pub(crate) before: Option<File>,
    /// The number of that, or 0.
    pub(crate) highest: u64,
}

/// Takes hold of a journal, and begins its newest piece where there is none. Refused where a host has it: a host has the lock of the newest piece,
/// or, while that gets its number and no other is there, of the one with the highest number.
pub(crate) fn hold<R: Files<File = File>>(
    rt: &R,
    alloc: Global,
    path: &str,
) -> Result<Held, OpenFault> {
    'looks: for _ in 0..MOST_LOOKS {
        if let Some(held) = look(rt, alloc, path)? {
            return Ok(held);
        }
    }
    match fs::symlink_metadata(rt, path) {
        // It leads nowhere, so it is not there, and cannot be made.
        Ok(found) if found.is_symlink() => Err(OpenFault::NoFile),
        _ => Err(OpenFault::InUse),
    }
}

/// Takes hold of the files that are there. None where some got other names meanwhile.
fn look<R: Files<File = File>>(
    rt: &R,
    alloc: Global,
    path: &str,
) -> Result<Option<Held>, OpenFault> {
    let found = find_newest(rt, path)?;
    if let Some(newest) = &found {
        if !newest.metadata()?.is_file() {
            return Err(OpenFault::NoFile);
        }
        try_lock(newest)?;
        if !is_named(rt, newest, path)? {
            return Ok(None);
        }
    }
    let highest = highest_number(rt, alloc, path)?;
    let before = hold_piece(rt, alloc, path, highest)?;
    let is_new = found.is_none();
    let Some(newest) = (match found {
        Some(newest) => Some(newest),
        None => begin_newest(rt, path, before.is_some())?,
    }) else {
        return Ok(None);
    };
    if highest_number(rt, alloc, path)? != highest {
        return Ok(None);
    }
    Ok(Some(Held {
        newest,
        is_new,
        before,
        highest,
    }))
}

/// Opens the newest piece, if it is there.
fn find_newest<R: Files<File = File>>(rt: &R, path: &str) -> Result<Option<File>, OpenFault> {
    match OpenOptions::new().read(true).append(true).open(rt, path) {
        Ok(file) => Ok(Some(with_own_number(file)?)),
        Err(error) if error.kind() == ErrorKind::NotFound => Ok(None),
        Err(error) => Err(OpenFault::from(error)),
    }
}

/// Begins the newest piece. None where one is there meanwhile. A host that finds it asks for the piece before it, too: where that is held nobody
/// keeps the new one.
fn begin_newest<R: Files<File = File>>(
    rt: &R,
    path: &str,
    is_behind: bool,
) -> Result<Option<File>, OpenFault> {
    let begun: io::Result<File> = OpenOptions::new()
        .read(true)
        .append(true)
        .create_new(true)
        .mode(MODE)
        .open(rt, path);
    let file = match begun {
        Ok(file) => with_own_number(file)?,
        Err(error) if error.kind() == ErrorKind::AlreadyExists => return Ok(None),
        Err(error) => return Err(OpenFault::from(error)),
    };
    if is_behind {
        file.lock()?;
    } else {
        try_lock(&file)?;
    }
    Ok(Some(file))
}

/// Opens the piece of this number, which nobody else has. There is none of number 0.
fn hold_piece<R: Files<File = File>>(
    rt: &R,
    alloc: Global,
    path: &str,
    number: u64,
) -> Result<Option<File>, OpenFault> {
    if number == 0 {
        return Ok(None);
    }
    let name = piece_name(alloc, path, number)?;
    let opened = match OpenOptions::new()
        .read(true)
        .append(true)
        .open(rt, name.as_str())
    {
        // It is written only where it has no whole last line: a whole one may be protected.
        Err(error) if error.kind() == ErrorKind::PermissionDenied => fs::open(rt, name.as_str())?,
        opened => opened?,
    };
    let file = with_own_number(opened)?;
    try_lock(&file)?;
    Ok(Some(file))
}

/// Opens the file in which a new piece begins, behind one that is held. It has no bytes: where somebody else began it, nobody wrote to it.
pub(crate) fn begin_behind<R: Files<File = File>>(rt: &R, path: &str) -> io::Result<File> {
    let opened: File = OpenOptions::new()
        .read(true)
        .append(true)
        .create(true)
        .mode(MODE)
        .open(rt, path)?;
    let file = with_own_number(opened)?;
    file.lock()?;
    if file.metadata()?.len() > 0 {
        return Err(io::Error::from(ErrorKind::AlreadyExists));
    }
    Ok(file)
}

/// Another handle of a file. Where a standard stream is closed, what is opened has its number, and gets what is shown there; a clone has a number
/// of its own.
fn with_own_number(file: File) -> io::Result<File> {
    file.try_clone()
}

/// Locks a file, where nobody has it.
fn try_lock(file: &File) -> Result<(), OpenFault> {
    match file.try_lock() {
        Ok(()) => Ok(()),
        Err(TryLockError::WouldBlock) => Err(OpenFault::InUse),
        Err(TryLockError::Error(error)) => Err(OpenFault::from(error)),
    }
}

/// Whether this file has this name still.
fn is_named<R: Files<File = File>>(rt: &R, file: &File, path: &str) -> Result<bool, OpenFault> {
    let own = file.metadata()?;
    match fs::metadata(rt, path) {
        Ok(named) => Ok(named.dev() == own.dev() && named.ino() == own.ino()),
        Err(error) if error.kind() == ErrorKind::NotFound => Ok(false),
        Err(error) => Err(OpenFault::from(error)),
    }
}
