//! Files that a host has alone.
use std::fs::{File, OpenOptions, TryLockError};
use std::io;
use std::os::unix::fs::OpenOptionsExt;
use std::rt::Files;

/// Words follow from the key of a file of lives: its owner alone reads and writes a new one.
const MODE: u32 = 0o600;

/// Opens a file to be read and appended to, or makes one that is its owner's alone. Nobody else has it.
pub(crate) fn open_alone<R: Files<File = File>>(rt: &R, path: &str) -> Result<File, TryLockError> {
    match open_own(rt, path) {
        Ok(file) => {
            file.try_lock()?;
            Ok(file)
        }
        Err(error) => Err(TryLockError::Error(error)),
    }
}

/// Opens the file, or makes it.
fn open_own<R: Files<File = File>>(rt: &R, path: &str) -> io::Result<File> {
    let opened: File = OpenOptions::new()
        .read(true)
        .append(true)
        .create(true)
        .mode(MODE)
        .open(rt, path)?;
    // Where a standard stream is closed, the file has its number, and gets what is shown there. A clone has a number of its own.
    opened.try_clone()
}
