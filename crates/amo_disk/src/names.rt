//! The names of the files of a journal.
use crate::OpenFault;
use amo_pieces::piece_number;
use amo_text::cut;
use std::alloc::{AllocError, Global};
use std::fs::File;
use std::io::{self, Read};
use std::rt::Files;

/// How many bytes of names a directory is asked for at once. A name has 255 at most.
const NAMES: usize = 4096;

/// The name of the file of a numbered piece.
pub(crate) fn piece_name(alloc: Global, path: &str, number: u64) -> Result<String, AllocError> {
    format!(in alloc; "{path}.{number:06}")
}

/// The directory in which the files of this journal are, and its name there. Behind the slash the system follows a link to a directory.
fn parts_of(alloc: Global, path: &str) -> Result<(String, &str), AllocError> {
    match path.rsplit_once('/') {
        Some((directory, name)) => Ok((format!(in alloc; "{directory}/")?, name)),
        None => Ok((String::from_str(alloc, "./")?, path)),
    }
}

/// The highest number that a piece of this journal has, or 0.
pub(crate) fn highest_number<R: Files<File = File>>(
    rt: &R,
    alloc: Global,
    path: &str,
) -> Result<u64, OpenFault> {
    let (directory, name) = parts_of(alloc, path)?;
    let mut directory = rt.open_dir(directory.as_str())?;
    let mut highest = 0;
    let mut names = [0u8; NAMES];
    'names: for _ in 0..u64::MAX {
        let count = directory.read(&mut names)?;
        if count == 0 {
            break;
        }
        highest = highest.max(highest_in(name.as_bytes(), &names[..count]));
    }
    Ok(highest)
}

/// The highest number that a piece of this name has among these names, each with a zero behind it, or 0.
fn highest_in(name: &[u8], names: &[u8]) -> u64 {
    let mut highest = 0;
    let mut rest = names;
    while let Some((file, behind)) = cut(rest, 0) {
        if let Some(number) = piece_number(name, file) {
            highest = highest.max(number);
        }
        rest = behind;
    }
    highest
}

/// Puts the names of the files of this journal on the disk.
pub(crate) fn sync_names<R: Files<File = File>>(
    rt: &R,
    alloc: Global,
    path: &str,
) -> io::Result<()> {
    let (directory, _) = parts_of(alloc, path)?;
    std::fs::open(rt, directory.as_str())?.sync_all()
}
