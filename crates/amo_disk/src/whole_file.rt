//! Small files that are kept whole: each is made anew beside, put on its disk, and then in the place of the one before.
use crate::hold::MODE;
use std::fs::{self, File, OpenOptions};
use std::io::{self, ErrorKind, Write};
use std::os::unix::fs::OpenOptionsExt;
use std::path::Path;
use std::rt::Files;

/// Makes a file of this path anew, which is its owner's alone and has this text, and puts it on its disk. What a kill left there is removed, and what somebody
/// else put there, as a link or a file that others may read, is not written through.
pub fn write_beside<R: Files<File = File>>(rt: &R, path: &str, text: &[u8]) -> io::Result<()> {
    remove_if_there(rt, path)?;
    let mut file: File = OpenOptions::new()
        .write(true)
        .create_new(true)
        .mode(MODE)
        .open(rt, path)?;
    file.write_all(text)?;
    file.sync_all()
}

/// Puts the file of one path in the place of that of another one in the same directory, on its disk too.
pub fn put_in_place<R: Files<File = File>>(rt: &R, from: &str, to: &str) -> io::Result<()> {
    fs::rename(rt, from, to)?;
    sync_entry(rt, to)
}

/// Removes the file of this path, if it is there. That is on the disk once [`sync_entry`] was called.
pub fn remove_if_there<R: Files<File = File>>(rt: &R, path: &str) -> io::Result<()> {
    match fs::remove_file(rt, path) {
        Err(error) if error.kind() != ErrorKind::NotFound => Err(error),
        _ => Ok(()),
    }
}

/// Puts on its disk which file has this path.
pub fn sync_entry<R: Files<File = File>>(rt: &R, path: &str) -> io::Result<()> {
    fs::open(rt, directory_of(path))?.sync_all()
}

/// The directory in which the file of this path stands.
fn directory_of(path: &str) -> &str {
    match Path::new(path).parent() {
        Some(parent) if !parent.as_str().is_empty() => parent.as_str(),
        _ => ".",
    }
}
