//! Which file it is that has a name, and that it is on its disk.
use crate::fault::OfflineFault;
use std::fs::{self, File};
use std::io::{self, ErrorKind};
use std::os::unix::fs::MetadataExt;
use std::rt::Files;

/// Which file it is, whatever its name: its device, and its number there.
pub(crate) type Identity = (u64, u64);

/// Opens the file of this name, and tells which it is.
pub(crate) fn open_file<R: Files<File = File>>(rt: &R, name: &str) -> io::Result<(File, Identity)> {
    let file = fs::open(rt, name)?;
    let found = file.metadata()?;
    Ok((file, (found.dev(), found.ino())))
}

/// Puts what a file has on its disk. Where that takes nothing, as on a disk that is only read, nothing is to be done.
pub(crate) fn put_on_disk(file: &File) -> io::Result<()> {
    match file.sync_data() {
        Err(error)
            if error.kind() == ErrorKind::InvalidInput
                || error.kind() == ErrorKind::ReadOnlyFilesystem => { Ok(()) }
        done => done,
    }
}

/// How many bytes of a piece may be told of: of one that a host may be writing those that it has now, once they are on its disk, and of any other all.
/// A host that syncs takes lines back whose sync failed, and a loss of power takes others. What is no file, as a pipe, has no disk.
pub(crate) fn length_on_disk(file: &File, is_written: bool) -> io::Result<u64> {
    if !is_written {
        return Ok(u64::MAX);
    }
    let found = file.metadata()?;
    if !found.is_file() {
        return Ok(u64::MAX);
    }
    put_on_disk(file)?;
    Ok(found.len())
}

/// Which file has this name, if one has it.
pub(crate) fn identity_of<R: AllocGlobal + Files<File = File>>(
    rt: &R,
    name: &str,
) -> Result<Option<Identity>, OfflineFault> {
    match fs::metadata(rt, name) {
        Ok(found) => Ok(Some((found.dev(), found.ino()))),
        Err(error) if error.kind() == ErrorKind::NotFound => Ok(None),
        Err(error) => Err(OfflineFault::of_file(rt.alloc(), name, error)),
    }
}
