//! The file of a call, which one process has at a time.
ghost use Rattle.std.specs.Prelude.{◌≡◌, [], IfOk};
ghost use Rattle.amo_client.specs.File.{bytes_of};

use crate::fault::ClientFault;
use amo_disk::{Cause, put_in_place, remove_if_there, sync_entry, write_beside};
use std::alloc::{AllocError, Global};
use std::fs::{self, File, OpenOptions, TryLockError};
use std::io::{self, ErrorKind, Read};
use std::os::unix::fs::{MetadataExt, OpenOptionsExt};
use std::rt::Files;

/// Messages stand there in clear: its owner alone reads and writes a new one.
const MODE: u32 = 0o600;

/// What the name of a lock has behind that of the file.
const LOCK: &str = ".lock";

/// The same of what is to take the file's place.
const NEW: &str = ".new";

/// How often a lock is looked for again where another process took it away meanwhile.
const MOST_LOOKS: u32 = 100;

/// How many bytes of the file are read at most: a longer one keeps no call.
const MOST_BYTES: u64 = 8192;

/// The file of a call is this process's alone until it is dropped or left.
#[derive(Drop)]
pub(crate) struct Held {
    lock: File,
    path: String,
}

impl Held {
    /// Takes hold of the file of this path, which need not be there.
    pub(crate) fn take<R: AllocGlobal + Files<File = File>>(
        rt: &R,
        path: &str,
    ) -> Result<Held, ClientFault> {
        let alloc = rt.alloc();
        let name = behind(alloc, path, LOCK)?;
        'looks: for _look in 0..MOST_LOOKS {
            match lock_at(rt, name.as_str()) {
                Ok(Some(lock)) => return Ok(Held { lock, path: name }),
                Ok(None) => {}
                Err(TryLockError::WouldBlock) => break,
                Err(TryLockError::Error(error)) => {
                    return Err(ClientFault::of_file(alloc, name.as_str(), Cause::from(error)));
                }
            }
        }
        Err(ClientFault::InUse(String::from_str(alloc, path)?))
    }

    /// Leaves it to others. The lock is taken away while it is held: who opened it meanwhile sees that, and looks again. Where somebody took it away before,
    /// what has its name is the lock of another call, and stays.
    pub(crate) fn leave<R: Files<File = File>>(self, rt: &R) {
        let path = self.path.as_str();
        if let Ok(true) = is_named(rt, &self.lock, path) {
            let _ = fs::remove_file(rt, path);
        }
        let _ = self.lock.unlock();
    }
}

/// Takes the lock of this path. None where it was taken away meanwhile.
fn lock_at<R: Files<File = File>>(rt: &R, path: &str) -> Result<Option<File>, TryLockError> {
    let opened: io::Result<File> = OpenOptions::new()
        .read(true)
        .append(true)
        .create(true)
        .mode(MODE)
        .open(rt, path);
    let file = match opened {
        Ok(file) => file,
        Err(error) => return Err(TryLockError::Error(error)),
    };
    file.try_lock()?;
    match is_named(rt, &file, path) {
        Ok(true) => Ok(Some(file)),
        Ok(false) => Ok(None),
        Err(error) => Err(TryLockError::Error(error)),
    }
}

/// Whether this file has this name still.
fn is_named<R: Files<File = File>>(rt: &R, file: &File, path: &str) -> io::Result<bool> {
    let own = file.metadata()?;
    match fs::metadata(rt, path) {
        Ok(named) => Ok(named.dev() == own.dev() && named.ino() == own.ino()),
        Err(error) if error.kind() == ErrorKind::NotFound => Ok(false),
        Err(error) => Err(error),
    }
}

/// What is told of a file that keeps no call.
pub(crate) const KEEPS_NONE: &str = "it keeps no call: what it has is left as it is";

/// What is told of a link. The same call could be kept behind each name of its file.
const IS_LINK: &str = "it is a link, and the file of a call has one name: nothing was asked";

/// Why what has this name cannot be the file of a call, if that is seen before it is opened: a pipe or a device may have no end, or nothing until somebody
/// writes.
pub(crate) fn unfit<R: Files<File = File>>(rt: &R, path: &str) -> Option<&'static str> {
    match fs::symlink_metadata(rt, path) {
        Ok(found) if found.is_symlink() => Some(IS_LINK),
        Ok(found) if !found.is_file() && !found.is_dir() => Some(KEEPS_NONE),
        _ => None,
    }
}

/// What the file of a call has: what was read from there, or written there, whole and on its disk; or nothing, where it is not there.
#[derive(Drop)]
pub(crate) struct FileText {
    bytes: Vec<u8>,
}

impl FileText {
    /// That of a file which is not there.
    pub(crate) fn absent(alloc: Global) -> FileText
        ensures { bytes_of result ≡ [] }
    {
        FileText {
            bytes: Vec::new(alloc),
        }
    }

    pub(crate) fn bytes(&self) -> &[u8]
        ensures { result.now ≡ bytes_of self.now }
    {
        self.bytes.as_slice()
    }
}

/// What the file of this path has; none where there is no such file.
pub(crate) fn read_file<R: AllocGlobal + Files<File = File>>(
    rt: &R,
    path: &str,
) -> Result<Option<FileText>, ClientFault> {
    let alloc = rt.alloc();
    let file = match fs::open(rt, path) {
        Ok(file) => file,
        Err(error) if error.kind() == ErrorKind::NotFound => return Ok(None),
        Err(error) => return Err(ClientFault::of_file(alloc, path, Cause::from(error))),
    };
    let mut bytes = Vec::new(alloc);
    match file.take(MOST_BYTES).read_to_end(&mut bytes) {
        Ok(_) => Ok(Some(FileText { bytes })),
        Err(error) => Err(ClientFault::of_file(alloc, path, Cause::from(error))),
    }
}

/// Puts a text into the place of what the file of this path has, whole or not at all, and on its disk.
pub(crate) fn write_anew<R: Files<File = File>>(
    rt: &R,
    alloc: Global,
    path: &str,
    text: Vec<u8>,
) -> io::Result<FileText>
    ensures { IfOk result (λ written. bytes_of written ≡ text.items) }
{
    let name = behind(alloc, path, NEW)?;
    write_beside(rt, name.as_str(), text.as_slice())?;
    put_in_place(rt, name.as_str(), path)?;
    Ok(FileText { bytes: text })
}

/// Removes the file of this path, if it is there, from its disk too.
pub(crate) fn remove<R: Files<File = File>>(
    rt: &R,
    alloc: Global,
    path: &str,
) -> io::Result<FileText>
    ensures { IfOk result (λ gone. bytes_of gone ≡ []) }
{
    remove_if_there(rt, path)?;
    sync_entry(rt, path)?;
    Ok(FileText::absent(alloc))
}

/// A path with this behind it.
fn behind(alloc: Global, path: &str, end: &str) -> Result<String, AllocError> {
    let mut name = String::from_str(alloc, path)?;
    name.push_str(end)?;
    Ok(name)
}
