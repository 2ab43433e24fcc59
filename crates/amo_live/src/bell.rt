//! How a host is asked to come to its end.
use crate::{Cause, Ended};
use std::alloc::{AllocError, Global};
use std::fs::{self, Permissions};
use std::io::{self, ErrorKind, Write};
use std::net::Net;
use std::os::fd::AsRawFd;
use std::os::unix::fs::{FileTypeExt, PermissionsExt};
use std::os::unix::net::{UnixListener, UnixStream};
use std::rt::Files;

/// How many who ask are held at once. The others wait where the system has them, and are answered at the end.
const MOST_ASKERS: usize = 16;

/// How many wait there at most, as the system has it at first.
const MOST_WAITING: usize = 4096;

/// Its owner alone may ask.
const MODE: u32 = 0o600;

/// The number of what is not waited for.
const NOTHING: i32 = -1;

/// A socket in the file system. Who connects to it asks the host to come to its end, and gets a byte when it has.
#[derive(Drop)]
pub struct Bell {
    listener: Option<UnixListener>,
    askers: Vec<UnixStream>,
    rung: bool,
    /// The system let no more askers in. They are waited for no longer, since it would tell of them again and again.
    is_crowded: bool,
}

impl Bell {
    /// A bell that nobody can ring.
    pub fn none(alloc: Global) -> Bell {
        Bell {
            listener: None,
            askers: Vec::new(alloc),
            rung: false,
            is_crowded: false,
        }
    }

    /// A bell at this path. A socket that an earlier host left there is replaced, and nothing else is.
    pub fn hang<R: Files + Net>(rt: &R, alloc: Global, path: &str) -> Result<Bell, Cause> {
        let listener = match listening(rt, path) {
            Ok(listener) => listener,
            Err(error) => return Err(Cause::from(error)),
        };
        Ok(Bell {
            listener: Some(listener),
            askers: Vec::new(alloc),
            rung: false,
            is_crowded: false,
        })
    }

    /// The number by which the system waits for it, or a negative one.
    pub fn number(&self) -> i32 {
        match &self.listener {
            Some(listener) if !self.is_full() => listener.as_raw_fd(),
            _ => NOTHING,
        }
    }

    /// Whether those who come now wait for the end.
    fn is_full(&self) -> bool {
        self.is_crowded || self.askers.len() >= MOST_ASKERS
    }

    /// Whether somebody asked.
    pub fn was_rung(&self) -> bool {
        self.rung
    }

    /// Hears who asks. Whoever comes asks, also where the process may open no more files, or where they have gone again.
    pub fn hear(&mut self) -> Result<(), AllocError> {
        let Some(listener) = &self.listener else {
            return Ok(());
        };
        match listener.accept() {
            Ok((asker, _)) => {
                self.rung = true;
                self.askers.push(asker)?;
            }
            Err(error) if error.kind() == ErrorKind::WouldBlock => {}
            Err(_) => {
                self.rung = true;
                self.is_crowded = true;
            }
        }
        Ok(())
    }

    /// Tells those who asked how the host ended, by the digit of its status, and those who wait.
    pub fn answer(&mut self, ended: Ended) {
        let status = match ended {
            Ended::AtRest => b"0",
            Ended::Torn => b"2",
            Ended::OnItsWay => b"5",
        };
        for asker in self.askers.iter_mut() {
            let _ = asker.write_all(status.as_slice());
        }
        self.askers.clear();
        let Some(listener) = &self.listener else {
            return;
        };
        'waiting: for _asker in 0..MOST_WAITING {
            let Ok((mut asker, _)) = listener.accept() else {
                break;
            };
            let _ = asker.write_all(status.as_slice());
        }
    }
}

/// A socket that listens at this path, and no call of which waits.
fn listening<R: Files + Net>(rt: &R, path: &str) -> io::Result<UnixListener> {
    let listener = match UnixListener::bind(rt, path) {
        Err(error) if error.kind() == ErrorKind::AddrInUse => {
            remove_socket(rt, path)?;
            UnixListener::bind(rt, path)?
        }
        bound => bound?,
    };
    fs::set_permissions(rt, path, Permissions::from_mode(MODE))?;
    listener.set_nonblocking(true)?;
    Ok(listener)
}

/// Removes what is at this path, if it is a socket. A host that comes to its end just now may have done so.
fn remove_socket<R: Files>(rt: &R, path: &str) -> io::Result<()> {
    let removed = match fs::symlink_metadata(rt, path) {
        Ok(found) if !found.file_type().is_socket() => {
            return Err(io::Error::from(ErrorKind::AddrInUse));
        }
        Ok(_) => fs::remove_file(rt, path),
        Err(error) => Err(error),
    };
    match removed {
        Err(error) if error.kind() == ErrorKind::NotFound => Ok(()),
        removed => removed,
    }
}
