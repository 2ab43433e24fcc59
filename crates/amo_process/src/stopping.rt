//! A host is asked to come to its end: the bell beside its journal, and who rings it.
use crate::failure::HostFailure;
use amo_disk::Cause;
use amo_live::{Aside, Bell};
use std::alloc::{AllocError, Global};
use std::fs::{self, Metadata};
use std::io::{self, ErrorKind, Read};
use std::net::Net;
use std::os::unix::fs::{FileTypeExt, MetadataExt};
use std::os::unix::net::UnixStream;
use std::rt::Files;
use std::time::SystemTime;

/// What the name of a bell has behind that of its journal.
const BELL: &str = ".stop";

/// How many bytes the path of a socket may have, as Linux has it (unix(7)).
const LONGEST_PATH: usize = 107;

/// Which file it is, whatever its name: its device, its number there, and when it was made, since numbers are given again.
pub(crate) type Identity = (u64, u64, Option<SystemTime>);

/// Where the bell of a host hangs.
#[derive(Drop)]
pub struct Nail {
    path: String,
    /// Which socket it is; none where no bell hangs.
    identity: Option<Identity>,
}

impl Nail {
    /// Takes down the bell of a host that has come to its end, unless something else is there.
    pub fn take_down<R: Files>(&self, rt: &R) {
        let path = self.path.as_str();
        if self.identity.is_some() && identity_of(rt, path) == self.identity {
            let _ = fs::remove_file(rt, path);
        }
    }
}

/// Which socket is at this path, if one is. Nothing else is a bell, also where it came while the bell was being hung.
fn identity_of<R: Files>(rt: &R, path: &str) -> Option<Identity> {
    match fs::symlink_metadata(rt, path) {
        Ok(found) if found.file_type().is_socket() => Some(identity_in(&found)),
        _ => None,
    }
}

/// Which file it is of which this was found.
pub(crate) fn identity_in(found: &Metadata) -> Identity {
    (found.dev(), found.ino(), found.created().ok())
}

/// The bell of a host with this journal, and where it hangs. Where it cannot be hung that is told, and the host cannot be asked.
pub fn hang_bell<R: AllocGlobal + Eprint + Files + Net>(
    rt: &R,
    journal: &str,
) -> Result<(Bell, Nail), AllocError> {
    let alloc = rt.alloc();
    let path = path_of_bell(alloc, journal)?;
    match Bell::hang(rt, alloc, path.as_str()) {
        Ok(bell) => {
            let identity = identity_of(rt, path.as_str());
            Ok((bell, Nail { path, identity }))
        }
        Err(cause) => {
            tell_of_no_bell(rt, path.as_str(), cause);
            let identity = None;
            Ok((Bell::none(alloc), Nail { path, identity }))
        }
    }
}

/// Tells that no bell hangs at this path, and why.
fn tell_of_no_bell<R: Eprint>(rt: &R, path: &str, cause: Cause) {
    let rt = Aside::new(rt);
    let _ = if path.len() > LONGEST_PATH {
        eprintln!(rt;
            "amo: {path}: it has more than {LONGEST_PATH} bytes, and no socket can have that name: `amo stop` cannot reach this host"
        )
    } else {
        eprintln!(rt; "amo: {path}: {cause}: `amo stop` cannot reach this host")
    };
}

/// Has the host of this journal come to its end, and waits until it has. Answers its status.
pub fn stop_host<R: AllocGlobal + Net>(rt: &R, journal: &str) -> Result<u8, HostFailure> {
    let alloc = rt.alloc();
    let path = path_of_bell(alloc, journal)?;
    let mut host = match UnixStream::connect(rt, path.as_str()) {
        Ok(host) => host,
        Err(error) => return Err(HostFailure::of_bell(alloc, journal, path.as_str(), error)),
    };
    match last_byte(&mut host) {
        Ok(Some(b'0')) => Ok(0),
        Ok(Some(status)) if status.is_ascii_digit() => Ok(status.saturating_sub(b'0')),
        Ok(_) => Err(HostFailure::Ended),
        Err(error) if error.kind() == ErrorKind::ConnectionReset => Err(HostFailure::Ended),
        Err(error) => Err(HostFailure::of_disk(alloc, path.as_str(), Cause::from(error))),
    }
}

/// The last byte that comes, if one does. It ends where the other side has closed.
fn last_byte(host: &mut UnixStream) -> io::Result<Option<u8>> {
    let mut last = None;
    'reads: for _read in 0..u64::MAX {
        let mut byte = [0; 1];
        match host.read(byte.as_mut_slice()) {
            Ok(0) => break,
            Ok(_) => last = Some(byte[0]),
            Err(error) if error.kind() == ErrorKind::Interrupted => (),
            Err(error) => return Err(error),
        }
    }
    Ok(last)
}

/// The path of the bell beside the journal at this path.
fn path_of_bell(alloc: Global, journal: &str) -> Result<String, AllocError> {
    let mut path = String::from_str(alloc, journal)?;
    path.push_str(BELL)?;
    Ok(path)
}
