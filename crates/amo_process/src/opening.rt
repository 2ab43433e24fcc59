//! What a host opens before it is at work, and what it tells of that.
ghost use Rattle.std.specs.Prelude.{◌≡◌, ◌<◌, ◌++◌, IfOk, codes, string_bytes};

use crate::failure::HostFailure;
use crate::stopping::Nail;
use amo_disk::{Cause, Disk, Gathered};
use amo_live::{Aside, Bell, HostLives, OpenedLives, Plan, Socket};
use amo_object::End;
use amo_settings::HostSettings;
use std::alloc::Global;
use std::cell::Cell;
use std::fs;
use std::fs::File;
use std::io::ErrorKind;
use std::net::Net;
use std::os::fd::AsRawFd;
use std::random::RandomSource;
use std::rt::Files;
use std::sync::ledger::{Blank, Ledger};

/// The number of standard input.
const STANDARD_INPUT: i32 = 0;

/// The number of standard output.
const STANDARD_OUTPUT: i32 = 1;

/// What the name of a file of lives has behind that of its journal.
const LIVES: &str = ".lives";

/// A file that is there, and has nothing.
const NOTHING: &str = "/dev/null";

/// Opens two files, to be held open. What is opened behind them has the number of no standard stream: where one is closed, a socket or a
/// journal could have its number, and would get what is meant for a client. Refused where standard output is closed, or standard input at a
/// host that reads it.
pub fn hold_numbers<R: AllocGlobal + Files<File = File>>(
    rt: &R,
    side: End,
) -> Result<(File, File), HostFailure> {
    let held = (open_nothing(rt)?, open_nothing(rt)?);
    let numbers = [held.0.as_raw_fd(), held.1.as_raw_fd()];
    let lacks_input = side == End::Sender && numbers[0] == STANDARD_INPUT;
    if lacks_input {
        return Err(HostFailure::InputClosed);
    }
    if numbers[0] == STANDARD_OUTPUT || numbers[1] == STANDARD_OUTPUT {
        return Err(HostFailure::OutputClosed);
    }
    Ok(held)
}

/// Opens a file that has nothing.
fn open_nothing<R: AllocGlobal + Files<File = File>>(rt: &R) -> Result<File, HostFailure> {
    match fs::open(rt, NOTHING) {
        Ok(file) => Ok(file),
        Err(error) if error.kind() == ErrorKind::OutOfMemory => Err(HostFailure::NoMemory),
        Err(error) => Err(HostFailure::of_disk(rt.alloc(), NOTHING, Cause::from(error))),
    }
}

/// What a host has, beside its socket and its journal, before it tells that it is there: whoever reads that may ask it to come to its end.
#[derive(Drop)]
pub struct Prepared<W> {
    /// The path of its file of lives.
    pub file: String,
    /// Where its words come from; of a host with a door what is told of its life, too.
    pub words: W,
    /// Where it is asked to come to its end.
    pub bell: Bell,
    /// Where that hangs.
    pub nail: Nail,
}

/// The path of the file of lives beside the journal at this path.
pub fn path_of_lives(alloc: Global, journal: &str) -> Result<String, HostFailure>
    ensures { IfOk result (λ path. string_bytes path ≡ journal.now ++ codes ".lives") }
{
    let mut path = String::from_str(alloc, journal)?;
    path.push_str(LIVES)?;
    Ok(path)
}

/// Opens the file of lives at this path, beside a journal of so many lines.
pub fn open_lives<'a, R: AllocGlobal + Eprint + Files<File = File> + RandomSource, N: Ledger>(
    rt: &R,
    path: &str,
    plan: &Plan,
    lines: u64,
    cause: &'a Cell<Option<Cause>>,
    blank: Blank,
) -> Result<HostLives<Gathered<Disk<'a, File, N>>>, HostFailure>
    requires { (blank.name ≡ N.name) × (blank.parts ≡ N.parts) × (0 < N.parts) }
{
    let alloc = rt.alloc();
    let opened = match OpenedLives::open(rt, alloc, path, plan.setup.side) {
        Ok(opened) => opened,
        Err(fault) => return Err(HostFailure::of_lives(alloc, path, fault)),
    };
    if opened.is_new() && lines > 0 {
        tell_of_new_lives(&Aside::new(rt), path);
    }
    if opened.has_lives() && lines == 0 {
        tell_of_lost_journal(&Aside::new(rt), path);
    }
    match opened.go_on(rt, alloc, path, lines, plan.limits.sync, cause, blank) {
        Ok(lives) => Ok(lives),
        Err(fault) => Err(HostFailure::of_lives(alloc, path, fault)),
    }
}

/// Tells that a journal goes on, and that the key of its words is not known any more.
fn tell_of_new_lives<R: Eprint>(rt: &R, path: &str) {
    let _ = eprintln!(rt; "amo: {path}: it is begun with a new key, beside a journal that goes on");
}

/// Tells that a journal has no line, and that an earlier host had it.
fn tell_of_lost_journal<R: Eprint>(rt: &R, path: &str) {
    let _ = eprintln!(rt;
        "amo: {path}: it tells of an earlier life, and the journal has no line: was it moved away?"
    );
}

/// Opens the socket. Answers its port, too.
pub fn open_socket<R: AllocGlobal + Net, L: Ledger>(
    rt: &R,
    host: &HostSettings,
    blank: Blank,
) -> Result<(Socket<L>, u16), HostFailure>
    requires { (blank.name ≡ L.name) × (blank.parts ≡ L.parts) × (0 < L.parts) }
{
    let (listen, peer) = (host.listen.as_str(), host.peer.as_str());
    let fault = match Socket::<L>::open(rt, listen, peer, blank) {
        Ok(socket) => {
            let address = socket.address();
            match address {
                Ok(address) => return Ok((socket, address.port())),
                Err(fault) => fault,
            }
        }
        Err(fault) => fault,
    };
    Err(HostFailure::of_socket(rt.alloc(), listen, peer, fault))
}

/// Tells that so many zeros were cut off at the end of a journal, if there were any.
pub fn tell_of_zeros<R: Eprint>(rt: &R, path: &str, zeros: u64) {
    let rt = Aside::new(rt);
    if zeros > 0 {
        let _ = eprintln!(rt;
            "amo: {path}: {zeros} zeros at its end were cut off, as a loss of power leaves them"
        );
    }
}

/// Tells where a host listens, with the port that it has got, and how many lines of events came back of its journal. Of a socket that has a
/// peer the system tells the one address that leads there, also where it listens on each that this machine has.
pub fn tell_of_start<R: Eprint>(rt: &R, listen: &str, port: u16, journal: &str, lines: u64) {
    let rt = Aside::new(rt);
    let host = host_of(listen);
    let _ = eprintln!(rt; "amo: listens on {host}:{port}, behind {lines} lines of {journal}");
}

/// What stands in front of the port of an address.
pub fn host_of(address: &str) -> &str {
    match address.rsplit_once(':') {
        Some((host, _port)) => host,
        None => address,
    }
}
