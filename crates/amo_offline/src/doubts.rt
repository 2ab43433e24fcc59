//! Reads the file of lives beside a journal, which tells of which lines a loss of power makes doubtful.
use crate::fault::OfflineFault;
use amo_disk::Cause;
use amo_lives::{BootId, Lives, LivesFault, LivesFile, Span};
use amo_object::End;
use std::fs::File;
use std::io::{ErrorKind, Read};
use std::rt::Files;
use std::{fs, io};
use thiserror::Error;

/// Where Linux shows the id of the machine's start.
const BOOT_ID: &str = "/proc/sys/kernel/random/boot_id";

/// The line of a file of lives in which the first life stands, counted from 1.
const FIRST_LIFE: usize = 2;

/// All lines.
pub(crate) const EVERY_LINE: &[Span] = &[Span {
    first: 0,
    end: u64::MAX,
}];

/// The lines of a journal on which a loss of power makes puts doubtful.
#[derive(Drop)]
pub(crate) struct Doubts {
    /// The name of the file of lives.
    file: String,
    spans: Vec<Span>,
    /// Why a loss of power is not told.
    lack: Option<Lack>,
}

/// Why a loss of power is not told.
#[derive(Clone, Copy)]
enum Lack {
    Failed(Cause),
    Missing,
    None(LivesFault),
}

impl Doubts {
    /// Reads the file of lives of the journal of this name, beside it.
    pub(crate) fn read<R: AllocGlobal + Files<File = File>>(
        rt: &R,
        journal: &str,
    ) -> Result<Doubts, OfflineFault> {
        let file = format!(in rt.alloc(); "{journal}.lives")?;
        let bytes = match fs::read(rt, file.as_str()) {
            Ok(bytes) => bytes,
            Err(error) if error.kind() == ErrorKind::OutOfMemory => {
                return Err(OfflineFault::NoMemory);
            }
            Err(error) => return Doubts::lacking(rt, file, Lack::of(error)),
        };
        match read_lives(rt, bytes.as_slice()) {
            Ok(read) if read.lacks_first_life(bytes.len()) => {
                Doubts::lacking(rt, file, Lack::None(LivesFault::Malformed(FIRST_LIFE)))
            }
            Ok(read) => Ok(Doubts {
                file,
                spans: read.lives.doubts(rt.alloc(), &boot_id(rt))?,
                lack: None,
            }),
            Err(LivesFault::NoMemory) => Err(OfflineFault::NoMemory),
            Err(fault) => Doubts::lacking(rt, file, Lack::None(fault)),
        }
    }

    /// Nothing is known. Where there is a file that could not be read, or that tells of no lives, each line is doubtful; where there is none, nothing is.
    fn lacking<R: AllocGlobal>(rt: &R, file: String, lack: Lack) -> Result<Doubts, OfflineFault> {
        let mut spans = Vec::new(rt.alloc());
        if !matches!(lack, Lack::Missing) {
            spans.extend_from_slice(EVERY_LINE)?;
        }
        Ok(Doubts {
            file,
            spans,
            lack: Some(lack),
        })
    }

    /// Whether the file of lives was read.
    pub(crate) fn are_known(&self) -> bool {
        self.lack.is_none()
    }

    /// These lines, in the order of time.
    pub(crate) fn spans(&self) -> &[Span] {
        self.spans.as_slice()
    }

    /// Whether lines behind the last one may be lost.
    pub(crate) fn are_open(&self) -> bool {
        match self.spans.as_slice().last() {
            Some(span) => span.end == u64::MAX,
            None => false,
        }
    }

    /// Tells on standard error why a loss of power is not told, if it is not.
    pub(crate) fn tell_lack<R: Eprint>(&self, rt: &R) {
        let file = self.file.as_str();
        let _ = match self.lack {
            None => return,
            Some(Lack::Missing) => rt.eprintln(Told::Missing(file)),
            Some(Lack::Failed(cause)) => rt.eprintln(Told::Failed(file, cause)),
            Some(Lack::None(fault)) => rt.eprintln(Told::None(file, fault)),
        };
    }
}

impl Lack {
    /// The file failed so.
    fn of(error: io::Error) -> Lack {
        match error.kind() {
            ErrorKind::NotFound => Lack::Missing,
            _ => Lack::Failed(Cause::from(error)),
        }
    }
}

/// The lives of a file of either side.
fn read_lives<R: AllocGlobal>(rt: &R, bytes: &[u8]) -> Result<LivesFile, LivesFault> {
    match Lives::read(rt.alloc(), End::Sender, bytes) {
        Err(LivesFault::OtherSide) => Lives::read(rt.alloc(), End::Receiver, bytes),
        read => read,
    }
}

/// The id of the machine's start, where the system shows it.
pub fn boot_id<R: Files<File = File>>(rt: &R) -> Option<BootId> {
    let mut file = fs::open(rt, BOOT_ID).ok()?;
    let mut text = [0; 36];
    file.read_exact(&mut text).ok()?;
    BootId::read(&text)
}

/// What is told of a file of lives, on a line of its own.
#[derive(Debug, Drop, Error)]
enum Told<'a> {
    #[error("amo: {0}: it is missing: a loss of power is not told")]
    Missing(&'a str),
    #[error("amo: {0}: {1}: what a loss of power took is not known, so nothing is told to be gone")]
    Failed(&'a str, Cause),
    #[error("amo: {0}: {1}: what a loss of power took is not known, so nothing is told to be gone")]
    None(&'a str, LivesFault),
}
