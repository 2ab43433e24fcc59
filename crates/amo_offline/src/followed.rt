//! A journal that is read while a host writes it: piece after piece, each from where reading stopped.
ghost use Rattle.std.specs.Prelude.{◌≤◌, IfOk, length};

use crate::fault::OfflineFault;
use crate::identity::{Identity, identity_of, open_file, put_on_disk};
use crate::line_place::place_before;
use crate::names::{numbers_of, piece_name};
use amo_journal::Version;
use amo_text::{cut, read_decimal};
use std::alloc::Global;
use std::fs::{self, File};
use std::io::{self, ErrorKind};
use std::os::unix::fs::FileExt;
use std::rt::Files;

/// How many bytes of a piece are read for the number of its first line: more than a heading and a number have.
const FRONT: usize = 32;

/// A journal that is followed. Its pieces come in the order of their numbers, and the file of its own name last.
#[derive(Drop)]
pub(crate) struct Followed {
    alloc: Global,
    name: String,
    /// The numbers of its pieces, rising, as far as they were looked for.
    numbers: Vec<u64>,
    /// How many of these are passed: those that were taken up, and those before them.
    passed: usize,
    /// The greatest number of those that were taken up, or 0.
    last: u64,
    piece: Option<Piece>,
    /// The version of those lines of the piece that were passed unread.
    version: Version,
}

/// A piece that is open.
#[derive(Drop)]
struct Piece {
    file: File,
    name: String,
    identity: Identity,
    /// Nobody writes it any more, since it has a number.
    is_closed: bool,
    /// How many of its bytes were read for good.
    offset: u64,
}

impl Followed {
    /// The journal of this name, of which nothing was read.
    pub(crate) fn new(alloc: Global, name: &str) -> Result<Followed, OfflineFault> {
        Ok(Followed {
            alloc,
            name: String::from_str(alloc, name)?,
            numbers: Vec::new(alloc),
            passed: 0,
            last: 0,
            piece: None,
            version: Version::One,
        })
    }

    /// The journal of this name, of which nothing was read, from a line on that is close in front of the one of this number, or is it. The pieces before that
    /// are passed, and the lines of its own piece.
    pub(crate) fn from_line<R: AllocGlobal + Files<File = File>>(
        rt: &R,
        name: &str,
        line: u64,
    ) -> Result<Followed, OfflineFault> {
        let mut followed = Followed::new(rt.alloc(), name)?;
        followed.look_for_pieces(rt)?;
        let passed = pieces_before(rt, name, followed.numbers.as_slice(), line)?;
        if let Some(last) = followed.numbers.as_slice()[..passed].last() {
            followed.last = *last;
        }
        followed.passed = passed;
        if line > 0 && followed.open_next(rt)? {
            followed.pass_lines(line)?;
        }
        Ok(followed)
    }

    /// Passes lines of the piece that stand in front of the one of this number.
    fn pass_lines(&mut self, line: u64) -> Result<(), OfflineFault> {
        let Some(piece) = self.piece.as_mut() else {
            return Ok(());
        };
        match piece.pass_lines(line) {
            Ok(version) => {
                self.version = version;
                Ok(())
            }
            Err(error) => Err(OfflineFault::of_file(self.alloc, piece.name.as_str(), error)),
        }
    }

    /// The version of those lines of the first piece that were passed unread.
    pub(crate) fn version(&self) -> Version {
        self.version
    }

    /// The name of the file that is read, or that is waited for.
    pub(crate) fn file(&self) -> &str {
        match self.piece.as_ref() {
            Some(piece) => piece.name.as_str(),
            None => self.name.as_str(),
        }
    }

    /// Whether the first byte of a piece is still to be read.
    pub(crate) fn is_at_beginning(&self) -> bool {
        match self.piece.as_ref() {
            Some(piece) => piece.offset == 0,
            None => true,
        }
    }

    /// Whether a piece is open.
    pub(crate) fn is_there(&self) -> bool {
        self.piece.is_some()
    }

    /// Whether the piece is one that nobody writes any more.
    pub(crate) fn is_closed(&self) -> bool {
        match self.piece.as_ref() {
            Some(piece) => piece.is_closed,
            None => false,
        }
    }

    /// Reads what stands in the piece behind what was read for good, as much as there is room. Answers how many bytes.
    pub(crate) fn fill(&self, room: &mut [u8]) -> Result<usize, OfflineFault> {
        let Some(piece) = self.piece.as_ref() else {
            return Ok(0);
        };
        match piece.fill(room) {
            Ok(count) => Ok(count),
            Err(error) => Err(OfflineFault::of_file(self.alloc, piece.name.as_str(), error)),
        }
    }

    /// Puts what the piece has on its disk, where a host may still write it. A host that syncs takes lines back whose sync failed, and a loss of power takes
    /// others: who was told of one would not find it any more.
    pub(crate) fn keep(&self) -> Result<(), OfflineFault> {
        match self.piece.as_ref() {
            Some(piece) if !piece.is_closed => match put_on_disk(&piece.file) {
                Ok(()) => Ok(()),
                Err(error) => Err(OfflineFault::of_file(self.alloc, piece.name.as_str(), error)),
            },
            _ => Ok(()),
        }
    }

    /// So many bytes of the piece were read for good.
    pub(crate) fn pass(&mut self, count: usize) {
        if let Some(piece) = self.piece.as_mut() {
            piece.offset = piece.offset.saturating_add(count as u64);
        }
    }

    /// Looks what comes behind the end of the piece: whether there is something to be read, as more of this piece, which is closed now, or
    /// another one.
    pub(crate) fn go_on<R: AllocGlobal + Files<File = File>>(
        &mut self,
        rt: &R,
    ) -> Result<bool, OfflineFault> {
        match self.piece.as_ref() {
            Some(piece) if !piece.is_closed => {
                if identity_of(rt, self.name.as_str())? == Some(piece.identity) {
                    return Ok(false);
                }
                self.close(rt)
            }
            _ => self.open_next(rt),
        }
    }

    /// The journal's name is no longer that of the piece, which got a number, or was moved away. It may have grown before.
    fn close<R: AllocGlobal + Files<File = File>>(&mut self, rt: &R) -> Result<bool, OfflineFault> {
        self.look_for_pieces(rt)?;
        let next = self.next_number();
        let Some(piece) = self.piece.as_mut() else {
            return Ok(false);
        };
        piece.is_closed = true;
        let Some(number) = next else {
            return Ok(true);
        };
        let name = piece_name(self.alloc, self.name.as_str(), number)?;
        if identity_of(rt, name.as_str())? == Some(piece.identity) {
            piece.name = name;
            self.take_up(number);
        }
        Ok(true)
    }

    /// Opens the next piece, or the file of the journal's own name, if there is one.
    fn open_next<R: AllocGlobal + Files<File = File>>(
        &mut self,
        rt: &R,
    ) -> Result<bool, OfflineFault> {
        if self.next_number().is_none() {
            self.look_for_pieces(rt)?;
        }
        if let Some(number) = self.next_number() {
            let name = piece_name(self.alloc, self.name.as_str(), number)?;
            self.take_up(number);
            // One that was moved away meanwhile, or is a link that leads nowhere, is passed: the numbers of lines show that it is missing.
            self.open(rt, name, true)?;
            return Ok(true);
        }
        let name = String::from_str(self.alloc, self.name.as_str())?;
        if !self.open(rt, name, false)? {
            return Ok(false);
        }
        // A piece that got its number between these looks stands before the file that was opened, or is that file.
        self.look_for_pieces(rt)?;
        if self.next_number().is_some() {
            self.piece = None;
        }
        Ok(true)
    }

    /// Opens the file of this name as the piece that is read, if there is one.
    fn open<R: Files<File = File>>(
        &mut self,
        rt: &R,
        name: String,
        is_closed: bool,
    ) -> Result<bool, OfflineFault> {
        match open_file(rt, name.as_str()) {
            Ok((file, identity)) => {
                self.piece = Some(Piece {
                    file,
                    name,
                    identity,
                    is_closed,
                    offset: 0,
                });
                Ok(true)
            }
            Err(error) if error.kind() == ErrorKind::NotFound => Ok(false),
            Err(error) => Err(OfflineFault::of_file(self.alloc, name.as_str(), error)),
        }
    }

    /// The number of the next piece, as far as pieces were looked for.
    fn next_number(&self) -> Option<u64> {
        self.numbers.get(self.passed).copied()
    }

    /// The piece of this number, the next one, is the one that is read.
    fn take_up(&mut self, number: u64) {
        self.passed = self.passed.saturating_add(1);
        self.last = number;
    }

    /// Looks which pieces there are.
    fn look_for_pieces<R: AllocGlobal + Files>(&mut self, rt: &R) -> Result<(), OfflineFault> {
        self.numbers = numbers_of(rt, self.name.as_str())?;
        self.passed = count_up_to(self.numbers.as_slice(), self.last);
        Ok(())
    }
}

/// How many of these numbers, which rise, are not greater than this one.
fn count_up_to(numbers: &[u64], most: u64) -> usize {
    let mut count = 0;
    for place in 0..numbers.len() {
        if numbers[place] <= most {
            count = place + 1;
        }
    }
    count
}

impl Piece {
    /// Reads what stands behind what was read for good. A file that has become shorter than that is none that a host goes on with.
    fn fill(&self, room: &mut [u8]) -> io::Result<usize> {
        if self.file.metadata()?.len() < self.offset {
            return Err(io::Error::from(ErrorKind::InvalidData));
        }
        self.file.read_at(room, self.offset)
    }

    /// Passes lines that stand in front of the one of this number, and the heading with them. Answers the version of the piece.
    fn pass_lines(&mut self, line: u64) -> io::Result<Version> {
        let mut front = [0u8; FRONT];
        let count = self.file.read_at(&mut front, 0)?;
        let bytes = &front[..count.min(front.len())];
        let (version, begin) = match bytes.strip_prefix(Version::Two.heading()) {
            Some(lines) => (Version::Two, bytes.len().saturating_sub(lines.len())),
            None => (Version::One, 0),
        };
        let begin = begin as u64;
        let place = place_before(&self.file, begin, self.file.metadata()?.len(), line)?;
        if place > begin {
            self.offset = place;
        }
        Ok(version)
    }
}

/// How many of the pieces of these numbers stand before the one that has the line of this number, or would have it.
fn pieces_before<R: AllocGlobal + Files<File = File>>(
    rt: &R,
    name: &str,
    numbers: &[u64],
    line: u64,
) -> Result<usize, OfflineFault>
    ensures { IfOk result (λ count. count ≤ length numbers.now) }
{
    if begins_before(rt, name, line) {
        return Ok(numbers.len());
    }
    for back in 1..numbers.len() {
        let place = numbers.len() - back;
        let piece = piece_name(rt.alloc(), name, numbers[place])?;
        if begins_before(rt, piece.as_str(), line) {
            return Ok(place);
        }
    }
    Ok(0)
}

/// Whether the first line of the piece of this name has this number or a smaller one. Where that is not told it has not: then a piece before it is
/// read, and reading this one tells why.
fn begins_before<R: Files<File = File>>(rt: &R, name: &str, line: u64) -> bool {
    match first_number(rt, name) {
        Ok(Some(first)) => first <= line,
        Ok(None) | Err(_) => false,
    }
}

/// The number of the first line of the piece of this name, if it has one.
fn first_number<R: Files<File = File>>(rt: &R, name: &str) -> io::Result<Option<u64>> {
    let file = fs::open(rt, name)?;
    let mut front = [0u8; FRONT];
    let count = file.read_at(&mut front, 0)?;
    let bytes = &front[..count.min(front.len())];
    let line = bytes.strip_prefix(Version::Two.heading()).unwrap_or(bytes);
    match cut(line, b' ') {
        Some((number, _)) => Ok(read_decimal(number)),
        None => Ok(None),
    }
}
