//! The journal of a host at work, as it is read beside the host: its pieces, and where a line stands in them.
ghost use Rattle.std.specs.Prelude.{IfOk};
ghost use Rattle.amo_archive.specs.Archive.{IsUnread};

use amo_disk::Cause;
use amo_door::Refusal;
use amo_journal::{Lines, Version};
use amo_pieces::piece_number;
use amo_text::{cut, read_decimal};
use std::alloc::{AllocError, Global};
use std::fs::{self, File};
use std::io::{self, ErrorKind, Read};
use std::os::unix::fs::{FileExt, MetadataExt};
use std::rt::Files;
use std::time::SystemTime;

/// How many bytes of a journal are read at once: so many lines that a turn of the host is not long.
const ROOM: usize = 64 * 1024;

/// How far in front of a line reading begins at most. A longer text is no line.
const NEAR: u64 = 16 * 1024;

/// How often what may hold a line is halved at most.
const HALVES: u32 = 64;

/// How many bytes of names a directory is asked for at once. A name has 255 at most.
const NAMES: usize = 4096;

/// What Linux answers where a process has as many files open as it may, and where all of them together have.
const TOO_MANY_FILES: [i32; 2] = [24, 23];

/// Which file a name stands for: its device, its number there, and when it was made, since numbers are given again.
type Identity = (u64, u64, Option<SystemTime>);

/// The pieces of a journal, which a host of this process writes. They are read between its turns, so that each line is whole.
#[derive(Drop)]
pub struct Records {
    alloc: Global,
    path: String,
    /// The numbers of the pieces before the newest, rising, as they were when the newest was this file.
    numbers: Vec<u64>,
    newest: Option<Identity>,
    room: Vec<u8>,
}

/// A piece that is open.
#[derive(Drop)]
struct Piece {
    file: File,
    length: u64,
    version: Version,
}

impl Piece {
    /// Where its first line begins.
    fn beginning(&self) -> u64 {
        self.version.heading().len() as u64
    }
}

/// Lines of a journal that stand one behind the other.
#[derive(Clone, Copy)]
pub(crate) struct Found<'a> {
    pub(crate) lines: Lines<'a>,
    /// Whether the journal ends behind them.
    pub(crate) is_end: bool,
}

/// What was read of a piece.
#[derive(Clone, Copy)]
struct Part {
    version: Version,
    /// How many bytes of it are in the room.
    count: usize,
    /// Whether the journal ends behind them.
    is_end: bool,
}

/// Why lines cannot be read.
#[derive(Clone, Copy, PartialEq, Eq)]
enum ReadFault {
    /// A piece was taken away while it was looked for, or the process may open no more files or have no more memory now: it may be read later.
    NotNow,
    /// Memory was refused, or a file failed.
    Failed(Cause),
}

impl From<io::Error> for ReadFault {
    fn from(error: io::Error) -> ReadFault {
        match error.kind() {
            ErrorKind::NotFound | ErrorKind::OutOfMemory => ReadFault::NotNow,
            _ if is_of_many_files(&error) => ReadFault::NotNow,
            _ => ReadFault::Failed(Cause::from(error)),
        }
    }
}

/// Whether no more files can be opened just now.
fn is_of_many_files(error: &io::Error) -> bool {
    match error.raw_os_error() {
        Some(code) => TOO_MANY_FILES.contains(&code),
        None => false,
    }
}

impl From<AllocError> for ReadFault {
    fn from(_error: AllocError) -> ReadFault {
        ReadFault::NotNow
    }
}

impl Records {
    /// The journal of this path. Nothing of it is read before it is asked for.
    pub fn new(alloc: Global, path: &str) -> Result<Records, AllocError>
        ensures { IfOk result (IsUnread path.now) }
    {
        Ok(Records {
            alloc,
            path: String::from_str(alloc, path)?,
            numbers: Vec::new(alloc),
            newest: None,
            room: vec![in alloc; 0u8; ROOM]?,
        })
    }

    /// Lines of the journal from the one of this number on, or from the first behind it that is there; none where it ends before.
    pub(crate) fn lines_from<R: Files<File = File>>(
        &mut self,
        rt: &R,
        number: u64,
    ) -> Result<Found<'_>, Refusal> {
        let mut part = self.read_again(rt, number)?;
        if self.begins_behind(part, number) {
            // The piece with that line may have been brought back since it was looked which there are.
            self.newest = None;
            part = self.read_again(rt, number)?;
        }
        Ok(Found {
            lines: Lines {
                version: part.version,
                text: from_line(self.come(part), number),
            },
            is_end: part.is_end,
        })
    }

    /// What was read of a piece.
    fn come(&self, part: Part) -> &[u8] {
        &self.room.as_slice()[..part.count.min(self.room.len())]
    }

    /// Whether the first line that was read from there on has another number than this one.
    fn begins_behind(&self, part: Part, number: u64) -> bool {
        match number_in_front(from_line(self.come(part), number)) {
            Some(first) => first != number,
            None => false,
        }
    }

    /// Reads lines into the room; once more where a piece was taken away meanwhile.
    fn read_again<R: Files<File = File>>(&mut self, rt: &R, number: u64) -> Result<Part, Refusal> {
        match self.read_at(rt, number) {
            Err(ReadFault::NotNow) => self.newest = None,
            Err(ReadFault::Failed(_)) => return Err(Refusal::Journal),
            Ok(part) => return Ok(part),
        }
        match self.read_at(rt, number) {
            Err(ReadFault::NotNow) => Err(Refusal::NotNow),
            Err(ReadFault::Failed(_)) => Err(Refusal::Journal),
            Ok(part) => Ok(part),
        }
    }

    /// Reads lines into the room, with the one of this number among them, where it is there, or the first behind it.
    fn read_at<R: Files<File = File>>(&mut self, rt: &R, number: u64) -> Result<Part, ReadFault> {
        self.look(rt)?;
        let mut place = self.place_of(rt, number)?;
        // Where pieces are missing the line may have been in one behind this.
        for _piece in 0..2 {
            let piece = self.piece(rt, place)?;
            let offset = offset_of(&piece, number)?;
            let count = self.fill(&piece, offset)?;
            let is_newest = place >= self.numbers.len();
            let is_whole = offset.saturating_add(count as u64) >= piece.length;
            let text = &self.room.as_slice()[..count.min(self.room.len())];
            if is_newest || !is_whole || !from_line(text, number).is_empty() {
                return Ok(Part {
                    version: piece.version,
                    count,
                    is_end: is_newest && is_whole,
                });
            }
            place = place.saturating_add(1);
        }
        Err(ReadFault::NotNow)
    }

    /// Looks which pieces there are, where the newest is another file than before.
    fn look<R: Files<File = File>>(&mut self, rt: &R) -> Result<(), ReadFault> {
        let file = fs::metadata(rt, self.path.as_str())?;
        let newest = Some((file.dev(), file.ino(), file.created().ok()));
        if self.newest != newest {
            self.numbers = numbers_of(rt, self.alloc, self.path.as_str())?;
            self.newest = newest;
        }
        Ok(())
    }

    /// The place of the piece in which the line of this number stands, or would: the last one that begins with no greater number.
    fn place_of<R: Files<File = File>>(&self, rt: &R, number: u64) -> Result<usize, ReadFault> {
        let newest = self.numbers.len();
        if self.begins_before(rt, newest, number)? {
            return Ok(newest);
        }
        let mut low = 0;
        let mut high = newest;
        for _half in 0..HALVES {
            if low >= high {
                break;
            }
            let middle = low + (high - low) / 2;
            if self.begins_before(rt, middle, number)? {
                low = middle + 1;
            } else {
                high = middle;
            }
        }
        Ok(low.saturating_sub(1))
    }

    /// Whether a piece has a line, and its first one has this number or one before it.
    fn begins_before<R: Files<File = File>>(
        &self,
        rt: &R,
        place: usize,
        number: u64,
    ) -> Result<bool, ReadFault> {
        let piece = self.piece(rt, place)?;
        let mut front = [0u8; 32];
        let count = read_some(&piece, piece.beginning(), front.as_mut_slice())?;
        match number_in_front(&front[..count.min(front.len())]) {
            Some(first) => Ok(first <= number),
            None => Ok(false),
        }
    }

    /// Opens the piece at this place, behind which is the newest.
    fn piece<R: Files<File = File>>(&self, rt: &R, place: usize) -> Result<Piece, ReadFault> {
        let file = match self.numbers.get(place) {
            Some(number) => {
                let name = format!(in self.alloc; "{}.{number:06}", self.path)?;
                fs::open(rt, name.as_str())?
            }
            None => fs::open(rt, self.path.as_str())?,
        };
        let length = file.metadata()?.len();
        let mut piece = Piece {
            file,
            length,
            version: Version::One,
        };
        let mut front = [0u8; 6];
        let count = read_some(&piece, 0, front.as_mut_slice())?;
        if &front[..count.min(front.len())] == Version::Two.heading() {
            piece.version = Version::Two;
        }
        Ok(piece)
    }

    /// Reads of a piece from here on into the room. Answers how many bytes there are.
    fn fill(&mut self, piece: &Piece, offset: u64) -> Result<usize, ReadFault> {
        Ok(read_some(piece, offset, self.room.as_mut_slice())?)
    }
}

/// Where a line of a piece begins, so near in front of the line of this number, or at the first line.
fn offset_of(piece: &Piece, number: u64) -> Result<u64, ReadFault> {
    let mut low = piece.beginning();
    let mut high = piece.length;
    for _half in 0..HALVES {
        if high.saturating_sub(low) <= NEAR {
            break;
        }
        let middle = low + (high - low) / 2;
        match line_behind(piece, middle)? {
            Some((offset, other)) if other <= number && offset < high => low = offset,
            _ => high = middle,
        }
    }
    Ok(low)
}

/// The first line that begins behind this place: where it begins, and its number.
fn line_behind(piece: &Piece, place: u64) -> Result<Option<(u64, u64)>, ReadFault> {
    let mut block = [0u8; NEAR as usize];
    let count = read_some(piece, place, block.as_mut_slice())?;
    let bytes = &block[..count.min(block.len())];
    let Some((before, behind)) = cut(bytes, b'\n') else {
        return Ok(None);
    };
    let Some(number) = number_in_front(behind) else {
        return Ok(None);
    };
    let offset = place.saturating_add(before.len() as u64).saturating_add(1);
    Ok(Some((offset, number)))
}

/// Reads of a piece from here on, as much as there is and is wanted. Answers how many bytes.
fn read_some(piece: &Piece, offset: u64, room: &mut [u8]) -> io::Result<usize> {
    let left = piece.length.saturating_sub(offset);
    let count = left.min(room.len() as u64) as usize;
    piece.file.read_exact_at(&mut room[..count], offset)?;
    Ok(count)
}

/// The number in front of a line.
fn number_in_front(line: &[u8]) -> Option<u64> {
    let (number, _) = cut(line, b' ')?;
    read_decimal(number)
}

/// These lines from the first on that has no smaller number than this one.
fn from_line(lines: &[u8], number: u64) -> &[u8] {
    let mut rest = lines;
    'lines: for _line in 0..lines.len() {
        let Some((line, behind)) = cut(rest, b'\n') else {
            break;
        };
        match number_in_front(line) {
            Some(other) if other < number => rest = behind,
            _ => return rest,
        }
    }
    &[]
}

/// The numbers of the pieces of the journal of this path, rising.
fn numbers_of<R: Files<File = File>>(
    rt: &R,
    alloc: Global,
    path: &str,
) -> Result<Vec<u64>, ReadFault> {
    let (directory, name) = path.rsplit_once('/').unwrap_or((".", path));
    // The slash has the system follow a link to a directory.
    let directory = format!(in alloc; "{directory}/")?;
    let mut directory = rt.open_dir(directory.as_str())?;
    let mut numbers = Vec::new(alloc);
    let mut names = [0u8; NAMES];
    'names: for _ in 0..u64::MAX {
        let count = directory.read(&mut names)?;
        if count == 0 {
            break;
        }
        push_numbers(&mut numbers, name.as_bytes(), &names[..count.min(NAMES)])?;
    }
    numbers.sort()?;
    Ok(numbers)
}

/// Appends the numbers of those of these names, each with a zero behind it, that are pieces of this file.
fn push_numbers(numbers: &mut Vec<u64>, file: &[u8], names: &[u8]) -> Result<(), AllocError> {
    let mut rest = names;
    'names: for _name in 0..names.len() {
        let Some((name, behind)) = cut(rest, 0) else {
            break;
        };
        if let Some(number) = piece_number(file, name) {
            numbers.push(number)?;
        }
        rest = behind;
    }
    Ok(())
}
