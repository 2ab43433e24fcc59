//! Opens a journal at its end.
ghost use Rattle.std.specs.Prelude.{◌≡◌, ◌<◌, ◌≤◌, [], length, true, IfOk};
ghost use Rattle.amo_disk.specs.Standing.{is_on_disk};

use crate::beginning::{agree, begins_heading, begins_journal};
use crate::hold::{Held, hold};
use crate::tail::LONGEST_LINE;
use crate::{Cause, Directory, Disk, Ending, Folder, Gathered, OpenFault, Roll, Start};
use amo_journal::Version;
use amo_object::End;
use std::alloc::{AllocError, Global};
use std::cell::Cell;
use std::fs::File;
use std::io::Write;
use std::os::unix::fs::FileExt;
use std::rt::{Clock, Files};
use std::sync::ledger::{Blank, Ledger};
use std::{fs, io};

/// How many bytes are read at the end of a journal. The lines by which a host of 256 streams came back, a torn one behind them, and what is left of
/// one in front have 38 KB at most.
const BLOCK: usize = 65536;

/// How many bytes are read at its beginning: more than the heading and a line have.
const FRONT: usize = 16384;

/// What a host wants of a journal.
#[derive(Clone, Copy)]
pub struct Wanted {
    /// The side of which it is.
    pub side: End,
    /// The version of a new one.
    pub version: Version,
    /// Whether starts of batches are to have lines.
    pub batch: bool,
    /// Whether each turn's lines are to be on the disk.
    pub sync: bool,
    /// How many bytes a piece is to have before another one is begun.
    pub piece: u64,
}

/// A journal that was opened.
#[derive(Drop)]
pub struct Opened<'a, 'r, R: Clock + Files<File = File>, L: Ledger> {
    /// Its pieces. What they are handed is gathered in front of them.
    pub disk: Gathered<Disk<'a, Roll<Directory<'r, R>>, L>>,
    /// Where it goes on.
    pub start: Start,
    /// How many zeros stood at its end, as a loss of power leaves them. They were cut off.
    pub zeros: u64,
}

/// Opens the journal of this name, or begins one: nobody else has it, and it is cut behind its last whole line. It and the entry of its directory are on
/// the disk then, so that what is told of its lines elsewhere outlives no line. It is refused, and left as it is, where it is none for this host.
///
/// The blank becomes the ledger in which contracts count failures. It takes no bytes.
pub fn open<'a, 'r, R: Clock + Files<File = File>, L: Ledger>(
    rt: &'r R,
    alloc: Global,
    path: &str,
    wanted: &Wanted,
    cause: &'a Cell<Option<Cause>>,
    blank: Blank,
) -> Result<Opened<'a, 'r, R, L>, OpenFault>
    requires name { blank.name ≡ L.name }
    requires parts { blank.parts ≡ L.parts }
    requires some { 0 < L.parts }
    requires piece { 6 < wanted.now.piece }
    ensures calm { IfOk result (λ opened. (opened.disk.sink.failures ≡ 0) × (opened.disk.waiting ≡ [])) }
    ensures roll { IfOk result (λ opened. (opened.disk.sink.writer.limit ≡ wanted.now.piece) × (opened.disk.sink.writer.sync ≡ wanted.now.sync)) }
    ensures on_disk { IfOk result (λ opened. is_on_disk (⟦<Directory<'r, R> as Folder>⟧.standing opened.disk.sink.writer.folder) ≡ true) }
{
    let name = String::from_str(alloc, path)?;
    let held = hold(rt, alloc, path)?;
    let found = match find(alloc, &held, wanted) {
        Ok(found) => found,
        Err(fault) => {
            if held.is_new {
                let _ = fs::remove_file(rt, path);
            }
            return Err(fault);
        }
    };
    let version = found.start.version.unwrap_or(wanted.version);
    let length = make_whole(&held, &found, version)?;
    let Found { start, zeros, .. } = found;
    let Held {
        newest,
        highest,
        ..
    } = held;
    let mut directory = Directory::new(rt, alloc, name, highest, newest, length, wanted.sync)?;
    directory.settle()?;
    let roll = Roll::new(directory, version, wanted.piece, wanted.sync, length);
    Ok(Opened {
        disk: Gathered::new(alloc, Disk::new(roll, cause, blank)),
        start,
        zeros,
    })
}

/// What the files of a journal tell.
#[derive(Clone, Copy)]
struct Found {
    start: Start,
    zeros: u64,
    /// How many bytes of the piece before the newest are whole, where lines go on behind it and there are more.
    cut: Option<u64>,
}

/// Finds where a journal goes on. Nothing is changed.
fn find(alloc: Global, held: &Held, wanted: &Wanted) -> Result<Found, OpenFault> {
    let mut before = None;
    let mut cut = None;
    if let Some(piece) = &held.before {
        let length = piece.metadata()?.len();
        let front = length_without_zeros(piece, length)?;
        let end = end_of(alloc, piece, front, wanted.side).map_err(of_piece_before)?;
        before = Some(end);
        cut = Some(end.whole).filter(|&whole| whole < length);
    }
    let (newest, zeros) = end_of_newest(alloc, &held.newest, wanted.side, before)?;
    let start = Start::behind(before, newest)?;
    if cut.is_some() && newest.first.is_some() {
        return Err(OpenFault::Apart);
    }
    start.admit(wanted.batch)?;
    Ok(Found { start, zeros, cut })
}

/// The fault of the piece before the newest: a line that it names is none of the newest.
fn of_piece_before(fault: OpenFault) -> OpenFault {
    match fault {
        OpenFault::NoMemory | OpenFault::Device(_) => fault,
        _ => OpenFault::BadPiece,
    }
}

/// Cuts off what is no whole line, and writes the heading where it is lacking. Answers how many bytes the newest piece has then.
fn make_whole(held: &Held, found: &Found, version: Version) -> io::Result<u64> {
    if let (Some(piece), Some(whole)) = (&held.before, found.cut) {
        piece.set_len(whole)?;
        piece.sync_data()?;
    }
    let mut newest = &held.newest;
    newest.set_len(found.start.whole)?;
    if !found.start.lacks_heading {
        return Ok(found.start.whole);
    }
    newest.write_all(version.heading())?;
    Ok(version.heading().len() as u64)
}

/// What the end of the newest piece tells, and how many zeros are behind it.
fn end_of_newest(
    alloc: Global,
    file: &File,
    side: End,
    before: Option<Ending>,
) -> Result<(Ending, u64), OpenFault> {
    let length = file.metadata()?.len();
    let front = length_without_zeros(file, length)?;
    if front == 0 && length > 0 && before.is_none() {
        return Err(OpenFault::Foreign);
    }
    let end = end_of(alloc, file, front, side)?;
    if end.version.is_none() {
        check_beginning(alloc, file, front, side, before)?;
    }
    Ok((end, length.saturating_sub(front)))
}

/// What the end of a file tells of which so many bytes count.
fn end_of(alloc: Global, file: &File, size: u64, side: End) -> Result<Ending, OpenFault> {
    let mut block = [0u8; BLOCK];
    if size <= BLOCK as u64 {
        let bytes = &mut block[..size as usize];
        file.read_exact_at(bytes, 0)?;
        return Ending::of_file(alloc, side, bytes);
    }
    let mut front = [0u8; FRONT];
    file.read_exact_at(&mut front, 0)?;
    file.read_exact_at(&mut block, size - BLOCK as u64)?;
    Ending::of_long_file(alloc, side, &front, &block, size)
}

/// Refuses a file without a whole line in which no journal of this side begins, or goes on behind a piece that ends so: it is somebody else's.
fn check_beginning(
    alloc: Global,
    file: &File,
    size: u64,
    side: End,
    before: Option<Ending>,
) -> Result<(), OpenFault> {
    if size > LONGEST_LINE as u64 {
        return Err(OpenFault::Malformed(1));
    }
    let mut block = [0u8; FRONT];
    let bytes = &mut block[..size as usize];
    file.read_exact_at(bytes, 0)?;
    if may_begin(alloc, side, before, bytes)? {
        Ok(())
    } else {
        Err(OpenFault::Foreign)
    }
}

/// Whether the first line may begin so.
fn may_begin(
    alloc: Global,
    side: End,
    before: Option<Ending>,
    bytes: &[u8],
) -> Result<bool, AllocError> {
    match before {
        None => Ok(begins_journal(side, bytes)),
        Some(piece) if piece.version == Some(Version::Two) => Ok(begins_heading(bytes)),
        Some(piece) => {
            let front = format!(in alloc; "{} ", piece.next)?;
            Ok(agree(bytes, front.as_bytes()))
        }
    }
}

/// How many bytes of a file of this length stand in front of the zeros at its end.
fn length_without_zeros(file: &File, length: u64) -> io::Result<u64> {
    let mut piece = [0u8; BLOCK];
    let mut end = length;
    'pieces: for _piece in 0..u64::MAX {
        let count = end.min(BLOCK as u64);
        let part = &mut piece[..count as usize];
        file.read_exact_at(part, end - count)?;
        let zeros = zeros_behind(part) as u64;
        end = end.saturating_sub(zeros);
        if zeros < count || end == 0 {
            break;
        }
    }
    Ok(end)
}

/// How many zeros stand at the end of these bytes.
fn zeros_behind(bytes: &[u8]) -> usize
    ensures { result ≤ length bytes.now }
{
    let mut rest = bytes;
    'zeros: while let [front @ .., 0] = rest {
        rest = front;
    }
    bytes.len() - rest.len()
}
