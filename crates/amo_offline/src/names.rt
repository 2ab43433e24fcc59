//! Finds the files of the journal that a name stands for: one file, or those of its pieces.
use crate::fault::OfflineFault;
use crate::identity::{Identity, identity_of, open_file};
use amo_pieces::piece_number;
use amo_text::cut;
use libc::{EAGAIN, ENAMETOOLONG};
use std::alloc::{AllocError, Global};
use std::fs::{self, File};
use std::io::{self, ErrorKind, Read};
use std::rt::Files;
use thiserror::Error;

/// How many bytes of names a directory is asked for at once. A name has 255 at most.
const NAMES: usize = 4096;

/// How often it is looked for files where a host at work begins new ones meanwhile.
const LOOKS: usize = 100;

/// The files of a journal, as they were at one moment.
#[derive(Drop)]
pub(crate) struct Names {
    /// Its name, or that of the last piece that it lists.
    name: String,
    /// The names of its pieces, in their order.
    pieces: Vec<String>,
    /// The name of the first piece that is missing between the others.
    missing: Option<String>,
    /// The last piece, where it was opened as it was found.
    newest: Option<File>,
}

impl Names {
    /// Finds the files of the journal of this name: where commas stand in it, and neither a file nor a numbered piece has it, the pieces that it
    /// lists; else the numbered pieces of this name, and the file of the name itself.
    pub(crate) fn find<R: AllocGlobal + Files<File = File>>(
        rt: &R,
        name: &str,
    ) -> Result<Names, OfflineFault> {
        'looks: for _look in 0..LOOKS {
            if let Some(names) = Names::look(rt, name)? {
                return Ok(names);
            }
        }
        let busy = io::Error::from_raw_os_error(EAGAIN);
        Err(OfflineFault::of_file(rt.alloc(), name, busy))
    }

    /// Looks which files there are. It answers none where a host begins a new one meanwhile, so that those that were seen are not those of one moment.
    fn look<R: AllocGlobal + Files<File = File>>(
        rt: &R,
        name: &str,
    ) -> Result<Option<Names>, OfflineFault> {
        let newest = newest_of(rt, name)?;
        let numbers = numbers_of(rt, name)?;
        let numbers = numbers.as_slice();
        if let Some((file, identity)) = newest {
            return Names::up_to(rt, name, numbers, file, identity);
        }
        if is_file(rt, name) {
            return Ok(None);
        }
        let is_there = is_there(rt, name);
        if name.contains(',') && numbers.is_empty() && !is_there {
            return Ok(Some(Names::listed(rt.alloc(), name)?));
        }
        // A host that is ended while it begins a piece may leave the others alone.
        let has_own = is_there || numbers.is_empty();
        Ok(Some(Names::numbered(rt.alloc(), name, numbers, has_own, None)?))
    }

    /// The pieces up to this file, which had the name itself when it was opened: those of all numbers, where it has that still, else those up to its own number.
    /// It answers none where that was given to it behind the look at the others.
    fn up_to<R: AllocGlobal + Files<File = File>>(
        rt: &R,
        name: &str,
        numbers: &[u64],
        file: File,
        identity: Identity,
    ) -> Result<Option<Names>, OfflineFault> {
        let newest = Some(file);
        if identity_of(rt, name)? == Some(identity) {
            return Ok(Some(Names::numbered(rt.alloc(), name, numbers, true, newest)?));
        }
        for place in (0..numbers.len()).rev() {
            let piece = piece_name(rt.alloc(), name, numbers[place])?;
            if identity_of(rt, piece.as_str())? == Some(identity) {
                let numbers = &numbers[..=place];
                return Ok(Some(Names::numbered(rt.alloc(), name, numbers, false, newest)?));
            }
        }
        Ok(None)
    }

    /// The pieces of a list, with commas between them. A comma at its end ends the last name.
    fn listed(alloc: Global, list: &str) -> Result<Names, AllocError> {
        let mut names = Names {
            name: String::from_str(alloc, last_of(list))?,
            pieces: Vec::new(alloc),
            missing: None,
            newest: None,
        };
        for name in without_end(list).split(',') {
            names.pieces.push(String::from_str(alloc, name)?)?;
        }
        Ok(names)
    }

    /// The pieces of this name that have these numbers, and behind them the file of the name itself, if it counts. The last of all may be open.
    fn numbered(
        alloc: Global,
        name: &str,
        numbers: &[u64],
        has_own: bool,
        newest: Option<File>,
    ) -> Result<Names, AllocError> {
        let mut names = Names {
            name: String::from_str(alloc, name)?,
            pieces: Vec::new(alloc),
            missing: None,
            newest,
        };
        for &number in numbers {
            names.pieces.push(piece_name(alloc, name, number)?)?;
        }
        if let Some(number) = first_missing(numbers) {
            names.missing = Some(piece_name(alloc, name, number)?);
        }
        if has_own {
            names.pieces.push(String::from_str(alloc, name)?)?;
        }
        Ok(names)
    }

    /// The name beside which its file of lives stands: of a list that of the last piece, else its own.
    pub(crate) fn name_of_lives(&self) -> &str {
        self.name.as_str()
    }

    /// The names of its pieces, in their order.
    pub(crate) fn pieces(&self) -> &[String] {
        self.pieces.as_slice()
    }

    /// The last piece, where it was opened as it was found. It may have another name since.
    pub(crate) fn take_newest(&mut self) -> Option<File> {
        self.newest.take()
    }

    /// Whether it is in more files than one.
    pub(crate) fn are_several(&self) -> bool {
        self.pieces.len() > 1
    }

    /// Whether it can be read again where a line is to be found: where it is in several files, none of these is a pipe or a device.
    pub(crate) fn can_be_read_again<R: Files>(&self, rt: &R) -> bool {
        !self.are_several() || self.are_files(rt)
    }

    /// Whether each of them is a file, and no pipe, device or directory.
    pub(crate) fn are_files<R: Files>(&self, rt: &R) -> bool {
        for name in &self.pieces {
            if !is_file(rt, name.as_str()) {
                return false;
            }
        }
        true
    }

    /// Tells on standard error which piece is missing between the others, if one is.
    pub(crate) fn tell_missing<R: Eprint>(&self, rt: &R) {
        if let Some(name) = self.missing.as_ref() {
            let _ = rt.eprintln(Told::Missing(name.as_str()));
        }
    }
}

/// Opens the file of a journal's own name, if there is one, and tells which it is. It opens no pipe and no device, which cannot be read twice.
fn newest_of<R: AllocGlobal + Files<File = File>>(
    rt: &R,
    name: &str,
) -> Result<Option<(File, Identity)>, OfflineFault> {
    if !is_file(rt, name) {
        return Ok(None);
    }
    match open_file(rt, name) {
        Ok(found) => Ok(Some(found)),
        Err(error) if error.kind() == ErrorKind::NotFound => Ok(None),
        Err(error) => Err(OfflineFault::of_file(rt.alloc(), name, error)),
    }
}

/// Opens the file of this name, a piece of a journal, unless it is the last one, and that is open.
pub(crate) fn open_piece<R: AllocGlobal + Files<File = File>>(
    rt: &R,
    name: &str,
    is_last: bool,
    newest: &mut Option<File>,
) -> Result<File, OfflineFault> {
    let kept = if is_last { newest.take() } else { None };
    match kept {
        Some(file) => Ok(file),
        None => match fs::open(rt, name) {
            Ok(file) => Ok(file),
            Err(error) => Err(OfflineFault::of_file(rt.alloc(), name, error)),
        },
    }
}

/// A list of names without the comma at its end.
fn without_end(list: &str) -> &str {
    list.strip_suffix(',').unwrap_or(list)
}

/// The last name of a list.
fn last_of(list: &str) -> &str {
    let list = without_end(list);
    match list.rsplit_once(',') {
        Some((_, last)) => last,
        None => list,
    }
}

/// Whether there is a file of this name, or a link, though it leads nowhere. Where that is not told it is taken to be there, and opening it
/// tells why; but no file has a name that is too long for the system, as that of a long list may be.
fn is_there<R: Files>(rt: &R, name: &str) -> bool {
    match fs::symlink_metadata(rt, name) {
        Ok(_) => true,
        Err(error) => error.kind() != ErrorKind::NotFound
            && error.raw_os_error() != Some(ENAMETOOLONG),
    }
}

/// Whether this is the name of a file, and of no pipe, device or directory.
fn is_file<R: Files>(rt: &R, name: &str) -> bool {
    match fs::metadata(rt, name) {
        Ok(found) => found.is_file(),
        Err(_) => false,
    }
}

/// The name of the file of a numbered piece.
pub(crate) fn piece_name(alloc: Global, name: &str, number: u64) -> Result<String, AllocError> {
    format!(in alloc; "{name}.{number:06}")
}

/// The numbers of the pieces of a journal of this name that stand in its directory, rising. A directory that cannot be looked through has none:
/// where earlier pieces are not read, the numbers of lines show it.
pub(crate) fn numbers_of<R: AllocGlobal + Files>(
    rt: &R,
    name: &str,
) -> Result<Vec<u64>, OfflineFault> {
    let mut numbers = Vec::new(rt.alloc());
    let (directory, file) = name.rsplit_once('/').unwrap_or((".", name));
    if file.is_empty() {
        return Ok(numbers);
    }
    // The slash has the system follow a link to a directory.
    let directory = format!(in rt.alloc(); "{directory}/")?;
    let Ok(mut directory) = rt.open_dir(directory.as_str()) else {
        return Ok(numbers);
    };
    let mut names = [0u8; NAMES];
    'names: for _ in 0..u64::MAX {
        let count = match directory.read(&mut names) {
            Ok(0) | Err(_) => break,
            Ok(count) => count,
        };
        push_numbers(&mut numbers, file.as_bytes(), &names[..count])?;
    }
    numbers.sort()?;
    Ok(numbers)
}

/// Appends the numbers of those of these names, each with a zero behind it, that are pieces of this file.
fn push_numbers(numbers: &mut Vec<u64>, file: &[u8], names: &[u8]) -> Result<(), AllocError> {
    let mut rest = names;
    while let Some((name, behind)) = cut(rest, 0) {
        if let Some(number) = piece_number(file, name) {
            numbers.push(number)?;
        }
        rest = behind;
    }
    Ok(())
}

/// The first number that is missing between these, which rise.
fn first_missing(numbers: &[u64]) -> Option<u64> {
    let mut last = *numbers.first()?;
    for &number in numbers {
        if number > last && number - last > 1 {
            return Some(last + 1);
        }
        last = number;
    }
    None
}

/// What is told of a journal in pieces, on a line of its own.
#[derive(Debug, Drop, Error)]
enum Told<'a> {
    /// The file of this name is missing.
    #[error("amo: {0}: it is missing")]
    Missing(&'a str),
}
