//! The file beside a sender's journal that keeps of how many of its lines each put is told, but for some that it lists, and on which streams one was told
//! to be unknown.
ghost use Rattle.std.specs.Prelude.{◌≡◌, ◌∷◌, ◌++◌, codes, IfOk, IfSome, OnOk};
ghost use Rattle.std.specs.List.{flat_map};
ghost use Rattle.amo_offline.specs.ToldFile.{fields_in, opening_line, stream_field};

use crate::fault::OfflineFault;
use amo_disk::{Cause, put_in_place, write_beside};
use amo_text::{cut, push_decimal, push_hex, read_decimal, read_stream};
use amo_world::STREAMS;
use sha2::{Digest, Sha256};
use std::alloc::{AllocError, Global};
use std::fs::{self, File};
use std::io::{self, ErrorKind, Read};
use std::rt::Files;
use thiserror::Error;

/// What it begins with, in front of the numbers.
const FRONT: &[u8] = b"amo told ";

/// More bytes than it has: a line, and of each stream the lines of its messages that have no answer.
const MOST: u64 = 16_777_216;

/// How many bytes its last line has: two digests in HEX behind a word.
const SEAL: usize = 134;

/// How many of them stand in front of the second digest.
const WITNESS: usize = 69;

/// What that line begins with.
const SUM: &[u8] = b"sum ";

/// The file of this path, and what it says.
#[derive(Drop)]
pub(crate) struct ToldFile {
    path: String,
    said: Said,
    /// The streams on which it is not settled what became of a message that was told to be unknown.
    in_doubt: Vec<u32>,
    /// A journal of those of the first lines that matter for puts on them which are not told. It has no line where all are.
    list: Vec<u8>,
    /// The digest of the last of these lines, and what stands behind it.
    witness: Vec<u8>,
    /// It is whole, and the journal has not the lines of which it tells.
    lacks_lines: bool,
}

/// What the file says.
#[derive(Clone, Copy)]
enum Said {
    /// There is none.
    Nothing,
    /// Each put on the first so many lines is told, but for those in the list.
    Lines(u64),
    /// It says something else.
    Strange,
    /// It cannot be read, for this cause.
    Unread(Cause),
}

impl ToldFile {
    /// Reads the one beside the journal of this path.
    pub(crate) fn read<R: AllocGlobal + Files<File = File>>(
        rt: &R,
        journal: &str,
    ) -> Result<ToldFile, OfflineFault> {
        let mut told = ToldFile::new(rt.alloc(), journal)?;
        let mut bytes = Vec::new(rt.alloc());
        match read_front(rt, told.path.as_str(), &mut bytes) {
            Ok(()) => told.take(rt.alloc(), bytes.as_slice())?,
            Err(error) => match error.kind() {
                ErrorKind::NotFound => {}
                ErrorKind::OutOfMemory => return Err(OfflineFault::NoMemory),
                _ => told.said = Said::Unread(Cause::from(error)),
            },
        }
        Ok(told)
    }

    /// The one beside the journal of this path, of which nothing was read.
    fn new(alloc: Global, journal: &str) -> Result<ToldFile, AllocError> {
        Ok(ToldFile {
            path: path_of(alloc, journal)?,
            said: Said::Nothing,
            in_doubt: Vec::new(alloc),
            list: Vec::new(alloc),
            witness: Vec::new(alloc),
            lacks_lines: false,
        })
    }

    /// Takes what it says, since it has these bytes.
    fn take(&mut self, alloc: Global, bytes: &[u8]) -> Result<(), AllocError> {
        self.said = Said::Strange;
        let (front, seal) = sealed(bytes);
        if !is_seal_of(alloc, front, seal)? {
            return Ok(());
        }
        if let Some((lines, streams, listed)) = read_told(alloc, front)? {
            self.in_doubt = streams;
            self.list.extend_from_slice(listed)?;
            self.witness
                .extend_from_slice(&seal[WITNESS.min(seal.len())..])?;
            self.said = Said::Lines(lines);
        }
        Ok(())
    }

    /// The number of the first line of which puts are not told, of a journal of so many lines. Where that is not known it is the journal's first
    /// one, and it is told why.
    pub(crate) fn first_untold<E: Eprint>(&mut self, errors: &E, lines: u64) -> u64 {
        let path = self.path.as_str();
        let told = match self.said {
            Said::Nothing => return 0,
            Said::Lines(said) if said <= lines => return said,
            Said::Lines(said) => {
                self.lacks_lines = true;
                Told::Further(path, said, lines)
            }
            Said::Strange => Told::Strange(path),
            Said::Unread(cause) => Told::Unread(path, cause),
        };
        let _ = errors.eprintln(told);
        if !self.lacks_lines {
            self.in_doubt.clear();
        }
        self.list.clear();
        0
    }

    /// Whether the journal has lost lines: it has not those of which the file tells. What else it lost nobody knows.
    pub(crate) fn lacks_lines(&self) -> bool {
        self.lacks_lines
    }

    /// The last of the lines of which it tells is another one in the journal. Answers the number of the journal's first line, and it is told why.
    pub(crate) fn miss_lines<E: Eprint>(&mut self, errors: &E, lines: u64) -> u64 {
        self.lacks_lines = true;
        self.distrust(errors, lines)
    }

    /// Those of the lines in front of that one which matter for puts on them that are not told, as a journal.
    pub(crate) fn list(&self) -> &[u8] {
        self.list.as_slice()
    }

    /// How many lines it says are told, if it does.
    pub(crate) fn lines(&self) -> Option<u64> {
        match self.said {
            Said::Lines(lines) => Some(lines),
            Said::Nothing | Said::Strange | Said::Unread(_) => None,
        }
    }

    /// Whether it is of a journal of which this is the last of these lines.
    pub(crate) fn is_behind(&self, alloc: Global, line: &[u8]) -> Result<bool, AllocError> {
        let mut digest = Vec::new(alloc);
        push_digest(&mut digest, line)?;
        digest.extend_from_slice(b"\n")?;
        Ok(digest.as_slice() == self.witness.as_slice())
    }

    /// Its list is none, or it is of another journal. Answers the number of the journal's first line, and it is told why.
    pub(crate) fn distrust<E: Eprint>(&mut self, errors: &E, lines: u64) -> u64 {
        self.said = Said::Strange;
        self.first_untold(errors, lines)
    }

    /// The streams on which it is not settled what became of a message that was told to be unknown.
    pub(crate) fn in_doubt(&self) -> &[u32] {
        self.in_doubt.as_slice()
    }

    /// From now on, these are.
    pub(crate) fn doubt(&mut self, streams: Vec<u32>) {
        self.in_doubt = streams;
    }

    /// These streams.
    pub(crate) fn into_in_doubt(self) -> Vec<u32> {
        self.in_doubt
    }

    /// Makes the file that says that each put on the first so many lines of this journal, of which this is the last, is told, where this one does not say
    /// so: it gets its place once that is so. A file of a journal without lines is not begun.
    pub(crate) fn next<R: AllocGlobal + Files<File = File>>(
        &self,
        rt: &R,
        journal: &str,
        lines: u64,
        last: &[u8],
    ) -> Result<Option<NextTold>, OfflineFault> {
        match self.said {
            Said::Nothing if lines == 0 => return Ok(None),
            Said::Lines(said) if said == lines && self.list.is_empty() => return Ok(None),
            _ => {}
        }
        let mut text = Vec::new(rt.alloc());
        push_told(&mut text, lines, self.in_doubt())?;
        Ok(Some(NextTold::make(rt, journal, text, last)?))
    }
}

/// The path of the file beside the journal of this path.
fn path_of(alloc: Global, journal: &str) -> Result<String, AllocError> {
    format!(in alloc; "{journal}.told")
}

/// Makes the file beside this journal anew, of this text and its seal: it tells of lines of which this is the last.
pub fn write_told<R: AllocGlobal + Files<File = File>>(
    rt: &R,
    journal: &str,
    text: Vec<u8>,
    last: &[u8],
) -> Result<(), OfflineFault> {
    NextTold::make(rt, journal, text, last)?.put_in_place(rt)
}

/// The next file of a path, which is made beside it, so that it is there whole, as it was or as it is to be.
#[derive(Drop)]
pub(crate) struct NextTold {
    path: String,
    beside: String,
}

impl NextTold {
    /// Makes the next file beside this journal, of this text and its seal: it tells of lines of which this is the last. The journal's lines are put on the
    /// disk before, so that a loss of power takes none that it counts.
    fn make<R: AllocGlobal + Files<File = File>>(
        rt: &R,
        journal: &str,
        text: Vec<u8>,
        last: &[u8],
    ) -> Result<NextTold, OfflineFault> {
        let mut text = text;
        push_seal(&mut text, last)?;
        if let Err(error) = sync_journal(rt, journal) {
            return Err(OfflineFault::of_disk(rt.alloc(), journal, Cause::from(error)));
        }
        let path = path_of(rt.alloc(), journal)?;
        if is_directory(rt, path.as_str()) {
            let error = io::Error::from(ErrorKind::IsADirectory);
            return Err(OfflineFault::of_disk(rt.alloc(), path.as_str(), Cause::from(error)));
        }
        let beside = format!(in rt.alloc(); "{path}.new")?;
        if let Err(error) = write_beside(rt, beside.as_str(), text.as_slice()) {
            let _ = fs::remove_file(rt, beside.as_str());
            return Err(OfflineFault::of_disk(rt.alloc(), beside.as_str(), Cause::from(error)));
        }
        Ok(NextTold { path, beside })
    }

    /// Puts it in the place of the one before. It is on the disk then, with its name: were an older one back behind a loss of power, what was told would be
    /// told again.
    pub(crate) fn put_in_place<R: AllocGlobal + Files<File = File>>(
        self,
        rt: &R,
    ) -> Result<(), OfflineFault> {
        match put_in_place(rt, self.beside.as_str(), self.path.as_str()) {
            Ok(()) => Ok(()),
            Err(error) => {
                Err(OfflineFault::of_disk(rt.alloc(), self.path.as_str(), Cause::from(error)))
            }
        }
    }
}

/// Whether a directory has this path, in the place of which no file can be put.
fn is_directory<R: Files>(rt: &R, path: &str) -> bool {
    match fs::symlink_metadata(rt, path) {
        Ok(found) => found.is_dir(),
        Err(_) => false,
    }
}

/// Puts the journal's newest piece on its disk.
fn sync_journal<R: Files<File = File>>(rt: &R, journal: &str) -> io::Result<()> {
    fs::open(rt, journal)?.sync_all()
}

/// Appends the last line: `sum`, the digest of all that stands in front of it, and that of this line of a journal.
fn push_seal(text: &mut Vec<u8>, line: &[u8]) -> Result<(), AllocError> {
    let digest: [u8; 32] = Sha256::digest(text.as_slice());
    text.extend_from_slice(SUM)?;
    push_hex(text, &digest)?;
    text.extend_from_slice(b" ")?;
    push_digest(text, line)?;
    text.extend_from_slice(b"\n")
}

/// Appends the SHA-256 digest of these bytes in HEX.
fn push_digest(text: &mut Vec<u8>, bytes: &[u8]) -> Result<(), AllocError> {
    let digest: [u8; 32] = Sha256::digest(bytes);
    push_hex(text, &digest)
}

/// These bytes in front of a seal, and the seal.
fn sealed(bytes: &[u8]) -> (&[u8], &[u8]) {
    bytes.split_at(bytes.len().saturating_sub(SEAL))
}

/// Whether a seal begins as that of this text does.
fn is_seal_of(alloc: Global, front: &[u8], seal: &[u8]) -> Result<bool, AllocError> {
    let mut begun = Vec::new(alloc);
    begun.extend_from_slice(SUM)?;
    push_digest(&mut begun, front)?;
    Ok(seal.len() == SEAL && seal.starts_with(begun.as_slice()))
}

/// Appends what the file says in front of its list: `amo told LINES`, each stream behind a space, and a line feed.
pub fn push_told(text: &mut Vec<u8>, lines: u64, in_doubt: &[u32]) -> Result<(), AllocError>
    ensures { OnOk result (text.new.items ≡ text.old.items ++ opening_line lines in_doubt.now) }
{
    text.extend_from_slice(FRONT)?;
    push_decimal(text, lines)?;
    push_streams(text, in_doubt)?;
    text.extend_from_slice(b"\n")
}

/// Appends each of these streams behind a space.
fn push_streams(text: &mut Vec<u8>, streams: &[u32]) -> Result<(), AllocError>
    ensures { OnOk result (text.new.items ≡ text.old.items ++ flat_map stream_field streams.now) }
{
    'streams: for stream in streams {
        text.extend_from_slice(b" ")?;
        push_decimal(text, u64::from(*stream))?;
    }
    Ok(())
}

/// How many lines these bytes say, and which streams, in their order; and what stands behind that line. None where they begin with no such line.
fn read_told(alloc: Global, bytes: &[u8]) -> Result<Option<(u64, Vec<u32>, &[u8])>, AllocError>
    ensures { IfOk result (λ found. IfSome found (λ told. bytes.now ≡ opening_line told.0 told.1.items ++ told.2.now)) }
{
    let Some((numbers, list)) = numbers_in(bytes) else {
        return Ok(None);
    };
    let (number, streams) = first_field(numbers);
    let Some(lines) = read_decimal(number) else {
        return Ok(None);
    };
    match read_streams(alloc, streams)? {
        Some(streams) => Ok(Some((lines, streams, list))),
        None => Ok(None),
    }
}

/// The streams that a text names, rising, with a space between two; none where it is no such text.
fn read_streams(alloc: Global, text: Option<&[u8]>) -> Result<Option<Vec<u32>>, AllocError>
    ensures { IfOk result (λ found. IfSome found (λ streams. fields_in text.entry ≡ flat_map stream_field streams.items)) }
{
    let mut streams = Vec::new(alloc);
    let mut rest = text;
    let mut last = 0;
    'fields: for _field in 0..STREAMS {
        let Some(fields) = rest else {
            break;
        };
        let (field, behind) = first_field(fields);
        match read_stream(field) {
            Some(stream) if last < stream => last = stream,
            _ => return Ok(None),
        }
        streams.push(last)?;
        rest = behind;
    }
    Ok(rest.is_none().then_some(streams))
}

/// What stands behind the front of the first line of these bytes, if it begins so, and behind the line.
fn numbers_in(bytes: &[u8]) -> Option<(&[u8], &[u8])>
    ensures { IfSome result (λ parts. bytes.now ≡ (codes "amo told " ++ parts.0.now) ++ 10 ∷ parts.1.now) }
{
    let (line, behind) = cut(bytes, b'\n')?;
    Some((line.strip_prefix(FRONT)?, behind))
}

/// What stands in front of the first space, and what behind it, if there is one.
fn first_field(text: &[u8]) -> (&[u8], Option<&[u8]>)
    ensures { text.now ≡ result.0.now ++ fields_in result.1 }
{
    match cut(text, b' ') {
        Some((field, behind)) => (field, Some(behind)),
        None => (text, None),
    }
}

/// Reads the file of this path, or more of it than it is to have. Of what is no file, as a pipe, nothing is read.
fn read_front<R: Files<File = File>>(rt: &R, path: &str, bytes: &mut Vec<u8>) -> io::Result<()> {
    if !fs::metadata(rt, path)?.is_file() {
        return Ok(());
    }
    let file = fs::open(rt, path)?;
    file.take(MOST).read_to_end(bytes)?;
    Ok(())
}

/// What is told of such a file, on a line of its own.
#[derive(Debug, Drop, Error)]
enum Told<'a> {
    #[error("amo: {0}: it tells of {1} lines, and the journal has {2}: what became of earlier messages is told again")]
    Further(&'a str, u64, u64),
    #[error("amo: {0}: it is not as it was written: what became of earlier messages is told again")]
    Strange(&'a str),
    #[error("amo: {0}: {1}: what became of earlier messages is told again")]
    Unread(&'a str, Cause),
}
