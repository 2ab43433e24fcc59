//! Tells which messages were got by a receiver's journal, of which parts come one behind the other.
ghost use Rattle.std.specs.Prelude.{IfOk};
ghost use Rattle.amo_offline.specs.Statuses.{IsOfReading};

use crate::fault::OfflineFault;
use crate::identity::length_on_disk;
use crate::names::{Names, open_piece};
use crate::pieces::tell_line;
use amo_journal::{Lines, Version, open};
use amo_settings::GotSettings;
use amo_telling::{Gets, Reading, whole_lines};
use std::alloc::{AllocError, Global};
use std::fs::File;
use std::io::{self, ErrorKind, Read, Take, Write};
use std::rt::Files;
use thiserror::Error;

/// The status of a journal that is none, or of the other side.
pub(crate) const NO_JOURNAL: u8 = 2;

/// How many bytes of a journal are read at once. No line has as many.
pub(crate) const ROOM: usize = 64 * 1024;

/// What was read of a receiver's journal, and what is to be shown of it.
#[derive(Drop)]
pub(crate) struct Got {
    alloc: Global,
    gets: Gets,
    /// The number behind which lines are asked for, if one is.
    after: Option<u64>,
    /// How far the lines read.
    reading: Reading,
    /// The journal's version, once its first line has come.
    version: Option<Version>,
    /// How many lines of events stand in the pieces before.
    before: usize,
    /// What is to be shown.
    text: Vec<u8>,
}

impl Got {
    /// Nothing was read.
    pub(crate) fn new(alloc: Global, settings: &GotSettings) -> Got {
        Got {
            alloc,
            gets: Gets::new(settings.after, settings.json),
            after: settings.after,
            reading: Reading::Whole,
            version: None,
            before: 0,
            text: Vec::new(alloc),
        }
    }

    /// How far the lines read.
    pub(crate) fn reading(&self) -> Reading {
        self.reading
    }

    /// That the line behind those that were read is malformed.
    pub(crate) fn malformed(&self) -> Reading {
        Reading::Malformed(self.gets.lines().saturating_add(1))
    }

    /// Whether a piece that begins with these bytes is of another version than those before it.
    pub(crate) fn is_of_another_version(&self, beginning: &[u8]) -> bool {
        match self.version {
            Some(version) => open(beginning).version != version,
            None => false,
        }
    }

    /// How far a piece reads behind which others come, and of which the last line has no end: no host left it so.
    fn cut_short(&self, reading: Reading) -> Reading {
        match reading {
            Reading::Whole | Reading::OfSender => self.malformed(),
            _ => reading,
        }
    }

    /// Tells on standard error where the journal of this name does not come as far as the number behind which lines are asked for. Answers whether it
    /// does not. Behind 0, each journal does.
    pub(crate) fn tell_behind<R: Eprint>(&self, rt: &R, file: &str) -> bool {
        let lines = self.gets.lines();
        match self.after {
            Some(after) if after > 0 && after >= lines as u64 => {
                let _ = rt.eprintln(Told::Behind(file, lines, after));
                true
            }
            _ => false,
        }
    }

    /// Reads whole lines, with which a piece begins that is of the version of those before it, or which go on in it.
    pub(crate) fn read(
        &mut self,
        bytes: &[u8],
        is_beginning: bool,
    ) -> Result<Reading, OfflineFault> {
        let lines = match self.version {
            Some(version) if !is_beginning => Lines {
                version,
                text: bytes,
            },
            _ => open(bytes),
        };
        if is_beginning {
            self.version = Some(lines.version);
            self.before = self.gets.lines();
        }
        let (_rest, reading) = self.gets.read_on(self.alloc, lines, &mut self.text)?;
        self.reading = reading;
        Ok(reading)
    }

    /// Shows what is to be shown.
    pub(crate) fn show<O: Write>(&mut self, output: &mut O) -> Result<(), OfflineFault> {
        if self.text.is_empty() {
            return Ok(());
        }
        output
            .write_all(self.text.as_slice())
            .map_err(OfflineFault::of_output)?;
        output.flush().map_err(OfflineFault::of_output)?;
        self.text.clear();
        Ok(())
    }

    /// Tells on standard error why the journal of this name is read no further, if there is more to be told of than its end. Answers the line of
    /// the event that it names, counted from 1.
    pub(crate) fn tell_end<R: Eprint>(
        &self,
        rt: &R,
        file: &str,
        reading: Reading,
    ) -> Option<usize> {
        let (told, line) = match reading {
            Reading::Whole => return None,
            Reading::Malformed(line) => (Told::Malformed(self.in_text(line)), Some(line)),
            Reading::Gap(line) => (Told::Gap(self.in_text(line)), Some(line)),
            Reading::OfSender => (Told::OfSender(file), None),
            Reading::TooLong => (Told::TooLong(file), None),
        };
        let _ = rt.eprintln(told);
        line
    }

    /// Which line of the journal, as of one file, the line of this event is.
    fn in_text(&self, line: usize) -> usize {
        line.saturating_add(self.heading())
    }

    /// How many lines of a heading a piece has.
    fn heading(&self) -> usize {
        match self.version {
            Some(version) => version.lines_before(),
            None => 0,
        }
    }

    /// Tells on which line of its piece the line of this event stands. Of a piece of which nothing was read it is the first.
    pub(crate) fn tell_place<R: Eprint>(
        &self,
        rt: &R,
        piece: &str,
        is_at_beginning: bool,
        line: usize,
    ) {
        let line = if is_at_beginning {
            1
        } else {
            self.in_text(line.saturating_sub(self.before))
        };
        tell_line(rt, piece, line);
    }
}

/// Tells which messages a receiver's journal says were got, and answers the status to end with. What it has read it does not keep.
pub(crate) fn tell_got_of<R: AllocGlobal + Eprint + Files<File = File>, O: Write>(
    rt: &R,
    settings: &GotSettings,
    output: &mut O,
) -> Result<u8, OfflineFault>
    ensures { IfOk result IsOfReading }
{
    let file = settings.file.as_str();
    let mut names = Names::find(rt, file)?;
    let newest = names.take_newest();
    let mut telling = Telling::new(rt.alloc(), settings)?;
    let (reading, piece) = telling.read_pieces(rt, names.pieces(), newest, output)?;
    let piece = if names.are_several() { piece } else { None };
    telling.tell_end(rt, file, reading, piece);
    names.tell_missing(rt);
    match reading {
        Reading::Whole if !telling.got.tell_behind(rt, file) => Ok(0),
        _ => Ok(NO_JOURNAL),
    }
}

/// A journal that is read to its end, a part at a time.
#[derive(Drop)]
struct Telling {
    got: Got,
    room: Vec<u8>,
    /// How many bytes of the room are those of lines that were not read.
    filled: usize,
    /// Nothing was read of the piece.
    is_at_beginning: bool,
}

impl Telling {
    /// Nothing was read.
    fn new(alloc: Global, settings: &GotSettings) -> Result<Telling, AllocError> {
        Ok(Telling {
            got: Got::new(alloc, settings),
            room: vec![in alloc; 0u8; ROOM]?,
            filled: 0,
            is_at_beginning: true,
        })
    }

    /// Tells on standard error why the journal of this name is read no further, if there is more to be told of than its end, and on which line of this piece, where
    /// it is in pieces.
    fn tell_end<R: Eprint>(&self, rt: &R, file: &str, reading: Reading, piece: Option<&str>) {
        let line = self.got.tell_end(rt, file, reading);
        if let (Some(line), Some(piece)) = (line, piece) {
            self.got.tell_place(rt, piece, self.is_at_beginning, line);
        }
    }

    /// Reads the pieces of these names, of which the last may be open, and shows what they tell. Answers how far they read, and the piece behind which
    /// nothing is read, if there is one.
    fn read_pieces<'a, R: AllocGlobal + Files<File = File>, O: Write>(
        &mut self,
        rt: &R,
        names: &'a [String],
        newest: Option<File>,
        output: &mut O,
    ) -> Result<(Reading, Option<&'a str>), OfflineFault> {
        let mut newest = open_each(rt, names, newest)?;
        for place in 0..names.len() {
            let name = names[place].as_str();
            let is_last = place + 1 >= names.len();
            let file = open_piece(rt, name, is_last, &mut newest)?;
            let most = match length_on_disk(&file, is_last) {
                Ok(most) => most,
                Err(error) => return Err(OfflineFault::of_file(rt.alloc(), name, error)),
            };
            if let Some(reading) = self.read_piece(rt.alloc(), name, file.take(most), output)? {
                let reading = if is_last {
                    reading
                } else {
                    self.got.cut_short(reading)
                };
                return Ok((reading, Some(name)));
            }
        }
        Ok((self.got.reading(), None))
    }

    /// Reads a piece. Answers how far it reads where nothing is read behind it: a line is at fault, or has no end.
    fn read_piece<O: Write>(
        &mut self,
        alloc: Global,
        name: &str,
        file: Take<File>,
        output: &mut O,
    ) -> Result<Option<Reading>, OfflineFault> {
        let mut file = file;
        self.filled = 0;
        self.is_at_beginning = true;
        'parts: for _part in 0..u64::MAX {
            match self.fill(&mut file) {
                Ok(0) => break,
                Ok(_) => {}
                Err(error) if error.kind() == ErrorKind::Interrupted => {}
                Err(error) => return Err(OfflineFault::of_file(alloc, name, error)),
            }
            let end = self.take()?;
            self.got.show(output)?;
            if end.is_some() {
                return Ok(end);
            }
        }
        if self.filled > 0 {
            return Ok(Some(self.got.reading()));
        }
        Ok(None)
    }

    /// Reads more of a file into the room that is left. Answers how many bytes.
    fn fill(&mut self, file: &mut Take<File>) -> io::Result<usize> {
        let room = self.room.as_mut_slice();
        let filled = self.filled.min(room.len());
        let count = file.read(&mut room[filled..])?;
        self.filled = filled.saturating_add(count);
        Ok(count)
    }

    /// Reads the whole lines in the room, and keeps what is behind them. Answers how far they read where nothing is read behind them.
    fn take(&mut self) -> Result<Option<Reading>, OfflineFault> {
        let room = self.room.as_slice();
        let filled = self.filled.min(room.len());
        let come = &room[..filled];
        let lines = whole_lines(come);
        if lines.is_empty() && filled < room.len() {
            return Ok(None);
        }
        // No line is as long as the room.
        if lines.is_empty() || self.is_at_beginning && self.got.is_of_another_version(come) {
            return Ok(Some(self.got.malformed()));
        }
        let length = lines.len().min(filled);
        let reading = self.got.read(lines, self.is_at_beginning)?;
        self.is_at_beginning = false;
        self.room.as_mut_slice().copy_within(length..filled, 0);
        self.filled = filled - length;
        match reading {
            Reading::Whole | Reading::OfSender => Ok(None),
            _ => Ok(Some(reading)),
        }
    }
}

/// Opens the files of these names one by one, so that one that is not there is told before all else. Answers the last one, which may be open.
fn open_each<R: AllocGlobal + Files<File = File>>(
    rt: &R,
    names: &[String],
    newest: Option<File>,
) -> Result<Option<File>, OfflineFault> {
    let mut newest = newest;
    let mut last = None;
    for (place, name) in names.iter().enumerate() {
        let is_last = place.saturating_add(1) >= names.len();
        last = Some(open_piece(rt, name.as_str(), is_last, &mut newest)?);
    }
    Ok(last)
}

/// What is told of a journal on a line of its own.
#[derive(Debug, Drop, Error)]
enum Told<'a> {
    /// This line is none.
    #[error("malformed at line {0}")]
    Malformed(usize),
    /// This line has another number.
    #[error("gap at line {0}")]
    Gap(usize),
    /// Each line of the file of this name is a sender's.
    #[error("amo: {0}: a sender's journal: a receiver's is needed")]
    OfSender(&'a str),
    /// The journal in the file of this name has more lines than are counted.
    #[error("amo: {0}: it has more lines than are counted")]
    TooLong(&'a str),
    /// The journal in the file of this name has so many lines, and that of this number was read of it before.
    #[error("amo: {0}: it has {1} lines, and those behind line {2} are asked for: lines are lost, and their numbers come anew")]
    Behind(&'a str, usize, u64),
}
