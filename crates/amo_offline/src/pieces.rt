//! Reads the journal that a name stands for into memory.
use crate::fault::OfflineFault;
use crate::identity::length_on_disk;
use crate::names::{Names, open_piece};
use amo_journal::{Lines, open, read_line};
use amo_object::End;
use amo_pieces::Pieces;
use amo_telling::whole_lines;
use amo_text::next_line;
use std::fs::File;
use std::io::{self, Read, Take};
use std::rt::Files;
use thiserror::Error;

/// How many bytes of a piece tell its version: more than a heading has.
const FRONT: usize = 16;

/// A journal that was read.
#[derive(Drop)]
pub(crate) struct Journal {
    names: Names,
    pieces: Pieces,
    /// What stands behind its whole lines is none that a host is writing: a piece in front of another ends within a line, or the last one is of another
    /// version.
    is_cut: bool,
}

impl Journal {
    /// Reads the journal of this name.
    pub(crate) fn read<R: AllocGlobal + Files<File = File>>(
        rt: &R,
        name: &str,
    ) -> Result<Journal, OfflineFault> {
        Journal::read_of(rt, Names::find(rt, name)?)
    }

    /// Reads what is on the disk of the journal of this name, which a host may be writing.
    pub(crate) fn read_kept<R: AllocGlobal + Files<File = File>>(
        rt: &R,
        name: &str,
    ) -> Result<Journal, OfflineFault> {
        Journal::read_each(rt, Names::find(rt, name)?, true)
    }

    /// Reads the journal in these files.
    pub(crate) fn read_of<R: AllocGlobal + Files<File = File>>(
        rt: &R,
        names: Names,
    ) -> Result<Journal, OfflineFault> {
        Journal::read_each(rt, names, false)
    }

    /// Reads the journal in these files: all of it, or what is on the disk.
    fn read_each<R: AllocGlobal + Files<File = File>>(
        rt: &R,
        names: Names,
        on_disk: bool,
    ) -> Result<Journal, OfflineFault> {
        let mut names = names;
        let mut newest = names.take_newest();
        let mut pieces = Pieces::new(rt.alloc());
        let mut is_cut = false;
        let count = names.pieces().len();
        for (place, name) in names.pieces().iter().enumerate() {
            let is_last = place.saturating_add(1) >= count;
            let file = open_piece(rt, name.as_str(), is_last, &mut newest)?;
            is_cut = is_cut || whole_lines(pieces.text()).len() < pieces.text().len();
            match add_file(&mut pieces, file, on_disk && is_last) {
                Ok(is_other) => is_cut = is_cut || is_other,
                Err(error) => return Err(OfflineFault::of_file(rt.alloc(), name.as_str(), error)),
            }
        }
        Ok(Journal {
            names,
            pieces,
            is_cut,
        })
    }

    /// Its text, as of one file.
    pub(crate) fn text(&self) -> &[u8] {
        self.pieces.text()
    }

    /// Its whole lines, as of a host that writes the next one. Where what stands behind them is none that a host is writing, it is the text with that.
    pub(crate) fn lines(&self) -> &[u8] {
        if self.is_cut {
            self.text()
        } else {
            whole_lines(self.text())
        }
    }

    /// How many lines stand in front of those of its events.
    pub(crate) fn heading_lines(&self) -> usize {
        open(self.text()).version.lines_before()
    }

    /// The name beside which its file of lives stands: of a list that of the last piece, else its own.
    pub(crate) fn name_of_lives(&self) -> &str {
        self.names.name_of_lives()
    }

    /// Whether it is in more files than one.
    pub(crate) fn is_in_pieces(&self) -> bool {
        self.names.are_several()
    }

    /// Whether its files can be read again, since none of them is a pipe or a device.
    pub(crate) fn can_be_read_again<R: Files>(&self, rt: &R) -> bool {
        self.names.are_files(rt)
    }

    /// Whether its first event is a sender's.
    pub(crate) fn is_of_sender<R: AllocGlobal>(&self, rt: &R) -> Result<bool, OfflineFault> {
        let Lines { version, text } = open(self.text());
        let Some((line, _)) = next_line(text) else {
            return Ok(false);
        };
        match read_line(rt.alloc(), version, line)? {
            Some(read) => Ok(read.event.side == End::Sender),
            None => Ok(false),
        }
    }

    /// Tells on standard error in which piece this line of its text stands, if it is a line, and which line of the piece that is.
    pub(crate) fn tell_place<R: Eprint>(&self, rt: &R, line: usize) {
        let Some(place) = self.pieces.place(line) else {
            return;
        };
        if let Some(name) = self.names.pieces().get(place.piece) {
            tell_line(rt, name.as_str(), place.line);
        }
    }

    /// Tells on standard error which piece is missing between the others, if one is.
    pub(crate) fn tell_missing<R: Eprint>(&self, rt: &R) {
        self.names.tell_missing(rt);
    }
}

/// Adds the piece in this file: all of it, or what is on the disk. Answers whether it has a whole line, and is of another version than the pieces before it.
fn add_file(pieces: &mut Pieces, file: File, on_disk: bool) -> io::Result<bool> {
    let is_first = pieces.text().is_empty();
    let most = length_on_disk(&file, on_disk)?;
    let mut seen = Seen {
        file: file.take(most),
        front: [0; FRONT],
        filled: 0,
        has_line: false,
    };
    pieces.add(&mut seen)?;
    let is_other = open(seen.front()).version != open(pieces.text()).version;
    Ok(seen.has_line && is_other && !is_first)
}

/// A file, of which it keeps what was read first, and whether the end of a line was.
#[derive(Drop)]
struct Seen {
    file: Take<File>,
    front: [u8; FRONT],
    /// How many bytes were read first.
    filled: usize,
    has_line: bool,
}

impl Seen {
    /// What was read first.
    fn front(&self) -> &[u8] {
        &self.front[..self.filled.min(FRONT)]
    }

    /// These bytes were read.
    fn see(&mut self, bytes: &[u8]) {
        let filled = self.filled.min(FRONT);
        let count = bytes.len().min(FRONT - filled);
        self.front[filled..filled + count].copy_from_slice(&bytes[..count]);
        self.filled = filled + count;
        self.has_line = self.has_line || bytes.contains(&b'\n');
    }
}

impl Read for Seen {
    fn read(&mut self, to: &mut [u8]) -> io::Result<usize> {
        let count = self.file.read(to)?;
        self.see(&to[..count.min(to.len())]);
        Ok(count)
    }
}

/// Tells on standard error of this line of the file of this name.
pub(crate) fn tell_line<R: Eprint>(rt: &R, name: &str, line: usize) {
    let _ = rt.eprintln(Told::Line(name, line));
}

/// What is told of a journal in pieces, on a line of its own.
#[derive(Debug, Drop, Error)]
enum Told<'a> {
    /// In the file of this name, this line.
    #[error("amo: {0}: line {1}")]
    Line(&'a str, usize),
}
