//! Tells, where a sender starts again, what became of the messages of its earlier lives that had no answer.
use crate::doubts::{Doubts, EVERY_LINE};
use crate::fault::OfflineFault;
use crate::followed::Followed;
use crate::got::ROOM;
use crate::told_file::ToldFile;
use amo_journal::{Lines, Version, line_in_front, open};
use amo_lives::Span;
use amo_telling::{Progress, Untold, whole_lines};
use amo_text::{cut, read_decimal};
use amo_world::Act;
use std::alloc::{AllocError, Global};
use std::fs::File;
use std::io::Write;
use std::rt::Files;
use thiserror::Error;

/// What a start told of a sender's earlier lives.
#[derive(Drop)]
pub struct Retold {
    /// The streams on which it is not settled what became of a message that was sent.
    pub in_doubt: Vec<u32>,
    /// All was told that was to be. Otherwise a line did not read: nothing was told, and the next start is to try again.
    pub is_whole: bool,
}

/// Tells on standard output what became of each message that was put on the lines of this journal, which has so many, and that was neither answered
/// nor told. Then these lines are kept as told: what is to keep that is made before anything is told, so that a start that cannot keep it, as on a full disk,
/// tells nothing. Whoever calls has the journal, and says who is told what is odd.
pub fn tell_untold<R: AllocGlobal + Files<File = File>, E: Eprint, O: Write>(
    rt: &R,
    errors: &E,
    journal: &str,
    lines: u64,
    json: bool,
    output: &mut O,
) -> Result<Retold, OfflineFault> {
    tell_power(rt, errors, journal, lines)?;
    let mut told = ToldFile::read(rt, journal)?;
    let Some(telling) = telling_of(rt, errors, journal, lines, json, &mut told)? else {
        return Ok(Retold {
            in_doubt: told.into_in_doubt(),
            is_whole: false,
        });
    };
    show_and_keep(rt, journal, lines, &told, &telling, output)?;
    Ok(Retold {
        in_doubt: told.into_in_doubt(),
        is_whole: true,
    })
}

/// What a start is to tell.
#[derive(Drop)]
struct Telling {
    text: Vec<u8>,
    /// The last line of the journal, without its end, if it has one.
    last: Option<Vec<u8>>,
}

/// What is to be told of a journal that has so many lines, behind what was told before. None where a line did not read. The streams that are in doubt then are
/// those that the file of what was told has from now on.
fn telling_of<R: AllocGlobal + Files<File = File>, E: Eprint>(
    rt: &R,
    errors: &E,
    journal: &str,
    lines: u64,
    json: bool,
    told: &mut ToldFile,
) -> Result<Option<Telling>, OfflineFault> {
    let mut text = Vec::new(rt.alloc());
    let Whence {
        first,
        last,
        recalled,
    } = whence_to_read(rt, errors, journal, lines, told)?;
    if first >= lines && recalled.is_none() {
        return Ok(Some(Telling { text, last }));
    }
    let mut retelling = Retelling::new(rt, journal, first, recalled)?;
    if !retelling.read(rt, errors)? {
        return Ok(None);
    }
    retelling.tell(rt, json, told, &mut text)?;
    Ok(Some(Telling {
        text,
        last: Some(retelling.last),
    }))
}

/// From where on a journal is read.
#[derive(Drop)]
struct Whence {
    /// The number of the first line of which puts are not told.
    first: u64,
    /// The line in front of it, if it is there.
    last: Option<Vec<u8>>,
    /// What is known of the lines in front of it that matter.
    recalled: Option<Untold>,
}

/// From where on to read a journal that has so many lines, by the file of what was told. What that says and is not so is not believed, and it is told why.
fn whence_to_read<R: AllocGlobal + Files<File = File>, E: Eprint>(
    rt: &R,
    errors: &E,
    journal: &str,
    lines: u64,
    told: &mut ToldFile,
) -> Result<Whence, OfflineFault> {
    let mut first = told.first_untold(errors, lines);
    let last = line_in_front_of(rt, journal, first)?;
    if told.lines() == Some(first) && !is_trusted(rt.alloc(), told, last.as_ref(), first)? {
        first = told.miss_lines(errors, lines);
    }
    let mut recalled = None;
    if !told.list().is_empty() {
        recalled = recall(rt.alloc(), told.list(), first)?;
        if recalled.is_none() {
            first = told.distrust(errors, lines);
        }
    }
    Ok(Whence {
        first,
        last,
        recalled,
    })
}

/// Tells it on standard output, and keeps that so many lines are told.
fn show_and_keep<R: AllocGlobal + Files<File = File>, O: Write>(
    rt: &R,
    journal: &str,
    lines: u64,
    told: &ToldFile,
    telling: &Telling,
    output: &mut O,
) -> Result<(), OfflineFault> {
    let last = match telling.last.as_ref() {
        Some(line) => line.as_slice(),
        None => &[],
    };
    let next = told.next(rt, journal, lines, last)?;
    let shown = show(telling.text.as_slice(), output);
    match (shown, next) {
        (Ok(()), Some(next)) => next.put_in_place(rt),
        (shown, _) => shown,
    }
}

/// Shows this text.
fn show<O: Write>(text: &[u8], output: &mut O) -> Result<(), OfflineFault> {
    output.write_all(text).map_err(OfflineFault::of_output)?;
    output.flush().map_err(OfflineFault::of_output)
}

/// Tells where a loss of power may have taken lines behind those that the journal has, so many.
fn tell_power<R: AllocGlobal + Files<File = File>, E: Eprint>(
    rt: &R,
    errors: &E,
    journal: &str,
    lines: u64,
) -> Result<(), OfflineFault> {
    let doubts = Doubts::read(rt, journal)?;
    if lines > 0 && doubts.are_open() {
        let _ = errors.eprintln(Told::Power(journal, lines));
    }
    Ok(())
}

/// Whether the file tells of this journal, of which this is the line in front of that of this number. Where that stood in a piece that was moved away, nobody
/// can say that it does not.
fn is_trusted(
    alloc: Global,
    told: &ToldFile,
    line: Option<&Vec<u8>>,
    first: u64,
) -> Result<bool, AllocError> {
    match line {
        Some(line) => told.is_behind(alloc, line.as_slice()),
        None if first == 0 => told.is_behind(alloc, &[]),
        None => Ok(true),
    }
}

/// The text of the line in front of that of this number in the journal of this name, if it is there.
fn line_in_front_of<R: AllocGlobal + Files<File = File>>(
    rt: &R,
    name: &str,
    number: u64,
) -> Result<Option<Vec<u8>>, OfflineFault> {
    match number.checked_sub(1) {
        Some(number) => numbered_line(rt, name, number),
        None => Ok(None),
    }
}

/// The text of the line of this number in the journal of this name, if it is there, without its end.
pub fn numbered_line<R: AllocGlobal + Files<File = File>>(
    rt: &R,
    name: &str,
    number: u64,
) -> Result<Option<Vec<u8>>, OfflineFault> {
    let mut journal = Followed::from_line(rt, name, number)?;
    let mut room = vec![in rt.alloc(); 0u8; ROOM]?;
    'parts: for _part in 0..u64::MAX {
        let count = journal.fill(room.as_mut_slice())?;
        let whole = whole_lines(&room.as_slice()[..count.min(room.len())]);
        if whole.is_empty() {
            if count > 0 || !journal.go_on(rt)? {
                break;
            }
            continue;
        }
        if let Some(line) = first_from(whole, journal.is_at_beginning(), number) {
            let is_found = number_in_front(line) == Some(number);
            let line = Vec::from_slice(rt.alloc(), line)?;
            return Ok(is_found.then_some(line));
        }
        journal.pass(whole.len());
    }
    Ok(None)
}

/// The first of these lines that has no smaller number than this one, without its end. A piece may begin with them.
fn first_from(lines: &[u8], is_beginning: bool, number: u64) -> Option<&[u8]> {
    let lines = if is_beginning {
        open(lines).text
    } else {
        lines
    };
    let (line, _) = cut(from_line(lines, number), b'\n')?;
    Some(line)
}

/// A reader that knows the lines of this journal, which stand somewhere in front of the line of this number, and goes on at that one; none where there is
/// no such journal.
fn recall(alloc: Global, list: &[u8], first: u64) -> Result<Option<Untold>, AllocError> {
    let mut untold = Untold::new(alloc, first)?;
    let (left, progress) = untold.recall(open(list))?;
    let is_whole = progress == Progress::Whole && left.text.is_empty();
    Ok(is_whole.then_some(untold))
}

/// From where on lines are read.
#[derive(Clone, Copy)]
enum Sought {
    /// From the line of this number on.
    Line(u64),
    /// From the next start of a host on, as its first crash tells. Lines in front of it are missing.
    Start,
}

/// A journal that is read, part by part.
#[derive(Drop)]
struct Retelling<'a> {
    journal: Followed,
    room: Vec<u8>,
    /// The text of the last line that was read.
    last: Vec<u8>,
    found: Found<'a>,
}

impl<'a> Retelling<'a> {
    /// The journal of this name, from the line of this number on, of which nothing was read. Of the lines in front of it those that matter are recalled.
    fn new<R: AllocGlobal + Files<File = File>>(
        rt: &R,
        name: &'a str,
        first: u64,
        recalled: Option<Untold>,
    ) -> Result<Retelling<'a>, OfflineFault> {
        let journal = Followed::from_line(rt, name, first)?;
        let version = journal.version();
        Ok(Retelling {
            journal,
            room: vec![in rt.alloc(); 0u8; ROOM]?,
            last: Vec::new(rt.alloc()),
            found: Found {
                alloc: rt.alloc(),
                name,
                version,
                sought: Sought::Line(first),
                before_gaps: Vec::new(rt.alloc()),
                begun: 0,
                recalled,
                untold: None,
            },
        })
    }

    /// Reads the lines to their end. Answers whether each of them is one; if not, that is told.
    fn read<R: AllocGlobal + Files<File = File>, E: Eprint>(
        &mut self,
        rt: &R,
        errors: &E,
    ) -> Result<bool, OfflineFault> {
        'parts: for _part in 0..u64::MAX {
            let count = self.journal.fill(self.room.as_mut_slice())?;
            let length = whole_lines(self.come(count)).len();
            let is_read = if length > 0 {
                self.read_part(errors, length)?
            } else if count > 0 {
                false
            } else if self.journal.go_on(rt)? {
                true
            } else {
                break;
            };
            if !is_read {
                let _ = errors.eprintln(Told::Malformed(self.journal.file()));
                return Ok(false);
            }
        }
        Ok(true)
    }

    /// So many of the bytes that were read.
    fn come(&self, count: usize) -> &[u8] {
        let room = self.room.as_slice();
        &room[..count.min(room.len())]
    }

    /// Reads lines of a piece, which have so many bytes. Answers whether each of them is one.
    fn read_part<E: Eprint>(&mut self, errors: &E, length: usize) -> Result<bool, OfflineFault> {
        let room = self.room.as_slice();
        let bytes = &room[..length.min(room.len())];
        let is_beginning = self.journal.is_at_beginning();
        let is_read = self.found.read(errors, bytes, is_beginning)?;
        let last = last_line(bytes);
        if number_in_front(last).is_some() {
            self.last.clear();
            self.last.extend_from_slice(last)?;
        }
        self.journal.pass(length);
        Ok(is_read)
    }

    /// Appends what became of the messages that were not answered, and what is settled of those that were told before. From then on, that is told. Of what
    /// stands in front of missing lines nothing is `gone`, since these may have it sent; nor is anything where the file of lives cannot be read right now.
    fn tell<R: AllocGlobal + Files<File = File>>(
        &self,
        rt: &R,
        json: bool,
        told: &mut ToldFile,
        text: &mut Vec<u8>,
    ) -> Result<(), OfflineFault> {
        let doubts = Doubts::read(rt, self.found.name)?;
        let spans = if told.lacks_lines() || !doubts.are_known() {
            EVERY_LINE
        } else {
            doubts.spans()
        };
        for untold in &self.found.before_gaps {
            tell_known(untold, EVERY_LINE, json, told, text)?;
        }
        match self.found.known() {
            Some(untold) => tell_known(untold, spans, json, told, text),
            None => Ok(()),
        }
    }
}

/// Appends what is known of messages, where these lines are doubtful.
fn tell_known(
    untold: &Untold,
    doubtful: &[Span],
    json: bool,
    told: &mut ToldFile,
    text: &mut Vec<u8>,
) -> Result<(), OfflineFault> {
    let known = untold.tell(doubtful, told.in_doubt(), json)?;
    text.extend_from_slice(known.as_slice())?;
    let in_doubt = untold.in_doubt(doubtful, told.in_doubt())?;
    told.doubt(in_doubt);
    Ok(())
}

/// What was found in the lines of a journal.
#[derive(Drop)]
struct Found<'a> {
    alloc: Global,
    name: &'a str,
    version: Version,
    sought: Sought,
    /// What was read or recalled in front of lines that are missing.
    before_gaps: Vec<Untold>,
    /// The number of the first line that was read behind those that are missing, or 0.
    begun: u64,
    /// What is known of the lines in front of it, until it has come.
    recalled: Option<Untold>,
    /// What was read from there on, once it has come.
    untold: Option<Untold>,
}

impl Found<'_> {
    /// What is known of the lines that were read or recalled.
    fn known(&self) -> Option<&Untold> {
        match self.untold.as_ref() {
            Some(untold) => Some(untold),
            None => self.recalled.as_ref(),
        }
    }

    /// Reads whole lines, with which a piece begins, or which go on in it. Answers whether each of them is one.
    fn read<E: Eprint>(
        &mut self,
        errors: &E,
        bytes: &[u8],
        is_beginning: bool,
    ) -> Result<bool, OfflineFault> {
        let mut rest = if is_beginning {
            open(bytes)
        } else {
            Lines {
                version: self.version,
                text: bytes,
            }
        };
        self.version = rest.version;
        'gaps: for _gap in 0..bytes.len() {
            rest = self.seek(errors, rest)?;
            let Some(untold) = self.untold.as_mut() else {
                break;
            };
            let (left, progress) = untold.read_on(rest)?;
            rest = left;
            match progress {
                Progress::Gap => self.pass_gap(errors, left)?,
                Progress::Whole | Progress::Malformed => break,
            }
        }
        Ok(rest.text.is_empty())
    }

    /// Lines are missing in front of these: what became of the messages before them stands there, maybe.
    fn pass_gap<E: Eprint>(&mut self, errors: &E, lines: Lines<'_>) -> Result<(), AllocError> {
        if let Some(untold) = self.untold.take() {
            if let Some(number) = number_in_front(lines.text) {
                tell_missing(errors, self.name, untold.next(), number);
            }
            // Behind a line of which no number is greater nothing is read, again and again.
            if untold.next() > self.begun {
                self.before_gaps.push(untold)?;
            }
        }
        self.sought = Sought::Start;
        Ok(())
    }

    /// These lines without those in front of what is sought, which begins once it has come.
    fn seek<'l, E: Eprint>(
        &mut self,
        errors: &E,
        lines: Lines<'l>,
    ) -> Result<Lines<'l>, AllocError> {
        if self.untold.is_some() {
            return Ok(lines);
        }
        let mut rest = lines;
        if let Sought::Line(sought) = self.sought {
            rest.text = from_line(lines.text, sought);
            match number_in_front(rest.text) {
                Some(number) if number == sought => self.begin(number)?,
                Some(number) => {
                    tell_missing(errors, self.name, sought, number);
                    if let Some(recalled) = self.recalled.take() {
                        self.before_gaps.push(recalled)?;
                    }
                    self.sought = Sought::Start;
                }
                None => {}
            }
        }
        match self.sought {
            Sought::Start => self.seek_start(rest),
            Sought::Line(_) => Ok(rest),
        }
    }

    /// These lines from the first one on by which a host notes a crash at its start.
    fn seek_start<'l>(&mut self, lines: Lines<'l>) -> Result<Lines<'l>, AllocError> {
        let mut rest = lines;
        'lines: for _line in 0..lines.text.len() {
            let Some((line, more)) = line_in_front(self.alloc, rest)? else {
                break;
            };
            if line.event.act == Act::Crash {
                self.begin(line.number)?;
                break;
            }
            rest = more;
        }
        Ok(rest)
    }

    /// The line of this number comes next, with which a life begins, or in front of which lines were recalled.
    fn begin(&mut self, number: u64) -> Result<(), AllocError> {
        let untold = match self.recalled.take() {
            Some(recalled) => recalled,
            None => Untold::new(self.alloc, number)?,
        };
        if let Sought::Start = self.sought {
            self.begun = number;
        }
        self.untold = Some(untold);
        Ok(())
    }
}

/// These lines from the first one on that has no smaller number than this one.
fn from_line(lines: &[u8], number: u64) -> &[u8] {
    let mut rest = lines;
    'lines: for _line in 0..lines.len() {
        match number_in_front(rest) {
            Some(other) if other < number => {}
            _ => break,
        }
        let Some((_line, behind)) = cut(rest, b'\n') else {
            break;
        };
        rest = behind;
    }
    rest
}

/// The last of these lines, without its end.
fn last_line(lines: &[u8]) -> &[u8] {
    let text = match lines.strip_suffix(b"\n") {
        Some(text) => text,
        None => lines,
    };
    &text[whole_lines(text).len().min(text.len())..]
}

/// The number in front of a line.
fn number_in_front(line: &[u8]) -> Option<u64> {
    let (number, _) = cut(line, b' ')?;
    read_decimal(number)
}

/// Tells that the lines of these numbers are missing, from the first one to before the last.
fn tell_missing<E: Eprint>(errors: &E, journal: &str, first: u64, end: u64) {
    let _ = errors.eprintln(Told::Missing(journal, first, end.saturating_sub(1)));
}

/// What is told of a journal on a line of its own.
#[derive(Debug, Drop, Error)]
enum Told<'a> {
    #[error("amo: {0}: lines {1} to {2} are missing: of messages put there, or behind them before a start, nothing is told")]
    Missing(&'a str, u64, u64),
    #[error("amo: {0}: a line is malformed: what became of earlier messages is not told")]
    Malformed(&'a str),
    #[error("amo: {0}: the machine may have lost power behind its {1} lines: later ones may lack, whose messages may have been got, and their numbers come anew")]
    Power(&'a str, u64),
}
