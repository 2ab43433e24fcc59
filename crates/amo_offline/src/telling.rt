//! Tells, by journals, what became of messages.
ghost use Rattle.std.specs.Prelude.{◌≡◌, ◌<◌};

use crate::doubts::{Doubts, EVERY_LINE};
use crate::fault::OfflineFault;
use crate::judging::{line_of, tell_found, tell_stops};
use crate::pieces::Journal;
use crate::watched::Watched;
use amo_audit::{Judgement, Reach, SenderFound, Verdict, audit};
use amo_lives::Span;
use amo_settings::OutcomesSettings;
use amo_telling::{Asked, Choice, Telling, tell_outcomes, tell_outcomes_of_sender};
use amo_text::Out;
use std::cell::Cell;
use std::fs::File;
use std::io;
use std::io::{Printer, Write};
use std::marker::Brand;
use std::rt::Files;
use std::sync::ledger::{Blank, Ledger};
use thiserror::Error;

/// The status of a journal that is none, or of the other side.
const NO_JOURNAL: u8 = 2;

/// A journal in which nothing happened.
const NO_EVENTS: &[u8] = b"";

/// Tells what became of each put on standard output, by two journals or a sender's alone, and answers the status to end with. Of other files
/// `errors` gets what is found.
pub fn tell_outcomes_of<R: AllocGlobal + Eprint + Files<File = File> + Print, E: Write + Drop>(
    rt: &R,
    settings: &OutcomesSettings,
    errors: E,
) -> Result<u8, OfflineFault> {
    let choice = Choice {
        open: settings.open,
        gone: settings.gone,
        json: settings.json,
    };
    match settings.second.as_ref() {
        Some(file) => {
            let names = [settings.first.as_str(), file.as_str()];
            let ([first, second], later) = read_both(rt, names)?;
            let doubts = Doubts::read(rt, first.name_of_lives())?;
            let others = Doubts::read(rt, second.name_of_lives())?;
            let sides = [
                Side::new(&first, names[0], &doubts, &others, later == Later::First),
                Side::new(&second, names[1], &others, &doubts, later == Later::Second),
            ];
            let status = tell_outcomes_by_both(rt, sides, choice, errors)?;
            first.tell_missing(rt);
            second.tell_missing(rt);
            Ok(status)
        }
        None => {
            let first = Journal::read(rt, settings.first.as_str())?;
            let status = tell_outcomes_by_one(rt, &first, settings.first.as_str(), choice, errors)?;
            first.tell_missing(rt);
            Ok(status)
        }
    }
}

/// Which of two journals was read later.
#[derive(Clone, Copy, PartialEq, Eq)]
enum Later {
    First,
    Second,
}

/// Reads what is on the disk of the journals of these names: that a message was got is not told before its line is sure to stay. A sender's is read later
/// than its receiver's, so that it has each line whose packet that one delivers, while both are written, too. A pipe is read once, and so may be earlier.
fn read_both<R: AllocGlobal + Files<File = File>>(
    rt: &R,
    names: [&str; 2],
) -> Result<([Journal; 2], Later), OfflineFault> {
    let second = Journal::read_kept(rt, names[1])?;
    let first = Journal::read_kept(rt, names[0])?;
    if second.is_of_sender(rt)? && second.can_be_read_again(rt) {
        drop(second);
        let second = Journal::read_kept(rt, names[1])?;
        return Ok(([first, second], Later::Second));
    }
    Ok(([first, second], Later::First))
}

/// One of two journals.
#[derive(Clone, Copy)]
struct Side<'a> {
    journal: &'a Journal,
    name: &'a str,
    doubts: &'a Doubts,
    spans: &'a [Span],
    /// Whether it was read later than the other one.
    is_later: bool,
}

impl<'a> Side<'a> {
    /// The journal of this name, with its own doubtful lines; where the other journal has any, each line is doubtful.
    fn new(
        journal: &'a Journal,
        name: &'a str,
        doubts: &'a Doubts,
        others: &Doubts,
        is_later: bool,
    ) -> Side<'a> {
        let spans = if others.spans().is_empty() {
            doubts.spans()
        } else {
            EVERY_LINE
        };
        Side {
            journal,
            name,
            doubts,
            spans,
            is_later,
        }
    }

    /// Its whole lines. The host may be at work, and writing the last one. Where it was read later and the other journal goes on all the same, it has lost lines.
    fn asked(&self) -> Asked<'a> {
        Asked {
            bytes: self.journal.lines(),
            doubts: self.spans,
            if_short: if self.is_later {
                EVERY_LINE
            } else {
                self.spans
            },
        }
    }

    /// Tells that it has lost lines, if it was read later than the other one, which goes on.
    fn tell_short<R: Eprint>(&self, rt: &R) {
        if self.is_later {
            let _ = rt.eprintln(Told::Short(self.name));
        }
    }
}

/// Tells what became of each put of two journals, as far as they merge.
fn tell_outcomes_by_both<R: AllocGlobal + Eprint + Print, E: Write + Drop>(
    rt: &R,
    sides: [Side<'_>; 2],
    choice: Choice,
    errors: E,
) -> Result<u8, OfflineFault> {
    let [first, second] = sides;
    let asked = (first.asked(), second.asked());
    match write_outcomes::<R, Brand>(rt, asked.0, asked.1, choice, Blank::new(1))? {
        Telling::Told(reach) => {
            tell_reach(rt, first, second, reach);
            Ok(0)
        }
        Telling::Nothing(judgement) => {
            let status = tell_found::<R, E, Brand>(rt, judgement, errors, Blank::new(1))?;
            match judgement {
                Judgement::First(verdict) => tell_piece(rt, first.journal, line_of(verdict)),
                Judgement::Second(verdict) => tell_piece(rt, second.journal, line_of(verdict)),
                Judgement::Stuck => tell_stops(rt, first.journal, second.journal),
                _ => {}
            }
            Ok(status)
        }
    }
}

/// Tells how far two journals were told of, and where it is not known what a loss of power took.
fn tell_reach<R: Eprint>(rt: &R, first: Side<'_>, second: Side<'_>, reach: Reach) {
    match reach {
        Reach::Whole => {}
        Reach::First(line) => {
            tell_end(rt, first.journal, first.name, line);
            second.tell_short(rt);
        }
        Reach::Second(line) => {
            tell_end(rt, second.journal, second.name, line);
            first.tell_short(rt);
        }
    }
    first.doubts.tell_lack(rt);
    second.doubts.tell_lack(rt);
}

/// Tells the first line of a journal of which nothing is told, since the other journal does not have what it delivers.
fn tell_end<R: Eprint>(rt: &R, journal: &Journal, file: &str, line: usize) {
    let _ = rt.eprintln(Told::Further(file, line));
    tell_piece(rt, journal, line);
}

/// Tells in which piece this line stands, where a journal is in pieces.
fn tell_piece<R: Eprint>(rt: &R, journal: &Journal, line: usize) {
    if journal.is_in_pieces() {
        journal.tell_place(rt, line);
    }
}

/// Tells what became of each put of the journal of this name, which is a sender's, or has both sides.
fn tell_outcomes_by_one<R: AllocGlobal + Eprint + Files<File = File> + Print, E: Write + Drop>(
    rt: &R,
    journal: &Journal,
    file: &str,
    choice: Choice,
    errors: E,
) -> Result<u8, OfflineFault> {
    let doubts = Doubts::read(rt, journal.name_of_lives())?;
    let asked = Asked {
        bytes: journal.lines(),
        doubts: doubts.spans(),
        if_short: doubts.spans(),
    };
    match write_outcomes_alone::<R, Brand>(rt, asked, choice, Blank::new(1))? {
        SenderFound::Good => {
            let _ = rt.eprintln(Told::Alone(file));
            doubts.tell_lack(rt);
            Ok(0)
        }
        SenderFound::Wrong(verdict) => tell_wrong(rt, journal, verdict, errors),
        SenderFound::OfReceiver => {
            let _ = rt.eprintln(Told::OfReceiver(file));
            Ok(NO_JOURNAL)
        }
        SenderFound::OfBoth => tell_outcomes_within(rt, journal, choice, errors),
    }
}

/// Tells what became of each put of a journal that has both sides.
fn tell_outcomes_within<R: AllocGlobal + Eprint + Print, E: Write + Drop>(
    rt: &R,
    journal: &Journal,
    choice: Choice,
    errors: E,
) -> Result<u8, OfflineFault> {
    let text = journal.lines();
    match audit(rt.alloc(), text) {
        Verdict::Yes => {
            let (both, none) = (without_doubts(text), without_doubts(NO_EVENTS));
            write_outcomes::<R, Brand>(rt, both, none, choice, Blank::new(1))?;
            Ok(0)
        }
        verdict => tell_wrong(rt, journal, verdict, errors),
    }
}

/// A journal of which no line is doubtful.
fn without_doubts(bytes: &[u8]) -> Asked<'_> {
    Asked {
        bytes,
        doubts: &[],
        if_short: &[],
    }
}

/// Tells the verdict on a journal, and in which piece the line stands that it names, and answers the status to end with.
fn tell_wrong<R: AllocGlobal + Eprint, E: Write + Drop>(
    rt: &R,
    journal: &Journal,
    verdict: Verdict,
    errors: E,
) -> Result<u8, OfflineFault> {
    let found = Judgement::Whole(verdict);
    let status = tell_found::<R, E, Brand>(rt, found, errors, Blank::new(1))?;
    tell_piece(rt, journal, line_of(verdict));
    Ok(status)
}

/// Tells what became of each put of two journals, and answers how far, or what is found of them. What was written has left when it answers.
fn write_outcomes<R: AllocGlobal + Print, L: Ledger>(
    rt: &R,
    first: Asked<'_>,
    second: Asked<'_>,
    choice: Choice,
    blank: Blank,
) -> Result<Telling, OfflineFault>
    requires name { blank.name ≡ L.name }
    requires parts { blank.parts ≡ L.parts }
    requires some { 0 < L.parts }
{
    let cause = Cell::new(None);
    let watched = Watched::new(io::writer(rt), &cause);
    let mut out = Out::<Watched<'_, Printer<'_, R>>, L>::new(watched, blank);
    let told = tell_outcomes(rt.alloc(), first, second, choice, &mut out);
    out.into_inner().flush().map_err(OfflineFault::of_output)?;
    told.map_err(|fault| OfflineFault::of_report(fault, cause.get()))
}

/// Tells what a sender's journal alone tells of each put, and answers what is found of it. What was written has left when it answers.
fn write_outcomes_alone<R: AllocGlobal + Print, L: Ledger>(
    rt: &R,
    journal: Asked<'_>,
    choice: Choice,
    blank: Blank,
) -> Result<SenderFound, OfflineFault>
    requires name { blank.name ≡ L.name }
    requires parts { blank.parts ≡ L.parts }
    requires some { 0 < L.parts }
{
    let cause = Cell::new(None);
    let watched = Watched::new(io::writer(rt), &cause);
    let mut out = Out::<Watched<'_, Printer<'_, R>>, L>::new(watched, blank);
    let told = tell_outcomes_of_sender(rt.alloc(), journal, choice, &mut out);
    out.into_inner().flush().map_err(OfflineFault::of_output)?;
    told.map_err(|fault| OfflineFault::of_report(fault, cause.get()))
}

/// What is told of a journal on a line of its own.
#[derive(Debug, Drop, Error)]
enum Told<'a> {
    /// Each line of the file of this name is a receiver's.
    #[error("amo: {0}: a receiver's journal: the sender's is needed; amo got tells what was got")]
    OfReceiver(&'a str),
    /// In the file of this name, nothing is told of this line and of those behind it.
    #[error("amo: {0}: not told from line {1} on: it delivers what the other journal has not sent")]
    Further(&'a str, usize),
    /// The file of this name has lost lines.
    #[error("amo: {0}: it lacks lines, as one that was restored from a copy does: none of its puts is told to be gone")]
    Short(&'a str),
    /// The file of this name has the lines of one side.
    #[error("amo: {0}: one side's journal: with the other side's too, each put is got, gone or open")]
    Alone(&'a str),
}
