//! What the end of a file tells of the journal in it.
ghost use Rattle.std.specs.Prelude.{◌≡◌, ◌≤◌, length, IfErr, IfOk};
ghost use Rattle.amo_disk.specs.Ending.{HasFirst, IsEnding, IsFarEnding, IsNoEnding, place_in, placed_in};

use crate::{OpenFault, TailFault, read_tail};
use amo_journal::{Lines, Version, line_in_front, open};
use amo_object::End;
use amo_text::next_line;
use std::alloc::{AllocError, Global};

/// What the end of a file tells of the journal in it.
#[derive(Clone, Copy, Debug, PartialEq, Eq)]
pub struct Ending {
    /// The journal's version. None where the file has no whole line.
    pub version: Option<Version>,
    /// The number of the first line of an event, if one is whole.
    pub first: Option<u64>,
    /// The number of the next line, if one is whole, or else 0.
    pub next: u64,
    /// How many bytes the whole lines have, the heading with them.
    pub whole: u64,
    /// The last lines are the crashes and recoveries of streams from 1 to this one, in order.
    pub back: u32,
}

impl Ending {
    /// A file without a whole line.
    pub(crate) const NOTHING: Ending = Ending {
        version: None,
        first: None,
        next: 0,
        whole: 0,
        back: 0,
    };

    /// That of a file that has these bytes, of a host of this side. A fault names the first line that has one, counted from 1.
    pub fn of_file(alloc: Global, side: End, bytes: &[u8]) -> Result<Ending, OpenFault>
        ensures ending { IfOk result (IsEnding side bytes.now) }
        ensures fault { IfErr result (IsNoEnding side bytes.now) }
    {
        let lines = open(bytes);
        if lines.version == Version::One && next_line(bytes).is_none() {
            return Ok(Ending::NOTHING);
        }
        let first = first_number(alloc, lines)?;
        let from = first.unwrap_or(0);
        match read_tail(alloc, lines.version, side, from, lines.text) {
            Ok(tail) => Ok(Ending {
                version: Some(lines.version),
                first,
                next: tail.next,
                whole: (bytes.len() - lines.text.len() + tail.whole) as u64,
                back: tail.back,
            }),
            Err(fault) => Err(placed(fault, lines.version, from)),
        }
    }

    /// That of a file that begins with the first bytes, and ends with the last ones, which begin somewhere behind the first line. It has so many
    /// bytes.
    pub fn of_long_file(
        alloc: Global,
        side: End,
        first: &[u8],
        last: &[u8],
        size: u64,
    ) -> Result<Ending, OpenFault>
        requires { length last.now ≤ size }
        ensures { IfOk result (IsFarEnding side first.now last.now size) }
    {
        let lines = open(first);
        let Some(begin) = first_number(alloc, lines)? else {
            return Err(OpenFault::Malformed(place_of(lines.version, 0, 0)));
        };
        let Some((_, text)) = next_line(last) else {
            return Err(OpenFault::Unreadable);
        };
        let end = Lines {
            version: lines.version,
            text,
        };
        let Some(from) = first_number(alloc, end)? else {
            return Err(OpenFault::Unreadable);
        };
        match read_tail(alloc, lines.version, side, from, text) {
            Ok(tail) => Ok(Ending {
                version: Some(lines.version),
                first: Some(begin),
                next: tail.next,
                whole: size - text.len() as u64 + tail.whole as u64,
                back: tail.back,
            }),
            Err(fault) => Err(placed(fault, lines.version, begin)),
        }
    }
}

/// The number of the first of these lines, if one is whole.
fn first_number(alloc: Global, lines: Lines<'_>) -> Result<Option<u64>, AllocError>
    ensures { IfOk result (HasFirst lines.entry.version lines.entry.text.now) }
{
    match line_in_front(alloc, lines)? {
        Some((line, _)) => Ok(Some(line.number)),
        None => Ok(None),
    }
}

/// The fault of a file of this version of which the first line has this number.
fn placed(fault: TailFault, version: Version, first: u64) -> OpenFault
    ensures { result ≡ placed_in version first fault }
{
    match fault {
        TailFault::Malformed(number) => OpenFault::Malformed(place_of(version, first, number)),
        TailFault::Gap(number) => OpenFault::Gap(place_of(version, first, number)),
        TailFault::OtherSide(number) => OpenFault::OtherSide(place_of(version, first, number)),
        TailFault::NoMemory => OpenFault::NoMemory,
    }
}

/// The place in a file, counted from 1, of the line of this number, where the first line has that one.
fn place_of(version: Version, first: u64, number: u64) -> u64
    ensures { result ≡ place_in version first number }
{
    number
        .saturating_sub(first)
        .saturating_add(version.lines_before() as u64)
        .saturating_add(1)
}
