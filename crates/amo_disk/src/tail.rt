//! Reads lines at the end of a journal.
ghost use Rattle.std.specs.Prelude.{◌≡◌, ◌≤◌, ◌⊎◌, IfErr, IfNone, IfOk, IfSome};
ghost use Rattle.amo_disk.specs.Tail.{Faults, FrontFaults, HasNone, IsTail, LineFaults, TakesFront, TakesLine};

use crate::returns::Returns;
use amo_journal::{Lines, Numbered, Version, line_in_front};
use amo_object::End;
use amo_packet::MAX_PACKET;
use amo_text::next_line;
use std::alloc::{AllocError, Global};

/// A longer text is no line. The longest line is that of a delivery of the longest packet, in HEX; its other fields, which are a number, a pass,
/// a side, a stream, `deliver`, a word and `done`, have 57 bytes at most, and there are 7 spaces.
pub(crate) const LONGEST_LINE: usize = 2 * MAX_PACKET + 64;

/// What lines at the end of a journal tell.
#[derive(Clone, Copy, PartialEq, Eq)]
pub struct Tail {
    /// The number of the next line.
    pub next: u64,
    /// How many bytes the whole lines have. What is behind them is a line that was torn.
    pub whole: usize,
    /// The last lines are the crashes and recoveries of streams from 1 to this one, in order; and no more of them are.
    pub back: u32,
}

/// Why bytes are no lines at the end of a journal of this side. A number is that of the first line which is at fault: the number that it should have.
#[derive(Clone, Copy, PartialEq, Eq)]
pub enum TailFault {
    /// It is none of a journal.
    Malformed(u64),
    /// It has another number.
    Gap(u64),
    /// It is an event of the other side.
    OtherSide(u64),
    /// The machine's fault: memory was refused.
    NoMemory,
}

impl From<AllocError> for TailFault {
    ghost use Rattle.amo_disk.specs.declared.tail.TailFault.TheVariants.{NoMemory};

    ghost from_gives = { λ _ fault. fault ≡ NoMemory };

    fn from(_error: AllocError) -> TailFault {
        TailFault::NoMemory
    }
}

/// Reads the lines of events with which a journal of this version and side ends. The bytes begin with a line, which has this number, and what is
/// behind the last whole line is a torn one.
pub fn read_tail(
    alloc: Global,
    version: Version,
    side: End,
    first: u64,
    text: &[u8],
) -> Result<Tail, TailFault>
    ensures tail { IfOk result (IsTail version side first text.now) }
    ensures fault { IfErr result (Faults version side first text.now) }
{
    let mut last = Last {
        next: first,
        returns: Returns::NONE,
    };
    let mut lines = Lines { version, text };
    while let Some((more, now)) = take_line(alloc, side, lines, last)? {
        lines = more;
        last = now;
    }
    if next_line(lines.text).is_some() || lines.text.len() > LONGEST_LINE {
        return Err(TailFault::Malformed(last.next));
    }
    Ok(Tail {
        next: last.next,
        whole: text.len() - lines.text.len(),
        back: last.returns.streams(),
    })
}

/// Takes the line in front, and answers those behind it, and what is so then. None where no line stands in front.
fn take_line(
    alloc: Global,
    side: End,
    lines: Lines<'_>,
    last: Last,
) -> Result<Option<(Lines<'_>, Last)>, TailFault>
    ensures some { IfOk result (λ taken. IfSome taken (λ t. (t.0.version ≡ lines.entry.version) × TakesFront lines.entry.version side lines.entry.text.now last t.0.text.now t.1)) }
    ensures none { IfOk result (λ taken. IfNone taken (HasNone lines.entry.version lines.entry.text.now)) }
    ensures fault { IfErr result (λ fault. (fault ≡ TailFault.NoMemory) ⊎ FrontFaults lines.entry.version side last.next lines.entry.text.now fault) }
{
    let Some((line, more)) = line_in_front(alloc, lines)? else {
        return Ok(None);
    };
    match last.with(side, &line) {
        Ok(now) => Ok(Some((more, now))),
        Err(fault) => Err(fault),
    }
}

/// What the lines so far tell of the last of them.
#[derive(Clone, Copy)]
struct Last {
    next: u64,
    returns: Returns,
}

impl Last {
    /// What is so with one line more, which has a stream.
    fn with(self, side: End, line: &Numbered) -> Result<Last, TailFault>
        requires { 1 ≤ line.now.event.stream }
        ensures taken { IfOk result (λ new. TakesLine side self new line.now) }
        ensures fault { IfErr result (LineFaults side self.next line.now) }
    {
        if line.number != self.next {
            return Err(TailFault::Gap(self.next));
        }
        if line.event.side != side {
            return Err(TailFault::OtherSide(self.next));
        }
        match self.next.checked_add(1) {
            Some(next) => Ok(Last {
                next,
                returns: self.returns.after(&line.event),
            }),
            None => Err(TailFault::Malformed(self.next)),
        }
    }
}
