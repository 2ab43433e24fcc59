//! What a start tells, before its host is at work.
ghost use Rattle.std.specs.Prelude.{◌≡◌, ◌≤◌, IfOk, IfSome, length};

use crate::clock::{microseconds, milliseconds, started};
use crate::ending::LINGER;
use crate::{Desk, ServeFault};
use std::io::{self, ErrorKind, Read, Write};
use std::rt::Clock;
use std::time::Instant;

/// The output of a sender whose start tells what became of earlier messages. Whoever writes there waits until somebody reads; meanwhile the host hears that it
/// is asked to come to its end, and sees that of its lines. No more is written where it is to end so.
#[derive(Drop)]
pub struct Telling<'a, C, I, O> {
    rt: &'a C,
    desk: &'a mut Desk<I, O>,
    /// How long the host waits at its end, in microseconds, if it was told.
    wait: Option<u64>,
    /// When it began.
    start: Instant,
    /// When something was written last.
    moved: u64,
    /// Since when no line would be taken, if so.
    since: Option<u64>,
    /// How many bytes were not written at the end.
    left: Option<usize>,
    /// The host cannot go on.
    fault: Option<ServeFault>,
}

impl<'a, C: Clock, I: Read, O: Write> Telling<'a, C, I, O> {
    /// That of the clients at this desk. Their host waits so many microseconds at its end, if it was told.
    pub fn new(
        rt: &'a C,
        desk: &'a mut Desk<I, O>,
        wait: Option<u64>,
    ) -> Result<Telling<'a, C, I, O>, ServeFault> {
        Ok(Telling {
            rt,
            desk,
            wait,
            start: started(rt)?,
            moved: 0,
            since: None,
            left: None,
            fault: None,
        })
    }

    /// Whether the host is to end, as not all was read. Refused where it cannot go on.
    pub fn is_over(&self) -> Result<bool, ServeFault> {
        match self.fault {
            Some(fault) => Err(fault),
            None => Ok(self.left.is_some()),
        }
    }

    /// Tells how the host ends, where it does so.
    pub fn tell_end<E: Eprint>(&self, rt: &E) {
        if let Some(bytes) = self.left {
            self.desk.tell_of_rest(rt);
            let _ = eprintln!(rt;
                "amo: {bytes} bytes of what became of earlier messages could not be shown: the next start tells all of it"
            );
        }
    }

    /// Waits until the output takes some of these bytes. Answers how many; none, where the host is to end before.
    fn taken_of(&mut self, bytes: &[u8]) -> Result<Option<usize>, ServeFault>
        ensures most { IfOk result (λ taken. IfSome taken (λ count. count ≤ length bytes.now)) }
        ensures output { self.new.desk.now.output ≡ self.old.desk.now.output }
    {
        'waits: for _wait in 0..u64::MAX {
            let now = microseconds(self.rt, &self.start)?;
            let count = self.desk.shown_now(bytes);
            if count > 0 || bytes.is_empty() {
                self.moved = now;
                return Ok(Some(count));
            }
            self.since = self
                .desk
                .takes_none(true)
                .then_some(self.since.unwrap_or(now));
            let end = self.end();
            if end.is_some_and(|end| end <= now) {
                break;
            }
            self.desk.wait_to_tell(milliseconds(end, now))?;
        }
        Ok(None)
    }

    /// When the host ends at the latest, if it does. Who reads is given a moment at least, and as long as it takes where the host was not told how long it waits
    /// once it is asked, or where its lines are at their end.
    fn end(&self) -> Option<u64> {
        let since = self.since?;
        let is_asked = self.desk.bell.was_rung();
        let limit = match self.wait {
            Some(wait) => wait.max(LINGER),
            None if is_asked => LINGER,
            None => return None,
        };
        let from = if is_asked && self.wait.is_some() {
            since
        } else {
            since.max(self.moved)
        };
        Some(from.saturating_add(limit))
    }
}

impl<C: Clock, I: Read, O: Write> Write for Telling<'_, C, I, O> {
    ghost contents = { λ t. O.contents t.desk.now.output };

    fn write(&mut self, buf: &[u8]) -> io::Result<usize> {
        match self.taken_of(buf) {
            Ok(Some(count)) => self.desk.output.write(&buf[..count]),
            Ok(None) => {
                self.left = Some(buf.len());
                Err(io::Error::from(ErrorKind::TimedOut))
            }
            Err(fault) => {
                self.fault = Some(fault);
                Err(io::Error::from(ErrorKind::Other))
            }
        }
    }

    fn flush(&mut self) -> io::Result<()> {
        self.desk.output.flush()
    }
}
