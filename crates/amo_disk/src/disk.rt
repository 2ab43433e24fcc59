//! What lines are appended to.
ghost use Rattle.std.specs.Prelude.{◌≡◌, ◌+◌, ◌<◌};
ghost use Rattle.std.specs.Io.{WritesAtMost};
ghost use Rattle.std.specs.Io.KnownBytes.{WriteAppends};
ghost use Rattle.amo_text.specs.Sink.{Refused};
ghost use Rattle.amo_disk.specs.Disk.{AnswersPatiently};

use crate::Cause;
use amo_text::{Device, Failures, Sink, SinkFault};
use std::cell::Cell;
use std::io;
use std::io::ErrorKind;
use std::marker::Model;
use std::sync::ledger::{Blank, Ledger};

/// How often a write that signals interrupt is tried again.
const MOST_INTERRUPTIONS: u32 = 1000;

/// What lines are appended to: the pieces of a journal, or any other writer. Why the last of its calls failed stands in a cell of whoever opened it.
/// Contracts see the writer, and how many of its calls have failed.
#[derive(Drop)]
pub struct Disk<'a, W, L: Ledger> {
    pub(crate) writer: W,
    failures: Failures<L>,
    cause: &'a Cell<Option<Cause>>,
}

impl<'a, W, L: Ledger> Model for Disk<'a, W, L> {
    ghost use Rattle.amo_text.specs.Sink.{OutState};

    ghost Value = { OutState W };

    ghost view = { λ d. record { writer = d.writer; failures = d.failures } };
}

impl<'a, W, L: Ledger> Disk<'a, W, L> {
    /// A disk over this writer, no call of which has failed.
    ///
    /// The blank becomes the ledger in which contracts count failures. It takes no bytes.
    pub fn new(writer: W, cause: &'a Cell<Option<Cause>>, blank: Blank) -> Disk<'a, W, L>
        requires name { blank.name ≡ L.name }
        requires parts { blank.parts ≡ L.parts }
        requires some { 0 < L.parts }
        ensures { result ≡ record { writer = writer; failures = 0 } }
    {
        Disk {
            writer,
            failures: Failures::new(blank),
            cause,
        }
    }

    /// Counts a call that failed, and keeps why.
    pub(crate) fn failed(&mut self, cause: Cause) -> SinkFault
        ensures { self.new ≡ record self.old { failures = self.old.failures + 1 } }
    {
        self.failures.count();
        self.cause.set(Some(cause));
        SinkFault
    }
}

impl<D: Device, L: Ledger> Sink for Disk<'_, D, L> {
    ghost failures = { λ d. d.failures };

    ghost written = { λ d. D.contents d.writer };

    ghost refused = { λ old bytes new. Refused (AnswersPatiently D.answers) old.writer bytes new.writer };

    fn write(&mut self, bytes: &[u8]) -> Result<usize, SinkFault> {
        match write_patiently(&mut self.writer, bytes) {
            Ok(count) if count > 0 || bytes.is_empty() => Ok(count),
            Ok(_) => Err(self.failed(Cause::from(io::Error::from(ErrorKind::WriteZero)))),
            Err(error) => Err(self.failed(Cause::from(error))),
        }
    }
}

/// Writes, and tries again where a signal interrupts it.
#[tactic(auto, using(crate::proofs::Writers::kept_so_far, crate::proofs::Writers::kept_on, crate::proofs::Writers::kept_then, crate::proofs::Writers::interrupts_none))]
fn write_patiently<D: Device>(writer: &mut D, bytes: &[u8]) -> io::Result<usize>
    ensures bound { WritesAtMost result bytes.now }
    ensures bytes { WriteAppends (D.contents writer.old) (D.contents writer.new) result bytes.now }
    ensures answers { AnswersPatiently D.answers writer.old bytes.now result writer.new }
{
    'attempts: for _attempt in 0..MOST_INTERRUPTIONS {
        match writer.offer(bytes) {
            Err(error) if error.kind() == ErrorKind::Interrupted => (),
            answer => return answer,
        }
    }
    writer.offer(bytes)
}
