//! Where bytes are written.
ghost use Rattle.std.specs.Prelude.{◌≡◌, ◌+◌, ◌<◌, ◌≤◌, length, take, Ok, IfOk, IfSome, IfNone, OnOk, OnErr};
ghost use Rattle.std.specs.Io.KnownBytes.{Appends, Keeps};
ghost use Rattle.amo_text.specs.Sink.{AppendsFront, Refused, IsRefusal, RefusedAt};

use crate::{Device, Failures};
use std::io;
use std::marker::Model;
use std::sync::ledger::{Blank, Ledger};
use thiserror::Error;

/// A call of a sink failed: the device's fault. The call appended nothing.
#[derive(Clone, Copy, Debug, PartialEq, Eq, Error)]
#[error("a write failed")]
pub struct SinkFault;

/// A place that takes bytes at its end, as a file or a buffer.
pub trait Sink {
    ghost use Rattle.std.specs.Prelude.{ℕ, List, Option};

    /// How many calls have failed.
    ghost failures: { Self → ℕ };

    /// What was written so far, where the sink tells it.
    ghost written: { Self → Option (List ℕ) };

    /// That a call with these bytes was refused: what the sink stands on was called, and took none of them.
    ghost refused: { Self → List ℕ → Self → Type 0 };

    /// Appends the first `n` of the bytes and answers `n`, which is 1 at least where there are any.
    ///
    /// A call that fails appends nothing, and is counted once. It fails by an answer of what the sink stands on.
    fn write(&mut self, bytes: &[u8]) -> Result<usize, SinkFault>
        ensures count { IfOk result (λ n. (n ≤ length bytes.now) × (0 < length bytes.now → 0 < n)) }
        ensures ok { IfOk result (λ n. Appends (written self.old) (written self.new) (take n bytes.now)) }
        ensures calm { OnOk result (failures self.new ≡ failures self.old) }
        ensures fault { OnErr result (Keeps (written self.old) (written self.new)) }
        ensures failed { OnErr result (failures self.new ≡ failures self.old + 1) }
        ensures refused { OnErr result (refused self.old bytes.now self.new) };
}

/// Writes all the bytes, in as many calls as the sink needs.
///
/// Where one of them fails, it is the last, and a beginning of the bytes was appended. That one was handed what is behind it.
pub fn write_all<W: Sink>(sink: &mut W, bytes: &[u8]) -> Result<(), SinkFault>
    ensures ok { OnOk result (Appends (W.written sink.old) (W.written sink.new) bytes.now) }
    ensures calm { OnOk result (W.failures sink.new ≡ W.failures sink.old) }
    ensures fault { OnErr result (AppendsFront (W.written sink.old) (W.written sink.new) bytes.now) }
    ensures failed { OnErr result (W.failures sink.new ≡ W.failures sink.old + 1) }
    ensures refused { OnErr result (RefusedAt W.refused W.written sink.old bytes.now sink.new) }
{
    let mut done = 0;
    while done < bytes.len() {
        done += sink.write(&bytes[done..])?;
    }
    Ok(())
}

/// A sink over any device, as a writer, seen by contracts as that writer and how many calls have failed.
///
/// A write of no bytes is a failure where there were bytes to write.
/// So is an interrupted write. It is not tried again, since that need never end.
#[derive(Drop)]
pub struct Out<W, L: Ledger> {
    writer: W,
    failures: Failures<L>,
}

impl<W, L: Ledger> Model for Out<W, L> {
    ghost use Rattle.amo_text.specs.Sink.{OutState};

    ghost Value = { OutState W };

    ghost view = { λ o. record { writer = o.writer; failures = o.failures } };
}

impl<W, L: Ledger> Out<W, L> {
    /// A sink over this writer, no call of which has failed.
    ///
    /// The blank becomes the ledger in which contracts count failures. It takes no bytes.
    pub fn new(writer: W, blank: Blank) -> Out<W, L>
        requires name { blank.name ≡ L.name }
        requires parts { blank.parts ≡ L.parts }
        requires some { 0 < L.parts }
        ensures writer { result.writer ≡ writer }
        ensures calm { result.failures ≡ 0 }
    {
        Out {
            writer,
            failures: Failures::new(blank),
        }
    }

    /// The writer, as it was left.
    pub fn into_inner(self) -> W
        ensures { result ≡ self.writer }
    {
        self.writer
    }
}

impl<D: Device, L: Ledger> Sink for Out<D, L> {
    ghost failures = { λ o. o.failures };

    ghost written = { λ o. D.contents o.writer };

    ghost refused = { λ old bytes new. Refused D.answers old.writer bytes new.writer };

    fn write(&mut self, bytes: &[u8]) -> Result<usize, SinkFault> {
        match taken(self.writer.offer(bytes), bytes) {
            Some(count) => Ok(count),
            None => {
                self.failures.count();
                Err(SinkFault)
            }
        }
    }
}

/// How many of the bytes a writer took, as it answers; none where it failed, or took nothing of some bytes.
fn taken(answer: io::Result<usize>, bytes: &[u8]) -> Option<usize>
    ensures some { IfSome result (λ n. (answer ≡ Ok n) × (0 < length bytes.now → 0 < n)) }
    ensures none { IfNone result (IsRefusal answer bytes.now) }
{
    match answer {
        Ok(count) if count > 0 || bytes.is_empty() => Some(count),
        _ => None,
    }
}
