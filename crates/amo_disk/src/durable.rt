//! Sinks that can be put on their disk.
ghost use Rattle.std.specs.Prelude.{◌≡◌, ◌+◌, OnOk, OnErr};

use crate::{Cause, Disk, Syncs};
use amo_text::{Sink, SinkFault};
use std::sync::ledger::Ledger;

/// A sink that can be put on its disk.
pub trait Durable: Sink {
    ghost use Rattle.std.specs.Prelude.{ℕ, List, Option};
    ghost use Rattle.std.specs.Io.KnownBytes.{Keeps};

    /// What of it the death of this process leaves, where the sink tells that.
    ghost flushed: { Self → Option (List ℕ) };

    /// What of it a loss of power leaves, where the sink tells that.
    ghost on_disk: { Self → Option (List ℕ) };

    /// Hands what was written to the system, all of it.
    ///
    /// A call that fails is counted once.
    fn flush(&mut self) -> Result<(), SinkFault>
        ensures kept { Keeps (Self.written self.old) (Self.written self.new) }
        ensures flushed { OnOk result (flushed self.new ≡ Self.written self.new) }
        ensures calm { OnOk result (Self.failures self.new ≡ Self.failures self.old) }
        ensures failed { OnErr result (Self.failures self.new ≡ Self.failures self.old + 1) };

    /// Puts what was written on the disk, all of it.
    ///
    /// A call that fails is counted once, and says nothing of what is there.
    fn sync(&mut self) -> Result<(), SinkFault>
        ensures kept { Keeps (Self.written self.old) (Self.written self.new) }
        ensures flushed { OnOk result (flushed self.new ≡ Self.written self.new) }
        ensures on_disk { OnOk result (on_disk self.new ≡ Self.written self.new) }
        ensures calm { OnOk result (Self.failures self.new ≡ Self.failures self.old) }
        ensures failed { OnErr result (Self.failures self.new ≡ Self.failures self.old + 1) };

    /// How many pieces of a journal it has begun, if it has pieces. It is a figure, of which no contract speaks.
    fn pieces_begun(&self) -> u64;
}

impl<W: Syncs, L: Ledger> Durable for Disk<'_, W, L> {
    ghost flushed = { λ d. W.contents d.writer };

    ghost on_disk = { λ d. W.on_disk d.writer };

    /// Each write was a call of the system.
    fn flush(&mut self) -> Result<(), SinkFault> {
        Ok(())
    }

    fn sync(&mut self) -> Result<(), SinkFault> {
        match self.writer.put_on_disk() {
            Ok(()) => Ok(()),
            Err(error) => Err(self.failed(Cause::from(error))),
        }
    }

    fn pieces_begun(&self) -> u64 {
        self.writer.pieces_begun()
    }
}
