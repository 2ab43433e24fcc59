//! What is gathered before it is handed to the system.
ghost use Rattle.std.specs.Prelude.{◌≡◌, ◌+◌, ◌<◌, [], length, OnOk, OnErr};
ghost use Rattle.std.specs.Io.KnownBytes.{Appends, Keeps, append_known};
ghost use Rattle.amo_text.specs.Sink.{RefusedAt};
ghost use Rattle.amo_disk.specs.Gathered.{GatheredRefused};

use crate::Durable;
use amo_text::{Sink, SinkFault};
use std::alloc::Global;
use std::marker::Model;

/// How many bytes are gathered at most, unless one call brings more.
const MOST_GATHERED: usize = 65_536;

/// A sink that gathers what it is handed, and hands it on together: a call of the system costs more than the line of an event. What was not handed on
/// is lost where the process dies. Contracts see the sink below, and the bytes that wait.
#[derive(Drop)]
pub struct Gathered<S> {
    sink: S,
    room: Vec<u8>,
}

impl<S> Model for Gathered<S> {
    ghost use Rattle.amo_disk.specs.Gathered.{GatheredState};

    ghost Value = { GatheredState S };

    ghost view = { λ g. record { sink = g.sink; waiting = g.room.items } };
}

impl<S> Gathered<S> {
    /// Nothing waits in front of this sink.
    pub fn new(alloc: Global, sink: S) -> Gathered<S>
        ensures { result ≡ record { sink = sink; waiting = [] } }
    {
        Gathered {
            sink,
            room: Vec::new(alloc),
        }
    }
}

impl<S: Sink> Gathered<S> {
    /// Hands on what waits. Where a call of the sink fails, it is the last, and what it was not handed waits on.
    fn hand_on(&mut self) -> Result<(), SinkFault>
        ensures kept { Keeps (append_known (S.written self.old.sink) self.old.waiting) (append_known (S.written self.new.sink) self.new.waiting) }
        ensures all { OnOk result (self.new.waiting ≡ []) }
        ensures handed { OnOk result (Appends (S.written self.old.sink) (S.written self.new.sink) self.old.waiting) }
        ensures calm { OnOk result (S.failures self.new.sink ≡ S.failures self.old.sink) }
        ensures failed { OnErr result (S.failures self.new.sink ≡ S.failures self.old.sink + 1) }
        ensures some { OnErr result (0 < length self.old.waiting) }
        ensures refused { OnErr result (RefusedAt S.refused S.written self.old.sink self.old.waiting self.new.sink) }
    {
        let mut done = 0;
        while done < self.room.len() {
            match self.sink.write(&self.room.as_slice()[done..]) {
                Ok(count) => done += count,
                Err(fault) => {
                    self.room.drain(..done);
                    return Err(fault);
                }
            }
        }
        self.room.clear();
        Ok(())
    }
}

impl<S: Sink> Sink for Gathered<S> {
    ghost failures = { λ g. S.failures g.sink };

    ghost written = { λ g. append_known (S.written g.sink) g.waiting };

    ghost refused = { λ old bytes new. GatheredRefused S.refused S.written old bytes new };

    fn write(&mut self, bytes: &[u8]) -> Result<usize, SinkFault> {
        if MOST_GATHERED < self.room.len().saturating_add(bytes.len()) {
            self.hand_on()?;
        }
        match self.room.extend_from_slice(bytes) {
            Ok(()) => Ok(bytes.len()),
            // Without memory to gather more, each call is the sink's.
            Err(_) => {
                self.hand_on()?;
                self.sink.write(bytes)
            }
        }
    }
}

impl<S: Durable> Durable for Gathered<S> {
    ghost flushed = { λ g. S.flushed g.sink };

    ghost on_disk = { λ g. S.on_disk g.sink };

    fn flush(&mut self) -> Result<(), SinkFault> {
        self.hand_on()?;
        self.sink.flush()
    }

    fn sync(&mut self) -> Result<(), SinkFault> {
        self.hand_on()?;
        self.sink.sync()
    }

    fn pieces_begun(&self) -> u64 {
        self.sink.pieces_begun()
    }
}
