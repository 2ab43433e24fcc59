//! How the handshakes of each stream ended, by the numbers of the messages that travelled in them.
ghost use Rattle.std.specs.Prelude.{◌≡◌, ◌↔◌, ◌≤◌, ◌<◌, ◌^◌, nat_le, List, [], ◌∷◌, find, length, option_copied, IfOk, IsTrue, OnOk};
ghost use Rattle.amo_archive.specs.Handshakes.{Ending, Endings, Keeps, KeepsAll, KnowsGot, messages_of, streams_in, was_got, with_end};
ghost use Rattle.amo_archive.specs.declared.handshakes.Run.{Run};

use crate::lists::push;
use std::alloc::{AllocError, Global};

/// Messages of a stream, one behind the other, whose handshakes ended alike.
#[derive(Clone, Copy)]
struct Run {
    /// The number of the last of them.
    last: u64,
    /// They were got; or each was got or lost.
    was_got: bool,
}

/// How the handshakes of a stream ended.
#[derive(Drop)]
struct Ended {
    /// The first messages first. There are few: one more where messages were lost, by a crash of the other host.
    runs: Vec<Run>,
}

impl Ended {
    /// None has.
    fn new(alloc: Global) -> Ended
        ensures { Keeps result.runs.items [] }
    {
        Ended {
            runs: Vec::new(alloc),
        }
    }

    /// The handshake ended in which the next so many messages travelled.
    fn end(&mut self, messages: u64, was_got: bool) -> Result<(), AllocError>
        ensures { OnOk result ((past : List Ending) → Keeps self.old.runs.items past → Keeps self.new.runs.items ((messages, was_got) ∷ past)) }
    {
        let Some(run) = self.runs.pop() else {
            let last = messages;
            return push(&mut self.runs, Run { last, was_got });
        };
        let last = run.last.saturating_add(messages);
        if run.was_got == was_got {
            return push(&mut self.runs, Run { last, was_got });
        }
        push(&mut self.runs, run)?;
        push(&mut self.runs, Run { last, was_got })
    }

    /// Whether the message of this number was got. Where its handshake has not ended it is not known to be.
    fn has_got(&self, number: u64) -> bool
        ensures { 1 ≤ number → (past : List Ending) → messages_of past < 2 ^ 64 → Keeps self.now.runs.items past → result ≡ was_got number past }
    {
        match run_of(self.runs.as_slice(), number) {
            Some(run) => run.was_got,
            None => false,
        }
    }
}

/// The first run that ends with the message of this number, or with a later one.
fn run_of(runs: &[Run], number: u64) -> Option<&Run>
    ensures { option_copied result ≡ find (λ (run : Run). nat_le number run.last) runs.now }
{
    runs.iter().find(|run| reaches(run, number))
}

/// Whether a run ends with the message of this number, or with a later one.
fn reaches(run: &Run, number: u64) -> bool
    ensures { result ≡ nat_le number run.now.last }
{
    number <= run.last
}

/// How the handshakes of each stream ended in this life of the host. On a stream they end in the order in which their messages were put.
#[derive(Drop)]
pub struct Handshakes {
    /// The first stream first.
    streams: Vec<Ended>,
}

impl Handshakes {
    /// None has ended on so many streams.
    pub fn new(alloc: Global, streams: u32) -> Result<Handshakes, AllocError>
        ensures none { IfOk result (λ handshakes. KeepsAll handshakes (λ stream. [])) }
        ensures streams { IfOk result (λ handshakes. streams_in handshakes ≡ streams) }
    {
        let mut ended = Vec::new(alloc);
        for _stream in 0..streams {
            push(&mut ended, Ended::new(alloc))?;
        }
        Ok(Handshakes { streams: ended })
    }

    /// The handshake ended in which the next so many messages of a stream travelled.
    pub fn end(&mut self, stream: u32, messages: u64, was_got: bool) -> Result<(), AllocError>
        ensures ended { OnOk result ((ends : Endings) → KeepsAll self.old ends → KeepsAll self.new (with_end stream (messages, was_got) ends)) }
        ensures streams { streams_in self.new ≡ streams_in self.old }
    {
        if !self.has(stream) {
            return Ok(());
        }
        self.streams[stream as usize - 1].end(messages, was_got)
    }

    /// Whether the message of this number, counted from 1, was got, as the end of its handshake says. Where that has not ended it is not known to be.
    pub fn has_got(&self, stream: u32, number: u64) -> bool
        ensures { KnowsGot self.now stream number result }
    {
        self.has(stream) && self.streams[stream as usize - 1].has_got(number)
    }

    /// Whether it has this stream.
    fn has(&self, stream: u32) -> bool
        ensures { IsTrue result ↔ ((1 ≤ stream) × (stream ≤ length self.now.streams.items)) }
    {
        1 <= stream && stream as usize <= self.streams.len()
    }
}
