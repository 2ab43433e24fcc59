//! What a host with a door reads of its own journal, for those who ask.
ghost use Rattle.std.specs.Prelude.{IfOk, List, ◌<◌, ◌^◌, length};
ghost use Rattle.amo_journal.specs.declared.numbered.Numbered.{Numbered};
ghost use Rattle.amo_archive.specs.Archive.{BeginsToRead, HaveBeenRead, NamesLife, ReadsOn, TellsOutcome};

use crate::gets::read_gets;
use crate::past::Past;
use crate::records::Records;
use amo_door::{Answer, Refusal, Word};
use amo_lives::{Life, Span};
use amo_world::STREAMS;
use std::alloc::{AllocError, Global};
use std::fs::File;
use std::rt::Files;

/// The journal of a host, and what was read of it about a sender's earlier lives.
#[derive(Drop)]
pub struct Archive {
    alloc: Global,
    records: Records,
    past: Past,
}

impl Archive {
    /// The journal of this path, of a host with these lives, of which these lines are doubtful. Nothing is read before it is asked for.
    pub fn new(
        alloc: Global,
        path: &str,
        lives: Vec<Life>,
        doubts: Vec<Span>,
    ) -> Result<Archive, AllocError>
        ensures { IfOk result (BeginsToRead path.now lives.items doubts.items) }
    {
        Ok(Archive {
            alloc,
            records: Records::new(alloc, path)?,
            past: Past::new(alloc, lives, doubts)?,
        })
    }

    /// What is answered to who asks which messages of a stream were got, behind this line if one is given.
    pub fn tell_got<R: Files<File = File>>(
        &mut self,
        rt: &R,
        stream: u32,
        after: Option<u64>,
    ) -> Result<Answer, AllocError> {
        let first = match after {
            Some(after) => after.saturating_add(1),
            None => 0,
        };
        let found = match self.records.lines_from(rt, first) {
            Ok(found) => found,
            Err(refusal) => return Answer::refusal(self.alloc, refusal),
        };
        let (mut page, rest) = read_gets(self.alloc, found.lines, stream, after)?;
        page.more = !rest.text.is_empty() || !found.is_end;
        if page.from.is_none() {
            if page.more {
                return Answer::refusal(self.alloc, Refusal::Journal);
            }
            page.next = after;
        }
        Answer::got(self.alloc, stream, &page)
    }

    /// Reads on what the journal, which has so many lines, tells of earlier lives. Answers whether all was read.
    pub fn read_on<R: Files<File = File>>(&mut self, rt: &R, lines: u64) -> Result<bool, Refusal>
        ensures { IfOk result (λ all. (past : List Numbered) → HaveBeenRead self.old past → ReadsOn self.new lines past all) }
    {
        let next = self.past.next();
        if next >= lines {
            return Ok(true);
        }
        let found = self.records.lines_from(rt, next)?;
        let _rest = self.past.read(self.alloc, found.lines)?;
        if self.past.next() == next {
            return Err(Refusal::Journal);
        }
        Ok(self.past.next() >= lines)
    }

    /// Whether the host knows the life of this word. Nothing is read to tell that.
    pub fn knows(&self, life: &Word) -> bool
        ensures { NamesLife life.now self.now.past.lives.items result }
    {
        self.past.life_of(life).is_some()
    }

    /// What is answered to who asks what became of a message of an earlier life, by the lines that were read.
    pub fn tell_fate(&self, stream: u32, number: u64, life: &Word) -> Result<Answer, AllocError>
        ensures { IfOk result (λ answer. (lines : List Numbered) → length lines < 2 ^ 64 → HaveBeenRead self.now lines → TellsOutcome self.now lines life.now stream number answer) }
    {
        if stream < 1 || STREAMS < stream {
            return Answer::refusal(self.alloc, Refusal::UnknownLife);
        }
        match self.past.life_of(life) {
            Some(place) => {
                let fate = self.past.fate(place, stream, number);
                Answer::outcome(self.alloc, life, stream, number, fate)
            }
            None => Answer::refusal(self.alloc, Refusal::UnknownLife),
        }
    }
}
