//! Keeps, while a sender is at work, from which line of its journal on its next start is to tell.
ghost use Rattle.std.specs.Prelude.{◌≡◌, ◌++◌, IfOk};
ghost use Rattle.amo_live.specs.Host.{IsNoted, open_text_of};
ghost use Rattle.amo_live.specs.Service.{doubtful};
ghost use Rattle.amo_offline.specs.ToldFile.{listed, opening_line};

use crate::stopping::{Identity, identity_in};
use amo_desk::{Keeper, ServeFault};
use amo_live::{Aside, Lineage, Plan, Service};
use amo_net::Link;
use amo_object::End;
use amo_offline::{OfflineFault, Retold, numbered_line, push_told, write_told};
use amo_text::Sink;
use std::alloc::{AllocError, Global};
use std::fs::{self, File};
use std::rt::Files;

/// Writes the file beside a sender's journal anew once a piece of the journal was full and another one has a line. So a start reads that one alone, and the
/// list of those lines in front of it that matter.
#[derive(Drop)]
pub(crate) struct Marker<'r, R> {
    rt: &'r R,
    journal: &'r str,
    piece: u64,
    /// The streams in doubt that the host has not.
    beyond: Vec<u32>,
    /// How many bytes the host has to have written, and more, for another piece; none at a host that tells nothing at its start.
    next: Option<u64>,
    /// How many it had written when it was looked at last.
    written: u64,
    /// Which file the piece is that was there then.
    newest: Option<Identity>,
}

impl<'r, R: AllocGlobal + Files<File = File>> Marker<'r, R> {
    /// That of the host with this journal, which is open, and to which nothing was written. Its start told this; where it did not tell all, nothing is
    /// written, so that the next one does.
    pub(crate) fn new(
        rt: &'r R,
        journal: &'r str,
        plan: &Plan,
        retold: &Retold,
    ) -> Result<Marker<'r, R>, AllocError> {
        let mut beyond = Vec::new(rt.alloc());
        for stream in retold.in_doubt.as_slice() {
            if *stream > plan.setup.streams {
                beyond.push(*stream)?;
            }
        }
        Ok(Marker {
            rt,
            journal,
            piece: plan.piece,
            beyond,
            next: match plan.setup.side {
                End::Sender if retold.is_whole => {
                    Some(plan.piece.saturating_sub(length_of(rt, journal)))
                }
                End::Sender | End::Receiver => None,
            },
            written: 0,
            newest: identity_of(rt, journal),
        })
    }

    /// Whether another piece has begun since it was looked at last, now that the host has written so many bytes. The system is asked only where a piece may
    /// be full: one that begins behind what was written then has as many bytes as a piece before the next one does.
    fn has_begun(&mut self, bytes: u64) -> bool {
        let before = self.written;
        self.written = bytes;
        match self.next {
            Some(next) if next < bytes => {}
            _ => return false,
        }
        let newest = identity_of(self.rt, self.journal);
        if newest.is_none() || newest == self.newest {
            return false;
        }
        self.newest = newest;
        self.next = Some(before.saturating_add(self.piece));
        true
    }
}

/// Which file has this path, if one has it.
fn identity_of<R: Files<File = File>>(rt: &R, path: &str) -> Option<Identity> {
    match fs::metadata(rt, path) {
        Ok(found) => Some(identity_in(&found)),
        Err(_) => None,
    }
}

/// How many bytes the file of this path has.
fn length_of<R: Files<File = File>>(rt: &R, path: &str) -> u64 {
    match fs::metadata(rt, path) {
        Ok(found) => found.len(),
        Err(_) => 0,
    }
}

impl<L: Link, S: Sink, W: Lineage, R: AllocGlobal + Eprint + Files<File = File>> Keeper<L, S, W>
    for Marker<'_, R> {
    /// Where the file cannot be written, that is told: the host goes on, and its next start reads more. What is still to be shown may settle a stream, and that
    /// is not told before it is.
    fn look(&mut self, service: &Service<L, S, W>) -> Result<(), ServeFault> {
        if !service.shown().is_empty() || !self.has_begun(service.host.journal_bytes()) {
            return Ok(());
        }
        if let Err(failure) = self.mark(service) {
            let _ = Aside::new(self.rt).eprintln(failure);
        }
        Ok(())
    }
}

impl<R: AllocGlobal + Files<File = File>> Marker<'_, R> {
    /// Writes what the file says of a host whose lines are all written down.
    fn mark<L: Link, S: Sink, W: Lineage>(
        &self,
        service: &Service<L, S, W>,
    ) -> Result<(), OfflineFault> {
        let lines = service.host.next_line();
        let Some(last) = numbered_line(self.rt, self.journal, lines.saturating_sub(1))? else {
            return Ok(());
        };
        let text = told_by(self.rt.alloc(), service, self.beyond.as_slice())?;
        write_told(self.rt, self.journal, text, last.as_slice())
    }
}

/// What the file says of a host whose lines are all written down: how many there are, on which streams something is in doubt, those that it has not too, and,
/// as a journal, which lines matter for messages without an answer.
fn told_by<L: Link, S: Sink, W: Lineage>(
    alloc: Global,
    service: &Service<L, S, W>,
    beyond: &[u32],
) -> Result<Vec<u8>, AllocError>
    ensures { IfOk result (λ text. IsNoted S.written service.now.host → text.items ≡ opening_line service.now.host.journal.next (doubtful service.now ++ beyond.now)
        ++ listed service.now.host.journal.version (open_text_of service.now.host)) }
{
    let mut text = Vec::new(alloc);
    let mut in_doubt = service.streams_in_doubt()?;
    in_doubt.extend_from_slice(beyond)?;
    push_told(&mut text, service.host.next_line(), in_doubt.as_slice())?;
    let mut lines = Vec::new(alloc);
    service.unanswered_lines(&mut lines)?;
    if !lines.is_empty() {
        text.extend_from_slice(service.host.version().heading())?;
        text.extend_from_slice(lines.as_slice())?;
    }
    Ok(text)
}
