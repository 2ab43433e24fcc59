//! What happened of late, for those who follow.
ghost use Rattle.std.specs.Prelude.{◌≡◌, OnOk};

use crate::responder::Responder;
use amo_door::{Happening, push_event};
use amo_live::{Lineage, LiveFault};
use amo_net::Link;
use amo_text::Sink;
use std::alloc::{AllocError, AllocFailed, Global};
use std::collections::VecDeque;

/// How many events are kept for those who come again.
const MOST_KEPT: usize = 1024;

/// Something that happened, as it is told.
#[derive(Drop)]
struct Piece {
    /// The number of its line in the journal, if it has one.
    line: Option<u64>,
    text: Vec<u8>,
}

/// What happened of late, the oldest first. Each piece has a number, from 0 on.
#[derive(Drop)]
pub(crate) struct News {
    alloc: Global,
    pieces: VecDeque<Piece>,
    /// The number of the first of them.
    first: u64,
}

impl News {
    /// Nothing happened yet.
    pub(crate) fn new(alloc: Global) -> News {
        News {
            alloc,
            pieces: VecDeque::new(alloc),
            first: 0,
        }
    }

    /// This happened, by the line of this number if it has one. Where too much is kept, the oldest goes.
    pub(crate) fn add(
        &mut self,
        line: Option<u64>,
        happening: &Happening<'_>,
    ) -> Result<(), AllocError> {
        let mut text = Vec::new(self.alloc);
        push_event(&mut text, line, happening)?;
        if self.pieces.len() >= MOST_KEPT {
            let _ = self.pieces.pop_front();
            self.first = self.first.saturating_add(1);
        }
        match self.pieces.push_back(Piece { line, text }) {
            Ok(()) => Ok(()),
            Err(AllocFailed { .. }) => Err(AllocError),
        }
    }

    /// The number of what happens next.
    pub(crate) fn next(&self) -> u64 {
        self.first.saturating_add(self.pieces.len() as u64)
    }

    /// The text of what has this number, if it is kept.
    pub(crate) fn text(&self, number: u64) -> Option<&[u8]> {
        let place = number.checked_sub(self.first)?;
        let piece = self.pieces.get(place as usize)?;
        Some(piece.text.as_slice())
    }

    /// Whether all is kept that happened from this number on.
    pub(crate) fn keeps(&self, number: u64) -> bool {
        self.first <= number
    }

    /// The number of the first that stands behind a line of the journal. Where that is not kept any more, it is the first that is.
    pub(crate) fn behind(&self, line: u64) -> u64 {
        let mut number = self.first;
        for piece in &self.pieces {
            match piece.line {
                Some(other) if other > line => return number,
                _ => number = number.saturating_add(1),
            }
        }
        number
    }
}

impl<L: Link, S: Sink, W: Lineage> Responder<L, S, W> {
    /// Tells those who follow what happened by the line of this number.
    pub(crate) fn tell_news(
        &mut self,
        line: u64,
        happening: &Happening<'_>,
    ) -> Result<(), LiveFault>
        ensures { self.new ≡ record self.old { news = self.new.news } }
    {
        self.news.add(Some(line), happening)?;
        Ok(())
    }
}
