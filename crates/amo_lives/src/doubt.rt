//! Which lines of a journal a loss of power makes doubtful.
ghost use Rattle.std.specs.Prelude.{◌≡◌, ◌++◌, IfOk, OnOk};
ghost use Rattle.amo_lives.specs.Doubt.{doubt_before, doubts, is_cut, same_start};

use crate::{BootId, Life, Lives};
use std::alloc::{AllocError, Global};

/// Lines of a journal, by their numbers: from the first one up to the end, which is left out.
#[derive(Clone, Copy, PartialEq, Eq)]
pub struct Span {
    /// The number of the first one.
    pub first: u64,
    /// The number behind the last one.
    pub end: u64,
}

impl Lives {
    /// The lines of each life of which last ones may be lost, though their packets left: a life that did not put its journal on the disk,
    /// where the machine has started again since, or may have. What it was at the next life tells that, and for the last life what it is now.
    ///
    /// A life begins with its first word. What its host noted before stands in front of it, so the lines of the life before are with them.
    pub fn doubts(&self, alloc: Global, now: &Option<BootId>) -> Result<Vec<Span>, AllocError>
        ensures { IfOk result (λ spans. spans.items ≡ doubts self.now.lives now.now) }
    {
        let lives = self.lives();
        let mut spans = Vec::new(alloc);
        let mut since = 0;
        for place in 0..lives.len() {
            push_doubt(&mut spans, since, &lives[place], lives.get(place + 1), now)?;
            since = lives[place].first_line;
        }
        Ok(spans)
    }
}

/// Adds the lines of a life, from this one on, which has this life behind it, where last ones may be lost.
fn push_doubt(
    spans: &mut Vec<Span>,
    since: u64,
    life: &Life,
    next: Option<&Life>,
    now: &Option<BootId>,
) -> Result<(), AllocError>
    ensures { OnOk result (spans.new.items ≡ spans.old.items ++ doubt_before since life.now next.entry now.now) }
{
    let (cut, end) = match next {
        Some(next) => (is_cut(life, &next.boot), next.first_line),
        None => (is_cut(life, now), u64::MAX),
    };
    if cut {
        spans.push(Span { first: since, end })?;
    }
    Ok(())
}

/// Whether last lines of a life may be lost, where the machine's start was this one later.
fn is_cut(life: &Life, later: &Option<BootId>) -> bool
    ensures { result ≡ is_cut life.now later.now }
{
    !life.sync && !same_start(&life.boot, later)
}

/// Whether both are known to be of one start of the machine.
fn same_start(one: &Option<BootId>, other: &Option<BootId>) -> bool
    ensures { result ≡ same_start one.now other.now }
{
    match (one, other) {
        (Some(one), Some(other)) => one.text() == other.text(),
        _ => false,
    }
}
