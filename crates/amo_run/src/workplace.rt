//! What the threads at one book share.
use crate::Progress;
use crate::roster::Roster;
use amo_book::Book;
use amo_journal::Version;

/// A book at which threads are at work, whose its passes are, the version of journals in which each of their events has a line, and where they
/// count them.
#[derive(Clone, Copy)]
pub struct Workplace<'a> {
    pub roster: Roster,
    pub version: Version,
    pub book: &'a Book,
    pub progress: &'a Progress,
}
