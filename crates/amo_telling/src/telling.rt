//! What was told of two journals.
use amo_audit::{Judgement, Reach};

/// What was told of two journals.
#[derive(Clone, Copy, PartialEq, Eq)]
pub enum Telling {
    /// What became of each put in as much of both.
    Told(Reach),
    /// Nothing, since this is found of them.
    Nothing(Judgement),
}
