//! Outcomes.

/// What became of a put.
#[derive(Clone, Copy, Debug, PartialEq, Eq)]
pub enum Outcome {
    /// A get answered it.
    Got,
    /// It was not got, and never will be: it may be put again.
    Gone,
    /// It may still be got.
    Open,
}
