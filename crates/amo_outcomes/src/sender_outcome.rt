//! Outcomes that a sender's own events tell.

/// What a sender's own events tell of a put.
#[derive(Clone, Copy, Debug, PartialEq, Eq)]
pub enum SenderOutcome {
    /// It was got: an ack said so.
    Got,
    /// It was not got, and never will be: a crash forgot it before it was sent. It may be put again.
    Gone,
    /// It waits, or the sender asks for an identifier for it: it may still be got.
    Open,
    /// It was sent, and these events do not tell whether it was got.
    Unknown {
        /// What became of it is final all the same: it was got, or never will be.
        settled: bool,
    },
}
