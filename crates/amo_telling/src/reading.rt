//! How far a receiver's journal was read.

/// How far a receiver's journal was read. Lines count from 1.
#[derive(Clone, Copy, PartialEq, Eq)]
pub enum Reading {
    /// To its end, but for a last line that has no end yet.
    Whole,
    /// This line is malformed, and all in front of it read.
    Malformed(usize),
    /// This line's number is not how many events are before it, as those in front of it have.
    Gap(usize),
    /// To its end, and each event is one of a sender.
    OfSender,
    /// As far as lines are counted, and more are left.
    TooLong,
}
