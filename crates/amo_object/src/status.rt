//! What the sender's client may learn of its last message.

/// What is known of the last message put.
#[derive(Clone, Copy, PartialEq, Eq)]
pub enum Status {
    /// It was got, or none was put yet.
    Yes,
    /// A host crashed: it, if one was put, may or may not have been got.
    No,
    /// It still waits in the queue.
    Open,
}
