//! The kinds of modes.

/// The kind of a mode, of a sender or of a receiver.
#[derive(Clone, Copy, Debug, PartialEq, Eq)]
pub enum Mode {
    /// A sender at rest.
    Quiet,
    /// A sender that has asked for an identifier.
    NeedId,
    /// A sender that sends its message.
    Send,
    /// A receiver at rest.
    Idle,
    /// A receiver that has accepted a needuid, under an identifier.
    Accept,
    /// A receiver that holds a message for its client.
    Rcvd,
    /// A receiver whose client has the message.
    Ack,
    /// Either, while its host is down.
    Down,
}
