//! Why the calls of a book do not do what was asked.
ghost use Rattle.std.specs.Prelude.{◌≡◌};
ghost use Rattle.amo_book.specs.Fault.{open_code, put_code, put_message, get_code, ack_code, drive_code};

use amo_packet::Message;
use thiserror::Error;

/// Why a book was not opened.
#[derive(Clone, Copy, Debug, PartialEq, Eq, Error)]
pub enum OpenFault {
    /// The caller asked for no side, for one twice, for a stream that is not of 1 to 256, or for fewer than 2 or more
    /// than 64 passes.
    #[error("the sides or the passes are out of their limits")]
    Limits,
    /// Memory was refused. The caller may try again later.
    #[error("out of memory")]
    NoMemory,
}

impl OpenFault {
    /// The number of this fault.
    pub fn code(&self) -> u8
        ensures { result ≡ open_code self.now }
    {
        match self {
            OpenFault::NoMemory => 9,
            OpenFault::Limits => 31,
        }
    }
}

/// Why a put did not take its message, which comes back.
#[derive(Debug, Drop, Error)]
pub enum PutFault {
    /// As many messages wait as may. This is an event, at this position.
    #[error("the waiting list is full")]
    Full(u64, Message),
    /// The sender's host is down. This is an event, at this position.
    #[error("the sender is down")]
    Down(u64, Message),
    /// Another call was at work at the sender. Nothing changed; the caller may try again.
    #[error("the sender is busy")]
    Busy(Message),
    /// The book has no sender of this stream. Nothing changed.
    #[error("there is no such stream")]
    NoStream(Message),
}

impl PutFault {
    /// The number of this fault.
    pub fn code(&self) -> u8
        ensures { result ≡ put_code self.now }
    {
        match self {
            PutFault::Full(_, _) => 41,
            PutFault::Down(_, _) => 42,
            PutFault::Busy(_) => 43,
            PutFault::NoStream(_) => 44,
        }
    }

    /// The message that was not taken.
    pub fn into_message(self) -> Message
        ensures { result ≡ put_message self }
    {
        match self {
            PutFault::Full(_, message) => message,
            PutFault::Down(_, message) => message,
            PutFault::Busy(message) => message,
            PutFault::NoStream(message) => message,
        }
    }
}

/// Why a get has no message.
#[derive(Clone, Copy, Debug, PartialEq, Eq, Error)]
pub enum GetFault {
    /// No message has come yet. This is an event, at this position.
    #[error("no message has come")]
    Nothing(u64),
    /// The receiver's host is down. This is an event, at this position.
    #[error("the receiver is down")]
    Down(u64),
    /// Another call was at work at the receiver. Nothing changed; the caller may try again.
    #[error("the receiver is busy")]
    Busy,
    /// The book has no receiver of this stream. Nothing changed.
    #[error("there is no such stream")]
    NoStream,
}

impl GetFault {
    /// The number of this fault.
    pub fn code(&self) -> u8
        ensures { result ≡ get_code self.now }
    {
        match self {
            GetFault::Down(_) => 42,
            GetFault::Busy => 43,
            GetFault::NoStream => 44,
            GetFault::Nothing(_) => 45,
        }
    }
}

/// Why nothing is known of the last message put.
#[derive(Clone, Copy, Debug, PartialEq, Eq, Error)]
pub enum AckFault {
    /// It is on its way. This is an event, at this position.
    #[error("the last message is on its way")]
    NotYet(u64),
    /// The sender's host is down. This is an event, at this position.
    #[error("the sender is down")]
    Down(u64),
    /// Another call was at work at the sender. Nothing changed; the caller may try again.
    #[error("the sender is busy")]
    Busy,
    /// The book has no sender of this stream. Nothing changed.
    #[error("there is no such stream")]
    NoStream,
}

impl AckFault {
    /// The number of this fault.
    pub fn code(&self) -> u8
        ensures { result ≡ ack_code self.now }
    {
        match self {
            AckFault::Down(_) => 42,
            AckFault::Busy => 43,
            AckFault::NoStream => 44,
            AckFault::NotYet(_) => 46,
        }
    }
}

/// Why an act of a host was not done. Nothing changed.
#[derive(Clone, Copy, Debug, PartialEq, Eq, Error)]
pub enum DriveFault {
    /// Another call was at work at the side. The caller may try again. It is the answer too where a sender is in another mode than its charge
    /// was told last, and would be at each try; but nobody else changes that mode, so it never comes.
    #[error("the side is busy")]
    Busy,
    /// Memory was refused for the message of a packet. The caller may try again later.
    #[error("out of memory")]
    NoMemory,
}

impl DriveFault {
    /// The number of this fault.
    pub fn code(&self) -> u8
        ensures { result ≡ drive_code self.now }
    {
        match self {
            DriveFault::NoMemory => 9,
            DriveFault::Busy => 43,
        }
    }
}
