//! What a client is to do.
use amo_book::{AckFault, GetFault, PutFault};
use amo_packet::Message;
use amo_world::NoMemory;

/// A call of a book.
#[derive(Drop)]
pub enum ClientCall {
    /// A put of a message on a stream.
    Put(u32, Message),
    /// A get of a stream.
    Get(u32),
    /// A question for the last put of a stream.
    Ack(u32),
}

/// What the book answered: the result of the call.
#[derive(Drop)]
pub enum ClientReply {
    Put(Result<u64, PutFault>),
    Get(Result<(Message, u64), GetFault>),
    Ack(Result<(bool, u64), AckFault>),
}

/// The calls of one client, each chosen when the one before was answered.
pub trait Script {
    /// The next call, or none at the end.
    fn next(&mut self) -> Result<Option<ClientCall>, NoMemory>;

    /// Hears what the last call was answered.
    fn told(&mut self, reply: &ClientReply);
}
