//! A client's message, with what it is called by.
use crate::id::Id;
use amo_packet::Message;

/// A message that a client wants to be put, with the id of its line.
#[derive(Drop)]
pub struct NamedMessage {
    /// The message.
    pub message: Message,
    /// The id, if one is given: answers to the line have it.
    pub id: Id,
}
