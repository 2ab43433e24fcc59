//! What a caller asks for by a number, and what was made under one.
use crate::Word;
use amo_packet::Message;

/// What a call names that may be repeated: a number of a stream, of a life of the host, by a caller.
#[derive(Drop)]
pub struct Claim {
    /// The stream, from 1.
    pub stream: u32,
    /// The number, from 1 in each life and on each stream.
    pub number: u64,
    /// The life that the caller means.
    pub life: Word,
    /// The caller: a word that it drew at random, so that no other one has it.
    pub by: Word,
}

/// Where an event stands.
#[derive(Clone, Copy, Debug, PartialEq, Eq)]
pub struct EventPlace {
    /// Its position in the history of the life.
    pub position: u64,
    /// The number of its line in the journal.
    pub line: u64,
}

/// What was made under a number of a stream: a put at a sender, a get at a receiver.
#[derive(Drop)]
pub struct Made {
    /// The number.
    pub number: u64,
    /// Who asked for it by its number; nobody where it was put without one.
    pub by: Option<Word>,
    /// The message that was put, or got.
    pub message: Message,
    /// Where its event stands.
    pub place: EventPlace,
}

/// What is to be done with a claim.
#[derive(Clone, Copy, Debug, PartialEq, Eq)]
pub enum Decision {
    /// It is for the next number of its stream: that may be made.
    Next,
    /// It is the claim for the last number again: what was made for it answers it, and nothing happens.
    Again,
    /// It is for another number, or for the last one by another caller or with another message: nothing happens.
    Conflict,
    /// It means another life of the host: nothing happens.
    OtherLife,
}
