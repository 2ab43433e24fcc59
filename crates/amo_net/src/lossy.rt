//! A channel in memory that loses, repeats and reorders.
ghost use Rattle.std.specs.Prelude.{◌≡◌, ◌≢◌, ◌%◌, [], length, Some, IfErr, IfNone, IfSome, OnOk, OnSome, slice_get, remove};
ghost use Rattle.amo_object.specs.End.{other};
ghost use Rattle.amo_net.specs.Lossy.{Draws, Sends, Takes, next_word, queued, queued_copies, sent};

use crate::direction::{Datagram, Direction, Twins};
use crate::{LinkFault, MAX_DATAGRAM};
use amo_object::End;
use amo_word::Words;
use std::alloc::Global;
use std::marker::Model;

/// The word of a send that finds no words left: one copy.
const WORD_OF_A_SEND: u64 = 2;

/// The word of a receive that finds no words left: the datagram that was sent first.
const WORD_OF_A_RECEIVE: u64 = 0;

/// A channel between the two ends of a stream, which does what its words say.
///
/// Each direction holds at most [`MAX_QUEUED`](crate::MAX_QUEUED) datagrams. Contracts see the words to come and the
/// datagrams of each direction, the one that was sent first at the front.
#[derive(Drop)]
pub struct Lossy<W> {
    words: W,
    from_sender: Direction,
    from_receiver: Direction,
}

impl<W> Model for Lossy<W> {
    ghost use Rattle.amo_net.specs.Lossy.{Channel};

    ghost Value = { Channel W };

    ghost view = { λ l. record { words = l.words; from_sender = l.from_sender; from_receiver = l.from_receiver } };
}

impl<W> Lossy<W> {
    /// A channel with these words, on which no datagram is on its way. It takes memory at sends alone.
    pub fn new(alloc: Global, words: W) -> Lossy<W>
        ensures words { result.words ≡ words }
        ensures empty { (result.from_sender ≡ []) × (result.from_receiver ≡ []) }
    {
        Lossy {
            words,
            from_sender: Direction::new(alloc),
            from_receiver: Direction::new(alloc),
        }
    }

    /// Room of a datagram that was sent from this end and received, if there is some.
    pub(crate) fn room_kept(&mut self, from: End) -> Option<Datagram>
        ensures { self.new ≡ self.old }
    {
        match from {
            End::Sender => self.from_sender.room_kept(),
            End::Receiver => self.from_receiver.room_kept(),
        }
    }
}

impl<W: Words> Lossy<W> {
    /// Draws a word, and queues as many copies of the bytes as it says and as have room.
    ///
    /// Bytes beyond [`MAX_DATAGRAM`] are cut off. Without words left it is one copy. Where memory is refused nothing is
    /// queued, and the word is gone.
    pub fn send(&mut self, from: End, bytes: &[u8]) -> Result<(), LinkFault>
        ensures word { Draws W.to_come self.old.words self.new.words }
        ensures ok { OnOk result (queued from self.new ≡ sent (next_word W.to_come self.old.words 2) bytes.now (queued from self.old)) }
        ensures memory { IfErr result (λ f. (f ≡ LinkFault.NoMemory) × (queued from self.new ≡ queued from self.old)) }
        ensures needed { IfErr result (λ _. queued_copies (next_word W.to_come self.old.words 2) (queued from self.old) ≢ 0) }
        ensures other { queued (other from) self.new ≡ queued (other from) self.old }
    {
        let word = self.words.next().unwrap_or(WORD_OF_A_SEND);
        match from {
            End::Sender => self.from_sender.send(word, bytes)?,
            End::Receiver => self.from_receiver.send(word, bytes)?,
        }
        Ok(())
    }

    /// The same for a datagram whose copies are made. It takes no memory.
    pub(crate) fn queue(&mut self, from: End, twins: Twins)
        ensures { Sends W.to_come from twins self.old self.new }
    {
        let word = self.words.next().unwrap_or(WORD_OF_A_SEND);
        match from {
            End::Sender => self.from_sender.queue(word, twins),
            End::Receiver => self.from_receiver.queue(word, twins),
        }
    }

    /// Draws a word, and takes out the datagram that it names of those that the other end sent.
    ///
    /// None where there is none, and then no word is drawn. Without words left it is the one that was sent first.
    pub fn receive(&mut self, at: End, buffer: &mut [u8; MAX_DATAGRAM]) -> Option<usize>
        ensures none { IfNone result ((queued (other at) self.old ≡ []) × (self.new ≡ self.old) × (buffer.new ≡ buffer.old)) }
        ensures word { OnSome result (Draws W.to_come self.old.words self.new.words) }
        ensures some { IfSome result (λ n. Takes (next_word W.to_come self.old.words 0)
            (queued (other at) self.old) (queued (other at) self.new) buffer.old buffer.new n) }
        ensures other { queued at self.new ≡ queued at self.old }
    {
        let datagram = self.pick(at)?;
        let length = datagram.fill(buffer);
        self.keep_room(at, datagram);
        Some(length)
    }

    /// Keeps the room of a datagram that was received at this end.
    fn keep_room(&mut self, at: End, datagram: Datagram)
        ensures { self.new ≡ self.old }
    {
        match at {
            End::Sender => self.from_receiver.keep_room(datagram),
            End::Receiver => self.from_sender.keep_room(datagram),
        }
    }

    /// Takes out the datagram that the next word names.
    fn pick(&mut self, at: End) -> Option<Datagram>
        ensures none { IfNone result ((queued (other at) self.old ≡ []) × (self.new ≡ self.old)) }
        ensures word { OnSome result (Draws W.to_come self.old.words self.new.words) }
        ensures some { IfSome result (λ d. let q = queued (other at) self.old in
            let place = next_word W.to_come self.old.words 0 % length q in
            (slice_get q place ≡ Some d) × (queued (other at) self.new ≡ remove q place)) }
        ensures other { queued at self.new ≡ queued at self.old }
    {
        let is_empty = match at {
            End::Sender => self.from_receiver.is_empty(),
            End::Receiver => self.from_sender.is_empty(),
        };
        if is_empty {
            return None;
        }
        let word = self.words.next().unwrap_or(WORD_OF_A_RECEIVE);
        Some(match at {
            End::Sender => self.from_receiver.pick(word),
            End::Receiver => self.from_sender.pick(word),
        })
    }
}
