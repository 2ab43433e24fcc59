//! Both sides of every stream, on a book that one caller has to itself.
ghost use Rattle.std.specs.Prelude.{◌≡◌, ◌<◌, [], IfOk, IfErr, Some, length};
ghost use Rattle.amo_object.specs.declared.step.End.TheVariants as end_of;
ghost use Rattle.amo_packet.specs.Packet.{packet_of, body_of};
ghost use Rattle.amo_packet.specs.Grammar.{CanBeWritten};
ghost use Rattle.amo_core.specs.declared.act.Act.TheVariants as act;
ghost use Rattle.amo_core.specs.declared.reply.Reply.TheVariants as reply;
ghost use Rattle.amo_world.specs.Stream.{IsStream};
ghost use Rattle.amo_replay.specs.Sides.{place_of, AreSides, IsOwn, IsActOf, IsHostActOf, Adds, AddsWriting};
ghost use Rattle.amo_replay.specs.Transcript.{event_at};
ghost use Rattle.amo_replay.specs.Stop.{IsRefusal};

use crate::ToolFault;
use crate::replies::replied;
use amo_book::{Book, Charge, OpenFault, Pass, reply_to_ack, reply_to_get, reply_to_put};
use amo_core::{Act, Reply};
use amo_object::End;
use amo_packet::{MAX_PACKET, Message, Packet, STREAMS};
use std::alloc::{AllocError, Global};
use std::marker::Model;

/// How many passes the book has. One calls; the other is there since a book has two at least.
const PASSES: usize = 2;

/// Both sides of streams 1 to [`STREAMS`], on a book of their own. Contracts see the history that its pass 0 has seen. That no
/// event in it is another's is known once the book is closed.
#[derive(Drop)]
pub(crate) struct BookSides {
    book: Book,
    passes: Vec<Pass>,
    charges: Vec<Charge>,
}

impl Model for BookSides {
    ghost use Rattle.std.specs.Prelude.{List};
    ghost use Rattle.amo_world.specs.declared.event.Event.{Event};
    ghost use Rattle.amo_replay.specs.Sides.{seen_of, Represents};

    ghost Value = { List Event };

    ghost view = { λ s. seen_of s.passes.items };

    ghost invariant = { λ s. Represents s.book s.passes.items s.charges.items };
}

impl BookSides {
    /// All sides, with nothing done yet.
    pub(crate) fn new(alloc: Global) -> Result<BookSides, AllocError>
        ensures { IfOk result (λ sides. sides ≡ []) }
    {
        match Book::open(alloc, all_sides(alloc)?, PASSES) {
            Ok((book, passes, charges)) => Ok(BookSides {
                book,
                passes,
                charges,
            }),
            Err(OpenFault::NoMemory) => Err(AllocError),
            Err(OpenFault::Limits) => unreachable!(),
        }
    }

    /// Makes an act that is no delivery at a side of a stream, under pass 0. The answer is its reply, and how many bytes at the
    /// front of the buffer it emitted, if any.
    pub(crate) fn act(
        &mut self,
        side: End,
        stream: u32,
        act: Act,
        buffer: &mut [u8; MAX_PACKET],
    ) -> Result<(Reply, Option<usize>), ToolFault>
        requires stream { IsStream stream }
        requires act { IsActOf side act }
        ensures acted { IfOk result (λ t. AddsWriting self.old self.new (event_at side stream act t.0) buffer.old buffer.new t.1) }
        ensures refused { IfErr result (λ fault. IsRefusal fault × (self.new ≡ self.old)) }
    {
        match act {
            Act::Put(message) => Ok((self.put(stream, message)?, None)),
            Act::Get => Ok((self.get(stream)?, None)),
            Act::Ack => Ok((self.ack(stream)?, None)),
            act => Ok((Reply::Done, self.drive(side, stream, act, buffer)?)),
        }
    }

    /// A put, at the sender.
    fn put(&mut self, stream: u32, message: Message) -> Result<Reply, ToolFault>
        requires { IsStream stream }
        ensures added { IfOk result (λ reply. Adds self.old self.new (event_at end_of.Sender stream (act.Put message) reply)) }
        ensures busy { IfErr result (λ fault. (fault ≡ ToolFault.Busy) × (self.new ≡ self.old)) }
    {
        let answer = self.book.put(&mut self.passes[0], stream, message);
        replied(reply_to_put(&answer))
    }

    /// A get, at the receiver.
    fn get(&mut self, stream: u32) -> Result<Reply, ToolFault>
        requires { IsStream stream }
        ensures added { IfOk result (λ reply. Adds self.old self.new (event_at end_of.Receiver stream act.Get reply)) }
        ensures busy { IfErr result (λ fault. (fault ≡ ToolFault.Busy) × (self.new ≡ self.old)) }
    {
        let answer = self.book.get(&mut self.passes[0], stream);
        replied(reply_to_get(answer))
    }

    /// A get_ack, at the sender.
    fn ack(&mut self, stream: u32) -> Result<Reply, ToolFault>
        requires { IsStream stream }
        ensures added { IfOk result (λ reply. Adds self.old self.new (event_at end_of.Sender stream act.Ack reply)) }
        ensures busy { IfErr result (λ fault. (fault ≡ ToolFault.Busy) × (self.new ≡ self.old)) }
    {
        let answer = self.book.get_ack(&mut self.passes[0], stream);
        replied(reply_to_ack(answer))
    }

    /// An act of a side's host that is no delivery.
    fn drive(
        &mut self,
        side: End,
        stream: u32,
        act: Act,
        buffer: &mut [u8; MAX_PACKET],
    ) -> Result<Option<usize>, ToolFault>
        requires stream { IsStream stream }
        requires act { IsHostActOf side act }
        ensures added { IfOk result (λ length. AddsWriting self.old self.new (event_at side stream act reply.Done) buffer.old buffer.new length) }
        ensures refused { IfErr result (λ fault. IsRefusal fault × (self.new ≡ self.old)) }
    {
        let pass = &mut self.passes[0];
        let charge = &mut self.charges[place_of(side, stream)];
        let done = self.book.perform(pass, charge, act, buffer)?;
        Ok(done.length)
    }

    /// Delivers a packet to a side of its stream, with the word for an accept.
    pub(crate) fn deliver(
        &mut self,
        alloc: Global,
        side: End,
        packet: &Packet<'_>,
        word: u64,
        buffer: &mut [u8; MAX_PACKET],
    ) -> Result<Option<usize>, ToolFault>
        requires stream { IsStream packet.now.stream }
        requires fits { CanBeWritten (body_of packet.now.body) }
        ensures added { IfOk result (λ length. AddsWriting self.old self.new
            (event_at side packet.now.stream (act.Deliver (packet_of packet.now) word) reply.Done) buffer.old buffer.new length) }
        ensures refused { IfErr result (λ fault. IsRefusal fault × (self.new ≡ self.old)) }
    {
        let pass = &mut self.passes[0];
        let charge = &mut self.charges[place_of(side, packet.stream)];
        let done = self
            .book
            .deliver(alloc, pass, charge, packet, word, buffer)?;
        Ok(done.length)
    }

    /// Closes the book. All its passes and charges are here, so no other than pass 0 has made an event.
    pub(crate) fn close(self)
        ensures { IsOwn self }
    {
        let BookSides {
            book,
            passes,
            charges,
        } = self;
        let Ok(_closed) = book.close(passes, charges) else {
            unreachable!()
        };
    }
}

/// The sides of all streams, each at its place.
fn all_sides(alloc: Global) -> Result<Vec<(End, u32)>, AllocError>
    ensures { IfOk result (λ sides. AreSides sides.items) }
{
    let mut sides = Vec::with_capacity(alloc, 2 * STREAMS as usize)?;
    for place in 0..2 * STREAMS {
        sides.push(side_at(place))?;
    }
    Ok(sides)
}

/// The side at a place.
fn side_at(place: u32) -> (End, u32)
    requires { place < 512 }
    ensures { (place ≡ place_of result.0 result.1) × IsStream result.1 }
{
    if place < STREAMS {
        (End::Sender, place + 1)
    } else {
        (End::Receiver, place - STREAMS + 1)
    }
}

/// The place of a side.
fn place_of(side: End, stream: u32) -> usize
    requires { IsStream stream }
    ensures { result ≡ place_of side stream }
{
    let before = match side {
        End::Sender => 0,
        End::Receiver => STREAMS,
    };
    (before + stream - 1) as usize
}
