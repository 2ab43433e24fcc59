//! The calls of clients.
ghost use Rattle.std.specs.Prelude.{◌≡◌, ◌↔◌, ◌+◌, ◌%◌, ◌^◌, ℕ, List, Option, Some, None, length, IfOk, IfErr, IsErrOf, slice_get};
ghost use Rattle.amo_object.specs.declared.step.End.TheVariants as side;
ghost use Rattle.amo_core.specs.declared.act.Act.TheVariants as act;
ghost use Rattle.amo_core.specs.declared.reply.Reply.{Reply};
ghost use Rattle.amo_core.specs.declared.automaton.Automaton.{Automaton};
ghost use Rattle.amo_core.specs.Automaton.{row, handed_back};
ghost use Rattle.amo_world.specs.History.{IsRight};
ghost use Rattle.amo_book.specs.Pass.{GrownBy, Grown, Answered, HasPosition, Serves, automaton_after, event};
ghost use Rattle.amo_book.specs.Steps.{IsStateOf};
ghost use Rattle.amo_book.specs.Calls.{put_answer, get_answer, ack_answer, HasSide, IsPutNoStream, IsPutReply, IsGetReply, IsAckReply};
ghost use Rattle.amo_book.specs.Fault.{put_message};
ghost use Rattle.amo_book.specs.Site.{IsSite};

use crate::site::Site;
use crate::{AckFault, Book, GetFault, Pass, PutFault};
use amo_core::{Act, Advanced, Reply};
use amo_object::End;
use amo_packet::Message;
use std::snapshot::Snapshot;

/// What a call on a side answers.
#[derive(Drop)]
struct Called {
    reply: Reply,
    handed_back: Option<Message>,
    position: u64,
}

impl Called {
    /// As a put answers it.
    fn into_put(self) -> Result<u64, PutFault>
        requires { IsPutReply self.reply self.handed_back }
        ensures answer { put_answer result ≡ Some (self.reply, self.position) }
        ensures handed_back { IfErr result (λ fault. Some (put_message fault) ≡ self.handed_back) }
    {
        let Called {
            reply,
            handed_back,
            position,
        } = self;
        let Some(message) = handed_back else {
            return Ok(position);
        };
        match reply {
            Reply::Full => Err(PutFault::Full(position, message)),
            Reply::Down => Err(PutFault::Down(position, message)),
            _ => unreachable!(),
        }
    }

    /// As a get answers it.
    fn into_get(self) -> Result<(Message, u64), GetFault>
        requires { IsGetReply self.reply }
        ensures answer { get_answer result ≡ Some (self.reply, self.position) }
    {
        let Called {
            reply,
            handed_back: _,
            position,
        } = self;
        match reply {
            Reply::Got(message) => Ok((message, position)),
            Reply::Nothing => Err(GetFault::Nothing(position)),
            Reply::Down => Err(GetFault::Down(position)),
            _ => unreachable!(),
        }
    }

    /// As a get_ack answers it.
    fn as_ack(&self) -> Result<(bool, u64), AckFault>
        requires { IsAckReply self.now.reply }
        ensures answer { ack_answer result ≡ Some (self.now.reply, self.now.position) }
    {
        let position = self.position;
        match &self.reply {
            Reply::Yes => Ok((true, position)),
            Reply::No => Ok((false, position)),
            Reply::NotYet => Err(AckFault::NotYet(position)),
            Reply::Down => Err(AckFault::Down(position)),
            _ => unreachable!(),
        }
    }
}

impl Book {
    /// Puts a message last on the waiting list of a stream's sender, and answers the event's position. A message that is not taken
    /// comes back.
    #[tactic(auto, using(crate::proofs::Replies::put_known, crate::proofs::Replies::put_fits, crate::proofs::Replies::put_back_is, crate::proofs::Gathers::serves_all))]
    pub fn put(&self, pass: &mut Pass, stream: u32, message: Message) -> Result<u64, PutFault>
        requires book { pass.old.book ≡ self.now.id }
        // What was seen, what others did meanwhile, and then this call, with its reply and position: or no event at all.
        ensures grown { Grown pass.old pass.new side.Sender stream (act.Put message) (put_answer result) }
        ensures answered { Answered pass.new (put_answer result) }
        ensures right { IsRight pass.new.seen }
        ensures served { Serves pass.new.seen }
        ensures no_stream { IsPutNoStream result ↔ (HasSide self.now side.Sender stream → ⊥) }
        ensures handed_back { IfErr result (λ fault. put_message fault ≡ message) }
    {
        let Some(place) = self.place(End::Sender, stream) else {
            pass.right();
            return Err(PutFault::NoStream(message));
        };
        let site = Site {
            place,
            side: End::Sender,
            stream,
        };
        match self.call(pass, site, Act::Put(message)) {
            Ok(called) => called.into_put(),
            Err(Act::Put(message)) => Err(PutFault::Busy(message)),
            Err(_) => unreachable!(),
        }
    }

    /// Takes the message that has come to a stream's receiver, and answers it with the event's position.
    #[tactic(auto, using(crate::proofs::Replies::get_known, crate::proofs::Replies::get_fits, crate::proofs::Gathers::serves_all))]
    pub fn get(&self, pass: &mut Pass, stream: u32) -> Result<(Message, u64), GetFault>
        requires book { pass.old.book ≡ self.now.id }
        ensures grown { Grown pass.old pass.new side.Receiver stream act.Get (get_answer result) }
        ensures answered { Answered pass.new (get_answer result) }
        ensures right { IsRight pass.new.seen }
        ensures served { Serves pass.new.seen }
        ensures no_stream { IsErrOf result GetFault.NoStream ↔ (HasSide self.now side.Receiver stream → ⊥) }
    {
        let Some(place) = self.place(End::Receiver, stream) else {
            pass.right();
            return Err(GetFault::NoStream);
        };
        let site = Site {
            place,
            side: End::Receiver,
            stream,
        };
        match self.call(pass, site, Act::Get) {
            Ok(called) => called.into_get(),
            Err(_) => Err(GetFault::Busy),
        }
    }

    /// What is known of the last message put to a stream, by whomever: whether it was got, with the event's position.
    #[tactic(auto, using(crate::proofs::Replies::ack_known, crate::proofs::Replies::ack_fits, crate::proofs::Gathers::serves_all))]
    pub fn get_ack(&self, pass: &mut Pass, stream: u32) -> Result<(bool, u64), AckFault>
        requires book { pass.old.book ≡ self.now.id }
        ensures grown { Grown pass.old pass.new side.Sender stream act.Ack (ack_answer result) }
        ensures answered { Answered pass.new (ack_answer result) }
        ensures right { IsRight pass.new.seen }
        ensures served { Serves pass.new.seen }
        ensures no_stream { IsErrOf result AckFault.NoStream ↔ (HasSide self.now side.Sender stream → ⊥) }
    {
        let Some(place) = self.place(End::Sender, stream) else {
            pass.right();
            return Err(AckFault::NoStream);
        };
        let site = Site {
            place,
            side: End::Sender,
            stream,
        };
        match self.call(pass, site, Act::Ack) {
            Ok(called) => called.as_ack(),
            Err(_) => Err(AckFault::Busy),
        }
    }

    /// One call on a side that has the act, if its gate is free. Otherwise the act comes back.
    // Inlined, it knows its act, and nothing of the other acts is moved or tested.
    #[inline(always)]
    fn call(&self, pass: &mut Pass, site: Site, act: Act) -> Result<Called, Act>
        requires book { pass.old.book ≡ self.now.id }
        requires place { IsSite self.now.sides site }
        requires known { (x : Automaton) → IsStateOf site.side site.stream x → (reply : Reply) × ((row x act).reply ≡ Some reply) }
        ensures grown { IfOk result (λ called. GrownBy pass.old pass.new (event pass.old.number site.side site.stream act called.reply)) }
        ensures answered { IfOk result (λ called. HasPosition pass.new called.position) }
        ensures replied { IfOk result (λ called. (x : Automaton) × IsStateOf site.side site.stream x × ((row x act).reply ≡ Some called.reply)
            × (called.handed_back ≡ handed_back act (Some called.reply))) }
        ensures right { IsRight pass.new.seen }
        ensures busy { IfErr result (λ back. (back ≡ act) × (pass.new ≡ pass.old)) }
    {
        let number = pass.number;
        let Some(mut automaton) = self.board.take(&mut pass.seat, site) else {
            return Err(act);
        };
        let told = Snapshot::of(&act);
        let Advanced { reply, handed_back } = automaton.advance(act);
        let Some(reply) = reply else { unreachable!() };
        let position = self
            .board
            .settle(&mut pass.seat, number, site, &told, &reply, automaton);
        Ok(Called {
            reply,
            handed_back,
            position,
        })
    }
}
