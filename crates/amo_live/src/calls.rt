//! The calls of a host's clients: each is an event, then its line in the journal, then the answer.
ghost use Rattle.std.specs.Prelude.{◌≡◌, ℕ, List, IfOk, IfErr, IfSome, OnOk, OnErr};
ghost use Rattle.amo_object.specs.declared.step.End.TheVariants as end;
ghost use Rattle.amo_packet.specs.Message.{IsShort};
ghost use Rattle.amo_text.specs.Message.{IsMessage};
ghost use Rattle.amo_core.specs.declared.act.Act.TheVariants as act;
ghost use Rattle.amo_journal.specs.Journal.{HasReply};
ghost use Rattle.amo_book.specs.Calls.{put_answer, get_answer, ack_answer};
ghost use Rattle.amo_book.specs.Fault.{put_message};
ghost use Rattle.amo_book.specs.Pass.{Answer, Answered, Grown, event};
ghost use Rattle.amo_live.specs.Host.{HasLines, IsBegun, IsNoted, NotedLast, Stays, got_in};
ghost use Rattle.amo_live.specs.OpenLines.{with_put};

use crate::noting::note_answer;
use crate::stream_lines::Kind;
use crate::{Host, LiveFault};
use amo_book::{AckFault, GetFault, PutFault, reply_to_ack, reply_to_get, reply_to_put};
use amo_core::{Act, Reply};
use amo_net::Link;
use amo_object::End;
use amo_packet::{Message, STREAMS};
use amo_text::Sink;
use std::alloc::AllocError;

impl<L: Link, S: Sink> Host<L, S> {
    /// Puts a message on a stream. The answer is the book's, and stands in the journal.
    #[tactic(auto, using(crate::proofs::NotedLines::begins_noted))]
    pub fn put(&mut self, stream: u32, message: Message) -> Result<Result<u64, PutFault>, LiveFault>
        requires { IsNoted S.written self.old }
        ensures put { IfOk result (λ answer. Grown self.old.pass self.new.pass end.Sender stream (act.Put message) (put_answer answer)) }
        ensures answered { IfOk result (λ answer. Answered self.new.pass (put_answer answer)) }
        ensures handed_back { IfOk result (λ answer. IfErr answer (λ fault. put_message fault ≡ message)) }
        ensures noted { OnOk result (IsNoted S.written self.new) }
        ensures begun { OnErr result (IsBegun S.written self.new) }
        ensures stays { Stays self.old self.new × (self.new.outbox ≡ self.old.outbox) }
    {
        let answer = match self.note_put(stream, message) {
            Ok(answer) => answer,
            Err(fault) => return Err(fault),
        };
        self.meet();
        match self.keep_put(stream, &answer) {
            Ok(()) => Ok(answer),
            Err(_) => Err(LiveFault::NoMemory),
        }
    }

    /// Keeps the line of a put on a stream, which was noted last, if the book answered that it was taken.
    fn keep_put(&mut self, stream: u32, answer: &Result<u64, PutFault>) -> Result<(), AllocError>
        ensures kept { OnOk result (self.new.unanswered ≡ with_put (put_answer answer.now) stream self.old.journal.last self.old.unanswered) }
        ensures same { self.new ≡ record self.old { unanswered = self.new.unanswered } }
    {
        match answer {
            Ok(_) => {
                let line = self.journal.last_line();
                self.unanswered.keep(stream, Kind::Put, line)
            }
            Err(_) => Ok(()),
        }
    }

    /// Puts a message on a stream, and notes it.
    #[tactic(auto, using(crate::proofs::Onwards::begins_whole))]
    fn note_put(
        &mut self,
        stream: u32,
        message: Message,
    ) -> Result<Result<u64, PutFault>, LiveFault>
        requires { HasLines S.written self.old }
        ensures put { IfOk result (λ answer. Grown self.old.pass self.new.pass end.Sender stream (act.Put message) (put_answer answer)) }
        ensures answered { IfOk result (λ answer. Answered self.new.pass (put_answer answer)) }
        ensures handed_back { IfOk result (λ answer. IfErr answer (λ fault. put_message fault ≡ message)) }
        ensures noted { OnOk result (HasLines S.written self.new) }
        ensures last { IfOk result (λ answer. IfSome (put_answer answer) (λ k. NotedLast self.old self.new (event self.old.pass.number end.Sender stream (act.Put message) k.0))) }
        ensures kept { self.new.unanswered ≡ self.old.unanswered }
        ensures begun { OnErr result (IsBegun S.written self.new) }
        ensures stays { Stays self.old self.new × (self.new.outbox ≡ self.old.outbox) }
    {
        if stream < 1 || STREAMS < stream {
            return Ok(Err(PutFault::NoStream(message)));
        }
        is_message(&message);
        let Ok(copy) = message.clone() else {
            return Err(LiveFault::NoMemory);
        };
        let pass = self.pass.number();
        let answer = self.book.put(&mut self.pass, stream, message);
        let known = reply_to_put(&answer);
        let side = End::Sender;
        match note_answer(&mut self.journal, pass, side, stream, Act::Put(copy), known) {
            Ok(_) => (),
            Err(fault) => return Err(fault),
        }
        Ok(answer)
    }

    /// Takes the message that has come to a stream, if one has, and tells the position of that event. What the book answered stands in the journal.
    #[tactic(auto, using(crate::proofs::Suiting::get_spelt, crate::proofs::NotedLines::begins_noted))]
    pub fn get(&mut self, stream: u32) -> Result<Option<(Message, u64)>, LiveFault>
        requires { IsNoted S.written self.old }
        ensures got { IfOk result (λ got. (answer : Answer) × Grown self.old.pass self.new.pass end.Receiver stream act.Get answer × Answered self.new.pass answer × (got ≡ got_in answer)) }
        ensures noted { OnOk result (IsNoted S.written self.new) }
        ensures begun { OnErr result (IsBegun S.written self.new) }
        ensures stays { Stays self.old self.new × (self.new.outbox ≡ self.old.outbox) }
    {
        if stream < 1 || STREAMS < stream {
            return Ok(None);
        }
        let pass = self.pass.number();
        let known = spelt_reply_to_get(self.book.get(&mut self.pass, stream));
        let side = End::Receiver;
        let known = match note_answer(&mut self.journal, pass, side, stream, Act::Get, known) {
            Ok(known) => known,
            Err(fault) => return Err(fault),
        };
        Ok(got_in(known))
    }

    /// What is known of the last message put to a stream. The answer is the book's, and stands in the journal.
    #[tactic(auto, using(crate::proofs::NotedLines::begins_noted))]
    pub fn get_ack(&mut self, stream: u32) -> Result<Result<(bool, u64), AckFault>, LiveFault>
        requires { IsNoted S.written self.old }
        ensures known { IfOk result (λ answer. Grown self.old.pass self.new.pass end.Sender stream act.Ack (ack_answer answer)) }
        ensures noted { OnOk result (IsNoted S.written self.new) }
        ensures begun { OnErr result (IsBegun S.written self.new) }
        ensures stays { Stays self.old self.new × (self.new.outbox ≡ self.old.outbox) }
    {
        if stream < 1 || STREAMS < stream {
            return Ok(Err(AckFault::NoStream));
        }
        let pass = self.pass.number();
        let answer = self.book.get_ack(&mut self.pass, stream);
        let known = reply_to_ack(answer);
        let side = End::Sender;
        match note_answer(&mut self.journal, pass, side, stream, Act::Ack, known) {
            Ok(_) => (),
            Err(fault) => return Err(fault),
        }
        Ok(answer)
    }
}

/// The message that a get answered and the position of its event, if it answered one.
fn got_in(known: Option<(Reply, u64)>) -> Option<(Message, u64)>
    ensures { result ≡ got_in known }
{
    match known {
        Some((reply, position)) => match reply {
            Reply::Got(message) => Some((message, position)),
            _ => None,
        },
        None => None,
    }
}

/// The reply to a get and its event's position, for which a journal has a line.
#[tactic(auto, using(crate::proofs::Suiting::get_replies))]
fn spelt_reply_to_get(answered: Result<(Message, u64), GetFault>) -> Option<(Reply, u64)>
    ensures answer { result ≡ get_answer answered }
    ensures reply { IfSome result (λ k. HasReply act.Get k.0) }
{
    if let Ok((message, _)) = &answered {
        is_message(message);
    }
    reply_to_get(answered)
}

/// What a journal asks of a message's bytes, which every message keeps. It does nothing.
fn is_message(message: &Message)
    ensures { IsMessage message.now }
{
    are_bytes(message.bytes());
}

/// The same, of bytes that are not too many.
fn are_bytes(bytes: &[u8])
    requires { IsShort bytes.now }
    ensures { IsMessage bytes.now }
{
    let _ = bytes;
}
