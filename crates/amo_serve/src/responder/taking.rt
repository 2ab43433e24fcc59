//! Takes for callers, each once.
ghost use Rattle.std.specs.Prelude.{◌≡◌, ◌++◌, IfOk, IfSome, IsSome, None, OnOk, codes, true};
ghost use Rattle.amo_object.specs.declared.step.End.TheVariants.{Receiver};
ghost use Rattle.amo_book.specs.Pass.{PassState};
ghost use Rattle.amo_live.specs.Host.{IsNoted};
ghost use Rattle.amo_live.specs.Service.{CannotGet, HasLooked, PutsNone, words_of};
ghost use Rattle.amo_live.specs.Words.{BearsNew};
ghost use Rattle.amo_door.specs.declared.claim.Decision.TheVariants as AnyDecision;
ghost use Rattle.amo_door.specs.declared.refusal.Refusal.TheVariants.{Conflict, NoStream};
ghost use Rattle.amo_door.specs.Answer.{IsRefusal};
ghost use Rattle.amo_door.specs.Numbers.{HasStream, decision, last_of};
ghost use Rattle.amo_door.specs.Refusal.{status_of};
ghost use Rattle.amo_serve.specs.Calls.{RepliesToTake, TellsWhyNot, WasRefused};
ghost use Rattle.amo_serve.specs.States.{state_members, summary_at};
ghost use Rattle.amo_serve.specs.Serving.{CarriesMade, HasServed, IsAtOnce, IsNotYet, Serves, Takes, TellsTake};

use crate::responder::putting::place_of;
use crate::responder::{Reply, Responder};
use amo_door::{Answer, Claim, Decision, Happening, Refusal};
use amo_live::{Lineage, LiveFault};
use amo_net::Link;
use amo_text::Sink;

/// What came of a claim to take.
#[derive(Drop)]
pub enum Taken {
    /// It is answered.
    Answer(Answer),
    /// It is for the next message, and that has not come.
    NotYet(Claim),
}

impl<L: Link, S: Sink, W: Lineage> Responder<L, S, W> {
    /// What comes of a claim to take, whose client waits for so many seconds at most. At a host that comes to its end nobody waits.
    #[tactic(auto, using(crate::proofs::Served::take_serves, crate::proofs::Served::serves_still, crate::proofs::Served::each_serves))]
    pub(crate) fn respond_to_take(
        &mut self,
        claim: Claim,
        wait: u64,
        now: u64,
    ) -> Result<Reply, LiveFault>
        requires { IsNoted S.written self.old.service.host }
        ensures noted { OnOk result (IsNoted S.written self.new.service.host) }
        ensures serves { OnOk result (Serves self.old.numbers self.new.numbers self.old.service.host.pass self.new.service.host.pass self.old.service.host.journal self.new.service.host.journal) }
        ensures words { OnOk result (BearsNew W.is_drawn (words_of self.old.service) (words_of self.new.service) self.old.service.host.pass self.new.service.host.pass) }
        ensures side { self.new.side ≡ self.old.side }
        ensures none_put { OnOk result (PutsNone self.old.service.host.pass self.new.service.host.pass) }
        ensures ends { self.new.ends ≡ true → IfOk result IsAtOnce }
        // The answer is that of its own turn, which tells of its own event; or its own claim waits.
        ensures replies { HasStream self.old.numbers claim.stream → IfOk result (RepliesToTake self.old self.new claim wait) }
        ensures no_stream { ¬ (HasStream self.old.numbers claim.stream) → IfOk result (WasRefused NoStream self.old self.new) }
    {
        if !self.has_stream(claim.stream) {
            return self.refuse(Refusal::NoStream);
        }
        match self.take(claim, now)? {
            Taken::Answer(answer) => Ok(Reply::Answer(answer)),
            Taken::NotYet(_) if wait == 0 || self.ends => Ok(Reply::Answer(Answer::nothing(
                self.alloc,
            ))),
            Taken::NotYet(claim) => Ok(Reply::Take { claim, wait }),
        }
    }

    /// Takes the next message of a stream for a claim, if the claim is for that and it has come. A claim that comes again is answered the
    /// message that was taken before, and any other why nothing was taken.
    pub fn take(&mut self, claim: Claim, now: u64) -> Result<Taken, LiveFault>
        requires noted { IsNoted S.written self.old.service.host }
        requires stream { HasStream self.old.numbers claim.stream }
        ensures noted { OnOk result (IsNoted S.written self.new.service.host) }
        ensures taken { IfOk result (Takes self.old.numbers self.new.numbers self.old.service.host.pass self.new.service.host.pass self.old.service.host.journal self.new.service.host.journal claim) }
        ensures none { IfOk result (λ taken. IsNotYet taken → CannotGet self.old.service claim.stream) }
        ensures why { IfOk result (TellsWhyNot self.old claim.stream) }
        ensures words { OnOk result (BearsNew W.is_drawn (words_of self.old.service) (words_of self.new.service) self.old.service.host.pass self.new.service.host.pass) }
        ensures side { self.new.side ≡ self.old.side }
        ensures none_put { OnOk result (PutsNone self.old.service.host.pass self.new.service.host.pass) }
        // Now or again, it is told where the event stands that was made for it.
        ensures told { (u : PassState) → HasServed Receiver u self.old.service.host.pass self.old.service.host.journal self.old.numbers
            → IfOk result (TellsTake u self.new.service.host.pass self.new.service.host.journal claim.stream) }
    {
        self.take_once(claim, now)
    }

    /// The same: what is answered came of one turn.
    fn take_once(&mut self, claim: Claim, now: u64) -> Result<Taken, LiveFault>
        requires noted { IsNoted S.written self.old.service.host }
        requires stream { HasStream self.old.numbers claim.stream }
        ensures noted { OnOk result (IsNoted S.written self.new.service.host) }
        ensures taken { IfOk result (Takes self.old.numbers self.new.numbers self.old.service.host.pass self.new.service.host.pass self.old.service.host.journal self.new.service.host.journal claim) }
        ensures none { IfOk result (λ taken. IsNotYet taken → CannotGet self.old.service claim.stream) }
        ensures why { IfOk result (TellsWhyNot self.old claim.stream) }
        ensures words { OnOk result (BearsNew W.is_drawn (words_of self.old.service) (words_of self.new.service) self.old.service.host.pass self.new.service.host.pass) }
        ensures side { self.new.side ≡ self.old.side }
    {
        let stream = claim.stream;
        match self.numbers.decide_take(&claim) {
            Decision::Next => self.take_next(claim, now),
            Decision::Again => {
                self.counts.taken_again = self.counts.taken_again.saturating_add(1);
                Ok(Taken::Answer(self.tell_taken(stream)?))
            }
            Decision::Conflict => Ok(Taken::Answer(self.tell_taken_conflict(stream)?)),
            Decision::OtherLife => Ok(Taken::Answer(Answer::other_life(
                self.alloc,
                self.numbers.life(),
            )?)),
        }
    }

    /// Takes the next message of a stream for a claim, which is for that, if it has come.
    fn take_next(&mut self, claim: Claim, now: u64) -> Result<Taken, LiveFault>
        requires noted { IsNoted S.written self.old.service.host }
        requires stream { HasStream self.old.numbers claim.stream }
        requires next { decision self.old.numbers.life (last_of self.old.numbers claim.stream) claim None ≡ AnyDecision.Next }
        ensures noted { OnOk result (IsNoted S.written self.new.service.host) }
        ensures taken { IfOk result (Takes self.old.numbers self.new.numbers self.old.service.host.pass self.new.service.host.pass self.old.service.host.journal self.new.service.host.journal claim) }
        ensures none { IfOk result (λ taken. IsNotYet taken → CannotGet self.old.service claim.stream) }
        ensures why { IfOk result (TellsWhyNot self.old claim.stream) }
        ensures words { OnOk result (BearsNew W.is_drawn (words_of self.old.service) (words_of self.new.service) self.old.service.host.pass self.new.service.host.pass) }
        ensures side { self.new.side ≡ self.old.side }
    {
        let stream = claim.stream;
        let Some((message, at)) = self.service.get_for_caller(stream, now)? else {
            return Ok(Taken::NotYet(claim));
        };
        self.tell_news(at.line, &Happening::Got(stream, message.bytes()))?;
        self.numbers.note_take(claim, message, place_of(at));
        self.counts.taken = self.counts.taken.saturating_add(1);
        Ok(Taken::Answer(self.tell_taken(stream)?))
    }

    /// The message that was taken last of a stream, where one was.
    fn tell_taken(&self, stream: u32) -> Result<Answer, LiveFault>
        requires stream { HasStream self.now.numbers stream }
        requires made { IsSome (last_of self.now.numbers stream) }
        ensures { IfOk result (λ answer. IfSome (last_of self.now.numbers stream) (λ made. CarriesMade stream made answer)) }
    {
        let Some(made) = self.numbers.last(stream) else {
            unreachable!()
        };
        Ok(Answer::taken(self.alloc, stream, made)?)
    }

    /// That a claim to take is for another number than the next one, and how its stream is.
    fn tell_taken_conflict(&mut self, stream: u32) -> Result<Answer, LiveFault>
        requires { HasStream self.old.numbers stream }
        ensures status { IfOk result (λ answer. answer.status ≡ status_of Conflict) }
        ensures body { IfOk result (λ answer. IsRefusal Conflict (codes "," ++ state_members Receiver (summary_at self.old stream) self.old.numbers stream) answer.body.items) }
        ensures same { self.new ≡ record self.old { counts = self.new.counts; service = self.new.service } }
        ensures looked { HasLooked self.old.service self.new.service }
    {
        self.counts.conflicts = self.counts.conflicts.saturating_add(1);
        let summary = self.look(stream)?;
        let state = self.receiver_state(stream, &summary);
        Ok(Answer::conflict_at_receiver(self.alloc, self.numbers.life(), stream, state)?)
    }
}
