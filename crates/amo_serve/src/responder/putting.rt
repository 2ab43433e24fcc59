//! Puts for callers, each once.
ghost use Rattle.std.specs.Prelude.{◌≡◌, ◌+◌, ◌<◌, ◌^◌, ◌++◌, [], IfNone, IfOk, IfSome, IsSome, OnOk, Some, codes};
ghost use Rattle.amo_object.specs.declared.step.End.TheVariants.{Sender};
ghost use Rattle.amo_book.specs.Pass.{PassState};
ghost use Rattle.amo_live.specs.Callers.{GetsNone, IsSameLife, PutsAt};
ghost use Rattle.amo_live.specs.Host.{IsNoted};
ghost use Rattle.amo_live.specs.Service.{HasLooked, words_of};
ghost use Rattle.amo_live.specs.Words.{BearsNew};
ghost use Rattle.amo_door.specs.declared.claim.Decision.TheVariants as AnyDecision;
ghost use Rattle.amo_door.specs.declared.refusal.Refusal.TheVariants.{Conflict, Full, NoStream};
ghost use Rattle.amo_door.specs.Answer.{IsRefusal, put_body, status_of_put};
ghost use Rattle.amo_door.specs.Numbers.{HasStream, decision, last_of, number_of};
ghost use Rattle.amo_door.specs.Refusal.{status_of};
ghost use Rattle.amo_serve.specs.Calls.{HasNext, RepliesToNext, RepliesToPut, WasRefused};
ghost use Rattle.amo_serve.specs.Serving.{AnswersPut, AnswersUnclaimed, HasServed, Serves, TellsPut};
ghost use Rattle.amo_serve.specs.States.{Refuses, TellsWhy, not_now, state_members, summary_at};

use crate::responder::{Reply, Responder};
use amo_door::{Answer, Claim, Decision, EventPlace, Happening, Refusal, When};
use amo_live::{EventAt, Lineage, LiveFault};
use amo_net::Link;
use amo_packet::Message;
use amo_text::Sink;

impl<L: Link, S: Sink, W: Lineage> Responder<L, S, W> {
    /// What comes of a claim to put this message.
    #[tactic(auto, using(crate::proofs::Served::serves_still, crate::proofs::Served::each_serves))]
    pub(crate) fn respond_to_put(
        &mut self,
        claim: Claim,
        message: Message,
        now: u64,
    ) -> Result<Reply, LiveFault>
        requires { IsNoted S.written self.old.service.host }
        ensures noted { OnOk result (IsNoted S.written self.new.service.host) }
        ensures serves { OnOk result (Serves self.old.numbers self.new.numbers self.old.service.host.pass self.new.service.host.pass self.old.service.host.journal self.new.service.host.journal) }
        ensures words { OnOk result (BearsNew W.is_drawn (words_of self.old.service) (words_of self.new.service) self.old.service.host.pass self.new.service.host.pass) }
        ensures side { self.new.side ≡ self.old.side }
        ensures none_got { OnOk result (GetsNone self.old.service.host.pass self.new.service.host.pass) }
        // The answer is that of its own turn, which tells of its own event.
        ensures replies { HasStream self.old.numbers claim.stream → IfOk result (RepliesToPut self.old self.new claim message) }
        ensures no_stream { ¬ (HasStream self.old.numbers claim.stream) → IfOk result (WasRefused NoStream self.old self.new) }
    {
        if !self.has_stream(claim.stream) {
            return self.refuse(Refusal::NoStream);
        }
        Ok(Reply::Answer(self.put(claim, message, now)?))
    }

    /// What comes of a message that is to be put without a number.
    #[tactic(auto, using(crate::proofs::Served::serves_still, crate::proofs::Served::each_serves))]
    pub(crate) fn respond_to_next(
        &mut self,
        stream: u32,
        message: Message,
        now: u64,
    ) -> Result<Reply, LiveFault>
        requires { IsNoted S.written self.old.service.host }
        ensures noted { OnOk result (IsNoted S.written self.new.service.host) }
        ensures serves { OnOk result (Serves self.old.numbers self.new.numbers self.old.service.host.pass self.new.service.host.pass self.old.service.host.journal self.new.service.host.journal) }
        ensures words { OnOk result (BearsNew W.is_drawn (words_of self.old.service) (words_of self.new.service) self.old.service.host.pass self.new.service.host.pass) }
        ensures side { self.new.side ≡ self.old.side }
        ensures none_got { OnOk result (GetsNone self.old.service.host.pass self.new.service.host.pass) }
        ensures replies { HasStream self.old.numbers stream → HasNext self.old.numbers stream → IfOk result (RepliesToNext self.old self.new stream message) }
        ensures used_up { HasStream self.old.numbers stream → ¬ (HasNext self.old.numbers stream) → IfOk result (WasRefused Full self.old self.new) }
        ensures no_stream { ¬ (HasStream self.old.numbers stream) → IfOk result (WasRefused NoStream self.old self.new) }
    {
        if !self.has_stream(stream) {
            return self.refuse(Refusal::NoStream);
        }
        if self.numbers.next_number(stream).is_none() {
            return self.refuse(Refusal::Full);
        }
        Ok(Reply::Answer(self.put_unclaimed(stream, message, now)?))
    }

    /// Puts this message for a claim, if it is for the next number. A claim that comes again is answered what was made before, and any other
    /// why nothing was made.
    pub fn put(&mut self, claim: Claim, message: Message, now: u64) -> Result<Answer, LiveFault>
        requires noted { IsNoted S.written self.old.service.host }
        requires stream { HasStream self.old.numbers claim.stream }
        ensures noted { OnOk result (IsNoted S.written self.new.service.host) }
        ensures answered { IfOk result (AnswersPut self.old.numbers self.new.numbers self.old.service.host.pass self.new.service.host.pass self.old.service.host.journal self.new.service.host.journal claim message) }
        ensures full { IfOk result (λ answer. answer.status ≡ status_of Full → Refuses self.old claim.stream) }
        ensures why { IfOk result (TellsWhy Sender self.old claim.stream) }
        ensures words { OnOk result (BearsNew W.is_drawn (words_of self.old.service) (words_of self.new.service) self.old.service.host.pass self.new.service.host.pass) }
        ensures side { self.new.side ≡ self.old.side }
        // Now or again, it is told where the event stands that was made for it.
        ensures told { (u : PassState) → HasServed Sender u self.old.service.host.pass self.old.service.host.journal self.old.numbers
            → IfOk result (TellsPut u self.new.service.host.pass self.new.service.host.journal self.old.numbers.life claim.stream) }
    {
        self.put_once(claim, message, now)
    }

    /// The same: what is answered came of one turn.
    fn put_once(&mut self, claim: Claim, message: Message, now: u64) -> Result<Answer, LiveFault>
        requires noted { IsNoted S.written self.old.service.host }
        requires stream { HasStream self.old.numbers claim.stream }
        ensures noted { OnOk result (IsNoted S.written self.new.service.host) }
        ensures answered { IfOk result (AnswersPut self.old.numbers self.new.numbers self.old.service.host.pass self.new.service.host.pass self.old.service.host.journal self.new.service.host.journal claim message) }
        ensures full { IfOk result (λ answer. answer.status ≡ status_of Full → Refuses self.old claim.stream) }
        ensures why { IfOk result (TellsWhy Sender self.old claim.stream) }
        ensures words { OnOk result (BearsNew W.is_drawn (words_of self.old.service) (words_of self.new.service) self.old.service.host.pass self.new.service.host.pass) }
        ensures side { self.new.side ≡ self.old.side }
    {
        let stream = claim.stream;
        match self.numbers.decide_put(&claim, message.bytes()) {
            Decision::Next => self.put_next(claim, message, now),
            Decision::Again => self.tell_put(When::Before, stream),
            Decision::Conflict => self.tell_conflict(stream),
            Decision::OtherLife => Ok(Answer::other_life(self.alloc, self.numbers.life())?),
        }
    }

    /// Puts this message for a claim, which is for the next number.
    fn put_next(&mut self, claim: Claim, message: Message, now: u64) -> Result<Answer, LiveFault>
        requires noted { IsNoted S.written self.old.service.host }
        requires stream { HasStream self.old.numbers claim.stream }
        requires next { decision self.old.numbers.life (last_of self.old.numbers claim.stream) claim (Some message) ≡ AnyDecision.Next }
        ensures noted { OnOk result (IsNoted S.written self.new.service.host) }
        ensures answered { IfOk result (AnswersPut self.old.numbers self.new.numbers self.old.service.host.pass self.new.service.host.pass self.old.service.host.journal self.new.service.host.journal claim message) }
        ensures full { IfOk result (λ answer. answer.status ≡ status_of Full → Refuses self.old claim.stream) }
        ensures why { IfOk result (TellsWhy Sender self.old claim.stream) }
        ensures words { OnOk result (BearsNew W.is_drawn (words_of self.old.service) (words_of self.new.service) self.old.service.host.pass self.new.service.host.pass) }
        ensures side { self.new.side ≡ self.old.side }
    {
        let stream = claim.stream;
        let copy = message.clone()?;
        let Some(at) = self.put_on(stream, copy, now)? else {
            return self.tell_full();
        };
        self.tell_news(at.line, &Happening::Put(stream, message.bytes()))?;
        self.numbers.note_put(claim, message, place_of(at));
        self.tell_put(When::Now, stream)
    }

    /// Puts this message on a stream, without a number.
    pub fn put_unclaimed(
        &mut self,
        stream: u32,
        message: Message,
        now: u64,
    ) -> Result<Answer, LiveFault>
        requires noted { IsNoted S.written self.old.service.host }
        requires stream { HasStream self.old.numbers stream }
        requires next { number_of (last_of self.old.numbers stream) + 1 < 2 ^ 64 }
        ensures noted { OnOk result (IsNoted S.written self.new.service.host) }
        ensures answered { IfOk result (AnswersUnclaimed self.old.numbers self.new.numbers self.old.service.host.pass self.new.service.host.pass self.old.service.host.journal self.new.service.host.journal stream message) }
        ensures full { IfOk result (λ answer. answer.status ≡ status_of Full → Refuses self.old stream) }
        ensures why { IfOk result (TellsWhy Sender self.old stream) }
        ensures words { OnOk result (BearsNew W.is_drawn (words_of self.old.service) (words_of self.new.service) self.old.service.host.pass self.new.service.host.pass) }
        ensures side { self.new.side ≡ self.old.side }
    {
        let copy = message.clone()?;
        let Some(at) = self.put_on(stream, copy, now)? else {
            return self.tell_full();
        };
        self.tell_news(at.line, &Happening::Put(stream, message.bytes()))?;
        self.numbers.note_unclaimed(stream, message, place_of(at));
        self.tell_put(When::Now, stream)
    }

    /// Puts this message on a stream. None where there is no room, or the host comes to its end.
    fn put_on(
        &mut self,
        stream: u32,
        message: Message,
        now: u64,
    ) -> Result<Option<EventAt>, LiveFault>
        requires { IsNoted S.written self.old.service.host }
        ensures noted { OnOk result (IsNoted S.written self.new.service.host) }
        ensures life { IsSameLife self.old.service.host.pass self.new.service.host.pass self.old.service.host.journal self.new.service.host.journal }
        ensures put { IfOk result (PutsAt self.old.service.host.pass self.new.service.host.pass self.new.service.host.journal stream message) }
        ensures full { IfOk result (λ put. IfNone put (Refuses self.old stream)) }
        ensures none_got { OnOk result (GetsNone self.old.service.host.pass self.new.service.host.pass) }
        ensures words { OnOk result (BearsNew W.is_drawn (words_of self.old.service) (words_of self.new.service) self.old.service.host.pass self.new.service.host.pass) }
        ensures same { self.new ≡ record self.old { service = self.new.service } }
    {
        if self.ends {
            return Ok(None);
        }
        self.service.put_for_caller(stream, message, now)
    }

    /// What was put last on a stream, where something was; now, or before.
    fn tell_put(&mut self, when: When, stream: u32) -> Result<Answer, LiveFault>
        requires stream { HasStream self.old.numbers stream }
        requires made { IsSome (last_of self.old.numbers stream) }
        ensures told { IfOk result (λ answer. IfSome (last_of self.old.numbers stream) (λ made. (answer.status ≡ status_of_put when) × (answer.body.items ≡ put_body self.old.numbers.life stream made))) }
        ensures numbers { self.new.numbers ≡ self.old.numbers }
        ensures service { self.new.service ≡ self.old.service }
        ensures side { self.new.side ≡ self.old.side }
    {
        let life = self.numbers.life();
        let Some(made) = self.numbers.last(stream) else {
            unreachable!()
        };
        let answer = Answer::put(self.alloc, when, life, stream, made)?;
        self.counts.told_put(when);
        Ok(answer)
    }

    /// That a stream has no room, or that the host comes to its end.
    fn tell_full(&mut self) -> Result<Answer, LiveFault>
        ensures status { IfOk result (λ answer. answer.status ≡ status_of Full) }
        ensures body { IfOk result (λ answer. IsRefusal (not_now self.old.ends) [] answer.body.items) }
        ensures same { self.new ≡ record self.old { counts = self.new.counts } }
    {
        if self.ends {
            return Ok(Answer::refusal(self.alloc, Refusal::Ending)?);
        }
        self.counts.full = self.counts.full.saturating_add(1);
        Ok(Answer::refusal(self.alloc, Refusal::Full)?)
    }

    /// That a claim to put is for another number than the next one, and how its stream is.
    fn tell_conflict(&mut self, stream: u32) -> Result<Answer, LiveFault>
        requires { HasStream self.old.numbers stream }
        ensures status { IfOk result (λ answer. answer.status ≡ status_of Conflict) }
        ensures body { IfOk result (λ answer. IsRefusal Conflict (codes "," ++ state_members Sender (summary_at self.old stream) self.old.numbers stream) answer.body.items) }
        ensures same { self.new ≡ record self.old { counts = self.new.counts; service = self.new.service } }
        ensures looked { HasLooked self.old.service self.new.service }
    {
        self.counts.conflicts = self.counts.conflicts.saturating_add(1);
        let summary = self.look(stream)?;
        let state = self.sender_state(stream, &summary);
        Ok(Answer::conflict_at_sender(self.alloc, self.numbers.life(), stream, state)?)
    }
}

/// Where an event stands, as callers are told.
pub(crate) fn place_of(at: EventAt) -> EventPlace
    ensures { result ≡ record { position = at.position; line = at.line } }
{
    EventPlace {
        position: at.position,
        line: at.line,
    }
}
