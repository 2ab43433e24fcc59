//! A run that follows a plan.
ghost use Rattle.std.specs.Prelude.{◌≡◌, ◌+◌, ◌-◌, ◌<◌, ◌≤◌, ◌^◌, ◌||◌, ℕ, Bool, List, [], ◌∷◌, ◌++◌, take, drop, length, true, false, IfOk, IfSome, IfNone};
ghost use Rattle.amo_object.specs.declared.step.Step.{Step};
ghost use Rattle.amo_object.specs.Queue.{start, Allows, is_any_down};
ghost use Rattle.amo_object.specs.Run.{is_loss};
ghost use Rattle.amo_object.specs.Delivery.{messages_got};
ghost use Rattle.amo_resolve.specs.Explanation.{IsExplained};
ghost use Rattle.amo_resolve.specs.Plan.{IsPlanned, Leaves};
ghost use Rattle.amo_resolve.specs.Telling.{IsPushed, OnlyLost, Settles, Moves, Looked, IsNeeded, part, known_of, state_of, state_before};
ghost use Rattle.amo_resolve.specs.Weaving.{LeadsTo, IsDraft};

use crate::Step;
use crate::draft::{Draft, Loss};
use crate::plan::{Note, next_note};
use crate::replica::Replica;
use crate::waiting::Got;
use amo_object::Status;
use std::alloc::{AllocError, Global};

/// A run, so far, and the queue that it leads to.
#[derive(Drop)]
pub(crate) struct Told<'a> {
    draft: Draft,
    queue: Replica<'a>,
}

impl<'a> Told<'a> {
    /// Nothing yet.
    fn new(alloc: Global) -> Told<'a>
        ensures leads { (got : List (List ℕ)) → LeadsTo result.draft [] (state_of got result.queue) }
        ensures start { (got : List (List ℕ)) → state_of got result.queue ≡ start }
        ensures parts { (result.queue.first ≡ 0) × (result.queue.known ≡ 0) × (result.queue.others ≡ []) }
    {
        Told {
            draft: Draft::new(alloc),
            queue: Replica::new(alloc),
        }
    }

    /// The call that comes next, if the queue allows it and it is no loss. Where that is known it is not looked at: a message that is got
    /// is then compared with none.
    fn push_call(
        &mut self,
        got: &Got<'a>,
        call: &'a Step,
        is_known: bool,
    ) -> Result<bool, AllocError>
        requires within { self.old.queue.first < self.old.queue.known → self.old.queue.known ≤ length got.now }
        requires count { self.old.draft.since + 1 < 2 ^ 64 }
        requires known { is_known ≡ true → Allows (state_of got.now self.old.queue) call.now × (is_loss call.now ≡ false) }
        ensures pushed { IfOk result (λ is. is ≡ true
            → IsPushed self.old.draft (state_of got.now self.old.queue) call.now self.new.draft (state_of got.now self.new.queue)) }
        ensures seen { IfOk result (λ is. is ≡ true → is_loss call.now ≡ false) }
        ensures moved { IfOk result (λ is. is ≡ true
            → Moves call.now (known_of got.now self.old.queue) self.old.queue.others (known_of got.now self.new.queue) self.new.queue.others) }
        ensures within { IfOk result (λ is. is ≡ true → self.new.queue.first < self.new.queue.known → self.new.queue.known ≤ length got.now) }
        ensures later { IfOk result (λ is. is ≡ true → (later : List Step) → drop self.old.queue.first got.now ≡ messages_got (call.now ∷ later)
            → drop self.new.queue.first got.now ≡ messages_got later) }
        ensures refused { IfOk result (λ is. is ≡ false → Allows (state_of got.now self.old.queue) call.now → is_loss call.now ≡ false → ⊥) }
    {
        if !is_known && !self.queue.allows(got, call) {
            return Ok(false);
        }
        self.queue.take(got, call)?;
        self.draft.add_call();
        Ok(true)
    }

    /// What waits last is looked at. If it is the last one of those got up to `left`, it stays, and only those before it are
    /// looked for from now on. If not, it is lost. What stood behind it stays: the messages got from `left` up to `end`.
    fn look(&mut self, got: &Got<'a>, left: usize, end: usize) -> Result<usize, AllocError>
        requires some { 0 < length self.old.queue.others }
        requires within { (self.old.queue.first < self.old.queue.known → self.old.queue.known ≤ length got.now) × (self.old.queue.first ≤ left) × (left ≤ end)
            × (self.old.queue.first < end → end ≤ length got.now) }
        requires down { self.old.queue.sender_down || self.old.queue.receiver_down ≡ true }
        ensures looked { IfOk result (λ next. Looked got.now self.old.queue.first left next (length (known_of got.now self.old.queue) + length self.new.queue.others)
            self.old.draft (state_before got.now self.old.queue (part got.now left end)) self.new.draft (state_before got.now self.new.queue (part got.now next end))) }
        ensures same { IfOk result (λ _. (self.new.queue.first ≡ self.old.queue.first) × (self.new.queue.known ≡ self.old.queue.known)
            × (self.new.queue.sender_down ≡ self.old.queue.sender_down) × (self.new.queue.receiver_down ≡ self.old.queue.receiver_down)) }
        ensures fewer { IfOk result (λ _. length self.new.queue.others + 1 ≡ length self.old.queue.others) }
    {
        let first = self.queue.first;
        let place = self.queue.others.len() - 1;
        let stays = got.ends_with(first, left, self.queue.others.at(place));
        self.queue.others.remove(place);
        if stays {
            return Ok(left - 1);
        }
        let before = got.between(first, self.queue.known);
        self.draft.add_loss(Loss::Message(before + place))?;
        if left == end {
            self.queue.settle(Status::No);
        }
        Ok(left)
    }

    /// What waits is lost but for at most `count` of the messages got from here on, if these wait and all that are known to be got
    /// next are among them. Of equal messages the last ones stay. And what is known of the last put is lost, if the next answer
    /// is to be no.
    fn lose_to(&mut self, got: &Got<'a>, count: usize, is_told_no: bool) -> Result<bool, AllocError>
        requires within { self.old.queue.first < self.old.queue.known → self.old.queue.known ≤ length got.now }
        requires down { self.old.queue.sender_down || self.old.queue.receiver_down ≡ true }
        ensures lost { IfOk result (λ is. is ≡ true
            → OnlyLost self.old.draft (state_of got.now self.old.queue) self.new.draft (state_of got.now self.new.queue)) }
        ensures settled { IfOk result (λ is. is ≡ true
            → Settles (state_of got.now self.old.queue) (state_of got.now self.new.queue) (take count (drop self.old.queue.first got.now)) is_told_no) }
        ensures parts { IfOk result (λ is. is ≡ true → (known_of got.now self.new.queue ≡ take count (drop self.old.queue.first got.now))
            × (self.new.queue.others ≡ []) × (self.new.queue.first ≡ self.old.queue.first)) }
        ensures within { IfOk result (λ is. is ≡ true → self.new.queue.first < self.new.queue.known → self.new.queue.known ≤ length got.now) }
        ensures refused { IfOk result (λ is. is ≡ false → (mode : Bool)
            → Leaves mode (take count (drop self.old.queue.first got.now)) (state_of got.now self.old.queue).messages
            → IsNeeded mode (take count (drop self.old.queue.first got.now)) (known_of got.now self.old.queue) self.old.queue.others → ⊥) }
    {
        let first = self.queue.first;
        let end = got.part_end(first, count);
        let mut left = end;
        while self.queue.others.len() > 0 {
            left = self.look(got, left, end)?;
        }
        if left != first.max(self.queue.known) {
            return Ok(false);
        }
        self.queue.known = end;
        if is_told_no && self.queue.status != Status::No {
            self.draft.add_loss(Loss::Answer)?;
            self.queue.status = Status::No;
        }
        Ok(true)
    }
}

/// The losses of a run that has these calls and follows their plan, or none where no run has them. Where some run is known to have
/// them, no message is compared.
pub(crate) fn tell<'a>(
    alloc: Global,
    calls: &'a [Step],
    notes: Vec<Note>,
    got: &Got<'a>,
    is_known: bool,
) -> Result<Option<Draft>, AllocError>
    requires plan { IsPlanned calls.now notes.items }
    requires got { got.now ≡ messages_got calls.now }
    requires known { is_known ≡ true → IsExplained calls.now }
    ensures explains { IfOk result (λ draft. IfSome draft (λ losses. IsDraft losses calls.now)) }
    ensures none { IfOk result (λ draft. IfNone draft (¬ (IsExplained calls.now))) }
{
    let mut told = Told::new(alloc);
    let mut later = notes;
    for place in 0..calls.len() {
        let call = &calls[place];
        if !told.push_call(got, call, is_known)? {
            return Ok(None);
        }
        if told.queue.is_any_down() {
            let Some(note) = next_note(&mut later) else {
                return Ok(None);
            };
            if !told.lose_to(got, note.wanted, note.is_told_no)? {
                return Ok(None);
            }
        }
    }
    Ok(Some(told.draft))
}
