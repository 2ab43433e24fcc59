//! Which messages are wanted.
ghost use Rattle.std.specs.Prelude.{◌≡◌, ◌+◌, ◌<◌, ◌≤◌, ◌^◌, ◌-◌, ℕ, [], ◌∷◌, ◌++◌, drop, length, reverse, List, Some, IfOk, if◌then◌else◌, true, false};
ghost use Rattle.amo_object.specs.declared.step.Step.{Step};
ghost use Rattle.amo_object.specs.declared.step.Step.TheVariants.{Ack};
ghost use Rattle.amo_object.specs.Delivery.{messages_got};
ghost use Rattle.amo_resolve.specs.declared.plan.Note.{Note};
ghost use Rattle.amo_resolve.specs.Plan.{IsPlan, IsPlanned, IsNoted, AreBorders, Asks, IsAhead, GoesAfter, IsAfter, downs, noted_down, gets_here, sender_after, receiver_after};

use crate::Step;
use crate::borders::Borders;
use crate::waiting::{Got, is_same};
use amo_object::End;
use std::alloc::{AllocError, Global};

/// What is noted of a call.
#[derive(Clone, Copy)]
pub(crate) struct Note {
    /// Where a side is down: so many of the messages got from here on have to wait here.
    pub(crate) wanted: usize,
    /// A side is down after the call.
    pub(crate) is_down: bool,
    /// The next answer is yes, before any put.
    pub(crate) is_told_yes: bool,
    /// The next answer is no, before any put and any call that leaves a side down.
    pub(crate) is_told_no: bool,
}

/// What the calls from some place on ask. Their first stretch ends with the next call that leaves a side down, or with the next yes.
#[derive(Clone, Copy)]
pub(crate) struct Ahead {
    /// How many messages the stretch gets.
    here: usize,
    /// So many let the calls go on, if any do: those got in the stretch, and then those that are wanted after it and not put in it.
    most: usize,
    /// So many of the last messages that the stretch gets can be the first ones put in it, so they need not wait.
    spared: usize,
    /// No other count than `most` will do: all that is put in the stretch is got in it.
    is_settled: bool,
    /// How many messages the calls get before the next answer or put.
    got: usize,
    /// The next answer is yes, before any put.
    is_told_yes: bool,
    /// The next answer is no, before any put and any call that leaves a side down.
    is_told_no: bool,
}

impl Ahead {
    /// Of no calls.
    fn nothing() -> Ahead
        ensures ahead { (notes : List Note) → IsAhead result [] notes }
        ensures here { result.here ≡ 0 }
    {
        Ahead {
            here: 0,
            most: 0,
            spared: 0,
            is_settled: false,
            got: 0,
            is_told_yes: false,
            is_told_no: false,
        }
    }

    /// The note of a call that comes before.
    fn note(self, is_down: bool) -> Note
        requires { self.spared ≤ self.most }
        ensures down { result.is_down ≡ is_down }
        ensures noted { (calls : List Step) (notes : List Note) → IsPlan calls notes → IsAhead self calls notes → IsNoted calls notes result }
    {
        let wanted = if !is_down {
            0
        } else if self.is_told_yes {
            self.got
        } else {
            self.most - self.spared
        };
        Note {
            is_down,
            wanted,
            is_told_yes: self.is_told_yes,
            is_told_no: self.is_told_no,
        }
    }

    /// The same, asked right after a call with this note.
    fn after(self, note: Note) -> Ahead
        ensures after { (calls : List Step) (notes : List Note) → IsAhead self calls notes → IsNoted calls notes note → IsAfter result calls notes note }
        ensures here { result.here ≡ if note.is_down then 0 else self.here }
        ensures most { result.most ≡ if note.is_down then note.wanted else self.most }
        ensures spared { result.spared ≡ if note.is_down then 0 else self.spared }
        ensures got { result.got ≡ self.got }
    {
        if note.is_down {
            Ahead {
                here: 0,
                most: note.wanted,
                spared: 0,
                is_settled: note.is_told_yes && note.wanted == 0,
                is_told_no: false,
                ..self
            }
        } else {
            self
        }
    }

    /// Of one call more, before the others. Of those that `got` has, these get the messages from `first` on.
    fn before(self, call: &Step, got: &Got<'_>, first: usize, borders: &Borders) -> Ahead
        requires numbers { (self.most + 1 < 2 ^ 64) × (self.got + 1 < 2 ^ 64) × (self.here + 1 < 2 ^ 64) × (length got.now < 2 ^ 64) }
        requires counts { (self.spared ≤ self.here) × (first + self.here ≤ length got.now) × (first + self.most ≤ length got.now) }
        requires borders { AreBorders got.now (first + self.here) borders.now.lengths.items × (length borders.now.lengths.items ≡ self.here + 1) }
        ensures ahead { (calls : List Step) (notes : List Note) (note : Note) → drop first got.now ≡ messages_got calls → IsAfter self calls notes note
            → IsAhead result (call.now ∷ calls) (note ∷ notes) }
        ensures here { result.here ≡ gets_here call.now self.here }
    {
        match call {
            Step::Put(message) => {
                let asked = self.put(message.as_slice(), got, first, borders);
                Ahead {
                    got: 0,
                    is_told_yes: false,
                    is_told_no: false,
                    ..asked
                }
            }
            Step::Get(_) => Ahead {
                here: self.here + 1,
                most: self.most + 1,
                got: self.got + 1,
                ..self
            },
            Step::Ack(answer) => self.answer(*answer),
            _ => self,
        }
    }

    /// Of an answer more, before the other calls.
    fn answer(self, answer: bool) -> Ahead
        ensures ahead { (calls : List Step) (notes : List Note) (note : Note) → IsAfter self calls notes note → IsAhead result (Ack answer ∷ calls) (note ∷ notes) }
        ensures here { result.here ≡ if answer then 0 else self.here }
    {
        if answer {
            return Ahead {
                here: 0,
                most: 0,
                spared: 0,
                is_settled: true,
                got: 0,
                is_told_yes: true,
                is_told_no: false,
            };
        }
        Ahead {
            got: 0,
            is_told_yes: false,
            is_told_no: true,
            ..self
        }
    }

    /// Of a put more, before the other calls, but for what the next answer is.
    fn put(self, message: &[u8], got: &Got<'_>, first: usize, borders: &Borders) -> Ahead
        requires numbers { (self.here + 1 < 2 ^ 64) × (length got.now < 2 ^ 64) }
        requires counts { (self.spared ≤ self.here) × (first + self.here ≤ length got.now) × (first + self.most ≤ length got.now) }
        requires borders { AreBorders got.now (first + self.here) borders.now.lengths.items × (length borders.now.lengths.items ≡ self.here + 1) }
        ensures asks { (calls : List Step) (notes : List Note) (note : Note) → drop first got.now ≡ messages_got calls → IsAfter self calls notes note
            → Asks result.here result.most result.spared result.is_settled (λ xs. GoesAfter calls notes note (xs ++ message.now ∷ [])) (messages_got calls) }
        ensures here { result.here ≡ self.here }
    {
        if self.is_settled {
            return Ahead {
                most: self.most.saturating_sub(1),
                ..self
            };
        }
        let here = self.here;
        let most = self.most;
        if here < most {
            let last = got.at(first + most - 1);
            if is_same(last, message) {
                return Ahead {
                    most: most - 1,
                    ..self
                };
            }
            return self;
        }
        let spared = borders.longer(got, first + here, here, self.spared, message);
        Ahead { spared, ..self }
    }
}

/// Whether the sender is down after a call.
fn sender_after(down: bool, call: &Step) -> bool
    ensures { result ≡ sender_after down call.now }
{
    match call {
        Step::Crash(End::Sender) => true,
        Step::Recover(End::Sender) => false,
        _ => down,
    }
}

/// Whether the receiver is down after a call.
fn receiver_after(down: bool, call: &Step) -> bool
    ensures { result ≡ receiver_after down call.now }
{
    match call {
        Step::Crash(End::Receiver) => true,
        Step::Recover(End::Receiver) => false,
        _ => down,
    }
}

/// Whether a side is down after each call.
fn mark_down(alloc: Global, calls: &[Step]) -> Result<Vec<bool>, AllocError>
    ensures downs { IfOk result (λ marks. marks.items ≡ downs false false calls.now) }
    ensures count { IfOk result (λ marks. length marks.items ≡ length calls.now) }
{
    let mut marks = Vec::with_capacity(alloc, calls.len())?;
    let mut sender_down = false;
    let mut receiver_down = false;
    for call in calls {
        sender_down = sender_after(sender_down, call);
        receiver_down = receiver_after(receiver_down, call);
        marks.push(sender_down || receiver_down)?;
    }
    Ok(marks)
}

/// Keeps the note of a call before those of which notes are kept, if it leaves a side down.
fn keep(kept: &mut Vec<Note>, note: Note) -> Result<(), AllocError>
    ensures { IfOk result (λ _. (notes : List Note) → reverse kept.old.items ≡ noted_down notes → reverse kept.new.items ≡ noted_down (note ∷ notes)) }
{
    if note.is_down {
        kept.push(note)?;
    }
    Ok(())
}

/// Takes the note of the next call that leaves a side down out of those that are kept.
pub(crate) fn next_note(kept: &mut Vec<Note>) -> Option<Note>
    ensures { (note : Note) (notes : List Note) → note.is_down ≡ true → reverse kept.old.items ≡ noted_down (note ∷ notes)
        → (result ≡ Some note) × (reverse kept.new.items ≡ noted_down notes) }
{
    kept.pop()
}

/// A note for each call that leaves a side down, the last call's first: of the other calls, of which there are many more, none is kept.
pub(crate) fn plan(alloc: Global, calls: &[Step], got: &Got<'_>) -> Result<Vec<Note>, AllocError>
    requires { got.now ≡ messages_got calls.now }
    ensures { IfOk result (λ kept. IsPlanned calls.now kept.items) }
{
    let marks = mark_down(alloc, calls)?;
    let mut kept = Vec::new(alloc);
    let mut borders = Borders::nothing(alloc)?;
    let mut ahead = Ahead::nothing();
    let mut first = got.len();
    let mut place = calls.len();
    while place > 0 {
        place -= 1;
        let call = &calls[place];
        let note = ahead.note(marks[place]);
        keep(&mut kept, note)?;
        ahead = before(ahead, call, note, got, first, &mut borders)?;
        first = got_before(first, call);
    }
    Ok(kept)
}

/// What calls ask with one call more before them, which has this note. The borders are those of the stretch that begins here.
fn before(
    ahead: Ahead,
    call: &Step,
    note: Note,
    got: &Got<'_>,
    first: usize,
    borders: &mut Borders,
) -> Result<Ahead, AllocError>
    requires numbers { (note.wanted + 1 < 2 ^ 64) × (ahead.here + 1 < 2 ^ 64) × (ahead.most + 1 < 2 ^ 64) × (ahead.got + 1 < 2 ^ 64) × (length got.now < 2 ^ 64) }
    requires counts { (ahead.spared ≤ ahead.here) × (first + ahead.here ≤ length got.now) × (first + ahead.most ≤ length got.now) × (first + note.wanted ≤ length got.now) }
    requires first { length (messages_got (call.now ∷ [])) ≤ first }
    requires borders { AreBorders got.now (first + ahead.here) borders.old.lengths.items × (length borders.old.lengths.items ≡ ahead.here + 1) }
    ensures ahead { IfOk result (λ before. (calls : List Step) (notes : List Note) → drop first got.now ≡ messages_got calls → IsAhead ahead calls notes
        → IsNoted calls notes note → IsAhead before (call.now ∷ calls) (note ∷ notes)) }
    ensures borders { IfOk result (λ before. AreBorders got.now (first - length (messages_got (call.now ∷ [])) + before.here) borders.new.lengths.items
        × (length borders.new.lengths.items ≡ before.here + 1)) }
{
    let same = ahead.after(note);
    borders.fit(same.here, got, first + ahead.here)?;
    let before = same.before(call, got, first, borders);
    borders.fit(before.here, got, first + same.here)?;
    Ok(before)
}

/// How many messages were got before a call.
fn got_before(after: usize, call: &Step) -> usize
    requires { length (messages_got (call.now ∷ [])) ≤ after }
    ensures { result + length (messages_got (call.now ∷ [])) ≡ after }
{
    match call {
        Step::Get(_) => after - 1,
        _ => after,
    }
}
