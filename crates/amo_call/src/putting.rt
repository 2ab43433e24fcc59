//! Puts, each once.
ghost use Rattle.std.specs.Prelude.{◌≡◌, ◌↔◌, Some, [], ◌⊎◌, true, false, IfNone, IfOk, IfSome, IsTrue, OnOk};
ghost use Rattle.amo_door.specs.declared.claim.EventPlace.{EventPlace};
ghost use Rattle.amo_call.specs.Answer.{TellsPut};
ghost use Rattle.amo_call.specs.Kept.{kept_text};
ghost use Rattle.amo_call.specs.Puts.{BeginsAgain, ComesTo, HasPut, IsAnswered, IsNextPut, IsPutting, MayPut, Resumes, TellsDelay, TellsRefused, ToldPut, WasPut};

use crate::answer::{Response, read_conflict, read_fate, read_put, read_state, tells_unput};
use crate::caller::{ask_until, copied};
use crate::{CallFault, Caller, Kept, Progress, Request};
use amo_door::{Claim, Fate, Word};
use amo_packet::Message;
use std::alloc::Global;

/// A message that is to be put once.
#[derive(Drop)]
pub struct Order {
    /// The stream.
    pub stream: u32,
    /// The message.
    pub message: Message,
    /// Who puts it, where it was not begun before: a word that was drawn at random.
    pub by: Word,
}

/// What is told of a message that was to be put.
#[derive(Drop)]
pub enum PutTold {
    /// It was put for this claim, by this line of the host's journal.
    Put { claim: Claim, line: u64 },
    /// It was put in a life of the host that is over, and this became of it.
    Became(Fate),
    /// Another program puts on the stream, and whether this message was put before is not known.
    Doubtful,
    /// It was not put yet: the door puts it off so, and says that it was not; or its only call was put off, or came too late for its number or its life.
    Later(Response),
    /// It was not put: the life of the host has no number more for it.
    NoNumber,
    /// No answer came, or a call that was made before was put off: it may have been put.
    NoAnswer,
    /// The file is that of another call. Nothing was asked.
    OtherCall,
    /// The door refuses it so, and it was not put: its call was made once, or not at all.
    Refused(Response),
    /// The door refuses so to put it or to tell of it, and it may have been put by a call that was made before.
    Untold(Response),
}

/// A put under way.
#[derive(Drop)]
pub(crate) struct PutTurn {
    /// What the file has.
    kept: Kept,
    /// Whether this call was never made before.
    is_first: bool,
}

/// What comes of a turn: the put is over, or the call that the file has is made.
#[derive(Drop)]
pub(crate) enum AfterPut {
    Told(PutTold),
    Turn(PutTurn),
}

/// Puts a message, once. Where its file was found, the call that it has is gone on with. The file has each call before it is made.
pub fn put<C: Caller>(
    alloc: Global,
    caller: &mut C,
    found: Option<Kept>,
    order: &Order,
) -> Result<PutTold, CallFault>
    requires found { IfSome found (λ kept. C.saved caller.old ≡ kept_text kept) }
    requires none { IfNone found (C.saved caller.old ≡ []) }
    // What is told of a message is what answers told of it, and of each call behind another that the one before it put nothing. What is told to have been put
    // the file says is put: so the same call again asks nothing, and tells the same. What is told to be not put yet, as its only call came too late, the file
    // has no more: so the same call again names another one.
    ensures { IfOk result (ToldPut C.heard order.now (ComesTo C.heard order.now found) (C.is_silent caller.new) (C.saved caller.new)) }
{
    let mut after = begin_or_resume(alloc, caller, found, order)?;
    'turns: for _turn in 0..u64::MAX {
        match after {
            AfterPut::Told(told) => return Ok(told),
            AfterPut::Turn(turn) => after = make(alloc, caller, turn, order)?,
        }
    }
    Err(CallFault::Strange)
}

/// Goes on with the call that was found, or names one.
fn begin_or_resume<C: Caller>(
    alloc: Global,
    caller: &mut C,
    found: Option<Kept>,
    order: &Order,
) -> Result<AfterPut, CallFault>
    requires found { IfSome found (λ kept. C.saved caller.old ≡ kept_text kept) }
    requires none { IfNone found (C.saved caller.old ≡ []) }
    ensures { IfOk result (HasPut C.heard order.now (ComesTo C.heard order.now found) (C.is_fresh caller.new) (C.is_silent caller.new) (C.saved caller.new)) }
{
    match found {
        Some(kept) => Ok(resume(kept, order)),
        None => begin(alloc, caller, order),
    }
}

/// Goes on with the call of a file, where it is that of this message.
fn resume(kept: Kept, order: &Order) -> AfterPut
    ensures { Resumes order.now kept result }
{
    if kept.claim.stream != order.stream {
        return AfterPut::Told(PutTold::OtherCall);
    }
    let Kept { claim, progress } = kept;
    match progress {
        Progress::Put { line, message } => {
            if message == order.message {
                AfterPut::Told(PutTold::Put { claim, line })
            } else {
                AfterPut::Told(PutTold::OtherCall)
            }
        }
        Progress::Putting { message } => {
            if message == order.message {
                let progress = Progress::Putting { message };
                AfterPut::Turn(PutTurn {
                    kept: Kept { claim, progress },
                    is_first: false,
                })
            } else {
                AfterPut::Told(PutTold::OtherCall)
            }
        }
        Progress::Taking { .. } | Progress::Taken { .. } | Progress::Done { .. } => {
            AfterPut::Told(PutTold::OtherCall)
        }
    }
}

/// Names a call anew: the next number of the stream, in the life that the host lives. The file has it then.
fn begin<C: Caller>(alloc: Global, caller: &mut C, order: &Order) -> Result<AfterPut, CallFault>
    requires { MayPut C.heard order.now (C.saved caller.old) }
    ensures { IfOk result (HasPut C.heard order.now (IsNextPut C.heard order.now) (C.is_fresh caller.new) (C.is_silent caller.new) (C.saved caller.new)) }
{
    let request = Request::state(alloc, order.stream, 0)?;
    let Some(response) = ask_until(caller, &request)? else {
        return Ok(AfterPut::Told(PutTold::NoAnswer));
    };
    let Some(state) = read_state(&response, order.stream, true) else {
        return Ok(AfterPut::Told(PutTold::Refused(response)));
    };
    let Some(number) = state.last.checked_add(1) else {
        return Ok(AfterPut::Told(PutTold::NoNumber));
    };
    let kept = Kept {
        claim: Claim {
            stream: order.stream,
            number,
            life: state.life,
            by: copied(&order.by),
        },
        progress: Progress::Putting {
            message: order.message.clone()?,
        },
    };
    caller.name(&kept)?;
    Ok(AfterPut::Turn(PutTurn {
        kept,
        is_first: true,
    }))
}

/// Makes the call that the file has.
fn make<C: Caller>(
    alloc: Global,
    caller: &mut C,
    turn: PutTurn,
    order: &Order,
) -> Result<AfterPut, CallFault>
    requires saved { C.saved caller.old ≡ kept_text turn.kept }
    requires putting { IsPutting order.now turn.kept }
    requires first { turn.is_first ≡ true → C.is_fresh caller.old }
    ensures { IfOk result (HasPut C.heard order.now (ComesTo C.heard order.now (Some turn.kept)) (C.is_fresh caller.new) (C.is_silent caller.new) (C.saved caller.new)) }
{
    let Some(response) = caller.make(&turn.kept)? else {
        return Ok(put_again(caller, turn, PutTold::NoAnswer));
    };
    match read_put(&response, &turn.kept.claim) {
        Some(place) => finish(caller, turn, place.line, order),
        None => look_at_refusal(alloc, caller, turn, response, order),
    }
}

/// The message was not put now.
fn look_at_refusal<C: Caller>(
    alloc: Global,
    caller: &mut C,
    turn: PutTurn,
    response: Response,
    order: &Order,
) -> Result<AfterPut, CallFault>
    requires saved { C.saved caller.old ≡ kept_text turn.kept }
    requires putting { IsPutting order.now turn.kept }
    requires answered { IsAnswered C.heard turn response }
    requires no_place { (place : EventPlace) → ¬ (TellsPut turn.kept.claim place response) }
    ensures { IfOk result (HasPut C.heard order.now (ComesTo C.heard order.now (Some turn.kept)) (C.is_fresh caller.new) (C.is_silent caller.new) (C.saved caller.new)) }
{
    if is_put_off(response.status) {
        let told = told_of_delay(&turn, response);
        return Ok(put_again(caller, turn, told));
    }
    match response.status {
        409 => look_at_conflict(alloc, caller, turn, response, order),
        410 => look_back(alloc, caller, turn, response, order),
        _ => Ok(AfterPut::Told(told_of_refusal(&turn, response))),
    }
}

/// Whether a status asks to try later.
fn is_put_off(status: u16) -> bool
    ensures { IsTrue result ↔ ((status ≡ 408) ⊎ (status ≡ 503)) }
{
    status == 408 || status == 503
}

/// What is told of a call that is put off, where there is no time to make it again. A door at which too many ask, or that a request reached too slowly, says
/// nothing of what was put before.
fn told_of_delay(turn: &PutTurn, response: Response) -> PutTold
    ensures { TellsDelay turn.now response result }
{
    if turn.is_first || tells_unput(&response) {
        PutTold::Later(response)
    } else {
        PutTold::NoAnswer
    }
}

/// What is told of a call that the door refuses. One that was made before may have been done: a refusal says nothing of that.
fn told_of_refusal(turn: &PutTurn, response: Response) -> PutTold
    ensures { TellsRefused turn.now response result }
{
    if turn.is_first {
        PutTold::Refused(response)
    } else {
        PutTold::Untold(response)
    }
}

/// The call is made again, where there is time; else this is told.
fn put_again<C: Caller>(caller: &mut C, turn: PutTurn, told: PutTold) -> AfterPut
    ensures saved { C.saved caller.new ≡ C.saved caller.old }
    ensures silent { C.is_silent caller.old → C.is_silent caller.new }
    ensures again { (result ≡ AfterPut.Turn (record { kept = turn.kept; is_first = false })) ⊎ (result ≡ AfterPut.Told told) }
{
    if caller.pause() {
        AfterPut::Turn(PutTurn {
            kept: turn.kept,
            is_first: false,
        })
    } else {
        AfterPut::Told(told)
    }
}

/// The message was put: the file has that.
fn finish<C: Caller>(
    caller: &mut C,
    turn: PutTurn,
    line: u64,
    order: &Order,
) -> Result<AfterPut, CallFault>
    requires saved { C.saved caller.old ≡ kept_text turn.kept }
    requires putting { IsPutting order.now turn.kept }
    requires put { WasPut C.heard turn.kept line }
    ensures told { IfOk result (λ after. after ≡ AfterPut.Told (PutTold.Put turn.kept.claim line)) }
    ensures saved { OnOk result (C.saved caller.new ≡ kept_text (record { claim = turn.kept.claim; progress = Progress.Put line order.now.message })) }
{
    let message = order.message.clone()?;
    let Kept {
        claim,
        progress: _progress,
    } = turn.kept;
    let kept = Kept {
        claim,
        progress: Progress::Put { line, message },
    };
    caller.note(&kept)?;
    let Kept {
        claim,
        progress: _progress,
    } = kept;
    Ok(AfterPut::Told(PutTold::Put { claim, line }))
}

/// Another program puts on the stream. Where that has the number of the call, or the call was made once, it put nothing: the message gets another number.
fn look_at_conflict<C: Caller>(
    alloc: Global,
    caller: &mut C,
    turn: PutTurn,
    response: Response,
    order: &Order,
) -> Result<AfterPut, CallFault>
    requires saved { C.saved caller.old ≡ kept_text turn.kept }
    requires putting { IsPutting order.now turn.kept }
    requires answered { IsAnswered C.heard turn response }
    requires no_place { (place : EventPlace) → ¬ (TellsPut turn.kept.claim place response) }
    requires status { response.status ≡ 409 }
    ensures { IfOk result (HasPut C.heard order.now (ComesTo C.heard order.now (Some turn.kept)) (C.is_fresh caller.new) (C.is_silent caller.new) (C.saved caller.new)) }
{
    let Some(last) = read_conflict(&response, &turn.kept.claim, true) else {
        return Ok(AfterPut::Told(told_of_refusal(&turn, response)));
    };
    if turn.is_first {
        return begin_again(alloc, caller, Some(response), order);
    }
    if last == turn.kept.claim.number {
        return begin_again(alloc, caller, None, order);
    }
    Ok(AfterPut::Told(PutTold::Doubtful))
}

/// The host lives another life. Where the message was never put in the one of the call, it is put now; else what became of it is told.
fn look_back<C: Caller>(
    alloc: Global,
    caller: &mut C,
    turn: PutTurn,
    response: Response,
    order: &Order,
) -> Result<AfterPut, CallFault>
    requires saved { C.saved caller.old ≡ kept_text turn.kept }
    requires putting { IsPutting order.now turn.kept }
    requires answered { IsAnswered C.heard turn response }
    requires status { response.status ≡ 410 }
    ensures { IfOk result (HasPut C.heard order.now (ComesTo C.heard order.now (Some turn.kept)) (C.is_fresh caller.new) (C.is_silent caller.new) (C.saved caller.new)) }
{
    if turn.is_first {
        return begin_again(alloc, caller, Some(response), order);
    }
    look_at_fate(alloc, caller, turn, order)
}

/// Names another call behind one that put nothing. That one is taken out of the file first: who finds it there later cannot know that. Where it was made once,
/// and was answered so, there has to be time, else it is told that the message was not put yet: so a door that answers each first call like that is not asked
/// without end.
fn begin_again<C: Caller>(
    alloc: Global,
    caller: &mut C,
    once: Option<Response>,
    order: &Order,
) -> Result<AfterPut, CallFault>
    requires { MayPut C.heard order.now (C.saved caller.old) }
    ensures { IfOk result (BeginsAgain C.heard order.now once (C.is_fresh caller.new) (C.is_silent caller.new) (C.saved caller.new)) }
{
    caller.forget()?;
    let Some(response) = once else {
        return begin(alloc, caller, order);
    };
    if caller.pause() {
        begin(alloc, caller, order)
    } else {
        Ok(AfterPut::Told(PutTold::Later(response)))
    }
}

/// The host lives another life than that of a call that was made before: what became of its message decides.
fn look_at_fate<C: Caller>(
    alloc: Global,
    caller: &mut C,
    turn: PutTurn,
    order: &Order,
) -> Result<AfterPut, CallFault>
    requires saved { C.saved caller.old ≡ kept_text turn.kept }
    requires putting { IsPutting order.now turn.kept }
    ensures { IfOk result (HasPut C.heard order.now (ComesTo C.heard order.now (Some turn.kept)) (C.is_fresh caller.new) (C.is_silent caller.new) (C.saved caller.new)) }
{
    let request = Request::outcome(alloc, &turn.kept.claim)?;
    let Some(response) = ask_until(caller, &request)? else {
        return Ok(AfterPut::Told(PutTold::NoAnswer));
    };
    let Some(fate) = read_fate(&response, &turn.kept.claim) else {
        return Ok(AfterPut::Told(PutTold::Untold(response)));
    };
    if was_never(&fate) {
        return begin_again(alloc, caller, None, order);
    }
    Ok(AfterPut::Told(PutTold::Became(fate)))
}

/// Whether a message was never put in a life that is over.
fn was_never(fate: &Fate) -> bool
    ensures { IsTrue result ↔ fate.now ≡ Fate.Never }
{
    matches!(fate, Fate::Never)
}
