//! Takes, of which each message comes again until it is done.
ghost use Rattle.std.specs.Prelude.{◌≡◌, ◌↔◌, ℕ, List, None, Some, [], ◌⊎◌, true, false, IfNone, IfOk, IfSome, IsTrue};
ghost use Rattle.amo_call.specs.Heard.{ToCall};
ghost use Rattle.amo_call.specs.Kept.{done_of, kept_text};
ghost use Rattle.amo_call.specs.Naming.{HasCall, MayTakeFrom};
ghost use Rattle.amo_call.specs.Takes.{BeginsBehind, ComesToTake, IsFirstTake, IsNextTake, IsOver, IsTaking, IsToldTake, NamesMessage, TakesBy, TellsTakenFor, ToldTake, after_of, take_behind};
ghost use Rattle.amo_call.specs.Turns.{HasTake, HasToldTake};

use crate::answer::{Response, read_state};
use crate::caller::{ask_until, copied};
use crate::pages::{read_next_line, read_page};
use crate::{CallFault, Caller, Kept, Progress, Request};
use amo_door::{Claim, Word};
use amo_packet::Message;
use std::alloc::Global;

/// What is told of the next message of a stream.
#[derive(Drop)]
pub enum TakeTold {
    /// It was taken for this claim, by this line of the host's journal, and is not done.
    Taken {
        claim: Claim,
        line: u64,
        message: Message,
    },
    /// None came.
    Nothing,
    /// Another program takes on the stream, or the host does not know any more what was taken: whether this call took a message is not known.
    Doubtful,
    /// No answer came. What was taken comes at the next call.
    NoAnswer,
    /// The file is that of another call. Nothing was asked.
    OtherCall,
    /// The door refuses it so.
    Refused(Response),
}

/// What comes of a turn: the take is over, or the call that the file has is made.
#[derive(Drop)]
pub(crate) enum AfterTake {
    Told(TakeTold),
    Turn(Kept),
}

/// Takes the next message of a stream, for this caller where it was not begun before. Where its file was found, the call that it has is gone on with: a
/// message that was taken comes again until it is done. The file has each call before it is made, and each message before it is told.
pub fn take<C: Caller>(
    alloc: Global,
    caller: &mut C,
    found: Option<Kept>,
    stream: u32,
    by: &Word,
) -> Result<TakeTold, CallFault>
    requires found { IfSome found (λ kept. C.saved caller.old ≡ kept_text kept) }
    requires none { IfNone found (C.saved caller.old ≡ []) }
    // A message that is told is in the file: so the same call again asks nothing, and tells the same.
    ensures saved { IfOk result (HasToldTake (C.saved caller.new)) }
    // What is told of a take is what answers told of it, and of each call in the place of another that the one before it took nothing.
    ensures told { IfOk result (ToldTake C.heard stream (TakesBy C.heard stream by.now found) (C.is_silent caller.new) (C.saved caller.new)) }
{
    let mut after = start_or_resume(alloc, caller, found, stream, by)?;
    'turns: for _turn in 0..u64::MAX {
        match after {
            AfterTake::Told(told) => return Ok(told),
            AfterTake::Turn(kept) => after = make(alloc, caller, kept, by)?,
        }
    }
    Err(CallFault::Strange)
}

/// The call whose message is done, where the file has one that was taken, or is done already. None where none was taken.
pub fn done(kept: Kept) -> Option<Kept>
    ensures { result ≡ done_of kept }
{
    let line = match kept.progress {
        Progress::Taken { line, .. } | Progress::Done { line } => line,
        Progress::Taking { .. } | Progress::Putting { .. } | Progress::Put { .. } => return None,
    };
    Some(Kept {
        claim: kept.claim,
        progress: Progress::Done { line },
    })
}

/// Notes in the file of a call that the message which it took is done. Answers whether it took one: else the file keeps what it has.
pub fn note_done<C: Caller>(caller: &mut C, kept: Kept) -> Result<bool, CallFault>
    requires { C.saved caller.old ≡ kept_text kept }
    ensures done { IfOk result (λ is_done. is_done ≡ true → (done : Kept) × (done_of kept ≡ Some done) × (C.saved caller.new ≡ kept_text done)) }
    ensures none { IfOk result (λ is_done. is_done ≡ false → (done_of kept ≡ None) × (C.saved caller.new ≡ C.saved caller.old)) }
{
    let Some(ended) = done(kept) else {
        return Ok(false);
    };
    caller.note(&ended)?;
    Ok(true)
}

/// Goes on with the call that was found, or names one.
fn start_or_resume<C: Caller>(
    alloc: Global,
    caller: &mut C,
    found: Option<Kept>,
    stream: u32,
    by: &Word,
) -> Result<AfterTake, CallFault>
    requires found { IfSome found (λ kept. C.saved caller.old ≡ kept_text kept) }
    requires none { IfNone found (C.saved caller.old ≡ []) }
    ensures saved { IfOk result (HasTake (C.saved caller.new)) }
    ensures told { IfOk result (ComesToTake C.heard stream (TakesBy C.heard stream by.now found) (C.is_silent caller.new) (C.saved caller.new)) }
{
    match found {
        Some(kept) => resume(caller, kept, stream),
        None => start(alloc, caller, stream, by),
    }
}

/// Goes on with the call of a file, where it is a take of this stream. Behind a message that is done the next one is taken.
fn resume<C: Caller>(caller: &mut C, kept: Kept, stream: u32) -> Result<AfterTake, CallFault>
    requires { C.saved caller.old ≡ kept_text kept }
    ensures saved { IfOk result (HasTake (C.saved caller.new)) }
    ensures told { (by : List ℕ) → IfOk result (ComesToTake C.heard stream (TakesBy C.heard stream by (Some kept)) (C.is_silent caller.new) (C.saved caller.new)) }
{
    if kept.claim.stream != stream {
        return Ok(AfterTake::Told(TakeTold::OtherCall));
    }
    match kept.progress {
        Progress::Done { line } => take_next(caller, kept.claim, line),
        _ => Ok(go_on(kept)),
    }
}

/// What comes of the call of a file now: what it took is told, or it is made.
fn go_on(kept: Kept) -> AfterTake
    ensures saved { HasTake (kept_text kept) result }
    ensures value { result ≡ after_of kept }
{
    let Kept { claim, progress } = kept;
    match progress {
        Progress::Taken { line, message } => AfterTake::Told(TakeTold::Taken {
            claim,
            line,
            message,
        }),
        Progress::Taking { from } => AfterTake::Turn(Kept {
            claim,
            progress: Progress::Taking { from },
        }),
        Progress::Putting { .. } | Progress::Put { .. } | Progress::Done { .. } => {
            AfterTake::Told(TakeTold::OtherCall)
        }
    }
}

/// Names the call behind that of a message that is done, which was taken by this line.
fn take_next<C: Caller>(caller: &mut C, claim: Claim, line: u64) -> Result<AfterTake, CallFault>
    requires { HasCall (C.saved caller.old) (record { claim = claim; progress = Progress.Done line }) }
    ensures saved { IfOk result (HasTake (C.saved caller.new)) }
    ensures told { IfOk result (λ after. after ≡ AfterTake.Turn (take_behind claim line)) }
{
    let kept = Kept {
        claim: Claim {
            stream: claim.stream,
            number: claim.number.saturating_add(1),
            life: claim.life,
            by: claim.by,
        },
        progress: Progress::Taking {
            from: line.saturating_add(1),
        },
    };
    caller.name(&kept)?;
    Ok(AfterTake::Turn(kept))
}

/// Names the first call of a file: what was taken before is none of its business.
fn start<C: Caller>(
    alloc: Global,
    caller: &mut C,
    stream: u32,
    by: &Word,
) -> Result<AfterTake, CallFault>
    requires { C.saved caller.old ≡ [] }
    ensures saved { IfOk result (HasTake (C.saved caller.new)) }
    ensures told { IfOk result (ComesToTake C.heard stream (IsFirstTake C.heard stream by.now) (C.is_silent caller.new) (C.saved caller.new)) }
{
    let request = Request::counts(alloc)?;
    let Some(response) = ask_until(caller, &request)? else {
        return Ok(AfterTake::Told(TakeTold::NoAnswer));
    };
    match read_next_line(&response) {
        Some(from) => begin(alloc, caller, stream, from, by),
        None => Ok(AfterTake::Told(TakeTold::Refused(response))),
    }
}

/// Names a call anew: the next number of the stream, in the life that the host lives. Nothing of it was taken by lines in front of this one.
fn begin<C: Caller>(
    alloc: Global,
    caller: &mut C,
    stream: u32,
    from: u64,
    by: &Word,
) -> Result<AfterTake, CallFault>
    requires { MayTakeFrom C.heard stream from (C.saved caller.old) }
    ensures saved { IfOk result (HasTake (C.saved caller.new)) }
    ensures told { IfOk result (ComesToTake C.heard stream (IsNextTake C.heard stream by.now from) (C.is_silent caller.new) (C.saved caller.new)) }
{
    let request = Request::state(alloc, stream, 0)?;
    let Some(response) = ask_until(caller, &request)? else {
        return Ok(AfterTake::Told(TakeTold::NoAnswer));
    };
    let Some(state) = read_state(&response, stream, false) else {
        return Ok(AfterTake::Told(TakeTold::Refused(response)));
    };
    let kept = Kept {
        claim: Claim {
            stream,
            number: state.last.saturating_add(1),
            life: state.life,
            by: copied(by),
        },
        progress: Progress::Taking { from },
    };
    caller.name(&kept)?;
    Ok(AfterTake::Turn(kept))
}

/// Makes the call that the file has.
fn make<C: Caller>(
    alloc: Global,
    caller: &mut C,
    kept: Kept,
    by: &Word,
) -> Result<AfterTake, CallFault>
    requires saved { C.saved caller.old ≡ kept_text kept }
    requires taking { (from : ℕ) × IsTaking kept.claim.stream from kept }
    ensures saved { IfOk result (HasTake (C.saved caller.new)) }
    ensures told { IfOk result (ComesToTake C.heard kept.claim.stream (TakesBy C.heard kept.claim.stream by.now (Some kept)) (C.is_silent caller.new) (C.saved caller.new)) }
{
    let Some(response) = caller.make(&kept)? else {
        return Ok(take_again(caller, kept, TakeTold::NoAnswer));
    };
    look_at_answer(alloc, caller, kept, response, by)
}

/// The door answered a take so.
fn look_at_answer<C: Caller>(
    alloc: Global,
    caller: &mut C,
    kept: Kept,
    response: Response,
    by: &Word,
) -> Result<AfterTake, CallFault>
    requires saved { C.saved caller.old ≡ kept_text kept }
    requires taking { (from : ℕ) × IsTaking kept.claim.stream from kept }
    requires answered { C.heard (ToCall kept response) }
    ensures saved { IfOk result (HasTake (C.saved caller.new)) }
    ensures told { IfOk result (ComesToTake C.heard kept.claim.stream (TakesBy C.heard kept.claim.stream by.now (Some kept)) (C.is_silent caller.new) (C.saved caller.new)) }
{
    if is_nothing(response.status) {
        return Ok(take_again(caller, kept, TakeTold::Nothing));
    }
    match response.status {
        200 => finish(alloc, caller, kept, response),
        409 => Ok(AfterTake::Told(TakeTold::Doubtful)),
        410 => look_back(alloc, caller, kept, by),
        _ => Ok(AfterTake::Told(TakeTold::Refused(response))),
    }
}

/// Whether a status tells that no message came for now, or asks to try later.
fn is_nothing(status: u16) -> bool
    ensures { IsTrue result ↔ ((status ≡ 204) ⊎ ((status ≡ 408) ⊎ (status ≡ 503))) }
{
    status == 204 || status == 408 || status == 503
}

/// The call is made again, where there is time; else this is told.
fn take_again<C: Caller>(caller: &mut C, kept: Kept, told: TakeTold) -> AfterTake
    requires saved { C.saved caller.old ≡ kept_text kept }
    requires told { HasToldTake (C.saved caller.old) told }
    ensures saved { HasTake (C.saved caller.new) result }
    ensures silent { C.is_silent caller.old → C.is_silent caller.new }
    ensures again { (result ≡ AfterTake.Turn kept) ⊎ (result ≡ AfterTake.Told told) }
{
    if caller.pause() {
        AfterTake::Turn(kept)
    } else {
        AfterTake::Told(told)
    }
}

/// A message was taken by a call: the file has it.
fn finish<C: Caller>(
    alloc: Global,
    caller: &mut C,
    kept: Kept,
    response: Response,
) -> Result<AfterTake, CallFault>
    requires saved { C.saved caller.old ≡ kept_text kept }
    requires taking { (from : ℕ) × IsTaking kept.claim.stream from kept }
    requires answered { C.heard (ToCall kept response) }
    requires status { response.status ≡ 200 }
    ensures saved { IfOk result (HasTake (C.saved caller.new)) }
    ensures told { IfOk result (TellsTakenFor kept.claim response) }
{
    let Some(line) = line_for(&response, &kept.claim) else {
        return Err(CallFault::Strange);
    };
    let message = match Message::copy(alloc, response.body.as_slice()) {
        Ok(message) => message,
        Err(fault) => return Err(CallFault::from(fault)),
    };
    keep(caller, kept.claim, line, message)
}

/// The line by which a message was taken for a claim, where the head of an answer names it and the claim's stream and number. A door names all three: what
/// names others answers another call.
fn line_for(response: &Response, claim: &Claim) -> Option<u64>
    ensures { IfSome result (λ line. NamesMessage claim.now line response.now) }
{
    let stream = response.stream?;
    let number = response.number?;
    if stream == claim.stream as u64 && number == claim.number {
        response.line
    } else {
        None
    }
}

/// This message was taken for a claim, by this line: the file has it.
fn keep<C: Caller>(
    caller: &mut C,
    claim: Claim,
    line: u64,
    message: Message,
) -> Result<AfterTake, CallFault>
    requires { IsToldTake C.heard claim.stream (HasCall (C.saved caller.old)) claim line message }
    ensures saved { IfOk result (HasTake (C.saved caller.new)) }
    ensures told { IfOk result (λ after. after ≡ AfterTake.Told (TakeTold.Taken claim line message)) }
{
    let kept = Kept {
        claim,
        progress: Progress::Taken { line, message },
    };
    caller.note(&kept)?;
    Ok(go_on(kept))
}

/// The host lives another life. What the call took in its own life comes first, as the journal tells it; where it took nothing there, another one is made.
fn look_back<C: Caller>(
    alloc: Global,
    caller: &mut C,
    kept: Kept,
    by: &Word,
) -> Result<AfterTake, CallFault>
    requires saved { C.saved caller.old ≡ kept_text kept }
    requires taking { (from : ℕ) × IsTaking kept.claim.stream from kept }
    requires over { IsOver C.heard kept }
    ensures saved { IfOk result (HasTake (C.saved caller.new)) }
    ensures told { IfOk result (ComesToTake C.heard kept.claim.stream (TakesBy C.heard kept.claim.stream by.now (Some kept)) (C.is_silent caller.new) (C.saved caller.new)) }
{
    let stream = kept.claim.stream;
    let Progress::Taking { from: first } = kept.progress else {
        return Ok(AfterTake::Told(TakeTold::OtherCall));
    };
    let mut from = first;
    'pages: for _page in 0..u64::MAX {
        let request = Request::got(alloc, stream, from)?;
        let Some(response) = ask_until(caller, &request)? else {
            return Ok(AfterTake::Told(TakeTold::NoAnswer));
        };
        let Some(page) = read_page(alloc, &response, stream, from)? else {
            return Ok(AfterTake::Told(TakeTold::Refused(response)));
        };
        if page.lines.from > from {
            return Ok(AfterTake::Told(TakeTold::Doubtful));
        }
        if let Some(got) = page.first {
            return keep(caller, kept.claim, got.line, got.message);
        }
        from = page.lines.behind;
        if !page.lines.more {
            return begin_behind(alloc, caller, kept.claim, from, by);
        }
    }
    Err(CallFault::Strange)
}

/// Names another call behind one whose life is over and which took nothing by any line before this one. Where this caller named that one, too, there has to be
/// time, else it is told that nothing came: so a door that answers each call like that is not asked without end.
fn begin_behind<C: Caller>(
    alloc: Global,
    caller: &mut C,
    claim: Claim,
    from: u64,
    by: &Word,
) -> Result<AfterTake, CallFault>
    requires { MayTakeFrom C.heard claim.stream from (C.saved caller.old) }
    ensures saved { IfOk result (HasTake (C.saved caller.new)) }
    ensures told { IfOk result (BeginsBehind C.heard claim.stream by.now from (C.is_silent caller.new) (C.saved caller.new)) }
{
    if claim.by != *by {
        return begin(alloc, caller, claim.stream, from, by);
    }
    if caller.pause() {
        begin(alloc, caller, claim.stream, from, by)
    } else {
        Ok(AfterTake::Told(TakeTold::Nothing))
    }
}
