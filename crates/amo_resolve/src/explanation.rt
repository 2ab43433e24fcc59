//! A run that explains calls.
ghost use Rattle.std.specs.Prelude.{◌≡◌, true, IfOk, IfSome, IfNone};
ghost use Rattle.amo_resolve.specs.Explanation.{Explains, IsExplained};
ghost use Rattle.amo_resolve.specs.Weaving.{IsDraft};

use crate::draft::Draft;
use crate::plan::plan;
use crate::tell::tell;
use crate::waiting::Got;
use crate::weave::woven;
use crate::{NoMemory, Step};
use amo_object::Bytes;
use std::alloc::{AllocError, Global};

/// A run of the at-most-once queue that has, with its losses left out, exactly these calls, the earliest first; none where no
/// run has them. Which of several runs is given is open.
///
/// # Errors
///
/// `NoMemory` where memory is refused. Nothing is kept, and the caller may try again later.
pub fn explain(alloc: Global, calls: &[Step]) -> Result<Option<Vec<Step>>, NoMemory>
    ensures explains { IfOk result (λ run. IfSome run (λ steps. Explains steps.items calls.now)) }
    ensures none { IfOk result (λ run. IfNone run (¬ (IsExplained calls.now))) }
{
    match losses(alloc, calls, false)? {
        Some(draft) => Ok(Some(woven(copied(alloc, calls, draft.marks.len())?, &draft)?)),
        None => Ok(None),
    }
}

/// A run that explains these calls, of which there is one. The calls are moved into it, and none is copied.
pub(crate) fn explained(alloc: Global, calls: Vec<Step>) -> Result<Vec<Step>, NoMemory>
    requires { IsExplained calls.items }
    ensures { IfOk result (λ run. Explains run.items calls.items) }
{
    match losses(alloc, calls.as_slice(), true)? {
        Some(draft) => Ok(woven(calls, &draft)?),
        None => unreachable!(),
    }
}

/// The losses of a run that explains these calls; none where no run has them. It is quicker where some run is known to have them.
fn losses(alloc: Global, calls: &[Step], is_known: bool) -> Result<Option<Draft>, AllocError>
    requires { is_known ≡ true → IsExplained calls.now }
    ensures explains { IfOk result (λ draft. IfSome draft (λ losses. IsDraft losses calls.now)) }
    ensures none { IfOk result (λ draft. IfNone draft (¬ (IsExplained calls.now))) }
{
    let got = Got::by(alloc, calls)?;
    let notes = plan(alloc, calls, &got)?;
    tell(alloc, calls, notes, &got, is_known)
}

/// Equal calls, with room for so many steps more.
fn copied(alloc: Global, calls: &[Step], more: usize) -> Result<Vec<Step>, AllocError>
    ensures { IfOk result (λ copies. copies.items ≡ calls.now) }
{
    let mut copies = Vec::with_capacity(alloc, calls.len().saturating_add(more))?;
    for call in calls {
        copies.push(copy_of(alloc, call)?)?;
    }
    Ok(copies)
}

/// An equal step.
fn copy_of(alloc: Global, step: &Step) -> Result<Step, AllocError>
    ensures { IfOk result (λ copy. copy ≡ step.now) }
{
    Ok(match step {
        Step::Put(message) => Step::Put(Bytes::from(Vec::from_slice(alloc, message.as_slice())?)),
        Step::Get(message) => Step::Get(Bytes::from(Vec::from_slice(alloc, message.as_slice())?)),
        Step::Ack(answer) => Step::Ack(*answer),
        Step::Crash(side) => Step::Crash(*side),
        Step::Recover(side) => Step::Recover(*side),
        Step::DownReply(side) => Step::DownReply(*side),
        Step::Lose(place) => Step::Lose(*place),
        Step::LoseAck => Step::LoseAck,
    })
}
