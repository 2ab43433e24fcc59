//! Runs that keep the messages that are open.
//!
//! Clients do not see what the queue loses, so a run that explains them may lose a message that is still held. One that goes on with its get does
//! not. So a stream with open messages is explained once more, as if each of these were got behind all that happened, and what the run has
//! before that is kept.
ghost use Rattle.std.specs.Prelude.{◌≡◌, ◌≤◌, ◌++◌, ℕ, List, IfOk, IfSome, OnOk, length, reverse, take};
ghost use Rattle.std.specs.List.{All};
ghost use Rattle.amo_object.specs.declared.step.Step.{Step};
ghost use Rattle.amo_object.specs.Run.{is_loss, without_losses};
ghost use Rattle.amo_resolve.specs.Resolved.{IsResolved};
ghost use Rattle.amo_world.specs.Stream.{IsStream};
ghost use Rattle.amo_audit.specs.Audit.{IsSound};
ghost use Rattle.amo_audit.specs.Explanation.{ExplainsAsWell};

use amo_object::{Bytes, End};
use amo_outcomes::{Outcome, outcomes};
use amo_resolve::{Run, Step, explain};
use amo_world::{Event, NoMemory};
use std::alloc::{AllocError, Global};

/// Has each run exchanged for one that loses no message that is open, if the stream's calls have one. The events are in the order of time.
pub(crate) fn keep_open(
    alloc: Global,
    events: &[Event],
    runs: &mut Vec<Run>,
) -> Result<(), NoMemory>
    requires streams { All (λ e. IsStream e.stream) events.now }
    requires sound { IsSound (reverse events.now) }
    requires explained { IsResolved runs.old.items events.now }
    ensures { OnOk result (IsResolved runs.new.items events.now) }
{
    let all = outcomes(alloc, events)?;
    for place in 0..runs.len() {
        if let Some(steps) = kept_steps(alloc, all.as_slice(), &runs[place])? {
            runs[place].steps = steps;
        }
    }
    Ok(())
}

/// The steps of a run that explains the same calls and keeps what is open, if some message is open and there is one.
fn kept_steps(alloc: Global, all: &[Vec<Outcome>], run: &Run) -> Result<Option<Vec<Step>>, NoMemory>
    ensures { IfOk result (λ kept. IfSome kept (λ steps. ExplainsAsWell run.now.steps.items steps.items)) }
{
    let told = told_of(all, run.stream);
    if !told.contains(&Outcome::Open) {
        return Ok(None);
    }
    let (calls, many) = calls_and_gets(alloc, run.steps.as_slice(), told)?;
    match explain(alloc, calls.as_slice())? {
        Some(steps) => Ok(Some(front_of(steps, many))),
        None => Ok(None),
    }
}

/// The calls that a run explains, and behind them those that get what is open; and how many come before these.
fn calls_and_gets(
    alloc: Global,
    steps: &[Step],
    told: &[Outcome],
) -> Result<(Vec<Step>, usize), AllocError>
    ensures calls { IfOk result (λ made. (gets : List Step) × (made.0.items ≡ without_losses steps.now ++ gets)) }
    ensures many { IfOk result (λ made. made.1 ≡ length (without_losses steps.now)) }
{
    let mut calls = calls_of(alloc, steps)?;
    let many = calls.len();
    calls.push(Step::Recover(End::Receiver))?;
    push_gets(alloc, &mut calls, told, steps)?;
    Ok((calls, many))
}

/// What became of the puts of a stream.
fn told_of(all: &[Vec<Outcome>], stream: u32) -> &[Outcome] {
    match all.get((stream as usize).wrapping_sub(1)) {
        Some(told) => told.as_slice(),
        None => &[],
    }
}

/// The calls that a run explains, copied.
fn calls_of(alloc: Global, steps: &[Step]) -> Result<Vec<Step>, AllocError>
    ensures { IfOk result (λ calls. calls.items ≡ without_losses steps.now) }
{
    let mut calls = Vec::new(alloc);
    for place in 0..steps.len() {
        if !is_loss(&steps[place]) {
            calls.push(copy_of(alloc, &steps[place])?)?;
        }
    }
    Ok(calls)
}

/// Appends a get of each message that these steps put and that is open.
fn push_gets(
    alloc: Global,
    calls: &mut Vec<Step>,
    told: &[Outcome],
    steps: &[Step],
) -> Result<(), AllocError>
    ensures { OnOk result ((gets : List Step) × (calls.new.items ≡ calls.old.items ++ gets)) }
{
    let mut put = 0_usize;
    for place in 0..steps.len() {
        if let Step::Put(message) = &steps[place] {
            if told.get(put) == Some(&Outcome::Open) {
                calls.push(Step::Get(bytes_of(alloc, message)?))?;
            }
            // There are fewer puts than steps.
            put = put.saturating_add(1);
        }
    }
    Ok(())
}

/// The steps of a run before the call that comes behind so many others.
fn front_of(steps: Vec<Step>, many: usize) -> Vec<Step>
    ensures steps { (end : ℕ) × (result.items ≡ take end steps.items) }
    ensures calls { without_losses result.items ≡ take many (without_losses steps.items) }
{
    let end = end_of(steps.as_slice(), many);
    let mut front = steps;
    front.truncate(end);
    front
}

/// The place of the call that comes behind so many others, or where the steps end.
fn end_of(steps: &[Step], many: usize) -> usize
    ensures within { result ≤ length steps.now }
    ensures calls { without_losses (take result steps.now) ≡ take many (without_losses steps.now) }
{
    let mut seen = 0;
    for place in 0..steps.len() {
        if !is_loss(&steps[place]) {
            if seen == many {
                return place;
            }
            seen += 1;
        }
    }
    steps.len()
}

/// Whether a step is a loss.
fn is_loss(step: &Step) -> bool
    ensures { result ≡ is_loss step.now }
{
    matches!(step, Step::Lose(_) | Step::LoseAck)
}

/// An equal step.
fn copy_of(alloc: Global, step: &Step) -> Result<Step, AllocError>
    ensures { IfOk result (λ copy. copy ≡ step.now) }
{
    Ok(match step {
        Step::Put(message) => Step::Put(bytes_of(alloc, message)?),
        Step::Get(message) => Step::Get(bytes_of(alloc, message)?),
        Step::Ack(answer) => Step::Ack(*answer),
        Step::Crash(side) => Step::Crash(*side),
        Step::Recover(side) => Step::Recover(*side),
        Step::DownReply(side) => Step::DownReply(*side),
        Step::Lose(place) => Step::Lose(*place),
        Step::LoseAck => Step::LoseAck,
    })
}

/// Equal bytes.
fn bytes_of(alloc: Global, message: &Bytes) -> Result<Bytes, AllocError>
    ensures { IfOk result (λ bytes. bytes ≡ message.now) }
{
    Ok(Bytes::from(Vec::from_slice(alloc, message.as_slice())?))
}
