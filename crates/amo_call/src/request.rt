//! The requests by which calls are made, and questions asked.
ghost use Rattle.std.specs.Prelude.{◌≡◌, ◌++◌, [], IfOk, OnOk, codes};
ghost use Rattle.std.specs.Fmt.{decimal};
ghost use Rattle.amo_call.specs.Request.{Asks, events_target, from_text, got_target, message_text, outcome_target, put_target, state_target, stream_text, take_target, take_text, taking_text};

use crate::{Kept, Progress};
use amo_door::{Claim, Method};
use amo_packet::Message;
use amo_text::push_decimal;
use std::alloc::{AllocError, Global};

/// A request, before it is spelt for a connection.
#[derive(Drop)]
pub struct Request {
    /// How it asks.
    pub method: Method,
    /// What it asks for.
    pub target: Vec<u8>,
    /// The bytes that it brings.
    pub body: Vec<u8>,
}

impl Request {
    /// The put of this message that a claim names.
    pub fn put(alloc: Global, claim: &Claim, message: &Message) -> Result<Request, AllocError>
        ensures target { IfOk result (λ request. request.target.items ≡ put_target claim.now) }
        ensures body { IfOk result (λ request. request.body.items ≡ message.now) }
        ensures method { IfOk result (λ request. request.method ≡ Method.Put) }
    {
        let mut target = Vec::new(alloc);
        push_message(&mut target, claim)?;
        target.extend_from_slice(b"&by=")?;
        target.extend_from_slice(claim.by.bytes())?;
        Ok(Request {
            method: Method::Put,
            target,
            body: Vec::from_slice(alloc, message.bytes())?,
        })
    }

    /// The take that a claim names, which waits for so many seconds at most.
    pub fn take(alloc: Global, claim: &Claim, wait: u64) -> Result<Request, AllocError>
        ensures target { IfOk result (λ request. request.target.items ≡ take_target claim.now wait) }
        ensures body { IfOk result (λ request. request.body.items ≡ []) }
        ensures method { IfOk result (λ request. request.method ≡ Method.Post) }
    {
        let mut target = Vec::new(alloc);
        push_take(&mut target, claim)?;
        target.extend_from_slice(b"&wait=")?;
        push_decimal(&mut target, wait)?;
        Ok(Request {
            method: Method::Post,
            target,
            body: Vec::new(alloc),
        })
    }

    /// The request that makes a kept call. A take waits for so many seconds at most.
    pub fn of_call(alloc: Global, kept: &Kept, wait: u64) -> Result<Request, AllocError>
        ensures { IfOk result (Asks kept.now wait) }
    {
        match &kept.progress {
            Progress::Putting { message } | Progress::Put { message, .. } => {
                Request::put(alloc, &kept.claim, message)
            }
            Progress::Taking { .. } | Progress::Taken { .. } | Progress::Done { .. } => {
                Request::take(alloc, &kept.claim, wait)
            }
        }
    }

    /// The question what became of the message that a claim names.
    pub fn outcome(alloc: Global, claim: &Claim) -> Result<Request, AllocError>
        ensures target { IfOk result (λ request. request.target.items ≡ outcome_target claim.now) }
        ensures method { IfOk result (λ request. request.method ≡ Method.Get) }
        ensures body { IfOk result (λ request. request.body.items ≡ []) }
    {
        let mut target = Vec::new(alloc);
        push_message(&mut target, claim)?;
        Ok(asked(alloc, target))
    }

    /// The question how a stream is, which is answered once its last message has settled or its next one is ready, or after so many seconds.
    pub fn state(alloc: Global, stream: u32, wait: u64) -> Result<Request, AllocError>
        ensures target { IfOk result (λ request. request.target.items ≡ state_target stream wait) }
        ensures method { IfOk result (λ request. request.method ≡ Method.Get) }
        ensures body { IfOk result (λ request. request.body.items ≡ []) }
    {
        let mut target = Vec::new(alloc);
        push_stream(&mut target, stream)?;
        target.extend_from_slice(b"?wait=")?;
        push_decimal(&mut target, wait)?;
        Ok(asked(alloc, target))
    }

    /// The question which messages of a stream were got, from this line of the journal on.
    pub fn got(alloc: Global, stream: u32, from: u64) -> Result<Request, AllocError>
        ensures target { IfOk result (λ request. request.target.items ≡ got_target stream from) }
        ensures method { IfOk result (λ request. request.method ≡ Method.Get) }
        ensures body { IfOk result (λ request. request.body.items ≡ []) }
    {
        let mut target = Vec::new(alloc);
        push_stream(&mut target, stream)?;
        target.extend_from_slice(b"/got")?;
        push_from(&mut target, from)?;
        Ok(asked(alloc, target))
    }

    /// The question what the host counted.
    pub fn counts(alloc: Global) -> Result<Request, AllocError>
        ensures target { IfOk result (λ request. request.target.items ≡ codes "/metrics") }
        ensures method { IfOk result (λ request. request.method ≡ Method.Get) }
        ensures body { IfOk result (λ request. request.body.items ≡ []) }
    {
        Ok(asked(alloc, Vec::from_slice(alloc, b"/metrics")?))
    }

    /// The wish to be told what happens, from behind this line of the journal on where one is given.
    pub fn events(alloc: Global, after: Option<u64>) -> Result<Request, AllocError>
        ensures target { IfOk result (λ request. request.target.items ≡ events_target after) }
        ensures method { IfOk result (λ request. request.method ≡ Method.Get) }
        ensures body { IfOk result (λ request. request.body.items ≡ []) }
    {
        let mut target = Vec::from_slice(alloc, b"/v1/events")?;
        if let Some(line) = after {
            target.extend_from_slice(b"?after=")?;
            push_decimal(&mut target, line)?;
        }
        Ok(asked(alloc, target))
    }
}

/// A request for what is there. It brings nothing.
fn asked(alloc: Global, target: Vec<u8>) -> Request
    ensures parts { result ≡ record { method = Method.Get; target = target; body = result.body } }
    ensures body { result.body.items ≡ [] }
{
    Request {
        method: Method::Get,
        target,
        body: Vec::new(alloc),
    }
}

/// Appends the place of a stream.
fn push_stream(target: &mut Vec<u8>, stream: u32) -> Result<(), AllocError>
    ensures { OnOk result (target.new.items ≡ target.old.items ++ stream_text stream) }
{
    target.extend_from_slice(b"/v1/streams/")?;
    push_decimal(target, stream as u64)
}

/// Appends the place of the message that a claim names, and its life.
fn push_message(target: &mut Vec<u8>, claim: &Claim) -> Result<(), AllocError>
    ensures { OnOk result (target.new.items ≡ target.old.items ++ message_text claim.now) }
{
    push_stream(target, claim.stream)?;
    target.extend_from_slice(b"/messages/")?;
    push_decimal(target, claim.number)?;
    target.extend_from_slice(b"?life=")?;
    target.extend_from_slice(claim.life.bytes())
}

/// Appends the place of the takes of a claim's stream, and what the claim names.
fn push_take(target: &mut Vec<u8>, claim: &Claim) -> Result<(), AllocError>
    ensures { OnOk result (target.new.items ≡ target.old.items ++ take_text claim.now) }
{
    push_taking(target, claim)?;
    target.extend_from_slice(b"&by=")?;
    target.extend_from_slice(claim.by.bytes())
}

/// Appends the place of the takes of a claim's stream, its number and its life.
fn push_taking(target: &mut Vec<u8>, claim: &Claim) -> Result<(), AllocError>
    ensures { OnOk result (target.new.items ≡ target.old.items ++ taking_text claim.now) }
{
    push_stream(target, claim.stream)?;
    target.extend_from_slice(b"/take?number=")?;
    push_decimal(target, claim.number)?;
    target.extend_from_slice(b"&life=")?;
    target.extend_from_slice(claim.life.bytes())
}

/// Appends that lines are wanted from this one on.
fn push_from(target: &mut Vec<u8>, from: u64) -> Result<(), AllocError>
    ensures { OnOk result (target.new.items ≡ target.old.items ++ from_text from) }
{
    if from > 0 {
        target.extend_from_slice(b"?after=")?;
        push_decimal(target, from - 1)
    } else {
        Ok(())
    }
}
