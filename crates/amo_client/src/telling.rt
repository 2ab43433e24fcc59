//! What people are told of a call, and its status.
ghost use Rattle.std.specs.Prelude.{◌≡◌, IfOk};
ghost use Rattle.amo_client.specs.Statuses.{IsOfGet, IsOfPut, fate_status, put_status, take_status};

use crate::fault::ClientFault;
use amo_call::{PutTold, Response, TakeTold, read_refusal};
use amo_disk::Cause;
use amo_door::Fate;
use amo_text::push_hex;
use std::alloc::Global;
use std::io::Write;

/// The status of a file that keeps another call, or none, and of bytes that are no message.
pub(crate) const NO_CALL: u8 = 2;

/// The status of a call to which no answer came.
const NO_ANSWER: u8 = 4;

/// The status of a call that did not come about in time.
const NOT_IN_TIME: u8 = 5;

/// The statuses of what became of a message.
const GONE: u8 = 6;

const OPEN: u8 = 7;

const UNKNOWN: u8 = 8;

const SETTLED: u8 = 9;

/// The status of a call that the door refuses.
const REFUSED: u8 = 10;

/// The status of a door's answer that tells what was asked (RFC 9110).
const DONE: u16 = 200;

/// Tells what is known of a message that was to be put.
pub(crate) fn tell_put<R: AllocGlobal + Eprint + Print>(
    rt: &R,
    path: &str,
    why: Option<Cause>,
    told: PutTold,
) -> Result<u8, ClientFault>
    ensures status { IfOk result (λ status. status ≡ put_status told) }
    ensures documented { IfOk result IsOfPut }
{
    match told {
        PutTold::Put { .. } => say(rt, "put", 0),
        PutTold::Became(fate) => tell_fate(rt, fate),
        PutTold::Doubtful => {
            let _ = eprintln!(rt;
                "amo: another program puts on this stream: whether this was put the host's journal tells"
            );
            say(rt, "unknown", UNKNOWN)
        }
        PutTold::Later(response) => {
            tell_answer(rt, "it was not put yet: the door puts it off", &response);
            Ok(NOT_IN_TIME)
        }
        PutTold::NoNumber => {
            let _ = eprintln!(rt;
                "amo: it was not put: the stream has no number more in this life of its host"
            );
            Ok(NOT_IN_TIME)
        }
        PutTold::NoAnswer => Ok(tell_no_answer(rt, why)),
        PutTold::OtherCall => Ok(tell_other_call(rt, path)),
        PutTold::Refused(response) => Ok(tell_refusal(rt, &response)),
        PutTold::Untold(response) => {
            tell_answer(
                rt,
                "whether it was put is not known: the door refuses to tell",
                &response,
            );
            say(rt, "unknown", UNKNOWN)
        }
    }
}

/// Tells what became of a message that was put in a life of the host that is over.
fn tell_fate<R: Print>(rt: &R, fate: Fate) -> Result<u8, ClientFault>
    ensures status { IfOk result (λ status. status ≡ fate_status fate) }
    ensures documented { IfOk result IsOfPut }
{
    match fate {
        Fate::Got => say(rt, "got", 0),
        Fate::Gone => say(rt, "gone", GONE),
        Fate::Open => say(rt, "open", OPEN),
        Fate::Unknown => say(rt, "unknown", UNKNOWN),
        Fate::Settled => say(rt, "settled", SETTLED),
        Fate::Never => say(rt, "never", GONE),
    }
}

/// Shows a word, and answers this status.
fn say<R: Print>(rt: &R, word: &str, status: u8) -> Result<u8, ClientFault>
    ensures { IfOk result (λ told. told ≡ status) }
{
    match println!(rt; "{word}") {
        Ok(()) => Ok(status),
        Err(error) => Err(ClientFault::of_output(error)),
    }
}

/// Tells what came of a take: the message, on `output`.
pub(crate) fn tell_take<R: AllocGlobal + Eprint, O: Write + Drop>(
    rt: &R,
    path: &str,
    why: Option<Cause>,
    told: TakeTold,
    hex: bool,
    output: O,
) -> Result<u8, ClientFault>
    ensures status { IfOk result (λ status. status ≡ take_status told) }
    ensures documented { IfOk result IsOfGet }
{
    let alloc = rt.alloc();
    match told {
        TakeTold::Taken { message, .. } if hex => {
            let mut text = Vec::new(alloc);
            push_hex(&mut text, message.bytes())?;
            show(alloc, output, text.as_slice())?;
            Ok(0)
        }
        TakeTold::Taken { message, .. } => {
            show(alloc, output, message.bytes())?;
            Ok(0)
        }
        TakeTold::Nothing => Ok(NOT_IN_TIME),
        TakeTold::Doubtful => {
            let _ = eprintln!(rt;
                "amo: another program takes from this stream: what this call took the host's journal tells"
            );
            Ok(UNKNOWN)
        }
        TakeTold::NoAnswer => Ok(tell_no_answer(rt, why)),
        TakeTold::OtherCall => Ok(tell_other_call(rt, path)),
        TakeTold::Refused(response) => Ok(tell_refusal(rt, &response)),
    }
}

/// Shows a text, with a line feed behind it.
pub(crate) fn show<O: Write + Drop>(
    alloc: Global,
    output: O,
    text: &[u8],
) -> Result<(), ClientFault> {
    let mut output = output;
    let mut line = Vec::from_slice(alloc, text)?;
    line.extend_from_slice(b"\n")?;
    match output.write_all(line.as_slice()) {
        Ok(()) => Ok(()),
        Err(error) => Err(ClientFault::of_output(error)),
    }
}

/// Tells that no answer came, and why.
pub(crate) fn tell_no_answer<R: Eprint>(rt: &R, why: Option<Cause>) -> u8
    ensures { result ≡ 4 }
{
    let _ = match why {
        Some(cause) => eprintln!(rt; "amo: no answer came: {cause}: make the same call again"),
        None => eprintln!(rt; "amo: no answer came: make the same call again"),
    };
    NO_ANSWER
}

/// Tells that a file keeps another call.
pub(crate) fn tell_other_call<R: Eprint>(rt: &R, path: &str) -> u8
    ensures { result ≡ 2 }
{
    let _ = eprintln!(rt; "amo: {path}: it keeps another call: nothing was asked");
    NO_CALL
}

/// Tells that no message was taken by the call that a file keeps.
pub(crate) fn tell_nothing_taken<R: Eprint>(rt: &R, path: &str) -> u8
    ensures { result ≡ 2 }
{
    let _ = eprintln!(rt; "amo: {path}: no message was got by this call");
    NO_CALL
}

/// Tells how a door refuses, or that its answer is to another call, as where a stream's puts are asked of a receiver.
pub(crate) fn tell_refusal<R: Eprint>(rt: &R, response: &Response) -> u8
    ensures { result ≡ 10 }
{
    if response.status == DONE {
        let _ = eprintln!(rt;
            "amo: the door answers, and not to this: is its host of the other side?"
        );
    } else {
        tell_answer(rt, "the door refuses it", response);
    }
    REFUSED
}

/// Tells this, and what the door answers: its status, and the word that it has for programs.
fn tell_answer<R: Eprint>(rt: &R, what: &str, response: &Response) {
    let status = response.status;
    let _ = match read_refusal(response) {
        Some(word) => match std::str::from_utf8(word.bytes()) {
            Ok(word) => eprintln!(rt; "amo: {what}: {status} {word}"),
            Err(_) => eprintln!(rt; "amo: {what}: {status}"),
        },
        None => eprintln!(rt; "amo: {what}: {status}"),
    };
}
