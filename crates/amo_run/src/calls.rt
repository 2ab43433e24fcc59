//! The body of a client's thread.
ghost use Rattle.std.specs.Prelude.{◌≡◌, ◌<◌, ◌^◌, ℕ, List, IfOk, IfSome, OnErr};
ghost use Rattle.amo_object.specs.declared.step.End.TheVariants as end;
ghost use Rattle.amo_packet.specs.Message.{IsShort};
ghost use Rattle.amo_text.specs.Message.{IsMessage};
ghost use Rattle.amo_core.specs.declared.act.Act.TheVariants.{Get};
ghost use Rattle.amo_journal.specs.declared.version.Version.{Version};
ghost use Rattle.amo_journal.specs.Journal.{HasReply};
ghost use Rattle.amo_world.specs.declared.event.Event.{Event};
ghost use Rattle.amo_book.specs.Calls.{get_answer};
ghost use Rattle.amo_run.specs.Crew.{IsCall};
ghost use Rattle.amo_run.specs.Fits.{AllFit};
ghost use Rattle.amo_run.specs.Told.{Tells, listed, made_by};

use crate::{ClientCall, ClientReply, Script};
use amo_book::{Book, GetFault, Pass, reply_to_ack, reply_to_get, reply_to_put};
use amo_object::End;
use amo_packet::Message;
use amo_world::{Act, Event, NoMemory, Reply};
use std::alloc::Global;
use std::sync::Wait;

/// Makes the calls of a script until it has no more, and answers the events that they made, each with its position. Each is a put, a get or a
/// question for the last put, and has a line in a journal of either version.
///
/// Nothing bounds a script, so this may never return. Where memory is refused the list is given up; the events stay in
/// the history.
#[tactic(auto, using(crate::proofs::Tellings::tells_more, crate::proofs::Tellings::tells_none, crate::proofs::Spellings::fit_both, crate::proofs::Turning::fit_none))]
pub fn client<S: Script, R: Wait>(
    rt: &R,
    alloc: Global,
    book: &Book,
    pass: &mut Pass,
    script: &mut S,
) -> Result<Vec<(u64, Event)>, NoMemory>
    requires book { pass.old.book ≡ book.now.id }
    ensures told { IfOk result (λ made. Tells pass.old pass.new made.items) }
    ensures fit { IfOk result (λ made. AllFit Version.One book.now.sides IsCall made.items) }
    ensures lost { OnErr result ((made : List (ℕ × Event)) × Tells pass.old pass.new made) }
{
    let mut made = Vec::new(alloc);
    'calls: for _ in rt.forever() {
        let Some(call) = script.next()? else {
            break;
        };
        if made.reserve(1).is_err() {
            return Err(NoMemory);
        }
        if let Some(one) = answer(book, pass, script, call)? {
            made.push_reserved(one);
        }
    }
    Ok(made)
}

/// Makes one call, and answers its event with its position. A call that met Busy, or no such stream, has none.
fn answer<S: Script>(
    book: &Book,
    pass: &mut Pass,
    script: &mut S,
    call: ClientCall,
) -> Result<Option<(u64, Event)>, NoMemory>
    requires book { pass.old.book ≡ book.now.id }
    ensures told { IfOk result (λ one. Tells pass.old pass.new (listed one)) }
    ensures fit { IfOk result (λ one. AllFit Version.One book.now.sides IsCall (listed one)) }
    ensures memory { OnErr result (pass.new ≡ pass.old) }
{
    match call {
        ClientCall::Put(stream, message) => put(book, pass, script, stream, message),
        ClientCall::Get(stream) => Ok(get(book, pass, script, stream)),
        ClientCall::Ack(stream) => Ok(get_ack(book, pass, script, stream)),
    }
}

/// A put. The message is copied for its event before the book takes it.
#[tactic(auto, using(crate::proofs::Tellings::tells_grown, crate::proofs::Spellings::put_fits))]
fn put<S: Script>(
    book: &Book,
    pass: &mut Pass,
    script: &mut S,
    stream: u32,
    message: Message,
) -> Result<Option<(u64, Event)>, NoMemory>
    requires book { pass.old.book ≡ book.now.id }
    ensures told { IfOk result (λ one. Tells pass.old pass.new (listed one)) }
    ensures fit { IfOk result (λ one. AllFit Version.One book.now.sides IsCall (listed one)) }
    ensures memory { OnErr result (pass.new ≡ pass.old) }
{
    is_message(&message);
    let number = pass.number();
    let Ok(copy) = message.clone() else {
        return Err(NoMemory);
    };
    let answered = book.put(pass, stream, message);
    let known = reply_to_put(&answered);
    script.told(&ClientReply::Put(answered));
    Ok(event_of(number, End::Sender, stream, Act::Put(copy), known))
}

/// A get. The message goes from the reply to the event.
#[tactic(auto, using(crate::proofs::Tellings::tells_grown, crate::proofs::Spellings::get_fits))]
fn get<S: Script>(book: &Book, pass: &mut Pass, script: &mut S, stream: u32) -> Option<(u64, Event)>
    requires book { pass.old.book ≡ book.now.id }
    ensures told { Tells pass.old pass.new (listed result) }
    ensures fit { AllFit Version.One book.now.sides IsCall (listed result) }
{
    let number = pass.number();
    let reply = ClientReply::Get(book.get(pass, stream));
    script.told(&reply);
    let known = match reply {
        ClientReply::Get(answered) => spelt_reply_to_get(answered),
        ClientReply::Put(_answered) => return None,
        ClientReply::Ack(_answered) => return None,
    };
    event_of(number, End::Receiver, stream, Act::Get, known)
}

/// A question for the last put.
#[tactic(auto, using(crate::proofs::Tellings::tells_grown, crate::proofs::Spellings::ack_fits))]
fn get_ack<S: Script>(
    book: &Book,
    pass: &mut Pass,
    script: &mut S,
    stream: u32,
) -> Option<(u64, Event)>
    requires book { pass.old.book ≡ book.now.id }
    ensures told { Tells pass.old pass.new (listed result) }
    ensures fit { AllFit Version.One book.now.sides IsCall (listed result) }
{
    let number = pass.number();
    let answered = book.get_ack(pass, stream);
    script.told(&ClientReply::Ack(answered));
    event_of(
        number,
        End::Sender,
        stream,
        Act::Ack,
        reply_to_ack(answered),
    )
}

/// The event of a call that answered with this reply at this position.
fn event_of(
    pass: usize,
    side: End,
    stream: u32,
    act: Act,
    known: Option<(Reply, u64)>,
) -> Option<(u64, Event)>
    ensures event { listed result ≡ made_by pass side stream act known }
    ensures small { IfSome known (λ k. k.1 < 2 ^ 64) }
{
    let (reply, position) = known?;
    let event = Event {
        pass,
        side,
        stream,
        act,
        reply,
    };
    Some((position, event))
}

/// The reply to a get and its event's position, for which a journal has a line.
#[tactic(auto, using(crate::proofs::Spellings::get_replies))]
fn spelt_reply_to_get(answered: Result<(Message, u64), GetFault>) -> Option<(Reply, u64)>
    ensures answer { result ≡ get_answer answered }
    ensures reply { IfSome result (λ k. HasReply Get k.0) }
{
    if let Ok((message, _)) = &answered {
        is_message(message);
    }
    reply_to_get(answered)
}

/// What a journal asks of a message's bytes, which every message keeps. It does nothing.
fn is_message(message: &Message)
    ensures { IsMessage message.now }
{
    are_bytes(message.bytes());
}

/// The same, of bytes that are not too many.
fn are_bytes(bytes: &[u8])
    requires { IsShort bytes.now }
    ensures { IsMessage bytes.now }
{
    let _ = bytes;
}
