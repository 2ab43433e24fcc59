//! A call of a door.
ghost use Rattle.std.specs.Prelude.{◌≡◌, [], None, IfNone, IfOk, IfSome};
ghost use Rattle.amo_call.specs.Kept.{kept_text};
ghost use Rattle.amo_client.specs.File.{bytes_of};
ghost use Rattle.amo_client.specs.Statuses.{IsOfDone, IsOfGet, IsOfPut, IsOfStatus, IsStatusOf};

use crate::address::check_address;
use crate::ending::{end_and_tell, put_and_tell};
use crate::fault::ClientFault;
use crate::held::{FileText, Held, KEEPS_NONE, read_file, unfit};
use crate::message::message_of;
use crate::station::{Explains, Place, Station};
use crate::telling::{
    NO_CALL, show, tell_no_answer, tell_nothing_taken, tell_other_call, tell_refusal, tell_take,
};
use crate::token::read_token;
use crate::watching::watch;
use amo_call::{Asker, Kept, KeptFault, Order, Progress, TakeTold, read_kept, take};
use amo_disk::Cause;
use amo_door::Word;
use amo_packet::Message;
use amo_settings::{CallSettings, DoorCall};
use amo_text::push_hex;
use std::alloc::Global;
use std::fs::File;
use std::io::{Read, Write};
use std::net::{Net, TcpStream};
use std::random::RandomSource;
use std::rt::{Clock, Files};

/// Makes a call of a door, and answers the status to end with. A put without a message has it from `input`; what is asked for, or was got, goes to
/// `output`.
pub fn call_door<
    R: AllocGlobal
        + Clock
        + Eprint
        + Files<File = File>
        + Net<Stream = TcpStream>
        + Print
        + RandomSource,
    I: Read + Drop,
    O: Write + Drop,
>(rt: &R, settings: &CallSettings, input: I, output: O) -> Result<u8, ClientFault>
    ensures { IfOk result (IsStatusOf settings.now.call) }
{
    match &settings.call {
        DoorCall::Put {
            stream,
            state,
            message,
        } => match message_of(rt, settings.hex, message, input)? {
            Some(message) => put_once(rt, settings, *stream, state.as_str(), message),
            None => Ok(NO_CALL),
        },
        DoorCall::Get { stream, state } => {
            get_next(rt, settings, *stream, state.as_str(), output)
        }
        DoorCall::Done { stream, state } => end_last(rt, *stream, state.as_str()),
        DoorCall::Status { stream } => tell_state(rt, &place_of(rt, settings)?, *stream, output),
        DoorCall::Watch { after } => watch(rt, &place_of(rt, settings)?, *after, output),
    }
}

/// The place that is asked for the call of a file. One whose message was put, or was taken, asks nothing: so the door need not be there, nor what finds it,
/// nor its token.
fn place_for<R: AllocGlobal + Clock + Files<File = File> + Net>(
    rt: &R,
    settings: &CallSettings,
    kept: &Option<Kept>,
) -> Result<Place, ClientFault> {
    match kept {
        Some(kept) if is_over(&kept.progress) => Ok(Place::nowhere(rt.alloc())),
        _ => place_of(rt, settings),
    }
}

/// Whether a call has come to its end, so that it is made no more.
fn is_over(progress: &Progress) -> bool {
    matches!(progress, Progress::Put { .. } | Progress::Taken { .. })
}

/// The place that is asked, by whom, and for how long.
fn place_of<R: AllocGlobal + Clock + Files<File = File> + Net>(
    rt: &R,
    settings: &CallSettings,
) -> Result<Place, ClientFault> {
    let alloc = rt.alloc();
    let door = without_scheme(settings.door.as_str());
    check_address(rt, door)?;
    let authorization = match &settings.token_file {
        Some(file) => Some(bearer(alloc, read_token(rt, file.as_str())?)?),
        None => None,
    };
    Ok(Place {
        who: Asker {
            host: String::from_str(alloc, door)?,
            authorization,
        },
        wait: settings.wait.unwrap_or(0),
    })
}

/// An address as a host tells that of its door, without `http://` in front of it.
fn without_scheme(door: &str) -> &str {
    door.strip_prefix("http://").unwrap_or(door)
}

/// The field that brings a token.
fn bearer(alloc: Global, token: String) -> Result<String, ClientFault> {
    let token = token.as_str();
    Ok(format!(in alloc; "Bearer {token}")?)
}

/// Puts a message once, by the call that this file keeps.
fn put_once<
    R: AllocGlobal
        + Clock
        + Eprint
        + Files<File = File>
        + Net<Stream = TcpStream>
        + Print
        + RandomSource,
>(
    rt: &R,
    settings: &CallSettings,
    stream: u32,
    path: &str,
    message: Message,
) -> Result<u8, ClientFault>
    ensures { IfOk result IsOfPut }
{
    let order = Order {
        stream,
        message,
        by: drawn(rt)?,
    };
    let held = Held::take(rt, path)?;
    let status = put_held(rt, settings, path, &order);
    held.leave(rt);
    status
}

/// Puts a message once, by the call that a file keeps which this process holds.
fn put_held<R: AllocGlobal + Clock + Eprint + Files<File = File> + Net<Stream = TcpStream> + Print>(
    rt: &R,
    settings: &CallSettings,
    path: &str,
    order: &Order,
) -> Result<u8, ClientFault>
    ensures { IfOk result IsOfPut }
{
    let Some(Found { text, kept }) = find_call(rt, path)? else {
        return Ok(NO_CALL);
    };
    let place = place_for(rt, settings, &kept)?;
    let mut station = Station::new(rt, &place, path, text)?;
    put_and_tell(rt, &mut station, kept, order, path)
}

/// Takes the next message of a stream, by the call that this file keeps, and shows it.
fn get_next<
    R: AllocGlobal + Clock + Eprint + Files<File = File> + Net<Stream = TcpStream> + RandomSource,
    O: Write + Drop,
>(rt: &R, settings: &CallSettings, stream: u32, path: &str, output: O) -> Result<u8, ClientFault>
    ensures { IfOk result IsOfGet }
{
    let by = drawn(rt)?;
    let held = Held::take(rt, path)?;
    let told = take_held(rt, settings, stream, path, &by);
    held.leave(rt);
    match told? {
        Some((told, why)) => tell_take(rt, path, why, told, settings.hex, output),
        None => Ok(NO_CALL),
    }
}

/// Takes the next message of a stream, by the call that a file keeps which this process holds. Tells why the last attempt failed, too. None where the file
/// keeps no call.
fn take_held<R: AllocGlobal + Clock + Eprint + Files<File = File> + Net<Stream = TcpStream>>(
    rt: &R,
    settings: &CallSettings,
    stream: u32,
    path: &str,
    by: &Word,
) -> Result<Option<(TakeTold, Option<Cause>)>, ClientFault> {
    let Some(Found { text, kept }) = find_call(rt, path)? else {
        return Ok(None);
    };
    let place = place_for(rt, settings, &kept)?;
    let mut station = Station::new(rt, &place, path, text)?;
    let told = take(rt.alloc(), &mut station, kept, stream, by);
    let why = station.why();
    match told {
        Ok(told) => Ok(Some((told, why))),
        Err(fault) => Err(ClientFault::of_call(rt.alloc(), path, fault, why)),
    }
}

/// Notes that the message that was got by the call that this file keeps is done.
fn end_last<R: AllocGlobal + Clock + Eprint + Files<File = File> + Net<Stream = TcpStream>>(
    rt: &R,
    stream: u32,
    path: &str,
) -> Result<u8, ClientFault>
    ensures { IfOk result IsOfDone }
{
    let held = Held::take(rt, path)?;
    let status = end_held(rt, stream, path);
    held.leave(rt);
    status
}

/// Notes that the message that was got by the call that a file keeps is done, which this process holds.
fn end_held<R: AllocGlobal + Clock + Eprint + Files<File = File> + Net<Stream = TcpStream>>(
    rt: &R,
    stream: u32,
    path: &str,
) -> Result<u8, ClientFault>
    ensures { IfOk result IsOfDone }
{
    let Some(Found { text, kept }) = find_call(rt, path)? else {
        return Ok(NO_CALL);
    };
    let Some(kept) = kept else {
        return Ok(tell_nothing_taken(rt, path));
    };
    if kept.claim.stream != stream {
        return Ok(tell_other_call(rt, path));
    }
    let place = Place::nowhere(rt.alloc());
    let mut station = Station::new(rt, &place, path, text)?;
    end_and_tell(rt, &mut station, kept, path)
}

/// Shows how a stream is, once that has settled, or its next message is ready, if there is time for that.
fn tell_state<
    R: AllocGlobal + Clock + Eprint + Files<File = File> + Net<Stream = TcpStream> + Print,
    O: Write + Drop,
>(rt: &R, place: &Place, stream: u32, output: O) -> Result<u8, ClientFault>
    ensures { IfOk result IsOfStatus }
{
    let alloc = rt.alloc();
    let mut station = Station::new(rt, place, "", FileText::absent(alloc))?;
    match station.settle(stream) {
        Ok(Some(response)) if response.status == 200 => {
            show(alloc, output, response.body.as_slice())?;
            Ok(0)
        }
        Ok(Some(response)) => Ok(tell_refusal(rt, &response)),
        Ok(None) => Ok(tell_no_answer(rt, station.why())),
        Err(fault) => Err(ClientFault::of_call(alloc, "", fault, station.why())),
    }
}

/// What the file of a call has, and the call that it keeps: nothing, and none, where there is no file.
struct Found {
    text: FileText,
    kept: Option<Kept>,
}

/// What the file of this path has. None where it keeps no call, which is told.
fn find_call<R: AllocGlobal + Eprint + Files<File = File>>(
    rt: &R,
    path: &str,
) -> Result<Option<Found>, ClientFault>
    ensures call { IfOk result (λ found. IfSome found (λ found. IfSome found.kept (λ kept. bytes_of found.text ≡ kept_text kept))) }
    ensures none { IfOk result (λ found. IfSome found (λ found. IfNone found.kept (bytes_of found.text ≡ []))) }
{
    let alloc = rt.alloc();
    if let Some(why) = unfit(rt, path) {
        return Ok(tell_no_call(rt, path, why));
    }
    let Some(text) = read_file(rt, path)? else {
        return Ok(Some(Found {
            text: FileText::absent(alloc),
            kept: None,
        }));
    };
    match read_kept(alloc, text.bytes()) {
        Ok(kept) => Ok(Some(Found {
            text,
            kept: Some(kept),
        })),
        Err(KeptFault::NoMemory) => Err(ClientFault::NoMemory),
        Err(KeptFault::Malformed) => Ok(tell_no_call(rt, path, KEEPS_NONE)),
    }
}

/// Tells why a file keeps no call.
fn tell_no_call<R: Eprint>(rt: &R, path: &str, why: &str) -> Option<Found>
    ensures { result ≡ None }
{
    let _ = eprintln!(rt; "amo: {path}: {why}");
    None
}

/// A word for who calls, which the system draws.
fn drawn<R: AllocGlobal + RandomSource>(rt: &R) -> Result<Word, ClientFault> {
    let mut bytes = [0; 12];
    if let Err(error) = rt.fill_bytes(&mut bytes) {
        return Err(ClientFault::Random(Cause::from(error)));
    }
    let mut text = Vec::new(rt.alloc());
    push_hex(&mut text, bytes.as_slice())?;
    match Word::read(text.as_slice()) {
        Some(word) => Ok(word),
        None => Err(ClientFault::NoMemory),
    }
}
