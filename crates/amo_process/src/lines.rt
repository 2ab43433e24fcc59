//! A host for lines: over a socket, with a journal of its own, for clients at standard input and output.
ghost use Rattle.std.specs.Prelude.{◌≡◌, ◌<◌, ◌≤◌};
ghost use Rattle.amo_settings.specs.Limits.{IsHostWithin};

use crate::failure::HostFailure;
use crate::marking::Marker;
use crate::opening::{
    Prepared, hold_numbers, open_lives, open_socket, path_of_lives, tell_of_start, tell_of_zeros,
};
use crate::stopping::hang_bell;
use amo_client::check_address;
use amo_desk::{Desk, ProcessFault, ServeFault, Telling, run_process};
use amo_disk::{Cause, Disk, Gathered, Opened, Start, open};
use amo_live::{Aside, Bell, Durable, Ended, HostLives, Lineage, LiveFault, Plan, Socket};
use amo_object::End;
use amo_offline::{Retold, tell_untold};
use amo_settings::{HostSettings, ReceiveSettings, SendSettings};
use std::cell::Cell;
use std::fs::File;
use std::io::{Read, Write};
use std::marker::Brand;
use std::net::Net;
use std::os::fd::AsRawFd;
use std::random::RandomSource;
use std::rt::{Clock, Files};
use std::sync::ledger::{Blank, Ledger};

/// The status where something was still on its way at the end.
pub const ON_ITS_WAY: u8 = 5;

/// The status where the last line of standard input had no end, and was not put.
const TORN: u8 = 2;

/// Puts the messages that come, and tells what became of each. Answers the status to end with.
pub fn send_lines<
    R: AllocGlobal + Clock + Eprint + Files<File = File> + Net + RandomSource,
    I: Read + AsRawFd + Drop,
    O: Write + AsRawFd + Drop,
>(rt: &R, settings: &SendSettings, input: I, output: O) -> Result<u8, HostFailure>
    requires { IsHostWithin settings.now.host }
{
    run_host(rt, &settings.host, Plan::to_send(settings), input, output)
}

/// Gets the messages that come, and shows them. Answers the status to end with.
pub fn receive_lines<
    R: AllocGlobal + Clock + Eprint + Files<File = File> + Net + RandomSource,
    I: Read + AsRawFd + Drop,
    O: Write + AsRawFd + Drop,
>(rt: &R, settings: &ReceiveSettings, input: I, output: O) -> Result<u8, HostFailure>
    requires { IsHostWithin settings.now.host }
{
    run_host(
        rt,
        &settings.host,
        Plan::to_receive(settings),
        input,
        output,
    )
}

/// Runs a host until its clients are done, and answers the status to end with.
fn run_host<
    R: AllocGlobal + Clock + Eprint + Files<File = File> + Net + RandomSource,
    I: Read + AsRawFd + Drop,
    O: Write + AsRawFd + Drop,
>(rt: &R, host: &HostSettings, plan: Plan, input: I, output: O) -> Result<u8, HostFailure>
    requires streams { (1 ≤ plan.setup.streams) × (plan.setup.streams ≤ 256) }
    requires piece { 1024 ≤ plan.piece }
{
    check_address(rt, host.listen.as_str())?;
    check_address(rt, host.peer.as_str())?;
    let _held = hold_numbers(rt, plan.setup.side)?;
    let ended = run_opened::<R, I, O, Brand, Brand, Brand>(
        rt,
        host,
        plan,
        input,
        output,
        Blank::new(1),
        Blank::new(1),
        Blank::new(1),
    )?;
    match ended {
        Ended::AtRest => Ok(0),
        Ended::OnItsWay => Ok(ON_ITS_WAY),
        Ended::Torn => Ok(TORN),
    }
}

/// Opens the socket, then the journal, and runs the host with them and the file of lives. The blanks become the ledgers in which contracts count their
/// failures.
fn run_opened<
    R: AllocGlobal + Clock + Eprint + Files<File = File> + Net + RandomSource,
    I: Read + AsRawFd + Drop,
    O: Write + AsRawFd + Drop,
    L: Ledger,
    M: Ledger,
    N: Ledger,
>(
    rt: &R,
    host: &HostSettings,
    plan: Plan,
    input: I,
    output: O,
    link: Blank,
    lines: Blank,
    lives: Blank,
) -> Result<Ended, HostFailure>
    requires link { (link.name ≡ L.name) × (link.parts ≡ L.parts) × (0 < L.parts) }
    requires lines { (lines.name ≡ M.name) × (lines.parts ≡ M.parts) × (0 < M.parts) }
    requires lives { (lives.name ≡ N.name) × (lives.parts ≡ N.parts) × (0 < N.parts) }
    requires streams { (1 ≤ plan.setup.streams) × (plan.setup.streams ≤ 256) }
    requires piece { 1024 ≤ plan.piece }
{
    let alloc = rt.alloc();
    let path = host.journal.as_str();
    let (socket, port) = open_socket::<R, L>(rt, host, link)?;
    let cause = Cell::new(None);
    let opened = open::<R, M>(rt, alloc, path, &plan.wanted(), &cause, lines);
    let Opened { disk, start, zeros } = match opened {
        Ok(opened) => opened,
        Err(fault) => return Err(HostFailure::of_journal(alloc, path, fault)),
    };
    tell_of_zeros(rt, path, zeros);
    let ran = run_noted::<R, I, O, L, _, N>(
        rt, host, plan, input, output, socket, port, disk, start, lives,
    )?;
    match ran {
        Ok(ended) => Ok(ended),
        Err(fault) => Err(HostFailure::of_host(alloc, path, fault, cause.get())),
    }
}

/// Opens the file of lives beside a journal that is open, tells what became of messages of earlier lives, and runs the host. A fault of the file of lives is
/// told here, and any other is handed on.
fn run_noted<
    R: AllocGlobal + Clock + Eprint + Files<File = File> + Net + RandomSource,
    I: Read + AsRawFd + Drop,
    O: Write + AsRawFd + Drop,
    L: Ledger,
    S: Durable + Drop,
    N: Ledger,
>(
    rt: &R,
    host: &HostSettings,
    plan: Plan,
    input: I,
    output: O,
    socket: Socket<L>,
    port: u16,
    disk: S,
    start: Start,
    lives: Blank,
) -> Result<Result<Ended, ProcessFault>, HostFailure>
    requires lives { (lives.name ≡ N.name) × (lives.parts ≡ N.parts) × (0 < N.parts) }
    requires streams { (1 ≤ plan.setup.streams) × (plan.setup.streams ≤ 256) }
{
    let alloc = rt.alloc();
    let path = host.journal.as_str();
    let why = Cell::new(None);
    let Prepared {
        file,
        words,
        bell,
        nail,
    } = prepare::<R, N>(rt, path, &plan, start.lines, &why, lives)?;
    tell_of_start(rt, host.listen.as_str(), port, path, start.lines);
    let ran = tell_and_run(
        rt, path, plan, input, output, socket, disk, start, words, bell,
    );
    nail.take_down(rt);
    match ran? {
        // Who asked for the end may start a host anew then: it finds the port, the files and the place of the bell free.
        Ok((ended, mut bell)) => {
            bell.answer(ended);
            Ok(Ok(ended))
        }
        Err(fault) if fault == ProcessFault::from(LiveFault::Lives) => {
            Err(HostFailure::of_host(alloc, file.as_str(), fault, why.get()))
        }
        Err(fault) => Ok(Err(fault)),
    }
}

/// Opens the file of lives beside the journal at this path, which has so many lines, and hangs the bell.
fn prepare<'a, R: AllocGlobal + Eprint + Files<File = File> + Net + RandomSource, N: Ledger>(
    rt: &R,
    path: &str,
    plan: &Plan,
    lines: u64,
    why: &'a Cell<Option<Cause>>,
    blank: Blank,
) -> Result<Prepared<HostLives<Gathered<Disk<'a, File, N>>>>, HostFailure>
    requires { (blank.name ≡ N.name) × (blank.parts ≡ N.parts) × (0 < N.parts) }
{
    let file = path_of_lives(rt.alloc(), path)?;
    let words = open_lives::<R, N>(rt, file.as_str(), plan, lines, why, blank)?;
    let (bell, nail) = hang_bell(rt, path)?;
    Ok(Prepared {
        file,
        words,
        bell,
        nail,
    })
}

/// Tells what became of messages of earlier lives, and runs the host. One that is to end before all of that was read does not come to work.
fn tell_and_run<
    R: AllocGlobal + Clock + Eprint + Files<File = File>,
    I: Read + AsRawFd + Drop,
    O: Write + AsRawFd + Drop,
    L: Ledger,
    S: Durable + Drop,
    W: Lineage + Drop,
>(
    rt: &R,
    path: &str,
    plan: Plan,
    input: I,
    output: O,
    socket: Socket<L>,
    disk: S,
    start: Start,
    words: W,
    bell: Bell,
) -> Result<Result<(Ended, Bell), ProcessFault>, HostFailure>
    requires { (1 ≤ plan.setup.streams) × (plan.setup.streams ≤ 256) }
{
    let number = socket.number();
    let mut desk = Desk::new(rt.alloc(), &plan.setup, input, output, number, bell)?;
    let Some(retold) = tell_earlier(rt, path, start.lines, &plan, &mut desk)? else {
        return Ok(Ok((Ended::OnItsWay, desk.bell)));
    };
    let mut marker = Marker::new(rt, path, &plan, &retold)?;
    Ok(run_process(
        rt,
        plan,
        desk,
        socket,
        disk,
        start,
        words,
        retold.in_doubt.as_slice(),
        &mut marker,
    ))
}

/// Tells, where the host is a sender, what became of the messages of its earlier lives, which are on so many lines of its journal. None where it is to end
/// before all of that was read: then it is not kept that it was told.
fn tell_earlier<R: AllocGlobal + Clock + Eprint + Files<File = File>, I: Read, O: Write>(
    rt: &R,
    path: &str,
    lines: u64,
    plan: &Plan,
    desk: &mut Desk<I, O>,
) -> Result<Option<Retold>, HostFailure> {
    if plan.setup.side == End::Receiver {
        return Ok(Some(Retold {
            in_doubt: Vec::new(rt.alloc()),
            is_whole: true,
        }));
    }
    let errors = Aside::new(rt);
    let mut telling = match Telling::new(rt, desk, plan.limits.wait) {
        Ok(telling) => telling,
        Err(fault) => return Err(failed(fault)),
    };
    let json = plan.setup.spelling.json;
    let fault = match tell_untold(rt, &errors, path, lines, json, &mut telling) {
        Ok(retold) => return Ok(Some(retold)),
        Err(fault) => fault,
    };
    match telling.is_over() {
        Ok(true) => {
            telling.tell_end(&errors);
            Ok(None)
        }
        Ok(false) => Err(HostFailure::of_retelling(fault)),
        Err(fault) => Err(failed(fault)),
    }
}

/// A host cannot go on, for this reason.
fn failed(fault: ServeFault) -> HostFailure {
    HostFailure::Host(ProcessFault::Serve(fault))
}
