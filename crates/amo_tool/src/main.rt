//! The program `amo`: replays schedules on a book with both sides of 256 streams, and prints what they reply and emit; runs the
//! service between two hosts, and keeps a journal; is one host of a pair, for clients at its standard input and output or at a door; makes calls of a door;
//! and audits and explains journals, and tells by them what became of messages.
//!
//! `amo_arguments` reads the program's arguments, and answers as `amo_settings` what they choose. `amo_offline` does what needs no other process, and
//! `amo_client` asks a door. `amo_process` is a host for lines, and asks a host to come to its end; `serving` is one for programs. `failure` is why the program
//! cannot do what it was asked for.
#![tactic(auto)]

ghost use Rattle.std.specs.Prelude.{IfOk};
ghost use Rattle.amo_settings.specs.Limits.{IsWithin};

mod failure;
mod serving;

use crate::failure::Failure;
use crate::serving::serve_programs;
use amo_arguments::{ArgumentsFault, not_text, settings};
use amo_client::call_door;
use amo_live::Aside;
use amo_manual::{page, script};
use amo_offline::{
    OfflineFault, audit_files, explain_files, replay_file, run_to_file, tell_or_follow_got,
    tell_outcomes_of,
};
use amo_process::{HostFailure, receive_lines, send_lines, stop_host};
use amo_settings::Settings;
use std::alloc::AllocError;
use std::env;
use std::fs::File;
use std::io::{ErrorKind, IsTerminal, Read, Write};
use std::net::{Net, TcpListener, TcpStream};
use std::os::fd::AsRawFd;
use std::process::ExitCode;
use std::random::RandomSource;
use std::rt::{Clock, Env, Files};
use std::sync::Wait;
use std::thread::Threads;

/// The status of refused arguments.
const REFUSED: u8 = 2;

/// The status of a failure.
const FAILED: u8 = 4;

fn main(rt: HostRuntime) -> ExitCode {
    ExitCode::from(obey(&rt, rt.stdin(), rt.stdout(), rt.stderr()))
}

/// Does what the program's arguments ask for, and answers the status to end with. These are the standard streams.
fn obey<
    R: AllocGlobal
        + Clock
        + Env
        + Files<File = File>
        + Print
        + Eprint
        + RandomSource
        + Threads
        + Wait
        + Net<Listener = TcpListener, Stream = TcpStream>
        + Sync,
    I: Read + AsRawFd + Drop,
    O: Write + AsRawFd + Drop,
    E: Write + IsTerminal + Send + Drop,
>(rt: &R, input: I, output: O, errors: E) -> u8 {
    let done = match choose(rt) {
        Ok(settings) => carry_out(rt, &settings, input, output, errors),
        Err(ArgumentsFault::Text(text, status)) => show(rt, text.as_str(), status),
        Err(ArgumentsFault::Seed) => {
            let _ = rt.eprintln(ArgumentsFault::Seed);
            Ok(REFUSED)
        }
        Err(ArgumentsFault::NoMemory) => Err(Failure::NoMemory),
    };
    match done {
        Ok(status) => status,
        Err(failure) => {
            tell(rt, failure);
            FAILED
        }
    }
}

/// Tells on standard error why the program fails. A host ends also where nobody reads there.
fn tell<R: Eprint>(rt: &R, failure: Failure) {
    let _ = match failure {
        Failure::Host(_) | Failure::Door(_) => Aside::new(rt).eprintln(failure),
        _ => rt.eprintln(failure),
    };
}

/// Carries out the command of these settings, and answers the status to end with.
fn carry_out<
    R: AllocGlobal
        + Clock
        + Files<File = File>
        + Print
        + Eprint
        + RandomSource
        + Threads
        + Wait
        + Net<Listener = TcpListener, Stream = TcpStream>
        + Sync,
    I: Read + AsRawFd + Drop,
    O: Write + AsRawFd + Drop,
    E: Write + IsTerminal + Send + Drop,
>(rt: &R, settings: &Settings, input: I, output: O, errors: E) -> Result<u8, Failure>
    requires { IsWithin settings.now }
{
    match settings {
        Settings::Replay(file) => alone(replay_file(rt, file.as_str(), errors)),
        Settings::Run(settings, file) => alone(run_to_file(rt, settings, file.as_str(), errors)),
        Settings::Audit(file, second) => alone(audit_files(rt, file.as_str(), text_of(second))),
        Settings::Explain(file, second) => alone(explain_files(
            rt,
            file.as_str(),
            text_of(second),
            errors,
        )),
        Settings::Outcomes(settings) => alone(tell_outcomes_of(rt, settings, errors)),
        Settings::Got(settings) => alone(tell_or_follow_got(rt, settings, output)),
        Settings::Send(settings) => hosted(send_lines(rt, settings, input, output)),
        Settings::Receive(settings) => hosted(receive_lines(rt, settings, input, output)),
        Settings::Stop(file) => hosted(stop_host(rt, file.as_str())),
        Settings::Serve(settings) => serve_programs(rt, settings),
        Settings::Call(settings) => call_door(rt, settings, input, output).map_err(Failure::from),
        Settings::Manual => show_page(rt, page(rt.alloc())),
        Settings::Completions(shell) => show_page(rt, script(rt.alloc(), *shell)),
    }
}

/// What a command came to that needs no other process.
fn alone(done: Result<u8, OfflineFault>) -> Result<u8, Failure> {
    done.map_err(Failure::from)
}

/// What a host came to that has no door, or that was asked to come to its end.
fn hosted(done: Result<u8, HostFailure>) -> Result<u8, Failure> {
    done.map_err(Failure::from)
}

/// The name of a second file, if there is one.
fn text_of(file: &Option<String>) -> Option<&str> {
    file.as_ref().map(|file| file.as_str())
}

/// The settings that the program's arguments choose.
fn choose<R: AllocGlobal + Env>(rt: &R) -> Result<Settings, ArgumentsFault>
    ensures { IfOk result IsWithin }
{
    let arguments = match env::args(rt) {
        Ok(arguments) => arguments.collect(rt.alloc()),
        Err(error) if error.kind() == ErrorKind::InvalidData => return Err(not_text(rt.alloc())),
        Err(_) => return Err(ArgumentsFault::NoMemory),
    };
    match arguments {
        Ok(arguments) => settings(rt.alloc(), arguments),
        Err(_) => Err(ArgumentsFault::NoMemory),
    }
}

/// Shows a page on standard output. It is made whole before, so that of one for which there is no memory nothing is shown.
fn show_page<R: Print>(rt: &R, page: Result<String, AllocError>) -> Result<u8, Failure> {
    rt.print(page?).map_err(Failure::of_output)?;
    Ok(0)
}

/// Shows a text about the program's arguments: asked-for help on standard output, all else on standard error.
fn show<R: Print + Eprint>(rt: &R, text: &str, status: u8) -> Result<u8, Failure> {
    if status == 0 {
        rt.print(text).map_err(Failure::of_output)?;
    } else {
        let _ = rt.eprint(text);
    }
    Ok(status)
}
