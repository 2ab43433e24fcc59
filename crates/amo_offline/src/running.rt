//! Runs the service, and keeps journals of what happened.
ghost use Rattle.std.specs.Prelude.{◌≡◌, ◌<◌, IfOk};
ghost use Rattle.std.specs.List.{All};
ghost use Rattle.amo_journal.specs.Journal.{CanSpell};
ghost use Rattle.amo_settings.specs.Limits.{AreWithin};

use crate::fault::OfflineFault;
use crate::progress::run_shown;
use crate::watched::Watched;
use amo_journal::{JournalFault, Out, Version, write_journal, write_journal_2};
use amo_run::{RunSettings, version_of};
use amo_world::Event;
use std::alloc::{AllocError, Global};
use std::cell::Cell;
use std::fs;
use std::io::{BufWriter, ErrorKind, IsTerminal, Write};
use std::marker::Brand;
use std::net::Net;
use std::rt::Files;
use std::sync::Wait;
use std::sync::ledger::{Blank, Ledger};
use std::thread::Threads;

/// Runs the service and keeps its journal in this file, or with two books a journal of each: the senders' in the file with `.s`
/// added to its name, the receivers' in the one with `.r`. Tells how much happened, and answers the status to end with. Where `errors`
/// is a terminal it shows meanwhile how far the run is. A journal that may tell of batches is of version 2.
pub fn run_to_file<
    R: AllocGlobal + Files + Print + Threads + Wait + Net + Sync,
    E: Write + IsTerminal + Send + Drop,
>(rt: &R, settings: &RunSettings, file: &str, errors: E) -> Result<u8, OfflineFault>
    requires { AreWithin settings.now }
    ensures { IfOk result (λ status. status ≡ 0) }
{
    let version = version_of(settings);
    let ran = run_shown(rt, rt.alloc(), settings, errors)?;
    if settings.split {
        keep_beside(rt, version, file, ".s", ran.events.as_slice())?;
        keep_beside(rt, version, file, ".r", ran.receivers.as_slice())?;
    } else {
        keep(rt, version, file, ran.events.as_slice())?;
    }
    match println!(rt; "{ran}") {
        Ok(()) => Ok(0),
        Err(error) => Err(OfflineFault::of_output(error)),
    }
}

/// Keeps the journal of this version of these events in the file whose name has this ending behind that of another.
fn keep_beside<R: AllocGlobal + Files>(
    rt: &R,
    version: Version,
    file: &str,
    ending: &str,
    events: &[Event],
) -> Result<(), OfflineFault>
    requires spelt { All (CanSpell version) events.now }
{
    let name = with_ending(rt.alloc(), file, ending)?;
    keep(rt, version, name.as_str(), events)
}

/// The name of a file with an ending added.
fn with_ending(alloc: Global, file: &str, ending: &str) -> Result<String, AllocError> {
    let mut name = String::from_str(alloc, file)?;
    name.push_str(ending)?;
    Ok(name)
}

/// Keeps the journal of this version of these events in a file. What was written has left when it answers.
fn keep<R: AllocGlobal + Files>(
    rt: &R,
    version: Version,
    file: &str,
    events: &[Event],
) -> Result<(), OfflineFault>
    requires spelt { All (CanSpell version) events.now }
{
    let writer = match fs::create(rt, file) {
        Ok(writer) => writer,
        Err(error) => return Err(OfflineFault::of_file(rt.alloc(), file, error)),
    };
    let cause = Cell::new(None);
    let watched = Watched::new(writer, &cause);
    match keep_through::<Watched<'_, R::File>, Brand>(
        rt.alloc(),
        version,
        watched,
        events,
        Blank::new(1),
    ) {
        Ok(()) => Ok(()),
        Err(fault) => Err(OfflineFault::of_kept(rt.alloc(), file, fault, cause.get())),
    }
}

/// Writes the journal of this version of these events, line after line, so that its text never lies in memory whole.
fn keep_through<W: Write + Drop, L: Ledger>(
    alloc: Global,
    version: Version,
    writer: W,
    events: &[Event],
    blank: Blank,
) -> Result<(), JournalFault>
    requires name { blank.name ≡ L.name }
    requires parts { blank.parts ≡ L.parts }
    requires some { 0 < L.parts }
    requires spelt { All (CanSpell version) events.now }
{
    let Ok(buffered) = BufWriter::new(alloc, writer) else {
        return Err(JournalFault::NoMemory);
    };
    let mut out = Out::<BufWriter<W>, L>::new(buffered, blank);
    let written = match version {
        Version::One => write_journal(alloc, events, &mut out),
        Version::Two => write_journal_2(alloc, events, &mut out),
    };
    match out.into_inner().flush() {
        Ok(()) => written,
        Err(error) if error.kind() == ErrorKind::OutOfMemory => Err(JournalFault::NoMemory),
        Err(_) => Err(JournalFault::Device),
    }
}
