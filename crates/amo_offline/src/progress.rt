//! A line at a terminal that tells how far a run is.
ghost use Rattle.std.specs.Prelude.{IfOk};
ghost use Rattle.amo_run.specs.Ran.{HasLines, IsRanOf};
ghost use Rattle.amo_settings.specs.Limits.{AreWithin};

use amo_run::{Progress, Ran, RunFault, RunSettings, run_watched};
use std::alloc::Global;
use std::io::{IsTerminal, Write};
use std::net::Net;
use std::sync::Wait;
use std::thread::Threads;
use std::time::Duration;
use std::{io, thread};

/// How long the line stands before it is written anew, in milliseconds. A run that is over before shows none.
const PAUSE: u64 = 200;

/// At least as many blanks as the line has characters.
const BLANKS: &[u8] =
    b"                                                                                                ";

/// Runs the service. Where errors go to a terminal, a line there tells meanwhile how far the run is, and is gone when it answers,
/// whatever that is. Where no thread can be had for the line, there is none.
pub(crate) fn run_shown<R: Threads + Wait + Net + Sync, E: Write + IsTerminal + Send + Drop>(
    rt: &R,
    alloc: Global,
    settings: &RunSettings,
    errors: E,
) -> Result<Ran, RunFault>
    requires within { AreWithin settings.now }
    ensures whole { IfOk result (IsRanOf settings.now) }
    ensures spelt { IfOk result (HasLines settings.now) }
{
    let progress = Progress::new();
    if errors.is_terminal() {
        run_beside_line(rt, alloc, settings, &progress, errors)
    } else {
        run_watched(rt, alloc, settings, &progress)
    }
}

/// The same, with a thread that writes the line.
fn run_beside_line<R: Threads + Wait + Net + Sync, E: Write + Send + Drop>(
    rt: &R,
    alloc: Global,
    settings: &RunSettings,
    progress: &Progress,
    terminal: E,
) -> Result<Ran, RunFault>
    requires within { AreWithin settings.now }
    ensures whole { IfOk result (IsRanOf settings.now) }
    ensures spelt { IfOk result (HasLines settings.now) }
{
    thread::scope(
        thread::scope_env(),
        rt,
        |scope| -> Result<Ran, RunFault>
            requires within { AreWithin settings.now }
            ensures whole { IfOk result (IsRanOf settings.entry.now) }
            ensures spelt { IfOk result (HasLines settings.entry.now) }
        {
            let _ = scope.spawn(move || show_until_end(rt, alloc, progress, terminal));
            run_watched(rt, alloc, settings, progress)
        },
    )
}

/// Writes the line again and again until the run is over, and then clears it. A terminal that fails is left alone.
fn show_until_end<R: Wait, E: Write + Drop>(
    rt: &R,
    alloc: Global,
    progress: &Progress,
    terminal: E,
) {
    let mut line = Line {
        terminal,
        length: 0,
    };
    'pauses: for _ in rt.forever() {
        if progress.wait_for_end(rt, Duration::from_millis(PAUSE))
            || line.show(alloc, progress).is_err()
        {
            break;
        }
    }
    let _ = line.clear();
}

/// A line that is written over itself. It never gets shorter, since no count falls.
#[derive(Drop)]
struct Line<E> {
    terminal: E,
    /// How many characters stand there.
    length: usize,
}

impl<E: Write> Line<E> {
    /// Writes how far the run is, in one piece.
    fn show(&mut self, alloc: Global, progress: &Progress) -> io::Result<()> {
        let text = format!(in alloc;
            "\r{} events, {} messages got, {} crashes",
            progress.events(),
            progress.got(),
            progress.crashes()
        )?;
        // All but the carriage return.
        self.length = text.len().saturating_sub(1);
        self.terminal.write_all(text.as_bytes())
    }

    /// Leaves an empty line, if there was one.
    fn clear(&mut self) -> io::Result<()> {
        if self.length == 0 {
            return Ok(());
        }
        let blanks = BLANKS.get(..self.length).unwrap_or(BLANKS);
        self.terminal.write_all(b"\r")?;
        self.terminal.write_all(blanks)?;
        self.terminal.write_all(b"\r")
    }
}
