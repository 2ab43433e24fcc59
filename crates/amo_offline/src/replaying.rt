//! Replays the schedule in a file.
ghost use Rattle.std.specs.Prelude.{◌≡◌, ◌<◌, ℕ, IfOk, List};
ghost use Rattle.amo_replay.specs.Ending.{status_of};
ghost use Rattle.amo_replay.specs.Transcript.{IsTranscript};
ghost use Rattle.amo_offline.specs.Statuses.{IsOfReplay};

use crate::fault::OfflineFault;
use crate::watched::Watched;
use amo_replay::{Ending, ToolFault, ending, replay};
use amo_text::Out;
use std::cell::Cell;
use std::io::{BufWriter, Printer, Write};
use std::marker::Brand;
use std::rt::Files;
use std::sync::ledger::{Blank, Ledger};
use std::{fs, io};

/// Replays the schedule in a file, writes the transcript on standard output, tells on `errors` how that ended, and answers the status to end with.
pub fn replay_file<R: AllocGlobal + Files + Print, E: Write + Drop>(
    rt: &R,
    file: &str,
    errors: E,
) -> Result<u8, OfflineFault>
    ensures { IfOk result (λ status. (bytes : List ℕ) × IsOfReplay bytes status) }
{
    let bytes = match fs::read(rt, file) {
        Ok(bytes) => bytes,
        Err(error) => return Err(OfflineFault::of_file(rt.alloc(), file, error)),
    };
    replay_and_tell::<R, E, Brand, Brand>(
        rt,
        bytes.as_slice(),
        errors,
        Blank::new(1),
        Blank::new(1),
    )
}

/// Replays the bytes of a schedule, tells how that ended, and answers the status that goes with it.
fn replay_and_tell<R: AllocGlobal + Print, E: Write + Drop, L: Ledger, M: Ledger>(
    rt: &R,
    bytes: &[u8],
    errors: E,
    transcript: Blank,
    telling: Blank,
) -> Result<u8, OfflineFault>
    requires transcript { (transcript.name ≡ L.name) × (transcript.parts ≡ L.parts) × (0 < L.parts) }
    requires telling { (telling.name ≡ M.name) × (telling.parts ≡ M.parts) × (0 < M.parts) }
    ensures { IfOk result (IsOfReplay bytes.now) }
{
    let how = replay_bytes::<R, L>(rt, bytes, transcript)?;
    tell_ending::<R, E, M>(rt, &how, errors, telling)
}

/// Replays the bytes of a schedule to standard output. What was written has left when it answers.
fn replay_bytes<R: AllocGlobal + Print, L: Ledger>(
    rt: &R,
    bytes: &[u8],
    blank: Blank,
) -> Result<Ending, OfflineFault>
    requires name { blank.name ≡ L.name }
    requires parts { blank.parts ≡ L.parts }
    requires some { 0 < L.parts }
    ensures { IfOk result (λ ending. (texts : List (List ℕ)) × IsTranscript bytes.now texts ending) }
{
    let cause = Cell::new(None);
    let watched = Watched::new(io::writer(rt), &cause);
    let buffered = BufWriter::new(rt.alloc(), watched).map_err(OfflineFault::of_output)?;
    let mut out = Out::<BufWriter<Watched<'_, Printer<'_, R>>>, L>::new(buffered, blank);
    let how = replay(rt.alloc(), bytes, &mut out);
    out.into_inner().flush().map_err(OfflineFault::of_output)?;
    match how {
        Ok(ending) => Ok(ending),
        Err(fault) => Err(OfflineFault::of_replay(fault, cause.get())),
    }
}

/// Tells how a replay ended, and answers the status to end with, which stays where standard error does not take it.
fn tell_ending<R: AllocGlobal, E: Write + Drop, L: Ledger>(
    rt: &R,
    how: &Ending,
    errors: E,
    blank: Blank,
) -> Result<u8, OfflineFault>
    requires name { blank.name ≡ L.name }
    requires parts { blank.parts ≡ L.parts }
    requires some { 0 < L.parts }
    ensures { IfOk result (λ status. status ≡ status_of how.now) }
{
    let mut out = Out::<E, L>::new(errors, blank);
    match ending(rt.alloc(), how, &mut out) {
        Ok(status) => Ok(status),
        Err(ToolFault::Device) => Ok(how.status()),
        Err(fault) => Err(OfflineFault::of_replay(fault, None)),
    }
}
