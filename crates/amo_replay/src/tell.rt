//! Tells how a replay ended: the line of its fault, and the status that the program ends with.
ghost use Rattle.std.specs.Prelude.{◌≡◌, ◌+◌, IfOk, IsErrOf};
ghost use Rattle.std.specs.String.{string_bytes};
ghost use Rattle.std.specs.Io.KnownBytes.{Appends};
ghost use Rattle.amo_text.specs.Sink.{AppendsFront};
ghost use Rattle.amo_replay.specs.Ending.{fault_line, status_of};

use crate::{Ending, ToolFault};
use amo_text::{Sink, write_all};
use std::alloc::{AllocError, Global};

/// The line of a fault, with its end; nothing for a replay that is done.
fn fault_line(alloc: Global, ending: &Ending) -> Result<String, AllocError>
    ensures { IfOk result (λ text. string_bytes text ≡ fault_line ending.now) }
{
    match ending {
        Ending::Done => Ok(String::new(alloc)),
        Ending::Malformed(line) => format!(in alloc; "amo: line {line}: malformed\n"),
        Ending::Unsent(line) => format!(in alloc; "amo: line {line}: unsent\n"),
        Ending::Repeat(line) => format!(in alloc; "amo: line {line}: repeat\n"),
    }
}

/// Writes the line of a replay's fault, nothing for one that is done, and answers the status to end with.
pub fn ending<W: Sink>(alloc: Global, ending: &Ending, sink: &mut W) -> Result<u8, ToolFault>
    ensures status { IfOk result (λ status. status ≡ status_of ending.now) }
    ensures written { IfOk result (λ status. Appends (W.written sink.old) (W.written sink.new) (fault_line ending.now)) }
    ensures memory { IsErrOf result ToolFault.NoMemory → W.written sink.new ≡ W.written sink.old }
    ensures device { IsErrOf result ToolFault.Device → AppendsFront (W.written sink.old) (W.written sink.new) (fault_line ending.now) }
    ensures failed { IsErrOf result ToolFault.Device → W.failures sink.new ≡ W.failures sink.old + 1 }
    ensures calm { ¬ (IsErrOf result ToolFault.Device) → W.failures sink.new ≡ W.failures sink.old }
    ensures never_busy { ¬ (IsErrOf result ToolFault.Busy) }
{
    let text = fault_line(alloc, ending)?;
    write_all(sink, text.as_bytes())?;
    Ok(ending.status())
}
