//! Replays schedules.
ghost use Rattle.std.specs.Prelude.{◌≡◌, [], ℕ, ◌+◌, List, ◌∷◌, Ok, IfOk, IfErr, OnErr, OnOk, IsErrOf};
ghost use Rattle.std.specs.Io.KnownBytes.{Appends};
ghost use Rattle.amo_world.specs.declared.event.Event.{Event};
ghost use Rattle.amo_text.specs.Sink.{AppendsFront};
ghost use Rattle.amo_schedule.specs.Schedule.{InRange, SpellsSchedule, IsSchedule};
ghost use Rattle.amo_schedule.specs.declared.line.ScheduleLine.{ScheduleLine};
ghost use Rattle.amo_replay.specs.Transcript.{applied, line_text, transcript, flatten, IsTranscript, AppendsLines};
ghost use Rattle.amo_replay.specs.Sides.{IsOwn};
ghost use Rattle.amo_replay.specs.Hosts.{Agree};
ghost use Rattle.amo_replay.specs.Stop.{StopsWriting, IsWhole, StopsReplay};
ghost use Rattle.amo_replay.specs.declared.endings.Ending.TheVariants as ending;

use crate::hosts::{BothHosts, Page};
use crate::stop::Stop;
use crate::{Ending, ToolFault};
use amo_schedule::{Schedule, ScheduleLine};
use amo_text::{Sink, write_all};
use std::alloc::Global;

/// Replays a schedule, and writes a line for each event. Each line of the schedule is found to be one before any event.
pub fn replay<W: Sink>(alloc: Global, bytes: &[u8], sink: &mut W) -> Result<Ending, ToolFault>
    // Exactly the transcript is written, the ending is its own, and what was replayed is right, honest and fresh, so that each
    // stream is served by it.
    ensures ok { IfOk result (λ ending. (texts : List (List ℕ)) × IsTranscript bytes.now texts ending
        × Appends (W.written sink.old) (W.written sink.new) (flatten texts)) }
    // Whole lines of it are written where memory runs out, or the book is busy.
    ensures memory { IsErrOf result ToolFault.NoMemory → AppendsLines bytes.now (W.written sink.old) (W.written sink.new) }
    ensures busy { IsErrOf result ToolFault.Busy → AppendsLines bytes.now (W.written sink.old) (W.written sink.new) }
    // A beginning of it is written where the device fails.
    ensures device { IsErrOf result ToolFault.Device → (lines : List ScheduleLine) → SpellsSchedule bytes.now lines
        → AppendsFront (W.written sink.old) (W.written sink.new) (flatten (transcript lines)) }
    ensures failed { IsErrOf result ToolFault.Device → W.failures sink.new ≡ W.failures sink.old + 1 }
    ensures calm { ¬ (IsErrOf result ToolFault.Device) → W.failures sink.new ≡ W.failures sink.old }
    // Nothing is written of a malformed schedule. It is found out without memory, a book or the device, so that none of them is blamed.
    ensures malformed { ((lines : List ScheduleLine) → ¬ (SpellsSchedule bytes.now lines)) → W.written sink.new ≡ W.written sink.old }
    ensures reads { OnErr result (IsSchedule bytes.now) }
{
    let mut schedule = match Schedule::of(bytes) {
        Ok(schedule) => schedule,
        Err(fault) => return Stop::from(fault).answer(),
    };
    match replay_lines(alloc, &mut schedule, sink) {
        Ok(()) => Ok(Ending::Done),
        Err(stop) => stop.answer(),
    }
}

/// Replays the lines of a schedule, one after another, and closes the hosts, however that ends.
fn replay_lines<W: Sink>(
    alloc: Global,
    schedule: &mut Schedule<'_>,
    sink: &mut W,
) -> Result<(), Stop>
    requires { IsSchedule schedule.old }
    ensures done { OnOk result ((lines : List ScheduleLine) → SpellsSchedule schedule.old lines
        → IsWhole lines ending.Done (W.written sink.old) (W.written sink.new)) }
    ensures calm { OnOk result (W.failures sink.new ≡ W.failures sink.old) }
    ensures stopped { IfErr result (λ stop. (lines : List ScheduleLine) → SpellsSchedule schedule.old lines
        → StopsReplay lines (W.written sink.old) (W.written sink.new) (W.failures sink.old) (W.failures sink.new) stop) }
{
    let mut hosts = BothHosts::new(alloc)?;
    let end = apply_lines(alloc, &mut hosts, schedule, sink);
    hosts.close();
    end
}

/// Applies the lines of a schedule to new hosts, and writes the line of each event.
fn apply_lines<W: Sink>(
    alloc: Global,
    hosts: &mut BothHosts,
    schedule: &mut Schedule<'_>,
    sink: &mut W,
) -> Result<(), Stop>
    requires schedule { IsSchedule schedule.old }
    requires new { (hosts.old.history ≡ []) × (hosts.old.seen ≡ []) }
    ensures done { OnOk result (IsOwn hosts.new.seen → (lines : List ScheduleLine) → SpellsSchedule schedule.old lines
        → IsWhole lines ending.Done (W.written sink.old) (W.written sink.new)) }
    ensures calm { OnOk result (W.failures sink.new ≡ W.failures sink.old) }
    ensures stopped { IfErr result (λ stop. IsOwn hosts.new.seen → (lines : List ScheduleLine) → SpellsSchedule schedule.old lines
        → StopsReplay lines (W.written sink.old) (W.written sink.new) (W.failures sink.old) (W.failures sink.new) stop) }
{
    let mut page = Page::new(alloc);
    while let Some(line) = schedule.next_line(alloc)? {
        replay_line(hosts, line, &mut page, sink)?;
    }
    Ok(())
}

/// Applies a line, and writes the line of its event, which is made whole first.
fn replay_line<W: Sink>(
    hosts: &mut BothHosts,
    line: ScheduleLine,
    page: &mut Page,
    sink: &mut W,
) -> Result<(), Stop>
    requires range { InRange line }
    requires agree { Agree hosts.old }
    ensures agree { OnOk result (Agree hosts.new) }
    ensures own { IsOwn hosts.new.seen → IsOwn hosts.old.seen }
    ensures applied { OnOk result (IsOwn hosts.new.seen → (e : Event) × (applied hosts.old.history line ≡ Ok e)
        × (hosts.new.history ≡ e ∷ hosts.old.history) × Appends (W.written sink.old) (W.written sink.new) (line_text hosts.old.history e)) }
    ensures calm { OnOk result (W.failures sink.new ≡ W.failures sink.old) }
    ensures stopped { IfErr result (λ stop. IsOwn hosts.new.seen →
        StopsWriting hosts.old.history line (W.written sink.old) (W.written sink.new) (W.failures sink.old) (W.failures sink.new) stop) }
{
    hosts.apply(line, page)?;
    write_all(sink, page.text.as_slice())?;
    Ok(())
}
