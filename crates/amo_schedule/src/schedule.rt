//! Schedules, line by line.
ghost use Rattle.std.specs.Prelude.{◌≡◌, ℕ, ◌++◌, [], List, IfOk, IfErr, IfSome, IfNone, OnErr};
ghost use Rattle.amo_schedule.specs.Schedule.{spelling_of, InRange, SpellsSchedule, IsSchedule, IsMalformedAt, Faults};
ghost use Rattle.amo_schedule.specs.declared.fault.ScheduleFault.TheVariants.{Malformed};
ghost use Rattle.amo_schedule.specs.declared.line.ScheduleLine.{ScheduleLine};

use crate::{ScheduleFault, ScheduleLine};
use amo_text::{first_malformed, item_in_front, read_items};
use std::alloc::{AllocError, Global};
use std::marker::Model;

/// A schedule, read line by line. Contracts see the bytes that are left of it, which are whole lines.
///
/// It holds no memory. So a schedule is read twice, once to see that each line is one, and once as it is used: its lines
/// would take several times as much memory as its bytes.
#[derive(Drop)]
pub struct Schedule<'a> {
    rest: &'a [u8],
}

impl<'a> Model for Schedule<'a> {
    ghost use Rattle.std.specs.Prelude.{List, ℕ};
    ghost use Rattle.amo_schedule.specs.Schedule.{IsSchedule};

    ghost Value = { List ℕ };

    ghost view = { λ s. s.rest.now };

    ghost invariant = { λ s. IsSchedule s.rest.now };
}

impl<'a> Schedule<'a> {
    /// The schedule that these bytes are.
    ///
    /// [`ScheduleFault::Malformed`], the only fault, names the first line that is malformed. No memory is taken.
    pub fn of(bytes: &'a [u8]) -> Result<Schedule<'a>, ScheduleFault>
        ensures whole { IfOk result (λ schedule. (schedule ≡ bytes.now) × IsSchedule bytes.now) }
        ensures fault { IfErr result (λ fault. (line : ℕ) × (fault ≡ Malformed line) × IsMalformedAt bytes.now line) }
    {
        match first_malformed::<ScheduleLine>(bytes) {
            Some(line) => Err(ScheduleFault::Malformed(line)),
            None => Ok(Schedule { rest: bytes }),
        }
    }

    /// The next line, or none at the end. Where memory for its message is refused, it can be asked for again.
    pub fn next_line(&mut self, alloc: Global) -> Result<Option<ScheduleLine>, AllocError>
        ensures line { IfOk result (λ next. IfSome next (λ line. InRange line × (self.old ≡ spelling_of line ++ self.new))) }
        ensures end { IfOk result (λ next. IfNone next ((self.old ≡ []) × (self.new ≡ []))) }
        ensures left { IsSchedule self.new }
        ensures refused { OnErr result (self.new ≡ self.old) }
    {
        let Some((line, more)) = item_in_front::<ScheduleLine>(alloc, self.rest)? else {
            return Ok(None);
        };
        self.rest = more;
        Ok(Some(line))
    }
}

/// Reads a schedule. The bytes are the lines that it answers, and no other lines.
pub fn read_schedule(alloc: Global, bytes: &[u8]) -> Result<Vec<ScheduleLine>, ScheduleFault>
    ensures spelt { IfOk result (λ lines. SpellsSchedule bytes.now lines.items) }
    ensures only { IfOk result (λ lines. (others : List ScheduleLine) → SpellsSchedule bytes.now others → others ≡ lines.items) }
    ensures fault { IfErr result (λ fault. Faults bytes.now fault) }
{
    Ok(read_items(alloc, bytes)?)
}
