//! All that is at work at one book.
ghost use Rattle.std.specs.Prelude.{◌≡◌, ◌++◌, ◌*◌, ◌≤◌, length, map, IfOk};
ghost use Rattle.amo_book.specs.Book.{AreFirstCharges, Each};
ghost use Rattle.amo_book.specs.Charge.{IsChargeOf};
ghost use Rattle.amo_book.specs.Closed.{AllCharges};
ghost use Rattle.amo_run.specs.Crew.{EachAt, IsDriver, IsOurs, IsReady, dealt};
ghost use Rattle.amo_run.specs.Parts.{hosts_of, passes_of, pumps_of, sides_of, HasWires};
ghost use Rattle.amo_run.specs.Roster.{roster_of};
ghost use Rattle.amo_run.specs.Versions.{version_for};
ghost use Rattle.amo_settings.specs.Limits.{AreWithin};

use crate::host::{Host, pumps_of, push_host};
use crate::opening::{Opened, open};
use crate::part::Part;
use crate::roster::Roster;
use crate::work::PumpJob;
use crate::{RunFault, RunSettings};
use amo_book::{Book, Charge, Pass};
use amo_object::End;
use std::alloc::{AllocError, Global};

/// The passes of a book, the pumps of its hosts, and the scripts of its clients. A pump and a script take a pass each.
#[derive(Drop)]
pub struct Hands<S, C> {
    pub passes: Vec<Pass>,
    pub jobs: Vec<PumpJob<C>>,
    pub scripts: Vec<S>,
}

/// A book, all that is to work at it, and whose its passes are.
#[derive(Drop)]
pub struct Crew<S, C> {
    pub book: Book,
    pub roster: Roster,
    pub hands: Hands<S, C>,
}

/// What the pumps of each host make their links of. That of the first pump stands last.
#[derive(Drop)]
pub struct Wires<C> {
    pub senders: Vec<C>,
    pub receivers: Vec<C>,
}

/// Opens a book, and makes the pumps of its hosts.
pub fn muster<S: Drop, C: Drop>(
    alloc: Global,
    settings: &RunSettings,
    part: Part,
    wires: Wires<C>,
    scripts: Vec<S>,
) -> Result<Crew<S, C>, RunFault>
    requires within { AreWithin settings.now }
    requires scripts { length scripts.items ≤ 56 }
    requires wires { HasWires part (pumps_of settings.now) (length wires.senders.items) (length wires.receivers.items) }
    ensures ready { IfOk result (IsReady (version_for settings.now.batch)) }
    ensures sides { IfOk result (λ crew. crew.book.sides ≡ sides_of part settings.now.streams) }
    ensures passes { IfOk result (λ crew. crew.book.passes ≡ passes_of part (pumps_of settings.now) (length scripts.items)) }
    ensures roster { IfOk result (λ crew. crew.roster ≡ roster_of part (pumps_of settings.now) (length scripts.items)) }
    ensures scripts { IfOk result (λ crew. crew.hands.scripts ≡ scripts) }
{
    let pumps = part.hosts() * pumps_of(settings);
    let count = (pumps + scripts.len()).max(2);
    let roster = Roster {
        part,
        pumps: pumps_of(settings),
        first_client: count - pumps - scripts.len(),
        first_pump: count - pumps,
    };
    let Opened {
        book,
        passes,
        charges,
    } = open(alloc, part, settings.streams, count)?;
    let jobs = jobs_of(alloc, settings, part, &book, charges, wires)?;
    let hands = Hands {
        passes,
        jobs,
        scripts,
    };
    Ok(Crew {
        book,
        roster,
        hands,
    })
}

/// The pumps of these hosts.
fn jobs_of<C: Drop>(
    alloc: Global,
    settings: &RunSettings,
    part: Part,
    book: &Book,
    charges: Vec<Charge>,
    wires: Wires<C>,
) -> Result<Vec<PumpJob<C>>, RunFault>
    requires within { AreWithin settings.now }
    requires wires { HasWires part (pumps_of settings.now) (length wires.senders.items) (length wires.receivers.items) }
    requires sides { book.now.sides ≡ sides_of part settings.now.streams }
    requires charges { AreFirstCharges book.now.id book.now.sides charges.items }
    requires belong { Each (IsChargeOf book.now.id book.now.sides) charges.items }
    ensures ours { IfOk result (λ jobs. Each (λ j. IsOurs (version_for settings.now.batch) book.now j.task.pump) jobs.items) }
    ensures all { IfOk result (λ jobs. AllCharges (dealt (map (λ j. j.task.pump) jobs.items)) (length book.now.sides)) }
    ensures drivers { IfOk result (λ jobs. EachAt (λ n j. IsDriver part (pumps_of settings.now) n j.task.pump) 0 jobs.items) }
    ensures count { IfOk result (λ jobs. length jobs.items ≡ hosts_of part * pumps_of settings.now) }
{
    let mut jobs = Vec::new(alloc);
    let Wires { senders, receivers } = wires;
    let sender = Host::of(settings, part, End::Sender);
    let receiver = Host::of(settings, part, End::Receiver);
    match part {
        Part::Both => {
            let Ok((front, back)) = parts(charges, settings.streams as usize) else {
                return Err(RunFault::NoMemory);
            };
            push_host(alloc, &mut jobs, book, front, senders, sender)?;
            push_host(alloc, &mut jobs, book, back, receivers, receiver)?;
        }
        Part::Senders => push_host(alloc, &mut jobs, book, charges, senders, sender)?,
        Part::Receivers => push_host(alloc, &mut jobs, book, charges, receivers, receiver)?,
    }
    Ok(jobs)
}

/// The first charges, so many, and the others.
fn parts(charges: Vec<Charge>, count: usize) -> Result<(Vec<Charge>, Vec<Charge>), AllocError>
    requires { count ≤ length charges.items }
    ensures all { IfOk result (λ t. t.0.items ++ t.1.items ≡ charges.items) }
    ensures count { IfOk result (λ t. length t.0.items ≡ count) }
{
    let mut front = charges;
    let back = front.split_off(count)?;
    Ok((front, back))
}
