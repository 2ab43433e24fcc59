//! The pumps of a host.
ghost use Rattle.std.specs.Prelude.{◌≡◌, ◌+◌, ◌++◌, ◌≤◌, ◌<◌, ◌^◌, ℕ, length, map, IfOk, OnOk};
ghost use Rattle.amo_book.specs.Book.{Each};
ghost use Rattle.amo_book.specs.Closed.{HasCharge};
ghost use Rattle.amo_run.specs.Crew.{EachAt, IsDriver, IsOurs, dealt};
ghost use Rattle.amo_run.specs.Parts.{pumps_of};
ghost use Rattle.amo_run.specs.Roster.{pumps_before};
ghost use Rattle.amo_settings.specs.Limits.{AreWithin};
ghost use Rattle.amo_run.specs.Sides.{IsHostOf};
ghost use Rattle.amo_run.specs.Versions.{starting, version_for};

use crate::part::Part;
use crate::plan::Plan;
use crate::source::Source;
use crate::work::{PumpJob, Task};
use crate::{RunFault, RunSettings};
use amo_book::{Book, Charge};
use amo_host::{DivideFault, Pump, divide};
use amo_object::End;
use amo_word::ChaChaWords;
use std::alloc::{AllocError, Global};

/// How many handshakes of a host may be open.
const WINDOW: usize = 16;

/// How a host of a run is set up.
#[derive(Clone, Copy)]
pub struct Host {
    seed: [u8; 32],
    /// The hosts that stand in its book.
    part: Part,
    side: End,
    pumps: usize,
    /// The half of the crashes that are its own.
    crashes: u32,
    streams: u32,
    /// Whether the messages that wait on a stream travel together.
    batch: bool,
}

impl Host {
    /// The host of this side, where these hosts stand in its book.
    pub fn of(settings: &RunSettings, part: Part, side: End) -> Host
        requires { AreWithin settings.now }
        ensures host { (result.seed ≡ settings.now.seed) × (result.side ≡ side) × (result.streams ≡ settings.now.streams) }
        ensures part { result.part ≡ part }
        ensures batch { result.batch ≡ settings.now.batch }
        ensures count { result.pumps ≡ pumps_of settings.now }
        ensures few { (1 ≤ result.pumps) × (result.pumps ≤ 4) × (result.pumps ≤ settings.now.streams) }
    {
        let crashes = match side {
            End::Sender => settings.crashes / 2 + settings.crashes % 2,
            End::Receiver => settings.crashes / 2,
        };
        Host {
            seed: settings.seed,
            part,
            side,
            pumps: pumps_of(settings),
            crashes,
            streams: settings.streams,
            batch: settings.batch,
        }
    }

    /// Where the words of a pump come from.
    fn source(&self, pump: u32) -> Source {
        Source {
            seed: self.seed,
            side: self.side,
            pump,
        }
    }

    /// The words of each pump.
    fn words(&self, alloc: Global) -> Result<Vec<ChaChaWords>, AllocError>
        requires { self.now.pumps ≤ 4 }
        ensures { IfOk result (λ words. length words.items ≡ self.now.pumps) }
    {
        let mut words = Vec::with_capacity(alloc, self.pumps)?;
        'pumps: for pump in 0..self.pumps {
            words.push(self.source(pump as u32).words(0))?;
        }
        Ok(words)
    }

    /// The streams of a pump.
    fn streams(&self, alloc: Global, pump: u32) -> Result<Vec<u32>, AllocError>
        requires { (1 ≤ self.now.pumps) × (self.now.pumps ≤ 4) }
    {
        let mut streams = Vec::new(alloc);
        'streams: for stream in 0..self.streams {
            if stream % self.pumps as u32 == pump {
                streams.push(stream + 1)?;
            }
        }
        Ok(streams)
    }
}

/// How many pumps a host has: not more than there are streams.
pub fn pumps_of(settings: &RunSettings) -> usize
    requires { AreWithin settings.now }
    ensures count { result ≡ pumps_of settings.now }
    ensures few { (1 ≤ result) × (result ≤ 4) × (result ≤ settings.now.streams) }
{
    settings.pumps.min(settings.streams) as usize
}

/// Adds the pumps of a host to those that stand before them. Each has its wire; that of the first pump stands last.
pub fn push_host<C: Drop>(
    alloc: Global,
    jobs: &mut Vec<PumpJob<C>>,
    book: &Book,
    charges: Vec<Charge>,
    wires: Vec<C>,
    host: Host,
) -> Result<(), RunFault>
    requires host { IsHostOf host.side book.now charges.items }
    requires pumps { (1 ≤ host.pumps) × (host.pumps ≤ 4) × (host.pumps ≤ length charges.items) }
    requires wires { host.pumps ≤ length wires.items }
    requires ours { Each (λ j. IsOurs (version_for host.batch) book.now j.task.pump) jobs.old.items }
    requires before { length jobs.old.items ≡ pumps_before host.part host.pumps host.side }
    requires drivers { EachAt (λ n j. IsDriver host.part host.pumps n j.task.pump) 0 jobs.old.items }
    ensures drivers { OnOk result (EachAt (λ n j. IsDriver host.part host.pumps n j.task.pump) 0 jobs.new.items) }
    ensures ours { OnOk result (Each (λ j. IsOurs (version_for host.batch) book.now j.task.pump) jobs.new.items) }
    ensures kept { OnOk result ((place : ℕ) → HasCharge (dealt (map (λ j. j.task.pump) jobs.old.items)) place → HasCharge (dealt (map (λ j. j.task.pump) jobs.new.items)) place) }
    ensures added { OnOk result ((place : ℕ) → HasCharge charges.items place → HasCharge (dealt (map (λ j. j.task.pump) jobs.new.items)) place) }
    ensures count { OnOk result (length jobs.new.items ≡ length jobs.old.items + host.pumps) }
{
    let _ = book;
    let Ok(words) = host.words(alloc) else {
        return Err(RunFault::NoMemory);
    };
    let pumps = match divide(alloc, charges, WINDOW, host.pumps, words) {
        Ok(pumps) => pumps,
        Err(DivideFault::NoMemory(_charges, _words)) => return Err(RunFault::NoMemory),
        Err(DivideFault::Limits(_charges, _words)) => unreachable!(),
    };
    match push_pumps(alloc, jobs, pumps, wires, host) {
        Ok(()) => Ok(()),
        Err(AllocError) => Err(RunFault::NoMemory),
    }
}

/// The pump, whose starts are of batches from now on, or of single messages.
fn starting(pump: Pump<ChaChaWords>, batch: bool) -> Pump<ChaChaWords>
    ensures { result ≡ starting batch pump }
{
    let mut pump = pump;
    pump.batches(batch);
    pump
}

/// Adds these pumps of a host.
fn push_pumps<C: Drop>(
    alloc: Global,
    jobs: &mut Vec<PumpJob<C>>,
    pumps: Vec<Pump<ChaChaWords>>,
    wires: Vec<C>,
    host: Host,
) -> Result<(), AllocError>
    requires pumps { (1 ≤ host.pumps) × (host.pumps ≤ 4) × (length pumps.items ≡ host.pumps) }
    requires wires { host.pumps ≤ length wires.items }
    ensures { OnOk result (map (λ j. j.task.pump) jobs.new.items ≡ map (λ j. j.task.pump) jobs.old.items ++ map (starting host.batch) pumps.items) }
{
    let mut wires = wires;
    let mut number = 0u32;
    'pumps: for pump in pumps {
        let Some(wire) = wires.pop() else {
            unreachable!()
        };
        let task = Task {
            pump: starting(pump, host.batch),
            plan: Plan::new(host.crashes),
            source: host.source(number),
            streams: host.streams(alloc, number)?,
        };
        jobs.push(PumpJob { task, wire })?;
        number += 1;
    }
    Ok(())
}
