//! What the threads of a run do, and what comes back from them.
ghost use Rattle.std.specs.Prelude.{◌≡◌, ◌↔◌, [], IfOk, IsOk, IsTrue};
ghost use Rattle.amo_run.specs.Crew.{Did, Returned};
ghost use Rattle.amo_run.specs.Engine.{Works};
ghost use Rattle.amo_run.specs.Versions.{version_of};

use crate::engine::{Engine, Tally};
use crate::plan::Plan;
use crate::progress::Counted;
use crate::source::Source;
use crate::wire::Wire;
use crate::workplace::Workplace;
use crate::{Script, client};
use amo_book::{Book, Charge, Pass};
use amo_host::Pump;
use amo_net::{Link, LinkFault};
use amo_word::ChaChaWords;
use amo_world::{Event, NoMemory};
use std::alloc::Global;
use std::snapshot::Snapshot;
use std::sync::Wait;
use std::thread::{Promise, PromisedHandle};

/// What a client's thread gives back.
#[derive(Drop)]
pub struct Done {
    pub pass: Pass,
    pub made: Result<Vec<(u64, Event)>, NoMemory>,
}

/// The promise that the pass comes back, and that its own events have grown by those of the list.
#[derive(Drop)]
pub struct ClientPromise {
    pub book: Snapshot<Book>,
    pub pass: Snapshot<Pass>,
}

impl Promise<Done> for ClientPromise {
    ghost use Rattle.amo_run.specs.Crew.{Did};

    ghost kept_by = { λ p d. Did p.book.value p.pass.value d };
}

/// A client's thread that runs.
#[derive(Drop)]
pub struct ClientThread {
    pub thread: PromisedHandle<Done, ClientPromise>,
}

/// A pump before its first turn.
#[derive(Drop)]
pub struct Task {
    pub pump: Pump<ChaChaWords>,
    pub plan: Plan,
    pub source: Source,
    /// The streams of its charges.
    pub streams: Vec<u32>,
}

/// A pump for a thread, and what becomes its link there.
#[derive(Drop)]
pub struct PumpJob<C> {
    pub task: Task,
    pub wire: C,
}

/// What a pump's thread gives back.
#[derive(Drop)]
pub struct Pumped {
    pub pass: Pass,
    pub charges: Vec<Charge>,
    pub made: Result<Vec<(u64, Event)>, NoMemory>,
    /// Its socket did not connect, and it made no turn.
    pub is_cut_off: bool,
    pub link_faults: u64,
    pub busy: u64,
}

/// The promise that pass and charges come back, and that the pass's own events have grown by those of the list.
#[derive(Drop)]
pub struct PumpPromise {
    pub book: Snapshot<Book>,
    pub pass: Snapshot<Pass>,
    pub pump: Snapshot<Pump<ChaChaWords>>,
}

impl Promise<Pumped> for PumpPromise {
    ghost use Rattle.amo_run.specs.Crew.{Returned};

    ghost kept_by = { λ p d. Returned p.book.value p.pass.value p.pump.value d };
}

/// A pump's thread that runs.
#[derive(Drop)]
pub struct PumpThread {
    pub thread: PromisedHandle<Pumped, PumpPromise>,
}

/// What a client's thread runs.
pub fn follow_script<S: Script + Drop, R: Wait>(
    rt: &R,
    alloc: Global,
    place: Workplace<'_>,
    pass: Pass,
    script: S,
) -> Done
    requires { pass.book ≡ place.book.now.id }
    ensures { Did place.entry.book.now pass result }
{
    let mut pass = pass;
    let mut script = Counted {
        script,
        progress: place.progress,
    };
    let made = client(rt, alloc, place.book, &mut pass, &mut script);
    Done { pass, made }
}

/// What a pump's thread runs.
pub fn follow_task<C: Wire + Drop, R: Wait>(
    rt: &R,
    alloc: Global,
    place: Workplace<'_>,
    pass: Pass,
    job: PumpJob<C>,
) -> Pumped
    requires works { Works place.book.now pass job.task.pump }
    requires version { place.version ≡ version_of job.task.pump }
    ensures { Returned place.entry.book.now pass job.task.pump result }
{
    let PumpJob { task, wire } = job;
    wire.drive(rt, alloc, place, pass, task)
}

/// Drives a pump over its link.
#[tactic(auto, using(crate::proofs::Crews::told_all, crate::proofs::Crews::made_kept))]
pub fn drive<L: Link + Drop, R: Wait>(
    rt: &R,
    alloc: Global,
    place: Workplace<'_>,
    pass: Pass,
    task: Task,
    link: L,
) -> Pumped
    requires works { Works place.book.now pass task.pump }
    requires version { place.version ≡ version_of task.pump }
    ensures { Returned place.entry.book.now pass task.pump result }
{
    let Task {
        pump,
        plan,
        source,
        streams,
    } = task;
    let mut engine = Engine::new(pump, link, plan, source);
    let (mut pass, mut tally) = (pass, Tally::new(alloc));
    let worked = engine.work(rt, alloc, place, &mut pass, streams.as_slice(), &mut tally);
    let Tally {
        made,
        link_faults,
        busy,
        ..
    } = tally;
    let Engine { pump, .. } = engine;
    Pumped {
        pass,
        charges: pump.finish(),
        made: kept(worked, made),
        is_cut_off: false,
        link_faults,
        busy,
    }
}

/// What comes back where there is no link, for want of a socket or of memory.
#[tactic(auto, using(crate::proofs::Crews::made_kept, crate::proofs::Tellings::tells_none, crate::proofs::Turning::fit_none))]
pub fn cut_off(alloc: Global, book: &Book, pass: Pass, task: Task, fault: LinkFault) -> Pumped
    ensures returned { Returned book.now pass task.pump result }
    ensures told { (IsTrue result.is_cut_off ↔ (fault ≡ LinkFault.Device)) × (IsOk result.made ↔ (fault ≡ LinkFault.Device)) }
    ensures nothing { (result.pass ≡ pass) × (result.link_faults ≡ 0) × (result.busy ≡ 0) }
{
    let _ = book;
    let Task { pump, .. } = task;
    Pumped {
        pass,
        charges: pump.finish(),
        made: nothing(alloc, fault),
        is_cut_off: fault == LinkFault::Device,
        link_faults: 0,
        busy: 0,
    }
}

/// No events, unless memory was refused.
fn nothing(alloc: Global, fault: LinkFault) -> Result<Vec<(u64, Event)>, NoMemory>
    ensures none { IfOk result (λ m. m.items ≡ []) }
    ensures device { IsOk result ↔ (fault ≡ LinkFault.Device) }
{
    match fault {
        LinkFault::Device => Ok(Vec::new(alloc)),
        LinkFault::NoMemory => Err(NoMemory),
    }
}

/// The list, unless memory was refused.
fn kept(
    worked: Result<(), NoMemory>,
    made: Vec<(u64, Event)>,
) -> Result<Vec<(u64, Event)>, NoMemory>
    ensures { IfOk result (λ m. m.items ≡ made.items) }
{
    match worked {
        Ok(()) => Ok(made),
        Err(NoMemory) => Err(NoMemory),
    }
}
