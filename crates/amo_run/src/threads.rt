//! Pumps and clients at work at once.
ghost use Rattle.std.specs.Prelude.{◌≡◌, ◌+◌, ◌++◌, ◌<◌, ◌≤◌, [], false, length, map, vec_len, vec_capacity, reverse, IfOk, IfSome, IfNone, OnOk};
ghost use Rattle.amo_book.specs.Book.{Each, first_pass};
ghost use Rattle.amo_run.specs.Engine.{Works, ties};
ghost use Rattle.amo_run.specs.Crew.{AreHandsOf, Made, Returned, Did, EachAt, IsNew, IsOurs, IsClient, IsDriver, IsPump, IsBack, SoFar, dealt, lent};
ghost use Rattle.amo_run.specs.Roster.{IsWhose};
ghost use Rattle.amo_run.specs.Versions.{version_of};

use crate::crew::Hands;
use crate::home::Home;
use crate::roster::Roster;
use crate::wire::Wire;
use crate::work::{
    ClientPromise, ClientThread, Done, PumpJob, PumpPromise, PumpThread, Pumped, follow_script,
    follow_task,
};
use crate::workplace::Workplace;
use crate::{Progress, RunFault, Script};
use amo_book::{Book, Pass};
use amo_journal::Version;
use std::alloc::Global;
use std::snapshot::Snapshot;
use std::sync::Wait;
use std::thread;
use std::thread::{Scope, Threads};

/// The last of the passes that have made no call.
#[tactic(auto, using(crate::proofs::Crews::at_less))]
fn last_pass(passes: &mut Vec<Pass>, book: &Book) -> Option<Pass>
    requires { EachAt (IsNew book.now) 0 passes.old.items }
    ensures rest { EachAt (IsNew book.now) 0 passes.new.items }
    ensures last { IfSome result (λ p. (p ≡ first_pass book.now.id (length passes.new.items)) × (length passes.old.items ≡ length passes.new.items + 1)) }
    ensures none { IfNone result (length passes.old.items ≡ 0) }
    ensures room { vec_capacity passes.new ≡ vec_capacity passes.old }
{
    let _ = book;
    passes.pop()
}

/// The last of the pumps that wait for their threads.
#[tactic(auto, using(crate::proofs::Crews::each_less, crate::proofs::Crews::at_less, crate::proofs::Crews::dealt_more))]
fn last_job<C>(
    jobs: &mut Vec<PumpJob<C>>,
    roster: Roster,
    version: Version,
    book: &Book,
) -> Option<PumpJob<C>>
    requires ours { Each (λ j. IsOurs version book.now j.task.pump) jobs.old.items }
    requires drivers { EachAt (λ n j. IsDriver roster.part roster.pumps n j.task.pump) 0 jobs.old.items }
    ensures rest { Each (λ j. IsOurs version book.now j.task.pump) jobs.new.items }
    ensures drivers { EachAt (λ n j. IsDriver roster.part roster.pumps n j.task.pump) 0 jobs.new.items }
    ensures driver { IfSome result (λ j. IsDriver roster.part roster.pumps (length jobs.new.items) j.task.pump) }
    ensures last { IfSome result (λ j. IsOurs version book.now j.task.pump
        × (dealt (map (λ k. k.task.pump) jobs.old.items) ≡ dealt (map (λ k. k.task.pump) jobs.new.items) ++ j.task.pump.charges)
        × (length jobs.old.items ≡ length jobs.new.items + 1)) }
    ensures none { IfNone result (jobs.old.items ≡ []) }
{
    let _ = roster;
    let _ = version;
    let _ = book;
    jobs.pop()
}

/// The last of the scripts that wait for their threads.
fn last_script<S>(scripts: &mut Vec<S>) -> Option<S>
    ensures last { IfSome result (λ s. length scripts.old.items ≡ length scripts.new.items + 1) }
    ensures none { IfNone result (length scripts.old.items ≡ 0) }
{
    scripts.pop()
}

/// The client's thread that started last.
#[tactic(auto, using(crate::proofs::Crews::back_less))]
fn last_client(
    threads: &mut Vec<ClientThread>,
    roster: Roster,
    book: &Book,
    first: usize,
) -> Option<ClientThread>
    requires { EachAt (IsClient roster book.now) first (reverse threads.old.items) }
    ensures last { IfSome result (λ t. IsClient roster book.now first t × EachAt (IsClient roster book.now) (first + 1) (reverse threads.new.items) × (length threads.old.items ≡ length threads.new.items + 1)) }
    ensures none { IfNone result (length threads.old.items ≡ 0) }
{
    let _ = roster;
    let _ = book;
    let _ = first;
    threads.pop()
}

/// The pump's thread that started last.
#[tactic(auto, using(crate::proofs::Crews::back_less, crate::proofs::Crews::lent_more))]
fn last_pump(
    threads: &mut Vec<PumpThread>,
    roster: Roster,
    version: Version,
    book: &Book,
    first: usize,
) -> Option<PumpThread>
    requires { EachAt (IsPump roster version book.now) first (reverse threads.old.items) }
    ensures last { IfSome result (λ t. IsPump roster version book.now first t × EachAt (IsPump roster version book.now) (first + 1) (reverse threads.new.items) × (length threads.old.items ≡ length threads.new.items + 1)) }
    ensures lent { IfSome result (λ t. lent (reverse threads.old.items) ≡ t.thread.promise.pump.value.charges ++ lent (reverse threads.new.items)) }
    ensures none { IfNone result (threads.old.items ≡ []) }
{
    let _ = roster;
    let _ = version;
    let _ = book;
    let _ = first;
    threads.pop()
}

/// A client's thread starts.
#[tactic(auto, using(crate::proofs::Crews::back_more))]
fn started_client(
    threads: &mut Vec<ClientThread>,
    thread: ClientThread,
    roster: Roster,
    book: &Book,
    first: usize,
)
    requires threads { EachAt (IsClient roster book.now) (first + 1) (reverse threads.old.items) }
    requires thread { IsClient roster book.now first thread }
    requires room { vec_len threads.old < vec_capacity threads.old }
    ensures threads { EachAt (IsClient roster book.now) first (reverse threads.new.items) }
    ensures count { length threads.new.items ≡ length threads.old.items + 1 }
    ensures room { vec_capacity threads.new ≡ vec_capacity threads.old }
{
    let _ = roster;
    let _ = book;
    let _ = first;
    threads.push_reserved(thread);
}

/// A pump's thread starts.
#[tactic(auto, using(crate::proofs::Crews::back_more, crate::proofs::Crews::lent_more))]
fn started_pump(
    threads: &mut Vec<PumpThread>,
    thread: PumpThread,
    roster: Roster,
    version: Version,
    book: &Book,
    first: usize,
)
    requires threads { EachAt (IsPump roster version book.now) (first + 1) (reverse threads.old.items) }
    requires thread { IsPump roster version book.now first thread }
    requires room { vec_len threads.old < vec_capacity threads.old }
    ensures threads { EachAt (IsPump roster version book.now) first (reverse threads.new.items) }
    ensures lent { lent (reverse threads.new.items) ≡ thread.thread.promise.pump.value.charges ++ lent (reverse threads.old.items) }
    ensures count { length threads.new.items ≡ length threads.old.items + 1 }
    ensures room { vec_capacity threads.new ≡ vec_capacity threads.old }
{
    let _ = roster;
    let _ = version;
    let _ = book;
    let _ = first;
    threads.push_reserved(thread);
}

/// The clients' passes come home, with their events.
#[tactic(auto, using(crate::proofs::Rosters::made_by_client))]
fn join_clients<R: Threads + Wait>(
    rt: &R,
    roster: Roster,
    version: Version,
    book: &Book,
    threads: Vec<ClientThread>,
    home: Home,
) -> Home
    requires so_far { SoFar roster version book.now home }
    requires threads { EachAt (IsClient roster book.now) (length home.passes.items) (reverse threads.items) }
    requires room { length home.passes.items + length threads.items ≤ vec_capacity home.passes }
    ensures so_far { SoFar roster version book.now result }
    ensures count { length result.passes.items ≡ length home.passes.items + length threads.items }
    ensures room { vec_capacity result.passes ≡ vec_capacity home.passes }
    ensures charges { result.charges ≡ home.charges }
{
    let (mut threads, mut home) = (threads, home);
    'joins: while let Some(running) = last_client(&mut threads, roster, book, home.passes.len()) {
        let Done { pass, made } = running.thread.join(rt);
        home.take(roster, version, book, pass, made);
    }
    home
}

/// The pumps' passes and charges come home, with their events.
#[tactic(auto, using(crate::proofs::Crews::sofar_same, crate::proofs::Crews::ties_back, crate::proofs::Rosters::made_by_pump))]
fn join_pumps<R: Threads + Wait>(
    rt: &R,
    roster: Roster,
    version: Version,
    book: &Book,
    threads: Vec<PumpThread>,
    home: Home,
) -> Home
    requires so_far { SoFar roster version book.now home }
    requires threads { EachAt (IsPump roster version book.now) (length home.passes.items) (reverse threads.items) }
    requires room { length home.passes.items + length threads.items ≤ vec_capacity home.passes }
    ensures so_far { SoFar roster version book.now result }
    ensures count { length result.passes.items ≡ length home.passes.items + length threads.items }
    ensures charges { result.is_short ≡ false → ties result.charges.items ≡ ties (home.charges.items ++ lent (reverse threads.items)) }
{
    let (mut threads, mut home) = (threads, home);
    'joins: while let Some(running) = last_pump(
        &mut threads,
        roster,
        version,
        book,
        home.passes.len(),
    ) {
        let pumped = running.thread.join(rt);
        come_home(roster, version, book, &mut home, pumped);
    }
    home
}

/// A pump's pass and charges come home.
#[tactic(auto, using(crate::proofs::Crews::sofar_same))]
fn come_home(roster: Roster, version: Version, book: &Book, home: &mut Home, pumped: Pumped)
    requires room { vec_len home.old.passes < vec_capacity home.old.passes }
    requires so_far { SoFar roster version book.now home.old }
    requires made { Made version book.now.sides (IsWhose roster) (first_pass book.now.id (length home.old.passes.items)) pumped.pass pumped.made }
    ensures so_far { SoFar roster version book.now home.new }
    ensures count { length home.new.passes.items ≡ length home.old.passes.items + 1 }
    ensures room { vec_capacity home.new.passes ≡ vec_capacity home.old.passes }
    ensures charges { home.new.is_short ≡ false → (home.old.is_short ≡ false) × (home.new.charges.items ≡ home.old.charges.items ++ pumped.charges.items) }
{
    let Pumped {
        pass,
        charges,
        made,
        is_cut_off,
        link_faults,
        busy,
    } = pumped;
    home.take(roster, version, book, pass, made);
    home.take_charges(charges);
    home.count(is_cut_off, link_faults, busy);
}

/// Memory or a thread was refused, and no pump waits for the clients of this book.
fn refused(progress: &Progress) -> RunFault {
    progress.end_of_clients();
    RunFault::NoMemory
}

/// Runs each pump and each script of a book on a thread of its own. The pumps go on until all clients are done: those of this book,
/// and those of another one, if that is at work.
///
/// Where memory or a thread is refused, the clients of this book count as done, and the scope joins each thread that started.
pub fn at_once<S: Script + Send + Drop, C: Wire + Send + Drop, R: Threads + Wait + Sync>(
    rt: &R,
    alloc: Global,
    place: Workplace<'_>,
    hands: Hands<S, C>,
) -> Result<Home, RunFault>
    requires hands { AreHandsOf place.roster place.version place.book.now hands }
    ensures { IfOk result (λ h. IsBack place.entry.roster place.entry.version place.entry.book.now (dealt (map (λ j. j.task.pump) hands.jobs.items)) h) }
{
    thread::scope(
        thread::scope_env(),
        rt,
        |scope| -> Result<Home, RunFault>
            requires { AreHandsOf place.roster place.version place.book.now hands }
            ensures { IfOk result (λ h. IsBack place.entry.roster place.entry.version place.entry.book.now (dealt (map (λ j. j.task.pump) hands.jobs.items)) h) }
        { in_scope(scope, rt, alloc, place, hands) },
    )
}

/// The same, in the scope that joins the threads.
fn in_scope<
    's,
    E,
    S: Script + Send + Drop + 's,
    C: Wire + Send + Drop + 's,
    R: Threads + Wait + Sync,
>(
    scope: &Scope<'s, E>,
    rt: &'s R,
    alloc: Global,
    place: Workplace<'s>,
    hands: Hands<S, C>,
) -> Result<Home, RunFault>
    requires { AreHandsOf place.roster place.version place.book.now hands }
    ensures { IfOk result (λ h. IsBack place.entry.roster place.entry.version place.entry.book.now (dealt (map (λ j. j.task.pump) hands.jobs.items)) h) }
{
    let Hands {
        mut passes,
        jobs,
        scripts,
    } = hands;
    let pumps = start_pumps(scope, rt, alloc, place, &mut passes, jobs)?;
    let clients = start_clients(scope, rt, alloc, place, &mut passes, scripts)?;
    let home = home_of(alloc, place.roster, place.version, place.book, passes);
    let home = join_clients(rt, place.roster, place.version, place.book, clients, home);
    place.progress.end_of_clients();
    Ok(join_pumps(rt, place.roster, place.version, place.book, pumps, home))
}

/// Starts the threads of the pumps. Each takes the last of the passes that are left.
fn start_pumps<'s, E, C: Wire + Send + Drop + 's, R: Wait + Sync>(
    scope: &Scope<'s, E>,
    rt: &'s R,
    alloc: Global,
    place: Workplace<'s>,
    passes: &mut Vec<Pass>,
    jobs: Vec<PumpJob<C>>,
) -> Result<Vec<PumpThread>, RunFault>
    requires passes { EachAt (IsNew place.book.now) 0 passes.old.items }
    requires enough { place.roster.first_pump + length jobs.items ≡ length passes.old.items }
    requires ours { Each (λ j. IsOurs place.version place.book.now j.task.pump) jobs.items }
    requires drivers { EachAt (λ n j. IsDriver place.roster.part place.roster.pumps n j.task.pump) 0 jobs.items }
    ensures passes { OnOk result (EachAt (IsNew place.entry.book.now) 0 passes.new.items) }
    ensures threads { IfOk result (λ pumps. EachAt (IsPump place.entry.roster place.entry.version place.entry.book.now) (length passes.new.items) (reverse pumps.items)) }
    ensures count { IfOk result (λ pumps. (length pumps.items ≡ length jobs.items) × (length pumps.items + length passes.new.items ≡ length passes.old.items)) }
    ensures lent { IfOk result (λ pumps. lent (reverse pumps.items) ≡ dealt (map (λ j. j.task.pump) jobs.items)) }
    ensures room { OnOk result (vec_capacity passes.new ≡ vec_capacity passes.old) }
{
    let Ok(mut pumps) = Vec::with_capacity(alloc, jobs.len()) else {
        return Err(refused(place.progress));
    };
    let mut jobs = jobs;
    'pumps: while let Some(job) = last_job(&mut jobs, place.roster, place.version, place.book) {
        let Some(pass) = last_pass(passes, place.book) else {
            unreachable!()
        };
        let thread = start_pump(scope, rt, alloc, place, pass, job)?;
        started_pump(
            &mut pumps,
            thread,
            place.roster,
            place.version,
            place.book,
            passes.len(),
        );
    }
    Ok(pumps)
}

/// Starts the thread of a pump.
fn start_pump<'s, E, C: Wire + Send + Drop + 's, R: Wait + Sync>(
    scope: &Scope<'s, E>,
    rt: &'s R,
    alloc: Global,
    place: Workplace<'s>,
    pass: Pass,
    job: PumpJob<C>,
) -> Result<PumpThread, RunFault>
    requires works { Works place.book.now pass job.task.pump }
    requires version { place.version ≡ version_of job.task.pump }
    ensures book { IfOk result (λ t. t.thread.promise.book.value ≡ place.entry.book.now) }
    ensures pass { IfOk result (λ t. t.thread.promise.pass.value ≡ pass) }
    ensures pump { IfOk result (λ t. t.thread.promise.pump.value ≡ job.task.pump) }
{
    let promise = PumpPromise {
        book: Snapshot::of(place.book),
        pass: Snapshot::of(&pass),
        pump: Snapshot::of(&job.task.pump),
    };
    let thread = scope.spawn_with(
        promise,
        move || -> Pumped
            requires works { Works place.book.now pass job.task.pump }
            requires version { place.version ≡ version_of job.task.pump }
            ensures { Returned place.entry.book.now pass job.task.pump result }
        { follow_task(rt, alloc, place, pass, job) },
    );
    let Ok(thread) = thread else {
        return Err(refused(place.progress));
    };
    Ok(PumpThread { thread })
}

/// Starts the threads of the clients. Each takes the last of the passes that are left.
fn start_clients<'s, E, S: Script + Send + Drop + 's, R: Wait + Sync>(
    scope: &Scope<'s, E>,
    rt: &'s R,
    alloc: Global,
    place: Workplace<'s>,
    passes: &mut Vec<Pass>,
    scripts: Vec<S>,
) -> Result<Vec<ClientThread>, RunFault>
    requires passes { EachAt (IsNew place.book.now) 0 passes.old.items }
    requires enough { place.roster.first_client + length scripts.items ≡ length passes.old.items }
    requires first { length passes.old.items ≤ place.roster.first_pump }
    ensures passes { OnOk result (EachAt (IsNew place.entry.book.now) 0 passes.new.items) }
    ensures threads { IfOk result (λ clients. EachAt (IsClient place.entry.roster place.entry.book.now) (length passes.new.items) (reverse clients.items)) }
    ensures count { IfOk result (λ clients. (length clients.items ≡ length scripts.items) × (length clients.items + length passes.new.items ≡ length passes.old.items)) }
    ensures room { OnOk result (vec_capacity passes.new ≡ vec_capacity passes.old) }
{
    let Ok(mut clients) = Vec::with_capacity(alloc, scripts.len()) else {
        return Err(refused(place.progress));
    };
    let mut scripts = scripts;
    'clients: while let Some(script) = last_script(&mut scripts) {
        let Some(pass) = last_pass(passes, place.book) else {
            unreachable!()
        };
        let thread = start_client(scope, rt, alloc, place, pass, script)?;
        started_client(&mut clients, thread, place.roster, place.book, passes.len());
    }
    Ok(clients)
}

/// Starts the thread of a client.
fn start_client<'s, E, S: Script + Send + Drop + 's, R: Wait + Sync>(
    scope: &Scope<'s, E>,
    rt: &'s R,
    alloc: Global,
    place: Workplace<'s>,
    pass: Pass,
    script: S,
) -> Result<ClientThread, RunFault>
    requires { pass.book ≡ place.book.now.id }
    ensures book { IfOk result (λ t. t.thread.promise.book.value ≡ place.entry.book.now) }
    ensures pass { IfOk result (λ t. t.thread.promise.pass.value ≡ pass) }
{
    let promise = ClientPromise {
        book: Snapshot::of(place.book),
        pass: Snapshot::of(&pass),
    };
    let thread = scope.spawn_with(
        promise,
        move || -> Done
            requires { pass.book ≡ place.book.now.id }
            ensures { Did place.entry.book.now pass result }
        { follow_script(rt, alloc, place, pass, script) },
    );
    let Ok(thread) = thread else {
        return Err(refused(place.progress));
    };
    Ok(ClientThread { thread })
}

/// The passes that are left are at home, and made no event.
#[tactic(auto, using(crate::proofs::Crews::sofar_new))]
fn home_of(alloc: Global, roster: Roster, version: Version, book: &Book, passes: Vec<Pass>) -> Home
    requires { EachAt (IsNew book.now) 0 passes.items }
    ensures so_far { SoFar roster version book.now result }
    ensures passes { result.passes ≡ passes }
    ensures charges { result.charges.items ≡ [] }
{
    let _ = roster;
    let _ = version;
    let _ = book;
    Home {
        passes,
        charges: Vec::new(alloc),
        events: Vec::new(alloc),
        is_short: false,
        is_cut_off: false,
        link_faults: 0,
        busy: 0,
    }
}
