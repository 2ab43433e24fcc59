//! Two books at work at once.
ghost use Rattle.std.specs.Prelude.{map, All, IfOk};
ghost use Rattle.amo_journal.specs.Journal.{CanSpell};
ghost use Rattle.amo_run.specs.Crew.{AreHandsOf, IsBack, IsReady, dealt};
ghost use Rattle.amo_run.specs.Whole.{IsWhole};

use crate::crew::{Crew, Hands};
use crate::home::Home;
use crate::report::{Chronicle, settle};
use crate::roster::Roster;
use crate::threads::at_once;
use crate::wire::Wire;
use crate::work::PumpJob;
use crate::workplace::Workplace;
use crate::{Progress, RunFault, Script};
use amo_book::Book;
use amo_journal::Version;
use std::alloc::Global;
use std::snapshot::Snapshot;
use std::sync::Wait;
use std::thread;
use std::thread::{Promise, Threads};

/// The promise that all passes of a book are back, with events that have lines in a journal of this version, and the charges of these pumps.
#[derive(Drop)]
pub struct BookPromise<C> {
    pub roster: Roster,
    pub version: Version,
    pub book: Snapshot<Book>,
    pub jobs: Snapshot<Vec<PumpJob<C>>>,
}

impl<C> Promise<Result<Home, RunFault>> for BookPromise<C> {
    ghost use Rattle.std.specs.Prelude.{map, IfOk};
    ghost use Rattle.amo_run.specs.Crew.{IsBack, dealt};

    ghost kept_by = { λ p r. IfOk r (λ h. IsBack p.roster p.version p.book.value (dealt (map (λ j. j.task.pump) p.jobs.value.items)) h) };
}

/// Runs both crews at once, until the clients of both are done, and closes the books. Each event has a line in a journal of this version.
pub fn both_at_once<S: Script + Send + Drop, C: Wire + Send + Drop, R: Threads + Wait + Sync>(
    rt: &R,
    alloc: Global,
    version: Version,
    one: Crew<S, C>,
    other: Crew<S, C>,
    progress: &Progress,
) -> Result<(Chronicle, Chronicle), RunFault>
    requires one { IsReady version one }
    requires other { IsReady version other }
    ensures one { IfOk result (λ t. IsWhole one.book.sides one.book.passes one.roster t.0.closed t.0.events.items) }
    ensures other { IfOk result (λ t. IsWhole other.book.sides other.book.passes other.roster t.1.closed t.1.events.items) }
    ensures spelt { IfOk result (λ t. All (CanSpell version) t.0.events.items × All (CanSpell version) t.1.events.items) }
{
    let Crew {
        book,
        roster,
        hands,
    } = one;
    let Crew {
        book: other_book,
        roster: other_roster,
        hands: other_hands,
    } = other;
    progress.begin(2);
    let here = Workplace {
        roster,
        version,
        book: &book,
        progress,
    };
    let there = Workplace {
        roster: other_roster,
        version,
        book: &other_book,
        progress,
    };
    let (home, other_home) = both_homes(rt, alloc, here, hands, there, other_hands)?;
    Ok((
        settle(alloc, roster, version, book, home)?,
        settle(alloc, other_roster, version, other_book, other_home)?,
    ))
}

/// What comes home from the threads of two books that are at work at once.
fn both_homes<S: Script + Send + Drop, C: Wire + Send + Drop, R: Threads + Wait + Sync>(
    rt: &R,
    alloc: Global,
    here: Workplace<'_>,
    hands: Hands<S, C>,
    there: Workplace<'_>,
    other_hands: Hands<S, C>,
) -> Result<(Home, Home), RunFault>
    requires one { AreHandsOf here.roster here.version here.book.now hands }
    requires other { AreHandsOf there.roster there.version there.book.now other_hands }
    ensures one { IfOk result (λ t. IsBack here.entry.roster here.entry.version here.entry.book.now (dealt (map (λ j. j.task.pump) hands.jobs.items)) t.0) }
    ensures other { IfOk result (λ t. IsBack there.entry.roster there.entry.version there.entry.book.now (dealt (map (λ j. j.task.pump) other_hands.jobs.items)) t.1) }
{
    thread::scope(
        thread::scope_env(),
        rt,
        |scope| -> Result<(Home, Home), RunFault>
            requires one { AreHandsOf here.roster here.version here.book.now hands }
            requires other { AreHandsOf there.roster there.version there.book.now other_hands }
            ensures one { IfOk result (λ t. IsBack here.entry.roster here.entry.version here.entry.book.now (dealt (map (λ j. j.task.pump) hands.jobs.items)) t.0) }
            ensures other { IfOk result (λ t. IsBack there.entry.roster there.entry.version there.entry.book.now (dealt (map (λ j. j.task.pump) other_hands.jobs.items)) t.1) }
        {
            let promise = BookPromise {
                roster: there.roster,
                version: there.version,
                book: Snapshot::of(there.book),
                jobs: Snapshot::of(&other_hands.jobs),
            };
            let thread = scope.spawn_with(
                promise,
                move || -> Result<Home, RunFault>
                    requires { AreHandsOf there.roster there.version there.book.now other_hands }
                    ensures { IfOk result (λ h. IsBack there.entry.roster there.entry.version there.entry.book.now (dealt (map (λ j. j.task.pump) other_hands.jobs.items)) h) }
                { at_once(rt, alloc, there, other_hands) },
            );
            let Ok(thread) = thread else {
                return Err(RunFault::NoMemory);
            };
            let home = at_once(rt, alloc, here, hands);
            let other_home = thread.join(rt);
            Ok((home?, other_home?))
        },
    )
}
