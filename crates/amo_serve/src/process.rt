//! A whole process, from the start of its host.
ghost use Rattle.std.specs.Prelude.{◌≤◌, IfOk};
ghost use Rattle.amo_live.specs.Host.{IsNoted};

use crate::responder::{Identity, Responder};
use crate::{Door, DoorFault, serve_door};
use amo_archive::Archive;
use amo_disk::Start;
use amo_door::Word;
use amo_live::{Bell, Durable, Ended, Lineage, Plan, start};
use amo_net::Link;
use std::alloc::Global;
use std::fs::File;
use std::rt::{Clock, Files};

/// Runs a host of 1 to 256 streams over this link, with a door, until it was asked to come to its end, and has, or cannot go on. The system waits for the link by this number. The journal goes on
/// in the sink, in this place, and new handshakes get these words. Callers are told this life, and what the archive has of earlier ones. Who rings the bell
/// asks the host to come to its end: the bell is handed back, and they are answered once the host has let go of all that it had.
pub fn run_door<
    C: Clock + Eprint + Files<File = File>,
    L: Link + Drop,
    S: Durable + Drop,
    W: Lineage + Drop,
>(
    rt: &C,
    alloc: Global,
    plan: Plan,
    door: Door,
    archive: Archive,
    bell: Bell,
    identity: Identity,
    life: Word,
    link: L,
    number: i32,
    sink: S,
    place: Start,
    words: W,
) -> Result<(Ended, Bell), DoorFault>
    requires { (1 ≤ plan.setup.streams) × (plan.setup.streams ≤ 256) }
{
    let mut door = door;
    let mut archive = archive;
    let mut bell = bell;
    let ended = work(
        rt,
        alloc,
        plan,
        &mut door,
        &mut archive,
        &mut bell,
        identity,
        life,
        link,
        number,
        sink,
        place,
        words,
    );
    match ended {
        Ok(ended) => Ok((ended, bell)),
        Err(fault) => Err(fault),
    }
}

/// Begins what answers at this door, and serves. What was begun is freed at one place.
fn work<
    C: Clock + Eprint + Files<File = File>,
    L: Link + Drop,
    S: Durable + Drop,
    W: Lineage + Drop,
>(
    rt: &C,
    alloc: Global,
    plan: Plan,
    door: &mut Door,
    archive: &mut Archive,
    bell: &mut Bell,
    identity: Identity,
    life: Word,
    link: L,
    number: i32,
    sink: S,
    place: Start,
    words: W,
) -> Result<Ended, DoorFault>
    requires { (1 ≤ plan.setup.streams) × (plan.setup.streams ≤ 256) }
{
    let limits = plan.limits;
    let mut responder = begun(alloc, plan, identity, life, link, sink, place, words)?;
    serve_door(rt, &mut responder, door, archive, bell, number, limits)
}

/// What answers callers of a host that begins.
fn begun<L: Link + Drop, S: Durable + Drop, W: Lineage + Drop>(
    alloc: Global,
    plan: Plan,
    identity: Identity,
    life: Word,
    link: L,
    sink: S,
    place: Start,
    words: W,
) -> Result<Responder<L, S, W>, DoorFault>
    requires { (1 ≤ plan.setup.streams) × (plan.setup.streams ≤ 256) }
    ensures { IfOk result (λ responder. IsNoted S.written responder.service.host) }
{
    place.admit(plan.setup.batch)?;
    let lines = place.lines;
    let service = start(
        alloc,
        plan.setup,
        link,
        sink,
        place,
        words,
        plan.limits.sync,
    )?;
    Ok(Responder::new(alloc, service, identity, life, plan.setup.streams, lines)?)
}
