//! A whole process, from the start of its host to its end.
ghost use Rattle.std.specs.Prelude.{◌≤◌};
ghost use Rattle.amo_live.specs.Host.{IsNoted};

use crate::{Desk, Keeper, ProcessFault, serve};
use amo_disk::Start;
use amo_live::{Aside, Bell, Durable, Ended, Limits, Lineage, Plan, Service, start};
use amo_net::Link;
use std::io::{Read, Write};
use std::rt::Clock;

/// Runs a host of 1 to 256 streams over this link, for the clients at this desk, until they are done. The journal goes on in the sink, in
/// this place, and new handshakes get these words. Who rings the desk's bell asks it to come to its end: the bell is handed back, and they are answered once
/// the host has let go of all that it had. On the streams in doubt earlier lives sent messages of
/// which it is not known what became of them; once that is settled, it is told. The keeper looks at the host behind each of its turns. It is refused
/// where batches are to be started for which it has no lines.
pub fn run_process<
    R: AllocGlobal + Clock + Eprint,
    I: Read + Drop,
    O: Write + Drop,
    L: Link + Drop,
    S: Durable + Drop,
    W: Lineage + Drop,
    K: Keeper<L, S, W>,
>(
    rt: &R,
    plan: Plan,
    desk: Desk<I, O>,
    link: L,
    sink: S,
    place: Start,
    words: W,
    in_doubt: &[u32],
    keeper: &mut K,
) -> Result<(Ended, Bell), ProcessFault>
    requires { (1 ≤ plan.setup.streams) × (plan.setup.streams ≤ 256) }
{
    place.admit(plan.setup.batch)?;
    let mut desk = desk;
    let mut service = start(
        rt.alloc(),
        plan.setup,
        link,
        sink,
        place,
        words,
        plan.limits.sync,
    )?;
    let rt = Aside::new(rt);
    let ended = work(&rt, &mut service, &mut desk, plan.limits, in_doubt, keeper)?;
    Ok((ended, desk.bell))
}

/// Makes the turns of a host that was started.
fn work<C: Clock + Eprint, L: Link, S: Durable, W: Lineage, I: Read, O: Write, K: Keeper<L, S, W>>(
    rt: &C,
    service: &mut Service<L, S, W>,
    desk: &mut Desk<I, O>,
    limits: Limits,
    in_doubt: &[u32],
    keeper: &mut K,
) -> Result<Ended, ProcessFault>
    requires { IsNoted S.written service.old.host }
{
    for stream in in_doubt {
        service.doubt(*stream);
    }
    match serve(rt, service, desk, limits, keeper) {
        Ok(ended) => Ok(ended),
        Err(fault) => {
            service.tell_unshown(rt);
            Err(ProcessFault::Serve(fault))
        }
    }
}
