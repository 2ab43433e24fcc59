//! A whole run.
ghost use Rattle.std.specs.Prelude.{◌≡◌, ◌+◌, ◌*◌, ◌≤◌, length, All, IfOk};
ghost use Rattle.amo_journal.specs.Journal.{CanSpell};
ghost use Rattle.amo_run.specs.declared.part.Part.TheVariants.{Both, Senders, Receivers};
ghost use Rattle.amo_run.specs.Parts.{clients_of, passes_of, pumps_of, sides_of};
ghost use Rattle.amo_run.specs.Ran.{HasLines, IsOfBooks, IsOfTwo, IsRanOf};
ghost use Rattle.amo_run.specs.Roster.{roster_of};
ghost use Rattle.amo_settings.specs.Limits.{AreWithin};
ghost use Rattle.amo_run.specs.Versions.{version_for};
ghost use Rattle.amo_run.specs.Whole.{IsWhole};

use crate::crew::{Crew, Wires, muster};
use crate::host::pumps_of;
use crate::part::Part;
use crate::report::{Chronicle, settle};
use crate::source::channel_words;
use crate::threads::at_once;
use crate::two_books::both_at_once;
use crate::version::version_of;
use crate::wire::{Socket, Wire};
use crate::workload::workloads;
use crate::workplace::Workplace;
use crate::{LinkKind, Progress, Ran, RunFault, RunSettings, Script};
use amo_net::{LinkFault, Lossy, LossyEnd, UdpPort};
use amo_object::End;
use amo_word::ChaChaWords;
use std::alloc::{AllocError, Global};
use std::net::{Ipv4Addr, Net, SocketAddr};
use std::sync::{Mutex, Wait};
use std::thread::Threads;

/// Runs two hosts and their clients, each pump and each client on a thread of its own, until all clients are done and all crashes and
/// recoveries have happened. It answers what they did, each event with a line in a journal of the version that [`version_of`] tells.
///
/// Sockets are opened first. A datagram that a link loses or refuses to carry is lost, and a link's failures are counted. No thread is
/// left behind, also where one is refused.
pub fn run<R: Threads + Wait + Net + Sync>(
    rt: &R,
    alloc: Global,
    settings: &RunSettings,
) -> Result<Ran, RunFault>
    requires within { AreWithin settings.now }
    ensures whole { IfOk result (IsRanOf settings.now) }
    ensures spelt { IfOk result (HasLines settings.now) }
{
    run_watched(rt, alloc, settings, &Progress::new())
}

/// The same, with its progress for whoever looks on. That is over on every way out.
pub fn run_watched<R: Threads + Wait + Net + Sync>(
    rt: &R,
    alloc: Global,
    settings: &RunSettings,
    progress: &Progress,
) -> Result<Ran, RunFault>
    requires within { AreWithin settings.now }
    ensures whole { IfOk result (IsRanOf settings.now) }
    ensures spelt { IfOk result (HasLines settings.now) }
{
    let ran = run_linked(rt, alloc, settings, progress);
    progress.end();
    ran
}

/// A run over the links that are asked for.
fn run_linked<R: Threads + Wait + Net + Sync>(
    rt: &R,
    alloc: Global,
    settings: &RunSettings,
    progress: &Progress,
) -> Result<Ran, RunFault>
    requires within { AreWithin settings.now }
    ensures whole { IfOk result (IsRanOf settings.now) }
    ensures spelt { IfOk result (HasLines settings.now) }
{
    match settings.link {
        LinkKind::Memory => run_in_memory(rt, alloc, settings, progress),
        LinkKind::Udp => {
            let sockets = sockets(rt, alloc, pumps_of(settings))?;
            run_over(rt, alloc, settings, sockets, progress)
        }
    }
}

/// A run over channels in memory.
fn run_in_memory<R: Threads + Wait + Sync>(
    rt: &R,
    alloc: Global,
    settings: &RunSettings,
    progress: &Progress,
) -> Result<Ran, RunFault>
    requires within { AreWithin settings.now }
    ensures whole { IfOk result (IsRanOf settings.now) }
    ensures spelt { IfOk result (HasLines settings.now) }
{
    let Ok(channels) = channels(alloc, settings.seed, pumps_of(settings)) else {
        return Err(RunFault::NoMemory);
    };
    let Ok(wires) = ends(rt, alloc, channels.as_slice()) else {
        return Err(RunFault::NoMemory);
    };
    run_over(rt, alloc, settings, wires, progress)
}

/// A channel for each pair of pumps. That of the first stands last.
fn channels(
    alloc: Global,
    seed: [u8; 32],
    pumps: usize,
) -> Result<Vec<Mutex<Lossy<ChaChaWords>>>, AllocError>
    requires { pumps ≤ 4 }
    ensures { IfOk result (λ channels. length channels.items ≡ pumps) }
{
    let mut channels = Vec::with_capacity(alloc, pumps)?;
    'pumps: for pump in 0..pumps {
        let words = channel_words(seed, (pumps - 1 - pump) as u32);
        channels.push(Mutex::new(Lossy::new(alloc, words)))?;
    }
    Ok(channels)
}

/// Both ends of each channel.
fn ends<'a, R: Wait>(
    rt: &'a R,
    alloc: Global,
    channels: &'a [Mutex<Lossy<ChaChaWords>>],
) -> Result<Wires<LossyEnd<'a, ChaChaWords, R>>, AllocError>
    ensures senders { IfOk result (λ wires. length wires.senders.items ≡ length channels.now) }
    ensures receivers { IfOk result (λ wires. length wires.receivers.items ≡ length channels.now) }
{
    let mut wires = Wires {
        senders: Vec::with_capacity(alloc, channels.len())?,
        receivers: Vec::with_capacity(alloc, channels.len())?,
    };
    'channels: for channel in channels {
        let sender = LossyEnd::new(rt, alloc, channel, End::Sender);
        let receiver = LossyEnd::new(rt, alloc, channel, End::Receiver);
        wires.senders.push(sender)?;
        wires.receivers.push(receiver)?;
    }
    Ok(wires)
}

/// Two sockets of this machine for each pair of pumps, each with the other's address.
fn sockets<R: Net>(rt: &R, alloc: Global, pumps: usize) -> Result<Wires<Socket>, RunFault>
    ensures senders { IfOk result (λ wires. length wires.senders.items ≡ pumps) }
    ensures receivers { IfOk result (λ wires. length wires.receivers.items ≡ pumps) }
{
    let mut wires = Wires {
        senders: Vec::new(alloc),
        receivers: Vec::new(alloc),
    };
    'pumps: for pump in 0..pumps {
        let _ = pump;
        let (sender, receiver) = match pair(rt) {
            Ok(pair) => pair,
            Err(LinkFault::Device) => return Err(RunFault::Device),
            Err(LinkFault::NoMemory) => return Err(RunFault::NoMemory),
        };
        if wires.senders.push(sender).is_err() || wires.receivers.push(receiver).is_err() {
            return Err(RunFault::NoMemory);
        }
    }
    Ok(wires)
}

/// Two sockets, each with the other's address.
fn pair<R: Net>(rt: &R) -> Result<(Socket, Socket), LinkFault> {
    let any = SocketAddr::from((Ipv4Addr::LOCALHOST, 0));
    let (one, other) = (UdpPort::open(rt, any)?, UdpPort::open(rt, any)?);
    let (at_one, at_other) = (one.address()?, other.address()?);
    Ok((
        Socket {
            port: one,
            peer: at_other,
        },
        Socket {
            port: other,
            peer: at_one,
        },
    ))
}

/// A run over these wires.
#[tactic(auto, using(crate::proofs::Lines::no_lines))]
fn run_over<C: Wire + Send + Drop, R: Threads + Wait + Sync>(
    rt: &R,
    alloc: Global,
    settings: &RunSettings,
    wires: Wires<C>,
    progress: &Progress,
) -> Result<Ran, RunFault>
    requires within { AreWithin settings.now }
    requires senders { pumps_of settings.now ≤ length wires.senders.items }
    requires receivers { pumps_of settings.now ≤ length wires.receivers.items }
    ensures whole { IfOk result (IsRanOf settings.now) }
    ensures spelt { IfOk result (HasLines settings.now) }
{
    if settings.split {
        return run_apart(rt, alloc, settings, wires, progress);
    }
    let Ok(scripts) = workloads(rt, alloc, Part::Both, settings) else {
        return Err(RunFault::NoMemory);
    };
    let chronicle = run_scripts(rt, alloc, settings, wires, scripts, progress)?;
    Ok(Ran::of_one(alloc, chronicle))
}

/// A run on one book, whose clients follow these scripts.
pub fn run_scripts<S: Script + Send + Drop, C: Wire + Send + Drop, R: Threads + Wait + Sync>(
    rt: &R,
    alloc: Global,
    settings: &RunSettings,
    wires: Wires<C>,
    scripts: Vec<S>,
    progress: &Progress,
) -> Result<Chronicle, RunFault>
    requires within { AreWithin settings.now }
    requires senders { pumps_of settings.now ≤ length wires.senders.items }
    requires receivers { pumps_of settings.now ≤ length wires.receivers.items }
    requires scripts { length scripts.items ≤ 56 }
    ensures spelt { IfOk result (λ r. All (CanSpell (version_for settings.now.batch)) r.events.items) }
    ensures whole { IfOk result (λ r. IsWhole (sides_of Both settings.now.streams) (passes_of Both (pumps_of settings.now) (length scripts.items)) (roster_of Both (pumps_of settings.now) (length scripts.items)) r.closed r.events.items) }
{
    let version = version_of(settings);
    let Crew {
        book,
        roster,
        hands,
    } = muster(alloc, settings, Part::Both, wires, scripts)?;
    progress.begin(1);
    let place = Workplace {
        roster,
        version,
        book: &book,
        progress,
    };
    let home = at_once(rt, alloc, place, hands)?;
    settle(alloc, roster, version, book, home)
}

/// A run on two books: the senders', and the receivers'.
fn run_apart<C: Wire + Send + Drop, R: Threads + Wait + Sync>(
    rt: &R,
    alloc: Global,
    settings: &RunSettings,
    wires: Wires<C>,
    progress: &Progress,
) -> Result<Ran, RunFault>
    requires within { AreWithin settings.now }
    requires senders { pumps_of settings.now ≤ length wires.senders.items }
    requires receivers { pumps_of settings.now ≤ length wires.receivers.items }
    ensures two { IfOk result (IsOfTwo settings.now) }
    ensures spelt { IfOk result (HasLines settings.now) }
{
    let Wires { senders, receivers } = wires;
    let Ok(putting) = workloads(rt, alloc, Part::Senders, settings) else {
        return Err(RunFault::NoMemory);
    };
    let Ok(getting) = workloads(rt, alloc, Part::Receivers, settings) else {
        return Err(RunFault::NoMemory);
    };
    let senders = Wires {
        senders,
        receivers: Vec::new(alloc),
    };
    let receivers = Wires {
        senders: Vec::new(alloc),
        receivers,
    };
    let one = muster(alloc, settings, Part::Senders, senders, putting)?;
    let other = muster(alloc, settings, Part::Receivers, receivers, getting)?;
    let (one, other) = both_at_once(rt, alloc, version_of(settings), one, other, progress)?;
    Ok(Ran::of_two(one, other))
}
