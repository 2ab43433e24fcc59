//! The start of a host: its journal goes on where it ended, or begins.
ghost use Rattle.std.specs.Prelude.{◌≡◌, ◌*◌, ◌≤◌, [], length, true, IfOk};
ghost use Rattle.amo_book.specs.Pass.{mine};
ghost use Rattle.amo_disk.specs.Back.{returned};
ghost use Rattle.amo_live.specs.Host.{IsNoted, first_events, sides_from};
ghost use Rattle.amo_live.specs.Noted.{Holds, IsSameJournal, opening};
ghost use Rattle.amo_live.specs.Service.{new_version, streams_of, words_of};
ghost use Rattle.amo_live.specs.Standing.{BeganSo, standing_of};
ghost use Rattle.amo_live.specs.Words.{words_in};

use crate::{Durable, Host, Journal, Lineage, LiveFault, Service, Setup};
use amo_disk::Start;
use amo_journal::Version;
use amo_net::Link;
use amo_text::Sink;
use std::alloc::Global;

/// A host over this link, with a journal that goes on in this place. Where it has a line of an event, it is noted that each stream's side crashed
/// and is up again. Where it has no line at all it is begun: its heading is written, before anything else. With `sync` all that is on its disk.
pub fn start<L: Link + Drop, S: Durable + Drop, W: Lineage + Drop>(
    alloc: Global,
    setup: Setup,
    link: L,
    sink: S,
    place: Start,
    words: W,
    sync: bool,
) -> Result<Service<L, S, W>, LiveFault>
    requires { (1 ≤ setup.streams) × (setup.streams ≤ 256) }
    // The journal has all lines so far. It goes on in its version where it was read to the end, or begins with its heading. What it was handed
    // first tells of a crash of each side and its recovery, where it has a line of an event, and else of nothing.
    ensures noted { IfOk result (λ service. IsNoted S.written service.host) }
    ensures on_disk { IfOk result (λ service. sync ≡ true → S.on_disk service.host.journal.sink ≡ S.written service.host.journal.sink) }
    ensures journal { IfOk result (λ service. IsSameJournal (opening (new_version setup) place.version place.lines (2 * standing_of place setup.streams) sink) service.host.journal) }
    // The first of these events have lines already, where the last lines are those by which the host before it came back.
    ensures standing { IfOk result (λ service. BeganSo (returned setup.side (standing_of place setup.streams)) (mine service.host.pass)) }
    // Each event behind these has a line of its own.
    ensures stood { IfOk result (λ service. service.host.journal.standing ≤ length (mine service.host.pass)) }
    // It has the streams that it was set up for. No word was drawn, and no event of the host bears one.
    ensures streams { IfOk result (λ service. streams_of service ≡ setup.streams) }
    ensures words { IfOk result (λ service. words_of service ≡ words) }
    ensures unborne { IfOk result (λ service. words_in (mine service.host.pass) ≡ []) }
    ensures back { IfOk result (λ service. mine service.host.pass ≡ first_events service.host.pass.number (sides_from setup.side 1 setup.streams) place.lines) }
{
    let lines = place.lines;
    let standing = standing(&place, setup.streams);
    let version = setup.new_version();
    let journal = open_journal(alloc, sink, place.version, lines, standing, version)?;
    let mut host = Host::open(alloc, setup.side, setup.streams, setup.pace, link, journal)?;
    if lines > 0 {
        host.come_back()?;
    }
    host.write_down(sync)?;
    Ok(Service::new(alloc, host, words, setup)?)
}

/// How many of a host's streams came back by the last lines of its journal, in this place. Their lines stand: a host that is started again and again adds
/// nothing to its journal.
fn standing(place: &Start, streams: u32) -> u32
    ensures { result ≡ standing_of place.now streams }
{
    if place.lines > 0 && place.back <= streams {
        place.back
    } else {
        0
    }
}

/// The journal in a sink that was read: it goes on in the version that its lines tell, behind so many, by the last of which so many streams came
/// back. Where none tells it, it is new, and begins in this version.
fn open_journal<S: Sink + Drop>(
    alloc: Global,
    sink: S,
    known: Option<Version>,
    lines: u64,
    standing: u32,
    version: Version,
) -> Result<Journal<S>, LiveFault>
    ensures opened { IfOk result (IsSameJournal (opening version known lines (2 * standing) sink)) }
    ensures headed { IfOk result (λ journal. Holds S.written journal []) }
{
    match known {
        Some(known) => {
            let events = 2 * u64::from(standing);
            Ok(Journal::go_on(alloc, sink, known, lines, events))
        }
        None => Journal::begin(alloc, sink, version),
    }
}
