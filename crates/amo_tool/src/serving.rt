//! One host of the service in this process, which programs ask at a door.
ghost use Rattle.std.specs.Prelude.{◌≡◌, ◌<◌, ◌≤◌};
ghost use Rattle.amo_settings.specs.Limits.{IsSideWithin};

use crate::failure::Failure;
use amo_archive::Archive;
use amo_arguments::VERSION;
use amo_client::{check_address, read_token};
use amo_disk::{Cause, Disk, Gathered, Opened, Start, open};
use amo_door::{Guard, Served, Word};
use amo_live::{Aside, Durable, Ended, HostLives, LiveFault, LivesOpenFault, Plan, Socket};
use amo_lives::Lives;
use amo_object::End;
use amo_offline::boot_id;
use amo_process::{
    HostFailure, ON_ITS_WAY, Prepared, hang_bell, hold_numbers, host_of, open_lives, open_socket,
    path_of_lives, tell_of_start, tell_of_zeros,
};
use amo_serve::{Door, DoorFault, Identity, run_door};
use amo_settings::{HostSettings, ServeSettings, ServedSide};
use amo_text::push_hex;
use std::alloc::{AllocError, AllocFailed, Global};
use std::cell::Cell;
use std::fs;
use std::fs::File;
use std::marker::Brand;
use std::net::{Net, SocketAddr, TcpListener, TcpStream};
use std::random::RandomSource;
use std::rt::{Clock, Files};
use std::sync::ledger::{Blank, Ledger};
use std::time::{SystemTime, UNIX_EPOCH};

/// Is a host that programs ask at a door, until it is ended or cannot go on.
pub(crate) fn serve_programs<
    R: AllocGlobal
        + Clock
        + Eprint
        + Files<File = File>
        + Net<Listener = TcpListener, Stream = TcpStream>
        + RandomSource,
>(rt: &R, settings: &ServeSettings) -> Result<u8, Failure>
    requires { IsSideWithin settings.now.side }
{
    let (host, plan) = match &settings.side {
        ServedSide::Send(send) => (&send.host, Plan::to_send(send)),
        ServedSide::Receive(receive) => (&receive.host, Plan::to_receive(receive)),
    };
    check_address(rt, host.listen.as_str())?;
    check_address(rt, host.peer.as_str())?;
    let token = match &settings.token_file {
        Some(file) => Some(read_token(rt, file.as_str())?),
        None => None,
    };
    let _held = hold_numbers(rt, End::Receiver)?;
    let (listener, address) = open_listener(rt, settings.door.as_str(), token.is_some())?;
    let alloc = rt.alloc();
    let guard = guard_of(alloc, settings.door.as_str(), address, token)?;
    let served = Served {
        side: plan.setup.side,
        streams: plan.setup.streams,
    };
    let door = match Door::open(alloc, listener, guard, served) {
        Ok(door) => door,
        Err(fault) => return Err(Failure::Door(fault)),
    };
    serve_at(rt, host, plan, door, address)
}

/// Serves at this door, with ledgers in which contracts count failures.
fn serve_at<R: AllocGlobal + Clock + Eprint + Files<File = File> + Net + RandomSource>(
    rt: &R,
    host: &HostSettings,
    plan: Plan,
    door: Door,
    address: SocketAddr,
) -> Result<u8, Failure>
    requires streams { (1 ≤ plan.setup.streams) × (plan.setup.streams ≤ 256) }
    requires piece { 1024 ≤ plan.piece }
{
    serve_opened::<R, Brand, Brand, Brand>(
        rt,
        host,
        plan,
        door,
        address,
        Blank::new(1),
        Blank::new(1),
        Blank::new(1),
    )
}

/// Opens the listener of a door at this address. Answers where it is, too. One that other machines can reach is refused where no token is wanted.
fn open_listener<R: AllocGlobal + Net<Listener = TcpListener, Stream = TcpStream>>(
    rt: &R,
    door: &str,
    has_token: bool,
) -> Result<(TcpListener, SocketAddr), Failure> {
    let alloc = rt.alloc();
    check_address(rt, door)?;
    let listener = match TcpListener::bind(rt, door) {
        Ok(listener) => listener,
        Err(error) => return Err(Failure::of_listener(alloc, door, error)),
    };
    let address = match listener.local_addr() {
        Ok(address) => address,
        Err(error) => return Err(Failure::of_listener(alloc, door, error)),
    };
    if !has_token && !address.ip().is_loopback() {
        return Err(Failure::of_open_door(alloc, door));
    }
    Ok((listener, address))
}

/// Who may ask at the door at this address, which was asked for by that text: who names it so, or by what this machine calls itself.
fn guard_of(
    alloc: Global,
    door: &str,
    address: SocketAddr,
    token: Option<String>,
) -> Result<Guard, Failure> {
    let port = address.port();
    let mut hosts = Vec::new(alloc);
    for host in [host_of(door), "127.0.0.1", "localhost", "[::1]"] {
        push(&mut hosts, format!(in alloc; "{host}:{port}")?)?;
    }
    Ok(Guard { hosts, token })
}

/// Opens the host's socket, then the journal and the file of lives beside it, and runs the host with them and the door. The blanks become the ledgers
/// in which contracts count their failures.
fn serve_opened<
    R: AllocGlobal + Clock + Eprint + Files<File = File> + Net + RandomSource,
    L: Ledger,
    M: Ledger,
    N: Ledger,
>(
    rt: &R,
    host: &HostSettings,
    plan: Plan,
    door: Door,
    address: SocketAddr,
    link: Blank,
    lines: Blank,
    lives: Blank,
) -> Result<u8, Failure>
    requires link { (link.name ≡ L.name) × (link.parts ≡ L.parts) × (0 < L.parts) }
    requires lines { (lines.name ≡ M.name) × (lines.parts ≡ M.parts) × (0 < M.parts) }
    requires lives { (lives.name ≡ N.name) × (lives.parts ≡ N.parts) × (0 < N.parts) }
    requires streams { (1 ≤ plan.setup.streams) × (plan.setup.streams ≤ 256) }
    requires piece { 1024 ≤ plan.piece }
{
    let alloc = rt.alloc();
    let path = host.journal.as_str();
    let (socket, port) = open_socket::<R, L>(rt, host, link)?;
    let cause = Cell::new(None);
    let opened = open::<R, M>(rt, alloc, path, &plan.wanted(), &cause, lines);
    let Opened { disk, start, zeros } = match opened {
        Ok(opened) => opened,
        Err(fault) => return Err(Failure::Host(HostFailure::of_journal(alloc, path, fault))),
    };
    tell_of_zeros(rt, path, zeros);
    let ran = serve_noted::<R, L, _, N>(
        rt, host, plan, door, address, socket, port, disk, start, lives,
    )?;
    match ran {
        Ok(Ended::OnItsWay) => Ok(ON_ITS_WAY),
        Ok(Ended::AtRest | Ended::Torn) => Ok(0),
        Err(fault) => Err(Failure::of_door(alloc, path, fault, cause.get())),
    }
}

/// Opens the file of lives beside a journal that is open, begins a life, and runs the host with them and the door. A fault of the file of lives is told
/// here, and any other is handed on.
fn serve_noted<
    R: AllocGlobal + Clock + Eprint + Files<File = File> + Net + RandomSource,
    L: Ledger,
    S: Durable + Drop,
    N: Ledger,
>(
    rt: &R,
    host: &HostSettings,
    plan: Plan,
    door: Door,
    address: SocketAddr,
    socket: Socket<L>,
    port: u16,
    disk: S,
    start: Start,
    lives: Blank,
) -> Result<Result<Ended, DoorFault>, Failure>
    requires lives { (lives.name ≡ N.name) × (lives.parts ≡ N.parts) × (0 < N.parts) }
    requires streams { (1 ≤ plan.setup.streams) × (plan.setup.streams ≤ 256) }
{
    let alloc = rt.alloc();
    let path = host.journal.as_str();
    let why = Cell::new(None);
    let Prepared {
        file,
        words: begun,
        bell,
        nail,
    } = prepare::<R, N>(rt, host, &plan, start.lines, &why, lives)?;
    tell_of_start(rt, host.listen.as_str(), port, path, start.lines);
    let _ = eprintln!(Aside::new(rt); "amo: its door is http://{address}");
    let number = socket.number();
    let Begun {
        words,
        life,
        archive,
        identity,
    } = begun;
    let ran = run_door(
        rt, alloc, plan, door, archive, bell, identity, life, socket, number, disk, start, words,
    );
    nail.take_down(rt);
    match ran {
        // Who asked for the end may start a host anew then: it finds both ports, the files and the place of the bell free.
        Ok((ended, mut bell)) => {
            bell.answer(ended);
            Ok(Ok(ended))
        }
        Err(fault) if fault == DoorFault::Host(LiveFault::Lives) => {
            Err(Failure::of_door(alloc, file.as_str(), fault, why.get()))
        }
        Err(fault) => Ok(Err(fault)),
    }
}

/// Opens the file of lives beside the host's journal, which has so many lines, begins a life, and hangs the bell.
fn prepare<
    'a,
    R: AllocGlobal + Clock + Eprint + Files<File = File> + Net + RandomSource,
    N: Ledger,
>(
    rt: &R,
    host: &HostSettings,
    plan: &Plan,
    lines: u64,
    why: &'a Cell<Option<Cause>>,
    blank: Blank,
) -> Result<Prepared<Begun<Gathered<Disk<'a, File, N>>>>, Failure>
    requires { (blank.name ≡ N.name) × (blank.parts ≡ N.parts) × (0 < N.parts) }
{
    let path = host.journal.as_str();
    let file = path_of_lives(rt.alloc(), path)?;
    let words = begin::<R, N>(rt, host, plan, file.as_str(), lines, why, blank)?;
    let (bell, nail) = hang_bell(rt, path)?;
    Ok(Prepared {
        file,
        words,
        bell,
        nail,
    })
}

/// What a host with a door has once its life began.
#[derive(Drop)]
struct Begun<S> {
    /// Where its next words come from.
    words: HostLives<S>,
    /// The word of its life.
    life: Word,
    /// Its journal, as it tells of it.
    archive: Archive,
    /// What is told of it.
    identity: Identity,
}

/// Opens the file of lives at this path, beside a journal of so many lines, and begins a life.
fn begin<'a, R: AllocGlobal + Clock + Eprint + Files<File = File> + RandomSource, N: Ledger>(
    rt: &R,
    host: &HostSettings,
    plan: &Plan,
    file: &str,
    lines: u64,
    why: &'a Cell<Option<Cause>>,
    blank: Blank,
) -> Result<Begun<Gathered<Disk<'a, File, N>>>, Failure>
    requires { (blank.name ≡ N.name) × (blank.parts ≡ N.parts) × (0 < N.parts) }
{
    let side = plan.setup.side;
    let mut words = open_lives::<R, N>(rt, file, plan, lines, why, blank)?;
    begin_life(rt.alloc(), &mut words, file, lines, why)?;
    let (life, archive) = life_told(rt, side, host.journal.as_str(), file)?;
    let identity = identity_of(rt, host)?;
    Ok(Begun {
        words,
        life,
        archive,
        identity,
    })
}

/// The word of the life that began last, and the journal of this path, as a host of this side with the lives of this file tells of it.
fn life_told<R: AllocGlobal + Files<File = File>>(
    rt: &R,
    side: End,
    path: &str,
    file: &str,
) -> Result<(Word, Archive), Failure> {
    let lives = read_lives(rt, side, file)?;
    let life = word_of_life(rt.alloc(), &lives)?;
    let archive = archive_of(rt, path, &lives)?;
    Ok((life, archive))
}

/// What is told of a host.
fn identity_of<R: AllocGlobal + Clock>(rt: &R, host: &HostSettings) -> Result<Identity, Failure> {
    let alloc = rt.alloc();
    let since = match SystemTime::now(rt) {
        Ok(now) => match now.duration_since(UNIX_EPOCH) {
            Ok(since) => since.as_secs(),
            Err(_) => 0,
        },
        Err(_) => 0,
    };
    Ok(Identity {
        version: String::from_str(alloc, VERSION)?,
        peer: String::from_str(alloc, host.peer.as_str())?,
        since,
    })
}

/// Begins a life of a host, whose next line in the journal has this number, in its file of lives. Its first word is drawn, and left: the life has its
/// line before anybody is told of it.
fn begin_life<S: Durable>(
    alloc: Global,
    words: &mut HostLives<S>,
    file: &str,
    lines: u64,
    why: &Cell<Option<Cause>>,
) -> Result<(), Failure> {
    match words.begin_life(lines) {
        Ok(_word) => Ok(()),
        Err(fault) => Err(Failure::of_door(alloc, file, DoorFault::from(fault), why.get())),
    }
}

/// The lives of the host of this side, by their file.
fn read_lives<R: AllocGlobal + Files<File = File>>(
    rt: &R,
    side: End,
    file: &str,
) -> Result<Lives, Failure> {
    let alloc = rt.alloc();
    let bytes = match fs::read(rt, file) {
        Ok(bytes) => bytes,
        Err(error) => {
            return Err(Failure::Host(HostFailure::of_disk(alloc, file, Cause::from(error))));
        }
    };
    match Lives::read(alloc, side, bytes.as_slice()) {
        Ok(read) => Ok(read.lives),
        Err(fault) => Err(Failure::Host(HostFailure::of_lives(
            alloc,
            file,
            LivesOpenFault::from(fault),
        ))),
    }
}

/// The word of the life that began last: the digits of its tag, which no other one has.
fn word_of_life(alloc: Global, lives: &Lives) -> Result<Word, Failure> {
    let mut text = Vec::new(alloc);
    if let Some(life) = lives.lives().last() {
        push_hex(&mut text, &life.tag.to_be_bytes())?;
    }
    match Word::read(text.as_slice()) {
        Some(word) => Ok(word),
        None => Err(Failure::NoMemory),
    }
}

/// The journal of this path, as a host with these lives tells of it.
fn archive_of<R: AllocGlobal + Files<File = File>>(
    rt: &R,
    path: &str,
    lives: &Lives,
) -> Result<Archive, Failure> {
    let alloc = rt.alloc();
    let doubts = lives.doubts(alloc, &boot_id(rt))?;
    let lives = Vec::from_slice(alloc, lives.lives())?;
    Ok(Archive::new(alloc, path, lives, doubts)?)
}

/// Puts a value at a list's end.
fn push<T: Drop>(list: &mut Vec<T>, value: T) -> Result<(), AllocError> {
    match list.push(value) {
        Ok(()) => Ok(()),
        Err(AllocFailed { .. }) => Err(AllocError),
    }
}
