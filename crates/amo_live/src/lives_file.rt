//! The file of a host's lives: it is locked, read, cut behind its last whole line, and appended to.
ghost use Rattle.std.specs.Prelude.{◌≡◌, ◌<◌, ◌≤◌, None, true, IfOk, IfSome, OnOk, is_none};
ghost use Rattle.amo_lives.specs.Lives.{reach};
ghost use Rattle.amo_live.specs.HostLives.{BeginsBehind, found_in};

use crate::own_file::open_alone;
use crate::{Cause, Durable, HostLives, LivesOpenFault};
use amo_disk::{Disk, Gathered, sync_entry};
use amo_lives::{BeginFault, BootId, Life, Lives, LivesFault, LivesFile};
use amo_object::End;
use amo_word::ChaChaWords;
use std::alloc::Global;
use std::cell::Cell;
use std::fs::File;
use std::io::{ErrorKind, Read};
use std::random::RandomSource;
use std::rt::Files;
use std::sync::ledger::{Blank, Ledger};
use std::{fs, io};

/// Where Linux shows the id of the machine's start.
const BOOT_ID: &str = "/proc/sys/kernel/random/boot_id";

/// A file of lives that was read, and that nobody else has. Nothing in it was changed yet.
#[derive(Drop)]
pub struct OpenedLives {
    file: File,
    side: End,
    /// None where it is new, or was torn in its heading or in its first life: it is to be begun.
    lives: Option<Lives>,
    whole: usize,
}

impl OpenedLives {
    /// Opens the file of lives of a host of this side, or makes one. It is refused, and left as it is, where it is none of that side.
    pub fn open<R: Files<File = File>>(
        rt: &R,
        alloc: Global,
        path: &str,
        side: End,
    ) -> Result<OpenedLives, LivesOpenFault> {
        let file = open_alone(rt, path)?;
        let mut bytes = Vec::new(alloc);
        (&file).read_to_end(&mut bytes)?;
        let read = read_begun(alloc, side, bytes.as_slice())?;
        let (lives, whole) = match read {
            Some(read) => (Some(read.lives), read.whole),
            None => (None, 0),
        };
        Ok(OpenedLives {
            file,
            side,
            lives,
            whole,
        })
    }

    /// Whether no life stands in it, nor a key.
    pub fn is_new(&self) -> bool
        ensures { result ≡ is_none (found_in self.now) }
    {
        self.lives.is_none()
    }

    /// Whether it tells of a life.
    pub fn has_lives(&self) -> bool {
        match &self.lives {
            Some(lives) => !lives.lives().is_empty(),
            None => false,
        }
    }

    /// The lives of a host whose journal has so many lines, behind which its next lives are written into the file of this path. They are refused, and the
    /// file is left as it is, where they are not those of such a journal. A new file gets its key, which the system draws, its heading, and behind a journal
    /// that has lines a life of which nothing is known: what a loss of power took of these nobody can tell. It is on the disk then, and where the host syncs
    /// the entry of its directory, too.
    ///
    /// The blank becomes the ledger in which contracts count failures. It takes no bytes.
    pub fn go_on<'a, R: Files<File = File> + RandomSource, L: Ledger>(
        self,
        rt: &R,
        alloc: Global,
        path: &str,
        lines: u64,
        sync: bool,
        cause: &'a Cell<Option<Cause>>,
        blank: Blank,
    ) -> Result<HostLives<Gathered<Disk<'a, File, L>>>, LivesOpenFault>
        requires name { blank.name ≡ L.name }
        requires parts { blank.parts ≡ L.parts }
        requires some { 0 < L.parts }
        ensures found { IfOk result (λ host. IfSome (found_in self) (λ lives. host.lives ≡ lives)) }
        ensures begun { IfOk result (λ host. is_none (found_in self) ≡ true → BeginsBehind lines host.lives.lives) }
        ensures within { IfOk result (λ host. reach host.lives.lives ≤ lines) }
        ensures undrawn { IfOk result (λ host. (host.words ≡ None) × (host.sync ≡ sync)) }
    {
        if let Some(lives) = &self.lives {
            lives.check_journal(lines)?;
        }
        let Drawn { key, tag, seed } = Drawn::draw(rt)?;
        self.file.set_len(self.whole as u64)?;
        let OpenedLives {
            file,
            side,
            lives,
            ..
        } = self;
        let is_new = lives.is_none();
        let mut sink = Gathered::new(alloc, Disk::new(file, cause, blank));
        let lives = match kept(alloc, side, lives, key, tag, lines, &mut sink) {
            Ok(lives) => lives,
            Err(fault) => {
                if is_new {
                    // A heading without its life would say that nothing is doubtful: the next start begins anew.
                    let _ = fs::create(rt, path);
                }
                return Err(fault_of(fault, cause));
            }
        };
        if sync {
            sync_entry(rt, path)?;
        }
        let tags = ChaChaWords::new(seed, 0);
        Ok(HostLives::new(alloc, lives, tags, sink, boot_id(rt), sync))
    }
}

/// What a file of lives of this side tells. None where it is to be begun: it has nothing, or it was torn in its heading or in its first life, or a loss of
/// power left zeros alone.
fn read_begun(alloc: Global, side: End, bytes: &[u8]) -> Result<Option<LivesFile>, LivesFault> {
    match Lives::read(alloc, side, bytes) {
        Ok(read) if read.lacks_first_life(bytes.len()) => Ok(None),
        Ok(read) => Ok(Some(read)),
        Err(LivesFault::NoHeading) => Ok(None),
        Err(_) if bytes.iter().all(|byte| *byte == 0) => Ok(None),
        Err(fault) => Err(fault),
    }
}

/// The lives that a file had, or those of a new one, with this key and tag. What the sink has is on the disk.
fn kept<S: Durable>(
    alloc: Global,
    side: End,
    lives: Option<Lives>,
    key: [u8; 16],
    tag: [u8; 4],
    lines: u64,
    sink: &mut S,
) -> Result<Lives, BeginFault>
    ensures found { IfOk result (λ kept. IfSome lives (λ lives. kept ≡ lives)) }
    ensures begun { IfOk result (λ kept. is_none lives ≡ true → BeginsBehind lines kept.lives) }
    ensures on_disk { OnOk result (S.on_disk sink.new ≡ S.written sink.new) }
{
    let lives = match lives {
        Some(lives) => lives,
        None => begin_file(alloc, side, key, tag, lines, sink)?,
    };
    sink.sync()?;
    Ok(lives)
}

/// The lives of a new file, with this key. The sink gets its heading, and where the journal has lines also that of a life of which nothing is known, with this
/// tag: it wrote them, at whatever start of the machine. A sink that gathers both has neither on the disk without the other.
fn begin_file<S: Durable>(
    alloc: Global,
    side: End,
    key: [u8; 16],
    tag: [u8; 4],
    lines: u64,
    sink: &mut S,
) -> Result<Lives, BeginFault>
    ensures { IfOk result (λ lives. BeginsBehind lines lives.lives) }
{
    let mut lives = Lives::new(alloc, side, key);
    let mut room = Vec::new(alloc);
    lives.write_heading(&mut room, sink)?;
    if lines > 0 {
        let unknown = Life {
            tag: u32::from_le_bytes(tag),
            first_line: 0,
            boot: None,
            sync: false,
        };
        lives.begin(&mut room, unknown, sink)?;
    }
    Ok(lives)
}

/// The fault of a file of which a write failed, for this cause, or for which memory was refused.
fn fault_of(fault: BeginFault, cause: &Cell<Option<Cause>>) -> LivesOpenFault {
    match (fault, cause.get()) {
        (BeginFault::NoMemory, _) => LivesOpenFault::NoMemory,
        (BeginFault::Device, Some(cause)) => LivesOpenFault::Device(cause),
        (BeginFault::Device, None) => LivesOpenFault::from(io::Error::from(ErrorKind::Other)),
    }
}

/// What a start draws: the key of a new file and the tag of its first life, and the seed from which tags are drawn.
struct Drawn {
    key: [u8; 16],
    tag: [u8; 4],
    seed: [u8; 32],
}

impl Drawn {
    /// All of it, by the system.
    fn draw<R: RandomSource>(rt: &R) -> Result<Drawn, LivesOpenFault> {
        Ok(Drawn {
            key: draw_bytes(rt)?,
            tag: draw_bytes(rt)?,
            seed: draw_bytes(rt)?,
        })
    }
}

/// So many bytes that the system draws.
fn draw_bytes<R: RandomSource, const N: usize>(rt: &R) -> Result<[u8; N], LivesOpenFault> {
    let mut bytes = [0; N];
    match rt.fill_bytes(&mut bytes) {
        Ok(()) => Ok(bytes),
        Err(error) => Err(LivesOpenFault::Seed(Cause::from(error))),
    }
}

/// The id of the machine's start, where the system shows it.
fn boot_id<R: Files<File = File>>(rt: &R) -> Option<BootId> {
    let mut file = fs::open(rt, BOOT_ID).ok()?;
    let mut text = [0; 36];
    file.read_exact(&mut text).ok()?;
    BootId::read(&text)
}
