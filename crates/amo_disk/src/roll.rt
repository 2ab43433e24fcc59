//! The pieces of a journal, as a writer: it begins a new one by itself.
ghost use Rattle.std.specs.Prelude.{◌≡◌, ◌<◌, ◌≤◌, false, true, length, take, ℕ, IfOk, IfSome, OnErr, OnOk};
ghost use Rattle.std.specs.Io.KnownBytes.{Keeps};
ghost use Rattle.amo_journal.specs.declared.version.Version.{Version};
ghost use Rattle.amo_journal.specs.Version.{heading};
ghost use Rattle.amo_disk.specs.declared.newest.Newest.{Newest};
ghost use Rattle.amo_disk.specs.Folder.{BeginsInPart, BeginsWith, Grows, Stays};
ghost use Rattle.amo_disk.specs.Kept.{Grown, HasRoom, HaveClosed, IsAlone, IsKept, spelt_known};
ghost use Rattle.amo_disk.specs.Standing.{is_on_disk};

use crate::Folder;
use crate::newest::{Newest, part_within};
use amo_journal::Version;
use std::io::{self, ErrorKind, Write};
use std::marker::Model;

/// The pieces of a journal in a folder. What is written goes to the newest one. Where that is long enough and its last line whole, a write closes it
/// and begins another one first. Contracts see the folder, the version of the journal, how long a piece is to be, and whether a new one is put on the
/// disk.
#[derive(Drop)]
pub struct Roll<F: Folder> {
    folder: F,
    version: Version,
    limit: u64,
    sync: bool,
    newest: Newest,
    /// How many pieces it has begun.
    begun: u64,
    // A piece that was begun in part is no place for lines, and neither is one whose bytes nobody can count.
    is_broken: bool,
}

impl<F: Folder> Model for Roll<F> {
    ghost use Rattle.std.specs.Prelude.{◌<◌, IfSome};
    ghost use Rattle.amo_disk.specs.Kept.{RollState, IsKept};

    ghost Value = { RollState F };

    ghost view = { λ r. record { folder = r.folder; version = r.version; limit = r.limit; sync = r.sync } };

    ghost invariant = { λ r. (6 < r.limit) × IfSome (F.pieces r.folder) (IsKept r.version r.limit r.newest r.is_broken) };
}

impl<F: Folder> Roll<F> {
    /// The pieces of a folder in which the newest has so many bytes, all of whole lines. One that is closed has `limit` bytes at least. With `sync`
    /// the heading of a new one is on the disk, and its name, before it gets a line.
    pub fn new(folder: F, version: Version, limit: u64, sync: bool, length: u64) -> Roll<F>
        requires limit { 6 < limit }
        requires newest { IfSome (F.pieces folder) (IsAlone length) }
        ensures { result ≡ record { folder = folder; version = version; limit = limit; sync = sync } }
    {
        let newest = Newest {
            length,
            is_whole: true,
        };
        Roll {
            folder,
            version,
            limit,
            sync,
            newest,
            begun: 0,
            is_broken: false,
        }
    }

    /// How many pieces it has begun.
    pub fn begun(&self) -> u64 {
        self.begun
    }

    /// The folder. Each piece in it but the newest was closed between two lines, with `limit` bytes at least; and what was begun here has less in front
    /// of its last line, and the heading in front of all.
    pub fn folder(&self) -> &F
        ensures folder { result.now ≡ self.now.folder }
        ensures closed { IfSome (F.pieces self.now.folder) (HaveClosed self.now.version self.now.limit) }
    {
        &self.folder
    }

    /// Puts the pieces on the disk, and their names. A call that fails takes nothing from there.
    #[tactic(auto, using(crate::proofs::Standings::all_synced, crate::proofs::Standings::still_there, crate::proofs::Standings::still_behind))]
    pub fn sync(&mut self) -> io::Result<()>
        ensures kept { Keeps (spelt_known self.old.version (F.pieces self.old.folder)) (spelt_known self.new.version (F.pieces self.new.folder)) }
        ensures same { self.new ≡ record self.old { folder = self.new.folder } }
        ensures on_disk { OnOk result (is_on_disk (F.standing self.new.folder) ≡ true) }
        ensures still { OnErr result (is_on_disk (F.standing self.old.folder) ≡ true → is_on_disk (F.standing self.new.folder) ≡ true) }
    {
        self.folder.sync()?;
        self.folder.sync_names()?;
        Ok(())
    }
}

impl<F: Folder> Write for Roll<F> {
    ghost use Rattle.amo_disk.specs.Kept.{spelt_known};

    ghost contents = { λ r. spelt_known r.version (F.pieces r.folder) };

    fn write(&mut self, bytes: &[u8]) -> io::Result<usize> {
        if self.is_broken {
            return Err(io::Error::from(ErrorKind::BrokenPipe));
        }
        self.is_broken = true;
        let is_full = self.newest.is_full(self.limit);
        let newest = make_room(
            &mut self.folder,
            self.version,
            self.limit,
            self.sync,
            self.newest,
        )?;
        self.begun = self.begun.saturating_add(u64::from(is_full));
        match append_part(&mut self.folder, self.limit, newest, bytes) {
            Ok((count, next)) => {
                if let Some(next) = next {
                    self.newest = next;
                    self.is_broken = false;
                }
                Ok(count)
            }
            Err(error) => {
                self.newest = newest;
                self.is_broken = false;
                Err(error)
            }
        }
    }

    fn flush(&mut self) -> io::Result<()> {
        Ok(())
    }
}

/// Begins a new piece where the newest is full. Answers what is known of the newest then: it is not full.
fn make_room<F: Folder>(
    folder: &mut F,
    version: Version,
    limit: u64,
    sync: bool,
    newest: Newest,
) -> io::Result<Newest>
    requires far { 6 < limit }
    requires kept { IfSome (F.pieces folder.old) (IsKept version limit newest false) }
    ensures text { Keeps (spelt_known version (F.pieces folder.old)) (spelt_known version (F.pieces folder.new)) }
    ensures kept { IfOk result (λ next. IfSome (F.pieces folder.new) (IsKept version limit next false)) }
    ensures room { IfOk result (HasRoom limit) }
    ensures broken { OnErr result ((other : Newest) → IfSome (F.pieces folder.new) (IsKept version limit other true)) }
{
    if !newest.is_full(limit) {
        return Ok(newest);
    }
    match begin_piece(folder, version, sync) {
        Ok(()) => Ok(Newest::headed(version)),
        Err(error) => Err(error),
    }
}

/// Appends the first of these bytes to the newest piece, of which this is known, and which is not full. Answers how many, and what is known of it
/// then; none where nobody can count how many it has.
fn append_part<F: Folder>(
    folder: &mut F,
    limit: u64,
    newest: Newest,
    bytes: &[u8],
) -> io::Result<(usize, Option<Newest>)>
    requires room { HasRoom limit newest }
    ensures bound { IfOk result (λ r. r.0 ≤ length bytes.now) }
    ensures grown { IfOk result (λ r. (version : Version) → IfSome (F.pieces folder.old) (IsKept version limit newest false)
        → Grown version limit (F.pieces folder.old) (F.pieces folder.new) (take r.0 bytes.now) r.1) }
    ensures stays { OnErr result (Stays (F.pieces folder.old) (F.pieces folder.new)) }
{
    let part = &bytes[..part_within(newest.length, limit, bytes)];
    match folder.append(part) {
        Ok(count) => Ok((count, newest.with(&part[..count]))),
        Err(error) => Err(error),
    }
}

/// Closes the newest piece and begins another one, with the heading of this version. What is closed is on the disk first, so that a loss of power
/// leaves no gap between pieces.
#[tactic(auto, using(crate::proofs::Standings::all_synced))]
fn begin_piece<F: Folder>(folder: &mut F, version: Version, sync: bool) -> io::Result<()>
    ensures begun { OnOk result (BeginsWith (F.pieces folder.old) (F.pieces folder.new) (heading version)) }
    ensures in_part { OnErr result (BeginsInPart (F.pieces folder.old) (F.pieces folder.new) (heading version)) }
    ensures on_disk { OnOk result (sync ≡ true → is_on_disk (F.standing folder.new) ≡ true) }
{
    folder.sync()?;
    folder.close()?;
    folder.begin()?;
    append_all(folder, version.heading())?;
    if sync {
        folder.sync()?;
        folder.sync_names()?;
    }
    Ok(())
}

/// Appends all the bytes to the newest piece. Where that fails, a beginning of them was appended.
fn append_all<F: Folder>(folder: &mut F, bytes: &[u8]) -> io::Result<()>
    ensures all { OnOk result (Grows (F.pieces folder.old) (F.pieces folder.new) bytes.now) }
    ensures in_part { OnErr result ((n : ℕ) × Grows (F.pieces folder.old) (F.pieces folder.new) (take n bytes.now)) }
{
    let mut done = 0;
    while done < bytes.len() {
        let count = folder.append(&bytes[done..])?;
        if count == 0 {
            return Err(io::Error::from(ErrorKind::WriteZero));
        }
        done += count;
    }
    Ok(())
}
