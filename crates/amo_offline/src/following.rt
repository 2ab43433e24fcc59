//! Tells which messages are got, while a receiver's journal grows.
ghost use Rattle.std.specs.Prelude.{◌≡◌, IfOk};
ghost use Rattle.amo_offline.specs.Statuses.{IsOfReading};

use crate::fault::OfflineFault;
use crate::followed::Followed;
use crate::got::{Got, NO_JOURNAL, ROOM, tell_got_of};
use amo_settings::GotSettings;
use amo_telling::{Reading, whole_lines};
use libc::types::pollfd;
use libc::{EPIPE, net};
use std::fs::File;
use std::io::{self, Write};
use std::os::fd::AsRawFd;
use std::rt::Files;
use thiserror::Error;

/// For how many milliseconds nothing is looked for where nothing has come.
const PAUSE: i32 = 100;

/// Tells which messages were got by a receiver's journal, and goes on as it grows where that is asked for. Answers the status to end with.
pub fn tell_or_follow_got<
    R: AllocGlobal + Eprint + Files<File = File> + Print,
    O: Write + AsRawFd + Drop,
>(rt: &R, settings: &GotSettings, output: O) -> Result<u8, OfflineFault>
    ensures { IfOk result IsOfReading }
{
    let mut output = output;
    if settings.follow {
        follow_got(rt, settings, &mut output)
    } else {
        tell_got_of(rt, settings, &mut output)
    }
}

/// Tells of each message that is got, on standard output, as the journal grows, and answers the status to end with where it is read no further.
/// A journal that is not there yet is waited for.
fn follow_got<R: AllocGlobal + Eprint + Files<File = File>, O: Write + AsRawFd>(
    rt: &R,
    settings: &GotSettings,
    output: &mut O,
) -> Result<u8, OfflineFault>
    ensures { IfOk result (λ status. status ≡ 2) }
{
    let mut following = Following::new(rt, settings)?;
    following.go_on(rt, output)
}

/// What a look at a journal brought.
#[derive(Clone, Copy)]
enum Look {
    /// There may be more to be read at once.
    More,
    /// Nothing has come.
    Nothing,
    /// The journal is read no further.
    End(Reading),
}

/// A journal that is followed, and what was read of it.
#[derive(Drop)]
struct Following {
    journal: Followed,
    got: Got,
    room: Vec<u8>,
    /// It was told that there is no journal yet.
    told_absent: bool,
    /// It was looked whether the journal comes as far as whoever asks says.
    looked_behind: bool,
}

impl Following {
    /// The journal of these settings, of which nothing was read.
    fn new<R: AllocGlobal>(rt: &R, settings: &GotSettings) -> Result<Following, OfflineFault> {
        Ok(Following {
            journal: Followed::new(rt.alloc(), settings.file.as_str())?,
            got: Got::new(rt.alloc(), settings),
            room: vec![in rt.alloc(); 0u8; ROOM]?,
            told_absent: false,
            looked_behind: false,
        })
    }

    /// Looks again and again, and shows what has come, until the journal is read no further. Answers the status to end with.
    fn go_on<R: AllocGlobal + Eprint + Files<File = File>, O: Write + AsRawFd>(
        &mut self,
        rt: &R,
        output: &mut O,
    ) -> Result<u8, OfflineFault>
        ensures { IfOk result (λ status. status ≡ 2) }
    {
        'looks: for _look in 0..u64::MAX {
            let look = self.look(rt)?;
            self.got.show(output)?;
            match look {
                Look::More => {}
                Look::Nothing => self.wait(rt, output)?,
                Look::End(reading) => {
                    self.tell_end(rt, reading);
                    break;
                }
            }
        }
        Ok(NO_JOURNAL)
    }

    /// Waits a moment, where nothing has come, unless the output is gone. It is told once that there is no journal yet, and once, where there is one, that it
    /// does not come as far as whoever asks says.
    fn wait<R: Eprint, O: AsRawFd>(&mut self, rt: &R, output: &O) -> Result<(), OfflineFault> {
        if self.journal.is_there() {
            if !self.looked_behind {
                self.got.tell_behind(rt, self.journal.file());
            }
            self.looked_behind = true;
        } else if !self.told_absent {
            let _ = rt.eprintln(Told::Absent(self.journal.file()));
            self.told_absent = true;
        }
        if is_gone_within(output.as_raw_fd(), PAUSE) {
            return Err(OfflineFault::of_output(io::Error::from_raw_os_error(EPIPE)));
        }
        Ok(())
    }

    /// Reads the whole lines that have come, or looks where they come next. A line without its end is read again with what comes behind it.
    fn look<R: AllocGlobal + Files<File = File>>(&mut self, rt: &R) -> Result<Look, OfflineFault> {
        let count = self.journal.fill(self.room.as_mut_slice())?;
        let length = whole_lines(self.come(count)).len();
        if length > 0 {
            return self.read(length);
        }
        if count >= ROOM || count > 0 && self.journal.is_closed() {
            return Ok(Look::End(self.got.malformed()));
        }
        if self.journal.go_on(rt)? {
            return Ok(Look::More);
        }
        match self.got.reading() {
            Reading::OfSender => Ok(Look::End(Reading::OfSender)),
            _ => Ok(Look::Nothing),
        }
    }

    /// So many of the bytes that were read.
    fn come(&self, count: usize) -> &[u8] {
        let room = self.room.as_slice();
        &room[..count.min(room.len())]
    }

    /// Reads lines of the piece, which have so many bytes, once they are on its disk.
    fn read(&mut self, length: usize) -> Result<Look, OfflineFault> {
        self.journal.keep()?;
        let room = self.room.as_slice();
        let bytes = &room[..length.min(room.len())];
        let is_beginning = self.journal.is_at_beginning();
        if is_beginning && self.got.is_of_another_version(bytes) {
            return Ok(Look::End(self.got.malformed()));
        }
        let reading = self.got.read(bytes, is_beginning)?;
        self.journal.pass(length);
        match reading {
            Reading::Whole | Reading::OfSender => Ok(Look::More),
            _ => Ok(Look::End(reading)),
        }
    }

    /// Tells on standard error why the journal is read no further.
    fn tell_end<R: Eprint>(&self, rt: &R, reading: Reading) {
        let file = self.journal.file();
        if let Some(line) = self.got.tell_end(rt, file, reading) {
            self.got
                .tell_place(rt, file, self.journal.is_at_beginning(), line);
        }
    }
}

/// Whether the output of this number is gone, as a pipe that nobody will read any more, or goes within so many milliseconds.
fn is_gone_within(output: i32, limit: i32) -> bool {
    let mut waited = [pollfd {
        fd: output,
        events: 0,
        revents: 0,
    }];
    net::poll(&mut waited, limit);
    waited[0].revents != 0
}

/// What is told of a journal on a line of its own.
#[derive(Debug, Drop, Error)]
enum Told<'a> {
    /// There is no file of this name yet.
    #[error("amo: {0}: it is not there yet, and is waited for")]
    Absent(&'a str),
}
